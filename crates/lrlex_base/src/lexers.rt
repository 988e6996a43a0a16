ghost use Rattle.std.specs.Prelude.{◌≡◌, ℕ, List, slice_range};
ghost use Rattle.lrlex_base.specs.Spans.{span_start, span_end, as_span, Fits};
ghost use Rattle.lrlex_base.specs.Places.{place_of, whole_lines};

use crate::lexemes::{LexError, Lexeme};
use crate::numbered::Numbered;
use crate::spans::Span;
use std::fmt::{Debug, Display};
use std::hash::Hash;

/// The types that a lexer works with: its lexemes, the ids in them, and its error. Of an id it asks what lexing needs. Code that
/// calculates with ids adds the bound `L::StorageT: Id`.
pub trait LexerTypes {
    type LexemeT: Lexeme<Self::StorageT>;

    type StorageT: Numbered + Debug + Display + Eq + Hash;

    type LexErrorT: LexError + Copy;
}

/// The items of a slice, each a lexeme or an error, by value and in order.
#[derive(Drop)]
pub struct Items<'a, L: LexerTypes> {
    rest: &'a [Result<L::LexemeT, L::LexErrorT>],
}

impl<'a, L: LexerTypes> Items<'a, L> {
    ghost use Rattle.lrlex_base.specs.Items.{items_left};

    /// The items of this slice, none of them taken yet.
    pub fn new(items: &'a [Result<L::LexemeT, L::LexErrorT>]) -> Items<'a, L>
        ensures { items_left result ≡ items.now }
    {
        Items { rest: items }
    }
}

impl<'a, L: LexerTypes> Iterator for Items<'a, L> {
    ghost use Rattle.std.specs.Iterator.{YieldsFirst, item_count};
    ghost use Rattle.lrlex_base.specs.Items.{items_left};

    type Item = Result<L::LexemeT, L::LexErrorT>;

    ghost next_gives = { YieldsFirst items_left };

    ghost remaining = { item_count items_left };

    fn next(&mut self) -> Option<Result<L::LexemeT, L::LexErrorT>> {
        let (first, others) = self.rest.split_first()?;
        self.rest = others;
        Some(*first)
    }
}

/// A source of lexemes, with an error as the last item where lexing stopped.
pub trait Lexer<L: LexerTypes> {
    ghost use Rattle.std.specs.Prelude.{◌≡◌, List, Result};
    ghost use Rattle.lrlex_base.specs.Items.{items_left};

    // The lexemes, and the error.
    ghost items: { Self → List (Result L.LexemeT L.LexErrorT) };

    /// The lexer's items, each once and in order.
    fn iter(&self) -> Items<'_, L>
        ensures { items_left result ≡ items self.now };
}

/// A lexer that has its whole text. Calls with a span require that it fits that text (`Span::fits`). The texts that they
/// return live as long as the input.
pub trait NonStreamingLexer<'input, L: LexerTypes>: Lexer<L> {
    // The input.
    ghost text: { Self → List ℕ };

    /// The text of the span.
    fn span_str(&self, span: Span) -> &'input str
        requires { Fits (text self.now) span }
        ensures { result.now ≡ slice_range (text self.now) (span_start span) (span_end span) };

    /// The whole lines that the span touches, without the newline of the last one.
    fn span_lines_str(&self, span: Span) -> &'input str
        requires { Fits (text self.now) span }
        ensures { let lines = whole_lines (text self.now) (as_span span) in
            result.now ≡ slice_range (text self.now) lines.start lines.end };

    /// Line and column of the span's start and of its end. Lines and columns count from 1, and a column counts characters.
    fn line_col(&self, span: Span) -> ((usize, usize), (usize, usize))
        requires { Fits (text self.now) span }
        ensures start { result.0 ≡ place_of (text self.now) (span_start span) }
        ensures end { result.1 ≡ place_of (text self.now) (span_end span) };
}
