//! Lexers that have their text, shown by one over items that are handed in.
ghost use Rattle.lrlex_base.specs.Places.{AreBreaksOf};

use lrlex_base::{
    DefaultLexeme, DefaultLexerTypes, Id, Items, LexError, Lexeme, Lexer, LexerTypes, NewlineCache,
    NonStreamingLexer, Span,
};
use std::alloc::Global;
use std::error::Error;
use std::fmt;
use std::process::Abort;

// An error at a place.
#[derive(Clone, Copy, Debug)]
struct Stop {
    at: Span,
}

impl fmt::Display for Stop {
    fn fmt<W: fmt::Write>(&self, f: &mut fmt::Formatter<W>) -> fmt::Result {
        f.write_str("stopped")
    }
}

impl Error for Stop {}

impl LexError for Stop {
    ghost error_span = { λ x. x.at };

    fn span(&self) -> Span {
        self.at
    }
}

type Types = DefaultLexerTypes<u32, Stop>;

// A text and the items that were found in it.
#[derive(Drop)]
struct Found<'input> {
    text: &'input str,
    newlines: NewlineCache,
    items: Vec<Result<DefaultLexeme<u32>, Stop>>,
    ghost of_text: { AreBreaksOf text.now newlines },
}

impl<'input> Lexer<Types> for Found<'input> {
    ghost items = { λ x. x.items.items };

    fn iter(&self) -> Items<'_, Types> {
        Items::new(&self.items)
    }
}

impl<'input> NonStreamingLexer<'input, Types> for Found<'input> {
    ghost text = { λ x. x.text.now };

    fn span_str(&self, span: Span) -> &'input str {
        &self.text[span.start()..span.end()]
    }

    fn span_lines_str(&self, span: Span) -> &'input str {
        let (start, end) = self.newlines.span_line_bytes(span);
        &self.text[start..end]
    }

    fn line_col(&self, span: Span) -> ((usize, usize), (usize, usize)) {
        let start = self
            .newlines
            .byte_to_line_num_and_col_num(self.text, span.start());
        let end = self
            .newlines
            .byte_to_line_num_and_col_num(self.text, span.end());
        match (start, end) {
            (Some(start), Some(end)) => (start, end),
            _ => unreachable!(),
        }
    }
}

/// A lexer of this text with these items.
fn lexer_of<'t>(
    rt: &impl Abort,
    alloc: Global,
    text: &'t str,
    items: &[(usize, usize)],
) -> Found<'t> {
    let mut made: Vec<Result<DefaultLexeme<u32>, Stop>> = Vec::new(alloc);
    for (start, len) in items {
        let lexeme = DefaultLexeme::new(0, (*start).min(9), (*len).min(9));
        made.push(Ok(lexeme)).expect(rt, "memory");
    }
    Found {
        text,
        newlines: NewlineCache::from_str(alloc, text).expect(rt, "memory"),
        items: made,
    }
}

/// A word, its place and that of its end, and its line.
type Word = (&'static str, ((usize, usize), (usize, usize)), &'static str);

const WORDS: &[Word] = &[
    ("a", ((1, 2), (1, 3)), " a"),
    ("❤", ((2, 1), (2, 2)), "❤ b"),
    ("b", ((2, 3), (2, 4)), "❤ b"),
];

/// Whether the span is that of the word, with its place and its line.
fn is_word(lexer: &Found<'_>, span: Span, word: &Word) -> bool {
    let (text, places, lines) = *word;
    span.fits(lexer.text)
        && lexer.span_str(span) == text
        && lexer.line_col(span) == places
        && lexer.span_lines_str(span) == lines
}

#[test]
fn words_have_texts_lines_and_columns(rt: HostRuntime) {
    let lexer = lexer_of(&rt, rt.alloc(), " a\n❤ b", &[(1, 1), (3, 3), (7, 1)]);
    let mut words = WORDS.iter();
    for item in lexer.iter() {
        match (item, words.next()) {
            (Ok(lexeme), Some(word)) => assert!(rt; is_word(&lexer, lexeme.span(), word)),
            _ => panic!(rt; "an error, or too many"),
        }
    }
    assert!(rt; words.next().is_none());
}

// The id after this one, by code over any lexer's types: for this it adds the bound `Id`.
fn id_after<L: LexerTypes>(id: L::StorageT) -> Option<L::StorageT>
where
    L::StorageT: Id,
{
    L::StorageT::from_count(id.to_count()?.checked_add(1)?)
}

#[test]
fn code_over_any_types_calculates_with_ids(rt: HostRuntime) {
    assert!(rt; id_after::<DefaultLexerTypes<u8, Stop>>(254) == Some(255));
    assert!(rt; id_after::<DefaultLexerTypes<u8, Stop>>(255).is_none());
}
