ghost use Rattle.std.specs.Prelude.{◌≡◌, ℕ, List, [], All, IfOk, IsCharBoundary, IsUtf8, slice_range};
ghost use Rattle.lrlex_base.specs.Spans.{Fits, span_start, span_end};
ghost use Rattle.lrlex_base.specs.Places.{AreBreaksOf, place_of};
ghost use Rattle.lrlex.specs.ItemLaws.{FitsText, AreItemsOf};
ghost use Rattle.lrlex_boundaries.specs.Boundaries.{Boundary};
ghost use Rattle.lrlex_positions.specs.Nearest.{IsNearest};
ghost use Rattle.lrlex.specs.Reach.{IsRun};
ghost use Rattle.lrlex.specs.Utf16.{utf16_position};
ghost use Rattle.lrlex_positions.specs.Lines.{AreLinesOf, HasPosition, IsNearestPlace};
ghost use Rattle.lrlex_positions.specs.Positions.{position_of, IsLastUpTo};
ghost use Rattle.lrlex.specs.Views.{definition_of, items_by};

use crate::definition::non_streaming::LRNonStreamingLexerDef;
use crate::lexing::run::LexRun;
use lrlex_base::{Items, Lexer, LexerTypes, NewlineCache, NonStreamingLexer, Span};
use lrlex_positions::{Lines, PositionEncoding, offset_at, place_of, position_at, text_of};
use lrlex_rules::LRLexError;
use std::alloc::{AllocError, Global};
use std::marker::{Model, PhantomData};

/// A text with the places of its newlines and lines.
#[derive(Drop)]
struct Input<'input> {
    text: &'input str,
    newlines: NewlineCache,
    lines: Lines,
    ghost of_text: { AreBreaksOf text.now newlines },
    ghost lines_of: { AreLinesOf text.now lines },
}

impl<'input> Input<'input> {
    /// The text, with the places of its newlines and lines.
    fn new(alloc: Global, text: &'input str) -> Result<Input<'input>, AllocError>
        ensures text { IfOk result (λ input. input.text.now ≡ text.now) }
        ensures utf8 { IsUtf8 text.now }
    {
        let newlines = NewlineCache::from_str(alloc, text)?;
        Ok(Input {
            text,
            newlines,
            lines: Lines::of(alloc, text),
        })
    }

    /// Line and column of the place before this byte, both from 1.
    fn place(&self, byte: usize) -> (usize, usize)
        requires { IsCharBoundary self.now.text.now byte }
        ensures { result ≡ place_of self.now.text.now byte }
    {
        self.newlines
            .byte_to_line_num_and_col_num(self.text, byte)
            .unwrap()
    }
}

/// The items of a text with the text itself. The texts that it hands out are the input's own, and outlive it.
#[derive(Drop)]
pub struct LRNonStreamingLexer<'lexer, 'input, L: LexerTypes<LexErrorT = LRLexError>> {
    input: Input<'input>,
    lexemes: Vec<Result<L::LexemeT, LRLexError>>,
    phantom: PhantomData<&'lexer ()>,
}

impl<'lexer, 'input, L: LexerTypes<LexErrorT = LRLexError>> Model
    for LRNonStreamingLexer<'lexer, 'input, L> {
    ghost use Rattle.lrlex.specs.Lexer.{Held};

    ghost Value = { Held L.LexemeT };

    ghost view = { λ l. record { items = l.lexemes.items; text = l.input.text.now } };
}

impl<'lexer, 'input, L: LexerTypes<LexErrorT = LRLexError>> LRNonStreamingLexer<'lexer, 'input, L> {
    ghost use Rattle.lrlex.specs.Lexer.{lexer_items, lexer_text};

    /// A lexer that gives these items, in order, over the text `s`. The cache is that of `s`: it was fed as many bytes,
    /// with U+000A at the same places.
    pub fn new(
        s: &'input str,
        lexemes: Vec<Result<L::LexemeT, LRLexError>>,
        newlines: NewlineCache,
    ) -> LRNonStreamingLexer<'lexer, 'input, L>
        requires { AreBreaksOf s.now newlines }
        ensures items { lexer_items result ≡ lexemes.items }
        ensures text { lexer_text result ≡ s.now }
    {
        let lines = Lines::of(*lexemes.allocator(), s);
        LRNonStreamingLexer {
            input: Input {
                text: s,
                newlines,
                lines,
            },
            lexemes,
            phantom: PhantomData,
        }
    }

    /// The text of the span, or the empty text where the span doesn't fit the input: `span_str` without a condition.
    pub fn text_of(&self, span: Span) -> &'input str
        ensures fits { Fits (lexer_text self.now) span
            → result.now ≡ slice_range (lexer_text self.now) (span_start span) (span_end span) }
        ensures none { ¬ (Fits (lexer_text self.now) span) → result.now ≡ [] }
    {
        text_of(self.input.text, span)
    }

    /// Line and column of the place before this byte, both from 1; a column counts characters. Inside a character it is the
    /// place before that, and past the input's end the end.
    pub fn place(&self, byte: usize) -> (usize, usize)
        ensures fits { IsCharBoundary (lexer_text self.now) byte
            → result ≡ place_of (lexer_text self.now) byte }
        ensures nearest { (at : ℕ) → IsNearest (lexer_text self.now) byte at
            → result ≡ place_of (lexer_text self.now) at }
    {
        place_of(&self.input.newlines, self.input.text, byte)
    }

    /// Line and column of the place before this byte as the Language Server Protocol counts them: both from 0, the column in
    /// code units of UTF-16. A line ends by U+000A, by U+000D and U+000A, or by U+000D alone. Inside a character, or between
    /// U+000D and U+000A, it is the place before that, and past the input's end the end.
    pub fn position(&self, byte: usize) -> (usize, usize)
        ensures fits { HasPosition (lexer_text self.now) byte
            → result ≡ utf16_position (lexer_text self.now) byte }
        ensures nearest { (at : ℕ) → IsNearestPlace (lexer_text self.now) byte at
            → result ≡ utf16_position (lexer_text self.now) at }
    {
        self.position_in(byte, PositionEncoding::Utf16)
    }

    /// Line and column of the place before this byte as `position` counts them, but the column as the encoding says. Inside a
    /// character, or between U+000D and U+000A, it is the place before that, and past the input's end the end.
    pub fn position_in(&self, byte: usize, encoding: PositionEncoding) -> (usize, usize)
        ensures fits { HasPosition (lexer_text self.now) byte
            → result ≡ position_of encoding (lexer_text self.now) byte }
        ensures nearest { (at : ℕ) → IsNearestPlace (lexer_text self.now) byte at
            → result ≡ position_of encoding (lexer_text self.now) at }
    {
        let input = &self.input;
        position_at(&input.newlines, &input.lines, input.text, byte, encoding)
    }

    /// The byte of a line and column, counted as `position_in` does: the last place whose position isn't behind that. Past a
    /// line's end it is the place before what ends the line, past the last line the input's end, and inside a character the place
    /// before that. It walks over one line at most, unless memory ran out for the lines of an input in which U+000D alone ends one.
    pub fn offset_at(&self, position: (usize, usize), encoding: PositionEncoding) -> usize
        ensures last { IsLastUpTo encoding (lexer_text self.now) position result }
        ensures inverse { (at : ℕ) → HasPosition (lexer_text self.now) at →
            position_of encoding (lexer_text self.now) at ≡ position → result ≡ at }
    {
        let input = &self.input;
        offset_at(
            &input.newlines,
            &input.lines,
            input.text,
            position,
            encoding,
        )
    }
}

impl<'lexer, 'input, L: LexerTypes<LexErrorT = LRLexError>> Lexer<L>
    for LRNonStreamingLexer<'lexer, 'input, L> {
    ghost use Rattle.lrlex.specs.Lexer.{lexer_items};

    ghost items = { lexer_items };

    fn iter(&self) -> Items<'_, L> {
        Items::new(&self.lexemes)
    }
}

impl<'lexer, 'input, L: LexerTypes<LexErrorT = LRLexError>> NonStreamingLexer<'input, L>
    for LRNonStreamingLexer<'lexer, 'input, L> {
    ghost use Rattle.lrlex.specs.Lexer.{lexer_text};

    ghost text = { lexer_text };

    fn span_str(&self, span: Span) -> &'input str {
        &self.input.text[span.start()..span.end()]
    }

    fn span_lines_str(&self, span: Span) -> &'input str {
        let (start, end) = self.input.newlines.span_line_bytes(span);
        &self.input.text[start..end]
    }

    fn line_col(&self, span: Span) -> ((usize, usize), (usize, usize)) {
        (self.input.place(span.start()), self.input.place(span.end()))
    }
}

impl<'lexer, 'input, L: LexerTypes<LexErrorT = LRLexError>> LexRun<'lexer, 'input, L> {
    ghost use Rattle.lrlex.specs.Lexer.{lexer_items, lexer_text};

    /// The run's items, and its text. The span of each item fits the text.
    pub fn into_lexer(
        self,
        alloc: Global,
    ) -> Result<LRNonStreamingLexer<'lexer, 'input, L>, AllocError>
        ensures items { IfOk result (λ lexer. lexer_items lexer ≡ self.entry.items) }
        ensures text { IfOk result (λ lexer. lexer_text lexer ≡ self.entry.text) }
        ensures run { IfOk result (λ lexer. IsRun
            (definition_of L.StorageT.number self.entry.definition) (lexer_text lexer)
            (items_by L.StorageT.number L.LexemeT.seen (lexer_items lexer)) self.entry.boundaries) }
        ensures fit { IfOk result (λ lexer. All (FitsText (lexer_text lexer))
            (items_by L.StorageT.number L.LexemeT.seen (lexer_items lexer))) }
        ensures laws { IfOk result (λ lexer. AreItemsOf
            (definition_of L.StorageT.number self.entry.definition)
            (lexer_text lexer) (items_by L.StorageT.number L.LexemeT.seen (lexer_items lexer))) }
    {
        let LexRun { text, lexed, .. } = self;
        let lexemes = lexed.into_items();
        let input = Input::new(alloc, text)?;
        Ok(LRNonStreamingLexer {
            input,
            lexemes,
            phantom: PhantomData,
        })
    }
}

impl<L: LexerTypes<LexErrorT = LRLexError>> LRNonStreamingLexerDef<L> {
    ghost use Rattle.lrlex.specs.Lexer.{lexer_items, lexer_text};

    /// Lexes the input as `run` does, and gives the items with the input. The span of each item fits the input.
    pub fn lexer<'lexer, 'input>(
        &'lexer self,
        alloc: Global,
        input: &'input str,
    ) -> Result<LRNonStreamingLexer<'lexer, 'input, L>, AllocError>
        ensures text { IfOk result (λ lexer. lexer_text lexer ≡ input.now) }
        ensures run { IfOk result (λ lexer. (bounds : List Boundary)
            × IsRun (definition_of L.StorageT.number self.now) input.now
            (items_by L.StorageT.number L.LexemeT.seen (lexer_items lexer)) bounds) }
        ensures fit { IfOk result (λ lexer. All (FitsText input.now)
            (items_by L.StorageT.number L.LexemeT.seen (lexer_items lexer))) }
        ensures laws { IfOk result (λ lexer. AreItemsOf (definition_of L.StorageT.number self.now)
            input.now (items_by L.StorageT.number L.LexemeT.seen (lexer_items lexer))) }
    {
        self.run(alloc, input)?.into_lexer(alloc)
    }
}
