//! Semantic tokens: what the pieces of a text are shown as, five numbers a token, each placed by the one before it.
ghost use Rattle.std.specs.Prelude.{◌≡◌, ◌+◌, ◌^◌, ◌<◌, ◌++◌, [], ◌∷◌, ℕ, List, IfOk, IsTrue, OnOk, drop, length};
ghost use Rattle.lrlex.specs.Pieces.{ArePiecesIn};
ghost use Rattle.lrlex.specs.Views.{definition_of};
ghost use Rattle.lrlex.specs.Words.{IsUpTo, width};
ghost use Rattle.lrlex.specs.declared.reading.pieces.Piece.{Piece as ThePiece};
ghost use Rattle.lrlex_lsp.specs.Rows.{GoesTo, IsPartOfLine, IsRowAt};
ghost use Rattle.lrlex_lsp.specs.Shown.{AreInRow, TellPieces, begin_of};
ghost use Rattle.lrlex_lsp.specs.Tokens.{AreTold, IsNextToken, ends_line, part_token, piece_tokens, reached, short, told_from};

use crate::languages::{Language, Types};
use lrlex::{Document, Piece, PositionEncoding, piece_laws};
use std::alloc::{AllocError, Global};

/// How many columns a text takes.
pub(crate) fn width(encoding: PositionEncoding, text: &str) -> usize
    ensures { result ≡ width encoding text.now }
{
    match encoding {
        PositionEncoding::Utf8 => text.len(),
        PositionEncoding::Utf16 => text.encode_utf16().count(),
    }
}

/// How far a token is from the one before: lines down, and columns right, in the same line from that token's beginning and else
/// from the line's.
fn from_last(last: (usize, usize), place: (usize, usize)) -> (usize, usize)
    ensures reaches { IsUpTo last place → reached last result ≡ place }
    ensures is { result ≡ told_from last place }
{
    if last.0 < place.0 {
        (place.0 - last.0, place.1)
    } else {
        (0, place.1.saturating_sub(last.1))
    }
}

/// A number of 32 bits, or the greatest.
fn short(number: usize) -> u32
    ensures { result ≡ short number }
{
    u32::try_from(number).unwrap_or(u32::MAX)
}

/// How many bytes a piece has, and how many tokens it is shown as.
#[derive(Clone, Copy)]
pub(crate) struct Extent {
    pub(crate) bytes: usize,
    pub(crate) tokens: usize,
}

/// What pieces in a row are shown as.
#[derive(Drop)]
pub(crate) struct Tokens {
    /// Five numbers a token.
    pub(crate) numbers: Vec<u32>,
    /// Each piece in turn.
    pub(crate) pieces: Vec<Extent>,
}

impl Tokens {
    /// Those of no pieces.
    pub(crate) fn none(alloc: Global) -> Tokens
        ensures { result.numbers.items ≡ [] }
    {
        Tokens {
            numbers: Vec::new(alloc),
            pieces: Vec::new(alloc),
        }
    }
}

/// Tokens to which those of one piece after the other are added.
#[derive(Drop)]
struct Row {
    encoding: PositionEncoding,
    tokens: Tokens,
    /// Line and column where the next piece begins.
    place: (usize, usize),
    /// Whether that is behind U+000D, which has ended a line.
    returned: bool,
    /// Line and column where the last token begins.
    last: (usize, usize),
}

/// Whether the byte is U+000A or U+000D, which end lines, alone or together.
pub(crate) fn ends_line(byte: u8) -> bool
    ensures { result ≡ ends_line byte }
{
    byte == b'\n' || byte == b'\r'
}

impl Row {
    /// Adds a token at the place, which isn't before the last one.
    fn push(&mut self, length: usize, kind: u32) -> Result<(), AllocError>
        ensures next { OnOk result (IsNextToken self.old.last self.old.place length kind
            self.old.tokens.numbers.items self.new.tokens.numbers.items) }
        ensures last { OnOk result (self.new.last ≡ self.old.place) }
        ensures told { OnOk result (AreTold
            (record { place = self.old.place; columns = length; kind = kind } ∷ [])
            self.old.last self.new.last self.old.tokens.numbers.items
            self.new.tokens.numbers.items) }
        ensures encoding { self.new.encoding ≡ self.old.encoding }
        ensures place { self.new.place ≡ self.old.place }
        ensures returned { self.new.returned ≡ self.old.returned }
    {
        let (down, right) = from_last(self.last, self.place);
        let token = [short(down), short(right), short(length), kind, 0];
        self.tokens.numbers.extend_from_slice(&token)?;
        self.last = self.place;
        Ok(())
    }

    /// Goes over a part of a line, which has a token unless it is empty or plain. How many tokens that adds.
    fn push_part(&mut self, part: &str, kind: Option<u32>) -> Result<usize, AllocError>
        ensures { (text rest : List ℕ) → (at : ℕ) → length text < 2 ^ 64 →
            IsRowAt text at self.old → drop at text ≡ part.now ++ rest →
            IsPartOfLine part.now → OnOk result (GoesTo text (at + length part.now)
            (part_token self.old.encoding text kind at part.now) self.old self.new) }
    {
        if part.is_empty() {
            return Ok(0);
        }
        let length = width(self.encoding, part);
        let mut added = 0;
        if let Some(kind) = kind {
            self.push(length, kind)?;
            added = 1;
        }
        let (line, column) = self.place;
        self.place = (line, column.saturating_add(length));
        self.returned = false;
        Ok(added)
    }

    /// Goes behind a byte that ends a line. U+000A behind U+000D ends none: that has ended it.
    fn end_line(&mut self, byte: u8)
        requires { IsTrue (ends_line byte) }
        ensures { (text rest : List ℕ) → (at : ℕ) → length text < 2 ^ 64 →
            IsRowAt text at self.old → drop at text ≡ byte ∷ rest →
            GoesTo text (at + 1) [] self.old self.new }
    {
        if self.returned && byte == b'\n' {
            self.returned = false;
        } else {
            self.place = (self.place.0.saturating_add(1), 0);
            self.returned = byte == b'\r';
        }
    }

    /// Goes over a piece, with a token for each part of a line in it.
    fn push_piece(&mut self, text: &str, kind: Option<u32>) -> Result<(), AllocError>
        ensures { (text' rest : List ℕ) → (at : ℕ) → length text' < 2 ^ 64 →
            IsRowAt text' at self.old → drop at text' ≡ text.now ++ rest →
            OnOk result (GoesTo text' (at + length text.now)
            (piece_tokens self.old.encoding text' kind at text.now) self.old self.new) }
    {
        let mut tokens = 0usize;
        let mut begin = 0;
        let bytes = text.as_bytes();
        for at in 0..bytes.len() {
            if ends_line(bytes[at]) {
                tokens = tokens.saturating_add(self.push_part(&text[begin..at], kind)?);
                self.end_line(bytes[at]);
                begin = at + 1;
            }
        }
        tokens = tokens.saturating_add(self.push_part(&text[begin..], kind)?);
        let bytes = text.len();
        self.tokens.pieces.push(Extent { bytes, tokens })?;
        Ok(())
    }
}

/// Does nothing: its contract says that the pieces of a part of a document stand in its text, one behind the other.
fn row_laws(document: &Document<'_, Types>, text: &str)
    requires { text.now ≡ document.now.text }
    ensures { (from to : ℕ) (pieces : List ThePiece) → ArePiecesIn
        (definition_of (λ n. n) document.now.definition) document.now.text
        document.now.boundaries from to pieces → AreInRow document.now.text pieces }
{
    document.laws();
    piece_laws();
    // its length is known where it is lent
    let _ = document.text();
}

/// Where the first of these pieces begins, or 0.
fn begin_of(pieces: &[Piece<'_, '_>]) -> usize
    ensures { result ≡ begin_of pieces.now }
{
    match pieces.first() {
        Some(piece) => piece.span.start(),
        None => 0,
    }
}

/// The tokens of these pieces of the document, which stand in a row, after a token at the place `last`.
fn tokens_of(
    alloc: Global,
    language: &Language,
    document: &Document<'_, Types>,
    encoding: PositionEncoding,
    pieces: &[Piece<'_, '_>],
    last: (usize, usize),
) -> Result<Tokens, AllocError>
    requires { AreInRow document.now.text pieces.now }
    ensures { IfOk result (λ told. TellPieces language.now encoding document.now.text
        pieces.now last told.numbers.items) }
{
    let mut row = Row {
        encoding,
        tokens: Tokens::none(alloc),
        place: document.position_in(begin_of(pieces), encoding),
        returned: false,
        last,
    };
    for piece in pieces {
        row.push_piece(piece.text, language.kind_of(piece))?;
    }
    Ok(row.tokens)
}

/// The tokens of the pieces that have a byte in `bytes.0..bytes.1`, after a token at the place `last`.
pub(crate) fn tokens_in(
    alloc: Global,
    language: &Language,
    document: &Document<'_, Types>,
    encoding: PositionEncoding,
    bytes: (usize, usize),
    last: (usize, usize),
) -> Result<Tokens, AllocError>
    ensures { IfOk result (λ told. (pieces : List ThePiece) × ArePiecesIn
        (definition_of (λ n. n) document.now.definition) document.now.text
        document.now.boundaries bytes.0 bytes.1 pieces
        × TellPieces language.now encoding document.now.text pieces last told.numbers.items) }
{
    row_laws(document, document.text());
    let pieces = document.pieces_in(alloc, bytes.0, bytes.1)?;
    tokens_of(alloc, language, document, encoding, pieces.as_slice(), last)
}
