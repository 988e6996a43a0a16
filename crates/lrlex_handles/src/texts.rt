//! Texts and items in a caller's buffer.
ghost use Rattle.std.specs.Prelude.{◌≡◌, ◌-◌, ◌<◌, length, pos, MatchOption};
ghost use Rattle.lrlex_base.specs.Lexemes.{lexeme_seen};
ghost use Rattle.lrlex.specs.Views.{item_of};
ghost use Rattle.lrlex_handles.specs.Buffers.{filled, put_token, token_by, piece_by, copied, IsWritten};

use crate::status::{NONE, OK};
use crate::structs::{Piece, Token};
use lrlex::{DefaultLexeme, LRLexError, Lexeme};

pub(crate) type Item = Result<DefaultLexeme<u32>, LRLexError>;

/// Copies as many of the bytes as there is room for.
fn copy_bytes(bytes: &[u8], out: &mut [u8])
    ensures { out.new ≡ copied bytes.now out.old }
{
    let room = bytes.len().min(out.len());
    out[..room].copy_from_slice(&bytes[..room]);
}

/// Copies as many of the bytes as there is room for, and says how many there are.
pub(crate) fn write_bytes(bytes: &[u8], out: &mut [u8], len: &mut usize)
    ensures { IsWritten bytes.now out.old out.new len.new }
{
    copy_bytes(bytes, out);
    *len = bytes.len();
}

/// Copies as much of the text as there is room for, and says how long it is.
pub(crate) fn write_text(text: &str, out: &mut [u8], len: &mut usize)
    ensures { IsWritten text.now out.old out.new len.new }
{
    write_bytes(text.as_bytes(), out, len);
}

/// Copies as much of the name as there is room for, and says how long it is, if there is one.
pub(crate) fn write_name(name: Option<&str>, out: &mut [u8], len: &mut usize) -> i32
    ensures { MatchOption name.entry (result ≡ pos 5)
        (λ t. (result ≡ pos 0) × IsWritten t.now out.old out.new len.new) }
{
    match name {
        None => NONE,
        Some(name) => {
            write_text(name, out, len);
            OK
        }
    }
}

fn token_of(lexeme: DefaultLexeme<u32>) -> Token
    ensures { result ≡ token_by (lexeme_seen lexeme) }
{
    let span = lexeme.span();
    Token {
        start: span.start(),
        len: span.len(),
        id: lexeme.tok_id(),
    }
}

/// Writes as many of the lexemes as there is room for, each at the index of its item.
pub(crate) fn copy_tokens(items: &[Item], out: &mut [Token])
    ensures { out.new ≡ filled (λ x. put_token (item_of (λ n. n) lexeme_seen x)) items.now out.old }
{
    let room = items.len().min(out.len());
    for i in 0..room {
        if let Ok(lexeme) = items[i] {
            out[i] = token_of(lexeme);
        }
    }
}

fn piece_of(piece: &lrlex::Piece<'_, '_>) -> Piece
    ensures { result ≡ piece_by piece.now }
{
    Piece {
        start: piece.span.start(),
        len: piece.span.len(),
        rule: piece.rule,
    }
}

/// Writes as many of the pieces as there is room for.
pub(crate) fn copy_pieces(pieces: &[lrlex::Piece<'_, '_>], out: &mut [Piece])
    ensures { out.new ≡ filled (λ p _. piece_by p) pieces.now out.old }
{
    let room = pieces.len().min(out.len());
    for i in 0..room {
        out[i] = piece_of(&pieces[i]);
    }
}
