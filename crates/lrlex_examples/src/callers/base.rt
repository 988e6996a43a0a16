//! Places in a text, and edits of it.
ghost use Rattle.std.specs.Prelude.{◌≡◌, ◌↔◌, IfOk, IsSome, IfSome, IsCharBoundary};
ghost use Rattle.lrlex_base.specs.Places.{place_of};

use lrlex_base::{Edit, NewlineCache, Span};
use std::alloc::{AllocError, Global};

/// The text with the bytes from `from` up to `to` replaced by `put`. None where there are no such bytes, or where an end is
/// inside a character.
pub fn replaced(
    alloc: Global,
    text: &str,
    from: usize,
    to: usize,
    put: &str,
) -> Result<Option<String>, AllocError> {
    if from > to {
        return Ok(None);
    }
    let edit = Edit {
        removed: Span::new(from, to),
        put,
    };
    if !edit.fits(text) {
        return Ok(None);
    }
    Ok(Some(edit.apply(alloc, text)?))
}

/// Line and column of the character at a byte of the text, both from 1. None inside a character and past the text's end.
pub fn place_in(
    alloc: Global,
    text: &str,
    byte: usize,
) -> Result<Option<(usize, usize)>, AllocError>
    ensures found { IfOk result (λ place. IsSome place ↔ IsCharBoundary text.now byte) }
    ensures place { IfOk result (λ place. IfSome place (λ p. p ≡ place_of text.now byte)) }
{
    if !text.is_char_boundary(byte) {
        return Ok(None);
    }
    let newlines = NewlineCache::from_str(alloc, text)?;
    Ok(newlines.byte_to_line_num_and_col_num(text, byte))
}
