//! Bytes that aren't UTF-8, and a byte order mark at the start of a text.
ghost use Rattle.std.specs.Prelude.{◌≡◌, IfOk, IfSome, IsUtf8, MatchOption, string_bytes};
ghost use Rattle.lrlex_report.specs.Encoding.{bad_byte, IsBadByteText, mark_note};

use crate::places::place_text;
use lrlex_base::Span;
use std::alloc::{AllocError, Global};
use std::str;

/// The message for a byte that isn't UTF-8: `not UTF-8, byte 0xFF at offset 17`.
fn bad_byte(alloc: Global, byte: u8, offset: usize) -> Result<String, AllocError>
    ensures { IfOk result (λ s. string_bytes s ≡ bad_byte byte offset) }
{
    format!(in alloc; "not UTF-8, byte 0x{byte:X} at offset {offset}")
}

/// Reports the first byte of a file that isn't UTF-8; `None` if all are.
///
/// The report is `FILE:L:C: not UTF-8, byte 0xFF at offset 17`, then the line up to the byte, then a caret under the byte's
/// place. The offset counts bytes from 0. Line and column count from 1, in the text before the byte.
pub fn bad_byte_text(alloc: Global, file: &str, bytes: &[u8]) -> Result<Option<String>, AllocError>
    ensures text { IfOk result (λ told.
        MatchOption told (IsUtf8 bytes.now) (λ shown. ¬ (IsUtf8 bytes.now))) }
    ensures shown { IfOk result (λ told.
        IfSome told (λ shown. IsBadByteText file.now bytes.now (string_bytes shown))) }
{
    let Err(error) = str::from_utf8(bytes) else {
        return Ok(None);
    };
    let offset = error.valid_up_to();
    let front = str::from_utf8(&bytes[..offset]).unwrap();
    let message = bad_byte(alloc, bytes[offset], offset)?;
    let place = Span::new(offset, offset);
    Ok(Some(place_text(alloc, file, front, place, &message)?))
}

/// What a message at this place ends with: it names the byte order mark if there is one at this place, and else is empty. The
/// place counts bytes from 0.
pub(crate) fn mark_note(text: &str, at: usize) -> &'static str
    ensures { result.now ≡ mark_note text.now at }
{
    if at == 0 && text.starts_with("\u{feff}") {
        ": the text begins with a byte order mark (U+FEFF)"
    } else {
        ""
    }
}
