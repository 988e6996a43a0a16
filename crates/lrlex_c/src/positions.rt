//! Lines and columns of a document.
ghost use Rattle.std.specs.Prelude.{◌≡◌, ◌↔◌, ℕ, pos, None, IfSome, MatchOption};
ghost use Rattle.lrlex_base.specs.Places.{place_of};
ghost use Rattle.lrlex_positions.specs.Lines.{IsNearestPlace, HasPosition};
ghost use Rattle.lrlex_positions.specs.Positions.{position_of, IsLastUpTo};
ghost use Rattle.lrlex.specs.Nearest.{IsNearest};
ghost use Rattle.lrlex.specs.Utf16.{utf16_position};
ghost use Rattle.lrlex_handles.specs.Buffers.{place_by};
ghost use Rattle.lrlex_handles.specs.Encodings.{encoding_by};
ghost use Rattle.lrlex_handles.specs.Objects.{document_in};

use lrlex_handles::documents::{offsets, places};
use lrlex_handles::handle::Handle;
use lrlex_handles::structs::Place;
use std::alloc::Global;

/// Line and column of the place before this byte of the document, both from 1. The column counts characters. Inside a character it is
/// the place before that, and past the text's end the end.
#[unsafe(no_mangle)]
pub extern "C" fn lrlex_document_place(
    alloc: Global,
    handle: &mut Handle,
    byte: usize,
    out: &mut Place,
) -> i32
    ensures kept { document_in handle.new.value ≡ document_in handle.old.value }
    ensures misused { result ≡ pos 4 ↔ document_in handle.old.value ≡ None }
    ensures done { IfSome (document_in handle.old.value) (λ d. (result ≡ pos 0)
        × ((at : ℕ) → IsNearest d.1 byte at → out.new ≡ place_by (place_of d.1 at))) }
{
    places::place_at(alloc, handle, byte, out)
}

/// Line and column of the place before this byte of the document as the Language Server Protocol counts them: both from 0, the column
/// in code units of UTF-16. A line ends by U+000A, by U+000D and U+000A, or by U+000D alone. Inside a character, or between U+000D and
/// U+000A, it is the place before that, and past the text's end the end.
#[unsafe(no_mangle)]
pub extern "C" fn lrlex_document_position(
    alloc: Global,
    handle: &mut Handle,
    byte: usize,
    out: &mut Place,
) -> i32
    ensures kept { document_in handle.new.value ≡ document_in handle.old.value }
    ensures misused { result ≡ pos 4 ↔ document_in handle.old.value ≡ None }
    ensures done { IfSome (document_in handle.old.value) (λ d. (result ≡ pos 0)
        × ((at : ℕ) → IsNearestPlace d.1 byte at → out.new ≡ place_by (utf16_position d.1 at))) }
{
    places::position_at(alloc, handle, byte, out)
}

/// Line and column of the place before this byte of the document as `lrlex_document_position` counts them, but the column as the
/// encoding says: 0 is UTF-8, and 1 UTF-16. Inside a character, or between U+000D and U+000A, it is the place before that, and past the
/// text's end the end.
#[unsafe(no_mangle)]
pub extern "C" fn lrlex_document_position_in(
    alloc: Global,
    handle: &mut Handle,
    byte: usize,
    encoding: u32,
    out: &mut Place,
) -> i32
    ensures kept { document_in handle.new.value ≡ document_in handle.old.value }
    ensures misused { result ≡ pos 4 ↔ document_in handle.old.value ≡ None }
    ensures answer { IfSome (document_in handle.old.value) (λ d. MatchOption
        (encoding_by encoding) (result ≡ pos 5) (λ e. (result ≡ pos 0) × ((at : ℕ)
        → IsNearestPlace d.1 byte at → out.new ≡ place_by (position_of e d.1 at)))) }
{
    places::position_by(alloc, handle, byte, encoding, out)
}

/// The byte of a line and column of the document, both from 0, the column counted as the encoding says: 0 is UTF-8, and 1 UTF-16. Past a
/// line's end it is the place before what ends the line, past the last line the text's end, and inside a character the place before
/// that. A line ends by U+000A, by U+000D and U+000A, or by U+000D alone.
#[unsafe(no_mangle)]
pub extern "C" fn lrlex_document_offset_at(
    alloc: Global,
    handle: &mut Handle,
    line: usize,
    column: usize,
    encoding: u32,
    byte: &mut usize,
) -> i32
    ensures kept { document_in handle.new.value ≡ document_in handle.old.value }
    ensures misused { result ≡ pos 4 ↔ document_in handle.old.value ≡ None }
    ensures answer { IfSome (document_in handle.old.value) (λ d. MatchOption
        (encoding_by encoding) (result ≡ pos 5) (λ e. (result ≡ pos 0)
        × IsLastUpTo e d.1 (line, column) byte.new)) }
    ensures inverse { IfSome (document_in handle.old.value) (λ d. IfSome (encoding_by encoding)
        (λ e. (at : ℕ) → HasPosition d.1 at → position_of e d.1 at ≡ (line, column)
        → byte.new ≡ at)) }
{
    offsets::offset_at(alloc, handle, line, column, encoding, byte)
}
