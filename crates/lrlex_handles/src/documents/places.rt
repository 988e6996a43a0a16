//! Lines and columns of a document.
ghost use Rattle.std.specs.Prelude.{◌≡◌, ◌↔◌, ℕ, pos, None, Some, IfSome, MatchOption};
ghost use Rattle.lrlex_base.specs.Places.{place_of};
ghost use Rattle.lrlex.specs.Document.{lexed_bytes};
ghost use Rattle.lrlex.specs.Nearest.{IsNearest};
ghost use Rattle.lrlex.specs.Utf16.{utf16_position};
ghost use Rattle.lrlex_positions.specs.Lines.{IsNearestPlace};
ghost use Rattle.lrlex_positions.specs.Positions.{position_of};
ghost use Rattle.lrlex_handles.specs.Buffers.{place_by};
ghost use Rattle.lrlex_handles.specs.Encodings.{encoding_by, shown_at, IsPlaceFor};
ghost use Rattle.lrlex_handles.specs.Objects.{document_in};
ghost use Rattle.lrlex_handles.specs.declared.object.Object.TheVariants.{Document as Kept};

use crate::documents::Document;
use crate::handle::{Handle, with_object};
use crate::object::{Edited, Object};
use crate::status::{MISUSE, NONE, OK};
use crate::structs::Place;
use crate::taking::{put_document, take_document, with_document};
use lrlex::PositionEncoding;
use std::alloc::Global;

/// The encoding of a number.
pub(crate) fn encoding_of(number: u32) -> Option<PositionEncoding>
    ensures { result ≡ encoding_by number }
{
    match number {
        0 => Some(PositionEncoding::Utf8),
        1 => Some(PositionEncoding::Utf16),
        _ => None,
    }
}

/// The position of a byte by this encoding, or, without one, its line and column as people count them.
fn shown_at(document: &Document<'_>, byte: usize, by: Option<PositionEncoding>) -> Place
    ensures { (at : ℕ) → IsPlaceFor by document.now.text byte at
        → result ≡ shown_at by document.now.text at }
{
    let (line, column) = match by {
        None => document.place(byte),
        Some(encoding) => document.position_in(byte, encoding),
    };
    Place { line, column }
}

fn place_of(it: Edited, byte: usize, by: Option<PositionEncoding>, out: &mut Place) -> Edited
    ensures kept { document_in (Some (Kept result)) ≡ document_in (Some (Kept it)) }
    ensures place { (at : ℕ) → IsPlaceFor by (lexed_bytes it.text) byte at
        → out.new ≡ shown_at by (lexed_bytes it.text) at }
{
    let Edited { definition, text } = it;
    let document = Document::of_text(&definition, text);
    *out = shown_at(&document, byte, by);
    let text = document.into_text();
    Edited { definition, text }
}

fn place_in(object: &mut Object, byte: usize, by: Option<PositionEncoding>, out: &mut Place) -> i32
    ensures kept { document_in (Some object.new) ≡ document_in (Some object.old) }
    ensures misused { result ≡ pos 4 ↔ document_in (Some object.old) ≡ None }
    ensures done { IfSome (document_in (Some object.old)) (λ d. (result ≡ pos 0)
        × ((at : ℕ) → IsPlaceFor by d.1 byte at → out.new ≡ shown_at by d.1 at)) }
{
    with_document!(object, |it| (place_of(it, byte, by, out), OK))
}

/// Line and column of the place before this byte of the document, both from 1. The column counts characters. Inside a character it is
/// the place before that, and past the text's end the end.
pub fn place_at(alloc: Global, handle: &mut Handle, byte: usize, out: &mut Place) -> i32
    ensures kept { document_in handle.new.value ≡ document_in handle.old.value }
    ensures misused { result ≡ pos 4 ↔ document_in handle.old.value ≡ None }
    ensures done { IfSome (document_in handle.old.value) (λ d. (result ≡ pos 0)
        × ((at : ℕ) → IsNearest d.1 byte at → out.new ≡ place_by (place_of d.1 at))) }
{
    with_object!(
        alloc,
        handle,
        MISUSE,
        |mut object| place_in(&mut object, byte, None, out)
    )
}

/// Line and column of the place before this byte of the document as the Language Server Protocol counts them: both from 0, the column
/// in code units of UTF-16. A line ends by U+000A, by U+000D and U+000A, or by U+000D alone. Inside a character, or between U+000D and
/// U+000A, it is the place before that, and past the text's end the end.
pub fn position_at(alloc: Global, handle: &mut Handle, byte: usize, out: &mut Place) -> i32
    ensures kept { document_in handle.new.value ≡ document_in handle.old.value }
    ensures misused { result ≡ pos 4 ↔ document_in handle.old.value ≡ None }
    ensures done { IfSome (document_in handle.old.value) (λ d. (result ≡ pos 0)
        × ((at : ℕ) → IsNearestPlace d.1 byte at → out.new ≡ place_by (utf16_position d.1 at))) }
{
    with_object!(
        alloc,
        handle,
        MISUSE,
        |mut object| place_in(&mut object, byte, Some(PositionEncoding::Utf16), out)
    )
}

fn position_in(object: &mut Object, byte: usize, encoding: u32, out: &mut Place) -> i32
    ensures kept { document_in (Some object.new) ≡ document_in (Some object.old) }
    ensures misused { result ≡ pos 4 ↔ document_in (Some object.old) ≡ None }
    ensures answer { IfSome (document_in (Some object.old)) (λ d. MatchOption
        (encoding_by encoding) (result ≡ pos 5) (λ e. (result ≡ pos 0) × ((at : ℕ)
        → IsNearestPlace d.1 byte at → out.new ≡ place_by (position_of e d.1 at)))) }
{
    with_document!(object, |it| match encoding_of(encoding) {
        None => (it, NONE),
        Some(by) => (place_of(it, byte, Some(by), out), OK),
    })
}

/// Line and column of the place before this byte of the document as `position_at` counts them, but the column as the
/// encoding says: 0 is UTF-8, and 1 UTF-16. Inside a character, or between U+000D and U+000A, it is the place before that, and past the
/// text's end the end.
pub fn position_by(
    alloc: Global,
    handle: &mut Handle,
    byte: usize,
    encoding: u32,
    out: &mut Place,
) -> i32
    ensures kept { document_in handle.new.value ≡ document_in handle.old.value }
    ensures misused { result ≡ pos 4 ↔ document_in handle.old.value ≡ None }
    ensures answer { IfSome (document_in handle.old.value) (λ d. MatchOption
        (encoding_by encoding) (result ≡ pos 5) (λ e. (result ≡ pos 0) × ((at : ℕ)
        → IsNearestPlace d.1 byte at → out.new ≡ place_by (position_of e d.1 at)))) }
{
    with_object!(
        alloc,
        handle,
        MISUSE,
        |mut object| position_in(&mut object, byte, encoding, out)
    )
}
