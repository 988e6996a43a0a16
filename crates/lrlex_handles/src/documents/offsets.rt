//! Offsets of a document by their lines and columns.
ghost use Rattle.std.specs.Prelude.{◌≡◌, ◌≢◌, ◌↔◌, ℕ, pos, None, Some, IfSome, MatchOption};
ghost use Rattle.lrlex.specs.Document.{lexed_bytes};
ghost use Rattle.lrlex_positions.specs.Lines.{HasPosition};
ghost use Rattle.lrlex_positions.specs.Positions.{IsLastUpTo, position_of};
ghost use Rattle.lrlex_handles.specs.Encodings.{encoding_by};
ghost use Rattle.lrlex_handles.specs.Objects.{document_in};
ghost use Rattle.lrlex_handles.specs.declared.object.Object.TheVariants.{Document as Kept};

use crate::documents::Document;
use crate::documents::places::encoding_of;
use crate::handle::{Handle, with_object};
use crate::object::{Edited, Object};
use crate::status::{MISUSE, NONE, OK};
use crate::taking::{put_document, take_document, with_document};
use lrlex::PositionEncoding;
use std::alloc::Global;

fn offset_by(
    it: Edited,
    position: (usize, usize),
    encoding: PositionEncoding,
    byte: &mut usize,
) -> Edited
    ensures kept { document_in (Some (Kept result)) ≡ document_in (Some (Kept it)) }
    ensures last { IsLastUpTo encoding (lexed_bytes it.text) position byte.new }
    ensures inverse { (at : ℕ) → HasPosition (lexed_bytes it.text) at →
        position_of encoding (lexed_bytes it.text) at ≡ position → byte.new ≡ at }
{
    let Edited { definition, text } = it;
    let document = Document::of_text(&definition, text);
    *byte = document.offset_at(position, encoding);
    let text = document.into_text();
    Edited { definition, text }
}

/// The byte of a position by the encoding of a number, if that is one.
fn offset_of(it: Edited, position: (usize, usize), encoding: u32, byte: &mut usize) -> (Edited, i32)
    ensures kept { document_in (Some (Kept result.0)) ≡ document_in (Some (Kept it)) }
    ensures misused { result.1 ≢ pos 4 }
    ensures answer { MatchOption (encoding_by encoding) (result.1 ≡ pos 5)
        (λ e. (result.1 ≡ pos 0) × IsLastUpTo e (lexed_bytes it.text) position byte.new) }
    ensures inverse { IfSome (encoding_by encoding) (λ e. (at : ℕ)
        → HasPosition (lexed_bytes it.text) at
        → position_of e (lexed_bytes it.text) at ≡ position → byte.new ≡ at) }
{
    match encoding_of(encoding) {
        None => (it, NONE),
        Some(by) => (offset_by(it, position, by, byte), OK),
    }
}

fn offset_in(
    object: &mut Object,
    line: usize,
    column: usize,
    encoding: u32,
    byte: &mut usize,
) -> i32
    ensures kept { document_in (Some object.new) ≡ document_in (Some object.old) }
    ensures misused { result ≡ pos 4 ↔ document_in (Some object.old) ≡ None }
    ensures answer { IfSome (document_in (Some object.old)) (λ d. MatchOption
        (encoding_by encoding) (result ≡ pos 5) (λ e. (result ≡ pos 0)
        × IsLastUpTo e d.1 (line, column) byte.new)) }
    ensures inverse { IfSome (document_in (Some object.old)) (λ d. IfSome (encoding_by encoding)
        (λ e. (at : ℕ) → HasPosition d.1 at → position_of e d.1 at ≡ (line, column)
        → byte.new ≡ at)) }
{
    with_document!(object, |it| offset_of(it, (line, column), encoding, byte))
}

/// The byte of a line and column of the document, both from 0, the column counted as the encoding says: 0 is UTF-8, and 1 UTF-16. Past a
/// line's end it is the place before what ends the line, past the last line the text's end, and inside a character the place before
/// that. A line ends by U+000A, by U+000D and U+000A, or by U+000D alone.
pub fn offset_at(
    alloc: Global,
    handle: &mut Handle,
    line: usize,
    column: usize,
    encoding: u32,
    byte: &mut usize,
) -> i32
    ensures kept { document_in handle.new.value ≡ document_in handle.old.value }
    ensures misused { result ≡ pos 4 ↔ document_in handle.old.value ≡ None }
    ensures answer { IfSome (document_in handle.old.value) (λ d. MatchOption
        (encoding_by encoding) (result ≡ pos 5) (λ e. (result ≡ pos 0)
        × IsLastUpTo e d.1 (line, column) byte.new)) }
    ensures inverse { IfSome (document_in handle.old.value) (λ d. IfSome (encoding_by encoding)
        (λ e. (at : ℕ) → HasPosition d.1 at → position_of e d.1 at ≡ (line, column)
        → byte.new ≡ at)) }
{
    with_object!(
        alloc,
        handle,
        MISUSE,
        |mut object| offset_in(&mut object, line, column, encoding, byte)
    )
}
