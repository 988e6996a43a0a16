//! The text of a document.
ghost use Rattle.std.specs.Prelude.{◌≡◌, ◌≢◌, ◌↔◌, ◌≤◌, length, slice_range, pos, None, Some, IfSome};
ghost use Rattle.lrlex.specs.Document.{lexed_bytes};
ghost use Rattle.lrlex_handles.specs.Buffers.{IsWritten};
ghost use Rattle.lrlex_handles.specs.Objects.{document_in};
ghost use Rattle.lrlex_handles.specs.declared.object.Object.TheVariants.{Document as Kept};

use crate::documents::Document;
use crate::handle::{Handle, with_object};
use crate::object::{Edited, Object};
use crate::status::{DOES_NOT_FIT, MISUSE, OK};
use crate::taking::{put_document, take_document, with_document};
use crate::texts::write_bytes;
use std::alloc::Global;
use std::str;

fn len_of(it: Edited, len: &mut usize) -> Edited
    ensures kept { document_in (Some (Kept result)) ≡ document_in (Some (Kept it)) }
    ensures len { len.new ≡ length (lexed_bytes it.text) }
{
    let Edited { definition, text } = it;
    let document = Document::of_text(&definition, text);
    *len = document.text().len();
    let text = document.into_text();
    Edited { definition, text }
}

fn len_in(object: &mut Object, len: &mut usize) -> i32
    ensures kept { document_in (Some object.new) ≡ document_in (Some object.old) }
    ensures misused { result ≡ pos 4 ↔ document_in (Some object.old) ≡ None }
    ensures done { result ≡ pos 0 → IfSome (document_in (Some object.old))
        (λ d. len.new ≡ length d.1) }
{
    with_document!(object, |it| (len_of(it, len), OK))
}

/// How many bytes the document has.
pub fn len(alloc: Global, handle: &mut Handle, len: &mut usize) -> i32
    ensures kept { document_in handle.new.value ≡ document_in handle.old.value }
    ensures misused { result ≡ pos 4 ↔ document_in handle.old.value ≡ None }
    ensures done { result ≡ pos 0 → IfSome (document_in handle.old.value)
        (λ d. len.new ≡ length d.1) }
{
    with_object!(alloc, handle, MISUSE, |mut object| len_in(&mut object, len))
}

/// Writes the bytes from `from` up to `to`, if they are in the text.
fn write_part(text: &str, from: usize, to: usize, out: &mut [u8], len: &mut usize) -> i32
    ensures done { result ≡ pos 0 → IsWritten (slice_range text.now from to) out.old out.new
        len.new }
    ensures unfit { result ≡ pos 6 ↔ ¬ ((from ≤ to) × (to ≤ length text.now)) }
    ensures misused { result ≢ pos 4 }
{
    if from > to || to > text.len() {
        return DOES_NOT_FIT;
    }
    write_bytes(&text.as_bytes()[from..to], out, len);
    OK
}

fn text_of(it: Edited, from: usize, to: usize, out: &mut [u8], len: &mut usize) -> (Edited, i32)
    ensures kept { document_in (Some (Kept result.0)) ≡ document_in (Some (Kept it)) }
    ensures done { result.1 ≡ pos 0 → IsWritten (slice_range (lexed_bytes it.text) from to)
        out.old out.new len.new }
    ensures unfit { result.1 ≡ pos 6 ↔ ¬ ((from ≤ to) × (to ≤ length (lexed_bytes it.text))) }
    ensures misused { result.1 ≢ pos 4 }
{
    let Edited { definition, text } = it;
    let document = Document::of_text(&definition, text);
    let status = write_part(document.text(), from, to, out, len);
    let text = document.into_text();
    (Edited { definition, text }, status)
}

fn text_in(object: &mut Object, from: usize, to: usize, out: &mut [u8], len: &mut usize) -> i32
    ensures kept { document_in (Some object.new) ≡ document_in (Some object.old) }
    ensures misused { result ≡ pos 4 ↔ document_in (Some object.old) ≡ None }
    ensures done { result ≡ pos 0 → IfSome (document_in (Some object.old))
        (λ d. IsWritten (slice_range d.1 from to) out.old out.new len.new) }
    ensures unfit { IfSome (document_in (Some object.old))
        (λ d. result ≡ pos 6 ↔ ¬ ((from ≤ to) × (to ≤ length d.1))) }
{
    with_document!(object, |it| text_of(it, from, to, out, len))
}

/// The bytes of the document from `from` up to `to`, as many as there is room for.
pub fn part(
    alloc: Global,
    handle: &mut Handle,
    from: usize,
    to: usize,
    out: &mut [u8],
    len: &mut usize,
) -> i32
    ensures kept { document_in handle.new.value ≡ document_in handle.old.value }
    ensures misused { result ≡ pos 4 ↔ document_in handle.old.value ≡ None }
    ensures done { result ≡ pos 0 → IfSome (document_in handle.old.value)
        (λ d. IsWritten (slice_range d.1 from to) out.old out.new len.new) }
    ensures unfit { IfSome (document_in handle.old.value)
        (λ d. result ≡ pos 6 ↔ ¬ ((from ≤ to) × (to ≤ length d.1))) }
{
    with_object!(
        alloc,
        handle,
        MISUSE,
        |mut object| text_in(&mut object, from, to, out, len)
    )
}
