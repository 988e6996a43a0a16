//! Edits of a document.
ghost use Rattle.std.specs.Prelude.{◌≡◌, ◌≢◌, ◌↔◌, pos, None, Some, IfOk, IfErr, IfSome, IsOk, IsErr, IsUtf8};
ghost use Rattle.std.specs.Arc.{arc_value};
ghost use Rattle.lrlex_base.specs.Edits.{edited as edited_text};
ghost use Rattle.lrlex_base.specs.Spans.{span};
ghost use Rattle.lrlex.specs.Document.{lexed_bytes};
ghost use Rattle.lrlex.specs.Nearest.{FitsAt};
ghost use Rattle.lrlex.specs.declared.editing.document.EditError.TheVariants.{DoesNotFit};
ghost use Rattle.lrlex_handles.specs.Answers.{WasEdited};
ghost use Rattle.lrlex_handles.specs.Objects.{document_in};

use crate::documents::Document;
use crate::handle::{Handle, with_object};
use crate::object::{Edited, Object};
use crate::status::{DOES_NOT_FIT, MISUSE, NO_MEMORY, NOT_UTF8, OK};
use crate::taking::{put_document, take_document};
use lrlex::EditError;
use std::alloc::Global;
use std::str;

/// Makes the edit, if it fits.
fn edited(
    alloc: Global,
    it: Edited,
    from: usize,
    to: usize,
    put: &str,
) -> (Edited, Result<(), EditError>)
    ensures definition { arc_value result.0.definition ≡ arc_value it.definition }
    ensures made { IfOk result.1 (λ _. lexed_bytes result.0.text
        ≡ edited_text (lexed_bytes it.text) (span from to) put.now) }
    ensures kept { IfErr result.1 (λ _. lexed_bytes result.0.text ≡ lexed_bytes it.text) }
    ensures refused { IfErr result.1 (λ e. e ≡ DoesNotFit
        ↔ ¬ (FitsAt (lexed_bytes it.text) from to)) }
{
    let Edited { definition, text } = it;
    let mut document = Document::of_text(&definition, text);
    let answer = document.edit(alloc, from, to, put);
    let text = document.into_text();
    (Edited { definition, text }, answer)
}

fn status_of(answer: Result<(), EditError>) -> i32
    ensures made { result ≡ pos 0 → IsOk answer }
    ensures refused { result ≢ pos 0 → IsErr answer }
    ensures unfit { result ≡ pos 6 → IfErr answer (λ e. e ≡ DoesNotFit) }
    ensures misused { result ≢ pos 4 }
    ensures unread { result ≢ pos 3 }
{
    match answer {
        Ok(()) => OK,
        Err(EditError::DoesNotFit) => DOES_NOT_FIT,
        Err(EditError::OutOfMemory) => NO_MEMORY,
    }
}

fn edited_in(alloc: Global, object: &mut Object, from: usize, to: usize, put: &[u8]) -> i32
    ensures made { result ≡ pos 0 → WasEdited from to put.now (document_in (Some object.old))
        (document_in (Some object.new)) }
    ensures kept { result ≢ pos 0 → document_in (Some object.new)
        ≡ document_in (Some object.old) }
    ensures misused { result ≡ pos 4 ↔ document_in (Some object.old) ≡ None }
    ensures unfit { result ≡ pos 6 → IfSome (document_in (Some object.old))
        (λ d. ¬ (FitsAt d.1 from to)) }
    ensures unread { result ≡ pos 3 → ¬ (IsUtf8 put.now) }
{
    match take_document(object) {
        None => MISUSE,
        Some(it) => match str::from_utf8(put) {
            Err(_) => {
                put_document(object, it);
                NOT_UTF8
            }
            Ok(put) => {
                let (it, answer) = edited(alloc, it, from, to, put);
                put_document(object, it);
                status_of(answer)
            }
        },
    }
}

/// Puts a text in the place of the bytes from `from` up to `to`, and lexes again what that changes. If the call doesn't return 0, the
/// document is what it was.
pub fn edit(alloc: Global, handle: &mut Handle, from: usize, to: usize, put: &[u8]) -> i32
    ensures made { result ≡ pos 0 → WasEdited from to put.now (document_in handle.old.value)
        (document_in handle.new.value) }
    ensures kept { result ≢ pos 0 → document_in handle.new.value ≡ document_in handle.old.value }
    ensures misused { result ≡ pos 4 ↔ document_in handle.old.value ≡ None }
    ensures unfit { result ≡ pos 6 → IfSome (document_in handle.old.value)
        (λ d. ¬ (FitsAt d.1 from to)) }
    ensures unread { result ≡ pos 3 → ¬ (IsUtf8 put.now) }
{
    with_object!(
        alloc,
        handle,
        MISUSE,
        |mut object| edited_in(alloc, &mut object, from, to, put)
    )
}
