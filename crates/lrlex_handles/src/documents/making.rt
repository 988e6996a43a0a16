//! Documents of a text.
ghost use Rattle.std.specs.Prelude.{◌≡◌, ◌≢◌, pos, None, Some, IfOk, IsUtf8, MatchOption};
ghost use Rattle.std.specs.Arc.{arc_value};
ghost use Rattle.lrlex.specs.Views.{definition_of};
ghost use Rattle.lrlex_handles.specs.Objects.{definition_in, document_in};
ghost use Rattle.lrlex_handles.specs.declared.object.Object.TheVariants.{Document as Kept};

use crate::definitions::shared;
use crate::documents::Document;
use crate::handle::{Handle, with_object};
use crate::object::{Definition, Edited, Object};
use crate::status::{MISUSE, NO_MEMORY, NOT_UTF8, OK};
use std::alloc::{AllocError, Global};
use std::str;
use std::sync::Arc;

/// The document of a text, lexed.
fn begun(
    alloc: Global,
    definition: Arc<Definition, Global>,
    text: &str,
) -> Result<Edited, AllocError>
    ensures { IfOk result (λ it. document_in (Some (Kept it))
        ≡ Some (definition_of (λ n. n) (arc_value definition), text.now)) }
{
    let document = Document::new(alloc, &definition, text)?;
    let text = document.into_text();
    Ok(Edited { definition, text })
}

fn begun_in(alloc: Global, object: &Object, text: &str) -> Result<Option<Box<Object>>, AllocError>
    ensures { IfOk result (λ made. MatchOption made (definition_in (Some object.now) ≡ None)
        (λ b. MatchOption (definition_in (Some object.now)) ⊥
        (λ d. document_in (Some b.value) ≡ Some (d, text.now)))) }
{
    match shared(object)? {
        None => Ok(None),
        Some(definition) => {
            let edited = begun(alloc, definition, text)?;
            Ok(Some(Box::new(alloc, Object::Document(edited))?))
        }
    }
}

fn new_in(alloc: Global, object: &Object, out: &mut Handle, text: &[u8]) -> i32
    ensures done { result ≡ pos 0 → MatchOption (definition_in (Some object.now)) ⊥
        (λ d. document_in out.new.value ≡ Some (d, text.now)) }
    ensures kept { result ≢ pos 0 → out.new.value ≡ out.old.value }
    ensures unread { result ≡ pos 3 → ¬ (IsUtf8 text.now) }
{
    match str::from_utf8(text) {
        Err(_) => NOT_UTF8,
        Ok(text) => match begun_in(alloc, object, text) {
            Err(_) => NO_MEMORY,
            Ok(None) => MISUSE,
            Ok(Some(document)) => {
                out.put(document);
                OK
            }
        },
    }
}

/// Makes a document of this text. The definition may be freed before it. What `out` had before is freed.
pub fn begin(alloc: Global, definition: &mut Handle, out: &mut Handle, text: &[u8]) -> i32
    ensures kept { definition.new.value ≡ definition.old.value }
    ensures done { result ≡ pos 0 → MatchOption (definition_in definition.old.value) ⊥
        (λ d. document_in out.new.value ≡ Some (d, text.now)) }
    ensures failed { result ≢ pos 0 → out.new.value ≡ None }
    ensures unread { result ≡ pos 3 → ¬ (IsUtf8 text.now) }
{
    let _before = out.take(alloc);
    with_object!(
        alloc,
        definition,
        MISUSE,
        |object| new_in(alloc, &object, out, text)
    )
}
