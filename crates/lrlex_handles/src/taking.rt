//! The document that an object is, taken out and put back.
ghost use Rattle.std.specs.Prelude.{◌≡◌, None, Some, MatchOption};
ghost use Rattle.lrlex_handles.specs.Objects.{document_in};
ghost use Rattle.lrlex_handles.specs.declared.object.Object.TheVariants.{Document as Kept};

use crate::object::{Edited, Object};
use std::mem::replace;

/// Takes the document out of the object. An object of another kind stays as it is.
pub(crate) fn take_document(object: &mut Object) -> Option<Edited>
    ensures taken { MatchOption result (document_in (Some object.old) ≡ None)
        (λ it. document_in (Some object.old) ≡ document_in (Some (Kept it))) }
    ensures other { result ≡ None → object.new ≡ object.old }
{
    match replace(object, Object::Nothing) {
        Object::Document(it) => Some(it),
        other => {
            *object = other;
            None
        }
    }
}

/// Puts a document into the object.
pub(crate) fn put_document(object: &mut Object, it: Edited)
    ensures { document_in (Some object.new) ≡ document_in (Some (Kept it)) }
{
    *object = Object::Document(it);
}

/// The status of work on the document that an object is. The work hands the document back. An object of another kind stays as it is.
macro_rules! with_document {
    ($object:expr, |$it:ident| $work:expr) => {
        match take_document($object) {
            None => MISUSE,
            Some($it) => {
                let (it, status) = $work;
                put_document($object, it);
                status
            }
        }
    };
}

pub(crate) use with_document;
