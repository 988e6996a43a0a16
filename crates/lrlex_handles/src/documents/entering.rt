//! Where a document enters the start state in which it ends.
ghost use Rattle.std.specs.Prelude.{◌≡◌, ◌↔◌, pos, None, Some, IfSome, MatchOption};
ghost use Rattle.std.specs.Arc.{arc_value};
ghost use Rattle.lrlex.specs.Document.{lexed_bytes};
ghost use Rattle.lrlex.specs.Entering.{AllKeepEnd};
ghost use Rattle.lrlex.specs.Views.{definition_of};
ghost use Rattle.lrlex_handles.specs.Entering.{IsEntered, IsEnteredAt};
ghost use Rattle.lrlex_handles.specs.Objects.{document_in};
ghost use Rattle.lrlex_handles.specs.declared.object.Object.TheVariants.{Document as Kept};

use crate::documents::Document;
use crate::entering::status_of;
use crate::handle::{Handle, with_object};
use crate::lexing::number_of;
use crate::object::{Edited, Object};
use crate::status::MISUSE;
use crate::structs::Entered;
use crate::taking::{put_document, take_document, with_document};
use std::alloc::Global;

/// Where the document enters the start state in which it ends.
fn entered_of(document: &Document<'_>) -> Option<Entered>
    ensures { MatchOption result (AllKeepEnd document.now.boundaries)
        (IsEnteredAt document.now.boundaries) }
{
    let tiles = document.tiles();
    let tile = document.entered_by()?;
    // so there is a boundary behind it, whose number fits
    prove!(tile < tiles);
    Some(Entered {
        start: document.boundary(tile),
        end: document.boundary(tile + 1),
        state: number_of(document.end_state()),
    })
}

fn entered_by_text(it: Edited) -> (Edited, Option<Entered>)
    ensures kept { document_in (Some (Kept result.0)) ≡ document_in (Some (Kept it)) }
    ensures entered { IsEntered (definition_of (λ n. n) (arc_value it.definition))
        (lexed_bytes it.text) result.1 }
{
    let Edited { definition, text } = it;
    let document = Document::of_text(&definition, text);
    let found = entered_of(&document);
    let text = document.into_text();
    (Edited { definition, text }, found)
}

fn entered_in(object: &mut Object, out: &mut Entered) -> i32
    ensures kept { document_in (Some object.new) ≡ document_in (Some object.old) }
    ensures misused { result ≡ pos 4 ↔ document_in (Some object.old) ≡ None }
    ensures done { result ≡ pos 0 → IfSome (document_in (Some object.old))
        (λ d. IsEntered d.0 d.1 (Some out.new)) }
    ensures none { result ≡ pos 5 → IfSome (document_in (Some object.old))
        (λ d. IsEntered d.0 d.1 None) }
{
    with_document!(object, |it| {
        let (it, found) = entered_by_text(it);
        (it, status_of(found, out))
    })
}

/// Where the document enters the start state in which it ends: the last tile before which the stack lacked the entry on top at the end,
/// such as that which begins a comment that nothing closes. 5 if the document begins in that state and no tile leaves it.
pub fn entered_by(alloc: Global, handle: &mut Handle, out: &mut Entered) -> i32
    ensures kept { document_in handle.new.value ≡ document_in handle.old.value }
    ensures misused { result ≡ pos 4 ↔ document_in handle.old.value ≡ None }
    ensures done { result ≡ pos 0 → IfSome (document_in handle.old.value)
        (λ d. IsEntered d.0 d.1 (Some out.new)) }
    ensures none { result ≡ pos 5 → IfSome (document_in handle.old.value)
        (λ d. IsEntered d.0 d.1 None) }
{
    with_object!(
        alloc,
        handle,
        MISUSE,
        |mut object| entered_in(&mut object, out)
    )
}
