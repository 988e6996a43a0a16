//! Where a text enters the start state in which it ends.
ghost use Rattle.std.specs.Prelude.{◌≡◌, ◌↔◌, pos, None, Some, IfOk, IfSome, IsUtf8, MatchOption};
ghost use Rattle.lrlex.specs.Entering.{AllKeepEnd};
ghost use Rattle.lrlex.specs.Views.{definition_of};
ghost use Rattle.lrlex_handles.specs.Entering.{IsEntered, IsEnteredAt};
ghost use Rattle.lrlex_handles.specs.Objects.{definition_in};

use crate::handle::{Handle, with_object};
use crate::lexing::number_of;
use crate::object::{Definition, Object};
use crate::status::{MISUSE, NO_MEMORY, NONE, NOT_UTF8, OK};
use crate::structs::Entered;
use lrlex::{DefaultLexerTypes, LexRun};
use std::alloc::{AllocError, Global};
use std::str;

/// Where the run enters the start state in which it ends.
fn entered_of(run: &LexRun<'_, '_, DefaultLexerTypes<u32>>) -> Option<Entered>
    ensures { MatchOption result (AllKeepEnd run.now.boundaries)
        (IsEnteredAt run.now.boundaries) }
{
    let tiles = run.tiles();
    let tile = run.entered_by()?;
    // so there is a boundary behind it, whose number fits
    prove!(tile < tiles);
    Some(Entered {
        start: run.place(tile),
        end: run.place(tile + 1),
        state: number_of(run.end_state()),
    })
}

fn entered_by_text(
    alloc: Global,
    definition: &Definition,
    text: &str,
) -> Result<Option<Entered>, AllocError>
    ensures { IfOk result (IsEntered (definition_of (λ n. n) definition.now) text.now) }
{
    let run = definition.run(alloc, text)?;
    Ok(entered_of(&run))
}

/// Hands out where it is entered, if it is.
pub(crate) fn status_of(found: Option<Entered>, out: &mut Entered) -> i32
    ensures { MatchOption found (result ≡ pos 5) (λ at. (result ≡ pos 0) × (out.new ≡ at)) }
{
    match found {
        None => NONE,
        Some(at) => {
            *out = at;
            OK
        }
    }
}

fn entered_in(alloc: Global, object: &Object, text: &[u8], out: &mut Entered) -> i32
    ensures misused { result ≡ pos 4 ↔ definition_in (Some object.now) ≡ None }
    ensures done { result ≡ pos 0 → IfSome (definition_in (Some object.now))
        (λ d. IsEntered d text.now (Some out.new)) }
    ensures none { result ≡ pos 5 → IfSome (definition_in (Some object.now))
        (λ d. IsEntered d text.now None) }
    ensures unread { result ≡ pos 3 → ¬ (IsUtf8 text.now) }
{
    match object {
        Object::Definition(definition) => match str::from_utf8(text) {
            Err(_) => NOT_UTF8,
            Ok(text) => match entered_by_text(alloc, definition, text) {
                Err(_) => NO_MEMORY,
                Ok(found) => status_of(found, out),
            },
        },
        _ => MISUSE,
    }
}

/// Where the text enters the start state in which it ends: the last tile before which the stack lacked the entry on top at the end,
/// such as that which begins a comment that nothing closes. 5 if the text begins in that state and no tile leaves it.
pub fn entered_by(alloc: Global, handle: &mut Handle, text: &[u8], out: &mut Entered) -> i32
    ensures kept { handle.new.value ≡ handle.old.value }
    ensures misused { result ≡ pos 4 ↔ definition_in handle.old.value ≡ None }
    ensures done { result ≡ pos 0 → IfSome (definition_in handle.old.value)
        (λ d. IsEntered d text.now (Some out.new)) }
    ensures none { result ≡ pos 5 → IfSome (definition_in handle.old.value)
        (λ d. IsEntered d text.now None) }
    ensures unread { result ≡ pos 3 → ¬ (IsUtf8 text.now) }
{
    with_object!(
        alloc,
        handle,
        MISUSE,
        |object| entered_in(alloc, &object, text, out)
    )
}
