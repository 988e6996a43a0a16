//! Scanners of a text.
ghost use Rattle.std.specs.Prelude.{◌≡◌, ◌≢◌, pos, None, Some, IfOk, IsUtf8, MatchOption};
ghost use Rattle.std.specs.Arc.{arc_value};
ghost use Rattle.lrlex.specs.Scanner.{IsAtFront, at_front};
ghost use Rattle.lrlex.specs.Views.{definition_of};
ghost use Rattle.lrlex.specs.Work.{most_cells_of};
ghost use Rattle.lrlex_handles.specs.Objects.{definition_in, scanner_in};

use crate::definitions::shared;
use crate::handle::{Handle, with_object};
use crate::object::{Definition, Object, Scanning};
use crate::status::{MISUSE, NO_MEMORY, NOT_UTF8, OK};
use std::alloc::{AllocError, Global};
use std::str;
use std::sync::Arc;

/// The scanner of a text, at its front, with a copy of the text.
fn begun(
    alloc: Global,
    definition: Arc<Definition, Global>,
    text: &str,
) -> Result<Scanning, AllocError>
    ensures { IfOk result (λ it. it ≡ at_front (definition_of (λ n. n) (arc_value definition))
        text.now (most_cells_of (arc_value definition) text.now)) }
{
    let scanner = definition.scanner(alloc, text)?;
    let at = scanner.into_place(alloc);
    let text = String::from_str(alloc, text)?;
    Ok(Scanning {
        definition,
        text,
        at,
    })
}

fn begun_in(alloc: Global, object: &Object, text: &str) -> Result<Option<Box<Object>>, AllocError>
    ensures { IfOk result (λ made. MatchOption made (definition_in (Some object.now) ≡ None)
        (λ b. MatchOption (definition_in (Some object.now)) ⊥
        (λ d. MatchOption (scanner_in (Some b.value)) ⊥ (IsAtFront d text.now)))) }
{
    match shared(object)? {
        None => Ok(None),
        Some(definition) => {
            let scanning = begun(alloc, definition, text)?;
            Ok(Some(Box::new(alloc, Object::Scanner(scanning))?))
        }
    }
}

fn new_in(alloc: Global, object: &Object, out: &mut Handle, text: &[u8]) -> i32
    ensures done { result ≡ pos 0 → MatchOption (definition_in (Some object.now)) ⊥
        (λ d. MatchOption (scanner_in out.new.value) ⊥ (IsAtFront d text.now)) }
    ensures kept { result ≢ pos 0 → out.new.value ≡ out.old.value }
    ensures unread { result ≡ pos 3 → ¬ (IsUtf8 text.now) }
{
    match str::from_utf8(text) {
        Err(_) => NOT_UTF8,
        Ok(text) => match begun_in(alloc, object, text) {
            Err(_) => NO_MEMORY,
            Ok(None) => MISUSE,
            Ok(Some(scanner)) => {
                out.put(scanner);
                OK
            }
        },
    }
}

/// Makes a scanner of this text, at its front. The definition and the text may be freed before it. What `out` had before is freed.
pub fn begin(alloc: Global, definition: &mut Handle, out: &mut Handle, text: &[u8]) -> i32
    ensures kept { definition.new.value ≡ definition.old.value }
    ensures done { result ≡ pos 0 → MatchOption (definition_in definition.old.value) ⊥
        (λ d. MatchOption (scanner_in out.new.value) ⊥ (IsAtFront d text.now)) }
    ensures failed { result ≢ pos 0 → out.new.value ≡ None }
    ensures unread { result ≡ pos 3 → ¬ (IsUtf8 text.now) }
{
    let _before = out.take(alloc);
    with_object!(
        alloc,
        definition,
        MISUSE,
        |object| new_in(alloc, &object, out, text)
    )
}
