//! Definitions, or all faults of a rule text.
ghost use Rattle.std.specs.Prelude.{◌≡◌, ◌≢◌, ◌↔◌, ◌^◌, ◌-◌, ◌⊎◌, pos, None, Some, IfOk, IfSome, IsSome, IsUtf8};
ghost use Rattle.lrlex_parser.specs.LexBuildResult.{AreAllFaults, BeginAsRead, as_faults};
ghost use Rattle.lrlex_handles.specs.LexBuildResult.{IsChecked};
ghost use Rattle.lrlex_handles.specs.Objects.{answer_in, definition_in, refusal_in};
ghost use Rattle.lrlex_handles.specs.Settings.{flags_by};

use crate::definitions::{flags_of, read, refusal};
use crate::handle::Handle;
use crate::object::{Definition, Object, Refusal};
use crate::status::{NO_MEMORY, NOT_UTF8, OK, REFUSED};
use crate::structs::Options;
use std::alloc::{AllocError, Global};
use std::str;
use std::sync::Arc;

/// The rule text, refused for all its faults.
fn refused(alloc: Global, rules: &str, options: &Options) -> Result<Refusal, AllocError>
    ensures all { IfOk result
        (λ r. AreAllFaults (flags_by options.now) (2 ^ 32 - 1) rules.now r.faults) }
    ensures begins { IfOk result
        (λ r. BeginAsRead (flags_by options.now) (2 ^ 32 - 1) rules.now (as_faults r.faults)) }
{
    let faults = Definition::all_faults(alloc, rules, flags_of(options))?;
    refusal(alloc, rules, faults)
}

/// Reads the rule text: a definition or a refusal for all faults, and the status that says which.
fn checked(alloc: Global, rules: &str, options: &Options) -> Result<(Object, i32), AllocError>
    ensures answer { IfOk result (λ made. IfSome (answer_in (Some made.0))
        (IsChecked (flags_by options.now) (2 ^ 32 - 1) rules.now)) }
    ensures defined { IfOk result (λ made. made.1 ≡ pos 0
        ↔ IsSome (definition_in (Some made.0))) }
    ensures refused { IfOk result (λ made. made.1 ≡ pos 1
        ↔ IsSome (refusal_in (Some made.0))) }
    ensures either { IfOk result (λ made. (made.1 ≡ pos 0) ⊎ (made.1 ≡ pos 1)) }
{
    match read(alloc, rules, options)? {
        Ok(definition) => Ok((Object::Definition(Arc::new(alloc, definition)?), OK)),
        Err(_) => Ok((Object::Refusal(refused(alloc, rules, options)?), REFUSED)),
    }
}

/// Reads a rule text. The handle has the definition, or, where the call returns 1, all faults of the text. Else it is empty. What it
/// had before is freed.
pub fn check(alloc: Global, out: &mut Handle, rules: &[u8], options: &Options) -> i32
    ensures answer { IfSome (answer_in out.new.value)
        (IsChecked (flags_by options.now) (2 ^ 32 - 1) rules.now) }
    ensures defined { result ≡ pos 0 ↔ IsSome (definition_in out.new.value) }
    ensures refused { result ≡ pos 1 ↔ IsSome (refusal_in out.new.value) }
    ensures failed { result ≢ pos 0 → result ≢ pos 1 → out.new.value ≡ None }
    ensures misused { result ≢ pos 4 }
    ensures unread { result ≡ pos 3 → ¬ (IsUtf8 rules.now) }
{
    let _before = out.take(alloc);
    match str::from_utf8(rules) {
        Err(_) => NOT_UTF8,
        Ok(rules) => match checked(alloc, rules, options) {
            Err(_) => NO_MEMORY,
            Ok((object, status)) => match Box::new(alloc, object) {
                Err(_) => NO_MEMORY,
                Ok(object) => {
                    out.put(object);
                    status
                }
            },
        },
    }
}
