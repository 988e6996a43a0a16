//! Definitions: read from a rule text, and shared.
ghost use Rattle.std.specs.Prelude.{◌≡◌, ◌≢◌, ◌↔◌, ◌^◌, ◌-◌, ◌⊎◌, pos, None, Some, IfOk, IfSome, IsSome, IsUtf8, MatchOption};
ghost use Rattle.std.specs.Arc.{arc_value};
ghost use Rattle.lrlex_parser.specs.LexBuildResult.{IsAnswer};
ghost use Rattle.lrlex.specs.Views.{definition_of};
ghost use Rattle.lrlex_handles.specs.Objects.{answer_in, definition_in, refusal_in};
ghost use Rattle.lrlex_handles.specs.declared.object.Object.TheVariants.{Refusal as Refused};
ghost use Rattle.lrlex_handles.specs.Settings.{flag_by, limit_by, flags_by};

use crate::handle::{Handle, with_object};
use crate::object::{Definition, Object, Refusal};
use crate::status::{MISUSE, NO_MEMORY, NOT_UTF8, OK, REFUSED};
use crate::structs::Options;
use lrlex::{Budget, LexBuildError, LexBuildResult, LexFlags, NewlineCache};
use std::alloc::{AllocError, Global};
use std::str;
use std::sync::Arc;

fn flag(options: &Options, bit: u32) -> Option<bool>
    ensures { result ≡ flag_by options.now bit }
{
    if options.set & bit == 0 {
        None
    } else {
        Some(options.on & bit != 0)
    }
}

fn unless_zero(n: usize) -> Option<usize>
    ensures { result ≡ limit_by n }
{
    if n == 0 { None } else { Some(n) }
}

fn nest_limit(n: u32) -> Option<u32>
    ensures { result ≡ limit_by n }
{
    if n == 0 { None } else { Some(n) }
}

pub(crate) fn flags_of(options: &Options) -> LexFlags
    ensures { result ≡ flags_by options.now }
{
    LexFlags {
        dot_matches_new_line: flag(options, 1),
        multi_line: flag(options, 2),
        octal: flag(options, 4),
        posix_escapes: flag(options, 8),
        allow_wholeline_comments: flag(options, 16),
        case_insensitive: flag(options, 32),
        swap_greed: flag(options, 64),
        ignore_whitespace: flag(options, 128),
        unicode: flag(options, 256),
        size_limit: unless_zero(options.size_limit),
        dfa_size_limit: None,
        nest_limit: nest_limit(options.nest_limit),
    }
}

/// A rule text that is refused for these faults.
pub(crate) fn refusal(
    alloc: Global,
    rules: &str,
    faults: Vec<LexBuildError>,
) -> Result<Refusal, AllocError>
    ensures faults { IfOk result (λ r. r.faults ≡ faults) }
    ensures refused { IfOk result
        (λ r. refusal_in (Some (Refused r)) ≡ Some (rules.now, faults.items)) }
{
    let newlines = NewlineCache::from_str(alloc, rules)?;
    Ok(Refusal {
        faults,
        rules: String::from_str(alloc, rules)?,
        newlines,
    })
}

/// Reads the rule text, under the budget if there is one.
pub(crate) fn read(
    alloc: Global,
    rules: &str,
    options: &Options,
) -> Result<LexBuildResult<Definition>, AllocError>
    ensures { IfOk result (IsAnswer (definition_of (λ n. n)) (flags_by options.now) (2 ^ 32 - 1)
        rules.now) }
{
    let flags = flags_of(options);
    if options.limit_tables {
        let budget = Budget::new(options.table_rows, options.table_work);
        Definition::new_with_budget(alloc, rules, flags, budget)
    } else {
        Definition::new_with_options(alloc, rules, flags)
    }
}

/// Reads the rule text: a definition or a refusal, and the status that says which.
fn built(alloc: Global, rules: &str, options: &Options) -> Result<(Object, i32), AllocError>
    ensures answer { IfOk result (λ made. IfSome (answer_in (Some made.0))
        (IsAnswer (λ d. d) (flags_by options.now) (2 ^ 32 - 1) rules.now)) }
    ensures defined { IfOk result (λ made. made.1 ≡ pos 0
        ↔ IsSome (definition_in (Some made.0))) }
    ensures refused { IfOk result (λ made. made.1 ≡ pos 1
        ↔ IsSome (refusal_in (Some made.0))) }
    ensures either { IfOk result (λ made. (made.1 ≡ pos 0) ⊎ (made.1 ≡ pos 1)) }
{
    match read(alloc, rules, options)? {
        Ok(definition) => Ok((Object::Definition(Arc::new(alloc, definition)?), OK)),
        Err(faults) => Ok((Object::Refusal(refusal(alloc, rules, faults)?), REFUSED)),
    }
}

/// Reads a rule text. The handle has the definition, or, where the call returns 1, the text's faults. Else it is empty. What it had
/// before is freed.
pub fn define(alloc: Global, out: &mut Handle, rules: &[u8], options: &Options) -> i32
    ensures answer { IfSome (answer_in out.new.value)
        (IsAnswer (λ d. d) (flags_by options.now) (2 ^ 32 - 1) rules.now) }
    ensures defined { result ≡ pos 0 ↔ IsSome (definition_in out.new.value) }
    ensures refused { result ≡ pos 1 ↔ IsSome (refusal_in out.new.value) }
    ensures failed { result ≢ pos 0 → result ≢ pos 1 → out.new.value ≡ None }
    ensures misused { result ≢ pos 4 }
    ensures unread { result ≡ pos 3 → ¬ (IsUtf8 rules.now) }
{
    let _before = out.take(alloc);
    match str::from_utf8(rules) {
        Err(_) => NOT_UTF8,
        Ok(rules) => match built(alloc, rules, options) {
            Err(_) => NO_MEMORY,
            Ok((object, status)) => match Box::new(alloc, object) {
                Err(_) => NO_MEMORY,
                Ok(object) => {
                    out.put(object);
                    status
                }
            },
        },
    }
}

/// One more owner of the definition, if the object is one.
pub(crate) fn shared(object: &Object) -> Result<Option<Arc<Definition, Global>>, AllocError>
    ensures { IfOk result (λ owner. MatchOption owner (definition_in (Some object.now) ≡ None)
        (λ d. definition_in (Some object.now) ≡ Some (definition_of (λ n. n) (arc_value d)))) }
{
    match object {
        Object::Definition(definition) => Ok(Some(definition.clone()?)),
        _ => Ok(None),
    }
}

fn share_in(alloc: Global, object: &Object, out: &mut Handle) -> i32
    ensures misused { definition_in (Some object.now) ≡ None → result ≢ pos 0 }
    ensures done { result ≡ pos 0 → definition_in out.new.value ≡ definition_in (Some object.now) }
    ensures kept { result ≢ pos 0 → out.new.value ≡ out.old.value }
{
    match shared(object) {
        Err(_) => NO_MEMORY,
        Ok(None) => MISUSE,
        Ok(Some(definition)) => match Box::new(alloc, Object::Definition(definition)) {
            Err(_) => NO_MEMORY,
            Ok(object) => {
                out.put(object);
                OK
            }
        },
    }
}

/// Gives another handle the same definition. What that handle had before is freed.
pub fn share(alloc: Global, handle: &mut Handle, out: &mut Handle) -> i32
    ensures kept { handle.new.value ≡ handle.old.value }
    ensures done { result ≡ pos 0 → definition_in out.new.value ≡ definition_in handle.old.value }
    ensures misused { definition_in handle.old.value ≡ None → result ≢ pos 0 }
    ensures failed { result ≢ pos 0 → out.new.value ≡ None }
{
    let _before = out.take(alloc);
    with_object!(
        alloc,
        handle,
        MISUSE,
        |object| share_in(alloc, &object, out)
    )
}
