//! Definitions.
ghost use Rattle.std.specs.Prelude.{◌≡◌, ◌≢◌, ◌↔◌, ◌^◌, ◌-◌, pos, None, Some, IfSome, IsSome, IsUtf8};
ghost use Rattle.lrlex_parser.specs.LexBuildResult.{IsAnswer};
ghost use Rattle.lrlex.specs.Ids.{with_ids};
ghost use Rattle.lrlex_handles.specs.Buffers.{filled};
ghost use Rattle.lrlex_handles.specs.LexBuildResult.{IsChecked};
ghost use Rattle.lrlex_handles.specs.NamedIds.{AreNamesUtf8, id_by, is_missing};
ghost use Rattle.lrlex_handles.specs.Objects.{answer_in, definition_in, refusal_in};
ghost use Rattle.lrlex_handles.specs.Settings.{flags_by};

use lrlex_handles::handle::Handle;
use lrlex_handles::structs::{NamedId, Options};
use lrlex_handles::{checking, definitions, handle, ids};
use std::alloc::Global;

/// Reads a rule text. The handle has the definition, or, where the call returns 1, the text's faults. Else it is empty. What it had
/// before is freed.
#[unsafe(no_mangle)]
pub extern "C" fn lrlex_definition_new(
    alloc: Global,
    out: &mut Handle,
    rules: &[u8],
    options: &Options,
) -> i32
    ensures answer { IfSome (answer_in out.new.value)
        (IsAnswer (λ d. d) (flags_by options.now) (2 ^ 32 - 1) rules.now) }
    ensures defined { result ≡ pos 0 ↔ IsSome (definition_in out.new.value) }
    ensures refused { result ≡ pos 1 ↔ IsSome (refusal_in out.new.value) }
    ensures failed { result ≢ pos 0 → result ≢ pos 1 → out.new.value ≡ None }
    ensures misused { result ≢ pos 4 }
    ensures unread { result ≡ pos 3 → ¬ (IsUtf8 rules.now) }
{
    definitions::define(alloc, out, rules, options)
}

/// Reads a rule text. The handle has the definition, or, where the call returns 1, all faults of the text. Else it is empty. What it
/// had before is freed.
#[unsafe(no_mangle)]
pub extern "C" fn lrlex_check(
    alloc: Global,
    out: &mut Handle,
    rules: &[u8],
    options: &Options,
) -> i32
    ensures answer { IfSome (answer_in out.new.value)
        (IsChecked (flags_by options.now) (2 ^ 32 - 1) rules.now) }
    ensures defined { result ≡ pos 0 ↔ IsSome (definition_in out.new.value) }
    ensures refused { result ≡ pos 1 ↔ IsSome (refusal_in out.new.value) }
    ensures failed { result ≢ pos 0 → result ≢ pos 1 → out.new.value ≡ None }
    ensures misused { result ≢ pos 4 }
    ensures unread { result ≡ pos 3 → ¬ (IsUtf8 rules.now) }
{
    checking::check(alloc, out, rules, options)
}

/// Gives another handle the same definition. What that handle had before is freed.
#[unsafe(no_mangle)]
pub extern "C" fn lrlex_definition_share(
    alloc: Global,
    handle: &mut Handle,
    out: &mut Handle,
) -> i32
    ensures kept { handle.new.value ≡ handle.old.value }
    ensures done { result ≡ pos 0 → definition_in out.new.value ≡ definition_in handle.old.value }
    ensures misused { definition_in handle.old.value ≡ None → result ≢ pos 0 }
    ensures failed { result ≢ pos 0 → out.new.value ≡ None }
{
    definitions::share(alloc, handle, out)
}

/// Gives each named rule the id that its name has here, or none. Unnamed rules keep theirs. Of as many entries as there is room for,
/// `missing` says whether no rule has the name. If the call doesn't return 0, the definition is what it was.
#[unsafe(no_mangle)]
pub extern "C" fn lrlex_definition_set_rule_ids(
    alloc: Global,
    handle: &mut Handle,
    ids: &[NamedId<'_>],
    missing: &mut [bool],
) -> i32
    ensures done { result ≡ pos 0 → IfSome (definition_in handle.old.value)
        (λ d. definition_in handle.new.value ≡ Some (with_ids (id_by ids.now) d)) }
    ensures missing { result ≡ pos 0 → IfSome (definition_in handle.old.value)
        (λ d. missing.new ≡ filled (λ e _. is_missing d.rules e.name.now) ids.now missing.old) }
    ensures kept { result ≢ pos 0 → handle.new.value ≡ handle.old.value }
    ensures misused { result ≡ pos 4 ↔ definition_in handle.old.value ≡ None }
    ensures unread { result ≡ pos 3 → ¬ (AreNamesUtf8 ids.now) }
{
    ids::set_rule_ids(alloc, handle, ids, missing)
}

/// Lets go of what the handle holds. It is empty then.
#[unsafe(no_mangle)]
pub extern "C" fn lrlex_free(alloc: Global, handle: &mut Handle)
    ensures { handle.new.value ≡ None }
{
    handle::free(alloc, handle)
}
