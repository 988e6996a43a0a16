//! The rules and the start states of a definition.
ghost use Rattle.std.specs.Option.{option_map_or};
ghost use Rattle.std.specs.Prelude.{◌≡◌, ◌↔◌, length, option_map, slice_get, pos, None, Some, IfSome, MatchOption};
ghost use Rattle.lrlex.specs.Ids.{name_of};
ghost use Rattle.lrlex_handles.specs.Buffers.{IsWritten};
ghost use Rattle.lrlex_handles.specs.Infos.{rule_info, state_info};
ghost use Rattle.lrlex_handles.specs.Objects.{definition_in};

use lrlex_handles::handle::Handle;
use lrlex_handles::structs::{RuleInfo, StateInfo};
use lrlex_handles::{rules, states};
use std::alloc::Global;

/// How many rules the definition has.
#[unsafe(no_mangle)]
pub extern "C" fn lrlex_rule_count(alloc: Global, handle: &mut Handle) -> usize
    ensures kept { handle.new.value ≡ handle.old.value }
    ensures count { result ≡ option_map_or (λ d. length d.rules) (definition_in handle.old.value) 0 }
{
    rules::rule_count(alloc, handle)
}

/// The name of the first rule that has a name and this id. As many bytes are written as there is room for.
#[unsafe(no_mangle)]
pub extern "C" fn lrlex_name(
    alloc: Global,
    handle: &mut Handle,
    id: u32,
    out: &mut [u8],
    len: &mut usize,
) -> i32
    ensures kept { handle.new.value ≡ handle.old.value }
    ensures misused { result ≡ pos 4 ↔ definition_in handle.old.value ≡ None }
    ensures done { result ≡ pos 0 → IfSome (definition_in handle.old.value)
        (λ d. MatchOption (name_of d.rules id) ⊥ (λ t. IsWritten t out.old out.new len.new)) }
    ensures none { result ≡ pos 5 → IfSome (definition_in handle.old.value)
        (λ d. name_of d.rules id ≡ None) }
{
    rules::name(alloc, handle, id, out, len)
}

/// The rule at this index, from 0.
#[unsafe(no_mangle)]
pub extern "C" fn lrlex_rule_at(
    alloc: Global,
    handle: &mut Handle,
    index: usize,
    out: &mut RuleInfo,
) -> i32
    ensures kept { handle.new.value ≡ handle.old.value }
    ensures misused { result ≡ pos 4 ↔ definition_in handle.old.value ≡ None }
    ensures done { result ≡ pos 0 → IfSome (definition_in handle.old.value)
        (λ d. option_map rule_info (slice_get d.rules index) ≡ Some out.new) }
    ensures none { result ≡ pos 5 → IfSome (definition_in handle.old.value)
        (λ d. slice_get d.rules index ≡ None) }
{
    rules::rule_at(alloc, handle, index, out)
}

/// The name of the rule at this index, from 0, if it has one. As many bytes are written as there is room for.
#[unsafe(no_mangle)]
pub extern "C" fn lrlex_rule_name(
    alloc: Global,
    handle: &mut Handle,
    index: usize,
    out: &mut [u8],
    len: &mut usize,
) -> i32
    ensures kept { handle.new.value ≡ handle.old.value }
    ensures misused { result ≡ pos 4 ↔ definition_in handle.old.value ≡ None }
    ensures done { result ≡ pos 0 → IfSome (definition_in handle.old.value)
        (λ d. MatchOption (slice_get d.rules index) ⊥ (λ r. MatchOption r.name ⊥
        (λ t. IsWritten t out.old out.new len.new))) }
    ensures none { result ≡ pos 5 → IfSome (definition_in handle.old.value)
        (λ d. IfSome (slice_get d.rules index) (λ r. r.name ≡ None)) }
{
    rules::rule_name(alloc, handle, index, out, len)
}

/// How many start states the definition has, with `INITIAL`.
#[unsafe(no_mangle)]
pub extern "C" fn lrlex_state_count(alloc: Global, handle: &mut Handle) -> usize
    ensures kept { handle.new.value ≡ handle.old.value }
    ensures count { result ≡ option_map_or (λ d. length d.states) (definition_in handle.old.value)
        0 }
{
    states::state_count(alloc, handle)
}

/// The start state at this index, from 0.
#[unsafe(no_mangle)]
pub extern "C" fn lrlex_state_at(
    alloc: Global,
    handle: &mut Handle,
    index: usize,
    out: &mut StateInfo,
) -> i32
    ensures kept { handle.new.value ≡ handle.old.value }
    ensures misused { result ≡ pos 4 ↔ definition_in handle.old.value ≡ None }
    ensures done { result ≡ pos 0 → IfSome (definition_in handle.old.value)
        (λ d. option_map state_info (slice_get d.states index) ≡ Some out.new) }
    ensures none { result ≡ pos 5 → IfSome (definition_in handle.old.value)
        (λ d. slice_get d.states index ≡ None) }
{
    states::state_at(alloc, handle, index, out)
}

/// The name of the start state at this index, from 0. As many bytes are written as there is room for.
#[unsafe(no_mangle)]
pub extern "C" fn lrlex_state_name(
    alloc: Global,
    handle: &mut Handle,
    index: usize,
    out: &mut [u8],
    len: &mut usize,
) -> i32
    ensures kept { handle.new.value ≡ handle.old.value }
    ensures misused { result ≡ pos 4 ↔ definition_in handle.old.value ≡ None }
    ensures done { result ≡ pos 0 → IfSome (definition_in handle.old.value)
        (λ d. MatchOption (slice_get d.states index) ⊥
        (λ s. IsWritten s.name out.old out.new len.new)) }
    ensures none { result ≡ pos 5 → IfSome (definition_in handle.old.value)
        (λ d. slice_get d.states index ≡ None) }
{
    states::state_name(alloc, handle, index, out, len)
}
