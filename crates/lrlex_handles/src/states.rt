//! The start states of a definition, and their names.
ghost use Rattle.std.specs.Prelude.{◌≡◌, ◌↔◌, length, map, option_map, slice_get, pos, None, Some, IfSome, MatchOption};
ghost use Rattle.std.specs.Option.{option_map_or};
ghost use Rattle.lrlex.specs.Views.{definition_of};
ghost use Rattle.lrlex_handles.specs.Buffers.{IsWritten};
ghost use Rattle.lrlex_handles.specs.Infos.{state_info};
ghost use Rattle.lrlex_handles.specs.Objects.{definition_in};
ghost use Rattle.lrlex_rules.specs.RuleParts.{as_state};

use crate::handle::{Handle, with_object};
use crate::object::{Definition, Object};
use crate::status::{MISUSE, NONE, OK};
use crate::structs::StateInfo;
use crate::texts::write_text;
use lrlex::{LexerDef, StartState};
use std::alloc::Global;

/// The start states of the definition.
fn states_of(definition: &Definition) -> &[StartState]
    ensures { map as_state result.now ≡ (definition_of (λ n. n) definition.now).states }
{
    definition.iter_start_states().as_slice()
}

fn states_in(object: &Object) -> usize
    ensures { result ≡ option_map_or (λ d. length d.states) (definition_in (Some object.now)) 0 }
{
    match object {
        Object::Definition(definition) => states_of(definition).len(),
        _ => 0,
    }
}

/// How many start states the definition has, with `INITIAL`.
pub fn state_count(alloc: Global, handle: &mut Handle) -> usize
    ensures kept { handle.new.value ≡ handle.old.value }
    ensures count { result ≡ option_map_or (λ d. length d.states) (definition_in handle.old.value)
        0 }
{
    with_object!(alloc, handle, 0, |object| states_in(&object))
}

fn state_info_of(state: &StartState) -> StateInfo
    ensures { result ≡ state_info (as_state state.now) }
{
    let span = state.name_span();
    StateInfo {
        id: state.id(),
        name_start: span.start(),
        name_end: span.end(),
        name_len: state.name().len(),
        exclusive: state.exclusive(),
    }
}

fn state_in(object: &Object, index: usize, out: &mut StateInfo) -> i32
    ensures misused { result ≡ pos 4 ↔ definition_in (Some object.now) ≡ None }
    ensures done { result ≡ pos 0 → IfSome (definition_in (Some object.now))
        (λ d. option_map state_info (slice_get d.states index) ≡ Some out.new) }
    ensures none { result ≡ pos 5 → IfSome (definition_in (Some object.now))
        (λ d. slice_get d.states index ≡ None) }
{
    match object {
        Object::Definition(definition) => match states_of(definition).get(index) {
            None => NONE,
            Some(state) => {
                *out = state_info_of(state);
                OK
            }
        },
        _ => MISUSE,
    }
}

/// The start state at this index, from 0.
pub fn state_at(alloc: Global, handle: &mut Handle, index: usize, out: &mut StateInfo) -> i32
    ensures kept { handle.new.value ≡ handle.old.value }
    ensures misused { result ≡ pos 4 ↔ definition_in handle.old.value ≡ None }
    ensures done { result ≡ pos 0 → IfSome (definition_in handle.old.value)
        (λ d. option_map state_info (slice_get d.states index) ≡ Some out.new) }
    ensures none { result ≡ pos 5 → IfSome (definition_in handle.old.value)
        (λ d. slice_get d.states index ≡ None) }
{
    with_object!(
        alloc,
        handle,
        MISUSE,
        |object| state_in(&object, index, out)
    )
}

fn state_name_in(object: &Object, index: usize, out: &mut [u8], len: &mut usize) -> i32
    ensures misused { result ≡ pos 4 ↔ definition_in (Some object.now) ≡ None }
    ensures done { result ≡ pos 0 → IfSome (definition_in (Some object.now))
        (λ d. MatchOption (slice_get d.states index) ⊥
        (λ s. IsWritten s.name out.old out.new len.new)) }
    ensures none { result ≡ pos 5 → IfSome (definition_in (Some object.now))
        (λ d. slice_get d.states index ≡ None) }
{
    match object {
        Object::Definition(definition) => match states_of(definition).get(index) {
            None => NONE,
            Some(state) => {
                write_text(state.name(), out, len);
                OK
            }
        },
        _ => MISUSE,
    }
}

/// The name of the start state at this index, from 0. As many bytes are written as there is room for.
pub fn state_name(
    alloc: Global,
    handle: &mut Handle,
    index: usize,
    out: &mut [u8],
    len: &mut usize,
) -> i32
    ensures kept { handle.new.value ≡ handle.old.value }
    ensures misused { result ≡ pos 4 ↔ definition_in handle.old.value ≡ None }
    ensures done { result ≡ pos 0 → IfSome (definition_in handle.old.value)
        (λ d. MatchOption (slice_get d.states index) ⊥
        (λ s. IsWritten s.name out.old out.new len.new)) }
    ensures none { result ≡ pos 5 → IfSome (definition_in handle.old.value)
        (λ d. slice_get d.states index ≡ None) }
{
    with_object!(
        alloc,
        handle,
        MISUSE,
        |object| state_name_in(&object, index, out, len)
    )
}
