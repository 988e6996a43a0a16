//! The rules of a definition, and their names.
ghost use Rattle.std.specs.Prelude.{◌≡◌, ◌↔◌, length, option_map, slice_get, pos, None, Some, IfSome, MatchOption};
ghost use Rattle.std.specs.Option.{option_map_or};
ghost use Rattle.lrlex.specs.Ids.{name_of};
ghost use Rattle.lrlex_handles.specs.Buffers.{IsWritten};
ghost use Rattle.lrlex_handles.specs.Infos.{rule_info};
ghost use Rattle.lrlex_handles.specs.Objects.{definition_in};
ghost use Rattle.lrlex_rules.specs.RuleParts.{as_rule};

use crate::handle::{Handle, with_object};
use crate::object::Object;
use crate::status::{MISUSE, NONE, OK};
use crate::structs::RuleInfo;
use crate::texts::write_name;
use lrlex::{LexerDef, Rule};
use std::alloc::Global;

fn rules_in(object: &Object) -> usize
    ensures { result ≡ option_map_or (λ d. length d.rules) (definition_in (Some object.now)) 0 }
{
    match object {
        Object::Definition(definition) => definition.rules().len(),
        _ => 0,
    }
}

/// How many rules the definition has.
pub fn rule_count(alloc: Global, handle: &mut Handle) -> usize
    ensures kept { handle.new.value ≡ handle.old.value }
    ensures count { result ≡ option_map_or (λ d. length d.rules) (definition_in handle.old.value) 0 }
{
    with_object!(alloc, handle, 0, |object| rules_in(&object))
}

fn name_in(object: &Object, id: u32, out: &mut [u8], len: &mut usize) -> i32
    ensures misused { result ≡ pos 4 ↔ definition_in (Some object.now) ≡ None }
    ensures done { result ≡ pos 0 → IfSome (definition_in (Some object.now))
        (λ d. MatchOption (name_of d.rules id) ⊥ (λ t. IsWritten t out.old out.new len.new)) }
    ensures none { result ≡ pos 5 → IfSome (definition_in (Some object.now))
        (λ d. name_of d.rules id ≡ None) }
{
    match object {
        Object::Definition(definition) => write_name(definition.name_of(id), out, len),
        _ => MISUSE,
    }
}

/// The name of the first rule that has a name and this id. As many bytes are written as there is room for.
pub fn name(alloc: Global, handle: &mut Handle, id: u32, out: &mut [u8], len: &mut usize) -> i32
    ensures kept { handle.new.value ≡ handle.old.value }
    ensures misused { result ≡ pos 4 ↔ definition_in handle.old.value ≡ None }
    ensures done { result ≡ pos 0 → IfSome (definition_in handle.old.value)
        (λ d. MatchOption (name_of d.rules id) ⊥ (λ t. IsWritten t out.old out.new len.new)) }
    ensures none { result ≡ pos 5 → IfSome (definition_in handle.old.value)
        (λ d. name_of d.rules id ≡ None) }
{
    with_object!(
        alloc,
        handle,
        MISUSE,
        |object| name_in(&object, id, out, len)
    )
}

fn info_of(rule: &Rule<u32>) -> RuleInfo
    ensures { result ≡ rule_info (as_rule (λ n. n) rule.now) }
{
    let span = rule.name_span();
    RuleInfo {
        name_start: span.start(),
        name_end: span.end(),
        name_len: match rule.name() {
            Some(name) => name.len(),
            None => 0,
        },
        id: rule.tok_id().unwrap_or(0),
        has_id: rule.tok_id().is_some(),
        has_name: rule.name().is_some(),
    }
}

fn rule_in(object: &Object, index: usize, out: &mut RuleInfo) -> i32
    ensures misused { result ≡ pos 4 ↔ definition_in (Some object.now) ≡ None }
    ensures done { result ≡ pos 0 → IfSome (definition_in (Some object.now))
        (λ d. option_map rule_info (slice_get d.rules index) ≡ Some out.new) }
    ensures none { result ≡ pos 5 → IfSome (definition_in (Some object.now))
        (λ d. slice_get d.rules index ≡ None) }
{
    match object {
        Object::Definition(definition) => match definition.rules().get(index) {
            None => NONE,
            Some(rule) => {
                *out = info_of(rule);
                OK
            }
        },
        _ => MISUSE,
    }
}

/// The rule at this index, from 0.
pub fn rule_at(alloc: Global, handle: &mut Handle, index: usize, out: &mut RuleInfo) -> i32
    ensures kept { handle.new.value ≡ handle.old.value }
    ensures misused { result ≡ pos 4 ↔ definition_in handle.old.value ≡ None }
    ensures done { result ≡ pos 0 → IfSome (definition_in handle.old.value)
        (λ d. option_map rule_info (slice_get d.rules index) ≡ Some out.new) }
    ensures none { result ≡ pos 5 → IfSome (definition_in handle.old.value)
        (λ d. slice_get d.rules index ≡ None) }
{
    with_object!(alloc, handle, MISUSE, |object| rule_in(&object, index, out))
}

fn rule_name_in(object: &Object, index: usize, out: &mut [u8], len: &mut usize) -> i32
    ensures misused { result ≡ pos 4 ↔ definition_in (Some object.now) ≡ None }
    ensures done { result ≡ pos 0 → IfSome (definition_in (Some object.now))
        (λ d. MatchOption (slice_get d.rules index) ⊥ (λ r. MatchOption r.name ⊥
        (λ t. IsWritten t out.old out.new len.new))) }
    ensures none { result ≡ pos 5 → IfSome (definition_in (Some object.now))
        (λ d. IfSome (slice_get d.rules index) (λ r. r.name ≡ None)) }
{
    match object {
        Object::Definition(definition) => match definition.rules().get(index) {
            None => NONE,
            Some(rule) => write_name(rule.name(), out, len),
        },
        _ => MISUSE,
    }
}

/// The name of the rule at this index, from 0, if it has one. As many bytes are written as there is room for.
pub fn rule_name(
    alloc: Global,
    handle: &mut Handle,
    index: usize,
    out: &mut [u8],
    len: &mut usize,
) -> i32
    ensures kept { handle.new.value ≡ handle.old.value }
    ensures misused { result ≡ pos 4 ↔ definition_in handle.old.value ≡ None }
    ensures done { result ≡ pos 0 → IfSome (definition_in handle.old.value)
        (λ d. MatchOption (slice_get d.rules index) ⊥ (λ r. MatchOption r.name ⊥
        (λ t. IsWritten t out.old out.new len.new))) }
    ensures none { result ≡ pos 5 → IfSome (definition_in handle.old.value)
        (λ d. IfSome (slice_get d.rules index) (λ r. r.name ≡ None)) }
{
    with_object!(
        alloc,
        handle,
        MISUSE,
        |object| rule_name_in(&object, index, out, len)
    )
}
