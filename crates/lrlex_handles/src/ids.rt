//! Ids of rules by their names.
ghost use Rattle.std.specs.Prelude.{◌≡◌, ◌≢◌, ◌↔◌, ℕ, List, length, map, pos, None, Some, IfOk, IfSome};
ghost use Rattle.std.specs.List.{list_any};
ghost use Rattle.lrlex.specs.Ids.{ids_of, is_named, with_ids};
ghost use Rattle.lrlex.specs.Views.{definition_of};
ghost use Rattle.lrlex_rules.specs.RuleParts.{as_rule};
ghost use Rattle.lrlex_handles.specs.Buffers.{filled};
ghost use Rattle.lrlex_handles.specs.NamedIds.{AreNamesUtf8, id_by, is_missing};
ghost use Rattle.lrlex_handles.specs.Objects.{definition_in};

use crate::handle::{Handle, with_object};
use crate::object::{Definition, Object};
use crate::status::{MISUSE, NO_MEMORY, NOT_UTF8, OK, SHARED};
use crate::structs::NamedId;
use lrlex::{LexerDef, Rule};
use std::alloc::{AllocError, Global};
use std::collections::HashMap;
use std::str;
use std::sync::Arc;

fn has_name(rule: &Rule<u32>, name: &[u8]) -> bool
    ensures { result ≡ is_named name.now (as_rule (λ n. n) rule.now) }
{
    match rule.name() {
        Some(own) => name == own.as_bytes(),
        None => false,
    }
}

/// Whether one of the rules has the name.
fn is_there(rules: &[Rule<u32>], name: &[u8]) -> bool
    ensures { result ≡ list_any (λ r. is_named name.now (as_rule (λ n. n) r)) rules.now }
{
    rules.iter().any(|rule| has_name(rule, name))
}

/// Whether no rule has the name.
fn is_missing(rules: &[Rule<u32>], name: &[u8]) -> bool
    ensures { result ≡ is_missing (map (as_rule (λ n. n)) rules.now) name.now }
{
    !is_there(rules, name)
}

/// Writes of as many of the names as there is room for whether no rule has it.
fn copy_missing(rules: &[Rule<u32>], ids: &[NamedId<'_>], missing: &mut [bool])
    ensures { missing.new ≡ filled (λ e _. is_missing (map (as_rule (λ n. n)) rules.now) e.name.now)
        ids.now missing.old }
{
    let room = ids.len().min(missing.len());
    for i in 0..room {
        missing[i] = is_missing(rules, ids[i].name);
    }
}

/// The ids by their names, of which a later one takes the place of an earlier. `None` if a name isn't UTF-8.
fn map_of<'a>(
    alloc: Global,
    ids: &[NamedId<'a>],
) -> Result<Option<HashMap<&'a str, u32>>, AllocError>
    ensures ids { IfOk result (λ made. IfSome made
        (λ known. (name : List ℕ) → ids_of (λ n. n) known name ≡ id_by ids.now name)) }
    ensures unread { IfOk result (λ made. made ≡ None → ¬ (AreNamesUtf8 ids.now)) }
{
    let mut known = HashMap::new(alloc);
    for entry in ids {
        match str::from_utf8(entry.name) {
            Ok(name) => {
                known.insert(name, entry.id)?;
            }
            Err(_) => return Ok(None),
        }
    }
    Ok(Some(known))
}

/// Gives the rules of the definition their ids.
fn take_ids(
    alloc: Global,
    definition: &mut Definition,
    ids: &[NamedId<'_>],
    missing: &mut [bool],
) -> i32
    ensures done { result ≡ pos 0 → definition_of (λ n. n) definition.new
        ≡ with_ids (id_by ids.now) (definition_of (λ n. n) definition.old) }
    ensures missing { result ≡ pos 0 → missing.new ≡ filled
        (λ e _. is_missing (definition_of (λ n. n) definition.old).rules e.name.now) ids.now
        missing.old }
    ensures kept { result ≢ pos 0 → definition.new ≡ definition.old }
    ensures misused { result ≢ pos 4 }
    ensures unread { result ≡ pos 3 → ¬ (AreNamesUtf8 ids.now) }
{
    match map_of(alloc, ids) {
        Err(_) => NO_MEMORY,
        Ok(None) => NOT_UTF8,
        Ok(Some(known)) => {
            copy_missing(definition.rules(), ids, missing);
            match definition.set_rule_ids(alloc, &known) {
                Err(_) => NO_MEMORY,
                Ok(_) => OK,
            }
        }
    }
}

fn ids_in(alloc: Global, object: &mut Object, ids: &[NamedId<'_>], missing: &mut [bool]) -> i32
    ensures done { result ≡ pos 0 → IfSome (definition_in (Some object.old))
        (λ d. definition_in (Some object.new) ≡ Some (with_ids (id_by ids.now) d)) }
    ensures missing { result ≡ pos 0 → IfSome (definition_in (Some object.old))
        (λ d. missing.new ≡ filled (λ e _. is_missing d.rules e.name.now) ids.now missing.old) }
    ensures kept { result ≢ pos 0 → object.new ≡ object.old }
    ensures misused { result ≡ pos 4 ↔ definition_in (Some object.old) ≡ None }
    ensures unread { result ≡ pos 3 → ¬ (AreNamesUtf8 ids.now) }
{
    match object {
        Object::Definition(definition) => match Arc::get_mut(definition) {
            None => SHARED,
            Some(definition) => take_ids(alloc, definition, ids, missing),
        },
        _ => MISUSE,
    }
}

/// Gives each named rule the id that its name has here, or none. Unnamed rules keep theirs. Of as many entries as there is room for,
/// `missing` says whether no rule has the name. If the call doesn't return 0, the definition is what it was.
pub fn set_rule_ids(
    alloc: Global,
    handle: &mut Handle,
    ids: &[NamedId<'_>],
    missing: &mut [bool],
) -> i32
    ensures done { result ≡ pos 0 → IfSome (definition_in handle.old.value)
        (λ d. definition_in handle.new.value ≡ Some (with_ids (id_by ids.now) d)) }
    ensures missing { result ≡ pos 0 → IfSome (definition_in handle.old.value)
        (λ d. missing.new ≡ filled (λ e _. is_missing d.rules e.name.now) ids.now missing.old) }
    ensures kept { result ≢ pos 0 → handle.new.value ≡ handle.old.value }
    ensures misused { result ≡ pos 4 ↔ definition_in handle.old.value ≡ None }
    ensures unread { result ≡ pos 3 → ¬ (AreNamesUtf8 ids.now) }
{
    with_object!(
        alloc,
        handle,
        MISUSE,
        |mut object| ids_in(alloc, &mut object, ids, missing)
    )
}
