//! Look-ups by id and by name, and token ids that are set.
use crate::replay::building::Definition;
use crate::replay::cases::facts::{
    tell_by_id, tell_by_name, tell_name_sets, tell_rules, tell_sets,
};
use crate::replay::cases::parts::{id_of, ids_of};
use crate::replay::cases::reading::{Trouble, text_of};
use crate::replay::cases::told::Told;
use lrlex::{LexerDef, Rule};
use serde_json::Value;
use std::collections::HashMap;

/// The first rule with this id, by both calls that look for it.
fn rule_by_id(definition: &Definition<u32>, id: u32) -> Option<&Rule<u32>> {
    match definition.find_rule_by_id(id) {
        Some(_) => Some(definition.get_rule_by_id(id)),
        None => None,
    }
}

/// Looks these ids and names up.
pub fn find(told: &mut Told, definition: &Definition<u32>, ids: &[Value], names: &[Value]) {
    for id in ids {
        let id = id_of(id);
        tell_by_id(told, id, rule_by_id(definition, id), definition.name_of(id));
    }
    for name in names {
        let name = text_of(name);
        tell_by_name(told, name, definition.get_rule_by_name(name));
    }
}

/// Tells that memory was refused, and the rules as they are then.
fn tell_refused(told: &mut Told, definition: &Definition<u32>) {
    told.key("out_of_memory").null();
    tell_rules(told, definition.rules());
}

/// Sets token ids, once more where memory is refused, and tells what that gives, with the places of names.
fn set_spanned(told: &mut Told, definition: &mut Definition<u32>, ids: &HashMap<&str, u32>) {
    let mut sets = definition.set_rule_ids_spanned(told.alloc(), ids);
    if sets.is_err() {
        tell_refused(told, definition);
        sets = definition.set_rule_ids_spanned(told.alloc(), ids);
    }
    tell_sets(told, "ids", sets);
}

/// The same without places.
fn set_named(told: &mut Told, definition: &mut Definition<u32>, ids: &HashMap<&str, u32>) {
    let mut sets = definition.set_rule_ids(told.alloc(), ids);
    if sets.is_err() {
        tell_refused(told, definition);
        sets = definition.set_rule_ids(told.alloc(), ids);
    }
    tell_name_sets(told, "ids", sets);
}

/// Sets the token ids of an object, and tells what that gives.
pub fn set_ids(
    told: &mut Told,
    definition: &mut Definition<u32>,
    members: Option<&Value>,
    spanned: bool,
) -> Result<(), Trouble> {
    let ids = ids_of(told.alloc(), members)?;
    if spanned {
        set_spanned(told, definition, &ids);
    } else {
        set_named(told, definition, &ids);
    }
    Ok(())
}
