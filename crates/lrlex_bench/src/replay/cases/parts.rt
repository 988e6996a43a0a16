//! The start states, the rules and the token ids of a case.
use crate::replay::cases::reading::{RuleParts, Trouble, count_of, number_in, parts_of, state_of};
use lrlex::{LexFlags, Rule, StartState};
use serde_json::Value;
use std::alloc::{AllocError, Global};
use std::collections::HashMap;

/// The id whose number this is.
pub fn id_of(value: &Value) -> u32 {
    u32::try_from(count_of(value)).unwrap_or(0)
}

/// The token ids of an object, by the names that they are for.
pub fn ids_of(alloc: Global, value: Option<&Value>) -> Result<HashMap<&str, u32>, Trouble> {
    let mut ids = HashMap::new(alloc);
    if let Some(members) = value.and_then(Value::as_object) {
        for (name, id) in members {
            ids.insert(name.as_str(), id_of(id))?;
        }
    }
    Ok(ids)
}

/// The rule of these parts, or none where its pattern is refused.
fn rule_of(
    alloc: Global,
    id: Option<u32>,
    parts: RuleParts,
    flags: &LexFlags,
) -> Result<Option<Rule<u32>>, AllocError> {
    let RuleParts {
        name,
        name_span,
        re_str,
        start_states,
        target,
    } = parts;
    let made = Rule::new(
        alloc,
        id,
        name,
        name_span,
        re_str,
        start_states,
        target,
        flags,
    )?;
    Ok(made.ok())
}

/// The rules, or the place of the first that is refused.
pub fn rules_of(
    alloc: Global,
    list: &[Value],
    flags: &LexFlags,
) -> Result<Result<Vec<Rule<u32>>, usize>, AllocError> {
    let mut rules = Vec::new(alloc);
    for (place, value) in list.iter().enumerate() {
        let id = number_in(value, "tok_id");
        match rule_of(alloc, id, parts_of(alloc, value)?, flags)? {
            Some(rule) => rules.push(rule)?,
            None => return Ok(Err(place)),
        }
    }
    Ok(Ok(rules))
}

/// The start states.
pub fn states_of(alloc: Global, list: &[Value]) -> Result<Vec<StartState>, AllocError> {
    let mut states = Vec::new(alloc);
    for value in list {
        states.push(state_of(alloc, value)?)?;
    }
    Ok(states)
}
