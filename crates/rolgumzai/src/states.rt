//! Start states by their ids.
use crate::files::Definition;
use lrlex::{LexerDef, StartState};

/// The start state with this id.
fn state_by_id(definition: &Definition, id: usize) -> Option<&StartState> {
    definition
        .iter_start_states()
        .find(|state| state.id() == id)
}

/// The name of the start state with this id.
pub fn state_name(definition: &Definition, id: usize) -> &str {
    match state_by_id(definition, id) {
        Some(state) => state.name(),
        None => "",
    }
}
