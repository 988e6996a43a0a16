//! Which rules are active, or have no table, in some start state.
ghost use Rattle.std.specs.Prelude.{◌≡◌, ◌<◌, ◌||◌, ◌==◌, ℕ, [], true, false, length, IfOk, slice_index_or};
ghost use Rattle.std.specs.List.{list_any};
ghost use Rattle.lrlex_table.specs.Tables.{is_among};
ghost use Rattle.lrlex_rules.specs.Active.{active_places, is_state};
ghost use Rattle.lrlex_definition.specs.RuleTable.{definition_by};
ghost use Rattle.lrlex_definition.specs.Somewhere.{is_active_somewhere, is_asked_somewhere, stands_at};

use crate::rule_table::RuleTable;
use lrlex_base::Numbered;
use std::alloc::{AllocError, Global};

/// Marks a place, where the list has it.
fn mark(marks: &mut [bool], place: usize)
    ensures marked { (k : ℕ) → k < length marks.old →
        slice_index_or marks.new k false ≡ (slice_index_or marks.old k false || (place == k)) }
    ensures len { length marks.new ≡ length marks.old }
{
    if place < marks.len() {
        marks[place] = true;
    }
}

/// Marks these places, where the list has them.
fn mark_all(marks: &mut [bool], places: &[usize])
    ensures marked { (k : ℕ) → k < length marks.old → slice_index_or marks.new k false
        ≡ (slice_index_or marks.old k false || is_among places.now k) }
    ensures len { length marks.new ≡ length marks.old }
{
    'places: for at in 0..places.len() {
        mark(marks, places[at]);
    }
}

/// Marks the rules of a list that are at these indices of it, where the marks have them.
fn mark_at(marks: &mut [bool], places: &[usize], indices: &[usize])
    ensures marked { (k : ℕ) → k < length marks.old → slice_index_or marks.new k false
        ≡ (slice_index_or marks.old k false || list_any (stands_at places.now k) indices.now) }
    ensures len { length marks.new ≡ length marks.old }
{
    'indices: for at in 0..indices.len() {
        let index = indices[at];
        if index < places.len() {
            mark(marks, places[index]);
        }
    }
}

impl<S: Numbered> RuleTable<S> {
    /// For each rule, by its place, whether it is active in some start state.
    pub fn active_somewhere(&self, alloc: Global) -> Result<Vec<bool>, AllocError>
        ensures active { IfOk result (λ marks. (k : ℕ) → k < length self.now.rules.items →
            slice_index_or marks.items k false
            ≡ is_active_somewhere (definition_by S.number self.now) k) }
        ensures each { IfOk result (λ marks. length marks.items ≡ length self.now.rules.items) }
    {
        let mut marks = vec![in alloc; false; self.rules.len()]?;
        'states: for at in 0..self.list_at.len() {
            let list = self.list_at[at];
            mark_all(&mut marks, &self.lists[list]);
        }
        Ok(marks)
    }

    /// For each rule, by its place, whether it has no table in some start state.
    pub fn asked_somewhere(&self, alloc: Global) -> Result<Vec<bool>, AllocError>
        ensures asked { IfOk result (λ marks. (k : ℕ) → k < length self.now.rules.items →
            slice_index_or marks.items k false ≡ is_asked_somewhere self.now k) }
        ensures each { IfOk result (λ marks. length marks.items ≡ length self.now.rules.items) }
    {
        let mut marks = vec![in alloc; false; self.rules.len()]?;
        'states: for at in 0..self.list_at.len() {
            let list = self.list_at[at];
            mark_at(&mut marks, &self.lists[list], self.tables[list].asked());
        }
        Ok(marks)
    }

    /// The places of the rules that are active in the state with this id, in order. None where no state has the id.
    pub fn active_rules(&self, id: usize) -> &[usize]
        ensures places { is_state (definition_by S.number self.now) id ≡ true →
            result.now ≡ active_places (definition_by S.number self.now).states
            (definition_by S.number self.now).rules id }
        ensures none { is_state (definition_by S.number self.now) id ≡ false →
            result.now ≡ [] }
    {
        if self.is_state(id) {
            self.rules_in(id).active
        } else {
            &[]
        }
    }
}
