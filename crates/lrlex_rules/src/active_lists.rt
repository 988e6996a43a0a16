//! The rules that are active in each start state, as lists of places: states with the same rules share a list.
ghost use Rattle.std.specs.Prelude.{◌≡◌, ◌<◌, ◌≤◌, ◌∷◌, ◌++◌, [], ℕ, All, map, length, IfOk, IfSome, IsTrue};
ghost use Rattle.lrlex_rules.specs.RuleParts.{as_rule, as_state};
ghost use Rattle.lrlex_rules.specs.Active.{active_places};
ghost use Rattle.lrlex_rules.specs.RuleLists.{ArePlaced, list_in, lists_at};

use crate::active::{active_places, listed_places, places_where, unlisted_places};
use crate::rules::Rule;
use crate::states::StartState;
use std::alloc::{AllocError, Global};
use std::collections::HashMap;

/// A number that lists of the same places have in common.
fn hash_of(places: &[usize]) -> u64 {
    let mut hash = places.len() as u64;
    for place in places {
        hash = hash.rotate_left(5) ^ (*place as u64).wrapping_mul(0x9E37_79B9_7F4A_7C15);
    }
    hash
}

/// Which of the lists has these places, if it is the one with that hash.
fn same_list(
    known: &HashMap<u64, usize>,
    hash: u64,
    lists: &[Vec<usize>],
    places: &[usize],
) -> Option<usize>
    ensures within { IfSome result (λ j. j < length lists.now) }
    ensures same { IfSome result (λ j. list_in (map (λ v. v.items) lists.now) j ≡ places.now) }
{
    let index = *known.get(&hash)?;
    if index < lists.len() && lists[index].as_slice() == places {
        Some(index)
    } else {
        None
    }
}

/// Which of the lists has these places. They are added where none has.
fn put_list(
    lists: &mut Vec<Vec<usize>>,
    known: &mut HashMap<u64, usize>,
    places: Vec<usize>,
) -> Result<usize, AllocError>
    ensures longer { length lists.old.items ≤ length lists.new.items }
    ensures within { IfOk result (λ j. j < length lists.new.items) }
    ensures is { IfOk result (λ j. list_in (map (λ v. v.items) lists.new.items) j
        ≡ places.items) }
    ensures kept { IfOk result (λ _. (i : ℕ) → i < length lists.old.items
        → list_in (map (λ v. v.items) lists.new.items) i
        ≡ list_in (map (λ v. v.items) lists.old.items) i) }
{
    let hash = hash_of(&places);
    if let Some(index) = same_list(known, hash, lists, &places) {
        return Ok(index);
    }
    let index = lists.len();
    known.insert(hash, index)?;
    lists.push(places)?;
    Ok(index)
}

/// Gives the next state the list that has these places.
fn add_list(
    lists: &mut Vec<Vec<usize>>,
    known: &mut HashMap<u64, usize>,
    at: &mut Vec<usize>,
    places: Vec<usize>,
) -> Result<(), AllocError>
    requires { All (λ j. j < length lists.old.items) at.old.items }
    ensures within { IfOk result (λ _. All (λ j. j < length lists.new.items) at.new.items) }
    ensures added { IfOk result (λ _. lists_at lists.new.items at.new.items
        ≡ lists_at lists.old.items at.old.items ++ places.items ∷ []) }
{
    let list = put_list(lists, known, places)?;
    at.push(list)?;
    Ok(())
}

/// The lists of the rules that are active in these states, and which of them each state has: by states, each of which looks at
/// each rule.
fn lists_by_states<S>(
    alloc: Global,
    states: &[StartState],
    rules: &[Rule<S>],
) -> Result<(Vec<Vec<usize>>, Vec<usize>), AllocError>
    ensures listed { IfOk result (λ r. lists_at r.0.items r.1.items
        ≡ map (λ s. active_places (map as_state states.now) (map (as_rule (λ _. 0)) rules.now)
        (as_state s).id) states.now) }
    ensures within { IfOk result (λ r. All (λ j. j < length r.0.items) r.1.items) }
{
    let mut lists = Vec::new(alloc);
    let mut known = HashMap::new(alloc);
    let mut at = Vec::with_capacity(alloc, states.len())?;
    'states: for index in 0..states.len() {
        let places = active_places(alloc, states, rules, states[index].id())?;
        add_list(&mut lists, &mut known, &mut at, places)?;
    }
    Ok((lists, at))
}

/// The lists of rules that are active in the states, and which list each state has. Goes by rules: each rule is looked at
/// once, with the states that it lists. The id of each state is its place.
fn lists_by_rules<S>(
    alloc: Global,
    states: &[StartState],
    rules: &[Rule<S>],
) -> Result<(Vec<Vec<usize>>, Vec<usize>), AllocError>
    requires { ArePlaced states.now }
    ensures listed { IfOk result (λ r. lists_at r.0.items r.1.items
        ≡ map (λ s. active_places (map as_state states.now) (map (as_rule (λ _. 0)) rules.now)
        (as_state s).id) states.now) }
    ensures within { IfOk result (λ r. All (λ j. j < length r.0.items) r.1.items) }
{
    let unlisted = unlisted_places(alloc, rules)?;
    let listed = listed_places(alloc, states.len(), rules)?;
    let mut lists = Vec::new(alloc);
    let mut known = HashMap::new(alloc);
    let mut at = Vec::with_capacity(alloc, states.len())?;
    'states: for index in 0..states.len() {
        let inclusive = !states[index].exclusive();
        let places = places_where(alloc, inclusive, &listed[index], &unlisted)?;
        add_list(&mut lists, &mut known, &mut at, places)?;
    }
    Ok((lists, at))
}

/// The lists of the rules that are active in these states, each once, and which of them each state has. `placed` says whether
/// the id of each state is its place.
pub fn lists_for<S>(
    alloc: Global,
    states: &[StartState],
    placed: bool,
    rules: &[Rule<S>],
) -> Result<(Vec<Vec<usize>>, Vec<usize>), AllocError>
    requires { IsTrue placed → ArePlaced states.now }
    ensures listed { IfOk result (λ r. map (list_in (map (λ v. v.items) r.0.items)) r.1.items
        ≡ map (λ s. active_places (map as_state states.now) (map (as_rule (λ _. 0)) rules.now)
        (as_state s).id) states.now) }
    ensures within { IfOk result (λ r. All (λ j. j < length r.0.items) r.1.items) }
{
    if placed {
        lists_by_rules(alloc, states, rules)
    } else {
        lists_by_states(alloc, states, rules)
    }
}
