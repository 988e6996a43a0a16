ghost use Rattle.std.specs.Prelude.{◌≡◌, ◌↔◌, ◌<◌, ◌==◌, ◌∷◌, ◌++◌, [], ℕ, All, List, if◌then◌else◌, length, map, option_map, IfOk, IsTrue};
ghost use Rattle.std.specs.List.{find, list_any, position};
ghost use Rattle.std.specs.Option.{option_copied};
ghost use Rattle.lrlex_rules.specs.Active.{is_inclusive, is_active_where, active_places, lacks_id, lexeme_id, lists_none, lists_state, merged, places_from};
ghost use Rattle.lrlex_rules.specs.RuleParts.{as_rule, as_state};
ghost use Rattle.lrlex_rules.specs.RuleLists.{AreBelow, ArePlaced, list_in};

use crate::rules::Rule;
use crate::states::StartState;
use lrlex_base::Numbered;
use std::alloc::{AllocError, Global};

/// Whether the rule has a name and no id.
#[inline(always)]
pub fn lacks_id<S: Numbered>(rule: &Rule<S>) -> bool
    ensures { result ≡ lacks_id (as_rule S.number rule.now) }
{
    rule.name().is_some() && rule.tok_id().is_none()
}

/// The id of the rule's lexemes. An unnamed rule gives none.
#[inline(always)]
pub fn lexeme_id<S: Numbered>(rule: &Rule<S>) -> Option<S>
    ensures { option_map S.number result ≡ lexeme_id (as_rule S.number rule.now) }
{
    if rule.name().is_some() {
        rule.tok_id()
    } else {
        None
    }
}

/// Whether the id of each state is its place.
pub fn are_placed(states: &[StartState]) -> bool
    ensures { IsTrue result ↔ ArePlaced states.now }
{
    'states: for index in 0..states.len() {
        if states[index].id() != index {
            return false;
        }
    }
    true
}

/// Whether a state has the id. Where ids are places, none is looked at.
#[inline(always)]
pub fn has_state(states: &[StartState], placed: bool, id: usize) -> bool
    requires { IsTrue placed → ArePlaced states.now }
    ensures { result ≡ list_any (λ s. (as_state s).id == id) states.now }
{
    if placed {
        id < states.len()
    } else {
        states.iter().any(|s| s.id() == id)
    }
}

fn first_position(states: &[StartState], id: usize) -> Option<usize>
    ensures { result ≡ position (λ s. (as_state s).id == id) states.now }
{
    states.iter().position(|s| s.id() == id)
}

/// The place of the first state with the id. Where ids are places, none is looked at.
#[inline(always)]
pub fn position_of(states: &[StartState], placed: bool, id: usize) -> Option<usize>
    requires { IsTrue placed → ArePlaced states.now }
    ensures { result ≡ position (λ s. (as_state s).id == id) states.now }
{
    if placed {
        if id < states.len() { Some(id) } else { None }
    } else {
        first_position(states, id)
    }
}

fn first_state(states: &[StartState], id: usize) -> Option<&StartState>
    ensures { option_copied result ≡ find (λ s. (as_state s).id == id) states.now }
{
    states.iter().find(|s| s.id() == id)
}

/// Whether the first state with the id takes rules that list no states.
fn is_inclusive(states: &[StartState], id: usize) -> bool
    ensures { result ≡ is_inclusive (map as_state states.now) id }
{
    match first_state(states, id) {
        Some(state) => !state.exclusive(),
        None => false,
    }
}

/// Whether the rule lists no states.
fn lists_none<S>(rule: &Rule<S>) -> bool
    ensures { result ≡ lists_none (as_rule (λ _. 0) rule.now) }
{
    rule.start_states().is_empty()
}

/// Whether the rule is active in a state with the id that is inclusive, or isn't.
fn is_active_where<S>(inclusive: bool, id: usize, rule: &Rule<S>) -> bool
    ensures { result ≡ is_active_where inclusive id (as_rule (λ _. 0) rule.now) }
{
    if lists_none(rule) {
        inclusive
    } else {
        rule.start_states().contains(&id)
    }
}

/// The places of the rules that are active in the state, in order. Each rule is looked at.
pub(crate) fn active_places<S>(
    alloc: Global,
    states: &[StartState],
    rules: &[Rule<S>],
    id: usize,
) -> Result<Vec<usize>, AllocError>
    ensures { IfOk result (λ places. places.items
        ≡ active_places (map as_state states.now) (map (as_rule (λ _. 0)) rules.now) id) }
{
    let inclusive = is_inclusive(states, id);
    let mut places = Vec::new(alloc);
    'rules: for index in 0..rules.len() {
        let rule = &rules[index];
        if is_active_where(inclusive, id, rule) {
            places.push(index)?;
        }
    }
    Ok(places)
}

/// The places of the rules that list no states, in order.
pub(crate) fn unlisted_places<S>(alloc: Global, rules: &[Rule<S>]) -> Result<Vec<usize>, AllocError>
    ensures { IfOk result (λ places. places.items
        ≡ places_from lists_none 0 (map (as_rule (λ _. 0)) rules.now)) }
{
    let mut places = Vec::new(alloc);
    'rules: for index in 0..rules.len() {
        if lists_none(&rules[index]) {
            places.push(index)?;
        }
    }
    Ok(places)
}

/// Appends the place, unless it is the last one there.
fn push_once(places: &mut Vec<usize>, place: usize) -> Result<(), AllocError>
    ensures there { IfOk result (λ _. (others : List ℕ) → places.old.items ≡ others ++ place ∷ []
        → places.new.items ≡ places.old.items) }
    ensures put { IfOk result (λ _. All (λ k. k < place) places.old.items
        → places.new.items ≡ places.old.items ++ place ∷ []) }
{
    if places.last() != Some(&place) {
        places.push(place)?;
    }
    Ok(())
}

/// Appends a rule's place, once, to the list of each state that the rule lists, where the ids of states are places.
fn note_place(lists: &mut [Vec<usize>], ids: &[usize], place: usize) -> Result<(), AllocError>
    requires { AreBelow place (map (λ v. v.items) lists.old) }
    ensures kept { length lists.new ≡ length lists.old }
    ensures noted { IfOk result (λ _. (i : ℕ) → i < length lists.old
        → list_in (map (λ v. v.items) lists.new) i ≡ list_in (map (λ v. v.items) lists.old) i
        ++ (if list_any (λ s. s == i) ids.now then place ∷ [] else [])) }
{
    'ids: for id in ids {
        if *id < lists.len() {
            push_once(&mut lists[*id], place)?;
        }
    }
    Ok(())
}

/// So many lists, with nothing in them.
fn empty_lists(alloc: Global, count: usize) -> Result<Vec<Vec<usize>>, AllocError>
    ensures each { IfOk result (λ lists. length lists.items ≡ count) }
    ensures empty { IfOk result (λ lists. (i : ℕ)
        → list_in (map (λ v. v.items) lists.items) i ≡ []) }
{
    let mut lists = Vec::with_capacity(alloc, count)?;
    'lists: for _ in 0..count {
        lists.push(Vec::new(alloc))?;
    }
    Ok(lists)
}

/// For each of so many states the places of the rules that list it, in order, where the ids of states are places. Each rule is
/// looked at once.
pub(crate) fn listed_places<S>(
    alloc: Global,
    count: usize,
    rules: &[Rule<S>],
) -> Result<Vec<Vec<usize>>, AllocError>
    ensures each { IfOk result (λ lists. length lists.items ≡ count) }
    ensures listed { IfOk result (λ lists. (i : ℕ) → i < count
        → list_in (map (λ v. v.items) lists.items) i
        ≡ places_from (lists_state i) 0 (map (as_rule (λ _. 0)) rules.now)) }
{
    let mut lists = empty_lists(alloc, count)?;
    'rules: for index in 0..rules.len() {
        note_place(&mut lists, rules[index].start_states(), index)?;
    }
    Ok(lists)
}

/// The places of both lists, in rising order.
fn merged_places(alloc: Global, some: &[usize], others: &[usize]) -> Result<Vec<usize>, AllocError>
    ensures { IfOk result (λ places. places.items ≡ merged some.now others.now) }
{
    let mut places = Vec::with_capacity(alloc, some.len().saturating_add(others.len()))?;
    let mut next = 0;
    'some: for place in some {
        'below: while next < others.len() && others[next] < *place {
            places.push(others[next])?;
            next += 1;
        }
        places.push(*place)?;
    }
    places.extend_from_slice(&others[next..])?;
    Ok(places)
}

/// The places of the rules that are active in a state, of those that list it and those that list none.
pub(crate) fn places_where(
    alloc: Global,
    inclusive: bool,
    listed: &[usize],
    unlisted: &[usize],
) -> Result<Vec<usize>, AllocError>
    ensures { IfOk result (λ places. places.items
        ≡ if inclusive then merged listed.now unlisted.now else listed.now) }
{
    if inclusive {
        merged_places(alloc, listed, unlisted)
    } else {
        Vec::from_slice(alloc, listed)
    }
}
