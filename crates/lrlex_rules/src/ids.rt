//! Token ids for the names of rules, and the names that go without.
ghost use Rattle.std.specs.Prelude.{◌≡◌, ◌≢◌, IfOk, List, ℕ, map, MatchOption, [], option_map};
ghost use Rattle.std.specs.List.{list_any};
ghost use Rattle.std.specs.Str.{bytes_eq};
ghost use Rattle.std.specs.HashSet.{contains_by};
ghost use Rattle.lrlex_rules.specs.RuleParts.{as_rule};
ghost use Rattle.lrlex_rules.specs.Ids.{is_named, ids_of, with_own_id, is_lacking, is_unused, is_unused_at, HoldsNames, HoldsTexts, HoldsPlaces};

use crate::rules::Rule;
use lrlex_base::{Numbered, Span};
use std::alloc::{AllocError, Global};
use std::collections::{HashMap, HashSet};
use std::hash::Hash;

/// The names of the rules.
fn names_of<'r, S: Numbered>(
    alloc: Global,
    rules: &'r [Rule<S>],
) -> Result<HashSet<&'r str>, AllocError>
    ensures { IfOk result (λ names. (name : List ℕ)
        → contains_by (λ k. bytes_eq name k.now) names
        ≡ list_any (is_named name) (map (as_rule S.number) rules.now)) }
{
    let mut names = HashSet::new(alloc);
    for rule in rules {
        if let Some(name) = rule.name() {
            names.insert(name)?;
        }
    }
    Ok(names)
}

/// The set, or none where it is empty.
fn unless_empty<K: Eq + Hash + Drop>(names: HashSet<K>) -> Option<HashSet<K>>
    ensures { MatchOption result (names.keys ≡ []) (λ s. (s ≡ names) × (s.keys ≢ [])) }
{
    if names.is_empty() { None } else { Some(names) }
}

/// The names of the map that no rule has.
pub fn names_without_rule<'a, S: Numbered>(
    alloc: Global,
    rules: &[Rule<S>],
    ids: &HashMap<&'a str, S>,
) -> Result<Option<HashSet<&'a str>>, AllocError>
    ensures { IfOk result (HoldsNames (is_lacking (ids_of S.number ids.now)
        (map (as_rule S.number) rules.now))) }
{
    let names = names_of(alloc, rules)?;
    let mut lacking = HashSet::new(alloc);
    for name in ids.keys() {
        if !names.contains(*name) {
            lacking.insert(*name)?;
        }
    }
    Ok(unless_empty(lacking))
}

/// The names of rules that the map lacks.
pub fn names_without_id<'a, S: Numbered>(
    alloc: Global,
    rules: &[Rule<S>],
    ids: &HashMap<&'a str, S>,
) -> Result<Option<HashSet<String>>, AllocError>
    ensures { IfOk result (HoldsTexts (is_unused (ids_of S.number ids.now)
        (map (as_rule S.number) rules.now))) }
{
    let mut unused = HashSet::new(alloc);
    for rule in rules {
        if let Some(name) = rule.name() {
            if !ids.contains_key(name) {
                unused.insert(String::from_str(alloc, name)?)?;
            }
        }
    }
    Ok(unless_empty(unused))
}

/// The names of rules that the map lacks, each with its place.
pub fn places_without_id<'a, S: Numbered>(
    alloc: Global,
    rules: &[Rule<S>],
    ids: &HashMap<&'a str, S>,
) -> Result<Option<HashSet<(String, Span)>>, AllocError>
    ensures { IfOk result (HoldsPlaces (is_unused_at (ids_of S.number ids.now)
        (map (as_rule S.number) rules.now))) }
{
    let mut unused = HashSet::new(alloc);
    for rule in rules {
        if let Some(name) = rule.name() {
            if !ids.contains_key(name) {
                unused.insert((String::from_str(alloc, name)?, rule.name_span()))?;
            }
        }
    }
    Ok(unless_empty(unused))
}

/// The map's id for the rule's name, or none. An unnamed rule keeps its own.
fn own_id<'a, S: Numbered>(rule: &Rule<S>, ids: &HashMap<&'a str, S>) -> Option<S>
    ensures { option_map S.number result ≡ (with_own_id (ids_of S.number ids.now)
        (as_rule S.number rule.now)).id }
{
    match rule.name() {
        Some(name) => ids.get(name).copied(),
        None => rule.tok_id(),
    }
}

/// Gives each named rule the map's id for its name, or none.
pub fn take_ids<'a, S: Numbered>(rules: &mut [Rule<S>], ids: &HashMap<&'a str, S>)
    ensures { map (as_rule S.number) rules.new
        ≡ map (with_own_id (ids_of S.number ids.now)) (map (as_rule S.number) rules.old) }
{
    for rule in rules.iter_mut() {
        let id = own_id(rule, ids);
        rule.set_tok_id(id);
    }
}
