//! The name of a lexeme's rule.
ghost use Rattle.std.specs.Prelude.{◌≡◌, ◌↔◌, Some, IfSome, IsTrue, is_some, map, option_map, slice_get};
ghost use Rattle.std.specs.List.{find};
ghost use Rattle.std.specs.Option.{option_copied};
ghost use Rattle.regex_hir.specs.Text.{is_some_and};
ghost use Rattle.lrlex_rules.specs.RuleParts.{as_rule};
ghost use Rattle.lrlex_rules.specs.Ids.{gives, name_of, HasOwnId, HaveDistinctIds, HaveOwnIds};

use crate::rules::Rule;
use lrlex_base::Numbered;

/// Whether the rule has a name and this id.
fn gives<S: Numbered>(rule: &Rule<S>, id: S) -> bool
    ensures { result ≡ gives (S.number id) (as_rule S.number rule.now) }
{
    match rule.tok_id() {
        Some(found) => found.is(id) && rule.name().is_some(),
        None => false,
    }
}

/// The first rule with a name and this id.
fn first_with<S: Numbered>(rules: &[Rule<S>], id: S) -> Option<&Rule<S>>
    ensures { option_copied result ≡ find (λ r. gives (S.number id) (as_rule S.number r))
        rules.now }
{
    rules.iter().find(|rule| gives(rule, id))
}

/// Whether the rule's id, if it has one, is this place.
fn has_own_id<S: Numbered>(rule: &Rule<S>, place: usize) -> bool
    ensures { IsTrue result ↔ HasOwnId S.number S.greatest rule.now place }
{
    match rule.tok_id() {
        Some(id) => match S::of_count(place) {
            Some(own) => own.is(id),
            None => false,
        },
        None => true,
    }
}

/// Whether the id of each rule that has one is its place.
pub fn have_own_ids<S: Numbered>(rules: &[Rule<S>]) -> bool
    ensures own { IsTrue result ↔ HaveOwnIds S.number S.greatest rules.now }
    ensures distinct { IsTrue result → HaveDistinctIds rules.now }
{
    'rules: for index in 0..rules.len() {
        if !has_own_id(&rules[index], index) {
            return false;
        }
    }
    true
}

/// The rule at this place, if it has a name and this id. No other rule has this id.
fn rule_at<S: Numbered>(rules: &[Rule<S>], place: usize, id: S) -> Option<&Rule<S>>
    requires { HaveDistinctIds rules.now }
    ensures here { is_some result ≡ is_some_and (slice_get rules.now place)
        (λ r. gives (S.number id) (as_rule S.number r)) }
    ensures first { IfSome result (λ rule. Some rule.now
        ≡ find (λ r. gives (S.number id) (as_rule S.number r)) rules.now) }
{
    let rule = rules.get(place)?;
    if gives(rule, id) { Some(rule) } else { None }
}

/// The first rule with a name and this id. Where ids are places, one rule is looked at.
fn rule_of<S: Numbered>(rules: &[Rule<S>], own_ids: bool, id: S) -> Option<&Rule<S>>
    requires { IsTrue own_ids → HaveDistinctIds rules.now }
    ensures { option_copied result ≡ find (λ r. gives (S.number id) (as_rule S.number r))
        rules.now }
{
    if own_ids {
        if let Some(place) = id.as_count() {
            if let Some(rule) = rule_at(rules, place, id) {
                return Some(rule);
            }
        }
    }
    first_with(rules, id)
}

/// The name of the first rule with a name and this id.
pub fn name_of<S: Numbered>(rules: &[Rule<S>], own_ids: bool, id: S) -> Option<&str>
    requires { IsTrue own_ids → HaveDistinctIds rules.now }
    ensures { option_map (λ t. t.now) result ≡ name_of (map (as_rule S.number) rules.now)
        (S.number id) }
{
    match rule_of(rules, own_ids, id) {
        Some(rule) => rule.name(),
        None => None,
    }
}
