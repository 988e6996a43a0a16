//! The first rule with an id or a name.
ghost use Rattle.std.specs.Prelude.{◌≡◌};
ghost use Rattle.std.specs.Option.{option_copied};
ghost use Rattle.lrlex_rules.specs.RuleParts.{as_rule};
ghost use Rattle.lrlex_rules.specs.Ids.{has_id, is_named, rule_with_id, rule_named};

use crate::rules::Rule;
use lrlex_base::Numbered;

fn has_id<S: Numbered>(rule: &Rule<S>, id: S) -> bool
    ensures { result ≡ has_id (S.number id) (as_rule S.number rule.now) }
{
    match rule.tok_id() {
        Some(own) => own.is(id),
        None => false,
    }
}

fn is_named<S: Numbered>(rule: &Rule<S>, name: &str) -> bool
    ensures { result ≡ is_named name.now (as_rule S.number rule.now) }
{
    match rule.name() {
        Some(own) => name == own,
        None => false,
    }
}

/// The first of the rules with the id.
pub fn first_with_id<S: Numbered>(rules: &[Rule<S>], id: S) -> Option<&Rule<S>>
    ensures { option_copied result ≡ rule_with_id S.number rules.now (S.number id) }
{
    rules.iter().find(|rule| has_id(*rule, id))
}

/// The first of the rules with the name.
pub fn first_named<'r, S: Numbered>(rules: &'r [Rule<S>], name: &str) -> Option<&'r Rule<S>>
    ensures { option_copied result ≡ rule_named S.number rules.now name.now }
{
    rules.iter().find(|rule| is_named(*rule, name))
}
