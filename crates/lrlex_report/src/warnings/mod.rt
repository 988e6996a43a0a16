//! What a rule text says and its author hardly meant.
ghost use Rattle.std.specs.Prelude.{◌≡◌, ◌++◌, All, IfOk, OnOk, map};
ghost use Rattle.lrlex_report.specs.Warnings.{as_answered, as_told, SpanFits, states_warnings, rules_warnings, warnings_at, AreWarnings};

mod alternatives;
mod answers;
mod class_names;
pub(crate) mod class_operators;
mod dots;
pub(crate) mod kinds;
mod literals;
mod looks;
mod pattern_classes;
pub(crate) mod patterns;
mod rules;
mod states;
pub(crate) mod texts;

use crate::warnings::answers::Answers;
use crate::warnings::kinds::Warning;
use crate::warnings::rules::push_rule;
use crate::warnings::states::push_state;
use lrlex_base::Numbered;
use lrlex_definition::RuleTable;
use std::alloc::{AllocError, Global};

/// Adds the warnings of all start states.
fn push_states<S: Numbered>(
    told: &mut Vec<Warning>,
    table: &RuleTable<S>,
    rules: &str,
) -> Result<(), AllocError>
    ensures told { OnOk result (map as_told told.new.items ≡ map as_told told.old.items
        ++ states_warnings S.number table.now rules.now) }
    ensures fit { All (SpanFits rules.now) told.old.items
        → OnOk result (All (SpanFits rules.now) told.new.items) }
{
    let states = table.start_states.as_slice();
    for state in states {
        push_state(told, table, rules, state)?;
    }
    Ok(())
}

/// Adds the warnings of the rule at a place.
fn push_place<S: Numbered>(
    told: &mut Vec<Warning>,
    table: &RuleTable<S>,
    rules: &str,
    answers: &Answers,
    place: usize,
) -> Result<(), AllocError>
    ensures told { OnOk result (map as_told told.new.items ≡ map as_told told.old.items
        ++ warnings_at S.number table.now (as_answered answers.now)
        rules.now place) }
    ensures fit { All (SpanFits rules.now) told.old.items
        → OnOk result (All (SpanFits rules.now) told.new.items) }
{
    let states = table.start_states.as_slice();
    match table.rules.get(place) {
        Some(rule) => push_rule(told, answers.at(place), states, rules, rule),
        None => Ok(()),
    }
}

/// Adds the warnings of all rules.
fn push_rules<S: Numbered>(
    told: &mut Vec<Warning>,
    table: &RuleTable<S>,
    rules: &str,
    answers: &Answers,
) -> Result<(), AllocError>
    ensures told { OnOk result (map as_told told.new.items ≡ map as_told told.old.items
        ++ rules_warnings S.number table.now (as_answered answers.now)
        rules.now) }
    ensures fit { All (SpanFits rules.now) told.old.items
        → OnOk result (All (SpanFits rules.now) told.new.items) }
{
    let count = table.rules.len();
    'rules: for place in 0..count {
        push_place(told, table, rules, answers, place)?;
    }
    Ok(())
}

/// The warnings of a rule text and its definition: what the text says and its author hardly meant. First those of each start
/// state, then those of each rule, in order.
///
/// The span of a rule's warning is its pattern with its list of start states, that of a start state's is its name. `rules` is the
/// text that the definition was read from, and `table` its rule table. With another text the nearest places are told.
pub fn warnings_of<S: Numbered>(
    alloc: Global,
    rules: &str,
    table: &RuleTable<S>,
) -> Result<Vec<Warning>, AllocError>
    ensures told { IfOk result (λ told. AreWarnings S.number table.now rules.now
        (map as_told told.items)) }
    ensures fit { IfOk result (λ told. All (SpanFits rules.now) told.items) }
{
    let answers = Answers::of(alloc, table)?;
    let mut told = Vec::new(alloc);
    push_states(&mut told, table, rules)?;
    push_rules(&mut told, table, rules, &answers)?;
    Ok(told)
}
