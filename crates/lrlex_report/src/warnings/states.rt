//! The warnings of a start state.
ghost use Rattle.std.specs.Prelude.{◌≡◌, ◌++◌, All, OnOk, map};
ghost use Rattle.lrlex_base.specs.Spans.{Fits, as_span};
ghost use Rattle.lrlex_rules.specs.RuleParts.{as_rule};
ghost use Rattle.lrlex_definition.specs.Never.{enters};
ghost use Rattle.lrlex_definition.specs.RuleTable.{definition_by};
ghost use Rattle.lrlex_report.specs.Warnings.{as_told, SpanFits, is_entered, is_never_entered, has_no_rules, near_span, state_warnings};

use crate::places::nearest;
use crate::warnings::kinds::{Warning, WarningKind, push_all};
use lrlex_base::{Numbered, Span};
use lrlex_definition::RuleTable;
use lrlex_rules::{Rule, StartState, StartStateOperation};
use std::alloc::AllocError;

/// Whether the rule enters the state with this id.
fn enters<S: Numbered>(rule: &Rule<S>, id: usize) -> bool
    ensures { result ≡ enters id (as_rule S.number rule.now) }
{
    match rule.target_state() {
        Some((_, StartStateOperation::Pop)) => false,
        Some((target, _)) => target == id,
        None => false,
    }
}

/// Whether one of the rules enters the state with this id.
fn is_entered<S: Numbered>(rules: &[Rule<S>], id: usize) -> bool
    ensures { result ≡ is_entered S.number rules.now id }
{
    rules.iter().any(|rule| enters(rule, id))
}

/// Whether lexing doesn't begin in the state with this id, and no rule enters it.
fn is_never_entered<S: Numbered>(rules: &[Rule<S>], id: usize) -> bool
    ensures { result ≡ is_never_entered S.number rules.now id }
{
    id != 0 && !is_entered(rules, id)
}

/// Whether no rule is active in the state with this id.
fn has_no_rules<S: Numbered>(table: &RuleTable<S>, id: usize) -> bool
    ensures { result ≡ has_no_rules (definition_by S.number table.now) id }
{
    table.active_rules(id).is_empty()
}

/// The nearest part of a text.
fn near_span(rules: &str, span: Span) -> Span
    ensures value { as_span result ≡ near_span rules.now (as_span span) }
    ensures fits { Fits rules.now result }
{
    let start = nearest(rules, span.start());
    let end = nearest(rules, span.end());
    Span::new(start, start.max(end))
}

/// Adds the warnings of a start state.
pub(crate) fn push_state<S: Numbered>(
    told: &mut Vec<Warning>,
    table: &RuleTable<S>,
    rules: &str,
    state: &StartState,
) -> Result<(), AllocError>
    ensures told { OnOk result (map as_told told.new.items ≡ map as_told told.old.items
        ++ state_warnings S.number table.now rules.now state.now) }
    ensures fit { All (SpanFits rules.now) told.old.items
        → OnOk result (All (SpanFits rules.now) told.new.items) }
{
    let id = state.id();
    let tests = [
        (
            WarningKind::NeverEntered,
            is_never_entered(table.rules.as_slice(), id),
        ),
        (WarningKind::NoRules, has_no_rules(table, id)),
    ];
    push_all(told, &tests, near_span(rules, state.name_span()))
}
