//! The warnings of a rule.
ghost use Rattle.std.specs.Prelude.{◌≡◌, ◌++◌, All, OnOk, map};
ghost use Rattle.lrlex_rules.specs.Active.{lists_none};
ghost use Rattle.lrlex_rules.specs.RuleParts.{as_rule};
ghost use Rattle.lrlex_report.specs.Warnings.{as_told, SpanFits, never_wins, has_no_table_but_looks, has_no_table, has_blank_after_states, loses_escape, has_escape_after_states, loses_alternative, has_name_in_pattern, quotes_part, quotes_text, loses_caret, takes_all, rule_warnings};

use crate::warnings::alternatives::loses_part;
use crate::warnings::answers::Facts;
use crate::warnings::class_names::has_unknown_class;
use crate::warnings::class_operators::has_class_operator;
use crate::warnings::dots::{begins_with_flags, has_greedy_dot};
use crate::warnings::kinds::{Warning, WarningKind, push_all};
use crate::warnings::literals::{ends_in_name, has_quoted_part, is_bare, is_quoted};
use crate::warnings::looks::looks_around;
use crate::warnings::patterns::{begins_blank, ends_in_target, has_unmeant, source_of, ungrouped};
use lrlex_base::{Numbered, Span};
use lrlex_rules::{Rule, StartState};
use std::alloc::AllocError;

/// Whether the rule is active, and never wins.
fn never_wins(known: Facts) -> bool
    ensures { result ≡ never_wins known }
{
    known.is_active && !known.may_win
}

/// Whether the rule has no table, since its pattern looks at what is beside the match.
fn has_no_table_but_looks<S: Numbered>(known: Facts, rule: &Rule<S>) -> bool
    ensures { result ≡ has_no_table_but_looks known (as_rule S.number rule.now) }
{
    known.is_asked && looks_around(rule.re_str().as_bytes())
}

/// Whether the rule has no table, and not for that.
fn has_no_table<S: Numbered>(known: Facts, rule: &Rule<S>) -> bool
    ensures { result ≡ has_no_table known (as_rule S.number rule.now) }
{
    known.is_asked && !looks_around(rule.re_str().as_bytes())
}

/// Whether the rule lists no start states.
fn lists_none<S: Numbered>(rule: &Rule<S>) -> bool
    ensures { result ≡ lists_none (as_rule S.number rule.now) }
{
    rule.start_states().is_empty()
}

/// Whether the rule lists start states, and its pattern begins with a blank that counts.
fn has_blank_after_states<S: Numbered>(rule: &Rule<S>) -> bool
    ensures { result ≡ has_blank_after_states (as_rule S.number rule.now) }
{
    !lists_none(rule) && begins_blank(rule.re_str()) && !rule.config().flags.ignore_whitespace
}

/// Whether the rule lists no start states, and a backslash of its pattern is dropped that is hardly meant so.
fn loses_escape<S: Numbered>(source: &str, rule: &Rule<S>) -> bool
    ensures { result ≡ loses_escape source.now (as_rule S.number rule.now) }
{
    lists_none(rule) && has_unmeant(false, source.as_bytes())
}

/// Whether the rule lists start states, and its pattern has `\<` or `\>`.
fn has_escape_after_states<S: Numbered>(rule: &Rule<S>) -> bool
    ensures { result ≡ has_escape_after_states (as_rule S.number rule.now) }
{
    !lists_none(rule) && has_unmeant(true, rule.re_str().as_bytes())
}

/// Whether an alternative of the rule's pattern, which may be one group without a name, begins with an earlier one.
fn loses_alternative<S: Numbered>(rule: &Rule<S>) -> bool
    ensures { result ≡ loses_alternative (as_rule S.number rule.now) }
{
    let pattern = ungrouped(rule.re_str());
    !pattern.starts_with("|") && !pattern.starts_with("?") && loses_part(pattern.as_bytes())
}

/// Whether the rule has no name, and its pattern ends in one.
fn has_name_in_pattern<S: Numbered>(rule: &Rule<S>) -> bool
    ensures { result ≡ has_name_in_pattern (as_rule S.number rule.now) }
{
    rule.name().is_none() && ends_in_name(rule.re_str())
}

/// Whether a part of the rule's pattern as it is written is in quotes, and it doesn't end in a name. Without a list of start states,
/// the pattern has lost the backslashes before quotes.
fn quotes_part<S: Numbered>(source: &str, rule: &Rule<S>) -> bool
    ensures { result ≡ quotes_part source.now (as_rule S.number rule.now) }
{
    if has_name_in_pattern(rule) {
        return false;
    }
    if lists_none(rule) {
        has_quoted_part(source.as_bytes())
    } else {
        has_quoted_part(rule.re_str().as_bytes())
    }
}

/// Whether the rule's pattern is a text in quotes, or has one.
fn quotes_text<S: Numbered>(source: &str, rule: &Rule<S>) -> bool
    ensures { result ≡ quotes_text source.now (as_rule S.number rule.now) }
{
    is_quoted(rule.re_str().as_bytes()) || quotes_part(source, rule)
}

/// Whether the rule's pattern begins with `^`, and goes on.
fn loses_caret<S: Numbered>(rule: &Rule<S>) -> bool
    ensures { result ≡ loses_caret (as_rule S.number rule.now) }
{
    rule.re_str().starts_with("^") && !is_bare(rule.re_str().as_bytes())
}

/// Whether the rule's pattern has a dot that takes all that follows, newlines too, and no flags of its own at the beginning.
fn takes_all<S: Numbered>(rule: &Rule<S>) -> bool
    ensures { result ≡ takes_all (as_rule S.number rule.now) }
{
    let flags = &rule.config().flags;
    let pattern = rule.re_str();
    flags.dot_matches_new_line
        && !flags.swap_greed
        && !begins_with_flags(pattern)
        && has_greedy_dot(pattern.as_bytes())
}

/// Adds the warnings of a rule of which this is known, where these are the start states of its text.
pub(crate) fn push_rule<S: Numbered>(
    told: &mut Vec<Warning>,
    known: Facts,
    states: &[StartState],
    rules: &str,
    rule: &Rule<S>,
) -> Result<(), AllocError>
    ensures told { OnOk result (map as_told told.new.items ≡ map as_told told.old.items
        ++ rule_warnings known states.now rules.now (as_rule S.number rule.now)) }
    ensures fit { All (SpanFits rules.now) told.old.items
        → OnOk result (All (SpanFits rules.now) told.new.items) }
{
    let (start, source) = source_of(rules, rule.name_span().start());
    let span = Span::new(start, start + source.len());
    let tests = [
        (WarningKind::NeverWins, never_wins(known)),
        (WarningKind::NeverActive, !known.is_active),
        (
            WarningKind::LooksAround,
            has_no_table_but_looks(known, rule),
        ),
        (WarningKind::NoTable, has_no_table(known, rule)),
        (WarningKind::TargetInPattern, ends_in_target(states, source)),
        (WarningKind::BlankAfterStates, has_blank_after_states(rule)),
        (WarningKind::LostEscape, loses_escape(source, rule)),
        (
            WarningKind::EscapeAfterStates,
            has_escape_after_states(rule),
        ),
        (WarningKind::LostAlternative, loses_alternative(rule)),
        (WarningKind::NameInPattern, has_name_in_pattern(rule)),
        (WarningKind::QuotedPattern, quotes_text(source, rule)),
        (WarningKind::BareOperator, is_bare(rule.re_str().as_bytes())),
        (WarningKind::LostCaret, loses_caret(rule)),
        (WarningKind::GreedyDot, takes_all(rule)),
        (
            WarningKind::ClassOperator,
            has_class_operator(rule.re_str().as_bytes()),
        ),
        (
            WarningKind::UnknownClass,
            has_unknown_class(rule.re_str().as_bytes()),
        ),
    ];
    push_all(told, &tests, span)
}
