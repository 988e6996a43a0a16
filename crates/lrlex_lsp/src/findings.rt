//! What is found of a document: the faults of a rule text or what its author hardly meant, or where lexing of another text stops, or
//! in which start state it ends.
use crate::diagnostics::{Finding, Report, Weight};
use crate::languages::{Definition, Types};
use crate::opened::Role;
use crate::started::Given;
use lrlex::{Document, LRLexError, LexBuildError, LexError, LexFlags, LexerDef, Span, Spanned};
use lrlex_report::{
    Warning, WarningKind, fault_message, fault_name, fault_range, stop_message_in, warnings_of,
};
use std::alloc::{AllocError, Global};

/// Adds a fault of a rule text: that of a duplicate at each place but the first.
fn push_fault(
    alloc: Global,
    report: &mut Report<'_, '_>,
    rules: &str,
    fault: &LexBuildError,
) -> Result<(), AllocError> {
    let message = fault_message(alloc, rules, fault)?;
    let Some((first, others)) = fault.spans().split_first() else {
        return Ok(());
    };
    let mut finding = Finding {
        weight: Weight::Fault,
        span: fault_range(rules, fault),
        message: &message,
        code: fault_name(fault),
        first: None,
    };
    if others.is_empty() {
        return report.push(finding);
    }
    finding.first = Some(*first);
    for other in others {
        finding.span = *other;
        report.push(finding)?;
    }
    Ok(())
}

/// How a warning is told: a rule that does nothing is faded, and one that is slow is a hint.
fn weight_of(kind: WarningKind) -> Weight {
    match kind {
        WarningKind::NeverWins | WarningKind::NeverActive => Weight::Unnecessary,
        WarningKind::LooksAround | WarningKind::NoTable => Weight::Hint,
        _ => Weight::Warning,
    }
}

/// Adds a warning.
fn push_warning(report: &mut Report<'_, '_>, warning: &Warning) -> Result<(), AllocError> {
    let kind = warning.kind();
    report.push(Finding {
        weight: weight_of(kind),
        span: warning.span(),
        message: kind.message(),
        code: kind.name(),
        first: None,
    })
}

/// Adds the warnings of a rule text and its definition, but those of kinds that are allowed.
fn push_warnings(
    alloc: Global,
    report: &mut Report<'_, '_>,
    rules: &str,
    definition: &Definition,
    allowed: &[WarningKind],
) -> Result<(), AllocError> {
    for warning in &warnings_of(alloc, rules, definition.rule_table())? {
        if !allowed.contains(&warning.kind()) {
            push_warning(report, warning)?;
        }
    }
    Ok(())
}

/// Adds all faults of a rule text.
fn push_faults(
    alloc: Global,
    report: &mut Report<'_, '_>,
    rules: &str,
    flags: LexFlags,
) -> Result<(), AllocError> {
    for fault in &Definition::all_faults(alloc, rules, flags)? {
        push_fault(alloc, report, rules, fault)?;
    }
    Ok(())
}

/// Adds what is found of a rule text: all its faults, or else its warnings. A text that a language was read from is not read
/// again.
fn push_rules(
    alloc: Global,
    report: &mut Report<'_, '_>,
    rules: &str,
    given: Given<'_>,
) -> Result<(), AllocError> {
    if let Some(language) = given.language {
        if language.is_of(rules, given.flags) {
            return push_warnings(alloc, report, rules, language.definition(), given.allowed);
        }
    }
    match Definition::new_with_options(alloc, rules, given.flags)? {
        Ok(definition) => push_warnings(alloc, report, rules, &definition, given.allowed),
        Err(_) => push_faults(alloc, report, rules, given.flags),
    }
}

/// The span with the character after it, if it is empty and its line goes on.
fn with_next(text: &str, span: Span) -> Span {
    let (start, end) = (span.start(), span.end());
    let rest = text.get(start..).unwrap_or("");
    match rest.chars().next() {
        Some(c) if start == end && c != '\n' && c != '\r' => Span::new(
            start,
            start.saturating_add(c.len_utf8()),
        ),
        _ => span,
    }
}

/// Adds where lexing stops, and why.
fn push_stop(
    alloc: Global,
    report: &mut Report<'_, '_>,
    document: &Document<'_, Types>,
    error: &LRLexError,
) -> Result<(), AllocError> {
    let text = document.text();
    let message = stop_message_in(alloc, document.definition().rule_table(), text, error)?;
    report.push(Finding {
        weight: Weight::Fault,
        span: with_next(text, error.span()),
        message: &message,
        code: "",
        first: None,
    })
}

/// The name of the start state with this number.
fn state_name(definition: &Definition, state: usize) -> &str {
    match definition.iter_start_states().find(|it| it.id() == state) {
        Some(found) => found.name(),
        None => "",
    }
}

/// The bytes of the tile that entered the start state at the end of a document.
fn entering(document: &Document<'_, Types>) -> Option<Span> {
    let tile = document.entered_by()?;
    let begin = document.boundary(tile);
    let end = document.boundary(tile.saturating_add(1));
    Some(Span::new(begin, begin.max(end)))
}

/// Adds that a document ends in this start state, as in an open comment or string, where it was entered.
fn push_end(
    alloc: Global,
    report: &mut Report<'_, '_>,
    document: &Document<'_, Types>,
    state: usize,
) -> Result<(), AllocError> {
    let Some(span) = entering(document) else {
        return Ok(());
    };
    let name = state_name(document.definition(), state);
    let message = format!(in alloc; "the text ends in start state {name}, which is entered here")?;
    report.push(Finding {
        weight: Weight::Note,
        span,
        message: &message,
        code: "",
        first: None,
    })
}

/// Adds what is found of a text that isn't a rule text: where lexing stops, or in which start state the text ends.
fn push_text(
    alloc: Global,
    report: &mut Report<'_, '_>,
    document: &Document<'_, Types>,
) -> Result<(), AllocError> {
    if let Some(Err(error)) = document.items().last() {
        return push_stop(alloc, report, document, error);
    }
    match document.end_state() {
        Some(state) if state.id() != 0 => push_end(alloc, report, document, state.id()),
        _ => Ok(()),
    }
}

/// Adds what is found of a document.
pub(crate) fn push_findings(
    alloc: Global,
    report: &mut Report<'_, '_>,
    document: &Document<'_, Types>,
    role: Role,
    given: Given<'_>,
) -> Result<(), AllocError> {
    match role {
        Role::Rules => push_rules(alloc, report, document.text(), given),
        Role::Text => push_text(alloc, report, document),
        Role::Unlexed => Ok(()),
    }
}
