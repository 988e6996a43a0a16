//! The lines that the program writes for the errors of a rule text.
ghost use Rattle.std.specs.Prelude.{◌≡◌, ◌++◌, ◌∷◌, [], All, IfOk, OnOk, codes, string_bytes};
ghost use Rattle.lrlex_base.specs.Places.{AreBreaksOf};
ghost use Rattle.lrlex_base.specs.Spans.{Fits};
ghost use Rattle.lrlex_parser.specs.LexBuildError.{IsPlaced};
ghost use Rattle.lrlex_cli.specs.FaultLines.{place, more_places, other_places, fault_line, fault_lines};

use lrlex::LexBuildError;
use lrlex_base::{NewlineCache, Span, Spanned};
use std::alloc::{AllocError, Global};
use std::fmt::Write;

/// Adds the place of a span's start, as `L:C`.
fn push_place(
    text: &mut String,
    rules: &str,
    newlines: &NewlineCache,
    span: Span,
) -> Result<(), AllocError>
    requires own { AreBreaksOf rules.now newlines.now }
    requires fits { Fits rules.now span }
    ensures { OnOk result (string_bytes text.new ≡ string_bytes text.old ++ place rules.now span) }
{
    match newlines.byte_to_line_num_and_col_num(rules, span.start()) {
        Some((line, column)) => write!(text, "{line}:{column}"),
        None => unreachable!(),
    }
}

/// Adds the places of spans, each after a comma.
fn push_more(
    text: &mut String,
    rules: &str,
    newlines: &NewlineCache,
    spans: &[Span],
) -> Result<(), AllocError>
    requires own { AreBreaksOf rules.now newlines.now }
    requires fit { All (Fits rules.now) spans.now }
    ensures { OnOk result (string_bytes text.new ≡ string_bytes text.old
        ++ more_places rules.now spans.now) }
{
    for span in spans {
        text.push_str(", ")?;
        push_place(text, rules, newlines, *span)?;
    }
    Ok(())
}

/// Adds the places of an error after its first, as `, again at L:C` and then `, L:C` each.
fn push_others(
    text: &mut String,
    rules: &str,
    newlines: &NewlineCache,
    spans: &[Span],
) -> Result<(), AllocError>
    requires own { AreBreaksOf rules.now newlines.now }
    requires fit { All (Fits rules.now) spans.now }
    ensures { OnOk result (string_bytes text.new ≡ string_bytes text.old
        ++ other_places rules.now spans.now) }
{
    match spans.split_first() {
        None => Ok(()),
        Some((span, more)) => {
            text.push_str(", again at ")?;
            push_place(text, rules, newlines, *span)?;
            push_more(text, rules, newlines, more)
        }
    }
}

/// Adds the line of an error.
fn push_fault(
    text: &mut String,
    rules: &str,
    newlines: &NewlineCache,
    fault: &LexBuildError,
) -> Result<(), AllocError>
    requires own { AreBreaksOf rules.now newlines.now }
    requires placed { IsPlaced rules.now fault.now }
    ensures { OnOk result (string_bytes text.new ≡ string_bytes text.old
        ++ fault_line rules.now fault.now) }
{
    match fault.spans().split_first() {
        None => Ok(()),
        Some((span, others)) => {
            push_place(text, rules, newlines, *span)?;
            text.push_str(": ")?;
            text.push_str(fault.kind().message())?;
            push_others(text, rules, newlines, others)?;
            text.push_str("\n")
        }
    }
}

/// The lines of the errors of a rule text.
pub(crate) fn fault_lines(
    alloc: Global,
    rules: &str,
    faults: &[LexBuildError],
) -> Result<String, AllocError>
    requires { All (IsPlaced rules.now) faults.now }
    ensures { IfOk result (λ text. string_bytes text ≡ fault_lines rules.now faults.now) }
{
    let newlines = NewlineCache::from_str(alloc, rules)?;
    let mut text = String::new(alloc);
    for fault in faults {
        push_fault(&mut text, rules, &newlines, fault)?;
    }
    Ok(text)
}
