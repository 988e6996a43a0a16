//! The errors of a rule text, as people read them.
ghost use Rattle.std.specs.Prelude.{◌≡◌, ◌++◌, IfOk, OnOk, string_bytes};
ghost use Rattle.lrlex_parser.specs.LexBuildError.{fault_kind, fault_spans};
ghost use Rattle.lrlex_report.specs.FaultTexts.{IsMessageOf, shown_name, unknown_part, at_each, fault_name, first_text, places_text, IsFaultMessage, IsFaultText, AreFaultTexts};

use crate::carets::push_rest;
use crate::listed::unknown_name;
use crate::notes::fault_note;
use crate::places::Source;
use crate::ranges::told_span;
use lrlex_base::{Span, Spanned};
use lrlex_parser::{LexBuildError, LexErrorKind};
use std::alloc::{AllocError, Global};
use std::fmt::Write;

/// The name of an error's kind, as `DuplicateName`.
pub fn fault_name(fault: &LexBuildError) -> &'static str
    ensures { result.now ≡ fault_name (fault_kind fault.now) }
{
    match fault.kind() {
        LexErrorKind::PrematureEnd => "PrematureEnd",
        LexErrorKind::RoutinesNotSupported => "RoutinesNotSupported",
        LexErrorKind::UnknownDeclaration => "UnknownDeclaration",
        LexErrorKind::MissingSpace => "MissingSpace",
        LexErrorKind::InvalidName => "InvalidName",
        LexErrorKind::UnknownStartState => "UnknownStartState",
        LexErrorKind::DuplicateStartState => "DuplicateStartState",
        LexErrorKind::InvalidStartState => "InvalidStartState",
        LexErrorKind::InvalidStartStateName => "InvalidStartStateName",
        LexErrorKind::DuplicateName => "DuplicateName",
        LexErrorKind::RegexError(_) => "RegexError",
        LexErrorKind::VerbatimNotSupported => "VerbatimNotSupported",
        LexErrorKind::TooManyRules => "TooManyRules",
    }
}

/// Why `regex` refuses a pattern. For a syntax error the places that `regex` reports are left out: they count in the pattern as it
/// is compiled, which is in no file.
fn reason_of(alloc: Global, error: &regex::Error) -> Result<String, AllocError> {
    match error {
        regex::Error::Syntax(fault) => String::from_str(alloc, fault.kind.message()),
        _ => format!(in alloc; "{error}"),
    }
}

/// The message of an error, with the reason if `regex` refuses a pattern.
fn message_of(alloc: Global, fault: &LexBuildError) -> Result<String, AllocError>
    ensures { IfOk result (λ s. IsMessageOf (fault_kind fault.now) (string_bytes s)) }
{
    match fault.kind() {
        LexErrorKind::RegexError(error) => {
            let mut message = String::from_str(alloc, fault.kind().message())?;
            message.push_str(": ")?;
            message.push_str(&reason_of(alloc, error)?)?;
            Ok(message)
        }
        kind => String::from_str(alloc, kind.message()),
    }
}

/// Adds a name in parentheses, unless it is empty. Of more than 80 characters the first are shown.
fn push_name(out: &mut String, name: &str) -> Result<(), AllocError>
    ensures { OnOk result (string_bytes out.new ≡ string_bytes out.old ++ shown_name name.now) }
{
    if name.is_empty() {
        return Ok(());
    }
    out.push_str(" (")?;
    push_rest(out, name, 80)?;
    out.push_str(")")
}

/// Adds which name of a list of several start states isn't declared, if that is the error.
fn push_unknown(out: &mut String, rules: &str, fault: &LexBuildError) -> Result<(), AllocError>
    ensures { OnOk result (string_bytes out.new ≡ string_bytes out.old
        ++ unknown_part rules.now fault.now) }
{
    match fault.kind() {
        LexErrorKind::UnknownStartState => {
            push_name(out, unknown_name(rules, told_span(fault).start()))
        }
        _ => Ok(()),
    }
}

/// What is wrong with a rule text, in one line, without its places: the kind's message. The reason follows where `regex` refuses
/// a pattern, and the first name that isn't declared of a list of several start states. Then follows the mistake that such an error
/// usually comes of, with what to write. `rules` is the text that has the error.
pub fn fault_message(
    alloc: Global,
    rules: &str,
    fault: &LexBuildError,
) -> Result<String, AllocError>
    ensures { IfOk result (λ said. IsFaultMessage rules.now fault.now (string_bytes said)) }
{
    let mut message = message_of(alloc, fault)?;
    push_unknown(&mut message, rules, fault)?;
    message.push_str(fault_note(rules, fault))?;
    Ok(message)
}

/// Adds the message at each span.
fn push_each(
    alloc: Global,
    out: &mut String,
    source: &Source<'_>,
    message: &str,
    spans: &[Span],
) -> Result<(), AllocError>
    ensures { OnOk result (string_bytes out.new ≡ string_bytes out.old
        ++ at_each source.now.file.now source.now.text.now message.now spans.now) }
{
    for span in spans {
        source.push_place(alloc, out, *span, message)?;
    }
    Ok(())
}

/// Adds the first place of something that is declared twice. `INITIAL` has an empty span, and none is shown.
fn push_first(
    alloc: Global,
    out: &mut String,
    source: &Source<'_>,
    span: Span,
) -> Result<(), AllocError>
    ensures { OnOk result (string_bytes out.new ≡ string_bytes out.old
        ++ first_text source.now.file.now source.now.text.now span) }
{
    if span.start() == span.end() {
        Ok(())
    } else {
        source.push_place(alloc, out, span, "first here")
    }
}

/// Adds the message at the spans of an error.
fn push_places(
    alloc: Global,
    out: &mut String,
    source: &Source<'_>,
    message: &str,
    spans: &[Span],
) -> Result<(), AllocError>
    ensures { OnOk result (string_bytes out.new ≡ string_bytes out.old
        ++ places_text source.now.file.now source.now.text.now message.now spans.now) }
{
    match spans.split_first() {
        None => {
            let file = source.file;
            write!(out, "{file}: {message}\n")
        }
        Some((first, others)) => {
            if others.is_empty() {
                return source.push_place(alloc, out, *first, message);
            }
            push_each(alloc, out, source, message, others)?;
            push_first(alloc, out, source, *first)
        }
    }
}

/// An error of the text, as people read it.
fn shown_fault(
    alloc: Global,
    source: &Source<'_>,
    fault: &LexBuildError,
) -> Result<String, AllocError>
    ensures { IfOk result (λ shown. IsFaultText source.now.file.now source.now.text.now fault.now
        (string_bytes shown)) }
{
    let message = fault_message(alloc, source.text, fault)?;
    let mut shown = String::new(alloc);
    push_places(alloc, &mut shown, source, &message, fault.spans())?;
    Ok(shown)
}

/// An error of a rule text, as people read it: `FILE:L:C: MESSAGE`, then the line with its number, then carets under the place.
///
/// Of a duplicate each place but the first is shown so, and then the first, as `first here`. `rules` is the text that has the
/// error; in another text the nearest places are shown.
pub fn fault_text(
    alloc: Global,
    file: &str,
    rules: &str,
    fault: &LexBuildError,
) -> Result<String, AllocError>
    ensures { IfOk result (λ shown. IsFaultText file.now rules.now fault.now (string_bytes shown)) }
{
    let source = Source::new(alloc, file, rules)?;
    shown_fault(alloc, &source, fault)
}

/// All errors of a rule text, one after the other, each as `fault_text` shows it.
pub fn faults_text(
    alloc: Global,
    file: &str,
    rules: &str,
    faults: &[LexBuildError],
) -> Result<String, AllocError>
    ensures { IfOk result (λ shown. AreFaultTexts file.now rules.now faults.now
        (string_bytes shown)) }
{
    let source = Source::new(alloc, file, rules)?;
    let mut shown = String::new(alloc);
    for fault in faults {
        let one = shown_fault(alloc, &source, fault)?;
        shown.push_str(&one)?;
    }
    Ok(shown)
}
