//! Warnings, as people read them.
ghost use Rattle.std.specs.Prelude.{◌≡◌, ◌++◌, IfOk, OnOk, string_bytes};
ghost use Rattle.lrlex_report.specs.WarningTexts.{named_message, warning_text, warning_texts};

use crate::places::Source;
use crate::warnings::kinds::{Warning, WarningKind};
use std::alloc::{AllocError, Global};

/// The message of a kind, with its name.
fn named_message(alloc: Global, kind: WarningKind) -> Result<String, AllocError>
    ensures { IfOk result (λ s. string_bytes s ≡ named_message kind) }
{
    let (message, name) = (kind.message(), kind.name());
    format!(in alloc; "Warning: {message} [{name}]")
}

/// Adds a warning at its place.
fn push_warning(
    alloc: Global,
    out: &mut String,
    source: &Source<'_>,
    warning: &Warning,
) -> Result<(), AllocError>
    ensures { OnOk result (string_bytes out.new ≡ string_bytes out.old
        ++ warning_text source.now.file.now source.now.text.now warning.now) }
{
    let message = named_message(alloc, warning.kind)?;
    source.push_place(alloc, out, warning.span, &message)
}

/// All warnings of a rule text, one after the other: `FILE:L:C: Warning: MESSAGE [NAME]`, then the line with its number, then
/// carets under the place. Empty where there are none.
pub fn warnings_text(
    alloc: Global,
    file: &str,
    rules: &str,
    warnings: &[Warning],
) -> Result<String, AllocError>
    ensures { IfOk result (λ shown. string_bytes shown
        ≡ warning_texts file.now rules.now warnings.now) }
{
    let source = Source::new(alloc, file, rules)?;
    let mut shown = String::new(alloc);
    for warning in warnings {
        push_warning(alloc, &mut shown, &source, warning)?;
    }
    Ok(shown)
}
