//! What a rule text says and its author hardly meant.
ghost use Rattle.std.specs.Prelude.{◌≡◌, ◌↔◌, string_bytes, pos, None, Some, IfOk, IfSome, IsUtf8};
ghost use Rattle.lrlex_base.specs.Places.{AreBreaksOf};
ghost use Rattle.lrlex_handles.specs.Buffers.{filled, IsReport};
ghost use Rattle.lrlex_handles.specs.Objects.{definition_in, table_in};
ghost use Rattle.lrlex_handles.specs.Warnings.{warning_by, AreWarningsIn, IsWarningReport};

use crate::handle::{Handle, with_object};
use crate::kinds::number_of;
use crate::object::{Definition, Object};
use crate::places::next_place;
use crate::status::{MISUSE, NO_MEMORY, NOT_UTF8, OK};
use crate::structs::Warning;
use crate::texts::write_text;
use lrlex::{LineCursor, NewlineCache};
use lrlex_report::{warnings_of, warnings_text};
use std::alloc::{AllocError, Global};
use std::str;

/// A warning, with line and column of its start. The newlines and the cursor are those of the rule text, and `last` is the last byte
/// whose place the cursor told.
fn warning_of(
    newlines: &NewlineCache,
    cursor: &mut LineCursor<'_>,
    last: &mut usize,
    rules: &str,
    warning: &lrlex_report::Warning,
) -> Warning
    requires newlines { AreBreaksOf rules.now newlines.now }
    requires cursor { cursor.old ≡ rules.now }
    ensures warning { result ≡ warning_by rules.now warning.now }
    ensures cursor { cursor.new ≡ rules.now }
{
    let span = warning.span();
    let place = next_place(newlines, cursor, last, rules, span.start());
    Warning {
        start: span.start(),
        end: span.end(),
        line: place.line,
        column: place.column,
        kind: number_of(warning.kind()),
    }
}

/// Writes as many of the warnings as there is room for.
fn copy_warnings(
    newlines: &NewlineCache,
    rules: &str,
    warnings: &[lrlex_report::Warning],
    out: &mut [Warning],
)
    requires { AreBreaksOf rules.now newlines.now }
    ensures { out.new ≡ filled (λ w _. warning_by rules.now w) warnings.now out.old }
{
    let room = warnings.len().min(out.len());
    let mut cursor = LineCursor::new(rules);
    let mut last = 0usize;
    for i in 0..room {
        out[i] = warning_of(newlines, &mut cursor, &mut last, rules, &warnings[i]);
    }
}

/// Writes the warnings of the rule text and the definition, as many as there is room for, and counts all.
fn warnings_by(
    alloc: Global,
    definition: &Definition,
    rules: &str,
    out: &mut [Warning],
) -> Result<usize, AllocError>
    ensures { IfOk result (AreWarningsIn definition.now.table rules.now out.old out.new) }
{
    let newlines = NewlineCache::from_str(alloc, rules)?;
    let warnings = warnings_of(alloc, rules, definition.rule_table())?;
    copy_warnings(&newlines, rules, &warnings, out);
    Ok(warnings.len())
}

fn warnings_in(
    alloc: Global,
    object: &Object,
    rules: &[u8],
    out: &mut [Warning],
    count: &mut usize,
) -> i32
    ensures misused { result ≡ pos 4 ↔ definition_in (Some object.now) ≡ None }
    ensures done { result ≡ pos 0 → IfSome (table_in (Some object.now))
        (λ t. AreWarningsIn t rules.now out.old out.new count.new) }
    ensures unread { result ≡ pos 3 → ¬ (IsUtf8 rules.now) }
{
    match object {
        Object::Definition(definition) => match str::from_utf8(rules) {
            Err(_) => NOT_UTF8,
            Ok(rules) => match warnings_by(alloc, definition, rules, out) {
                Err(_) => NO_MEMORY,
                Ok(found) => {
                    *count = found;
                    OK
                }
            },
        },
        _ => MISUSE,
    }
}

/// The warnings of the definition and the rule text that it was read from, as many as there is room for: first those of each start
/// state, then those of each rule, in order. With another text the nearest places are told.
pub fn write_warnings(
    alloc: Global,
    handle: &mut Handle,
    rules: &[u8],
    out: &mut [Warning],
    count: &mut usize,
) -> i32
    ensures kept { handle.new.value ≡ handle.old.value }
    ensures misused { result ≡ pos 4 ↔ definition_in handle.old.value ≡ None }
    ensures done { result ≡ pos 0 → IfSome (table_in handle.old.value)
        (λ t. AreWarningsIn t rules.now out.old out.new count.new) }
    ensures unread { result ≡ pos 3 → ¬ (IsUtf8 rules.now) }
{
    with_object!(
        alloc,
        handle,
        MISUSE,
        |object| warnings_in(alloc, &object, rules, out, count)
    )
}

/// The report of the warnings of the rule text and the definition.
fn report_by(
    alloc: Global,
    definition: &Definition,
    file: &str,
    rules: &str,
) -> Result<String, AllocError>
    ensures { IfOk result (λ shown.
        IsWarningReport definition.now.table file.now rules.now (string_bytes shown)) }
{
    let warnings = warnings_of(alloc, rules, definition.rule_table())?;
    warnings_text(alloc, file, rules, &warnings)
}

fn report_in(
    alloc: Global,
    object: &Object,
    file: &[u8],
    rules: &[u8],
    out: &mut [u8],
    len: &mut usize,
) -> i32
    ensures misused { result ≡ pos 4 ↔ definition_in (Some object.now) ≡ None }
    ensures done { result ≡ pos 0 → IfSome (table_in (Some object.now))
        (λ t. IsReport (IsWarningReport t file.now rules.now) out.old out.new len.new) }
    ensures unread { result ≡ pos 3 → ¬ (IsUtf8 file.now × IsUtf8 rules.now) }
{
    match object {
        Object::Definition(definition) => match (str::from_utf8(file), str::from_utf8(rules)) {
            (Ok(file), Ok(rules)) => match report_by(alloc, definition, file, rules) {
                Err(_) => NO_MEMORY,
                Ok(shown) => {
                    write_text(&shown, out, len);
                    OK
                }
            },
            _ => NOT_UTF8,
        },
        _ => MISUSE,
    }
}

/// The report of all warnings of the definition and the rule text that it was read from, each with its line and carets. `file` is the
/// file name that it shows. It is empty where there are none. As many bytes are written as there is room for.
pub fn warning_report(
    alloc: Global,
    handle: &mut Handle,
    file: &[u8],
    rules: &[u8],
    out: &mut [u8],
    len: &mut usize,
) -> i32
    ensures kept { handle.new.value ≡ handle.old.value }
    ensures misused { result ≡ pos 4 ↔ definition_in handle.old.value ≡ None }
    ensures done { result ≡ pos 0 → IfSome (table_in handle.old.value)
        (λ t. IsReport (IsWarningReport t file.now rules.now) out.old out.new len.new) }
    ensures unread { result ≡ pos 3 → ¬ (IsUtf8 file.now × IsUtf8 rules.now) }
{
    with_object!(
        alloc,
        handle,
        MISUSE,
        |object| report_in(alloc, &object, file, rules, out, len)
    )
}
