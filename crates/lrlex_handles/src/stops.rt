//! Where lexing stops, for people.
ghost use Rattle.std.specs.Prelude.{◌≡◌, ◌↔◌, ℕ, ◌-◌, false, length, slice_get, option_map, string_bytes, pos, None, Some, Err, IfOk, IfSome, IsUtf8, MatchOption};
ghost use Rattle.lrlex_base.specs.Lexemes.{lexeme_seen};
ghost use Rattle.lrlex.specs.Views.{definition_of, definition_states, item_of};
ghost use Rattle.lrlex_handles.specs.Answers.{outcome, IsStopReport, IsUnstopped};
ghost use Rattle.lrlex_handles.specs.Buffers.{IsReport};
ghost use Rattle.lrlex_handles.specs.Objects.{definition_in, states_in};

use crate::handle::{Handle, with_object};
use crate::object::{Definition, Object};
use crate::status::{MISUSE, NO_MEMORY, NONE, NOT_UTF8, OK};
use crate::texts::{Item, write_text};
use lrlex::{LRLexError, LexError};
use lrlex_report::stop_text_in;
use std::alloc::{AllocError, Global};
use std::str;

/// The error at which lexing stopped that found these items.
fn error_in(items: &[Item]) -> Option<&LRLexError>
    ensures found { IfSome result
        (λ e. slice_get items.now (length items.now - 1) ≡ Some (Err e.now)) }
    ensures none { result ≡ None → (n end q : ℕ)
        → (outcome (option_map (item_of (λ n. n) lexeme_seen)
        (slice_get items.now (length items.now - 1))) n end q).stopped ≡ false }
{
    match items.last() {
        Some(Err(error)) => Some(error),
        _ => None,
    }
}

/// The report of the error at which lexing the text stops, if it stops.
fn report_by(
    alloc: Global,
    definition: &Definition,
    file: &str,
    text: &str,
) -> Result<Option<String>, AllocError>
    ensures { IfOk result (λ shown. MatchOption shown
        (IsUnstopped (definition_of (λ n. n) definition.now) text.now)
        (λ s. IsStopReport (definition_states definition.now)
        (definition_of (λ n. n) definition.now) file.now text.now (string_bytes s))) }
{
    let run = definition.run(alloc, text)?;
    match error_in(run.items()) {
        Some(error) => Ok(Some(stop_text_in(alloc, definition.rule_table(), file, text, error)?)),
        None => Ok(None),
    }
}

fn report_in(
    alloc: Global,
    object: &Object,
    file: &[u8],
    text: &[u8],
    out: &mut [u8],
    len: &mut usize,
) -> i32
    ensures misused { result ≡ pos 4 ↔ definition_in (Some object.now) ≡ None }
    ensures done { result ≡ pos 0 → IfSome (definition_in (Some object.now))
        (λ d. IfSome (states_in (Some object.now)) (λ states. IsReport
        (IsStopReport states d file.now text.now) out.old out.new len.new)) }
    ensures none { result ≡ pos 5 → IfSome (definition_in (Some object.now))
        (λ d. IsUnstopped d text.now) }
    ensures unread { result ≡ pos 3 → ¬ (IsUtf8 file.now × IsUtf8 text.now) }
{
    match object {
        Object::Definition(definition) => match (str::from_utf8(file), str::from_utf8(text)) {
            (Ok(file), Ok(text)) => match report_by(alloc, definition, file, text) {
                Err(_) => NO_MEMORY,
                Ok(None) => NONE,
                Ok(Some(shown)) => {
                    write_text(&shown, out, len);
                    OK
                }
            },
            _ => NOT_UTF8,
        },
        _ => MISUSE,
    }
}

/// The report of the error at which lexing the text stops, with its line and a caret. `file` is the file name that it shows. As many
/// bytes are written as there is room for.
pub fn stop_report(
    alloc: Global,
    handle: &mut Handle,
    file: &[u8],
    text: &[u8],
    out: &mut [u8],
    len: &mut usize,
) -> i32
    ensures kept { handle.new.value ≡ handle.old.value }
    ensures misused { result ≡ pos 4 ↔ definition_in handle.old.value ≡ None }
    ensures done { result ≡ pos 0 → IfSome (definition_in handle.old.value)
        (λ d. IfSome (states_in handle.old.value) (λ states. IsReport
        (IsStopReport states d file.now text.now) out.old out.new len.new)) }
    ensures none { result ≡ pos 5 → IfSome (definition_in handle.old.value)
        (λ d. IsUnstopped d text.now) }
    ensures unread { result ≡ pos 3 → ¬ (IsUtf8 file.now × IsUtf8 text.now) }
{
    with_object!(
        alloc,
        handle,
        MISUSE,
        |object| report_in(alloc, &object, file, text, out, len)
    )
}
