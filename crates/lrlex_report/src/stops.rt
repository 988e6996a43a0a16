//! Where lexing stopped and why, as people read it.
ghost use Rattle.std.specs.Prelude.{◌≡◌, ◌==◌, None, IfOk, find, option_map, string_bytes};
ghost use Rattle.std.specs.Option.{option_copied};
ghost use Rattle.std.specs.Slice.Iter.{iter_rest};
ghost use Rattle.lrlex_rules.specs.RuleParts.{as_state};
ghost use Rattle.lrlex_report.specs.StopTexts.{state_name, error_state, stop_message, stop_text, name_in};

use crate::encoding::mark_note;
use crate::places::{nearest, place_text};
use crate::reasons::{char_at, reason};
use lrlex_base::{LexError, Numbered};
use lrlex_definition::RuleTable;
use lrlex_rules::{LRLexError, StartState};
use std::alloc::{AllocError, Global};
use std::slice::Iter;

/// The id of the start state in which no rule matched, if that is why lexing stopped.
fn error_state(error: &LRLexError) -> Option<usize>
    ensures { result ≡ error_state error.now }
{
    match error.lexing_state() {
        Some(state) => Some(state.id()),
        None => None,
    }
}

/// Why lexing stopped. `name` is the name of the start state in which no rule matched.
fn stop_message(
    alloc: Global,
    input: &str,
    error: &LRLexError,
    name: Option<&str>,
) -> Result<String, AllocError>
    ensures { IfOk result (λ said. string_bytes said
        ≡ stop_message input.now error.now (option_map (λ t. t.now) name.entry)) }
{
    let at = error.span().start();
    let found = char_at(input, nearest(input, at));
    let mut message = reason(alloc, error_state(error), found, name)?;
    message.push_str(mark_note(input, at))?;
    Ok(message)
}

/// The error that stopped lexing, as people read it. `name` is the name of the start state in which no rule matched.
fn shown_stop(
    alloc: Global,
    file: &str,
    input: &str,
    error: &LRLexError,
    name: Option<&str>,
) -> Result<String, AllocError>
    ensures { IfOk result (λ shown. string_bytes shown
        ≡ stop_text file.now input.now error.now (option_map (λ t. t.now) name.entry)) }
{
    let message = stop_message(alloc, input, error, name)?;
    place_text(alloc, file, input, error.span(), &message)
}

/// The error that stopped lexing an input, as people read it: `FILE:L:C: MESSAGE`, then the line with its number, then a caret
/// under the place. The start state isn't named; `stop_text_in` names it.
pub fn stop_text(
    alloc: Global,
    file: &str,
    input: &str,
    error: &LRLexError,
) -> Result<String, AllocError>
    ensures { IfOk result (λ shown. string_bytes shown
        ≡ stop_text file.now input.now error.now None) }
{
    shown_stop(alloc, file, input, error, None)
}

/// The first start state with an id.
fn first_state(mut states: Iter<'_, StartState>, id: usize) -> Option<&StartState>
    ensures { option_copied result ≡ find (λ s. (as_state s).id == id) (iter_rest states.entry) }
{
    states.find(|state| state.id() == id)
}

/// The name of the first start state with an id; `None` for `INITIAL`, whose id is 0.
fn state_name(states: Iter<'_, StartState>, id: usize) -> Option<&str>
    ensures { option_map (λ t. t.now) result ≡ state_name (iter_rest states.entry) id }
{
    if id == 0 {
        return None;
    }
    match first_state(states, id) {
        Some(state) => Some(state.name()),
        None => None,
    }
}

/// The name of the start state in which no rule matched; `None` for `INITIAL`, and where lexing stopped for another reason.
fn name_in<'t, S: Numbered>(table: &'t RuleTable<S>, error: &LRLexError) -> Option<&'t str>
    ensures { option_map (λ t. t.now) result ≡ name_in table.now.start_states.items
        error.now }
{
    match error_state(error) {
        Some(id) => state_name(table.start_states.iter(), id),
        None => None,
    }
}

/// Why lexing an input by a definition stopped, in one line, without its place: the character at which no rule matched, or the
/// text's end. If that was in a start state other than `INITIAL`, the message names that state. `table` is the definition's
/// `rule_table`.
pub fn stop_message_in<S: Numbered>(
    alloc: Global,
    table: &RuleTable<S>,
    input: &str,
    error: &LRLexError,
) -> Result<String, AllocError>
    ensures { IfOk result (λ said. string_bytes said
        ≡ stop_message input.now error.now
        (name_in table.now.start_states.items error.now)) }
{
    stop_message(alloc, input, error, name_in(table, error))
}

/// The error that stopped lexing an input by a definition, as people read it: `FILE:L:C: MESSAGE`, then the line with its number,
/// then a caret under the place. If no rule matched in a start state other than `INITIAL`, the message names that state. `table` is
/// the definition's `rule_table`.
pub fn stop_text_in<S: Numbered>(
    alloc: Global,
    table: &RuleTable<S>,
    file: &str,
    input: &str,
    error: &LRLexError,
) -> Result<String, AllocError>
    ensures { IfOk result (λ shown. string_bytes shown
        ≡ stop_text file.now input.now error.now
        (name_in table.now.start_states.items error.now)) }
{
    shown_stop(alloc, file, input, error, name_in(table, error))
}
