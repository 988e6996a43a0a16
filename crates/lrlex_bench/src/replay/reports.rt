//! Steps that show people what is wrong, and where.
use crate::replay::cases::facts::tell_report;
use crate::replay::cases::reading::{Trouble, count_at, list_at, span_of, text_at};
use crate::replay::cases::told::Told;
use lrlex::{
    DefaultLexerTypes, LRLexError, LRNonStreamingLexerDef, LexBuildError, LexerDef, Span,
    StartStateId,
};
use lrlex_report::{fault_text, place_text, stop_text};
use serde_json::Value;
use std::alloc::{AllocError, Global};

/// What is shown of a fault, behind its own text by `Display`.
fn shown_of_fault(alloc: Global, rules: &str, fault: &LexBuildError) -> Result<String, AllocError> {
    let shown = fault_text(alloc, "tokens.l", rules, fault)?;
    format!(in alloc; "{fault}\n{shown}")
}

/// What is shown of the first fault of a rule text; nothing where it has none.
fn first_fault(alloc: Global, rules: &str) -> Result<String, AllocError> {
    match LRNonStreamingLexerDef::<DefaultLexerTypes<u32>>::from_str(alloc, rules)? {
        Ok(_) => Ok(String::new(alloc)),
        Err(faults) => match faults.first() {
            Some(fault) => shown_of_fault(alloc, rules, fault),
            None => Ok(String::new(alloc)),
        },
    }
}

/// What is shown where lexing the text stops at this place, in this state.
fn shown_of_stop(
    alloc: Global,
    text: &str,
    place: usize,
    state: usize,
) -> Result<String, AllocError> {
    let state = StartStateId::new(state);
    let error = LRLexError::new_with_lexing_state(Span::new(place, place), state);
    stop_text(alloc, "f", text, &error)
}

/// Tells what the step of this name shows.
pub fn report(told: &mut Told, name: &str, step: &[Value]) -> Result<(), Trouble> {
    let (alloc, text) = (told.alloc(), text_at(step, 1));
    let shown = match name {
        "first_fault" => first_fault(alloc, text),
        "place_text" => place_text(
            alloc,
            "f",
            text,
            span_of(list_at(step, 2)),
            text_at(step, 3),
        ),
        "stop_text" => shown_of_stop(alloc, text, count_at(step, 2), count_at(step, 3)),
        _ => return Err(Trouble::Malformed),
    };
    tell_report(told, shown);
    Ok(())
}
