//! Steps that make what the callers of `lrlex_examples` make of a definition, a document or a rule text.
use crate::replay::building::Definition;
use crate::replay::cases::edits::edits_of;
use crate::replay::cases::facts::{tell_no_items, tell_report, tell_words};
use crate::replay::cases::reading::{
    Change, Trouble, change_of, file_of, list_at, span_of, text_at,
};
use crate::replay::cases::told::Told;
use crate::replay::documents::{Edited, tell_change};
use crate::replay::lexers::tell_lexed;
use lrlex::{DefaultLexerTypes, Document, Edit, EditError, LRNonStreamingLexerDef, LexerDef, Span};
use lrlex_examples::callers::editing::{highlighted, retyped, typed, visible};
use lrlex_examples::callers::lending::lexed_and_replaced;
use lrlex_examples::callers::lexing::{lexer_after, words};
use lrlex_examples::callers::marking::{Diagnostic, faults, stop};
use lrlex_examples::callers::reporting::complaints_of_file;
use serde_json::Value;
use std::alloc::{AllocError, Global};

/// Takes a run through edits, and tells the items of its lexer; null where an edit doesn't make its text.
fn tell_after(
    told: &mut Told,
    definition: &Definition<u32>,
    text: &str,
    edits: &[(Edit<'_>, &str)],
) -> Result<(), Trouble> {
    match lexer_after(told.alloc(), definition, text, edits)? {
        Some(lexer) => tell_lexed(told, &lexer),
        None => tell_no_items(told),
    }
    Ok(())
}

/// The same, where each edit of the list has the text that it makes.
fn keep_run(
    told: &mut Told,
    definition: &Definition<u32>,
    text: &str,
    list: &[Value],
) -> Result<(), Trouble> {
    let edits = edits_of(told.alloc(), list)?;
    tell_after(told, definition, text, edits.as_slice())
}

/// The definition of a rule text without faults.
fn defined(alloc: Global, rules: &str) -> Result<Definition<u32>, Trouble> {
    match Definition::<u32>::from_str(alloc, rules)? {
        Ok(definition) => Ok(definition),
        Err(_) => Err(Trouble::Malformed),
    }
}

/// Lexes a text, and puts the definition of another rule text in the place of this one. Tells how many tiles the text had.
fn replace(
    told: &mut Told,
    definition: &mut Definition<u32>,
    text: &str,
    rules: &str,
) -> Result<(), Trouble> {
    let other = defined(told.alloc(), rules)?;
    let tiles = lexed_and_replaced(told.alloc(), definition, other, text)?;
    told.key("tiles").number(tiles);
    Ok(())
}

/// Types keys, and tells where typing ended; null where they don't fit.
fn type_keys(
    told: &mut Told,
    document: &mut Edited<'_>,
    change: Change<'_>,
) -> Result<(), Trouble> {
    let (at, _, keys) = change;
    let typed = typed(told.alloc(), document, at, keys);
    told.key("typed");
    match typed {
        Ok(place) => told.pair(place),
        Err(EditError::DoesNotFit) => told.null(),
        Err(EditError::OutOfMemory) => return Err(Trouble::Memory),
    };
    Ok(())
}

/// Makes an edit, and tells which tokens it changed and those that came; null where it doesn't fit.
fn retype(told: &mut Told, document: &mut Edited<'_>, change: Change<'_>) -> Result<(), Trouble> {
    let (from, to, put) = change;
    let retyped = retyped(told.alloc(), document, from, to, put);
    told.key("retyped");
    match retyped {
        Ok((changed, came)) => {
            tell_change(told, changed);
            tell_words(told, Ok(came));
        }
        Err(EditError::DoesNotFit) => {
            told.null();
        }
        Err(EditError::OutOfMemory) => return Err(Trouble::Memory),
    }
    Ok(())
}

/// Tells the part of a document that a window shows.
fn tell_visible(told: &mut Told, document: &Edited<'_>, span: Span) {
    let words = visible(told.alloc(), document, span.start(), span.end());
    tell_words(told, words);
}

/// What is wrong with a rule file of these bytes, or where lexing the input stops.
fn complaints(alloc: Global, bytes: &[Value], input: &str) -> Result<String, AllocError> {
    let bytes = file_of(alloc, bytes)?;
    complaints_of_file(alloc, bytes.as_slice(), input)
}

/// A range and its message, as `START..END MESSAGE`.
fn shown_mark(alloc: Global, mark: &Diagnostic) -> Result<String, AllocError> {
    let (start, end) = (mark.range.start(), mark.range.end());
    format!(in alloc; "{start}..{end} {}\n", mark.message)
}

/// These marks, each in a line.
fn shown_all(alloc: Global, marks: &[Diagnostic]) -> Result<String, AllocError> {
    let mut shown = String::new(alloc);
    for mark in marks {
        let line = shown_mark(alloc, mark)?;
        shown.push_str(&line)?;
    }
    Ok(shown)
}

/// What an editor marks in a rule text, each in a line.
fn shown_marks(alloc: Global, rules: &str) -> Result<String, AllocError> {
    let marks = faults(alloc, rules)?;
    shown_all(alloc, marks.as_slice())
}

/// Why lexing an input by a rule text stops; nothing where it doesn't, or where the rule text has faults.
fn shown_reason(alloc: Global, rules: &str, input: &str) -> Result<String, AllocError> {
    match LRNonStreamingLexerDef::<DefaultLexerTypes<u32>>::from_str(alloc, rules)? {
        Ok(definition) => match stop(alloc, &definition, input)? {
            Some(mark) => shown_mark(alloc, &mark),
            None => Ok(String::new(alloc)),
        },
        Err(_) => Ok(String::new(alloc)),
    }
}

/// Makes the step of this name for a new document, and tells what comes of it; the last of them is `retyped`.
fn ask_document(
    told: &mut Told,
    definition: &Definition<u32>,
    name: &str,
    step: &[Value],
) -> Result<(), Trouble> {
    let mut document = Document::new(told.alloc(), definition, text_at(step, 1))?;
    let asked = list_at(step, 2);
    match name {
        "visible" => {
            tell_visible(told, &document, span_of(asked));
            Ok(())
        }
        "typed" => type_keys(told, &mut document, change_of(asked)),
        _ => retype(told, &mut document, change_of(asked)),
    }
}

/// Makes the step of this name for a rule text, and tells what comes of it; the last of them is `stop`.
fn ask_rules(told: &mut Told, name: &str, step: &[Value]) {
    let (alloc, text) = (told.alloc(), text_at(step, 1));
    let shown = match name {
        "complaints" => complaints(alloc, list_at(step, 1), text_at(step, 2)),
        "diagnostics" => shown_marks(alloc, text),
        _ => shown_reason(alloc, text, text_at(step, 2)),
    };
    tell_report(told, shown);
}

/// Makes a step, if it is one of a caller, and tells what comes of it. Whether it is one.
pub fn make_by_caller(
    told: &mut Told,
    definition: &mut Definition<u32>,
    step: &[Value],
) -> Result<bool, Trouble> {
    let (name, text) = (text_at(step, 0), text_at(step, 1));
    match name {
        "words" => {
            let words = words(told.alloc(), definition, text);
            tell_words(told, words);
        }
        "highlighted" => {
            let words = highlighted(told.alloc(), definition, text);
            tell_words(told, words);
        }
        "after" => keep_run(told, definition, text, list_at(step, 2))?,
        "replaced" => replace(told, definition, text, text_at(step, 2))?,
        "visible" | "typed" | "retyped" => ask_document(told, definition, name, step)?,
        "complaints" | "diagnostics" | "stop" => ask_rules(told, name, step),
        _ => return Ok(false),
    }
    Ok(true)
}
