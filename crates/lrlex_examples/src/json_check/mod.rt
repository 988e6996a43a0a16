//! Shows a reader on top of a lexer: `lrlex_bench --example json_check < TEXT` says whether a text is JSON (RFC 8259), or where it isn't
//! and what was expected there. The lexer cuts the text, and the reader keeps what is open on a stack of its own.
mod reader;
mod tokens;

use crate::rules::{Definition, definition_of};
use lrlex_report::{bad_byte_text, place_text};
use reader::{Fault, fault_of};
use std::alloc::{AllocError, Global};
use std::io::Read;
use std::process::ExitCode;
use std::{io, str};
use tokens::RULES;

/// What was expected, and what stands there instead.
fn message_of(alloc: Global, fault: &Fault<'_>) -> Result<String, AllocError> {
    let expected = fault.expected;
    match fault.found {
        "" => format!(in alloc; "expected {expected}, found the end"),
        found => format!(in alloc; "expected {expected}, found {found}"),
    }
}

/// Tells where the text isn't JSON.
fn show(rt: &HostRuntime, text: &str, fault: &Fault<'_>) -> io::Result<ExitCode> {
    let message = message_of(rt.alloc(), fault)?;
    let shown = place_text(rt.alloc(), "stdin", text, fault.span, &message)?;
    rt.print(shown.as_str())?;
    Ok(ExitCode::FAILURE)
}

/// Says whether the text is JSON by the definition of its tokens, or where it isn't.
fn judge_by(rt: &HostRuntime, definition: &Definition, text: &str) -> io::Result<ExitCode> {
    match fault_of(rt.alloc(), definition, text)? {
        Some(fault) => show(rt, text, &fault),
        None => {
            rt.println("ok")?;
            Ok(ExitCode::SUCCESS)
        }
    }
}

/// Says whether the text is JSON, or where it isn't.
fn judge(rt: &HostRuntime, text: &str) -> io::Result<ExitCode> {
    match definition_of(rt, RULES)? {
        Some(definition) => judge_by(rt, &definition, text),
        None => Ok(ExitCode::FAILURE),
    }
}

/// Judges what standard input has.
pub fn serve(rt: &HostRuntime) -> io::Result<ExitCode> {
    let mut bytes = Vec::new(rt.alloc());
    rt.reader().read_to_end(&mut bytes)?;
    match bad_byte_text(rt.alloc(), "stdin", &bytes)? {
        Some(shown) => {
            rt.print(shown.as_str())?;
            Ok(ExitCode::FAILURE)
        }
        None => judge(rt, str::from_utf8(&bytes).unwrap()),
    }
}
