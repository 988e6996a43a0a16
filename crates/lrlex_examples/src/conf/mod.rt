//! Shows start states that are pushed and popped: `lrlex_bench --example conf < CONFIGURATION` prints each entry as
//! `SECTION.KEY = VALUE`. The lexer's own stack of states says whether a section, a value or a quoted text is open, so each has
//! the rules that it needs.
mod reader;
mod states;

use crate::rules::{Definition, definition_of};
use reader::{Fault, read};
use states::RULES;
use std::io;
use std::process::ExitCode;

/// Tells where the configuration is wrong.
fn show_fault(rt: &HostRuntime, fault: &Fault) -> io::Result<ExitCode> {
    let (line, column) = fault.place;
    let why = fault.why;
    println!(rt; "stdin:{line}:{column}: {why}")?;
    Ok(ExitCode::FAILURE)
}

/// Prints the entries of a configuration.
fn show(rt: &HostRuntime, definition: &Definition, text: &str) -> io::Result<ExitCode> {
    let (entries, fault) = read(rt.alloc(), definition, text)?;
    rt.print(entries.as_str())?;
    match fault {
        Some(fault) => show_fault(rt, &fault),
        None => Ok(ExitCode::SUCCESS),
    }
}

/// Prints the entries of standard input.
fn show_input(rt: &HostRuntime, definition: &Definition) -> io::Result<ExitCode> {
    let mut text = io::read_to_string(rt.alloc(), rt.reader())?;
    // A value ends with its line, the last one too.
    text.push('\n')?;
    show(rt, definition, text.as_str())
}

/// Prints the entries of standard input.
pub fn serve(rt: &HostRuntime) -> io::Result<ExitCode> {
    match definition_of(rt, RULES)? {
        Some(definition) => show_input(rt, &definition),
        None => Ok(ExitCode::FAILURE),
    }
}
