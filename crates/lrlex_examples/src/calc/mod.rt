//! Shows token ids that come from a grammar, by `set_rule_ids`, and errors with a caret: `lrlex_bench --example calc < LINES` works
//! out each line, of whole numbers, `+ - * /` and parentheses. What waits for its right side is held on a stack of its own, so
//! that no line is nested too deep, and a result that is too large for 64 bits is reported.
mod grammar;
mod sums;

use crate::rules::{Definition, definition_of};
use grammar::{RULES, give_ids};
use lrlex::Span;
use lrlex_report::place_text;
use std::alloc::AllocError;
use std::io;
use std::process::ExitCode;
use sums::{Failure, value_of};

/// Works out one line of the text, which begins at this byte.
fn serve_line(
    rt: &HostRuntime,
    definition: &Definition,
    text: &str,
    begin: usize,
    line: &str,
) -> io::Result<()> {
    match value_of(rt.alloc(), definition, line) {
        Ok(value) => println!(rt; "{line} = {value}"),
        Err(Failure::Wrong { place, why }) => {
            let at = begin.saturating_add(place);
            let shown = place_text(rt.alloc(), "stdin", text, Span::new(at, at), why)?;
            rt.print(shown.as_str())
        }
        Err(Failure::Memory) => Err(io::Error::from(AllocError)),
    }
}

/// The line without the newline that ends it, and a carriage return before that.
fn without_end(line: &str) -> &str {
    match line.strip_suffix('\n') {
        Some(line) => line.strip_suffix('\r').unwrap_or(line),
        None => line,
    }
}

/// Works out each line that isn't blank.
fn serve_lines(rt: &HostRuntime, definition: &Definition, text: &str) -> io::Result<()> {
    let mut begin: usize = 0;
    for line in text.split_inclusive('\n') {
        if !line.trim().is_empty() {
            serve_line(rt, definition, text, begin, without_end(line))?;
        }
        begin = begin.saturating_add(line.len());
    }
    Ok(())
}

/// Works out each line of standard input, once the rules have the grammar's ids.
fn serve_input(rt: &HostRuntime, definition: &mut Definition) -> io::Result<ExitCode> {
    if !give_ids(rt.alloc(), definition)? {
        rt.eprintln("The rules and the grammar differ")?;
        return Ok(ExitCode::FAILURE);
    }
    let text = io::read_to_string(rt.alloc(), rt.reader())?;
    serve_lines(rt, definition, text.as_str())?;
    Ok(ExitCode::SUCCESS)
}

/// Works out each line of standard input.
pub fn serve(rt: &HostRuntime) -> io::Result<ExitCode> {
    match definition_of(rt, RULES)? {
        Some(mut definition) => serve_input(rt, &mut definition),
        None => Ok(ExitCode::FAILURE),
    }
}
