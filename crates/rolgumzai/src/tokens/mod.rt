//! `rolgumzai tokens [--json] RULES INPUT`: the tokens of a text, where lexing it stops, and in which start state it ends.
mod ending;
mod lines;

use crate::files::{Definition, name_of, rules_of, text_at, word_of};
use crate::output::{FAULTY, UNABLE, output, say};
use crate::runs::{Run, stop_of};
use clap::ArgMatches;
use ending::{ending_of, ending_text};
use lines::{token_of, write_token};
use lrlex::LineCursor;
use lrlex_report::stop_text_in;
use std::alloc::{AllocError, Global};
use std::io;
use std::io::Write;

/// Writes a line for each token of a run.
fn write_tokens<'a>(rt: &HostRuntime, run: &Run<'a, 'a>, is_json: bool) -> io::Result<()> {
    let mut out = output(rt)?;
    let mut cursor = LineCursor::new(run.text());
    for item in run.items() {
        if let Ok(lexeme) = item {
            let token = token_of(run, &mut cursor, lexeme);
            write_token(rt.alloc(), &mut out, &token, is_json)?;
        }
    }
    out.flush()
}

/// Where lexing a text of this file stopped, or in which start state the text ends, as people read it, and the status.
fn end_text(alloc: Global, run: &Run<'_, '_>, file: &str) -> Result<(String, u8), AllocError> {
    let (definition, input) = (run.definition(), run.text());
    if let Some(error) = stop_of(run) {
        let shown = stop_text_in(alloc, definition.rule_table(), file, input, &error)?;
        return Ok((shown, FAULTY));
    }
    let shown = match ending_of(run) {
        Some(ending) => ending_text(alloc, definition, file, input, ending)?,
        None => String::new(alloc),
    };
    Ok((shown, 0))
}

/// Prints the tokens of a run of this file's text, and then what is to be said of its end. Gives the status.
fn show_run<'a>(rt: &HostRuntime, run: &Run<'a, 'a>, file: &str, is_json: bool) -> io::Result<u8> {
    write_tokens(rt, run, is_json)?;
    let (shown, status) = end_text(rt.alloc(), run, file)?;
    say(rt, &shown);
    Ok(status)
}

/// Prints the tokens of a text, and then what is to be said of its end. Gives the status.
fn show(
    rt: &HostRuntime,
    definition: &Definition,
    file: &str,
    input: &str,
    is_json: bool,
) -> io::Result<u8> {
    let run = definition.run(rt.alloc(), input)?;
    show_run(rt, &run, file, is_json)
}

/// Prints the tokens of the input that the words name, by these rules. Gives the status.
fn show_input(rt: &HostRuntime, words: &ArgMatches<'_>, definition: &Definition) -> io::Result<u8> {
    let path = word_of(words, "input");
    match text_at(rt, path)? {
        Some(input) => show(
            rt,
            definition,
            name_of(path),
            &input,
            words.get_flag("json"),
        ),
        None => Ok(UNABLE),
    }
}

/// Prints the tokens of the text that the words name. Gives the status.
pub fn serve(rt: &HostRuntime, words: &ArgMatches<'_>) -> io::Result<u8> {
    match rules_of(rt, words)? {
        Ok((_text, definition)) => show_input(rt, words, &definition),
        Err(status) => Ok(status),
    }
}
