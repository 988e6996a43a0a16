//! Shows a `Document`, a text that keeps its lexemes while it is edited: `lrlex_bench --example edit_loop < INPUT`. The input has a
//! text, a line `----`, and an edit a line: `FROM TO PUT` puts the text PUT in the place of the bytes from FROM up to TO. Told
//! is, of the text and after each edit: the lexemes, an error as FILE:L:C, and how many of the tiles were cut anew.
mod edits;
mod showing;

use crate::rules::{Definition, Types, definition_of};
use edits::{Change, change_of};
use lrlex::{Document, EditError};
use showing::{show, show_refused};
use std::alloc::AllocError;
use std::io;
use std::process::ExitCode;

/// A few words of a programming language.
const RULES: &str = r#"%%
let 'LET'
[a-z]+ 'NAME'
[0-9]+ 'NUMBER'
"[^"\n]*" 'TEXT'
[=+;] 'SIGN'
[ \n]+ ;
"#;

/// What stands between the text and the edits.
const BETWEEN: &str = "\n----\n";

/// Makes the edit, and tells what the document is then.
fn make(
    rt: &HostRuntime,
    document: &mut Document<'_, Types>,
    change: Change<'_>,
) -> io::Result<()> {
    match document.edit(rt.alloc(), change.from, change.to, change.put) {
        Ok(()) => show(rt, document),
        Err(EditError::DoesNotFit) => show_refused(rt, "this edit doesn't fit the text"),
        Err(EditError::OutOfMemory) => Err(io::Error::from(AllocError)),
    }
}

/// Tells what the document is, and then makes the edits of all lines, the first of them first.
fn make_all(rt: &HostRuntime, document: &mut Document<'_, Types>, edits: &str) -> io::Result<()> {
    show(rt, document)?;
    for line in edits.lines() {
        println!(rt; "\n> {line}")?;
        match change_of(line) {
            Some(change) => make(rt, document, change)?,
            None => show_refused(rt, "no edit: FROM TO PUT is wanted")?,
        }
    }
    Ok(())
}

/// Lexes the text before the line, and then makes the edits behind it.
fn edit(rt: &HostRuntime, definition: &Definition, input: &str) -> io::Result<()> {
    let (text, edits) = input.split_once(BETWEEN).unwrap_or((input, ""));
    let mut document = Document::new(rt.alloc(), definition, text)?;
    make_all(rt, &mut document, edits)
}

/// Edits the text of standard input.
fn edit_input(rt: &HostRuntime, definition: &Definition) -> io::Result<ExitCode> {
    let input = io::read_to_string(rt.alloc(), rt.reader())?;
    edit(rt, definition, input.as_str())?;
    Ok(ExitCode::SUCCESS)
}

/// Edits the text of standard input.
pub fn serve(rt: &HostRuntime) -> io::Result<ExitCode> {
    match definition_of(rt, RULES)? {
        Some(definition) => edit_input(rt, &definition),
        None => Ok(ExitCode::FAILURE),
    }
}
