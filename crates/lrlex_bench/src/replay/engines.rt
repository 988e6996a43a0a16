//! Steps of the engine and of the program, over writers that break.
use crate::replay::cases::edits::edit_of;
use crate::replay::cases::reading::{Trouble, list_at, list_of, text_at};
use crate::replay::cases::told::Told;
use crate::replay::cases::writers::{BrokenWriter, Came, tell_came, tell_served};
use lrlex::{DefaultLexerTypes, Edit, LRNonStreamingLexerDef, LexerDef, UNSPECIFIED_LEX_FLAGS};
use lrlex_cli::engine::{Ended, EngineFault};
use lrlex_cli::texts::TextFault;
use lrlex_cli::words::WordsFault;
use lrlex_cli::{engine, program};
use serde_json::Value;
use std::alloc::Global;
use std::error::Error;
use std::io;

/// What a fault of the engine is.
fn came_of_fault(fault: &EngineFault) -> Result<Came, Trouble> {
    match fault {
        EngineFault::Memory => Err(Trouble::Memory),
        EngineFault::Write(fault) => Ok(Came::Failed(fault.kind())),
    }
}

/// What a run came to.
fn came_of_run(ended: &Result<Ended, EngineFault>) -> Result<Came, Trouble> {
    match ended {
        Ok(Ended::Lexed) => Ok(Came::Lexed),
        Ok(Ended::Stopped) => Ok(Came::Stopped),
        Ok(Ended::Refused(_)) => Ok(Came::Refused),
        Err(fault) => came_of_fault(fault),
    }
}

/// What a run on an input came to.
fn ran(
    alloc: Global,
    rules: &str,
    input: &str,
    writer: &mut BrokenWriter,
) -> Result<Came, Trouble> {
    let flags = UNSPECIFIED_LEX_FLAGS;
    let ended = engine::run::<DefaultLexerTypes<u32>, _>(alloc, rules, flags, input, writer);
    came_of_run(&ended)
}

/// What a run on the new text, which the edit makes of the old one, came to.
fn ran_edited(
    alloc: Global,
    rules: &str,
    texts: (&str, &str),
    edit: &Edit<'_>,
    writer: &mut BrokenWriter,
) -> Result<Came, Trouble> {
    let (flags, (old, new)) = (UNSPECIFIED_LEX_FLAGS, texts);
    if !edit.gives(old, new) {
        return Err(Trouble::Malformed);
    }
    let ended = engine::run_edited::<DefaultLexerTypes<u32>, _>(
        alloc, rules, flags, old, edit, new, writer,
    );
    came_of_run(&ended)
}

/// What reporting the faults of the rule text came to; reporting none where it has none.
fn reported(alloc: Global, rules: &str, writer: &mut BrokenWriter) -> Result<Came, Trouble> {
    let built = LRNonStreamingLexerDef::<DefaultLexerTypes<u32>>::from_str(alloc, rules)?;
    let came = match built {
        Ok(_) => engine::report(alloc, &[], rules, writer),
        Err(faults) => engine::report(alloc, faults.as_slice(), rules, writer),
    };
    match came {
        Ok(()) => Ok(Came::Reported),
        Err(fault) => came_of_fault(&fault),
    }
}

/// What the engine came to at the step of this name; the last of them is `engine_report`.
fn came_of(
    alloc: Global,
    name: &str,
    step: &[Value],
    writer: &mut BrokenWriter,
) -> Result<Came, Trouble> {
    let (rules, input) = (text_at(step, 1), text_at(step, 2));
    match name {
        "engine" => ran(alloc, rules, input, writer),
        "engine_edited" => {
            let (edit, new) = (edit_of(list_at(step, 3)), text_at(step, 4));
            ran_edited(alloc, rules, (input, new), &edit, writer)
        }
        _ => reported(alloc, rules, writer),
    }
}

/// Has the engine do what the step of this name says, by the writer that is the last of the step, and tells what comes of it.
pub fn drive(told: &mut Told, name: &str, step: &[Value]) -> Result<(), Trouble> {
    let parts = match step.last() {
        Some(writer) => list_of(writer),
        None => &[],
    };
    let mut writer = BrokenWriter::of_parts(told.alloc(), parts);
    let came = came_of(told.alloc(), name, step, &mut writer);
    tell_came(told, came, &writer)
}

/// Serves both texts of standard input, by writers for lines and for faults, and tells the status and what both writers have then.
pub fn serve(rt: &HostRuntime, told: &mut Told, step: &[Value]) {
    let mut stdin = text_at(step, 1).as_bytes();
    let mut lines = BrokenWriter::of_parts(told.alloc(), list_at(step, 2));
    let mut faults = BrokenWriter::of_parts(told.alloc(), list_at(step, 3));
    let status = program::serve(rt, &["lrlex"], &mut stdin, &mut lines, &mut faults);
    tell_served(told, status, &lines, &faults);
}

/// The same error. Only what is an error can be given.
fn as_error<E: Error>(error: E) -> E {
    error
}

/// Tells the text that each fault displays, on a line of its own: those of the engine, of the words and of the texts. Each is an error.
pub fn display_faults(told: &mut Told) {
    let unwritten = EngineFault::Write(io::Error::from(io::ErrorKind::Other));
    told.key("faults");
    told.made(format!(in told.alloc();
        "{}\n{}\n{}\n{}\n{}\n{}\n{}",
        as_error(EngineFault::Memory),
        unwritten,
        as_error(WordsFault::Memory),
        WordsFault::Refused,
        as_error(TextFault::Memory),
        TextFault::Unreadable,
        TextFault::NotText
    ));
}
