//! The program: its words, its files, its standard streams and its status.
ghost use Rattle.std.specs.Prelude.{◌≡◌, ◌++◌, IfOk};
ghost use Rattle.lrlex_cli.specs.Engine.{HasPlacedFaults};
ghost use Rattle.lrlex_cli.specs.Program.{fault_text, status_of};
ghost use Rattle.lrlex_cli.specs.Writing.{Writes, WritesSome};

use crate::engine::{Ended, EngineFault};
use crate::texts::{TextFault, read_text, split, text_at};
use crate::words::WordsFault;
use crate::writing::write_bytes;
use crate::{engine, words};
use lrlex::{DefaultLexerTypes, LexFlags, UNSPECIFIED_LEX_FLAGS};
use lrlex_base::{Edit, Span};
use std::alloc::Global;
use std::io;
use std::io::{Read, Write};
use std::rt::Files;

/// Why the program can't do what its words ask for, other than for errors in the rule text.
#[derive(Clone, Copy, Debug, PartialEq, Eq)]
pub enum Fault<'a> {
    /// The words aren't those of a call of the program.
    Usage,
    /// The file at this path can't be opened or read.
    CannotOpen(&'a str),
    /// The file at this path isn't UTF-8.
    NotText(&'a str),
    /// Out of memory.
    Memory,
    /// Writing or flushing standard output failed.
    CannotWrite,
    /// The edit doesn't fit the input.
    BadEdit,
}

impl<'a> Fault<'a> {
    fn of_text(path: &'a str, fault: TextFault) -> Fault<'a> {
        match fault {
            TextFault::Memory => Fault::Memory,
            TextFault::Unreadable => Fault::CannotOpen(path),
            TextFault::NotText => Fault::NotText(path),
        }
    }

    fn of_engine(fault: &EngineFault) -> Fault<'a> {
        match fault {
            EngineFault::Memory => Fault::Memory,
            EngineFault::Write(_) => Fault::CannotWrite,
        }
    }
}

/// Writes three texts, one after another. It stops at the first error of `write`.
fn write_three<E: Write>(err: &mut E, first: &str, second: &str, third: &str) -> io::Result<()>
    ensures { Writes (E.contents err.old) (E.contents err.new) result
        (first.now ++ (second.now ++ third.now)) }
{
    write_bytes(err, first.as_bytes())?;
    write_bytes(err, second.as_bytes())?;
    write_bytes(err, third.as_bytes())
}

/// Writes the line of the fault. It stops at the first error of `write`. A line that names no file is one write.
fn write_fault<E: Write>(fault: Fault<'_>, err: &mut E) -> io::Result<()>
    ensures { Writes (E.contents err.old) (E.contents err.new) result (fault_text fault.entry) }
{
    match fault {
        Fault::Usage => write_bytes(err, b"Usage: lrlex <lexer.l> <input file>\n"),
        Fault::CannotOpen(path) => write_three(err, "Can't open file ", path, "\n"),
        Fault::NotText(path) => write_three(err, "File ", path, " is not UTF-8\n"),
        Fault::Memory => write_bytes(err, b"Out of memory\n"),
        Fault::CannotWrite => write_bytes(err, b"Can't write\n"),
        Fault::BadEdit => write_bytes(err, b"Bad edit\n"),
    }
}

/// Writes the line of the fault and returns the status, 1. A line that names no file is one write. An error of `err` is ignored:
/// of the line, the beginning was written then.
pub fn refuse<E: Write>(fault: Fault<'_>, err: &mut E) -> u8
    ensures status { result ≡ 1 }
    ensures line { WritesSome (E.contents err.old) (E.contents err.new) (fault_text fault.entry) }
{
    let _ignored = write_fault(fault, err);
    1
}

/// Returns the status, after a line for the fault if there is one.
fn answered<E: Write>(status: Result<u8, Fault<'_>>, err: &mut E) -> u8 {
    match status {
        Ok(status) => status,
        Err(fault) => refuse(fault, err),
    }
}

/// Flushes what was written and returns the status.
fn flushed<W: Write>(out: &mut W, status: u8) -> Result<u8, Fault<'static>>
    ensures { IfOk result (λ s. s ≡ status) }
{
    match out.flush() {
        Ok(()) => Ok(status),
        Err(_) => Err(Fault::CannotWrite),
    }
}

/// Flushes what was written, or writes the errors of the rule text, and returns the status.
fn conclude<W: Write, E: Write>(
    alloc: Global,
    rules: &str,
    ended: Result<Ended, EngineFault>,
    out: &mut W,
    err: &mut E,
) -> Result<u8, Fault<'static>>
    requires { HasPlacedFaults rules.now ended }
    ensures { IfOk result (λ s. s ≡ status_of ended) }
{
    match ended {
        Ok(Ended::Lexed) => flushed(out, 0),
        Ok(Ended::Stopped) => flushed(out, 1),
        Ok(Ended::Refused(faults)) => match engine::report(alloc, faults.as_slice(), rules, err) {
            Err(EngineFault::Memory) => Err(Fault::Memory),
            _ => Ok(1),
        },
        Err(fault) => Err(Fault::of_engine(&fault)),
    }
}

/// A rule text, the flags of its lexer, and the input.
#[derive(Clone, Copy)]
struct Request<'t> {
    rules: &'t str,
    flags: LexFlags,
    input: &'t str,
}

/// Lexes the input by the rules and returns the status.
fn lex<W: Write, E: Write>(
    alloc: Global,
    request: Request<'_>,
    out: &mut W,
    err: &mut E,
) -> Result<u8, Fault<'static>> {
    let Request {
        rules,
        flags,
        input,
    } = request;
    let ended = engine::run::<DefaultLexerTypes<u32>, W>(alloc, rules, flags, input, out);
    conclude(alloc, rules, ended, out, err)
}

/// Lexes the input by the rules, lexes again after the edit, and returns the status.
fn lex_edited<W: Write, E: Write>(
    alloc: Global,
    request: Request<'_>,
    edit: &(usize, usize, String),
    out: &mut W,
    err: &mut E,
) -> Result<u8, Fault<'static>> {
    let Request {
        rules,
        flags,
        input,
    } = request;
    let (from, to, put) = edit;
    if from > to {
        return Err(Fault::BadEdit);
    }
    let edit = Edit {
        removed: Span::new(*from, *to),
        put: put.as_str(),
    };
    if !edit.fits(input) {
        return Err(Fault::BadEdit);
    }
    let Ok(edited) = edit.apply(alloc, input) else {
        return Err(Fault::Memory);
    };
    let edited = edited.as_str();
    let ended = engine::run_edited::<DefaultLexerTypes<u32>, W>(
        alloc, rules, flags, input, &edit, edited, out,
    );
    conclude(alloc, rules, ended, out, err)
}

/// Lexes by the rule text and the input that standard input holds.
fn serve_input<R: AllocGlobal, I: Read, W: Write, E: Write>(
    rt: &R,
    stdin: &mut I,
    out: &mut W,
    err: &mut E,
) -> Result<u8, Fault<'static>> {
    let both = read_text(rt.alloc(), stdin).map_err(|fault| Fault::of_text("-", fault))?;
    let (rules, input) = split(both.as_str());
    let request = Request {
        rules,
        flags: UNSPECIFIED_LEX_FLAGS,
        input,
    };
    lex(rt.alloc(), request, out, err)
}

/// Lexes by the rule text and the input that the words name. The rule text is read first.
fn serve_files<'w, R: Files + AllocGlobal, I: Read, W: Write, E: Write>(
    rt: &R,
    words: &'w words::Words,
    stdin: &mut I,
    out: &mut W,
    err: &mut E,
) -> Result<u8, Fault<'w>> {
    let path = words.rules.as_str();
    let rules = text_at(rt, path, stdin).map_err(|fault| Fault::of_text(path, fault))?;
    let path = words.input.as_str();
    let input = text_at(rt, path, stdin).map_err(|fault| Fault::of_text(path, fault))?;
    let request = Request {
        rules: rules.as_str(),
        flags: words.flags,
        input: input.as_str(),
    };
    match &words.edit {
        Some(edit) => lex_edited(rt.alloc(), request, edit, out, err),
        None => lex(rt.alloc(), request, out, err),
    }
}

/// Does all that the program does and returns its status: 0 if the whole input was lexed and what was written was flushed, and
/// otherwise 1. The first of `words` is the program's own name.
///
/// The rule text is read first and then the input, both before the lexer is built; the first fault decides. An edit has to fit
/// the input, and the text that it makes is lexed. Lines of items go to `out`. The errors of the rule text, and a line for any
/// other fault, go to `err`; errors of `err` are ignored.
/// With at most one word `stdin` holds both texts: the rule text before the first line `----`, the input after it. Nothing that
/// fails is tried again.
pub fn serve<R: Files + AllocGlobal, I: Read, W: Write, E: Write>(
    rt: &R,
    words: &[&str],
    stdin: &mut I,
    out: &mut W,
    err: &mut E,
) -> u8 {
    if words.len() < 2 {
        return answered(serve_input(rt, stdin, out, err), err);
    }
    match words::read(rt.alloc(), words) {
        Ok(read) => answered(serve_files(rt, &read, stdin, out, err), err),
        Err(WordsFault::Memory) => refuse(Fault::Memory, err),
        Err(WordsFault::Refused) => refuse(Fault::Usage, err),
    }
}
