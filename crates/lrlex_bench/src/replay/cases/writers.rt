//! A writer that breaks.
ghost use Rattle.std.specs.Prelude.{Some};

use crate::replay::cases::reading::{Trouble, count_at, text_at};
use crate::replay::cases::told::Told;
use serde_json::Value;
use std::alloc::Global;
use std::io;
use std::io::{ErrorKind, Write};

/// What goes wrong at a call of `write`, or at a flush.
#[derive(Clone, Copy)]
enum Breaks {
    Never,
    /// The call fails.
    Fails(ErrorKind),
    /// The call takes nothing.
    TakesNone,
    /// A flush fails.
    AtFlush,
}

/// What a call that writes came to.
#[derive(Clone, Copy)]
pub enum Came {
    Lexed,
    Stopped,
    Refused,
    Reported,
    Failed(ErrorKind),
}

/// Takes at most so many bytes a call, and breaks at one of its calls, counted from 1.
#[derive(Drop)]
pub struct BrokenWriter {
    held: Vec<u8>,
    most: usize,
    at: u64,
    breaks: Breaks,
    calls: u64,
    flushes: u64,
}

/// What breaks, by its name; the last of them is `never`.
fn breaks_of(name: &str) -> Breaks {
    match name {
        "fails" => Breaks::Fails(ErrorKind::Other),
        "is interrupted" => Breaks::Fails(ErrorKind::Interrupted),
        "takes none" => Breaks::TakesNone,
        "fails at a flush" => Breaks::AtFlush,
        _ => Breaks::Never,
    }
}

/// What a call came to, in a word.
fn word_of(came: Came) -> &'static str {
    match came {
        Came::Lexed => "Lexed",
        Came::Stopped => "Stopped",
        Came::Refused => "Refused",
        Came::Reported => "Reported",
        Came::Failed(ErrorKind::WriteZero) => "Failed(WriteZero)",
        Came::Failed(ErrorKind::Interrupted) => "Failed(Interrupted)",
        Came::Failed(ErrorKind::OutOfMemory) => "Failed(OutOfMemory)",
        Came::Failed(ErrorKind::Other) => "Failed(Other)",
        Came::Failed(_) => "Failed(another kind)",
    }
}

/// Tells the bytes that a writer holds.
fn tell_held(told: &mut Told, writer: &BrokenWriter) {
    told.open();
    for byte in writer.held.as_slice() {
        told.number(*byte as usize);
    }
    told.close();
}

/// Tells what a call came to, and what its writer has then.
pub fn tell_came(
    told: &mut Told,
    came: Result<Came, Trouble>,
    writer: &BrokenWriter,
) -> Result<(), Trouble> {
    let word = word_of(came?);
    told.list("engine").text(word);
    tell_held(told, writer);
    told.number(writer.calls as usize)
        .number(writer.flushes as usize)
        .close();
    Ok(())
}

/// Tells the status of the program, what both of its writers have then, and how often the first was flushed.
pub fn tell_served(told: &mut Told, status: u8, lines: &BrokenWriter, faults: &BrokenWriter) {
    told.list("served").number(status as usize);
    tell_held(told, lines);
    tell_held(told, faults);
    told.number(lines.flushes as usize).close();
}

impl BrokenWriter {
    /// The writer `[most, call, how it breaks]`.
    pub fn of_parts(alloc: Global, parts: &[Value]) -> BrokenWriter {
        BrokenWriter {
            most: count_at(parts, 0),
            at: count_at(parts, 1) as u64,
            breaks: breaks_of(text_at(parts, 2)),
            held: Vec::new(alloc),
            calls: 0,
            flushes: 0,
        }
    }
}

impl Write for BrokenWriter {
    ghost contents = { λ w. Some w.held.items };

    fn write(&mut self, buf: &[u8]) -> io::Result<usize> {
        self.calls = self.calls.saturating_add(1);
        if self.calls == self.at {
            match self.breaks {
                Breaks::Fails(kind) => return Err(io::Error::from(kind)),
                Breaks::TakesNone => return Ok(0),
                _ => {}
            }
        }
        let taken = buf.len().min(self.most);
        self.held.write(&buf[..taken])
    }

    fn flush(&mut self) -> io::Result<()> {
        self.flushes = self.flushes.saturating_add(1);
        match self.breaks {
            Breaks::AtFlush => Err(io::Error::from(ErrorKind::Other)),
            _ => Ok(()),
        }
    }
}
