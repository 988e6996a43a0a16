//! Standard output and standard error, JSON, and what the program ends with where standard output or memory fails.
use serde::Serialize;
use std::alloc::{AllocError, Global};
use std::fmt::Display;
use std::io;
use std::io::{BufWriter, ErrorKind, Printer, Write};

/// The status where a rule file has a fault, or a warning that counts as one, or lexing stops.
pub const FAULTY: u8 = 1;

/// The status where the words are refused, a file can't be read, or memory or standard output fails.
pub const UNABLE: u8 = 2;

/// Standard output, with a buffer.
pub type Output<'a> = BufWriter<Printer<'a, HostRuntime>>;

/// Standard output, with nothing written yet.
pub fn output(rt: &HostRuntime) -> io::Result<Output<'_>> {
    BufWriter::new(rt.alloc(), io::writer(rt))
}

/// Writes the whole text to standard output.
pub fn print(rt: &HostRuntime, text: &str) -> io::Result<()> {
    io::writer(rt).write_all(text.as_bytes())
}

/// A value as JSON. Writing the program's values fails for memory alone.
pub fn json_of<T: Serialize>(alloc: Global, value: &T) -> Result<String, AllocError> {
    serde_json::to_string(alloc, value).map_err(|_| AllocError)
}

/// Says a text on standard error. There is nowhere to tell of a fault of standard error.
pub fn say<D: Display + Drop>(rt: &HostRuntime, text: D) {
    let _ = rt.eprint(text);
}

/// Reports what a stream or memory failed with, and gives the status. A reader of standard output that has gone wants no more:
/// that is no fault.
pub fn tell(rt: &HostRuntime, fault: &io::Error) -> u8 {
    match fault.kind() {
        ErrorKind::BrokenPipe => return 0,
        ErrorKind::OutOfMemory => say(rt, "rolgumzai: out of memory\n"),
        _ => say(rt, format_args!("rolgumzai: {fault}\n")),
    }
    UNABLE
}
