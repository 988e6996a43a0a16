//! The texts that the program reads.
ghost use Rattle.std.specs.Prelude.{◌≡◌, IfOk};
ghost use Rattle.std.specs.String.{string_bytes};
ghost use Rattle.lrlex_cli.specs.declared.texts.TextFault.TheVariants.{Memory};
ghost use Rattle.lrlex_cli.specs.Texts.{GaveAll, IsSplit};

use crate::messages::OUT_OF_MEMORY;
use std::alloc::{AllocError, Global};
use std::error::Error;
use std::io::{ErrorKind, Read};
use std::rt::Files;
use std::{fmt, fs, io};

/// How many calls of `read` a text may take.
const READS: u64 = 4_294_967_296;

/// Why a text can't be read.
#[derive(Clone, Copy, Debug, PartialEq, Eq)]
pub enum TextFault {
    /// Out of memory.
    Memory,
    /// The file or the reader can't be opened or read.
    Unreadable,
    /// The bytes aren't UTF-8.
    NotText,
}

impl fmt::Display for TextFault {
    ghost use Rattle.std.specs.Prelude.{Some};
    ghost use Rattle.lrlex_cli.specs.Texts.{text_fault_text};

    ghost output = { λ e. Some (text_fault_text e) };

    fn fmt<W: fmt::Write>(&self, f: &mut fmt::Formatter<W>) -> fmt::Result {
        f.write_str(match self {
            TextFault::Memory => OUT_OF_MEMORY,
            TextFault::Unreadable => "Can't open file",
            TextFault::NotText => "File is not UTF-8",
        })
    }
}

impl Error for TextFault {}

impl From<AllocError> for TextFault {
    ghost from_gives = { λ _ e. e ≡ Memory };

    fn from(_fault: AllocError) -> TextFault {
        TextFault::Memory
    }
}

/// The fault for an error of a file or a reader.
fn fault_of(error: &io::Error) -> TextFault {
    match error.kind() {
        ErrorKind::OutOfMemory => TextFault::Memory,
        _ => TextFault::Unreadable,
    }
}

/// Reads all bytes of a reader. After an error nothing is tried again.
fn read_bytes<R: Read>(alloc: Global, reader: &mut R) -> Result<Vec<u8>, TextFault>
    ensures { IfOk result (λ bytes. GaveAll (R.remaining reader.old)
        (R.remaining reader.new) bytes.items) }
{
    let mut bytes = Vec::new(alloc);
    let mut buf = [0u8; 8192];
    for _ in 0..READS {
        match reader.read(&mut buf) {
            Ok(0) => return Ok(bytes),
            Ok(n) => bytes.extend_from_slice(&buf[..n])?,
            Err(error) => return Err(fault_of(&error)),
        }
    }
    Err(TextFault::Unreadable)
}

/// Reads all of a reader as text: its bytes as they are, carriage returns too. After an error nothing is tried again.
pub fn read_text<R: Read>(alloc: Global, reader: &mut R) -> Result<String, TextFault>
    ensures { IfOk result (λ text. GaveAll (R.remaining reader.old) (R.remaining reader.new)
        (string_bytes text)) }
{
    String::from_utf8(read_bytes(alloc, reader)?).map_err(|_| TextFault::NotText)
}

/// The text of the file, or of standard input where the path is `-`.
pub fn text_at<R: Files + AllocGlobal, I: Read>(
    rt: &R,
    path: &str,
    stdin: &mut I,
) -> Result<String, TextFault> {
    if path == "-" {
        return read_text(rt.alloc(), stdin);
    }
    match fs::open(rt, path) {
        Ok(mut file) => read_text(rt.alloc(), &mut file),
        Err(error) => Err(fault_of(&error)),
    }
}

/// The text before the first line `----`, and the text after that line. If there is no such line, the whole text and an empty one.
pub fn split(text: &str) -> (&str, &str)
    ensures { IsSplit text.now result.0.now result.1.now }
{
    if let Some(after) = text.strip_prefix("----\n") {
        return ("", after);
    }
    if let Some(at) = text.find("\n----\n") {
        return (&text[..at + 1], &text[at + 6..]);
    }
    match text.strip_suffix("----") {
        Some(before) if before.is_empty() || before.ends_with('\n') => (before, ""),
        _ => (text, ""),
    }
}
