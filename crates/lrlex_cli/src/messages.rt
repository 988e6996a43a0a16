//! What the program says of its faults, without the end of the line.

pub(crate) const USAGE: &str = "Usage: lrlex <lexer.l> <input file>";

pub(crate) const OUT_OF_MEMORY: &str = "Out of memory";

pub(crate) const CANNOT_WRITE: &str = "Can't write";

/// What an error displays that stopped lexing, up to the byte.
pub(crate) const STOPPED_AT: &str = "Couldn't lex input starting at byte ";
