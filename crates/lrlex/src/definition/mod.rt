//! The definition of a lexer, and which of its rules may win.
pub(crate) mod lexer_def;
pub(crate) mod never;
pub(crate) mod non_streaming;
pub(crate) mod read_table;
