//! Runs, and where they stop.
use crate::files::Types;
use lrlex::{LRLexError, LexRun};

/// A run with the program's types.
pub type Run<'d, 't> = LexRun<'d, 't, Types>;

/// The error that stopped lexing, if one did.
pub fn stop_of(run: &Run<'_, '_>) -> Option<LRLexError> {
    match run.items().last() {
        Some(Err(error)) => Some(*error),
        _ => None,
    }
}
