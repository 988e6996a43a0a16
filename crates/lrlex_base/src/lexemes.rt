ghost use Rattle.std.specs.Prelude.{◌≡◌, ◌<◌, ◌+◌, ◌^◌, true, false};
ghost use Rattle.lrlex_base.specs.Spans.{span_start, span_end};
ghost use Rattle.lrlex_base.specs.LexemeParts.{LexemeParts};
ghost use Rattle.lrlex_base.specs.declared.spans.Span.{Span};

use crate::spans::Span;
use std::error::Error;
use std::fmt::{Debug, Display};
use std::hash::Hash;

/// A lexeme: the id of its token and the part of the input that it was found in.
/// Each maker's numbers are given back by the other calls.
pub trait Lexeme<StorageT>: Copy + Debug + Display + Eq + Hash + Error {
    // What can be seen of a lexeme: id, first byte, number of bytes, and whether error recovery made it up.
    ghost seen: { Self → LexemeParts StorageT };

    /// A lexeme of `len` bytes from the byte at `start` on. The sum fits `usize`.
    fn new(tok_id: StorageT, start: usize, len: usize) -> Self
        requires { start + len < 2 ^ 64 }
        ensures { seen result ≡ record { id = tok_id; start = start; len = len; faulty = false } };

    /// A lexeme of `len` bytes from the byte at `start` on, marked as made up by error recovery. The sum fits `usize`.
    fn new_faulty(tok_id: StorageT, start: usize, len: usize) -> Self
        requires { start + len < 2 ^ 64 }
        ensures { seen result ≡ record { id = tok_id; start = start; len = len; faulty = true } };

    /// The id of the lexeme's token.
    fn tok_id(&self) -> StorageT
        ensures { result ≡ (seen self.now).id };

    /// The part of the input that the lexeme was found in.
    fn span(&self) -> Span
        ensures start { span_start result ≡ (seen self.now).start }
        ensures end { span_end result ≡ (seen self.now).start + (seen self.now).len };

    /// Whether error recovery made the lexeme up.
    fn faulty(&self) -> bool
        ensures { result ≡ (seen self.now).faulty };
}

/// Why a lexer stopped, and where.
pub trait LexError: Error {
    // Where the lexer stopped.
    ghost error_span: { Self → Span };

    /// Where the lexer stopped.
    fn span(&self) -> Span
        ensures { result ≡ error_span self.now };
}
