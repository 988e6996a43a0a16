ghost use Rattle.std.specs.Prelude.{◌≡◌, Some, None};

use crate::states::StartStateId;
use lrlex_base::{LexError, Span};
use std::error::Error;
use std::fmt;

/// The place at which lexing stopped, and the start state in which no rule matched there, if that is why.
#[derive(Clone, Copy, Debug)]
pub struct LRLexError {
    span: Span,
    lexing_state: Option<StartStateId>,
}

impl LRLexError {
    ghost use Rattle.lrlex_rules.specs.Errors.{lex_error_span, lex_error_state};

    /// An error at this place.
    pub fn new(span: Span) -> LRLexError
        ensures span { lex_error_span result ≡ span }
        ensures state { lex_error_state result ≡ None }
    {
        LRLexError {
            span,
            lexing_state: None,
        }
    }

    /// An error at this place, where no rule matched in this start state.
    pub fn new_with_lexing_state(span: Span, lexing_state: StartStateId) -> LRLexError
        ensures span { lex_error_span result ≡ span }
        ensures state { lex_error_state result ≡ Some lexing_state }
    {
        LRLexError {
            span,
            lexing_state: Some(lexing_state),
        }
    }

    /// The start state in which no rule matched, if that is why lexing stopped.
    pub fn lexing_state(&self) -> Option<StartStateId>
        ensures { result ≡ lex_error_state self.now }
    {
        self.lexing_state
    }
}

impl LexError for LRLexError {
    ghost use Rattle.lrlex_rules.specs.Errors.{lex_error_span};

    ghost error_span = { lex_error_span };

    fn span(&self) -> Span {
        self.span
    }
}

impl fmt::Display for LRLexError {
    ghost use Rattle.std.specs.Prelude.{Some};
    ghost use Rattle.lrlex_base.specs.Spans.{span_start};
    ghost use Rattle.lrlex_rules.specs.Errors.{lex_error_span, stop_text};

    ghost output = { λ e. Some (stop_text (span_start (lex_error_span e))) };

    fn fmt<W: fmt::Write>(&self, f: &mut fmt::Formatter<W>) -> fmt::Result {
        let at = self.span.start();
        write!(f, "Couldn't lex input starting at byte {at}")
    }
}

impl Error for LRLexError {}
