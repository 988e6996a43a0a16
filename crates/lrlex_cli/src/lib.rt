//! What the program `lrlex` does, over any writer, reader and files: its words, its texts, its engine and its status.
#![tactic(auto)]

mod command;
pub mod engine;
mod fault_lines;
mod lines;
mod messages;
pub mod program;
mod scanning;
pub mod texts;
pub mod words;
mod writing;

pub use lrlex::{
    DefaultLexeme, DefaultLexerTypes, Edit, Id, LRLexError, LexBuildError, LexError, LexErrorKind,
    LexFlags, Lexeme, LexerTypes, Span, Spanned, SpansKind, StartStateId,
};
