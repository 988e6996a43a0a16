//! What a lexer's types are: places in a text, classes of characters, ids of tokens, lexemes and errors.
#![tactic(auto)]

mod classes;
mod defaults;
mod edits;
mod ids;
mod laws;
mod lexemes;
mod lexers;
mod newlines;
mod numbered;
mod spans;

pub use crate::classes::{is_blank, is_line_sep, is_white_space};
pub use crate::defaults::{DefaultLexeme, DefaultLexerTypes};
pub use crate::edits::Edit;
pub use crate::ids::Id;
pub use crate::laws::{lexeme_laws, span_laws};
pub use crate::lexemes::{LexError, Lexeme};
pub use crate::lexers::{Items, Lexer, LexerTypes, NonStreamingLexer};
pub use crate::newlines::NewlineCache;
pub use crate::numbered::Numbered;
pub use crate::spans::{Span, Spanned, SpansKind};
