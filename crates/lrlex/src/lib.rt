//! Lexers from rule files: a `.l` text gives start states and rules, and these cut an input into lexemes.
#![tactic(auto)]

mod definition;
mod editing;
mod lexing;
mod reading;

pub use crate::definition::lexer_def::LexerDef;
pub use crate::definition::never::never_laws;
pub use crate::definition::non_streaming::LRNonStreamingLexerDef;
pub use crate::editing::changes::{Change, Changed};
pub use crate::editing::document::{Document, EditError, LexedText};
pub use crate::editing::restart::{ahead_laws, decided_laws, resume_laws};
pub use crate::lexing::cursor::ScanPlace;
pub use crate::lexing::laws::{item_laws, run_laws, scan_laws, tiling_laws, utf16_laws};
pub use crate::lexing::run::LexRun;
pub use crate::lexing::scanner::{ScanEnd, ScannedTile, Scanner, Step};
pub use crate::lexing::steps::Steps;
pub use crate::reading::lexer::LRNonStreamingLexer;
pub use crate::reading::pieces::{Piece, piece_laws};
pub use lrlex_base::{
    DefaultLexeme, Edit, Id, Items, LexError, Lexeme, Lexer, LexerTypes, NewlineCache,
    NonStreamingLexer, Numbered, Span, Spanned, SpansKind,
};
pub use lrlex_definition::RuleTable;
pub use lrlex_parser::{LexBuildError, LexBuildResult, LexErrorKind, line_laws};
pub use lrlex_positions::{LineCursor, PositionEncoding};
pub use lrlex_rules::{
    DEFAULT_LEX_FLAGS, LRLexError, LexFlags, Rule, StartState, StartStateId, StartStateOperation,
    UNSPECIFIED_LEX_FLAGS, flag_laws, operation_laws,
};
pub use lrlex_table::Budget;
pub use lrlex_tokens::{CTTokenMapBuilder, TokenMapFault, ct_token_map};

/// The usual types of a lexer, with this crate's error.
pub type DefaultLexerTypes<T = u32> = lrlex_base::DefaultLexerTypes<T, LRLexError>;

/// The definition of a lexer that takes its whole input at once.
pub type NonStreamingLexerDef<L> = LRNonStreamingLexerDef<L>;
