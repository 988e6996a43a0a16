//! Documents: texts that are edited.
use lrlex::DefaultLexerTypes;

pub mod editing;
pub mod entering;
pub mod making;
pub mod offsets;
pub mod pieces;
pub mod places;
pub mod text;
pub mod tokens;

pub(crate) type Document<'d> = lrlex::Document<'d, DefaultLexerTypes<u32>>;
