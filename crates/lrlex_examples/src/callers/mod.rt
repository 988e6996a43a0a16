//! The callers that the CALLING.md files show.
pub mod base;
pub mod editing;
pub mod lending;
pub mod lexing;
pub mod listing;
pub mod marking;
pub mod modules;
pub mod reporting;
pub mod scanning;
pub mod tokens;
