//! What is read of a text that is lexed: the lexer with its items, spans and places, and pieces.
pub(crate) mod lexer;
pub(crate) mod pieces;
