//! Lexing again after an edit: a run takes over the tiles before the edit and those after it.
pub(crate) mod changes;
pub(crate) mod document;
pub(crate) mod relex;
pub(crate) mod restart;
