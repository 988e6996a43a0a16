//! `--map NAME=TOKENTYPE`: what the pieces of rules are shown as.
use crate::adding::{Kind, Word};
use lrlex_lsp::is_token_type;

/// What the pieces of a rule are shown as.
pub static MAP: [Word; 1] = [(
    "map",
    Kind::Values("NAME=TOKENTYPE"),
    "Shows the tokens of rule NAME as this token type of the Language Server Protocol, or as plain text where none is given",
)];

/// The name and the token type of a word: what is before its last `=`, since a name may have one, and what is after it, perhaps
/// nothing. Why the word is refused, if it is.
pub fn parted(word: &str) -> Result<(&str, &str), &'static str> {
    match word.rsplit_once('=') {
        Some((name, kind)) if kind.is_empty() || is_token_type(kind) => Ok((name, kind)),
        Some(_) => Err("the Language Server Protocol has no such token type"),
        None => Err("NAME=TOKENTYPE is wanted"),
    }
}
