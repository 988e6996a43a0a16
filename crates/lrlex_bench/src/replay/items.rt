//! Lexemes and errors of `lrlex`, as facts.
use crate::replay::cases::facts::{Item, tell_item};
use crate::replay::cases::told::Told;
use lrlex::{DefaultLexeme, LRLexError};
use lrlex_base::{LexError, Lexeme};

/// An error, as plain numbers.
pub fn error_seen(error: &LRLexError) -> Item {
    let state = match error.lexing_state() {
        Some(state) => Some(state.id()),
        None => None,
    };
    Item::Error(error.span(), state)
}

/// A lexeme or an error, as plain numbers, whatever the type of its id.
macro_rules! seen {
    ($item:expr) => {
        match $item {
            Ok(lexeme) => Item::Lexeme(u64::from(lexeme.tok_id()), lexeme.span()),
            Err(error) => error_seen(error),
        }
    };
}

/// A lexeme or an error, as plain numbers.
pub fn item_seen(item: &Result<DefaultLexeme<u32>, LRLexError>) -> Item {
    seen!(item)
}

/// The same with an id of type `u8`.
pub fn item_seen_u8(item: &Result<DefaultLexeme<u8>, LRLexError>) -> Item {
    seen!(item)
}

/// The same with an id of type `u16`.
pub fn item_seen_u16(item: &Result<DefaultLexeme<u16>, LRLexError>) -> Item {
    seen!(item)
}

/// Tells lexemes and errors.
pub fn tell_items(told: &mut Told, items: &[Result<DefaultLexeme<u32>, LRLexError>]) {
    told.list("items");
    for item in items {
        tell_item(told, item_seen(item));
    }
    told.close();
}
