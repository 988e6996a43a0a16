//! What a piece of a text is to its reader.
use lrlex::Piece;
use lrlex_lsp::{Guess, guessed};

/// What a piece is shown as: what precedes it in a page of HTML, and what precedes it for a terminal (ECMA-48, select graphic
/// rendition). Both are empty where it is plain.
#[derive(Clone, Copy)]
pub struct Class {
    pub html: &'static str,
    pub terminal: &'static str,
}

pub const PLAIN: Class = Class {
    html: "",
    terminal: "",
};

pub const COMMENT: Class = Class {
    html: "<span class=\"comment\">",
    terminal: "\u{1b}[90m",
};

pub const KEYWORD: Class = Class {
    html: "<span class=\"keyword\">",
    terminal: "\u{1b}[31m",
};

pub const NUMBER: Class = Class {
    html: "<span class=\"number\">",
    terminal: "\u{1b}[34m",
};

pub const TEXT: Class = Class {
    html: "<span class=\"text\">",
    terminal: "\u{1b}[32m",
};

pub const TYPE: Class = Class {
    html: "<span class=\"type\">",
    terminal: "\u{1b}[33m",
};

pub const FUNCTION: Class = Class {
    html: "<span class=\"function\">",
    terminal: "\u{1b}[35m",
};

pub const NAME: Class = Class {
    html: "<span class=\"name\">",
    terminal: "\u{1b}[36m",
};

/// What the rules don't cut, after the last piece.
pub const REST: Class = Class {
    html: "<span class=\"rest\">",
    terminal: "\u{1b}[41m",
};

/// What a piece is shown as that is guessed to be this. Names and signs are plain.
fn class_of_guess(guess: Guess) -> Class {
    match guess {
        Guess::Comment => COMMENT,
        Guess::Keyword => KEYWORD,
        Guess::Number => NUMBER,
        Guess::Text => TEXT,
        Guess::Name | Guess::Operator => PLAIN,
    }
}

/// What a piece is shown as by the name of its rule and by its text.
pub fn class_of(piece: &Piece<'_, '_>) -> Class {
    match guessed(piece.name, piece.text) {
        Some(guess) => class_of_guess(guess),
        None => PLAIN,
    }
}
