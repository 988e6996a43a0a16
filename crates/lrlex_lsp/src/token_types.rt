//! The token types of the Language Server Protocol.
ghost use Rattle.std.specs.Prelude.{◌≡◌, is_some};
ghost use Rattle.lrlex_lsp.specs.Shown.{type_of};
ghost use Rattle.lrlex_lsp.specs.TokenTypes.{type_named};

use crate::guesses::Guess;
use std::alloc::{AllocError, Global};

/// The token types of version 3.17, in its order.
const TOKEN_TYPES: &str =
    "namespace type class enum interface struct typeParameter parameter variable property enumMember \
    event function method macro keyword modifier comment string number regexp operator decorator";

const VARIABLE: u32 = 8;

const KEYWORD: u32 = 15;

const COMMENT: u32 = 17;

const STRING: u32 = 18;

const NUMBER: u32 = 19;

const OPERATOR: u32 = 21;

/// The number of a token type: its place among the types that the server names to the client, from 0.
pub(crate) fn type_named(name: &str) -> Option<u32>
    ensures { result ≡ type_named name.now }
{
    let mut number = 0u32;
    for known in TOKEN_TYPES.split(' ') {
        if known == name {
            return Some(number);
        }
        number = number.saturating_add(1);
    }
    None
}

/// The number of the token type that a piece has which is guessed to be this.
pub(crate) fn type_of(guess: Guess) -> u32
    ensures { result ≡ type_of guess }
{
    match guess {
        Guess::Comment => COMMENT,
        Guess::Keyword => KEYWORD,
        Guess::Number => NUMBER,
        Guess::Text => STRING,
        Guess::Name => VARIABLE,
        Guess::Operator => OPERATOR,
    }
}

/// Whether this is the name of a token type of the protocol (3.17), as `keyword`.
pub fn is_token_type(name: &str) -> bool
    ensures { result ≡ is_some (type_named name.now) }
{
    type_named(name).is_some()
}

/// The token types as a list of JSON has them, without its brackets and outer quotes.
pub(crate) fn legend(alloc: Global) -> Result<String, AllocError> {
    TOKEN_TYPES.replace(alloc, ' ', "\",\"")
}
