//! The grammar's tokens with their ids, and the rules that cut a line into them.
use crate::rules::Definition;
use lrlex::LexerDef;
use std::alloc::{AllocError, Global};
use std::collections::HashMap;

pub const NUMBER: u32 = 3;

pub const PLUS: u32 = 5;

pub const MINUS: u32 = 6;

pub const TIMES: u32 = 7;

pub const OVER: u32 = 8;

pub const OPEN: u32 = 11;

pub const CLOSE: u32 = 12;

/// The map of a grammar, as the maker of a parser gives it: each token's name, and its id.
const TOKENS: [(&str, u32); 7] = [
    ("number", NUMBER),
    ("+", PLUS),
    ("-", MINUS),
    ("*", TIMES),
    ("/", OVER),
    ("(", OPEN),
    (")", CLOSE),
];

/// The rules that cut a line.
pub const RULES: &str = r#"%%
[0-9]+ 'number'
\+ '+'
\- '-'
\* '*'
/ '/'
\( '('
\) ')'
[ \t]+ ;
"#;

/// The map as a table.
fn ids_of(
    alloc: Global,
    tokens: &[(&'static str, u32)],
) -> Result<HashMap<&'static str, u32>, AllocError> {
    let mut ids = HashMap::new(alloc);
    for (name, id) in tokens {
        ids.insert(*name, *id)?;
    }
    Ok(ids)
}

/// Gives the rules the grammar's ids. Whether neither has a token that the other lacks.
pub fn give_ids(alloc: Global, definition: &mut Definition) -> Result<bool, AllocError> {
    let ids = ids_of(alloc, &TOKENS)?;
    let (lacking, unused) = definition.set_rule_ids(alloc, &ids)?;
    Ok(lacking.is_none() && unused.is_none())
}
