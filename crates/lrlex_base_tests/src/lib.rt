//! Rows on `lrlex_base` and `lrlex_tokens`, through their public calls: classes, ids, places, lexemes, the text of a token module,
//! and running out of memory. Nothing here but tests.
#![tactic(auto)]

#[cfg(test)]
mod lexing;
#[cfg(test)]
mod memory;
#[cfg(test)]
mod places;
#[cfg(test)]
mod tokens;
#[cfg(test)]
mod values;
