//! The text of a Rust module that names the ids of a parser's tokens.
#![tactic(auto)]

mod token_map;
mod token_map_fault;
mod token_text;
mod tokens;

pub use crate::token_map::{CTTokenMapBuilder, ct_token_map};
pub use crate::token_map_fault::TokenMapFault;
