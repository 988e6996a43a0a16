//! The boundaries of a run with their stacks, and lists that have room: what lexing keeps, without rules and tables.
#![tactic(auto)]

mod boundaries;
mod entering;
pub mod room;
mod stretch;

pub use crate::boundaries::Boundaries;
pub use crate::entering::entered_by;
