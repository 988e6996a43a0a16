//! What the program `lrlex_bench` needs besides lexing: its words and the texts that they name, times, and the lines
//! that it prints. Nothing here lexes.
mod clock;
mod faults;
mod figures;
mod memory;
mod spread;
mod tasks;
mod telling;
mod texts;
mod words;

pub use crate::timing::clock::Watch;
pub use crate::timing::faults::Fault;
pub use crate::timing::spread::{Spread, spread_of};
pub use crate::timing::tasks::{Request, Task, asked};
pub use crate::timing::telling::{
    Counts, Relexed, Scanned, Sizes, Typed, tell_anew, tell_bytes, tell_peak, tell_tiles,
    tell_usage,
};
pub use crate::timing::texts::{boundary_from, lexemes, tell_lines};
