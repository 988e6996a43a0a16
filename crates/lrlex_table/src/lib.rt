//! Tables for a list of patterns, as few as can be had within a budget. A table finds the longest match of its patterns in one
//! walk over the text.
#![tactic(auto)]

mod ahead;
mod budget;
mod cached_table;
mod chain;
mod chaining;
mod checking;
mod dead_ends;
mod determinize;
mod group;
mod hash;
mod index;
mod lanes;
mod linear;
mod looking;
mod marking;
mod marks;
mod merged_tables;
mod never;
mod nfa;
mod pattern_table;
mod product;
mod source;
mod step;
mod table;
mod tables;
mod walk;

pub use budget::Budget;
pub use cached_table::CachedTable;
pub use chain::Chain;
pub use chaining::chain_for;
pub use dead_ends::{DeadEnd, DeadEnds};
pub use looking::{MatchAhead, MatchesAhead};
pub use marks::{Mark, Name};
pub use merged_tables::{Part, joined_tables, tables_between};
pub use never::may_win_in;
pub use pattern_table::table_of;
pub use source::Source;
pub use table::Table;
pub use tables::Tables;
pub use walk::{PatternMatch, TableScan};
