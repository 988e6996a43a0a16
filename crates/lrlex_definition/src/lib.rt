//! A definition as lexing looks it up: its rules and start states, and the tables of the rules that are active in each state.
#![tactic(auto)]

mod followers;
mod ids;
mod never;
mod row_kinds;
mod rule_table;
mod somewhere;
mod state_tables;

pub use crate::row_kinds::RowKind;
pub use crate::rule_table::{RuleTable, StateRules, usual_budget};
pub use crate::state_tables::{count_of_asked, count_of_rows, count_of_tables, most_tables};
