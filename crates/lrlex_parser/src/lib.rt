//! The parser of rule texts, and their faults.
#![tactic(auto)]

mod declaration;
mod duplicates;
mod escapes;
mod fatal;
mod faults;
mod laws;
mod lex_parser;
mod names;
mod rule_line;
mod sections;
mod survey;
mod text;

pub use crate::faults::{LexBuildError, LexBuildResult, LexErrorKind};
pub use crate::laws::line_laws;
pub use crate::lex_parser::{RuleFile, parse_rule_file};
pub use crate::survey::all_faults;
