//! Rules, start states and flags: which rules are active in a state, ids by name, how much of a text a rule matches, and the error
//! that stops lexing.
#![tactic(auto)]

mod active;
mod active_lists;
mod errors;
mod flags;
mod ids;
mod kinds;
mod laws;
mod lookups;
mod matchers;
mod names;
mod rules;
mod states;

pub use crate::active::{are_placed, has_state, lacks_id, lexeme_id, position_of};
pub use crate::active_lists::lists_for;
pub use crate::errors::LRLexError;
pub use crate::flags::{
    DEFAULT_LEX_FLAGS, LexFlags, UNSPECIFIED_LEX_FLAGS, allows_comments, has_posix_escapes,
    resolved,
};
pub use crate::ids::{names_without_id, names_without_rule, places_without_id, take_ids};
pub use crate::kinds::{Kind, kind_of};
pub use crate::laws::{flag_laws, operation_laws};
pub use crate::lookups::{first_named, first_with_id};
pub use crate::matchers::{empty_matchers, match_rule};
pub use crate::names::{have_own_ids, name_of};
pub use crate::rules::Rule;
pub use crate::states::{StartState, StartStateId, StartStateOperation};
