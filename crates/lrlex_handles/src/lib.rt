//! What the C library does, for handles that a caller holds: definitions, the faults and warnings of rule texts, lexing, documents, and
//! scanners.
#![tactic(auto)]

pub mod checking;
pub mod definitions;
pub mod documents;
pub mod entering;
pub mod error_texts;
pub mod errors;
mod filling;
pub mod handle;
pub mod ids;
pub mod kinds;
pub mod lexing;
mod loose;
mod object;
pub mod places;
pub mod rules;
pub mod scanners;
pub mod states;
mod status;
pub mod stops;
pub mod structs;
mod taking;
mod texts;
pub mod warnings;
