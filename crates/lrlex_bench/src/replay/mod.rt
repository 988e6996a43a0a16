//! Replays cases, which are JSON: of a case with steps each is made and told, of another all that comes of its rules and its input.
mod building;
mod callers;
mod cases;
mod documents;
mod engines;
mod faults;
mod input;
mod items;
mod lexers;
mod lookups;
mod positions;
mod reports;
mod runs;
mod scanners;
mod steps;
mod whole_cases;

pub use crate::replay::input::replay_all;
