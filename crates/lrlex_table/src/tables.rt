//! The tables of a list of patterns.
use crate::merged_tables::Part;

/// The tables of a list of patterns, and the places of the patterns that have none, which `regex` matches.
#[derive(Drop)]
pub struct Tables {
    pub(crate) parts: Vec<Part>,
    pub(crate) asked: Vec<usize>,
}
