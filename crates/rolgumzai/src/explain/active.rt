//! The rules that are active in a start state, and how much each matches.
use crate::files::Definition;
use lrlex::Rule;
use lrlex_matching::match_len;
use std::alloc::{AllocError, Global};

/// A rule that is active.
#[derive(Clone, Copy)]
pub struct Active {
    /// Its place among the rules, from 0.
    pub rule: usize,
    /// How many bytes it matches; 0 for no match, and for one of no bytes, which never wins.
    pub len: usize,
}

/// How many bytes of the text a rule matches. That it takes one search isn't told.
fn len_of(alloc: Global, rule: &Rule<u32>, text: &str) -> Result<usize, AllocError> {
    let mut matcher = rule.matcher(alloc)?;
    let mut asked = 0;
    Ok(match_len(&mut matcher, text, &mut asked))
}

/// The rules that are active in a start state, in the order of the file, with how much of the text each matches.
pub fn active_in(
    alloc: Global,
    definition: &Definition,
    state: usize,
    text: &str,
) -> Result<Vec<Active>, AllocError> {
    let rules = definition.rules();
    let mut active = Vec::new(alloc);
    for place in definition.active_rules(state) {
        if let Some(rule) = rules.get(*place) {
            let len = len_of(alloc, rule, text)?;
            active.push(Active { rule: *place, len })?;
        }
    }
    Ok(active)
}
