//! The rule file, for showing the lines of rules.
use crate::files::Definition;
use crate::shown::{push_first, push_shown};
use lrlex::LineCursor;
use std::alloc::AllocError;

/// How many characters of a pattern are shown.
const MOST: usize = 80;

/// A rule file: its name, its text, and its definition.
#[derive(Clone, Copy)]
pub struct RuleFile<'a> {
    pub file: &'a str,
    pub text: &'a str,
    pub definition: &'a Definition,
}

/// Whether this ends a line of a rule file.
fn is_line_end(c: char) -> bool {
    matches!(c, '\n' | '\u{b}' | '\r' | '\u{2028}' | '\u{2029}')
}

/// What follows the last end of a line.
fn last_line(text: &str) -> &str {
    match text.rsplit_once(|c: char| is_line_end(c)) {
        Some((_, line)) => line,
        None => text,
    }
}

/// What precedes the first end of a line.
fn first_line(text: &str) -> &str {
    match text.split_once(|c: char| is_line_end(c)) {
        Some((line, _)) => line,
        None => text,
    }
}

/// The line of a rule up to its name, parted behind the pattern, which is before the last blank.
fn parted(front: &str) -> (&str, &str) {
    let pattern = front.trim_end_matches(|c: char| c != ' ' && c != '\t');
    front
        .split_at_checked(pattern.trim_end().len())
        .unwrap_or(("", front))
}

impl RuleFile<'_> {
    /// The byte at which the rule at this place among the rules is named.
    fn name_at(self, rule: usize) -> usize {
        match self.definition.rules().get(rule) {
            Some(rule) => rule.name_span().start(),
            None => 0,
        }
    }

    /// The number of a rule's line, from 1. The cursor, one of the rule text, moves there.
    pub fn number_of(self, cursor: &mut LineCursor<'_>, rule: usize) -> usize {
        cursor.place(self.name_at(rule)).0
    }

    /// Adds the line of a rule. Of a long pattern, with its list of start states, only the first characters are shown.
    pub fn push_line(self, shown: &mut String, rule: usize) -> Result<(), AllocError> {
        let at = self.name_at(rule);
        let (front, back) = self.text.split_at_checked(at).unwrap_or(("", ""));
        let (pattern, target) = parted(last_line(front));
        push_first(shown, pattern, MOST)?;
        push_shown(shown, target)?;
        push_shown(shown, first_line(back).trim_end())
    }
}
