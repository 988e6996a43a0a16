//! A rule's pattern as the text has it, and what in a pattern is hardly meant.
ghost use Rattle.std.specs.Prelude.{◌≡◌, ◌+◌, ◌≤◌, false, IsCharBoundary, length, take};
ghost use Rattle.lrlex_parser.specs.RuleLine.{target_name};
ghost use Rattle.lrlex_report.specs.Warnings.{whole_lines_of, line_start, source_of, is_state_name_of, ends_in, goes_on, is_target_of, ends_in_target, begins_blank, is_unmeant, has_unmeant, are_flags, after_flags, in_group, ungrouped};

use crate::ranges::{before_blank, first_bytes, trim_end};
use lrlex_base::is_line_sep;
use lrlex_rules::StartState;

/// The text up to its last line separator, and with it.
fn whole_lines(text: &str) -> &str
    ensures value { result.now ≡ whole_lines_of text.now }
    ensures front { result.now ≡ take (length result.now) text.now }
    ensures bound { length result.now ≤ length text.now }
{
    text.trim_end_matches(|c: char| !is_line_sep(c))
}

/// Where the line of a rule begins, and its pattern with its list of start states, where this is the place of its name.
pub(crate) fn source_of(rules: &str, name: usize) -> (usize, &str)
    ensures start { result.0 ≡ line_start rules.now name }
    ensures source { result.1.now ≡ source_of rules.now name }
    ensures bound { result.0 + length result.1.now ≤ length rules.now }
    ensures begin { IsCharBoundary rules.now result.0 }
    ensures end { IsCharBoundary rules.now (result.0 + length result.1.now) }
{
    let front = first_bytes(rules, name);
    let start = whole_lines(front).len();
    (start, trim_end(before_blank(&front[start..])))
}

/// What follows `+` or `-`, if the text begins with one of them.
fn target_name(text: &str) -> &str
    ensures { result.now ≡ target_name text.now }
{
    if let Some(name) = text.strip_prefix('+') {
        return name;
    }
    if let Some(name) = text.strip_prefix('-') {
        return name;
    }
    text
}

/// Whether a start state has this name.
fn is_state_name(states: &[StartState], name: &str) -> bool
    ensures { result ≡ is_state_name_of states.now name.now }
{
    states.iter().any(|state| state.name() == name)
}

/// Whether this is the text's last byte.
pub(crate) fn ends_in(byte: u8, text: &str) -> bool
    ensures { result ≡ ends_in byte text.now }
{
    let bytes = text.as_bytes();
    !bytes.is_empty() && bytes[bytes.len() - 1] == byte
}

/// Whether there is a text, and it doesn't end in a backslash.
fn goes_on(front: &str) -> bool
    ensures { result ≡ goes_on front.now }
{
    !front.is_empty() && !ends_in(b'\\', front)
}

/// Whether a text is a target of one of these start states, without its `<`.
fn is_target(states: &[StartState], part: &str) -> bool
    ensures { result ≡ is_target_of states.now part.now }
{
    ends_in(b'>', part) && is_state_name(states, target_name(&part[..part.len() - 1]))
}

/// Whether a pattern ends in a target of one of these start states.
pub(crate) fn ends_in_target(states: &[StartState], source: &str) -> bool
    ensures { result ≡ ends_in_target states.now source.now }
{
    match source.rsplit_once(|c: char| c == '<') {
        Some((front, part)) => goes_on(front) && is_target(states, part),
        None => false,
    }
}

/// Whether a pattern begins with a blank.
pub(crate) fn begins_blank(pattern: &str) -> bool
    ensures { result ≡ begins_blank pattern.now }
{
    pattern.starts_with(" ") || pattern.starts_with("\t")
}

/// Whether a backslash before this byte is hardly meant, where `rest` follows, in a rule with or without a list of start states.
fn is_unmeant(listed: bool, c: u8, rest: &[u8]) -> bool
    ensures { result ≡ is_unmeant listed c rest.now }
{
    if listed {
        return c == b'<' || c == b'>';
    }
    match c {
        b'a'
        | b'b'
        | b'f'
        | b'n'
        | b'r'
        | b't'
        | b'v'
        | b'p'
        | b'P'
        | b'd'
        | b'D'
        | b's'
        | b'S'
        | b'w'
        | b'W'
        | b'A'
        | b'z' => false,
        b'x' | b'u' | b'U' => !rest.first().is_some_and(|b| b.is_ascii_hexdigit()),
        _ => c.is_ascii_alphabetic(),
    }
}

/// Whether a pattern has an escape that is hardly meant, of a rule with or without a list of start states.
pub(crate) fn has_unmeant(listed: bool, pattern: &[u8]) -> bool
    ensures { result ≡ has_unmeant listed pattern.now }
{
    let mut rest = pattern;
    while let [b, c, after @ ..] = rest {
        if *b != b'\\' {
            rest = &rest[1..];
            continue;
        }
        if is_unmeant(listed, *c, after) {
            return true;
        }
        rest = after;
    }
    false
}

/// Whether a text is flags of a group, or none.
fn are_flags(text: &str) -> bool
    ensures { result ≡ are_flags text.now }
{
    let bytes = text.as_bytes();
    bytes.iter().all(|b| b.is_ascii_alphabetic() || *b == b'-')
}

/// What is in a group that captures nothing, where `rest` follows its `?`.
fn after_flags<'t>(inside: &'t str, rest: &'t str) -> &'t str
    ensures { result.now ≡ after_flags inside.now rest.now }
{
    match rest.split_once(':') {
        Some((flags, words)) if are_flags(flags) => words,
        Some(_) => inside,
        None => inside,
    }
}

/// What is in a group, after the flags of one that captures nothing.
fn in_group(inside: &str) -> &str
    ensures { result.now ≡ in_group inside.now }
{
    match inside.strip_prefix('?') {
        Some(rest) => after_flags(inside, rest),
        None => inside,
    }
}

/// A pattern without the group that it is, `(..)`, `(?:..)` or one with flags, as `(?i:..)`, if it is one.
pub(crate) fn ungrouped(pattern: &str) -> &str
    ensures { result.now ≡ ungrouped pattern.now }
{
    let Some(rest) = pattern.strip_prefix('(') else {
        return pattern;
    };
    if ends_in(b')', rest) {
        in_group(&rest[..rest.len() - 1])
    } else {
        pattern
    }
}
