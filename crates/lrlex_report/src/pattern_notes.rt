//! What the message of a pattern that `regex` refuses ends with: the mistake that it usually comes of, and what to write.
ghost use Rattle.std.specs.Prelude.{◌≡◌};
ghost use Rattle.lrlex_parser.specs.Escape.{ends_in_escape};
ghost use Rattle.lrlex_report.specs.PatternNotes.{pattern_of, escape_note, is_braced_number, has_braced_number, number_note, class_note, begins_name, has_braced_name, braces_note, is_operator, are_operators, are_some_operators, ends_operators, quotes_operators, quotes_note, repeats_nothing, operator_note};

use crate::ranges::{before_blank, source_in, trim_end};
use crate::warnings::class_operators::has_class_operator;

/// The pattern of a rule's line, without its list of start states.
pub(crate) fn pattern_of(line: &str) -> &str
    ensures { result.now ≡ pattern_of line.now }
{
    let source = source_in(line);
    if !source.starts_with("<") {
        return source;
    }
    match source.split_once('>') {
        Some((_, pattern)) => pattern,
        None => "",
    }
}

/// Whether a text ends in an odd number of backslashes.
fn ends_in_escape(text: &str) -> bool
    ensures { result ≡ ends_in_escape text.now }
{
    let mut escaped = false;
    for b in text.as_bytes() {
        escaped = *b == b'\\' && !escaped;
    }
    escaped
}

/// Tells that the pattern of this line ends in a backslash, if it does.
pub(crate) fn escape_note(line: &str) -> &'static str
    ensures { result.now ≡ escape_note line.now }
{
    if ends_in_escape(before_blank(trim_end(line))) {
        ": the pattern ends in a backslash; write [ ] for a blank, \\\\ for a backslash"
    } else {
        ""
    }
}

/// Whether a character's number in braces begins behind a backslash, as `u{1F600}`.
fn is_braced_number(c: u8, rest: &[u8]) -> bool
    ensures { result ≡ is_braced_number c rest.now }
{
    match c {
        b'x' | b'u' | b'U' => rest.first().is_some_and(|b| *b == b'{'),
        _ => false,
    }
}

/// Whether a pattern has a character by its number in braces.
fn has_braced_number(pattern: &[u8]) -> bool
    ensures { result ≡ has_braced_number pattern.now }
{
    let mut rest = pattern;
    while let [b, c, after @ ..] = rest {
        if *b != b'\\' {
            rest = &rest[1..];
            continue;
        }
        if is_braced_number(*c, after) {
            return true;
        }
        rest = after;
    }
    false
}

/// Tells that the backslash before a character's number in braces is dropped, if the pattern has one and no list of start states.
pub(crate) fn number_note(source: &str) -> &'static str
    ensures { result.now ≡ number_note source.now }
{
    if !source.starts_with("<") && has_braced_number(source.as_bytes()) {
        ": \\x{..} and \\u{..} lose their backslash in a rule without start states; write \\U0001F600, or <INITIAL>\\u{1F600}"
    } else {
        ""
    }
}

/// Tells what begins another class or is an operation on sets, if the pattern has an operator within a class of characters.
pub(crate) fn class_note(pattern: &str) -> &'static str
    ensures { result.now ≡ class_note pattern.now }
{
    if has_class_operator(pattern.as_bytes()) {
        ": in a class [ begins another, and --, && and ~~ are operations on sets; write a backslash before the character, as \\[ or \\-"
    } else {
        ""
    }
}

/// Whether a brace and a letter begin a name, where `before` is the byte before them, or 0. After a letter or a backslash they are
/// part of an escape, or a character.
fn begins_name(before: u8, b: u8, c: u8) -> bool
    ensures { result ≡ begins_name before b c }
{
    b == b'{' && c.is_ascii_alphabetic() && !(before.is_ascii_alphabetic() || before == b'\\')
}

/// Whether a pattern has a name in braces, as flex has it.
fn has_braced_name(pattern: &[u8]) -> bool
    ensures { result ≡ has_braced_name 0 pattern.now }
{
    let mut before = 0;
    let mut rest = pattern;
    while let [b, c, ..] = rest {
        if begins_name(before, *b, *c) {
            return true;
        }
        before = *b;
        rest = &rest[1..];
    }
    false
}

/// Tells that a name in braces stands for no pattern, if the pattern has one.
pub(crate) fn braces_note(pattern: &str) -> &'static str
    ensures { result.now ≡ braces_note pattern.now }
{
    if has_braced_name(pattern.as_bytes()) {
        ": a name in braces stands for no pattern; write the pattern in its place"
    } else {
        ""
    }
}

/// Whether the byte is an operator of patterns, or a quote.
fn is_operator(byte: u8) -> bool
    ensures { result ≡ is_operator byte }
{
    match byte {
        b'*' | b'+' | b'?' | b'{' | b'}' | b'(' | b')' | b'[' | b']' | b'|' | b'^' | b'$' | b'"' =>
            true,
        _ => false,
    }
}

/// Whether a pattern is operators alone.
fn are_operators(pattern: &str) -> bool
    ensures { result ≡ are_operators pattern.now }
{
    pattern.as_bytes().iter().all(|b| is_operator(*b))
}

/// Whether these are some operators, and nothing else.
fn are_some_operators(text: &str) -> bool
    ensures { result ≡ are_some_operators text.now }
{
    !text.is_empty() && are_operators(text)
}

/// Whether operators alone, and some, are before the next quote.
fn ends_operators(rest: &str) -> bool
    ensures { result ≡ ends_operators rest.now }
{
    match rest.split_once('"') {
        Some((inside, _)) => are_some_operators(inside),
        None => false,
    }
}

/// Whether a pattern begins with operators in quotes, as flex has them.
fn quotes_operators(pattern: &str) -> bool
    ensures { result ≡ quotes_operators pattern.now }
{
    match pattern.strip_prefix('"') {
        Some(rest) => ends_operators(rest),
        None => false,
    }
}

/// Tells that quotes are part of the pattern, if it begins with operators in quotes.
pub(crate) fn quotes_note(pattern: &str) -> &'static str
    ensures { result.now ≡ quotes_note pattern.now }
{
    if quotes_operators(pattern) {
        ": the quotes are part of the pattern; leave them out, and write operators with a backslash, as \\("
    } else {
        ""
    }
}

/// Whether a pattern begins with an operator that repeats what is before it.
fn repeats_nothing(pattern: &str) -> bool
    ensures { result ≡ repeats_nothing pattern.now }
{
    pattern.starts_with("*")
        || pattern.starts_with("+")
        || pattern.starts_with("?")
        || pattern.starts_with("{")
}

/// How to write an operator as a character, if the pattern begins with one that repeats nothing, or is operators alone.
pub(crate) fn operator_note(pattern: &str) -> &'static str
    ensures { result.now ≡ operator_note pattern.now }
{
    if repeats_nothing(pattern) || are_operators(pattern) {
        ": write a backslash before each operator to match its character, as \\+ or \\("
    } else {
        ""
    }
}
