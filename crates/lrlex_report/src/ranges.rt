//! What an editor underlines of a fault.
ghost use Rattle.std.specs.Prelude.{◌≡◌, ◌+◌, ◌≤◌, IsCharBoundary, drop, length, take};
ghost use Rattle.lrlex_base.specs.Spans.{Fits, as_span, span_end, span_start};
ghost use Rattle.lrlex_parser.specs.Declaration.{first_word};
ghost use Rattle.lrlex_parser.specs.LexBuildError.{fault_spans};
ghost use Rattle.lrlex_parser.specs.Text.{trim_end};
ghost use Rattle.lrlex_report.specs.FaultRanges.{first_line, first_bytes, through_angle, before_blank, source_in, wrong_part, or_first_char, told_span, fault_range};

use crate::places::nearest;
use lrlex_base::{Span, Spanned, is_blank, is_line_sep, is_white_space};
use lrlex_parser::{LexBuildError, LexErrorKind};

/// The text up to the end of its first line.
pub(crate) fn first_line(text: &str) -> &str
    ensures value { result.now ≡ first_line text.now }
    ensures front { result.now ≡ take (length result.now) text.now }
    ensures bound { length result.now ≤ length text.now }
{
    match text.find(|c: char| is_line_sep(c)) {
        Some(end) => text.split_at(end).0,
        None => text,
    }
}

/// The text up to its first white space.
fn first_word(text: &str) -> &str
    ensures value { result.now ≡ first_word text.now }
    ensures front { result.now ≡ take (length result.now) text.now }
    ensures bound { length result.now ≤ length text.now }
{
    match text.find(|c: char| is_white_space(c)) {
        Some(end) => text.split_at(end).0,
        None => text,
    }
}

/// The text without the white space at its end.
pub(crate) fn trim_end(text: &str) -> &str
    ensures value { result.now ≡ trim_end text.now }
    ensures front { result.now ≡ take (length result.now) text.now }
    ensures bound { length result.now ≤ length text.now }
{
    text.trim_end_matches(|c: char| is_white_space(c))
}

/// The first bytes of the text, so many, and no part of a character.
pub(crate) fn first_bytes(text: &str, len: usize) -> &str
    ensures value { result.now ≡ first_bytes len text.now }
    ensures front { result.now ≡ take (length result.now) text.now }
    ensures bound { length result.now ≤ length text.now }
{
    text.split_at(nearest(text, len)).0
}

/// The text up to its first `>`, and with it; all of it without one.
fn through_angle(text: &str) -> &str
    ensures value { result.now ≡ through_angle text.now }
    ensures front { result.now ≡ take (length result.now) text.now }
    ensures bound { length result.now ≤ length text.now }
{
    match text.split_once('>') {
        Some((_, after)) => text.split_at(text.len() - after.len()).0,
        None => text,
    }
}

/// The text before its last blank; all of it without one.
pub(crate) fn before_blank(text: &str) -> &str
    ensures value { result.now ≡ before_blank text.now }
    ensures front { result.now ≡ take (length result.now) text.now }
    ensures bound { length result.now ≤ length text.now }
{
    match text.rsplit_once(|c: char| is_blank(c)) {
        Some((before, _)) => before,
        None => text,
    }
}

/// The pattern of a rule's line with its list of start states, before the blank that separates it from the name.
pub(crate) fn source_in(line: &str) -> &str
    ensures value { result.now ≡ source_in line.now }
    ensures front { result.now ≡ take (length result.now) line.now }
    ensures bound { length result.now ≤ length line.now }
{
    trim_end(before_blank(trim_end(line)))
}

/// What is wrong of the line that begins at the place of a fault, whose span has so many bytes.
fn wrong_part<'t>(kind: &LexErrorKind, len: usize, line: &'t str) -> &'t str
    ensures value { result.now ≡ wrong_part kind.now len line.now }
    ensures front { result.now ≡ take (length result.now) line.now }
    ensures bound { length result.now ≤ length line.now }
{
    match kind {
        LexErrorKind::DuplicateStartState
        | LexErrorKind::DuplicateName
        | LexErrorKind::VerbatimNotSupported => first_bytes(line, len),
        LexErrorKind::InvalidStartStateName => first_word(line),
        LexErrorKind::UnknownStartState => through_angle(line),
        LexErrorKind::RegexError(_) => source_in(line),
        _ => trim_end(line),
    }
}

/// The part, or, if it is empty, the first character of the line that it is in.
fn or_first_char<'t>(line: &'t str, part: &'t str) -> &'t str
    requires front { part.now ≡ take (length part.now) line.now }
    requires bound { length part.now ≤ length line.now }
    ensures value { result.now ≡ or_first_char line.now part.now }
    ensures front { result.now ≡ take (length result.now) line.now }
    ensures bound { length result.now ≤ length line.now }
{
    if !part.is_empty() {
        return part;
    }
    let mut rest = line.chars();
    rest.next();
    line.split_at(line.len() - rest.as_str().len()).0
}

/// The span at which the message of a fault is shown.
pub(crate) fn told_span(fault: &LexBuildError) -> Span
    ensures { as_span result ≡ told_span (fault_spans fault.now) }
{
    match fault.spans() {
        [] => Span::new(0, 0),
        [only] => *only,
        [_, again, ..] => *again,
    }
}

/// What an editor underlines of an error of a rule text: from the place at which `fault_text` shows the message first, to the end
/// of what is wrong there, in bytes. It never goes past the line, and has at least one character if any follows on the line.
///
/// | Error | What is underlined |
/// |---|---|
/// | a name that is declared again, a line that begins with white space | the error's own span |
/// | a start state's name | the word |
/// | a start state that isn't declared | from `<` to `>` |
/// | a pattern that `regex` refuses | the pattern with its list of start states |
/// | all others | the rest of the line, without the white space at its end |
///
/// `rules` is the text that has the error. In another text it begins at the nearest place.
pub fn fault_range(rules: &str, fault: &LexBuildError) -> Span
    ensures value { as_span result ≡ fault_range rules.now fault.now }
    ensures fits { Fits rules.now result }
    ensures place { IsCharBoundary rules.now (told_span (fault_spans fault.now)).start
        → span_start result ≡ (told_span (fault_spans fault.now)).start }
    ensures line { span_end result
        ≤ span_start result + length (first_line (drop (span_start result) rules.now)) }
{
    let place = told_span(fault);
    let at = nearest(rules, place.start());
    let line = first_line(&rules[at..]);
    let part = or_first_char(line, wrong_part(fault.kind(), place.len(), line));
    Span::new(at, at + part.len())
}
