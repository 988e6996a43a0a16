ghost use Rattle.std.specs.Prelude.{◌≡◌, ◌+◌, ◌^◌, ◌<◌, ◌≤◌, ◌∷◌, length, map, IfOk, IfSome};
ghost use Rattle.std.specs.Option.{option_map, option_copied};
ghost use Rattle.lrlex_parser.specs.RuleLine.{operation_of, target_name, state_id, target, is_unnamed, is_quoted_by, label_in, parts_of_word, split, listed_names, names_left, listed_ids, all_ids, state_ids, read_pattern};
ghost use Rattle.lrlex_parser.specs.LexParser.{as_states, as_fatal, as_label, as_parts, as_pattern, as_piece, seen, HasAngles, line_end, items_of};

use crate::escapes::unescape;
use crate::fatal::Fatal;
use crate::faults::LexErrorKind;
use crate::names::States;
use crate::text::{Line, split_last_blank, trim_end, trim_text};
use lrlex_base::Span;
use lrlex_rules::StartStateOperation;
use std::alloc::{AllocError, Global};

/// `<..>` at the front of a text.
#[derive(Clone, Copy)]
pub(crate) enum Angles<'a> {
    /// The text begins with another character than `<`.
    Absent,
    /// The text has no `>`.
    Open,
    /// What is inside, and what follows.
    Closed(&'a str, &'a str),
}

/// What is in `<..>` at the front of a text.
pub(crate) fn in_angles(text: &str) -> Angles<'_>
    ensures { HasAngles text.now result }
{
    let Some(rest) = text.strip_prefix('<') else {
        return Angles::Absent;
    };
    match rest.split_once('>') {
        Some((inside, after)) => Angles::Closed(inside, after),
        None => Angles::Open,
    }
}

/// What a rule does with the state of its target, and the state's name.
fn operation_of(text: &str) -> (StartStateOperation, &str)
    ensures operation { result.0 ≡ operation_of text.now }
    ensures name { result.1.now ≡ target_name text.now }
{
    if let Some(name) = text.strip_prefix('+') {
        return (StartStateOperation::Push, name);
    }
    if let Some(name) = text.strip_prefix('-') {
        return (StartStateOperation::Pop, name);
    }
    (StartStateOperation::ReplaceStack, text)
}

/// The id of the state with this name.
fn state_id(states: &States, name: &str) -> Option<usize>
    ensures { result ≡ state_id (as_states states.now) name.now }
{
    match states.named(name) {
        Some(state) => Some(state.id()),
        None => None,
    }
}

/// The target between the angles, in the word after the blank at this place.
fn target(states: &States, blank: usize, text: &str) -> Result<(usize, StartStateOperation), Fatal>
    requires { blank + 1 < 2 ^ 64 }
    ensures { seen (λ t. t) as_fatal result ≡ target (as_states states.now) blank text.now }
{
    let (operation, name) = operation_of(text);
    match state_id(states, name) {
        Some(state) => Ok((state, operation)),
        None => Err(Fatal {
            kind: LexErrorKind::UnknownStartState,
            at: blank + 1,
        }),
    }
}

/// Whether a name part names nothing.
fn is_unnamed(part: &str) -> bool
    ensures { result ≡ is_unnamed part.now }
{
    part == ";" || part == "\"\"" || part == "''"
}

/// Whether more than two bytes begin and end with this quote.
fn is_quoted_by(part: &str, quote: u8) -> bool
    ensures { result ≡ is_quoted_by quote part.now }
{
    let bytes = part.as_bytes();
    bytes.len() > 2 && bytes[0] == quote && bytes[bytes.len() - 1] == quote
}

/// A rule's name, or none, and where it is.
#[derive(Clone, Copy)]
pub(crate) struct Label<'a> {
    pub(crate) name: Option<&'a str>,
    pub(crate) span: Span,
}

/// The name in the part that ends at `end`, in the word after the blank at this place.
fn label_in(blank: usize, end: usize, part: &str) -> Result<Label<'_>, Fatal>
    requires fits { end < 2 ^ 64 }
    requires room { blank + 1 + length part.now ≤ end }
    ensures { seen as_label as_fatal result ≡ label_in blank end part.now }
{
    if is_unnamed(part) {
        let span = Span::new(blank + 1, blank + 1);
        return Ok(Label { name: None, span });
    }
    if is_quoted_by(part, b'\'') || is_quoted_by(part, b'"') {
        let name = &part[1..part.len() - 1];
        let span = Span::new(end - part.len() + 1, end - 1);
        return Ok(Label {
            name: Some(name),
            span,
        });
    }
    Err(Fatal {
        kind: LexErrorKind::InvalidName,
        at: blank + 1,
    })
}

/// The parts of a rule line.
#[derive(Clone, Copy)]
pub(crate) struct Parts<'a> {
    pub(crate) head: &'a str,
    pub(crate) target: Option<(usize, StartStateOperation)>,
    pub(crate) label: Label<'a>,
}

/// The parts of a rule line with this head, and this word after the blank at this place.
fn parts_of_word<'a>(
    states: &States,
    head: &'a str,
    blank: usize,
    word: &'a str,
) -> Result<Parts<'a>, Fatal>
    requires { blank + 1 + length word.now < 2 ^ 64 }
    ensures { seen as_parts as_fatal result
        ≡ parts_of_word (as_states states.now) head.now blank word.now }
{
    let end = blank + 1 + word.len();
    match in_angles(word) {
        Angles::Absent => {
            let label = label_in(blank, end, word)?;
            Ok(Parts {
                head,
                target: None,
                label,
            })
        }
        Angles::Open => Err(Fatal {
            kind: LexErrorKind::InvalidStartState,
            at: blank,
        }),
        Angles::Closed(inside, part) => {
            let target = target(states, blank, inside)?;
            let label = label_in(blank, end, part)?;
            Ok(Parts {
                head,
                target: Some(target),
                label,
            })
        }
    }
}

/// The parts of a rule line around its last blank, or the line's first fault.
pub(crate) fn split<'a>(states: &States, line: Line<'a>) -> Result<Parts<'a>, Fatal>
    requires { line_end line < 2 ^ 64 }
    ensures { seen as_parts as_fatal result ≡ split (as_states states.now) (as_piece line.entry) }
{
    match split_last_blank(trim_end(line.text)) {
        Some((head, word)) => parts_of_word(states, head, line.at + head.len(), word),
        None => Err(Fatal {
            kind: LexErrorKind::MissingSpace,
            at: line.at,
        }),
    }
}

/// The first name of a start-state list, and what follows the comma after it, if there is one.
fn next_listed(names: &str) -> (&str, Option<&str>)
    ensures names { listed_names names.now ≡ result.0.now ∷ names_left (option_copied result.1) }
    ensures shorter { IfSome (option_copied result.1) (λ rest. length rest < length names.now) }
{
    match names.split_once(',') {
        Some((name, rest)) => (name, Some(rest)),
        None => (names, None),
    }
}

/// The ids of all these names, or none where one is not declared.
fn state_ids(alloc: Global, states: &States, names: &str) -> Result<Option<Vec<usize>>, AllocError>
    ensures { IfOk result (λ found. option_map items_of found
        ≡ state_ids (as_states states.now) (listed_names names.now)) }
{
    let mut ids = Vec::new(alloc);
    let mut left = Some(names);
    while let Some(rest) = left {
        let (name, more) = next_listed(rest);
        match state_id(states, trim_text(name)) {
            Some(id) => ids.push(id)?,
            None => return Ok(None),
        }
        left = more;
    }
    Ok(Some(ids))
}

/// The ids of all states.
fn all_ids(alloc: Global, states: &States) -> Result<Vec<usize>, AllocError>
    ensures { IfOk result (λ ids. ids.items ≡ all_ids (as_states states.now)) }
{
    let mut ids = Vec::new(alloc);
    for state in states.list.as_slice() {
        ids.push(state.id())?;
    }
    Ok(ids)
}

/// The ids that a list of names means: `*` alone means all states.
fn listed_ids(alloc: Global, states: &States, names: &str) -> Result<Option<Vec<usize>>, AllocError>
    ensures { IfOk result (λ found. option_map items_of found
        ≡ listed_ids (as_states states.now) (listed_names names.now)) }
{
    let (name, more) = next_listed(names);
    if more.is_some() || trim_text(name) != "*" {
        return state_ids(alloc, states, names);
    }
    let ids = all_ids(alloc, states)?;
    Ok(Some(ids))
}

/// A rule's start states, and its pattern.
#[derive(Drop)]
pub(crate) struct Pattern {
    pub(crate) start_states: Vec<usize>,
    pub(crate) text: String,
}

/// The start states and the pattern of a rule line. After a start-state list the escapes are not rewritten.
pub(crate) fn read_pattern(
    alloc: Global,
    states: &States,
    at: usize,
    head: &str,
    posix: bool,
) -> Result<Result<Pattern, Fatal>, AllocError>
    ensures { IfOk result (λ found. seen as_pattern as_fatal found
        ≡ read_pattern posix (as_states states.now) at head.now) }
{
    match in_angles(head) {
        Angles::Absent => {
            let text = unescape(alloc, head, posix)?;
            Ok(Ok(Pattern {
                start_states: Vec::new(alloc),
                text,
            }))
        }
        Angles::Open => Ok(Err(Fatal {
            kind: LexErrorKind::InvalidStartState,
            at,
        })),
        Angles::Closed(names, pattern) => {
            let Some(start_states) = listed_ids(alloc, states, names)? else {
                return Ok(Err(Fatal {
                    kind: LexErrorKind::UnknownStartState,
                    at,
                }));
            };
            let text = String::from_str(alloc, pattern)?;
            Ok(Ok(Pattern { start_states, text }))
        }
    }
}
