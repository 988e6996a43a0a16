//! The parts of a case, read from JSON. What isn't there, or is of another kind, is read as nothing: as 0, as an empty text or list,
//! or as null. Whoever makes a case sees to its form.
use lrlex::{Budget, LexFlags, StartState, StartStateOperation, UNSPECIFIED_LEX_FLAGS};
use lrlex_base::Span;
use serde_json::Value;
use std::alloc::{AllocError, AllocFailed, Global};
use std::io;

/// Why a case can't be replayed.
#[derive(Clone, Copy)]
pub enum Trouble {
    Memory,
    Malformed,
}

impl From<AllocError> for Trouble {
    fn from(_fault: AllocError) -> Trouble {
        Trouble::Memory
    }
}

impl From<Trouble> for io::Error {
    fn from(trouble: Trouble) -> io::Error {
        match trouble {
            Trouble::Memory => io::Error::from(io::ErrorKind::OutOfMemory),
            Trouble::Malformed => io::Error::from(io::ErrorKind::InvalidData),
        }
    }
}

impl<T: Drop> From<AllocFailed<T>> for Trouble {
    fn from(_fault: AllocFailed<T>) -> Trouble {
        Trouble::Memory
    }
}

/// The bytes from the first number up to the second give way to the text.
pub type Change<'v> = (usize, usize, &'v str);

/// The parts of a rule beside its id.
#[derive(Drop)]
pub struct RuleParts {
    pub name: Option<String>,
    pub name_span: Span,
    pub re_str: String,
    pub start_states: Vec<usize>,
    pub target: Option<(usize, StartStateOperation)>,
}

/// The value of a text of JSON.
pub fn value_of(alloc: Global, text: &str) -> Result<Value, Trouble> {
    match Value::from_str(alloc, text) {
        Ok(value) => Ok(value),
        Err(fault) if fault.is_memory() => Err(Trouble::Memory),
        Err(_) => Err(Trouble::Malformed),
    }
}

/// The text of a value.
pub fn text_of(value: &Value) -> &str {
    value.as_str().unwrap_or("")
}

/// The elements of a list.
pub fn list_of(value: &Value) -> &[Value] {
    match value.as_array() {
        Some(list) => list.as_slice(),
        None => &[],
    }
}

/// The number, as a count.
pub fn count_of(value: &Value) -> usize {
    value.as_u64().unwrap_or(0) as usize
}

/// The text at this place of a list.
pub fn text_at(list: &[Value], place: usize) -> &str {
    match list.get(place) {
        Some(value) => text_of(value),
        None => "",
    }
}

/// The elements of the list at this place of a list.
pub fn list_at(list: &[Value], place: usize) -> &[Value] {
    match list.get(place) {
        Some(value) => list_of(value),
        None => &[],
    }
}

/// The count at this place of a list.
pub fn count_at(list: &[Value], place: usize) -> usize {
    match list.get(place) {
        Some(value) => count_of(value),
        None => 0,
    }
}

/// Whether it is true what stands at this place of a list.
pub fn is_true_at(list: &[Value], place: usize) -> bool {
    list.get(place).and_then(Value::as_bool) == Some(true)
}

/// The text that is this member.
pub fn text_in<'v>(value: &'v Value, name: &str) -> &'v str {
    match value.get(name) {
        Some(value) => text_of(value),
        None => "",
    }
}

/// The list that is this member.
pub fn list_in<'v>(value: &'v Value, name: &str) -> &'v [Value] {
    match value.get(name) {
        Some(value) => list_of(value),
        None => &[],
    }
}

/// The span of these ends, or an empty one where the second is before the first.
pub fn span_of(ends: &[Value]) -> Span {
    let (start, end) = (count_at(ends, 0), count_at(ends, 1));
    Span::new(start, end.max(start))
}

/// Whether the flag that is this member is set; none where it is unset.
fn flag_in(value: &Value, member: &str) -> Option<bool> {
    value.get(member)?.as_bool()
}

/// The number that is this member, if it is one.
pub(crate) fn number_in(value: &Value, name: &str) -> Option<u32> {
    u32::try_from(value.get(name)?.as_u64()?).ok()
}

/// The flags that are set.
fn flags_of(value: &Value) -> LexFlags {
    LexFlags {
        dot_matches_new_line: flag_in(value, "dot_matches_new_line"),
        multi_line: flag_in(value, "multi_line"),
        octal: flag_in(value, "octal"),
        posix_escapes: flag_in(value, "posix_escapes"),
        allow_wholeline_comments: flag_in(value, "allow_wholeline_comments"),
        case_insensitive: flag_in(value, "case_insensitive"),
        swap_greed: flag_in(value, "swap_greed"),
        ignore_whitespace: flag_in(value, "ignore_whitespace"),
        unicode: flag_in(value, "unicode"),
        nest_limit: number_in(value, "nest_limit"),
        ..UNSPECIFIED_LEX_FLAGS
    }
}

/// The flags of a case.
pub fn flags_in(case: &Value) -> LexFlags {
    match case.get("flags") {
        Some(flags) => flags_of(flags),
        None => UNSPECIFIED_LEX_FLAGS,
    }
}

/// The start state `[id, name, exclusive, [start, end]]`.
pub fn state_of(alloc: Global, value: &Value) -> Result<StartState, AllocError> {
    let parts = list_of(value);
    let (id, name) = (count_at(parts, 0), text_at(parts, 1));
    let (exclusive, span) = (is_true_at(parts, 2), span_of(list_at(parts, 3)));
    StartState::new(alloc, id, name, exclusive, span)
}

/// The counts of a list.
fn counts_of(alloc: Global, list: &[Value]) -> Result<Vec<usize>, AllocError> {
    list.iter().map(count_of).collect(alloc)
}

/// The operation of this name; the last of them is `Pop`.
fn operation_of(name: &str) -> StartStateOperation {
    match name {
        "ReplaceStack" => StartStateOperation::ReplaceStack,
        "Push" => StartStateOperation::Push,
        _ => StartStateOperation::Pop,
    }
}

/// The target `[id, operation]`, or none.
fn target_of(parts: &[Value]) -> Option<(usize, StartStateOperation)> {
    match parts {
        [id, operation] => Some((count_of(id), operation_of(text_of(operation)))),
        _ => None,
    }
}

/// The name of a rule, if it has one.
fn name_of(alloc: Global, value: &Value) -> Result<Option<String>, AllocError> {
    match value.get("name").and_then(Value::as_str) {
        Some(name) => Ok(Some(String::from_str(alloc, name)?)),
        None => Ok(None),
    }
}

/// The parts of a rule beside its id.
pub fn parts_of(alloc: Global, value: &Value) -> Result<RuleParts, AllocError> {
    let start_states = counts_of(alloc, list_in(value, "start_states"))?;
    let re_str = String::from_str(alloc, text_in(value, "re_str"))?;
    Ok(RuleParts {
        name: name_of(alloc, value)?,
        name_span: span_of(list_in(value, "name_span")),
        re_str,
        start_states,
        target: target_of(list_in(value, "target")),
    })
}

/// The budget `[rows, work]` that is this member, if there is one.
pub fn budget_in(value: &Value, name: &str) -> Option<Budget> {
    match list_in(value, name) {
        [rows, work] => Some(Budget::new(count_of(rows), count_of(work))),
        _ => None,
    }
}

/// The edit of these parts: `[from, to, text, ..]`.
pub fn change_of(parts: &[Value]) -> Change<'_> {
    (count_at(parts, 0), count_at(parts, 1), text_at(parts, 2))
}

/// The byte that is this number.
fn byte_of(value: &Value) -> u8 {
    u8::try_from(count_of(value)).unwrap_or(0)
}

/// The bytes of a file, each a number.
pub fn file_of(alloc: Global, list: &[Value]) -> Result<Vec<u8>, AllocError> {
    list.iter().map(byte_of).collect(alloc)
}
