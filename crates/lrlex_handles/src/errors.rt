//! The faults of a refused rule text, and where they are.
ghost use Rattle.std.specs.Prelude.{◌≡◌, ◌↔◌, length, option_map, slice_get, pos, None, Some, MatchOption};
ghost use Rattle.std.specs.Option.{option_map_or};
ghost use Rattle.lrlex_base.specs.Places.{AreBreaksOf};
ghost use Rattle.lrlex_report.specs.FaultTexts.{fault_name};
ghost use Rattle.lrlex_handles.specs.Buffers.{IsWritten};
ghost use Rattle.lrlex_handles.specs.Faults.{kind_number, fault_names, fault_by, span_by, fault_at, fault_span_at};
ghost use Rattle.lrlex_handles.specs.Objects.{fault_in, refusal_in};
ghost use Rattle.lrlex_handles.specs.declared.object.Object.TheVariants.{Refusal as Refused};

use crate::handle::{Handle, with_object};
use crate::object::{Object, Refusal};
use crate::places::place_at;
use crate::status::{MISUSE, NONE, OK};
use crate::structs::{Fault, FaultSpan};
use crate::texts::write_text;
use lrlex::{LexBuildError, LexErrorKind, NewlineCache, Span, Spanned};
use std::alloc::Global;
use std::str;

/// The names of the kinds, each at its number.
static NAMES: [&str; 13] = [
    "PrematureEnd",
    "RoutinesNotSupported",
    "UnknownDeclaration",
    "MissingSpace",
    "InvalidName",
    "UnknownStartState",
    "DuplicateStartState",
    "InvalidStartState",
    "InvalidStartStateName",
    "DuplicateName",
    "RegexError",
    "VerbatimNotSupported",
    "TooManyRules",
];

/// The number of a kind.
fn kind_of(kind: &LexErrorKind) -> u32
    ensures number { result ≡ kind_number kind.now }
    ensures named { slice_get fault_names result ≡ Some (fault_name kind.now) }
{
    match kind {
        LexErrorKind::PrematureEnd => 0,
        LexErrorKind::RoutinesNotSupported => 1,
        LexErrorKind::UnknownDeclaration => 2,
        LexErrorKind::MissingSpace => 3,
        LexErrorKind::InvalidName => 4,
        LexErrorKind::UnknownStartState => 5,
        LexErrorKind::DuplicateStartState => 6,
        LexErrorKind::InvalidStartState => 7,
        LexErrorKind::InvalidStartStateName => 8,
        LexErrorKind::DuplicateName => 9,
        LexErrorKind::RegexError(_) => 10,
        LexErrorKind::VerbatimNotSupported => 11,
        LexErrorKind::TooManyRules => 12,
    }
}

/// The name of the kind of a number, if there is one.
fn name_at(number: u32) -> Option<&'static str>
    ensures { option_map (λ t. t.now) result ≡ slice_get fault_names number }
{
    NAMES.get(number as usize).copied()
}

/// The name of the kind of this number, as `DuplicateName`. As many bytes are written as there is room for.
pub fn fault_name(kind: u32, out: &mut [u8], len: &mut usize) -> i32
    ensures { MatchOption (slice_get fault_names kind) (result ≡ pos 5)
        (λ name. (result ≡ pos 0) × IsWritten name out.old out.new len.new) }
{
    match name_at(kind) {
        None => NONE,
        Some(name) => {
            write_text(name, out, len);
            OK
        }
    }
}

fn span_of(newlines: &NewlineCache, rules: &str, span: Span) -> FaultSpan
    requires { AreBreaksOf rules.now newlines.now }
    ensures { result ≡ span_by rules.now span }
{
    let place = place_at(newlines, rules, span.start());
    FaultSpan {
        start: span.start(),
        end: span.end(),
        line: place.line,
        column: place.column,
    }
}

fn fault_of(newlines: &NewlineCache, rules: &str, fault: &LexBuildError) -> Option<Fault>
    requires { AreBreaksOf rules.now newlines.now }
    ensures { result ≡ fault_by rules.now fault.now }
{
    let first = fault.spans().first()?;
    let span = span_of(newlines, rules, *first);
    Some(Fault {
        start: span.start,
        end: span.end,
        line: span.line,
        column: span.column,
        spans: fault.spans().len(),
        kind: kind_of(fault.kind()),
    })
}

fn count_in(object: &Object) -> usize
    ensures { result ≡ option_map_or (λ r. length r.1) (refusal_in (Some object.now)) 0 }
{
    match object {
        Object::Refusal(refusal) => refusal.faults.len(),
        _ => 0,
    }
}

/// How many faults the handle has.
pub fn fault_count(alloc: Global, handle: &mut Handle) -> usize
    ensures kept { handle.new.value ≡ handle.old.value }
    ensures count { result ≡ option_map_or (λ r. length r.1) (refusal_in handle.old.value) 0 }
{
    with_object!(alloc, handle, 0, |object| count_in(&object))
}

fn shown_fault(refusal: &Refusal, index: usize) -> Option<Fault>
    ensures { result ≡ fault_at (refusal_in (Some (Refused refusal.now))) index }
{
    let fault = refusal.faults.get(index)?;
    fault_of(&refusal.newlines, &refusal.rules, fault)
}

fn fault_in(object: &Object, index: usize, out: &mut Fault) -> i32
    ensures misused { result ≡ pos 4 ↔ refusal_in (Some object.now) ≡ None }
    ensures done { result ≡ pos 0 → Some out.new ≡ fault_at (refusal_in (Some object.now)) index }
    ensures none { result ≡ pos 5 → fault_at (refusal_in (Some object.now)) index ≡ None }
{
    match object {
        Object::Refusal(refusal) => match shown_fault(refusal, index) {
            None => NONE,
            Some(fault) => {
                *out = fault;
                OK
            }
        },
        _ => MISUSE,
    }
}

/// The fault at this index, from 0.
pub fn fault_at(alloc: Global, handle: &mut Handle, index: usize, out: &mut Fault) -> i32
    ensures kept { handle.new.value ≡ handle.old.value }
    ensures misused { result ≡ pos 4 ↔ refusal_in handle.old.value ≡ None }
    ensures done { result ≡ pos 0 → Some out.new ≡ fault_at (refusal_in handle.old.value) index }
    ensures none { result ≡ pos 5 → fault_at (refusal_in handle.old.value) index ≡ None }
{
    with_object!(
        alloc,
        handle,
        MISUSE,
        |object| fault_in(&object, index, out)
    )
}

fn shown_span(refusal: &Refusal, index: usize, span: usize) -> Option<FaultSpan>
    ensures { result ≡ fault_span_at (refusal_in (Some (Refused refusal.now))) index span }
{
    let fault = refusal.faults.get(index)?;
    let found = fault.spans().get(span)?;
    Some(span_of(&refusal.newlines, &refusal.rules, *found))
}

fn span_in(object: &Object, index: usize, span: usize, out: &mut FaultSpan) -> i32
    ensures misused { result ≡ pos 4 ↔ refusal_in (Some object.now) ≡ None }
    ensures done { result ≡ pos 0 → Some out.new
        ≡ fault_span_at (refusal_in (Some object.now)) index span }
    ensures none { result ≡ pos 5 → fault_span_at (refusal_in (Some object.now)) index span
        ≡ None }
{
    match object {
        Object::Refusal(refusal) => match shown_span(refusal, index, span) {
            None => NONE,
            Some(found) => {
                *out = found;
                OK
            }
        },
        _ => MISUSE,
    }
}

/// A span of the fault at this index, both from 0.
pub fn fault_span_at(
    alloc: Global,
    handle: &mut Handle,
    index: usize,
    span: usize,
    out: &mut FaultSpan,
) -> i32
    ensures kept { handle.new.value ≡ handle.old.value }
    ensures misused { result ≡ pos 4 ↔ refusal_in handle.old.value ≡ None }
    ensures done { result ≡ pos 0 → Some out.new
        ≡ fault_span_at (refusal_in handle.old.value) index span }
    ensures none { result ≡ pos 5 → fault_span_at (refusal_in handle.old.value) index span
        ≡ None }
{
    with_object!(
        alloc,
        handle,
        MISUSE,
        |object| span_in(&object, index, span, out)
    )
}
