//! The kinds of warnings, by their numbers.
ghost use Rattle.std.specs.Prelude.{◌≡◌, slice_get, pos, Some, MatchOption};
ghost use Rattle.lrlex_report.specs.WarningTexts.{warning_kinds, warning_message, warning_name};
ghost use Rattle.lrlex_handles.specs.Buffers.{IsWritten};
ghost use Rattle.lrlex_handles.specs.Warnings.{warning_number};

use crate::status::{NONE, OK};
use crate::texts::write_text;
use lrlex_report::WarningKind;

/// All kinds, each at its number.
static KINDS: [WarningKind; 18] = [
    WarningKind::NeverWins,
    WarningKind::NeverActive,
    WarningKind::LooksAround,
    WarningKind::NoTable,
    WarningKind::TargetInPattern,
    WarningKind::BlankAfterStates,
    WarningKind::LostEscape,
    WarningKind::EscapeAfterStates,
    WarningKind::LostAlternative,
    WarningKind::NameInPattern,
    WarningKind::QuotedPattern,
    WarningKind::BareOperator,
    WarningKind::LostCaret,
    WarningKind::GreedyDot,
    WarningKind::ClassOperator,
    WarningKind::UnknownClass,
    WarningKind::NeverEntered,
    WarningKind::NoRules,
];

/// The number of a kind.
pub(crate) fn number_of(kind: WarningKind) -> u32
    ensures number { result ≡ warning_number kind }
    ensures inverse { slice_get warning_kinds result ≡ Some kind }
{
    match kind {
        WarningKind::NeverWins => 0,
        WarningKind::NeverActive => 1,
        WarningKind::LooksAround => 2,
        WarningKind::NoTable => 3,
        WarningKind::TargetInPattern => 4,
        WarningKind::BlankAfterStates => 5,
        WarningKind::LostEscape => 6,
        WarningKind::EscapeAfterStates => 7,
        WarningKind::LostAlternative => 8,
        WarningKind::NameInPattern => 9,
        WarningKind::QuotedPattern => 10,
        WarningKind::BareOperator => 11,
        WarningKind::LostCaret => 12,
        WarningKind::GreedyDot => 13,
        WarningKind::ClassOperator => 14,
        WarningKind::UnknownClass => 15,
        WarningKind::NeverEntered => 16,
        WarningKind::NoRules => 17,
    }
}

/// The kind of a number, if there is one.
fn kind_at(number: u32) -> Option<WarningKind>
    ensures { result ≡ slice_get warning_kinds number }
{
    KINDS.get(number as usize).copied()
}

/// The name of the kind of this number, as `NeverWins`. As many bytes are written as there is room for.
pub fn warning_name(kind: u32, out: &mut [u8], len: &mut usize) -> i32
    ensures { MatchOption (slice_get warning_kinds kind) (result ≡ pos 5)
        (λ k. (result ≡ pos 0) × IsWritten (warning_name k) out.old out.new len.new) }
{
    match kind_at(kind) {
        None => NONE,
        Some(kind) => {
            write_text(kind.name(), out, len);
            OK
        }
    }
}

/// The message of the kind of this number: what is unusual, why, and what to write in its place, in English, without a full stop. As
/// many bytes are written as there is room for.
pub fn warning_text(kind: u32, out: &mut [u8], len: &mut usize) -> i32
    ensures { MatchOption (slice_get warning_kinds kind) (result ≡ pos 5)
        (λ k. (result ≡ pos 0) × IsWritten (warning_message k) out.old out.new len.new) }
{
    match kind_at(kind) {
        None => NONE,
        Some(kind) => {
            write_text(kind.message(), out, len);
            OK
        }
    }
}
