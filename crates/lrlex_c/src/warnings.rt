//! The warnings of a rule text.
ghost use Rattle.std.specs.Prelude.{◌≡◌, ◌↔◌, slice_get, pos, None, IfSome, IsUtf8, MatchOption};
ghost use Rattle.lrlex_report.specs.WarningTexts.{warning_kinds, warning_message, warning_name};
ghost use Rattle.lrlex_handles.specs.Buffers.{IsReport, IsWritten};
ghost use Rattle.lrlex_handles.specs.Objects.{definition_in, table_in};
ghost use Rattle.lrlex_handles.specs.Warnings.{AreWarningsIn, IsWarningReport};

use lrlex_handles::handle::Handle;
use lrlex_handles::structs::Warning;
use lrlex_handles::{kinds, warnings};
use std::alloc::Global;

/// The warnings of the definition and the rule text that it was read from, as many as there is room for: first those of each start
/// state, then those of each rule, in order. With another text the nearest places are told.
#[unsafe(no_mangle)]
pub extern "C" fn lrlex_warnings(
    alloc: Global,
    handle: &mut Handle,
    rules: &[u8],
    out: &mut [Warning],
    count: &mut usize,
) -> i32
    ensures kept { handle.new.value ≡ handle.old.value }
    ensures misused { result ≡ pos 4 ↔ definition_in handle.old.value ≡ None }
    ensures done { result ≡ pos 0 → IfSome (table_in handle.old.value)
        (λ t. AreWarningsIn t rules.now out.old out.new count.new) }
    ensures unread { result ≡ pos 3 → ¬ (IsUtf8 rules.now) }
{
    warnings::write_warnings(alloc, handle, rules, out, count)
}

/// The name of the kind of this number, as `NeverWins`. As many bytes are written as there is room for.
#[unsafe(no_mangle)]
pub extern "C" fn lrlex_warning_name(kind: u32, out: &mut [u8], len: &mut usize) -> i32
    ensures { MatchOption (slice_get warning_kinds kind) (result ≡ pos 5)
        (λ k. (result ≡ pos 0) × IsWritten (warning_name k) out.old out.new len.new) }
{
    kinds::warning_name(kind, out, len)
}

/// The message of the kind of this number: what is unusual, why, and what to write in its place, in English, without a full stop. As
/// many bytes are written as there is room for.
#[unsafe(no_mangle)]
pub extern "C" fn lrlex_warning_text(kind: u32, out: &mut [u8], len: &mut usize) -> i32
    ensures { MatchOption (slice_get warning_kinds kind) (result ≡ pos 5)
        (λ k. (result ≡ pos 0) × IsWritten (warning_message k) out.old out.new len.new) }
{
    kinds::warning_text(kind, out, len)
}

/// The report of all warnings of the definition and the rule text that it was read from, each with its line and carets. `file` is the
/// file name that it shows. It is empty where there are none. As many bytes are written as there is room for.
#[unsafe(no_mangle)]
pub extern "C" fn lrlex_warning_report(
    alloc: Global,
    handle: &mut Handle,
    file: &[u8],
    rules: &[u8],
    out: &mut [u8],
    len: &mut usize,
) -> i32
    ensures kept { handle.new.value ≡ handle.old.value }
    ensures misused { result ≡ pos 4 ↔ definition_in handle.old.value ≡ None }
    ensures done { result ≡ pos 0 → IfSome (table_in handle.old.value)
        (λ t. IsReport (IsWarningReport t file.now rules.now) out.old out.new len.new) }
    ensures unread { result ≡ pos 3 → ¬ (IsUtf8 file.now × IsUtf8 rules.now) }
{
    warnings::warning_report(alloc, handle, file, rules, out, len)
}
