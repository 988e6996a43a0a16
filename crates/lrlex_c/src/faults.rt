//! The faults of a refused rule text.
ghost use Rattle.std.specs.Option.{option_map_or};
ghost use Rattle.std.specs.Prelude.{◌≡◌, ◌↔◌, length, slice_get, pos, None, Some, IfSome, IsUtf8, MatchOption};
ghost use Rattle.lrlex_parser.specs.LexBuildError.{fault_kind};
ghost use Rattle.lrlex_report.specs.FaultTexts.{AreFaultTexts, IsFaultMessage, IsMessageOf};
ghost use Rattle.lrlex_handles.specs.Buffers.{IsReport, IsWritten};
ghost use Rattle.lrlex_handles.specs.Faults.{fault_names, fault_at, fault_span_at};
ghost use Rattle.lrlex_handles.specs.Objects.{fault_in, refusal_in};

use lrlex_handles::handle::Handle;
use lrlex_handles::structs::{Fault, FaultSpan};
use lrlex_handles::{error_texts, errors};
use std::alloc::Global;

/// How many faults the handle has.
#[unsafe(no_mangle)]
pub extern "C" fn lrlex_fault_count(alloc: Global, handle: &mut Handle) -> usize
    ensures kept { handle.new.value ≡ handle.old.value }
    ensures count { result ≡ option_map_or (λ r. length r.1) (refusal_in handle.old.value) 0 }
{
    errors::fault_count(alloc, handle)
}

/// The fault at this index, from 0.
#[unsafe(no_mangle)]
pub extern "C" fn lrlex_fault_at(
    alloc: Global,
    handle: &mut Handle,
    index: usize,
    out: &mut Fault,
) -> i32
    ensures kept { handle.new.value ≡ handle.old.value }
    ensures misused { result ≡ pos 4 ↔ refusal_in handle.old.value ≡ None }
    ensures done { result ≡ pos 0 → Some out.new ≡ fault_at (refusal_in handle.old.value) index }
    ensures none { result ≡ pos 5 → fault_at (refusal_in handle.old.value) index ≡ None }
{
    errors::fault_at(alloc, handle, index, out)
}

/// A span of the fault at this index, both from 0.
#[unsafe(no_mangle)]
pub extern "C" fn lrlex_fault_span_at(
    alloc: Global,
    handle: &mut Handle,
    index: usize,
    span: usize,
    out: &mut FaultSpan,
) -> i32
    ensures kept { handle.new.value ≡ handle.old.value }
    ensures misused { result ≡ pos 4 ↔ refusal_in handle.old.value ≡ None }
    ensures done { result ≡ pos 0 → Some out.new
        ≡ fault_span_at (refusal_in handle.old.value) index span }
    ensures none { result ≡ pos 5 → fault_span_at (refusal_in handle.old.value) index span
        ≡ None }
{
    errors::fault_span_at(alloc, handle, index, span, out)
}

/// The name of the kind of this number, as `DuplicateName`. As many bytes are written as there is room for.
#[unsafe(no_mangle)]
pub extern "C" fn lrlex_fault_name(kind: u32, out: &mut [u8], len: &mut usize) -> i32
    ensures { MatchOption (slice_get fault_names kind) (result ≡ pos 5)
        (λ name. (result ≡ pos 0) × IsWritten name out.old out.new len.new) }
{
    errors::fault_name(kind, out, len)
}

/// What the fault at this index is, in English, without a full stop. As many bytes are written as there is room for.
#[unsafe(no_mangle)]
pub extern "C" fn lrlex_fault_text(
    alloc: Global,
    handle: &mut Handle,
    index: usize,
    out: &mut [u8],
    len: &mut usize,
) -> i32
    ensures kept { handle.new.value ≡ handle.old.value }
    ensures misused { result ≡ pos 4 ↔ refusal_in handle.old.value ≡ None }
    ensures done { result ≡ pos 0 → MatchOption (fault_in handle.old.value index) ⊥
        (λ e. IsReport (IsMessageOf (fault_kind e)) out.old out.new len.new) }
    ensures none { result ≡ pos 5 → fault_in handle.old.value index ≡ None }
{
    error_texts::fault_text(alloc, handle, index, out, len)
}

/// What the fault at this index is, and what to write where the mistake is usual, in English, without a full stop: its message in the
/// report of all faults. As many bytes are written as there is room for.
#[unsafe(no_mangle)]
pub extern "C" fn lrlex_fault_message(
    alloc: Global,
    handle: &mut Handle,
    index: usize,
    out: &mut [u8],
    len: &mut usize,
) -> i32
    ensures kept { handle.new.value ≡ handle.old.value }
    ensures misused { result ≡ pos 4 ↔ refusal_in handle.old.value ≡ None }
    ensures done { result ≡ pos 0 → IfSome (refusal_in handle.old.value)
        (λ r. MatchOption (fault_in handle.old.value index) ⊥
        (λ e. IsReport (IsFaultMessage r.0 e) out.old out.new len.new)) }
    ensures none { result ≡ pos 5 → fault_in handle.old.value index ≡ None }
{
    error_texts::fault_message(alloc, handle, index, out, len)
}

/// The report of all faults, each with its line and carets. `file` is the file name that it shows. As many bytes are written as there
/// is room for.
#[unsafe(no_mangle)]
pub extern "C" fn lrlex_fault_report(
    alloc: Global,
    handle: &mut Handle,
    file: &[u8],
    out: &mut [u8],
    len: &mut usize,
) -> i32
    ensures kept { handle.new.value ≡ handle.old.value }
    ensures misused { result ≡ pos 4 ↔ refusal_in handle.old.value ≡ None }
    ensures done { result ≡ pos 0 → IfSome (refusal_in handle.old.value)
        (λ r. IsReport (λ t. AreFaultTexts file.now r.0 r.1 t) out.old out.new len.new) }
    ensures unread { result ≡ pos 3 → ¬ (IsUtf8 file.now) }
{
    error_texts::fault_report(alloc, handle, file, out, len)
}
