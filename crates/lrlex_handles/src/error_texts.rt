//! What the faults of a refused rule text are, for people.
ghost use Rattle.std.specs.Prelude.{◌≡◌, ◌↔◌, string_bytes, pos, None, Some, IfOk, IfSome, IsUtf8, MatchOption};
ghost use Rattle.lrlex_parser.specs.LexBuildError.{fault_kind};
ghost use Rattle.lrlex_report.specs.FaultTexts.{AreFaultTexts, IsFaultMessage, IsMessageOf};
ghost use Rattle.lrlex_handles.specs.Buffers.{IsReport};
ghost use Rattle.lrlex_handles.specs.Objects.{fault_in, refusal_in};

use crate::handle::{Handle, with_object};
use crate::object::{Object, Refusal};
use crate::status::{MISUSE, NO_MEMORY, NONE, NOT_UTF8, OK};
use crate::texts::write_text;
use lrlex::{LexBuildError, LexErrorKind, Spanned};
use lrlex_report::faults_text;
use std::alloc::{AllocError, Global};
use std::str;

/// What the fault is. The words of `regex` follow where that refuses a pattern.
fn message_of(alloc: Global, fault: &LexBuildError) -> Result<String, AllocError>
    ensures { IfOk result (λ s. IsMessageOf (fault_kind fault.now) (string_bytes s)) }
{
    match fault.kind() {
        LexErrorKind::RegexError(error) => {
            let mut message = String::from_str(alloc, fault.kind().message())?;
            message.push_str(": ")?;
            message.push_str(&format!(in alloc; "{error}")?)?;
            Ok(message)
        }
        kind => String::from_str(alloc, kind.message()),
    }
}

fn text_in(alloc: Global, object: &Object, index: usize, out: &mut [u8], len: &mut usize) -> i32
    ensures misused { result ≡ pos 4 ↔ refusal_in (Some object.now) ≡ None }
    ensures done { result ≡ pos 0 → MatchOption (fault_in (Some object.now) index) ⊥
        (λ e. IsReport (IsMessageOf (fault_kind e)) out.old out.new len.new) }
    ensures none { result ≡ pos 5 → fault_in (Some object.now) index ≡ None }
{
    match object {
        Object::Refusal(refusal) => match refusal.faults.get(index) {
            None => NONE,
            Some(fault) => match message_of(alloc, fault) {
                Err(_) => NO_MEMORY,
                Ok(text) => {
                    write_text(&text, out, len);
                    OK
                }
            },
        },
        _ => MISUSE,
    }
}

/// What the fault at this index is, in English, without a full stop. As many bytes are written as there is room for.
pub fn fault_text(
    alloc: Global,
    handle: &mut Handle,
    index: usize,
    out: &mut [u8],
    len: &mut usize,
) -> i32
    ensures kept { handle.new.value ≡ handle.old.value }
    ensures misused { result ≡ pos 4 ↔ refusal_in handle.old.value ≡ None }
    ensures done { result ≡ pos 0 → MatchOption (fault_in handle.old.value index) ⊥
        (λ e. IsReport (IsMessageOf (fault_kind e)) out.old out.new len.new) }
    ensures none { result ≡ pos 5 → fault_in handle.old.value index ≡ None }
{
    with_object!(
        alloc,
        handle,
        MISUSE,
        |object| text_in(alloc, &object, index, out, len)
    )
}

fn message_in(alloc: Global, object: &Object, index: usize, out: &mut [u8], len: &mut usize) -> i32
    ensures misused { result ≡ pos 4 ↔ refusal_in (Some object.now) ≡ None }
    ensures done { result ≡ pos 0 → IfSome (refusal_in (Some object.now))
        (λ r. MatchOption (fault_in (Some object.now) index) ⊥
        (λ e. IsReport (IsFaultMessage r.0 e) out.old out.new len.new)) }
    ensures none { result ≡ pos 5 → fault_in (Some object.now) index ≡ None }
{
    match object {
        Object::Refusal(refusal) => match refusal.faults.get(index) {
            None => NONE,
            Some(fault) => match lrlex_report::fault_message(alloc, &refusal.rules, fault) {
                Err(_) => NO_MEMORY,
                Ok(text) => {
                    write_text(&text, out, len);
                    OK
                }
            },
        },
        _ => MISUSE,
    }
}

/// What the fault at this index is, and what to write where the mistake is usual, in English, without a full stop: its message in the
/// report of all faults. As many bytes are written as there is room for.
pub fn fault_message(
    alloc: Global,
    handle: &mut Handle,
    index: usize,
    out: &mut [u8],
    len: &mut usize,
) -> i32
    ensures kept { handle.new.value ≡ handle.old.value }
    ensures misused { result ≡ pos 4 ↔ refusal_in handle.old.value ≡ None }
    ensures done { result ≡ pos 0 → IfSome (refusal_in handle.old.value)
        (λ r. MatchOption (fault_in handle.old.value index) ⊥
        (λ e. IsReport (IsFaultMessage r.0 e) out.old out.new len.new)) }
    ensures none { result ≡ pos 5 → fault_in handle.old.value index ≡ None }
{
    with_object!(
        alloc,
        handle,
        MISUSE,
        |object| message_in(alloc, &object, index, out, len)
    )
}

fn report_in(alloc: Global, object: &Object, file: &[u8], out: &mut [u8], len: &mut usize) -> i32
    ensures misused { result ≡ pos 4 ↔ refusal_in (Some object.now) ≡ None }
    ensures done { result ≡ pos 0 → IfSome (refusal_in (Some object.now))
        (λ r. IsReport (λ t. AreFaultTexts file.now r.0 r.1 t) out.old out.new len.new) }
    ensures unread { result ≡ pos 3 → ¬ (IsUtf8 file.now) }
{
    match object {
        Object::Refusal(refusal) => match str::from_utf8(file) {
            Err(_) => NOT_UTF8,
            Ok(file) => match faults_text(alloc, file, &refusal.rules, &refusal.faults) {
                Err(_) => NO_MEMORY,
                Ok(text) => {
                    write_text(&text, out, len);
                    OK
                }
            },
        },
        _ => MISUSE,
    }
}

/// The report of all faults, each with its line and carets. `file` is the file name that it shows. As many bytes are written as there
/// is room for.
pub fn fault_report(
    alloc: Global,
    handle: &mut Handle,
    file: &[u8],
    out: &mut [u8],
    len: &mut usize,
) -> i32
    ensures kept { handle.new.value ≡ handle.old.value }
    ensures misused { result ≡ pos 4 ↔ refusal_in handle.old.value ≡ None }
    ensures done { result ≡ pos 0 → IfSome (refusal_in handle.old.value)
        (λ r. IsReport (λ t. AreFaultTexts file.now r.0 r.1 t) out.old out.new len.new) }
    ensures unread { result ≡ pos 3 → ¬ (IsUtf8 file.now) }
{
    with_object!(
        alloc,
        handle,
        MISUSE,
        |object| report_in(alloc, &object, file, out, len)
    )
}
