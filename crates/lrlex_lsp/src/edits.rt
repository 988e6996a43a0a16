//! The changes that a client makes in a document.
ghost use Rattle.std.specs.Prelude.{◌≡◌, ◌↔◌, IfOk, IfSome, OnErr, IsTrue};
ghost use Rattle.lrlex_base.specs.Edits.{edited};
ghost use Rattle.lrlex_base.specs.Spans.{span};
ghost use Rattle.lrlex.specs.Nearest.{FitsAt};
ghost use Rattle.serde_json.specs.View.{view};
ghost use Rattle.lrlex_lsp.specs.Edits.{AreBytesOf, WasChanged};

use crate::languages::Types;
use crate::params::range_of;
use lrlex::{Document, EditError, PositionEncoding};
use serde_json::Value;
use std::alloc::{AllocError, Global};

/// The bytes that a change names: those of its range, or all. None where there is a range that names no places.
fn bytes_of(
    document: &Document<'_, Types>,
    encoding: PositionEncoding,
    change: &Value,
) -> Option<(usize, usize)>
    ensures { IfSome result (λ bytes. AreBytesOf encoding document.now.text (view change.now)
        bytes.0 bytes.1) }
{
    match change.get("range") {
        None | Some(Value::Null) => Some((0, document.text().len())),
        Some(range) => {
            let (start, end) = range_of(range)?;
            Some((
                document.offset_at(start, encoding),
                document.offset_at(end, encoding),
            ))
        }
    }
}

/// Puts a text in the place of these bytes, and says whether it fits. What doesn't fit changes nothing.
fn put(
    alloc: Global,
    document: &mut Document<'_, Types>,
    from: usize,
    to: usize,
    text: &str,
) -> Result<bool, AllocError>
    ensures fits { IfOk result (λ fits. IsTrue fits ↔ FitsAt document.old.text from to) }
    ensures made { IfOk result (λ fits. IsTrue fits
        → document.new.text ≡ edited document.old.text (span from to) text.now) }
    ensures unfit { IfOk result (λ fits. ¬ (IsTrue fits) → document.new ≡ document.old) }
    ensures refused { OnErr result (document.new ≡ document.old) }
{
    match document.edit(alloc, from, to, text) {
        Ok(()) => Ok(true),
        Err(EditError::DoesNotFit) => Ok(false),
        Err(EditError::OutOfMemory) => Err(AllocError),
    }
}

/// Makes a change of a document's text, in a range or as a whole, and says whether it fits. One that doesn't fit leaves the
/// document as it was: its range ends before it begins, or it lacks a text or a place.
pub(crate) fn make_change(
    alloc: Global,
    document: &mut Document<'_, Types>,
    encoding: PositionEncoding,
    change: &Value,
) -> Result<bool, AllocError>
    ensures made { IfOk result (λ fits. IsTrue fits
        → WasChanged encoding document.old.text
        document.new.text (view change.now)) }
    ensures unfit { IfOk result (λ fits. ¬ (IsTrue fits) → document.new ≡ document.old) }
    ensures refused { OnErr result (document.new ≡ document.old) }
{
    let Some(text) = change.get("text").and_then(Value::as_str) else {
        return Ok(false);
    };
    match bytes_of(document, encoding, change) {
        Some((from, to)) => put(alloc, document, from, to, text),
        None => Ok(false),
    }
}
