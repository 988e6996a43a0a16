//! What is kept of the lines of a text.
ghost use Rattle.std.specs.Prelude.{◌≡◌, ◌<◌, ◌≤◌, ◌+◌, ℕ, List, false, drop, length, slice_index, IfOk, IsTrue};
ghost use Rattle.lrlex_base.specs.Edits.{edited};
ghost use Rattle.lrlex_base.specs.Places.{AreBreaksOf};
ghost use Rattle.lrlex_base.specs.Spans.{as_span, span_end};
ghost use Rattle.lrlex_positions.specs.Lines.{is_lone_return, with_newlines, AreLinesOf};

use lrlex_base::{Edit, NewlineCache};
use std::alloc::{AllocError, Global};

/// Where lines begin that U+000A, U+000D with U+000A behind it, or U+000D alone ends, as far as a newline cache of the text doesn't
/// tell.
#[derive(Drop)]
pub enum Lines {
    /// The newline cache tells all: no U+000D ends a line alone.
    OfNewlines,
    /// A newline cache of the text with U+000A for each U+000D that ends a line alone.
    Kept(NewlineCache),
    /// There was no memory for that, and each question walks over the text.
    Walked,
}

/// Whether the byte is U+000D with no U+000A behind it.
pub(crate) fn is_lone_return(bytes: &[u8], at: usize) -> bool
    requires { at < length bytes.now }
    ensures { result ≡ is_lone_return (slice_index bytes.now at) (drop (at + 1) bytes.now) }
{
    bytes[at] == b'\r' && !(at + 1 < bytes.len() && bytes[at + 1] == b'\n')
}

/// Whether one of these bytes of the text is U+000D with no U+000A behind it.
fn has_lone_return(text: &str, from: usize, to: usize) -> bool
    requires { to ≤ length text.now }
    ensures { result ≡ false → (i : ℕ) → from ≤ i → i < to →
        is_lone_return (slice_index text.now i) (drop (i + 1) text.now) ≡ false }
{
    let bytes = text.as_bytes();
    for at in from..to {
        if is_lone_return(bytes, at) {
            return true;
        }
    }
    false
}

/// Whether U+000A ends each line, after U+000D or alone.
fn has_newlines_alone(text: &str) -> bool
    ensures { IsTrue result → with_newlines text.now ≡ text.now }
{
    if !text.contains('\r') {
        return true;
    }
    !has_lone_return(text, 0, text.len())
}

/// A newline cache of the text with U+000A for each U+000D that ends a line alone.
fn kept(alloc: Global, text: &str) -> Result<NewlineCache, AllocError>
    ensures { IfOk result (AreBreaksOf (with_newlines text.now)) }
{
    let mut lines = NewlineCache::new(alloc);
    let bytes = text.as_bytes();
    let mut fed = 0usize;
    for at in 0..bytes.len() {
        if is_lone_return(bytes, at) {
            lines.feed(&text[fed..at])?;
            lines.feed("\n")?;
            fed = at + 1;
        }
    }
    lines.feed(&text[fed..])?;
    Ok(lines)
}

impl Lines {
    /// What is kept for a text. Where memory runs out that is nothing.
    pub fn of(alloc: Global, text: &str) -> Lines
        ensures { AreLinesOf text.now result }
    {
        if has_newlines_alone(text) {
            return Lines::OfNewlines;
        }
        match kept(alloc, text) {
            Ok(lines) => Lines::Kept(lines),
            Err(AllocError) => Lines::Walked,
        }
    }

    /// What is kept for the text after an edit. Where U+000D ends no line alone, only the bytes that the edit puts are looked at,
    /// with one before them.
    pub fn after(&self, alloc: Global, edit: &Edit<'_>, text: &str) -> Lines
        requires { (old : List ℕ) × AreLinesOf old self.now
            × (span_end edit.now.removed ≤ length old)
            × (text.now ≡ edited old (as_span edit.now.removed) edit.now.put.now) }
        ensures { AreLinesOf text.now result }
    {
        let start = edit.removed.start();
        let end = start + edit.put.len();
        if let Lines::OfNewlines = self {
            if !has_lone_return(text, start.saturating_sub(1), end) {
                return Lines::OfNewlines;
            }
        }
        Lines::of(alloc, text)
    }
}
