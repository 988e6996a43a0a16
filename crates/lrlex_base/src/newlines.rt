ghost use Rattle.std.specs.Prelude.{◌≡◌, ◌≢◌, ◌<◌, ◌≤◌, ◌+◌, ◌-◌, map, ◌^◌, ◌++◌, ◌∷◌, slice_index, ◌⊎◌, ◌↔◌, ℕ, List, IsOk, IfOk, OnOk, OnErr, IsNone, IfSome, [], length, take, drop, count_by, All, IsCharBoundary, IsUtf8, nat_le};
ghost use Rattle.lrlex_base.specs.Edits.{edited};
ghost use Rattle.lrlex_base.specs.Places.{newlines_from, starts_after, AreBreaksOf, is_newline, place_of, whole_lines};
ghost use Rattle.lrlex_base.specs.Spans.{Fits, at_place, span_start, span_end, as_span};

use crate::spans::Span;
use std::alloc::{AllocError, Allocator, Global};
use std::marker::Model;

/// Where the lines of a text begin: how many bytes were fed, and the offsets of the lines but the first, ascending. The cache
/// keeps no text. A line ends at U+000A alone.
#[derive(Drop)]
pub struct NewlineCache<A: Allocator = Global> {
    starts: Vec<usize, A>,
    bytes: usize,
}

impl<A: Allocator> Model for NewlineCache<A> {
    ghost use Rattle.std.specs.Prelude.{◌-◌, ◌<◌, All, map};
    ghost use Rattle.lrlex_base.specs.Places.{Breaks, AreStartsOfSome};

    ghost Value = { Breaks };

    ghost view = { λ c. record { fed = c.bytes; newlines = map (λ s. s - 1) c.starts.items } };

    ghost invariant = { λ c. All (λ s. 0 < s) c.starts.items × AreStartsOfSome c.bytes c.starts.items };
}

// Adds where lines begin in a text that is at this offset. Where memory runs out, nothing has changed.
fn add_starts<A: Allocator>(
    starts: &mut Vec<usize, A>,
    at: usize,
    piece: &str,
) -> Result<(), AllocError>
    requires { at + length piece.now < 2 ^ 64 }
    ensures ok { OnOk result
        (starts.new.items ≡ starts.old.items ++ starts_after (newlines_from at piece.now)) }
    ensures err { OnErr result (starts.new.items ≡ starts.old.items) }
    ensures no_newline { newlines_from at piece.now ≡ [] → IsOk result }
{
    let before = starts.len();
    for (i, b) in piece.as_bytes().iter().enumerate() {
        if *b == b'\n' {
            if starts.push(at + i + 1).is_err() {
                starts.truncate(before);
                return Err(AllocError);
            }
        }
    }
    Ok(())
}

// Moves the line beginnings from this one on: one at `from` moves to `to`, the others by as much.
fn move_starts(starts: &mut [usize], first: usize, from: usize, to: usize)
    requires within { first ≤ length starts.old }
    requires movable { All (λ s. (from ≤ s) × (s - from + to < 2 ^ 64)) (drop first starts.old) }
    ensures { starts.new ≡ take first starts.old
        ++ map (λ s. s - from + to) (drop first starts.old) }
{
    for i in first..starts.len() {
        starts[i] = starts[i] - from + to;
    }
}

// Replaces the line beginnings from `first` on and before `behind`, and moves those from `behind` on. Where memory runs out,
// nothing has changed.
fn put_starts<A: Allocator + Clone>(
    starts: &mut Vec<usize, A>,
    first: usize,
    behind: usize,
    added: Vec<usize, A>,
    from: usize,
    to: usize,
) -> Result<(), AllocError>
    requires first { first ≤ behind }
    requires behind { behind ≤ length starts.old.items }
    requires movable { All (λ s. (from ≤ s) × (s - from + to < 2 ^ 64))
        (drop behind starts.old.items) }
    ensures ok { OnOk result (starts.new.items ≡ (take first starts.old.items ++ added.items)
        ++ map (λ s. s - from + to) (drop behind starts.old.items)) }
    ensures err { OnErr result (starts.new.items ≡ starts.old.items) }
{
    let next = first + added.len();
    starts.splice(first..behind, added)?;
    move_starts(starts.as_mut_slice(), next, from, to);
    Ok(())
}

// How many lines but the first begin at or before the place.
fn lines_begun(starts: &[usize], at: usize) -> usize
    ensures bound { result ≤ length starts.now }
    ensures count { (text : List ℕ) →
        at ≤ length text → starts.now ≡ starts_after (newlines_from 0 text) →
        result ≡ count_by is_newline (take at text) }
{
    starts.partition_point(
        |s: &usize| -> bool
            ensures { result ≡ nat_le s.now at }
        { *s <= at },
    )
}

// Where the line begins that has n lines before it.
fn line_begin(starts: &[usize], n: usize) -> usize
    requires { n ≤ length starts.now }
    ensures { result ≡ slice_index (0 ∷ starts.now) n }
{
    if n == 0 { 0 } else { starts[n - 1] }
}

impl<A: Allocator> NewlineCache<A> {
    /// A cache that was fed nothing. It takes no memory.
    pub fn new(alloc: A) -> NewlineCache<A>
        ensures fed { result.fed ≡ 0 }
        ensures newlines { result.newlines ≡ [] }
    {
        NewlineCache {
            starts: Vec::new(alloc),
            bytes: 0,
        }
    }

    /// A cache that was fed this text.
    pub fn from_str(alloc: A, text: &str) -> Result<NewlineCache<A>, AllocError>
        ensures ok { IfOk result (AreBreaksOf text.now) }
        ensures no_newline { newlines_from 0 text.now ≡ [] → IsOk result }
    {
        let mut cache = NewlineCache::new(alloc);
        cache.feed(text)?;
        Ok(cache)
    }

    /// How many bytes were fed.
    pub fn fed(&self) -> usize
        ensures { result ≡ self.now.fed }
    {
        self.bytes
    }

    /// Adds a piece after what was fed, so that feeding a text in pieces equals feeding it whole. A piece without U+000A takes no
    /// memory. The bytes fed in all fit `usize`.
    pub fn feed(&mut self, piece: &str) -> Result<(), AllocError>
        requires { self.old.fed + length piece.now < 2 ^ 64 }
        ensures fed { OnOk result (self.new.fed ≡ self.old.fed + length piece.now) }
        ensures newlines { OnOk result
            (self.new.newlines ≡ self.old.newlines ++ newlines_from self.old.fed piece.now) }
        ensures pieces { (text : List ℕ) → AreBreaksOf text self.old →
            OnOk result (AreBreaksOf (text ++ piece.now) self.new) }
        ensures unchanged { OnErr result (self.new ≡ self.old) }
        ensures no_newline { newlines_from self.old.fed piece.now ≡ [] → IsOk result }
    {
        add_starts(&mut self.starts, self.bytes, piece)?;
        self.bytes += piece.len();
        Ok(())
    }

    /// Line and column of the place before this byte, both from 1. The column counts the characters of the line's front in `src`. None
    /// exactly where `src` hasn't the length that was fed or the byte is past its end.
    pub fn byte_to_line_num_and_col_num(&self, src: &str, byte: usize) -> Option<(usize, usize)>
        requires newlines { length src.now ≡ self.now.fed →
            self.now.newlines ≡ newlines_from 0 src.now }
        requires boundary { byte ≤ length src.now → IsCharBoundary src.now byte }
        ensures none { IsNone result ↔ ((length src.now ≢ self.now.fed) ⊎ (length src.now < byte)) }
        ensures place { IfSome result (λ p. p ≡ place_of src.now byte) }
    {
        if src.len() != self.bytes || src.len() < byte {
            return None;
        }
        let n = lines_begun(&self.starts, byte);
        let begin = line_begin(&self.starts, n);
        let front = src[begin..byte].chars().count();
        Some((n + 1, 1 + front))
    }

    /// The number of the line that has the place before this byte, counted from 0: how many newlines precede it.
    pub fn line_at(&self, byte: usize) -> usize
        requires { byte ≤ self.now.fed }
        ensures { (text : List ℕ) → AreBreaksOf text self.now →
            result ≡ count_by is_newline (take byte text) }
    {
        lines_begun(&self.starts, byte)
    }

    /// The bytes of a line without its newline; lines count from 0. A text has one line more than newlines. None past the last
    /// line.
    pub fn line_span(&self, line: usize) -> Option<Span>
        ensures none { IsNone result ↔ length self.now.newlines < line }
        ensures number { (text : List ℕ) → AreBreaksOf text self.now →
            IfSome result (λ s. count_by is_newline (take (span_start s) text) ≡ line) }
        ensures whole { (text : List ℕ) → AreBreaksOf text self.now →
            IfSome result (λ s. as_span s ≡ whole_lines text (at_place (span_start s))) }
        ensures fits { (text : List ℕ) → IsUtf8 text → AreBreaksOf text self.now →
            IfSome result (Fits text) }
    {
        if line > self.starts.len() {
            return None;
        }
        let begin = line_begin(&self.starts, line);
        let end = if line < self.starts.len() {
            self.starts[line] - 1
        } else {
            self.bytes
        };
        Some(Span::new(begin, end))
    }

    /// The ends of the whole lines that the span touches, without the newline of the last one.
    pub fn span_line_bytes(&self, span: Span) -> (usize, usize)
        requires { span_end span ≤ self.now.fed }
        ensures lines { (text : List ℕ) → AreBreaksOf text self.now →
            let lines = whole_lines text (as_span span) in
            (result.0 ≡ lines.start) × (result.1 ≡ lines.end) }

        // They can be cut out of the text.
        ensures fits { (text : List ℕ) → IsUtf8 text → AreBreaksOf text self.now →
            (result.0 ≤ result.1)
            × IsCharBoundary text result.0 × IsCharBoundary text result.1 }
    {
        let first = lines_begun(&self.starts, span.start());
        let last = lines_begun(&self.starts, span.end());
        let end = if last < self.starts.len() {
            self.starts[last] - 1
        } else {
            self.bytes
        };
        (line_begin(&self.starts, first), end)
    }
}

impl<A: Allocator + Clone> NewlineCache<A> {
    /// Turns the cache of a text into that of the text after an edit, in which `put` replaces the bytes of `removed`. The text
    /// isn't looked at. The bytes after the edit fit `usize`. Where memory runs out, nothing has changed.
    pub fn edit(&mut self, removed: Span, put: &str) -> Result<(), AllocError>
        requires removed { span_end removed ≤ self.old.fed }
        requires put { self.old.fed - (span_end removed - span_start removed) + length put.now
            < 2 ^ 64 }
        ensures edited { (text : List ℕ) → AreBreaksOf text self.old →
            OnOk result (AreBreaksOf (edited text (as_span removed) put.now) self.new) }
        ensures unchanged { OnErr result (self.new ≡ self.old) }
    {
        let first = lines_begun(&self.starts, removed.start());
        let behind = lines_begun(&self.starts, removed.end());
        let mut added = Vec::new(self.starts.allocator().clone()?);
        add_starts(&mut added, removed.start(), put)?;
        let put_end = removed.start() + put.len();
        put_starts(
            &mut self.starts,
            first,
            behind,
            added,
            removed.end(),
            put_end,
        )?;
        self.bytes = self.bytes - removed.len() + put.len();
        Ok(())
    }
}

impl<A: Allocator + Clone> Clone for NewlineCache<A> {
    ghost is_clone = { λ c d. d ≡ c };

    fn clone(&self) -> Result<NewlineCache<A>, AllocError> {
        let mut starts = Vec::new(self.starts.allocator().clone()?);
        starts.extend_from_slice(&self.starts)?;
        Ok(NewlineCache {
            starts,
            bytes: self.bytes,
        })
    }
}
