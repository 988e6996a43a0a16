//! Positions of places, and the places of positions.
ghost use Rattle.std.specs.Prelude.{◌≡◌, ◌↔◌, ◌<◌, ◌≤◌, ℕ, count_by, length, List, IfSome, IsNone, IsTrue, IsUtf8};
ghost use Rattle.lrlex_base.specs.Places.{is_newline, AreBreaksOf};
ghost use Rattle.lrlex_base.specs.Spans.{span_start, span_end};
ghost use Rattle.lrlex_positions.specs.Lines.{with_newlines, AreLinesOf, HasPosition, IsInBreak, IsLine, IsLineEnd, IsLineOf, IsNearestPlace};
ghost use Rattle.lrlex_positions.specs.Positions.{position_of, IsLastUpTo};

use crate::encoding::{PositionEncoding, place_of_column, width};
use crate::lines::Lines;
use crate::walks;
use lrlex_base::{NewlineCache, Span};

/// The newline cache that tells the lines, if there is one.
fn cache_of<'c>(newlines: &'c NewlineCache, lines: &'c Lines) -> Option<&'c NewlineCache>
    ensures { (text : List ℕ) → AreBreaksOf text newlines.now → AreLinesOf text lines.now →
        IfSome result (λ cache. AreBreaksOf (with_newlines text) cache.now) }
{
    match lines {
        Lines::OfNewlines => Some(newlines),
        Lines::Kept(cache) => Some(cache),
        Lines::Walked => None,
    }
}

/// The number of the place's line, and where that begins.
fn line_in(cache: &NewlineCache, at: usize) -> (usize, usize)
    requires { at ≤ cache.now.fed }
    ensures { (text : List ℕ) → IsUtf8 text → AreBreaksOf (with_newlines text) cache.now →
        IsLineOf text at result.0 result.1 }
{
    let line = cache.line_at(at);
    let begin = match cache.line_span(line) {
        Some(span) => span.start(),
        None => 0,
    };
    (line, begin)
}

/// The number of the place's line, and where that begins.
fn line_at(newlines: &NewlineCache, lines: &Lines, text: &str, at: usize) -> (usize, usize)
    requires newlines { AreBreaksOf text.now newlines.now }
    requires lines { AreLinesOf text.now lines.now }
    requires within { at ≤ length text.now }
    ensures { IsLineOf text.now at result.0 result.1 }
{
    match cache_of(newlines, lines) {
        Some(cache) => line_in(cache, at),
        None => walks::line_of(text, at),
    }
}

/// Where a line ends, before a return in front of its newline.
fn before_return(text: &str, begin: usize, end: usize) -> usize
    requires { end ≤ length text.now }
    ensures { IsLineEnd text.now begin end result }
{
    if begin < end && text.as_bytes()[end - 1] == b'\r' {
        end - 1
    } else {
        end
    }
}

/// Whether the place is between U+000D and U+000A.
fn is_in_break(text: &str, at: usize) -> bool
    ensures value { IsTrue result ↔ IsInBreak text.now at }
    ensures some { IsTrue result → 0 < at }
{
    let bytes = text.as_bytes();
    0 < at && at < bytes.len() && bytes[at - 1] == b'\r' && bytes[at] == b'\n'
}

/// The nearest place at or before this byte that has a position.
fn nearest_place(text: &str, byte: usize) -> usize
    ensures { IsNearestPlace text.now byte result }
{
    let at = text.floor_char_boundary(byte);
    if is_in_break(text, at) { at - 1 } else { at }
}

/// Line and column of the nearest place at or before this byte, both from 0. That is before a character that the byte is inside, before
/// U+000D where it is between that and U+000A, and the text's end past that.
pub fn position_at(
    newlines: &NewlineCache,
    lines: &Lines,
    text: &str,
    byte: usize,
    encoding: PositionEncoding,
) -> (usize, usize)
    requires newlines { AreBreaksOf text.now newlines.now }
    requires lines { AreLinesOf text.now lines.now }
    ensures fits { HasPosition text.now byte → result ≡ position_of encoding text.now byte }
    ensures nearest { (at : ℕ) → IsNearestPlace text.now byte at
        → result ≡ position_of encoding text.now at }
{
    let at = nearest_place(text, byte);
    let (line, begin) = line_at(newlines, lines, text, at);
    (line, width(&text[begin..at], encoding))
}

/// The bytes of a line up to the next U+000A or U+000D alone, if there is such a line.
fn line_span(newlines: &NewlineCache, lines: &Lines, text: &str, line: usize) -> Option<Span>
    requires newlines { AreBreaksOf text.now newlines.now }
    requires lines { AreLinesOf text.now lines.now }
    ensures none { IsNone result → count_by is_newline (with_newlines text.now) < line }
    ensures some { IfSome result (λ s. IsLine text.now line (span_start s) (span_end s)) }
{
    match cache_of(newlines, lines) {
        Some(cache) => cache.line_span(line),
        None => walks::span_of(text, line),
    }
}

/// The place of a line and column, both from 0: the last one whose position isn't behind it. Past a line's end it is the line's
/// end, past the last line the text's, and inside a character the place before that. No place is between U+000D and U+000A.
pub fn offset_at(
    newlines: &NewlineCache,
    lines: &Lines,
    text: &str,
    position: (usize, usize),
    encoding: PositionEncoding,
) -> usize
    requires newlines { AreBreaksOf text.now newlines.now }
    requires lines { AreLinesOf text.now lines.now }
    ensures last { IsLastUpTo encoding text.now position result }
    ensures inverse { (at : ℕ) → HasPosition text.now at →
        position_of encoding text.now at ≡ position → result ≡ at }
{
    let (line, column) = position;
    match line_span(newlines, lines, text, line) {
        None => text.len(),
        Some(span) => {
            let begin = span.start();
            let end = before_return(text, begin, span.end());
            begin + place_of_column(&text[begin..end], column, encoding)
        }
    }
}
