//! Lines and columns.
ghost use Rattle.std.specs.Prelude.{◌≡◌, ◌≢◌, IsCharBoundary, IsUtf8, pos};
ghost use Rattle.lrlex_base.specs.Places.{AreBreaksOf, place_of};
ghost use Rattle.lrlex_report.specs.PlaceTexts.{nearest};
ghost use Rattle.lrlex_handles.specs.Buffers.{filled, place_by};

use crate::status::{NO_MEMORY, NOT_UTF8, OK};
use crate::structs::Place;
use lrlex::{LineCursor, NewlineCache};
use std::alloc::Global;
use std::str;

/// The greatest character boundary of the text up to an offset.
fn nearest(text: &str, byte: usize) -> usize
    ensures value { result ≡ nearest text.now byte }
    ensures boundary { IsCharBoundary text.now result }
{
    text.floor_char_boundary(byte)
}

/// Line and column of the place before this byte, both from 1. Inside a character it is the place before that, and past the text's
/// end the end.
pub(crate) fn place_at(newlines: &NewlineCache, text: &str, byte: usize) -> Place
    requires { AreBreaksOf text.now newlines.now }
    ensures { result ≡ place_by (place_of text.now (nearest text.now byte)) }
{
    let at = nearest(text, byte);
    let (line, column) = newlines.byte_to_line_num_and_col_num(text, at).unwrap();
    Place { line, column }
}

/// The same, where bytes are asked one after the other: a cursor of the text tells the places of those that ascend, and `last` is
/// the last of these.
pub(crate) fn next_place(
    newlines: &NewlineCache,
    cursor: &mut LineCursor<'_>,
    last: &mut usize,
    text: &str,
    byte: usize,
) -> Place
    requires newlines { AreBreaksOf text.now newlines.now }
    requires cursor { cursor.old ≡ text.now }
    ensures place { result ≡ place_by (place_of text.now (nearest text.now byte)) }
    ensures cursor { cursor.new ≡ text.now }
{
    if byte < *last {
        return place_at(newlines, text, byte);
    }
    *last = byte;
    let (line, column) = cursor.place(nearest(text, byte));
    Place { line, column }
}

/// Writes line and column of as many of the bytes as there is room for.
fn copy_places(newlines: &NewlineCache, text: &str, bytes: &[usize], out: &mut [Place])
    requires { AreBreaksOf text.now newlines.now }
    ensures { out.new ≡ filled (λ b _. place_by (place_of text.now (nearest text.now b))) bytes.now
        out.old }
{
    let room = bytes.len().min(out.len());
    let mut cursor = LineCursor::new(text);
    let mut last = 0usize;
    for i in 0..room {
        out[i] = next_place(newlines, &mut cursor, &mut last, text, bytes[i]);
    }
}

/// Line and column of the place before each of these bytes, both from 1, as many as there is room for. Inside a character it is the
/// place before that, and past the text's end the end.
pub fn write_places(alloc: Global, text: &[u8], bytes: &[usize], out: &mut [Place]) -> i32
    ensures done { result ≡ pos 0 → out.new
        ≡ filled (λ b _. place_by (place_of text.now (nearest text.now b))) bytes.now out.old }
    ensures kept { result ≢ pos 0 → out.new ≡ out.old }
    ensures unread { result ≡ pos 3 → ¬ (IsUtf8 text.now) }
{
    match str::from_utf8(text) {
        Err(_) => NOT_UTF8,
        Ok(text) => match NewlineCache::from_str(alloc, text) {
            Err(_) => NO_MEMORY,
            Ok(newlines) => {
                copy_places(&newlines, text, bytes, out);
                OK
            }
        },
    }
}
