//! Lines and columns, of texts that are fed whole and in pieces, and of a text after an edit.
ghost use Rattle.std.specs.Prelude.{◌<◌, ◌+◌, ◌^◌, ◌++◌, IfOk, length};
ghost use Rattle.lrlex_base.specs.Places.{AreBreaksOf};

use lrlex_base::{NewlineCache, Span};
use std::alloc::{AllocError, Global};

/// A cache that was fed the three pieces, one after the other.
fn fed_in_turn(alloc: Global, a: &str, b: &str, c: &str) -> Result<NewlineCache, AllocError>
    requires { length a.now + length b.now + length c.now < 2 ^ 64 }
    ensures { IfOk result (AreBreaksOf (a.now ++ b.now ++ c.now)) }
{
    let mut cache = NewlineCache::new(alloc);
    cache.feed(a)?;
    cache.feed(b)?;
    cache.feed(c)?;
    Ok(cache)
}

/// A cache that was fed the text character by character.
fn fed_by_characters(alloc: Global, text: &str) -> Result<NewlineCache, AllocError>
    ensures { IfOk result (AreBreaksOf text.now) }
{
    let mut cache = NewlineCache::new(alloc);
    let mut from = 0;
    for at in 0..text.len() {
        if text.is_char_boundary(at + 1) {
            cache.feed(&text[from..at + 1])?;
            from = at + 1;
        }
    }
    Ok(cache)
}

/// Whether each byte of the text has the place that is named.
fn has_places(cache: &NewlineCache, text: &str, places: &[(usize, Option<(usize, usize)>)]) -> bool
    requires { AreBreaksOf text.now cache.now }
{
    for (byte, place) in places {
        if *byte <= text.len() && !text.is_char_boundary(*byte) {
            return false;
        }
        if cache.byte_to_line_num_and_col_num(text, *byte) != *place {
            return false;
        }
    }
    true
}

/// Whether the whole lines of each span stand between the bytes that are named.
fn has_lines(cache: &NewlineCache, lines: &[(usize, usize, (usize, usize))]) -> bool {
    for (start, end, ends) in lines {
        if *start > *end || *end > cache.fed() {
            return false;
        }
        if cache.span_line_bytes(Span::new(*start, *end)) != *ends {
            return false;
        }
    }
    true
}

const HEART: &str = " a\n❤ b";

const HEART_PLACES: &[(usize, Option<(usize, usize)>)] = &[
    (0, Some((1, 1))),
    (1, Some((1, 2))),
    (2, Some((1, 3))),
    (3, Some((2, 1))),
    (6, Some((2, 2))),
    (7, Some((2, 3))),
    (8, Some((2, 4))),
    (9, None),
];

const HEART_LINES: &[(usize, usize, (usize, usize))] = &[
    (1, 2, (0, 2)),
    (1, 3, (0, 8)),
    (3, 6, (3, 8)),
    (8, 8, (3, 8)),
];

#[test]
fn places_count_lines_and_characters(rt: HostRuntime) {
    let whole = NewlineCache::from_str(rt.alloc(), HEART).expect(&rt, "memory");
    let fed = fed_by_characters(rt.alloc(), HEART).expect(&rt, "memory");
    assert!(rt; has_places(&whole, HEART, HEART_PLACES) && has_lines(&whole, HEART_LINES));
    assert!(rt; has_places(&fed, HEART, HEART_PLACES) && has_lines(&fed, HEART_LINES));
    assert!(rt; whole.fed() == 8);
    // of a text of another length no place is known
    for byte in [0, 3, 9] {
        assert!(rt; whole.byte_to_line_num_and_col_num("abc", byte).is_none());
    }
}

const PLACES: &[(usize, Option<(usize, usize)>)] = &[
    (0, Some((1, 1))),
    (1, Some((1, 2))),
    (2, Some((2, 1))),
    (3, Some((2, 2))),
    (4, None),
];

const LINES: &[(usize, usize, (usize, usize))] = &[
    (0, 0, (0, 1)),
    (1, 1, (0, 1)),
    (2, 2, (2, 3)),
    (3, 3, (2, 3)),
    (0, 3, (0, 3)),
];

#[test]
fn pieces_answer_as_the_whole(rt: HostRuntime) {
    let text = "a\nb";
    let whole = NewlineCache::from_str(rt.alloc(), text).expect(&rt, "memory");
    let pieces = fed_in_turn(rt.alloc(), "a\n", "", "b").expect(&rt, "memory");
    assert!(rt; has_places(&whole, text, PLACES) && has_lines(&whole, LINES));
    assert!(rt; has_places(&pieces, text, PLACES) && has_lines(&pieces, LINES));
}

/// The triangle: 71 lines, with a newline between each two. Line i (from 0) is i letters `a` with a blank between each two.
fn triangle(alloc: Global) -> Result<String, AllocError> {
    let mut text = String::new(alloc);
    for i in 0..71usize {
        text.push_str(if i > 0 { "\n" } else { "" })?;
        for j in 0..i {
            text.push_str(if j > 0 { " a" } else { "a" })?;
        }
    }
    Ok(text)
}

/// Whether a byte in column `k` (from 0) of line `i` (from 0), which has so many bytes, has that place and line.
fn is_in_line(cache: &NewlineCache, text: &str, at: usize, i: usize, k: usize, len: usize) -> bool
    requires { AreBreaksOf text.now cache.now }
{
    if !text.is_char_boundary(at) || at > cache.fed() || k > at || at >= 10_000 || len >= 10_000 {
        return false;
    }
    let place = Some((i.saturating_add(1), k.saturating_add(1)));
    cache.byte_to_line_num_and_col_num(text, at) == place
        && cache.span_line_bytes(Span::new(at, at)) == (at - k, at - k + len)
}

/// Whether each byte of the triangle has its place, and the ends of its line.
fn is_triangle(cache: &NewlineCache, text: &str) -> bool
    requires { AreBreaksOf text.now cache.now }
{
    let mut at = 0usize;
    for i in 0..71usize {
        let len = if i > 0 { 2 * i - 1 } else { 0 };
        for k in 0..=len {
            if !is_in_line(cache, text, at, i, k, len) {
                return false;
            }
            at = at.saturating_add(1);
        }
    }
    at == text.len().saturating_add(1)
}

#[test]
fn seventy_one_lines_fed_whole_and_byte_by_byte(rt: HostRuntime) {
    let text = triangle(rt.alloc()).expect(&rt, "memory");
    let whole = NewlineCache::from_str(rt.alloc(), text.as_str()).expect(&rt, "memory");
    assert!(rt; is_triangle(&whole, text.as_str()));
    let bytes = fed_by_characters(rt.alloc(), text.as_str()).expect(&rt, "memory");
    assert!(rt; is_triangle(&bytes, text.as_str()));
}

/// Lines of `a\nb\nc`.
const OLD_LINES: &[(usize, usize, (usize, usize))] = &[
    (0, 1, (0, 1)),
    (2, 3, (2, 3)),
    (4, 5, (4, 5)),
];

/// Lines of `a\n\n\n\nc`.
const NEW_LINES: &[(usize, usize, (usize, usize))] = &[
    (0, 1, (0, 1)),
    (2, 2, (2, 2)),
    (3, 3, (3, 3)),
    (4, 4, (4, 4)),
    (5, 6, (5, 6)),
];

#[test]
fn an_edited_copy_has_lines_of_its_own(rt: HostRuntime) {
    let kept = NewlineCache::from_str(rt.alloc(), "a\nb\nc").expect(&rt, "memory");
    let mut copy = kept.clone().expect(&rt, "memory");
    assert!(rt; copy.fed() == 5);
    copy.edit(Span::new(2, 3), "\n\n").expect(&rt, "memory");
    assert!(rt; copy.fed() == 6 && has_lines(&copy, NEW_LINES));
    assert!(rt; kept.fed() == 5 && has_lines(&kept, OLD_LINES));
}
