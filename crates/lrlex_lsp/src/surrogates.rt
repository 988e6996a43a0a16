//! Surrogates in JSON: an escape may name one without the other of its pair, which no text has.
use std::alloc::{AllocError, Global};

/// What stands for half a pair: the escape of U+FFFD, which has one code unit of UTF-16 too.
const REPLACEMENT: &[u8] = b"\\uFFFD";

/// Half a pair of surrogates.
#[derive(Clone, Copy, PartialEq, Eq)]
enum Half {
    High,
    Low,
}

/// The half of a pair that an escape of these hexadecimal digits names, if it does. The digits follow `\ud`.
fn half_of(digit: u8, others: &[u8]) -> Option<Half> {
    if !others.iter().all(|b| b.is_ascii_hexdigit()) {
        return None;
    }
    match digit {
        b'8' | b'9' | b'a' | b'b' | b'A' | b'B' => Some(Half::High),
        b'c'..=b'f' | b'C'..=b'F' => Some(Half::Low),
        _ => None,
    }
}

/// The half of a pair whose escape begins a text, if one does. The escape has six bytes.
fn half_at(text: &[u8]) -> Option<Half> {
    match text {
        [b'\\', b'u', b'd' | b'D', digit, c, d, ..] => half_of(*digit, &[*c, *d]),
        _ => None,
    }
}

/// What is written for the beginning of a text of JSON, and how many of its bytes that stands for: those of a byte, of an escape or
/// of a pair of surrogates, or those of half a pair.
fn part_of(text: &[u8]) -> (&[u8], usize) {
    let len = match (half_at(text), text) {
        (Some(Half::High), _) if half_at(text.get(6..).unwrap_or(b"")) == Some(Half::Low) => 12,
        (Some(_), _) => return (REPLACEMENT, 6),
        (None, [b'\\', ..]) => 2,
        (None, _) => 1,
    };
    (text.get(..len).unwrap_or(text), len)
}

/// A text of JSON in which half a pair of surrogates is U+FFFD.
pub(crate) fn paired(alloc: Global, text: &[u8]) -> Result<Vec<u8>, AllocError> {
    let mut paired = Vec::new(alloc);
    let mut next = 0;
    for at in 0..text.len() {
        if at == next {
            let (part, len) = part_of(text.get(at..).unwrap_or(b""));
            paired.extend_from_slice(part)?;
            next = at.saturating_add(len);
        }
    }
    Ok(paired)
}
