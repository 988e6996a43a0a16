//! What a text says at any span and at any byte.
ghost use Rattle.std.specs.Prelude.{◌≡◌, ℕ, [], slice_range, IsCharBoundary};
ghost use Rattle.lrlex_base.specs.Places.{AreBreaksOf, place_of};
ghost use Rattle.lrlex_base.specs.Spans.{Fits, span_start, span_end};
ghost use Rattle.lrlex_positions.specs.Nearest.{IsNearest};

use lrlex_base::{NewlineCache, Span};

/// The text of the span, or the empty text where the span doesn't fit.
pub fn text_of(text: &str, span: Span) -> &str
    ensures fits { Fits text.now span → result.now
        ≡ slice_range text.now (span_start span) (span_end span) }
    ensures none { ¬ (Fits text.now span) → result.now ≡ [] }
{
    if !span.fits(text) {
        return "";
    }
    &text[span.start()..span.end()]
}

/// Line and column of the place before this byte, both from 1. Inside a character it is the place before that, and past the
/// text's end the end.
pub fn place_of(newlines: &NewlineCache, text: &str, byte: usize) -> (usize, usize)
    requires { AreBreaksOf text.now newlines.now }
    ensures fits { IsCharBoundary text.now byte → result ≡ place_of text.now byte }
    ensures nearest { (at : ℕ) → IsNearest text.now byte at → result ≡ place_of text.now at }
{
    let at = text.floor_char_boundary(byte);
    newlines.byte_to_line_num_and_col_num(text, at).unwrap()
}
