//! Lines found by walking over the text.
ghost use Rattle.std.specs.Prelude.{◌≡◌, ◌<◌, ◌≤◌, ◌+◌, drop, count_by, length, slice_index, IfSome, IsNone};
ghost use Rattle.std.specs.List.{position_or_len};
ghost use Rattle.lrlex_base.specs.Places.{is_newline};
ghost use Rattle.lrlex_base.specs.Spans.{span_start, span_end};
ghost use Rattle.lrlex_positions.specs.Lines.{with_newlines, IsLine, IsLineOf};

use crate::lines::is_lone_return;
use lrlex_base::Span;

/// Whether a line ends with this byte.
fn ends_line(bytes: &[u8], at: usize) -> bool
    requires { at < length bytes.now }
    ensures { result ≡ is_newline (slice_index (with_newlines bytes.now) at) }
{
    bytes[at] == b'\n' || is_lone_return(bytes, at)
}

/// The number of the place's line, and where that begins.
pub(crate) fn line_of(text: &str, at: usize) -> (usize, usize)
    requires { at ≤ length text.now }
    ensures { IsLineOf text.now at result.0 result.1 }
{
    let bytes = text.as_bytes();
    let mut line = 0usize;
    let mut begin = 0usize;
    for i in 0..at {
        if ends_line(bytes, i) {
            line += 1;
            begin = i + 1;
        }
    }
    (line, begin)
}

/// Where the line of this number begins, if there is one.
fn begin_of(text: &str, line: usize) -> Option<usize>
    ensures none { IsNone result → count_by is_newline (with_newlines text.now) < line }
    ensures some { IfSome result (λ begin. (begin ≤ length text.now)
        × IsLineOf text.now begin line begin) }
{
    if line == 0 {
        return Some(0);
    }
    let bytes = text.as_bytes();
    let mut left = line;
    for i in 0..bytes.len() {
        if ends_line(bytes, i) {
            left -= 1;
            if left == 0 {
                return Some(i + 1);
            }
        }
    }
    None
}

/// Where the first end of a line from there on ends with, or else the text.
fn end_of(text: &str, begin: usize) -> usize
    requires { begin ≤ length text.now }
    ensures { result ≡ begin + position_or_len is_newline (drop begin (with_newlines text.now)) }
{
    let bytes = text.as_bytes();
    for at in begin..bytes.len() {
        if ends_line(bytes, at) {
            return at;
        }
    }
    bytes.len()
}

/// The bytes of a line without the one that it ends with.
pub(crate) fn span_of(text: &str, line: usize) -> Option<Span>
    ensures none { IsNone result → count_by is_newline (with_newlines text.now) < line }
    ensures some { IfSome result (λ s. IsLine text.now line (span_start s) (span_end s)) }
{
    let begin = begin_of(text, line)?;
    Some(Span::new(begin, end_of(text, begin)))
}
