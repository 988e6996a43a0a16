//! A place in a text, its line, and carets under it.
ghost use Rattle.std.specs.Prelude.{◌≡◌, ◌≤◌, ◌++◌, ℕ, IfOk, OnOk, IsCharBoundary, codes, string_bytes, length, take, min, slice_range};
ghost use Rattle.std.specs.Str.{chars};
ghost use Rattle.lrlex_base.specs.Places.{AreBreaksOf, line_of, column_of, whole_lines};
ghost use Rattle.lrlex_base.specs.Spans.{as_span, span_start, span_end, span};
ghost use Rattle.lrlex_report.specs.Carets.{shown_front, shown_rest};
ghost use Rattle.lrlex_report.specs.CharCounts.{char_counts};
ghost use Rattle.lrlex_report.specs.PlaceTexts.{nearest, before_return, line_at, heading, numbered, underlined, excerpt, place_text};

use crate::carets::{most_of, push_carets, push_front, push_padding, push_rest, push_times};
use crate::char_counts::{char_counts, column};
use lrlex_base::{NewlineCache, Span};
use std::alloc::{AllocError, Global};
use std::fmt::Write;

/// A text with the name of its file, its line breaks, and counts of its characters. With these, a place is shown in about the same
/// time on a line of any length.
#[derive(Drop)]
pub(crate) struct Source<'t> {
    pub(crate) file: &'t str,
    pub(crate) text: &'t str,
    newlines: NewlineCache,
    counts: Vec<usize>,
    ghost of_text: { AreBreaksOf text.now newlines },
    ghost of_chars: { counts.items ≡ char_counts text.now },
}

/// The greatest character boundary of the text up to an offset. Offsets count bytes from 0.
pub(crate) fn nearest(text: &str, byte: usize) -> usize
    ensures value { result ≡ nearest text.now byte }
    ensures boundary { IsCharBoundary text.now result }
    ensures bound { result ≤ byte }
    ensures greatest { (at : ℕ) → at ≤ byte → IsCharBoundary text.now at → at ≤ result }
{
    text.floor_char_boundary(byte)
}

/// The end of a line, before a carriage return that ends it.
fn before_return(text: &str, begin: usize, end: usize) -> usize
    requires boundary { IsCharBoundary text.now end }
    ensures value { result ≡ before_return text.now (span begin end) }
    ensures boundary { IsCharBoundary text.now result }
    ensures begin { begin ≤ end → begin ≤ result }
{
    if begin < end && text.as_bytes()[end - 1] == b'\r' {
        end - 1
    } else {
        end
    }
}

/// The line that a place is in.
fn line_at(newlines: &NewlineCache, text: &str, at: usize) -> Span
    requires breaks { AreBreaksOf text.now newlines.now }
    requires at { IsCharBoundary text.now at }
    ensures value { as_span result ≡ line_at text.now at }
    ensures start { IsCharBoundary text.now (span_start result) }
    ensures end { IsCharBoundary text.now (span_end result) }
{
    let (begin, end) = newlines.span_line_bytes(Span::new(at, at));
    Span::new(begin, before_return(text, begin, end))
}

/// The text from one place up to another; empty if that isn't after it.
fn part(text: &str, from: usize, to: usize) -> &str
    requires from { IsCharBoundary text.now from }
    requires to { IsCharBoundary text.now to }
    ensures { result.now ≡ slice_range text.now from to }
{
    if from < to { &text[from..to] } else { "" }
}

/// Adds `FILE:L:C: MESSAGE`.
fn push_heading(
    out: &mut String,
    file: &str,
    line: usize,
    column: usize,
    message: &str,
) -> Result<(), AllocError>
    ensures { OnOk result (string_bytes out.new ≡ string_bytes out.old
        ++ heading file.now line column message.now) }
{
    write!(out, "{file}:{line}:{column}: {message}\n")
}

/// Adds a line's number, and what is shown of the line before a place and from there on: so many characters each at most.
fn push_numbered(
    out: &mut String,
    line: usize,
    front: &str,
    rest: &str,
    most: usize,
) -> Result<(), AllocError>
    ensures { OnOk result (string_bytes out.new ≡ string_bytes out.old
        ++ numbered line (shown_front most (chars front.now) ++ shown_rest most (chars rest.now))) }
{
    write!(out, "{line} | ")?;
    push_front(out, front, most)?;
    push_rest(out, rest, most)?;
    out.push_str("\n")
}

/// Adds the line of carets: they are under `part`, and `front` is the text of the line before it, of which so many characters are
/// shown at most.
fn push_underlined(
    alloc: Global,
    out: &mut String,
    line: usize,
    front: &str,
    part: &str,
    most: usize,
) -> Result<(), AllocError>
    ensures { OnOk result (string_bytes out.new ≡ string_bytes out.old
        ++ underlined line (shown_front most (chars front.now)) (take most (chars part.now))) }
{
    let number = format!(in alloc; "{line}")?;
    push_times(out, ' ', number.len())?;
    out.push_str(" | ")?;
    push_padding(out, front, most)?;
    push_carets(out, part, most)?;
    out.push_str("\n")
}

impl<'t> Source<'t> {
    /// A text and the name of its file.
    pub(crate) fn new(alloc: Global, file: &'t str, text: &'t str) -> Result<Source<'t>, AllocError>
        ensures file { IfOk result (λ source. source.file.now ≡ file.now) }
        ensures text { IfOk result (λ source. source.text.now ≡ text.now) }
    {
        let newlines = NewlineCache::from_str(alloc, text)?;
        let counts = char_counts(alloc, text)?;
        Ok(Source {
            file,
            text,
            newlines,
            counts,
        })
    }

    /// Adds the line of a place, a long one in part, and carets from there up to another place, or to the end of what is shown if
    /// that comes first.
    fn push_excerpt(
        &self,
        alloc: Global,
        out: &mut String,
        number: usize,
        at: usize,
        to: usize,
    ) -> Result<(), AllocError>
        requires at { IsCharBoundary self.now.text.now at }
        requires to { IsCharBoundary self.now.text.now to }
        requires number { number ≡ line_of self.now.text.now at }
        ensures { OnOk result (string_bytes out.new ≡ string_bytes out.old
            ++ excerpt self.now.text.now at to) }
    {
        let line = line_at(&self.newlines, self.text, at);
        let (start, end) = (line.start(), line.end());
        let most = most_of(part(self.text, start, end));
        let place = at.min(end);
        let front = part(self.text, start, place);
        push_numbered(out, number, front, part(self.text, place, end), most)?;
        let part = part(self.text, at, to.min(end));
        push_underlined(alloc, out, number, front, part, most)
    }

    /// Adds a message at a span, the line where the span begins, and carets under the span.
    pub(crate) fn push_place(
        &self,
        alloc: Global,
        out: &mut String,
        span: Span,
        message: &str,
    ) -> Result<(), AllocError>
        ensures { OnOk result (string_bytes out.new ≡ string_bytes out.old
            ++ place_text self.now.file.now self.now.text.now (as_span span) message.now) }
    {
        let at = nearest(self.text, span.start());
        let to = nearest(self.text, span.end());
        let number = self.newlines.line_at(at) + 1;
        let begin = line_at(&self.newlines, self.text, at).start();
        let column = column(&self.counts, self.text, begin, at);
        push_heading(out, self.file, number, column, message)?;
        self.push_excerpt(alloc, out, number, at, to)
    }
}

/// A message at a span of a text, as compilers show it: `FILE:L:C: MESSAGE`, then the line with its number, then carets under the
/// span, up to the end of the line where it begins.
///
/// Any span will do. A span end inside a character is moved back to the character's start, and one after the text's end to that
/// end.
pub fn place_text(
    alloc: Global,
    file: &str,
    text: &str,
    span: Span,
    message: &str,
) -> Result<String, AllocError>
    ensures { IfOk result (λ shown. string_bytes shown
        ≡ place_text file.now text.now (as_span span) message.now) }
{
    let source = Source::new(alloc, file, text)?;
    let mut shown = String::new(alloc);
    source.push_place(alloc, &mut shown, span, message)?;
    Ok(shown)
}
