ghost use Rattle.std.specs.Prelude.{◌≡◌, ◌+◌, ◌-◌, ◌^◌, ◌<◌, ◌≤◌, ◌∷◌, ℕ, length, drop, take, map, nat_lt, false, MatchOption, IfOk, IfSome};
ghost use Rattle.std.specs.List.{list_any, prefix_len};
ghost use Rattle.std.specs.Option.{option_copied, option_map};
ghost use Rattle.std.specs.Str.{chars};
ghost use Rattle.lrlex_base.specs.Classes.{is_white_space, is_blank};
ghost use Rattle.lrlex_parser.specs.Text.{SplitsAtLast, trim_start, trim_end, trim_text, trim, cut, cut_lines, lines_left, pieces_left, piece, is_white};
ghost use Rattle.lrlex_parser.specs.Declaration.{is_skipped, ends_section, section_lines, section_end, first_word};
ghost use Rattle.lrlex_parser.specs.LexParser.{as_piece, laid_out, MarkAt, StandsIn, EndBy, line_end};

use lrlex_base::{is_blank, is_line_sep, is_white_space};
use std::alloc::{AllocError, Global};

/// The text without the white space at its end.
pub(crate) fn trim_end(text: &str) -> &str
    ensures value { result.now ≡ trim_end text.now }
    ensures front { result.now ≡ take (length result.now) text.now }
    ensures bound { length result.now ≤ length text.now }
{
    text.trim_end_matches(|c: char| is_white_space(c))
}

/// The text without the white space at its front.
pub(crate) fn trim_start(text: &str) -> &str
    ensures value { result.now ≡ trim_start text.now }
    ensures back { result.now ≡ drop (length text.now - length result.now) text.now }
    ensures bound { length result.now ≤ length text.now }
{
    text.trim_start_matches(|c: char| is_white_space(c))
}

/// The text without the white space at both ends.
pub(crate) fn trim_text(text: &str) -> &str
    ensures value { result.now ≡ trim_text text.now }
    ensures bound { length result.now ≤ length text.now }
{
    trim_end(trim_start(text))
}

/// Whether a text is of white space alone.
pub(crate) fn is_white(text: &str) -> bool
    ensures { result ≡ is_white text.now }
{
    text.chars().all(|c: char| is_white_space(c))
}

/// Whether a text begins with white space.
pub(crate) fn begins_with_white(text: &str) -> bool
    ensures { result ≡ nat_lt 0 (prefix_len is_white_space (chars text.now)) }
{
    text.starts_with(|c: char| is_white_space(c))
}

/// The first word of a text, and what follows it.
pub(crate) fn first_word(text: &str) -> (&str, &str)
    ensures word { result.0.now ≡ first_word text.now }
    ensures rest { result.1.now ≡ drop (length result.0.now) text.now }
    ensures whole { length result.0.now + length result.1.now ≡ length text.now }
{
    match text.find(|c: char| is_white_space(c)) {
        Some(end) => text.split_at(end),
        None => (text, ""),
    }
}

/// The first line of a text, and what follows its separator, if it has one.
pub(crate) fn next_line(text: &str) -> (&str, Option<&str>)
    ensures pieces { (o : ℕ) → cut_lines (piece o text.now)
        ≡ piece o result.0.now ∷ lines_left (o + length text.now) (option_copied result.1) }
    ensures shorter { IfSome (option_copied result.1) (λ rest. length rest < length text.now) }
    ensures front { result.0.now ≡ take (length result.0.now) text.now }
    ensures back { IfSome (option_copied result.1)
        (λ rest. rest ≡ drop (length text.now - length rest) text.now) }
    ensures within { length result.0.now ≤ length text.now }
{
    match text.split_once(|c: char| is_line_sep(c)) {
        Some((line, rest)) => (line, Some(rest)),
        None => (text, None),
    }
}

/// The first name of a text, and what follows the white space character after it, if there is one.
pub(crate) fn next_name(text: &str) -> (&str, Option<&str>)
    ensures pieces { (o : ℕ) → cut is_white_space (piece o text.now)
        ≡ piece o result.0.now
        ∷ pieces_left is_white_space (o + length text.now) (option_copied result.1) }
    ensures shorter { IfSome (option_copied result.1) (λ rest. length rest < length text.now) }
    ensures within { length result.0.now ≤ length text.now }
{
    match text.split_once(|c: char| is_white_space(c)) {
        Some((name, rest)) => (name, Some(rest)),
        None => (text, None),
    }
}

/// What is before the last blank of a text, and what is after it.
pub(crate) fn split_last_blank(text: &str) -> Option<(&str, &str)>
    ensures cases { MatchOption result (list_any is_blank text.now ≡ false)
        (λ x. SplitsAtLast is_blank text.now x.0.now x.1.now) }
    ensures whole { IfSome result (λ x. length x.0.now + 1 + length x.1.now ≤ length text.now) }
{
    text.rsplit_once(|c: char| is_blank(c))
}

/// What becomes of the white space at both ends of a line.
#[derive(Clone, Copy)]
pub(crate) enum Margins {
    /// It is left out, as in the declarations.
    Trimmed,
    /// It stays, as in the rules section.
    Kept,
}

/// A line of a text, and the offset of its first byte.
#[derive(Clone, Copy, Debug)]
pub(crate) struct Line<'a> {
    pub(crate) at: usize,
    pub(crate) text: &'a str,
}

impl<'a> Line<'a> {
    /// The line without the white space at both ends.
    pub(crate) fn trim(self) -> Line<'a>
        requires { self.at + length self.text.now < 2 ^ 64 }
        ensures value { as_piece result ≡ trim (as_piece self.entry) }
        ensures stands { StandsIn self.entry.at self.entry.text.now result }
    {
        let text = trim_start(self.text);
        Line {
            at: self.at + (self.text.len() - text.len()),
            text: trim_end(text),
        }
    }

    /// The line with these margins.
    pub(crate) fn laid_out(self, margins: Margins) -> Line<'a>
        requires { self.at + length self.text.now < 2 ^ 64 }
        ensures value { as_piece result ≡ laid_out margins (as_piece self.entry) }
        ensures stands { StandsIn self.entry.at self.entry.text.now result }
    {
        match margins {
            Margins::Trimmed => self.trim(),
            Margins::Kept => self,
        }
    }
}

/// Whether a line is empty, or a comment.
pub(crate) fn is_skipped(line: &str, comments: bool) -> bool
    ensures { result ≡ is_skipped comments line.now }
{
    line.is_empty() || comments && line.starts_with("//")
}

/// Whether a line ends its section.
pub(crate) fn ends_section(line: &str) -> bool
    ensures { result ≡ ends_section line.now }
{
    line.starts_with("%%")
}

/// The lines of a section, and the line that ends it.
#[derive(Drop)]
pub(crate) struct Section<'a> {
    pub(crate) lines: Vec<Line<'a>>,
    pub(crate) end: Option<Line<'a>>,
}

/// Reads the lines of a section, in a text that begins at `at`.
pub(crate) fn read_section<'a>(
    alloc: Global,
    text: &'a str,
    at: usize,
    comments: bool,
    margins: Margins,
) -> Result<Section<'a>, AllocError>
    requires { at + length text.now < 2 ^ 64 }
    ensures lines { IfOk result (λ s. map as_piece s.lines.items
        ≡ section_lines comments (map (laid_out margins) (cut_lines (piece at text.now)))) }
    ensures end { IfOk result (λ s. option_map as_piece s.end
        ≡ section_end (map (laid_out margins) (cut_lines (piece at text.now)))) }
    ensures fit { IfOk result (λ s. EndBy (at + length text.now) s.lines.items) }
    ensures mark { IfOk result (λ s. IfSome s.end (MarkAt at text.now)) }
{
    let end = at + text.len();
    let mut lines = Vec::new(alloc);
    let mut left = Some(text);
    while let Some(rest) = left {
        let (first, more) = next_line(rest);
        let line = Line {
            at: end - rest.len(),
            text: first,
        };
        let line = line.laid_out(margins);
        if ends_section(line.text) {
            return Ok(Section {
                lines,
                end: Some(line),
            });
        }
        if !is_skipped(line.text, comments) {
            lines.push(line)?;
        }
        left = more;
    }
    Ok(Section { lines, end: None })
}

/// What follows the `%%` of a mark, in a text that begins at `at`.
pub(crate) fn after_mark<'a>(text: &'a str, at: usize, mark: Line) -> &'a str
    requires fits { at + length text.now < 2 ^ 64 }
    requires mark { MarkAt at text.now mark }
    ensures { result.now ≡ drop ((mark.entry.at - at) + 2) text.now }
{
    let (_, after) = text.split_at(mark.at - at + 2);
    after
}

/// The text without the blanks at its front.
pub(crate) fn skip_blanks(text: &str) -> &str
    ensures value { result.now ≡ drop (prefix_len is_blank text.now) text.now }
    ensures bound { length result.now ≤ length text.now }
{
    text.trim_start_matches(|c: char| is_blank(c))
}
