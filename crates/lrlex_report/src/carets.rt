//! How the characters of a line are shown, and the blanks and carets under them.
ghost use Rattle.std.specs.Prelude.{◌≡◌, ◌<◌, ◌-◌, ◌++◌, nat_lt, OnOk, length, take, drop, replicate, string_bytes};
ghost use Rattle.std.specs.Str.{chars};
ghost use Rattle.lrlex_report.specs.Carets.{shown_char, shown_line, most_of, if_hidden, shown_front, shown_rest, columns, under, padding, marks, carets};

use std::alloc::AllocError;
use unicode_width::UnicodeWidthChar;

/// The character that is shown for this one in a terminal or a page: U+FFFD for a control character of Unicode other than the tab,
/// and else itself.
pub fn shown_char(c: char) -> char
    ensures { result ≡ shown_char c }
{
    if c.is_control() && c != '\t' {
        char::REPLACEMENT_CHARACTER
    } else {
        c
    }
}

/// How many columns a character takes in a terminal, as it is shown.
fn columns(c: char) -> usize
    ensures { result ≡ columns c }
{
    shown_char(c).width().unwrap_or(1)
}

/// Adds an ASCII character a number of times.
pub(crate) fn push_times(out: &mut String, c: char, times: usize) -> Result<(), AllocError>
    requires { c < 128 }
    ensures { OnOk result (string_bytes out.new ≡ string_bytes out.old ++ replicate times c) }
{
    let mut done = 0;
    'times: while done < times {
        out.push(c)?;
        done += 1;
    }
    Ok(())
}

/// Whether a text has more characters than this. It looks at no more than one after them.
fn has_more(text: &str, most: usize) -> bool
    ensures { result ≡ nat_lt most (length (chars text.now)) }
{
    text.chars().nth(most).is_some()
}

/// How many characters of a line are shown before a place, and how many from there on.
pub(crate) fn most_of(line: &str) -> usize
    ensures { result ≡ most_of (chars line.now) }
{
    if has_more(line, 200) { 80 } else { 200 }
}

/// The last characters of a text, so many at most. It looks at no others.
fn last_chars(text: &str, most: usize) -> &str
    ensures { chars result.now ≡ drop (length (chars text.now) - most) (chars text.now) }
{
    let mut before = text;
    'last: for _ in 0..most {
        let mut rest = before.chars();
        rest.next_back();
        before = rest.as_str();
    }
    &text[before.len()..]
}

/// Adds `mark` if characters of a text are hidden, of which so many are shown at most.
fn push_if_hidden(out: &mut String, text: &str, most: usize, mark: &str) -> Result<(), AllocError>
    ensures { OnOk result (string_bytes out.new ≡ string_bytes out.old
        ++ if_hidden (length (chars text.now) - most) mark.now) }
{
    if has_more(text, most) {
        out.push_str(mark)
    } else {
        Ok(())
    }
}

/// Adds the characters of a text, each as it is shown.
fn push_shown(out: &mut String, text: &str) -> Result<(), AllocError>
    ensures { OnOk result (string_bytes out.new ≡ string_bytes out.old
        ++ shown_line (chars text.now)) }
{
    for c in text.chars() {
        out.push(shown_char(c))?;
    }
    Ok(())
}

/// Adds the first characters of a text, so many at most, each as it is shown.
fn push_first(out: &mut String, text: &str, most: usize) -> Result<(), AllocError>
    ensures { OnOk result (string_bytes out.new ≡ string_bytes out.old
        ++ shown_line (take most (chars text.now))) }
{
    for c in text.chars().take(most) {
        out.push(shown_char(c))?;
    }
    Ok(())
}

/// Adds what is shown of the text of a line before a place: so many characters at most.
pub(crate) fn push_front(out: &mut String, front: &str, most: usize) -> Result<(), AllocError>
    ensures { OnOk result (string_bytes out.new ≡ string_bytes out.old
        ++ shown_line (shown_front most (chars front.now))) }
{
    push_if_hidden(out, front, most, "...")?;
    push_shown(out, last_chars(front, most))
}

/// Adds what is shown of the text of a line from a place on: so many characters at most.
pub(crate) fn push_rest(out: &mut String, rest: &str, most: usize) -> Result<(), AllocError>
    ensures { OnOk result (string_bytes out.new ≡ string_bytes out.old
        ++ shown_line (shown_rest most (chars rest.now))) }
{
    push_first(out, rest, most)?;
    push_if_hidden(out, rest, most, "...")
}

/// Adds what goes under a character before the carets: a tab under a tab, and else blanks.
fn push_under(out: &mut String, c: char) -> Result<(), AllocError>
    ensures { OnOk result (string_bytes out.new ≡ string_bytes out.old ++ under c) }
{
    if c == '\t' {
        out.push('\t')
    } else {
        push_times(out, ' ', columns(c))
    }
}

/// Adds what goes under the characters of a text.
fn push_under_each(out: &mut String, text: &str) -> Result<(), AllocError>
    ensures { OnOk result (string_bytes out.new ≡ string_bytes out.old
        ++ padding (chars text.now)) }
{
    for c in text.chars() {
        push_under(out, c)?;
    }
    Ok(())
}

/// Adds what goes under the text before the carets, as wide as what is shown of that text is in a terminal.
pub(crate) fn push_padding(out: &mut String, front: &str, most: usize) -> Result<(), AllocError>
    ensures { OnOk result (string_bytes out.new ≡ string_bytes out.old
        ++ padding (shown_front most (chars front.now))) }
{
    push_if_hidden(out, front, most, "   ")?;
    push_under_each(out, last_chars(front, most))
}

/// Adds a caret in each column of the first characters of a text, so many at most.
fn push_marks(out: &mut String, part: &str, most: usize) -> Result<(), AllocError>
    ensures { OnOk result (string_bytes out.new ≡ string_bytes out.old
        ++ marks (take most (chars part.now))) }
{
    for c in part.chars().take(most) {
        push_times(out, '^', columns(c))?;
    }
    Ok(())
}

/// Adds a caret in each column of the first characters of a text, so many at most, and at least one caret.
pub(crate) fn push_carets(out: &mut String, part: &str, most: usize) -> Result<(), AllocError>
    ensures { OnOk result (string_bytes out.new ≡ string_bytes out.old
        ++ carets (take most (chars part.now))) }
{
    let before = out.len();
    push_marks(out, part, most)?;
    if out.len() == before {
        out.push('^')?;
    }
    Ok(())
}
