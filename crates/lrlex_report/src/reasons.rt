//! Why lexing stopped, in words.
ghost use Rattle.std.specs.Prelude.{◌≡◌, ◌++◌, IfOk, OnOk, IsCharBoundary, option_map, string_bytes};
ghost use Rattle.lrlex_report.specs.Reasons.{is_unseen, quoted, unexpected, in_state, reason, char_at};

use std::alloc::{AllocError, Global};
use std::fmt::Write;
use unicode_width::UnicodeWidthChar;

/// Whether nobody sees a character: it is white space other than the space, or it takes no column in a terminal.
fn is_unseen(c: char) -> bool
    ensures { result ≡ is_unseen c }
{
    c != ' ' && (c.is_whitespace() || c.width().unwrap_or(0) == 0)
}

/// Adds a character in single quotes; one that nobody sees as Rust escapes it.
fn push_quoted(out: &mut String, c: char) -> Result<(), AllocError>
    ensures { OnOk result (string_bytes out.new ≡ string_bytes out.old ++ quoted c) }
{
    match c {
        '\t' => out.push_str("'\\t'"),
        '\n' => out.push_str("'\\n'"),
        '\r' => out.push_str("'\\r'"),
        _ if is_unseen(c) => {
            let code = c as u32;
            out.push_str("'\\u{")?;
            write!(out, "{code:x}")?;
            out.push_str("}'")
        }
        _ => write!(out, "'{c}'"),
    }
}

/// The character at a place; `None` at the end of the text. The place counts bytes from 0.
pub(crate) fn char_at(text: &str, at: usize) -> Option<char>
    requires { IsCharBoundary text.now at }
    ensures { result ≡ char_at text.now at }
{
    text[at..].chars().next()
}

/// Adds what was found where no rule matches: a character, or the end of the text.
fn push_unexpected(out: &mut String, found: Option<char>) -> Result<(), AllocError>
    ensures { OnOk result (string_bytes out.new ≡ string_bytes out.old ++ unexpected found) }
{
    match found {
        None => out.push_str("unexpected end of the text"),
        Some(c) => {
            out.push_str("unexpected character ")?;
            push_quoted(out, c)
        }
    }
}

/// Adds ` in start state NAME` if there is a name.
fn push_state(out: &mut String, name: Option<&str>) -> Result<(), AllocError>
    ensures { OnOk result (string_bytes out.new ≡ string_bytes out.old
        ++ in_state (option_map (λ t. t.now) name.entry)) }
{
    match name {
        None => Ok(()),
        Some(name) => {
            out.push_str(" in start state ")?;
            out.push_str(name)
        }
    }
}

/// Why lexing stopped, in words.
///
/// With a state: no rule matched in the start state with this number, at the character that was found or at the end of the text;
/// the state is named if there is a name. Without a state: the rule that matched gives no lexeme.
pub(crate) fn reason(
    alloc: Global,
    state: Option<usize>,
    found: Option<char>,
    name: Option<&str>,
) -> Result<String, AllocError>
    ensures { IfOk result (λ s. string_bytes s
        ≡ reason state found (option_map (λ t. t.now) name.entry)) }
{
    if state.is_none() {
        return String::from_str(alloc, "the rule that matches here gives no lexeme");
    }
    let mut reason = String::new(alloc);
    push_unexpected(&mut reason, found)?;
    push_state(&mut reason, name)?;
    Ok(reason)
}
