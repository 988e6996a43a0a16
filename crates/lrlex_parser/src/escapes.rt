ghost use Rattle.std.specs.Prelude.{◌≡◌, ◌||◌, IfOk};
ghost use Rattle.std.specs.String.{string_bytes};
ghost use Rattle.lrlex_parser.specs.Escape.{is_meta, begins_escape, unescape, ends_in_escape, trim_head};

use crate::text::trim_end;
use std::alloc::{AllocError, Global};

/// Whether a backslash before the character stays, where `rest` follows it.
pub(crate) fn keeps_backslash(c: char, rest: &str) -> bool
    ensures { result ≡ (is_meta c || begins_escape c rest.now) }
{
    match c {
        '\\'
        | '.'
        | '+'
        | '*'
        | '?'
        | '('
        | ')'
        | '|'
        | '['
        | ']'
        | '{'
        | '}'
        | '^'
        | '$'
        | '#'
        | '&'
        | '-'
        | '~' => true,
        '0'..='9' => true,
        'a'
        | 'f'
        | 'n'
        | 'r'
        | 't'
        | 'v'
        | 'p'
        | 'P'
        | 'd'
        | 'D'
        | 's'
        | 'S'
        | 'w'
        | 'W'
        | 'A'
        | 'z' => true,
        'x' | 'u' | 'U' => rest
            .as_bytes()
            .first()
            .is_some_and(|b| b.is_ascii_hexdigit()),
        _ => false,
    }
}

/// Whether a text ends in an odd number of backslashes.
pub(crate) fn ends_in_escape(text: &str) -> bool
    ensures { result ≡ ends_in_escape text.now }
{
    let mut escaped = false;
    for b in text.as_bytes() {
        escaped = *b == b'\\' && !escaped;
    }
    escaped
}

/// A head without the white space at its end, but for the first character of it where that is escaped.
pub(crate) fn trim_head(head: &str) -> &str
    ensures { result.now ≡ trim_head head.now }
{
    let kept = trim_end(head);
    if !ends_in_escape(kept) {
        return kept;
    }
    let (_, dropped) = head.split_at(kept.len());
    let mut rest = dropped.chars();
    rest.next();
    &head[..head.len() - rest.as_str().len()]
}

/// The pattern with its escapes rewritten.
pub(crate) fn unescape(alloc: Global, pattern: &str, posix: bool) -> Result<String, AllocError>
    ensures { IfOk result (λ text. string_bytes text ≡ unescape posix pattern.now) }
{
    let mut out = String::new(alloc);
    let mut rest = pattern.chars();
    while let Some(c) = rest.next() {
        if c != '\\' {
            out.push(c)?;
            continue;
        }
        match rest.next() {
            None => out.push('\\')?,
            Some('b') => out.push_str(if posix { "\\x08" } else { "\\b" })?,
            Some(d) => {
                if keeps_backslash(d, rest.as_str()) {
                    out.push('\\')?;
                }
                out.push(d)?;
            }
        }
    }
    Ok(out)
}
