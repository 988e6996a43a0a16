//! Patterns that are meant literally: a text in quotes, also as a part, and operators alone.
ghost use Rattle.std.specs.Prelude.{◌≡◌, ◌<◌, length, IfSome};
ghost use Rattle.std.specs.List.{position};
ghost use Rattle.lrlex_report.specs.Literals.{is_quote, is_varied, varies, is_literal, is_quoted, is_double, ends_text, has_quoted_part, ends_in_name, is_bare_operator, are_bare_operators, is_bare};

use crate::ranges::before_blank;
use crate::warnings::pattern_classes::BEGINNING;

/// Whether the byte is a quote.
fn is_quote(byte: u8) -> bool
    ensures { result ≡ is_quote byte }
{
    match byte {
        b'"' | b'\'' => true,
        _ => false,
    }
}

/// Whether a byte between quotes is a quote too, or lets the pattern match more than one text: a backslash, `.` or `[`.
fn is_varied(byte: u8) -> bool
    ensures { result ≡ is_varied byte }
{
    match byte {
        b'"' | b'\'' | b'\\' | b'.' | b'[' => true,
        _ => false,
    }
}

/// Whether what is between quotes has such a byte.
fn varies(inside: &[u8]) -> bool
    ensures { result ≡ varies inside.now }
{
    inside.iter().any(|b| is_varied(*b))
}

/// Whether what is between quotes is a text, and no pattern for texts.
fn is_literal(inside: &[u8]) -> bool
    ensures { result ≡ is_literal inside.now }
{
    !inside.is_empty() && !varies(inside)
}

/// Whether a pattern is a text in quotes.
pub(crate) fn is_quoted(pattern: &[u8]) -> bool
    ensures { result ≡ is_quoted pattern.now }
{
    let [quote, rest @ ..] = pattern else {
        return false;
    };
    match rest {
        [inside @ .., last] => is_quote(*quote) && *last == *quote && is_literal(inside),
        [] => false,
    }
}

/// Where the next double quote is.
fn next_double(rest: &[u8]) -> Option<usize>
    ensures place { result ≡ position is_double rest.now }
    ensures bound { IfSome result (λ at. at < length rest.now) }
{
    rest.iter().position(|b| *b == b'"')
}

/// Whether what is behind a quote is a text, and then one quote alone.
fn ends_text(rest: &[u8]) -> bool
    ensures { result ≡ ends_text rest.now }
{
    let Some(end) = next_double(rest) else {
        return false;
    };
    is_literal(&rest[..end]) && !rest[end + 1..].starts_with(b"\"")
}

/// Whether the first double quote of a pattern, outside classes of characters, begins a text in quotes.
pub(crate) fn has_quoted_part(pattern: &[u8]) -> bool
    ensures { result ≡ has_quoted_part pattern.now }
{
    let mut context = BEGINNING;
    let mut rest = pattern;
    while let [b, after @ ..] = rest {
        if context.classes == 0 && *b == b'"' {
            return ends_text(after);
        }
        (context, rest) = context.step(rest);
    }
    false
}

/// Whether the last word of a pattern is a text in quotes, as a name is.
pub(crate) fn ends_in_name(pattern: &str) -> bool
    ensures { result ≡ ends_in_name pattern.now }
{
    let front = before_blank(pattern).len();
    front < pattern.len() && is_quoted(&pattern.as_bytes()[front + 1..])
}

/// Whether the byte is an operator that matches no byte.
fn is_bare_operator(byte: u8) -> bool
    ensures { result ≡ is_bare_operator byte }
{
    match byte {
        b'|' | b'^' | b'$' => true,
        _ => false,
    }
}

/// Whether these are such operators alone.
fn are_bare_operators(pattern: &[u8]) -> bool
    ensures { result ≡ are_bare_operators pattern.now }
{
    pattern.iter().all(|b| is_bare_operator(*b))
}

/// Whether a pattern is operators that match no byte.
pub(crate) fn is_bare(pattern: &[u8]) -> bool
    ensures { result ≡ is_bare pattern.now }
{
    !pattern.is_empty() && are_bare_operators(pattern)
}
