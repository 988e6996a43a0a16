//! Classes of characters with a name, as `[:alpha:]`, that `regex` doesn't know: it reads a set of the characters between the
//! brackets, as it does outside a class.
ghost use Rattle.std.specs.Prelude.{◌≡◌, ◌<◌, length, IfSome};
ghost use Rattle.std.specs.List.{position};
ghost use Rattle.lrlex_report.specs.ClassNames.{names_letters, names_space, names_digits, names_hex_digits, names_others, is_class_name, is_no_letter, is_unknown_at, is_unknown_name, begins_name, is_unknown_class, has_unknown_class};

use crate::warnings::pattern_classes::{BEGINNING, Context, Part};

/// The names of classes of letters.
const LETTERS: [&[u8]; 5] = [b"alnum", b"alpha", b"lower", b"upper", b"word"];

/// The names of classes of white space.
const SPACE: [&[u8]; 2] = [b"blank", b"space"];

/// The names of other classes that `regex` knows, but those of digits.
const OTHERS: [&[u8]; 5] = [b"ascii", b"cntrl", b"graph", b"print", b"punct"];

/// Whether this is the name of a class of letters.
fn names_letters(name: &[u8]) -> bool
    ensures { result ≡ names_letters name.now }
{
    LETTERS.iter().any(|known| name == *known)
}

/// Whether this is the name of a class of white space.
fn names_space(name: &[u8]) -> bool
    ensures { result ≡ names_space name.now }
{
    SPACE.iter().any(|known| name == *known)
}

/// Whether this is the name of the class of decimal digits.
fn names_digits(name: &[u8]) -> bool
    ensures { result ≡ names_digits name.now }
{
    match name {
        b"digit" => true,
        _ => false,
    }
}

/// Whether this is the name of the class of hexadecimal digits, `xdigit`.
fn names_hex_digits(name: &[u8]) -> bool
    ensures { result ≡ names_hex_digits name.now }
{
    match name {
        [b'x', rest @ ..] => names_digits(rest),
        _ => false,
    }
}

/// Whether this is the name of another class that `regex` knows.
fn names_others(name: &[u8]) -> bool
    ensures { result ≡ names_others name.now }
{
    OTHERS.iter().any(|known| name == *known)
}

/// Whether `regex` knows a class with this name.
fn is_class_name(name: &[u8]) -> bool
    ensures { result ≡ is_class_name name.now }
{
    names_letters(name)
        || names_space(name)
        || names_digits(name)
        || names_hex_digits(name)
        || names_others(name)
}

/// Where the letters at the front of a text end.
fn letters_end(text: &[u8]) -> Option<usize>
    ensures place { result ≡ position is_no_letter text.now }
    ensures bound { IfSome result (λ at. at < length text.now) }
{
    text.iter().position(|b| !b.is_ascii_alphabetic())
}

/// Whether a name and `:]` begin a text that follows `[:`, and none that `regex` knows here.
fn is_unknown_name(within: bool, text: &[u8]) -> bool
    ensures { result ≡ is_unknown_name within text.now }
{
    let Some(end) = letters_end(text) else {
        return false;
    };
    end > 0 && text[end..].starts_with(b":]") && !(within && is_class_name(&text[..end]))
}

/// Whether these bytes begin a class with a name, or what looks so outside a class.
fn begins_name(part: Part, b: u8, c: u8) -> bool
    ensures { result ≡ begins_name part b c }
{
    match part {
        Part::Range => false,
        _ => b == b'[' && c == b':',
    }
}

/// Whether such a class begins here, and `regex` doesn't know it.
fn is_unknown_class(context: Context, rest: &[u8]) -> bool
    ensures { result ≡ is_unknown_class context rest.now }
{
    let within = context.classes > 0;
    match rest {
        [b, c, b'^', text @ ..] => {
            begins_name(context.part, *b, *c) && is_unknown_name(within, text)
        }
        [b, c, text @ ..] => begins_name(context.part, *b, *c) && is_unknown_name(within, text),
        _ => false,
    }
}

/// Whether a pattern has a class with a name that `regex` doesn't know, or one outside a class.
pub(crate) fn has_unknown_class(pattern: &[u8]) -> bool
    ensures { result ≡ has_unknown_class pattern.now }
{
    let mut context = BEGINNING;
    let mut rest = pattern;
    while !rest.is_empty() {
        if is_unknown_class(context, rest) {
            return true;
        }
        (context, rest) = context.step(rest);
    }
    false
}
