//! Alternatives of a pattern that never match, since an earlier one is their beginning.
ghost use Rattle.std.specs.Prelude.{◌≡◌, ◌<◌, ◌≤◌, ◌∷◌, length, IfSome};
ghost use Rattle.std.specs.List.{list_any};
ghost use Rattle.std.specs.Option.{option_copied};
ghost use Rattle.lrlex_report.specs.Alternatives.{is_bar, alternatives, alternatives_left, is_obstacle, is_plain, is_repeat, extends, has_lost, loses_part};
ghost use Rattle.lrlex_report.specs.PatternClasses.{at_beginning, from_first};

use crate::warnings::pattern_classes::{BEGINNING, Context};

/// The most bytes of a pattern whose alternatives are compared: there are up to half as many, and each is compared with all after it.
const LONGEST: usize = 4_096;

/// Whether a `|` that parts alternatives stands here, outside classes of characters.
fn is_bar(context: Context, rest: &[u8]) -> bool
    ensures { result ≡ is_bar context rest.now }
{
    match rest {
        [b'|', ..] => context.classes == 0,
        _ => false,
    }
}

/// The pattern from its first such `|` on, or nothing.
fn from_bar(pattern: &[u8]) -> &[u8]
    ensures left { result.now ≡ from_first is_bar at_beginning pattern.now }
    ensures within { length result.now ≤ length pattern.now }
{
    let mut context = BEGINNING;
    let mut rest = pattern;
    while !rest.is_empty() {
        if is_bar(context, rest) {
            return rest;
        }
        (context, rest) = context.step(rest);
    }
    rest
}

/// The first alternative of a pattern, and what follows its `|`, if there is one.
fn first_alternative(pattern: &[u8]) -> (&[u8], Option<&[u8]>)
    ensures parts { alternatives pattern.now ≡ result.0.now ∷ alternatives_left (option_copied result.1) }
    ensures shorter { IfSome (option_copied result.1) (λ rest. length rest < length pattern.now) }
{
    let left = from_bar(pattern);
    let first = &pattern[..pattern.len() - left.len()];
    match left {
        [_, rest @ ..] => (first, Some(rest)),
        [] => (first, None),
    }
}

/// Whether a group begins or ends here, or an escape of a digit, as `\1`, which may take the digits behind it too.
fn is_obstacle(context: Context, rest: &[u8]) -> bool
    ensures { result ≡ is_obstacle context rest.now }
{
    if context.classes > 0 {
        return false;
    }
    match rest {
        [b'(' | b')', ..] => true,
        [b'\\', c, ..] => c.is_ascii_digit(),
        _ => false,
    }
}

/// Whether the texts of a pattern's alternatives can be compared: it has no groups, and no escapes of digits.
fn is_plain(pattern: &[u8]) -> bool
    ensures { result ≡ is_plain pattern.now }
{
    let mut context = BEGINNING;
    let mut rest = pattern;
    while !rest.is_empty() {
        if is_obstacle(context, rest) {
            return false;
        }
        (context, rest) = context.step(rest);
    }
    true
}

/// Whether the byte, behind a character or a class, says how often it comes, perhaps never.
fn is_repeat(b: u8) -> bool
    ensures { result ≡ is_repeat b }
{
    matches!(b, b'*' | b'?' | b'{')
}

/// Whether an alternative begins with another, which isn't repeated or left out there.
fn extends(part: &[u8], other: &[u8]) -> bool
    ensures { result ≡ extends part.now other.now }
{
    if !other.starts_with(part) {
        return false;
    }
    match other.get(part.len()) {
        Some(next) => !is_repeat(*next),
        None => true,
    }
}

/// Whether one of the alternatives that are left begins with this one.
fn some_extends(part: &[u8], left: Option<&[u8]>) -> bool
    ensures { result ≡ list_any (λ other. extends part.now other)
        (alternatives_left (option_copied left.entry)) }
{
    let mut left = left;
    while let Some(rest) = left {
        let (other, more) = first_alternative(rest);
        if extends(part, other) {
            return true;
        }
        left = more;
    }
    false
}

/// Whether one of the alternatives begins with an earlier one.
fn has_lost(pattern: &[u8]) -> bool
    ensures { result ≡ has_lost (alternatives pattern.now) }
{
    let mut left = Some(pattern);
    while let Some(rest) = left {
        let (part, more) = first_alternative(rest);
        if some_extends(part, more) {
            return true;
        }
        left = more;
    }
    false
}

/// Whether a pattern of at most 4,096 bytes has alternatives that can be compared, one of which begins with an earlier one.
pub(crate) fn loses_part(pattern: &[u8]) -> bool
    ensures { result ≡ loses_part pattern.now }
{
    pattern.len() <= LONGEST && is_plain(pattern) && has_lost(pattern)
}
