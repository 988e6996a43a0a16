//! A dot that takes all that follows.
ghost use Rattle.std.specs.Prelude.{◌≡◌};
ghost use Rattle.lrlex_report.specs.Dots.{begins_with_flags, has_greedy_dot, is_greedy_dot};

use crate::warnings::pattern_classes::{BEGINNING, Context};

/// Whether a dot with `*` or `+` stands here, outside classes of characters and without the `?` that makes it lazy.
fn is_greedy_dot(context: Context, rest: &[u8]) -> bool
    ensures { result ≡ is_greedy_dot context rest.now }
{
    if context.classes > 0 {
        return false;
    }
    match rest {
        [b'.', _, b'?', ..] => false,
        [b'.', c, ..] => *c == b'*' || *c == b'+',
        _ => false,
    }
}

/// Whether a pattern has a dot with `*` or `+`, outside classes of characters and without the `?` that makes it lazy.
pub(crate) fn has_greedy_dot(pattern: &[u8]) -> bool
    ensures { result ≡ has_greedy_dot pattern.now }
{
    let mut context = BEGINNING;
    let mut rest = pattern;
    while !rest.is_empty() {
        if is_greedy_dot(context, rest) {
            return true;
        }
        (context, rest) = context.step(rest);
    }
    false
}

/// Whether a pattern begins with flags of its own, as `(?s)`, or with a group that has a name.
pub(crate) fn begins_with_flags(pattern: &str) -> bool
    ensures { result ≡ begins_with_flags pattern.now }
{
    pattern.starts_with("(?") && !pattern.starts_with("(?:")
}
