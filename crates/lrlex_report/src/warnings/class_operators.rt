//! Operators within a class of characters that are hardly meant: `[` begins another class, and `--`, `&&` and `~~` are operations on
//! sets. An operation with a class on its right side is meant, as in `[a-z&&[^b]]`.
ghost use Rattle.std.specs.Prelude.{◌≡◌};
ghost use Rattle.lrlex_report.specs.ClassOperators.{may_nest, begins_class, is_class_operator, has_class_operator};

use crate::warnings::pattern_classes::{BEGINNING, Context, Part};

/// Whether a `[` here begins a class within a class, and none on the right side of an operation.
fn may_nest(part: Part) -> bool
    ensures { result ≡ may_nest part }
{
    match part {
        Part::Bracket | Part::Caret | Part::Hyphens | Part::Inside | Part::Member => true,
        Part::Beginning | Part::Outside | Part::Range | Part::Operated => false,
    }
}

/// Whether these bytes begin a class, but none with a name.
fn begins_class(b: u8, c: u8) -> bool
    ensures { result ≡ begins_class b c }
{
    b == b'[' && c != b':'
}

/// Whether an operator stands here that is hardly meant.
fn is_class_operator(context: Context, rest: &[u8]) -> bool
    ensures { result ≡ is_class_operator context rest.now }
{
    let part = context.part;
    match rest {
        [b, c, b'[', ..] => may_nest(part) && begins_class(*b, *c),
        [b, c, ..] => may_nest(part) && begins_class(*b, *c) || part.is_operation(*b, *c),
        _ => false,
    }
}

/// Whether a pattern has an operator within a class of characters that is hardly meant.
pub(crate) fn has_class_operator(pattern: &[u8]) -> bool
    ensures { result ≡ has_class_operator pattern.now }
{
    let mut context = BEGINNING;
    let mut rest = pattern;
    while !rest.is_empty() {
        if is_class_operator(context, rest) {
            return true;
        }
        (context, rest) = context.step(rest);
    }
    false
}
