//! Whether a pattern looks at what is beside its match.
ghost use Rattle.std.specs.Prelude.{◌≡◌};
ghost use Rattle.lrlex_report.specs.Looks.{is_beginning, is_edge, is_look, looks_around};

use crate::warnings::pattern_classes::{BEGINNING, Context, Part};

/// Whether a part of the pattern may begin here.
fn is_beginning(part: Part) -> bool
    ensures { result ≡ is_beginning part }
{
    matches!(part, Part::Beginning)
}

/// Whether an escape of this letter looks at what is beside the match.
fn is_edge(c: u8) -> bool
    ensures { result ≡ is_edge c }
{
    match c {
        b'b' | b'B' | b'z' | b'<' | b'>' => true,
        _ => false,
    }
}

/// Whether what is beside the match is looked at here, outside classes of characters.
fn is_look(context: Context, rest: &[u8]) -> bool
    ensures { result ≡ is_look context rest.now }
{
    if context.classes > 0 {
        return false;
    }
    match rest {
        [b'\\', c, ..] => is_edge(*c),
        [b'$', ..] => true,
        [b'^', ..] => !is_beginning(context.part),
        _ => false,
    }
}

/// Whether a pattern looks at what is beside the match, outside classes of characters: at the end of a line or of the text, at the
/// edge of a word, or at the beginning of a line within the pattern.
pub(crate) fn looks_around(pattern: &[u8]) -> bool
    ensures { result ≡ looks_around pattern.now }
{
    let mut context = BEGINNING;
    let mut rest = pattern;
    while !rest.is_empty() {
        if is_look(context, rest) {
            return true;
        }
        (context, rest) = context.step(rest);
    }
    false
}
