ghost use Rattle.std.specs.Prelude.{◌≡◌, ◌+◌, ◌^◌, ◌<◌, ◌-◌, ℕ, List, length, map, drop, IfOk, IfSome};
ghost use Rattle.std.specs.Option.{option_map};
ghost use Rattle.lrlex_parser.specs.Text.{piece, cut_lines};
ghost use Rattle.lrlex_parser.specs.Declaration.{section_end};
ghost use Rattle.lrlex_parser.specs.AllFaults.{declared_lines, rule_lines, routines_fault, text_fault};
ghost use Rattle.lrlex_parser.specs.LexParser.{as_piece, as_fatal, MarkAt, EndBy, AreApart};

use crate::fatal::Fatal;
use crate::faults::LexErrorKind;
use crate::text::{Line, Margins, after_mark, is_white, read_section, skip_blanks};
use std::alloc::{AllocError, Global};

/// The lines of a rule text that say something, and the fault of the text as a whole, if it has one.
#[derive(Drop)]
pub(crate) struct Sections<'t> {
    pub(crate) declared: Vec<Line<'t>>,
    pub(crate) rules: Vec<Line<'t>>,
    pub(crate) fault: Option<Fatal>,
}

/// Reads the lines of both sections of a rule text.
pub(crate) fn read_sections<'t>(
    alloc: Global,
    text: &'t str,
    comments: bool,
) -> Result<Sections<'t>, AllocError>
    requires { length text.now < 2 ^ 64 }
    ensures declared { IfOk result (λ s. map as_piece s.declared.items
        ≡ declared_lines comments text.now) }
    ensures rules { IfOk result (λ s. map as_piece s.rules.items ≡ rule_lines comments text.now) }
    ensures fault { IfOk result (λ s. option_map as_fatal s.fault ≡ text_fault text.now) }
    ensures declared_fit { IfOk result (λ s. EndBy (2 ^ 64 - 1) s.declared.items) }
    ensures rules_fit { IfOk result (λ s. EndBy (2 ^ 64 - 1) s.rules.items) }
    ensures apart { IfOk result (λ s. AreApart s.rules.items) }
{
    let declared = read_section(alloc, text, 0, comments, Margins::Trimmed)?;
    let Some(mark) = declared.end else {
        let fault = Fatal {
            kind: LexErrorKind::PrematureEnd,
            at: text.len(),
        };
        return Ok(Sections {
            declared: declared.lines,
            rules: Vec::new(alloc),
            fault: Some(fault),
        });
    };
    let section = skip_blanks(after_mark(text, 0, mark));
    let at = text.len() - section.len();
    let rules = read_section(alloc, section, at, comments, Margins::Kept)?;
    let fault = routines_fault(section, at, rules.end);
    Ok(Sections {
        declared: declared.lines,
        rules: rules.lines,
        fault,
    })
}

/// The fault of a text that goes on after this mark, if there is one, in a section that begins at `at`.
fn routines_fault(section: &str, at: usize, end: Option<Line>) -> Option<Fatal>
    requires fits { at + length section.now < 2 ^ 64 }
    requires mark { IfSome end (MarkAt at section.now) }
    ensures { (text : List ℕ) → section.now ≡ drop at text
        → option_map as_fatal result ≡ routines_fault text (option_map as_piece end.entry) }
{
    let mark = end?;
    if is_white(after_mark(section, at, mark)) {
        return None;
    }
    Some(Fatal {
        kind: LexErrorKind::RoutinesNotSupported,
        at: mark.at,
    })
}
