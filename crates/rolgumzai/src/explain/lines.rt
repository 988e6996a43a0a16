//! What is explained, in lines.
use crate::explain::active::{Active, active_in};
use crate::explain::boundary::{boundary_before, push_stack};
use crate::explain::reasons::reason;
use crate::explain::rule_file::RuleFile;
use crate::output::FAULTY;
use crate::runs::{Run, stop_of};
use lrlex::{LRLexError, LineCursor, Piece, Span};
use lrlex_report::{place_text, stop_text_in};
use std::alloc::{AllocError, Global};
use std::fmt::Write;

/// The text that is asked about, with the name of its file.
#[derive(Clone, Copy)]
pub struct Input<'a> {
    pub file: &'a str,
    pub text: &'a str,
}

/// What is at a byte of a text.
#[derive(Clone, Copy)]
enum Found<'d, 't> {
    Piece(Piece<'d, 't>),
    /// Lexing stopped before it.
    Stop(LRLexError),
    /// It is the text's end.
    End,
}

/// What is at a byte of a run's text.
fn found_at<'d, 't>(
    alloc: Global,
    run: &Run<'d, 't>,
    offset: usize,
) -> Result<Found<'d, 't>, AllocError> {
    let pieces = run.pieces_in(alloc, offset, offset.saturating_add(1))?;
    if let Some(piece) = pieces.first() {
        return Ok(Found::Piece(*piece));
    }
    Ok(match stop_of(run) {
        Some(error) => Found::Stop(error),
        None => Found::End,
    })
}

/// Which rule wins the piece, and why, with the piece's line.
fn winner_text(
    alloc: Global,
    rules: RuleFile<'_>,
    input: Input<'_>,
    piece: &Piece<'_, '_>,
    active: &[Active],
) -> Result<String, AllocError> {
    let len = piece.text.len();
    let reason = reason(alloc, active, len)?;
    let file = rules.file;
    let number = rules.number_of(&mut LineCursor::new(rules.text), piece.rule);
    let name = piece.name.unwrap_or(";");
    let unit = if len == 1 { "byte" } else { "bytes" };
    let message = format!(in alloc; "{name} of {file}:{number} wins with {len} {unit}: {reason}")?;
    place_text(alloc, input.file, input.text, piece.span, &message)
}

/// What is found, with its line.
fn found_text(
    alloc: Global,
    rules: RuleFile<'_>,
    input: Input<'_>,
    found: &Found<'_, '_>,
    active: &[Active],
) -> Result<String, AllocError> {
    match found {
        Found::Piece(piece) => winner_text(alloc, rules, input, piece, active),
        Found::Stop(error) => {
            stop_text_in(
                alloc,
                rules.definition.rule_table(),
                input.file,
                input.text,
                error,
            )
        }
        Found::End => {
            let end = Span::new(input.text.len(), input.text.len());
            place_text(alloc, input.file, input.text, end, "the text ends here")
        }
    }
}

/// Adds the line of each active rule. That of the winner has an asterisk.
fn push_active(
    shown: &mut String,
    rules: RuleFile<'_>,
    active: &[Active],
    winner: Option<usize>,
) -> Result<(), AllocError> {
    shown.push_str("bytes  active rules\n")?;
    let mut cursor = LineCursor::new(rules.text);
    for one in active {
        let mark = if winner == Some(one.rule) { '*' } else { ' ' };
        let (len, file) = (one.len, rules.file);
        let number = rules.number_of(&mut cursor, one.rule);
        write!(shown, "{len:>5}{mark} {file}:{number}: ")?;
        rules.push_line(shown, one.rule)?;
        shown.push_str("\n")?;
    }
    Ok(())
}

/// The rule that wins, if one does.
fn winner_of(found: &Found<'_, '_>) -> Option<usize> {
    match found {
        Found::Piece(piece) => Some(piece.rule),
        _ => None,
    }
}

/// The status of what is found.
fn status_of(found: &Found<'_, '_>) -> u8 {
    match found {
        Found::Stop(_) => FAULTY,
        _ => 0,
    }
}

/// What is found, the start states on the stack, and the active rules, in lines.
fn lines_of(
    alloc: Global,
    rules: RuleFile<'_>,
    input: Input<'_>,
    found: &Found<'_, '_>,
    stack: &[(usize, usize)],
    active: &[Active],
) -> Result<String, AllocError> {
    let mut shown = found_text(alloc, rules, input, found, active)?;
    push_stack(&mut shown, rules.definition, stack)?;
    push_active(&mut shown, rules, active, winner_of(found))?;
    Ok(shown)
}

/// What is to be said of a byte of a run's text, and the status.
fn explained_in(
    alloc: Global,
    rules: RuleFile<'_>,
    input: Input<'_>,
    run: &Run<'_, '_>,
    offset: usize,
) -> Result<(String, u8), AllocError> {
    let found = found_at(alloc, run, offset)?;
    let boundary = boundary_before(run, offset);
    let (_, rest) = input.text.split_at_checked(boundary.at).unwrap_or(("", ""));
    let active = active_in(alloc, rules.definition, boundary.state(), rest)?;
    let shown = lines_of(alloc, rules, input, &found, boundary.stack, &active)?;
    Ok((shown, status_of(&found)))
}

/// What is to be said of a byte of a text, and the status.
pub fn explained(
    alloc: Global,
    rules: RuleFile<'_>,
    input: Input<'_>,
    offset: usize,
) -> Result<(String, u8), AllocError> {
    let run = rules.definition.run(alloc, input.text)?;
    explained_in(alloc, rules, input, &run, offset)
}
