//! What runs answer.
use crate::replay::building::Definition;
use crate::replay::cases::edits::{Made, all_made_of, tell_unfit};
use crate::replay::cases::facts::{tell_boundary, tell_piece};
use crate::replay::cases::reading::Trouble;
use crate::replay::cases::told::Told;
use crate::replay::items::tell_items;
use lrlex::{DefaultLexerTypes, Document, LexRun, Piece, StartStateId};
use lrlex_base::Edit;
use serde_json::Value;
use std::alloc::AllocError;

/// A run of a definition with ids of type `u32`.
type Run<'lexer, 'input> = LexRun<'lexer, 'input, DefaultLexerTypes<u32>>;

/// Lists of a run of so many tiles or more are left out.
const MANY_TILES: usize = 1_000;

/// The number, or the greatest that fits.
pub fn most_of(number: u128) -> usize {
    usize::try_from(number).unwrap_or(usize::MAX)
}

/// Tells the boundaries of a run.
fn tell_boundaries(told: &mut Told, run: &Run<'_, '_>) {
    told.list("boundaries");
    for index in 0..run.boundaries() {
        tell_boundary(told, run.place(index), run.stack(index));
    }
    told.close();
}

/// Tells how far past each boundary the tiles before it looked.
fn tell_ahead(told: &mut Told, run: &Run<'_, '_>) {
    told.list("ahead");
    for index in 0..run.boundaries() {
        told.number(run.ahead(index) as usize);
    }
    told.close();
}

/// Tells pieces of the text, if memory was there for them.
pub fn tell_pieces(told: &mut Told, text: &str, pieces: Result<Vec<Piece<'_, '_>>, AllocError>) {
    match pieces {
        Ok(pieces) => {
            told.list("pieces");
            for piece in pieces.as_slice() {
                let span = piece.span;
                let is_own = text.get(span.start()..span.end()) == Some(piece.text);
                tell_piece(told, piece.rule, span, piece.name, is_own);
            }
            told.close();
        }
        Err(_) => {
            told.refuse();
        }
    }
}

/// How many entries the stack of a run's last boundary has.
fn last_entries(run: &Run<'_, '_>) -> usize {
    let boundaries = run.boundaries();
    if boundaries == 0 {
        0
    } else {
        run.stack(boundaries - 1).len()
    }
}

/// Tells what a run counts.
fn tell_counts(told: &mut Told, run: &Run<'_, '_>) {
    told.key("run").numbers(&[
        run.tiles(),
        run.items().len(),
        run.entries_peak(),
        last_entries(run),
        run.recut_tiles(),
        most_of(run.asked()),
    ]);
}

/// Tells what a run answers: its counts, and its lists where they aren't long.
fn tell_run(told: &mut Told, run: &Run<'_, '_>) {
    tell_counts(told, run);
    if run.tiles() < MANY_TILES {
        tell_items(told, run.items());
        tell_boundaries(told, run);
        tell_ahead(told, run);
        let pieces = run.pieces(told.alloc());
        tell_pieces(told, run.text(), pieces);
    }
}

/// Lexes again after the edit, which makes the text.
fn lex_again<'d, 't>(
    told: &mut Told,
    run: &Run<'d, 't>,
    edit: &Edit<'_>,
    text: &'t str,
) -> Result<Run<'d, 't>, Trouble> {
    if !edit.gives(run.text(), text) {
        return Err(Trouble::Malformed);
    }
    Ok(run.relex(told.alloc(), edit, text)?)
}

/// Lexes again after the edit, tells what the new run answers, and gives it.
fn tell_again<'d, 't>(
    told: &mut Told,
    run: Run<'d, 't>,
    next: &'t Made<'_>,
) -> Result<Run<'d, 't>, Trouble> {
    let run = lex_again(told, &run, &next.edit, next.text.as_str())?;
    tell_run(told, &run);
    Ok(run)
}

/// Lexes a text, tells what the run answers, and gives it.
fn tell_first<'d, 't>(
    told: &mut Told,
    definition: &'d Definition<u32>,
    text: &'t str,
) -> Result<Run<'d, 't>, AllocError> {
    let run = definition.run(told.alloc(), text)?;
    tell_run(told, &run);
    Ok(run)
}

/// Tells what runs answer, of a text and after each of the edits that were made, and which edit doesn't fit, if one doesn't.
fn tell_runs<'t>(
    told: &mut Told,
    definition: &Definition<u32>,
    text: &'t str,
    edits: &[Value],
    made: &'t [Made<'_>],
) -> Result<(), Trouble> {
    let mut run = tell_first(told, definition, text)?;
    for next in made {
        run = tell_again(told, run, next)?;
    }
    tell_unfit(told, edits, made.len());
    Ok(())
}

/// Lexes a text, and again after each edit, up to one that doesn't fit.
pub fn lex(
    told: &mut Told,
    definition: &Definition<u32>,
    text: &str,
    edits: &[Value],
) -> Result<(), Trouble> {
    let made = all_made_of(told.alloc(), text, edits)?;
    tell_runs(told, definition, text, edits, made.as_slice())
}

/// Tells the pieces of a part of a text, by a run.
pub fn cut_run(
    told: &mut Told,
    definition: &Definition<u32>,
    text: &str,
    ends: (usize, usize),
) -> Result<(), Trouble> {
    let run = definition.run(told.alloc(), text)?;
    tell_pieces(told, text, run.pieces_in(told.alloc(), ends.0, ends.1));
    Ok(())
}

/// Tells a place and the start state there, null where there is none.
fn tell_state_at(told: &mut Told, place: usize, state: Option<StartStateId>) {
    told.list("end").number(place);
    match state {
        Some(state) => told.number(state.id()),
        None => told.null(),
    };
    told.close();
}

/// Tells where a run of the text ends and the start state there.
fn tell_run_end(
    told: &mut Told,
    definition: &Definition<u32>,
    text: &str,
) -> Result<(), AllocError> {
    let run = definition.run(told.alloc(), text)?;
    tell_state_at(told, run.end(), run.end_state());
    Ok(())
}

/// Tells where lexing the text ends and the start state there, by a run and by a document that was taken apart and put together.
pub fn tell_end(told: &mut Told, definition: &Definition<u32>, text: &str) -> Result<(), Trouble> {
    tell_run_end(told, definition, text)?;
    let document = Document::new(told.alloc(), definition, text)?;
    let document = Document::of_text(definition, document.into_text());
    tell_state_at(told, document.end(), document.end_state());
    Ok(())
}
