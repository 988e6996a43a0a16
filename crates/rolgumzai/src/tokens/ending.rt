//! A text that ends within a start state.
use crate::files::Definition;
use crate::runs::Run;
use crate::states::state_name;
use lrlex::Span;
use lrlex_report::place_text;
use std::alloc::{AllocError, Global};

/// The start state in which a text ends, and the piece that entered it.
#[derive(Clone, Copy)]
pub struct Ending {
    state: usize,
    entered: Span,
}

/// The bytes of the tile that entered the start state at the end of a run.
fn entering(run: &Run<'_, '_>) -> Option<Span> {
    let tile = run.entered_by()?;
    let begin = run.place(tile);
    let end = run.place(tile.saturating_add(1));
    Some(Span::new(begin, begin.max(end)))
}

/// Where a run ends within a start state other than `INITIAL`, which state, and the piece that entered it.
pub fn ending_of(run: &Run<'_, '_>) -> Option<Ending> {
    let state = run.end_state()?.id();
    if state == 0 {
        return None;
    }
    Some(Ending {
        state,
        entered: entering(run)?,
    })
}

/// That the text ends in a start state, as people read it.
pub fn ending_text(
    alloc: Global,
    definition: &Definition,
    file: &str,
    input: &str,
    ending: Ending,
) -> Result<String, AllocError> {
    let name = state_name(definition, ending.state);
    let message = format!(in alloc; "the text ends in start state {name}, which is entered here")?;
    place_text(alloc, file, input, ending.entered, &message)
}
