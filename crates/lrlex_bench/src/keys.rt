//! Times a document while keys are typed.
use crate::measure::Definition;
use crate::timing::{Fault, Typed, Watch, boundary_from, tell_peak, tell_tiles};
use lrlex::{DefaultLexerTypes, EditError};
use std::alloc::Global;

type Document<'d> = lrlex::Document<'d, DefaultLexerTypes<u32>>;

/// What each key puts: one byte, which any of the rule files in `rules` makes a tile of or part of one.
const KEY: &str = "a";

/// Puts a key at a place.
fn type_key(alloc: Global, document: &mut Document<'_>, place: usize) -> Result<(), Fault> {
    match document.edit(alloc, place, place, KEY) {
        Ok(()) => Ok(()),
        Err(EditError::DoesNotFit) => Err(Fault::DoesNotFit),
        Err(EditError::OutOfMemory) => Err(Fault::Memory),
    }
}

/// Types a key at a place, and takes the time.
fn time_key(
    rt: &HostRuntime,
    document: &mut Document<'_>,
    place: usize,
    watch: &mut Watch,
) -> Result<(), Fault> {
    watch.start(rt);
    type_key(rt.alloc(), document, place)?;
    watch.stop(rt);
    Ok(())
}

/// Types so many keys, one behind the other, from this place on, and prints under this name what that took.
fn tell_keys(
    rt: &HostRuntime,
    document: &mut Document<'_>,
    name: &str,
    from: usize,
    keys: u32,
    watch: &mut Watch,
) -> Result<(), Fault> {
    let mut most = 0usize;
    let mut cells = 0usize;
    let mut place = from;
    for _ in 0..keys {
        time_key(rt, document, place, watch)?;
        most = most.max(document.recut_tiles());
        cells = cells.max(document.looked().unwrap_or(usize::MAX));
        place = place.saturating_add(KEY.len());
    }
    Typed { most, cells }.tell(rt, name, &watch.spread()?)
}

/// Types so many keys at the front of the document, in its middle and at its end, and prints what that took.
fn type_all(
    rt: &HostRuntime,
    document: &mut Document<'_>,
    keys: u32,
    watch: &mut Watch,
) -> Result<(), Fault> {
    tell_tiles(rt, document.tiles())?;
    tell_peak(rt, " before typing")?;
    tell_keys(rt, document, "front", 0, keys, watch)?;
    let middle = boundary_from(document.text(), document.text().len() / 2);
    tell_keys(rt, document, "middle", middle, keys, watch)?;
    let end = document.text().len();
    tell_keys(rt, document, "end", end, keys, watch)?;
    tell_peak(rt, "")
}

/// Types in a document of the text, and prints what that took.
pub fn tell_typing(
    rt: &HostRuntime,
    definition: &Definition,
    text: &str,
    keys: u32,
    watch: &mut Watch,
) -> Result<(), Fault> {
    let mut document = Document::new(rt.alloc(), definition, text)?;
    type_all(rt, &mut document, keys, watch)
}
