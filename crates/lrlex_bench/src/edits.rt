//! Times lexing again after an edit.
ghost use Rattle.std.specs.Prelude.{◌≡◌};
ghost use Rattle.lrlex_base.specs.Spans.{Fits, as_span};
ghost use Rattle.lrlex_base.specs.Edits.{edited};

use crate::measure::{Definition, Run, time_runs};
use crate::timing::{Fault, Relexed, Watch, boundary_from, tell_anew};
use lrlex_base::{Edit, Span};

/// What each edit inserts: one byte, of which any of the rule files in `rules` makes a tile or part of one.
const PUT: &str = " ";

/// Lexes once again after the edit. What that counts.
fn time_relex(
    rt: &HostRuntime,
    run: &Run<'_, '_>,
    edit: &Edit<'_>,
    new: &str,
    watch: &mut Watch,
) -> Result<Relexed, Fault>
    requires fits { Fits run.now.text edit.now.removed }
    requires gives { new.now ≡ edited run.now.text (as_span edit.now.removed) edit.now.put.now }
{
    watch.start(rt);
    let after = run.relex(rt.alloc(), edit, new)?;
    watch.stop(rt);
    Ok(Relexed {
        lexed: after.recut_tiles(),
        asked: after.asked(),
        looked: after.looked(),
    })
}

/// Lexes so many times again after the edit, once at the least. What the last time counts.
fn time_relexes(
    rt: &HostRuntime,
    run: &Run<'_, '_>,
    edit: &Edit<'_>,
    new: &str,
    times: u32,
    watch: &mut Watch,
) -> Result<Relexed, Fault>
    requires fits { Fits run.now.text edit.now.removed }
    requires gives { new.now ≡ edited run.now.text (as_span edit.now.removed) edit.now.put.now }
{
    let mut relexed = time_relex(rt, run, edit, new, watch)?;
    for _ in 1..times {
        relexed = time_relex(rt, run, edit, new, watch)?;
    }
    Ok(relexed)
}

/// Edits the text of the run, and lexes so many times again.
fn relexed_by(
    rt: &HostRuntime,
    run: &Run<'_, '_>,
    edit: &Edit<'_>,
    times: u32,
    watch: &mut Watch,
) -> Result<Relexed, Fault>
    requires { Fits run.now.text edit.now.removed }
{
    let new = edit.apply(rt.alloc(), run.text())?;
    time_relexes(rt, run, edit, new.as_str(), times, watch)
}

/// Inserts one byte at a place, in bytes, lexes again so many times, and prints what that took. The median of `run` is `anew`.
fn tell_edit(
    rt: &HostRuntime,
    run: &Run<'_, '_>,
    name: &str,
    place: usize,
    anew: u128,
    times: u32,
    watch: &mut Watch,
) -> Result<(), Fault> {
    let edit = Edit {
        removed: Span::new(place, place),
        put: PUT,
    };
    if !edit.fits(run.text()) {
        return Ok(());
    }
    let relexed = relexed_by(rt, run, &edit, times, watch)?;
    relexed.tell(rt, name, &watch.spread()?, anew)
}

/// Lexes again so many times after an edit at the front, in the middle and at the end of the text. The median of `run` is
/// `anew`.
fn tell_places(
    rt: &HostRuntime,
    run: &Run<'_, '_>,
    anew: u128,
    times: u32,
    watch: &mut Watch,
) -> Result<(), Fault> {
    let text = run.text();
    let middle = boundary_from(text, text.len() / 2);
    tell_anew(rt, run.asked(), anew)?;
    tell_edit(rt, run, "front", 0, anew, times, watch)?;
    tell_edit(rt, run, "middle", middle, anew, times, watch)?;
    tell_edit(rt, run, "end", text.len(), anew, times, watch)
}

/// Lexes the text so many times, and then again so many times after each edit.
pub fn tell_edits(
    rt: &HostRuntime,
    definition: &Definition,
    text: &str,
    times: u32,
    watch: &mut Watch,
) -> Result<(), Fault> {
    let _counts = time_runs(rt, definition, text, times, watch)?;
    let anew = watch.spread()?.median;
    let run = definition.run(rt.alloc(), text)?;
    tell_places(rt, &run, anew, times, watch)
}
