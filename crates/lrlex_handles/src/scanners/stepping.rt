//! The steps of a scanner.
ghost use Rattle.std.specs.Prelude.{◌≡◌, ◌≢◌, ◌↔◌, pos, None, Some, IfOk};
ghost use Rattle.lrlex.specs.Scanner.{IsPlaceOf, standing};
ghost use Rattle.lrlex.specs.Views.{definition_of};
ghost use Rattle.lrlex.specs.Work.{most_cells_of};
ghost use Rattle.lrlex_handles.specs.Objects.{scanner_in};
ghost use Rattle.lrlex_handles.specs.Scans.{AreNext, WasScanned, tile_by, told_by};

use crate::handle::{Handle, with_object};
use crate::object::{Definition, Object, Scanning};
use crate::status::{MISUSE, NO_MEMORY, OK};
use crate::structs::{Scanned, Tile};
use lrlex::{ScanEnd, ScanPlace, ScannedTile, Scanner, Step};
use std::alloc::{AllocError, Global};
use std::mem::replace;

fn tile_of(tile: ScannedTile<u32>) -> Tile
    ensures { result ≡ tile_by tile }
{
    Tile {
        start: tile.span.start(),
        len: tile.span.len(),
        rule: tile.rule,
        id: tile.id.unwrap_or(0),
        has_id: tile.id.is_some(),
    }
}

/// How a scanner went on that gave so many tiles, stands there, and gives no more for this reason.
fn told(count: usize, place: usize, end: Option<ScanEnd<u32>>) -> Scanned
    ensures { result ≡ told_by count place end }
{
    let (state, rule, end) = match end {
        None => (0, 0, 0),
        Some(ScanEnd::Done) => (0, 0, 1),
        Some(ScanEnd::NoMatch(state)) => (state.id(), 0, 2),
        Some(ScanEnd::NoId(rule)) => (0, rule, 3),
        Some(ScanEnd::NoTarget(tile)) => (0, tile.rule, 4),
        Some(ScanEnd::NoState) => (0, 0, 5),
    };
    Scanned {
        count,
        place,
        state,
        rule,
        end,
    }
}

/// Writes the tiles that come next, as long as there is room and none is the last.
fn fill(
    alloc: Global,
    scanner: &mut Scanner<'_, '_, u32>,
    tiles: &mut [Tile],
) -> Result<Scanned, AllocError>
    ensures { IfOk result (λ out. AreNext scanner.old tiles.old tiles.new out scanner.new) }
{
    for i in 0..tiles.len() {
        match scanner.next(alloc)? {
            Step::Tile(tile) => tiles[i] = tile_of(tile),
            Step::End(end) => return Ok(told(i, scanner.place(), Some(end))),
        }
    }
    Ok(told(tiles.len(), scanner.place(), None))
}

/// The tiles that come next from a place on, and the place behind them.
fn next_by(
    alloc: Global,
    definition: &Definition,
    text: &str,
    at: &ScanPlace,
    tiles: &mut [Tile],
) -> Result<(ScanPlace, Scanned), AllocError>
    requires { IsPlaceOf (definition_of (λ n. n) definition.now) text.now at.now }
    ensures place { IfOk result (λ r. IsPlaceOf (definition_of (λ n. n) definition.now) text.now
        r.0) }
    ensures next { IfOk result (λ r. AreNext
        (standing (definition_of (λ n. n) definition.now) text.now at.now
        (most_cells_of definition.now text.now)) tiles.old tiles.new r.1
        (standing (definition_of (λ n. n) definition.now) text.now r.0
        (most_cells_of definition.now text.now))) }
{
    let mut scanner = definition.scanner_at(alloc, text, at)?;
    let scanned = fill(alloc, &mut scanner, tiles)?;
    Ok((scanner.into_place(alloc), scanned))
}

fn next_of(alloc: Global, it: Scanning, tiles: &mut [Tile], out: &mut Scanned) -> (Scanning, i32)
    ensures done { result.1 ≡ pos 0 → AreNext it tiles.old tiles.new out.new result.0 }
    ensures kept { result.1 ≢ pos 0 → result.0 ≡ it }
    ensures misused { result.1 ≢ pos 4 }
{
    let Scanning {
        definition,
        text,
        at,
    } = it;
    match next_by(alloc, &definition, &text, &at, tiles) {
        Err(_) => (
            Scanning {
                definition,
                text,
                at,
            },
            NO_MEMORY,
        ),
        Ok((at, scanned)) => {
            *out = scanned;
            (
                Scanning {
                    definition,
                    text,
                    at,
                },
                OK,
            )
        }
    }
}

fn next_in(alloc: Global, object: &mut Object, tiles: &mut [Tile], out: &mut Scanned) -> i32
    ensures done { result ≡ pos 0 → WasScanned tiles.old tiles.new out.new
        (scanner_in (Some object.old)) (scanner_in (Some object.new)) }
    ensures kept { result ≢ pos 0 → scanner_in (Some object.new)
        ≡ scanner_in (Some object.old) }
    ensures misused { result ≡ pos 4 ↔ scanner_in (Some object.old) ≡ None }
{
    match replace(object, Object::Nothing) {
        Object::Scanner(it) => {
            let (it, status) = next_of(alloc, it, tiles, out);
            *object = Object::Scanner(it);
            status
        }
        other => {
            *object = other;
            MISUSE
        }
    }
}

/// The tiles that come next, as many as there is room for, and why no more come where an end is reached. If the call doesn't return 0,
/// the scanner is what it was.
pub fn next(alloc: Global, handle: &mut Handle, tiles: &mut [Tile], out: &mut Scanned) -> i32
    ensures done { result ≡ pos 0 → WasScanned tiles.old tiles.new out.new
        (scanner_in handle.old.value) (scanner_in handle.new.value) }
    ensures kept { result ≢ pos 0 → scanner_in handle.new.value ≡ scanner_in handle.old.value }
    ensures misused { result ≡ pos 4 ↔ scanner_in handle.old.value ≡ None }
{
    with_object!(
        alloc,
        handle,
        MISUSE,
        |mut object| next_in(alloc, &mut object, tiles, out)
    )
}
