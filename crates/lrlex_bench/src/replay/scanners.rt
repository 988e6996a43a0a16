//! What a scanner answers.
use crate::replay::building::Definition;
use crate::replay::cases::facts::tell_item;
use crate::replay::cases::reading::Trouble;
use crate::replay::cases::told::Told;
use crate::replay::items::error_seen;
use lrlex::{LRLexError, ScanEnd, ScannedTile, Step};
use serde_json::Value;

/// Tells a tile: its rule, its first byte, how many bytes it has, and its id or null.
fn tell_tile(told: &mut Told, tile: ScannedTile<u32>) {
    told.open()
        .number(tile.rule)
        .number(tile.span.start())
        .number(tile.span.len())
        .value(&Value::from(tile.id))
        .close();
}

/// Tells why there are no more tiles.
fn tell_end(told: &mut Told, end: ScanEnd<u32>) {
    match end {
        ScanEnd::Done => {
            told.text("done");
        }
        ScanEnd::NoMatch(state) => {
            told.number(state.id());
        }
        ScanEnd::NoId(rule) => {
            told.numbers(&[rule]);
        }
        ScanEnd::NoTarget(tile) => tell_tile(told, tile),
        ScanEnd::NoState => {
            told.null();
        }
    }
}

/// Tells the error that an end comes to, or null.
fn tell_stop(told: &mut Told, stop: Option<LRLexError>) {
    told.key("stop");
    match stop {
        Some(error) => tell_item(told, error_seen(&error)),
        None => {
            told.null();
        }
    }
}

/// Tells the tiles of a text as a scanner gives them, as the last of them why there are no more, and the error that this comes to.
pub fn scan(told: &mut Told, definition: &Definition<u32>, text: &str) -> Result<(), Trouble> {
    let scanner = definition.scanner(told.alloc(), text)?;
    let mut place: usize = 0;
    let mut stop = None;
    told.list("scan");
    for step in scanner.steps(told.alloc()) {
        match step? {
            Step::Tile(tile) => {
                tell_tile(told, tile);
                place = tile.span.end();
            }
            Step::End(end) => {
                tell_end(told, end);
                stop = end.error(place);
            }
        }
    }
    told.close();
    tell_stop(told, stop);
    Ok(())
}
