//! Lexing a text in two passes, of which none keeps its lexemes: the first counts them, and the second writes their lines.
ghost use Rattle.std.specs.Prelude.{◌≡◌, ◌+◌, ◌<◌, [], true, IfOk, is_some, length};
ghost use Rattle.lrlex.specs.Active.{is_state};
ghost use Rattle.lrlex.specs.Scanner.{IsAtFront, IsStep, past};
ghost use Rattle.lrlex.specs.declared.lexing.scanner.Step.TheVariants.{Tile};
ghost use Rattle.lrlex.specs.Views.{definition_by};
ghost use Rattle.lrlex_cli.specs.Scanning.{IsFirstPass, WritesRun, error_place, last_tile, lexeme_by};

use crate::lines::{pass_tile, write_end};
use lrlex::{RuleTable, ScanEnd, ScannedTile, Scanner, Step};
use lrlex_base::Numbered;
use std::alloc::{AllocError, Global};
use std::io;
use std::io::{ErrorKind, Write};

/// What a first pass over a text has found.
#[derive(Clone, Copy)]
pub(crate) struct FirstPass<S> {
    /// How many lexemes come before the end.
    lexemes: usize,
    /// The tile that comes with the end: that whose target is no start state.
    last: Option<ScannedTile<S>>,
    /// The place of the error that stops lexing.
    error: Option<usize>,
}

impl<S> FirstPass<S> {
    /// Whether an error stops lexing.
    pub(crate) fn stopped(&self) -> bool
        ensures { result ≡ is_some self.now.error }
    {
        self.error.is_some()
    }
}

/// The tile that comes with the end.
fn last_of<S: Numbered>(end: ScanEnd<S>) -> Option<ScannedTile<S>>
    ensures { result ≡ last_tile end }
{
    match end {
        ScanEnd::NoTarget(tile) => Some(tile),
        _ => None,
    }
}

/// The place of the error that comes with the end, where a scanner stands at this place.
fn error_of<S: Numbered>(end: ScanEnd<S>, place: usize) -> Option<usize>
    ensures { result ≡ error_place end place }
{
    match end {
        ScanEnd::Done => None,
        _ => Some(place),
    }
}

/// How many lexemes the tile gives: one, or none where its rule has no name.
#[inline(always)]
fn lexemes_of<S: Numbered>(tile: ScannedTile<S>) -> usize
    ensures { result ≡ length (lexeme_by S.number tile) }
{
    if tile.id.is_some() { 1 } else { 0 }
}

/// Takes a scanner from the front of its text to its end, and counts the lexemes on its way. So it has made what it needs to come
/// there again.
pub(crate) fn first_pass<S: Numbered>(
    alloc: Global,
    scanner: &mut Scanner<'_, '_, S>,
) -> Result<FirstPass<S>, AllocError>
    requires front { IsAtFront scanner.old.definition scanner.old.text scanner.old }
    requires initial { is_state scanner.old.definition 0 ≡ true }
    ensures found { IfOk result (IsFirstPass S.number scanner.old.definition scanner.old.text) }
    ensures definition { IfOk result (λ _. scanner.new.definition ≡ scanner.old.definition) }
    ensures text { IfOk result (λ _. scanner.new.text ≡ scanner.old.text) }
{
    let mut lexemes = 0;
    'tiles: loop {
        match scanner.next(alloc)? {
            Step::Tile(tile) => lexemes += lexemes_of(tile),
            Step::End(end) => {
                return Ok(FirstPass {
                    lexemes,
                    last: last_of(end),
                    error: error_of(end, scanner.place()),
                });
            }
        }
    }
}

/// The next tile. A first pass came further and has made what this needs, so neither fault comes.
#[inline(always)]
fn next_tile<S: Numbered>(
    alloc: Global,
    scanner: &mut Scanner<'_, '_, S>,
) -> io::Result<ScannedTile<S>>
    ensures step { IfOk result (λ x. IsStep S.number scanner.old (Tile x)) }
    ensures moved { IfOk result (λ x. scanner.new ≡ past scanner.old x) }
{
    match scanner.next(alloc)? {
        Step::Tile(tile) => Ok(tile),
        Step::End(_) => Err(io::Error::from(ErrorKind::UnexpectedEof)),
    }
}

/// Takes the scanner of a first pass back to the front and over its text again, and writes the line of each item. No bytes wait
/// before, and none behind.
pub(crate) fn second_pass<S: Numbered, W: Write>(
    alloc: Global,
    scanner: &mut Scanner<'_, '_, S>,
    first: FirstPass<S>,
    table: &RuleTable<S>,
    text: &str,
    waiting: &mut Vec<u8>,
    out: &mut W,
) -> io::Result<()>
    requires definition { scanner.old.definition ≡ definition_by S.number table.now }
    requires text { scanner.old.text ≡ text.now }
    requires found { IsFirstPass S.number (definition_by S.number table.now)
        text.now first }
    requires none { waiting.old.items ≡ [] }
    ensures { WritesRun (definition_by S.number table.now) text.now
        (is_some first.error) (W.contents out.old) (W.contents out.new) result }
{
    scanner.rewind();
    let mut left = first.lexemes;
    while left > 0 {
        let tile = next_tile(alloc, scanner)?;
        pass_tile::<S, W>(out, waiting, table, text, tile)?;
        left -= lexemes_of(tile);
    }
    write_end::<S, W>(out, waiting, table, text, first.last, first.error)
}
