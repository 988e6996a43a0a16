//! The lexemes of a text, written as a scanner finds them. No list of them is kept.
ghost use Rattle.std.specs.Prelude.{◌≡◌, ◌<◌, ◌≤◌, IfOk};
ghost use Rattle.lrlex_base.specs.Spans.{span_end};
ghost use Rattle.lrlex.specs.Scanner.{EndsBy, IsAtFront};
ghost use Rattle.lrlex_handles.specs.Answers.{AreTokensOf};
ghost use Rattle.lrlex_handles.specs.Lexemes.{HasFinished, HasPut, is_stop, is_unmatched};

use crate::lexing::number_of;
use crate::structs::{Lexed, Token};
use lrlex::{ScanEnd, ScannedTile, Scanner, Step};
use std::alloc::{AllocError, Global};

/// Counts the tile's lexeme, if it gives one, and writes it behind the others where there is room.
#[inline(always)]
fn put(tile: ScannedTile<u32>, tokens: &mut [Token], count: &mut usize)
    requires { count.old < span_end tile.span }
    ensures { HasPut tile tokens.old tokens.new count.old count.new }
{
    if let Some(id) = tile.id {
        if *count < tokens.len() {
            tokens[*count] = Token {
                start: tile.span.start(),
                len: tile.span.len(),
                id,
            };
        }
        *count += 1;
    }
}

/// Whether lexing stops at an error at this end, and whether that error is that no rule matches.
fn stops(end: ScanEnd<u32>) -> (bool, bool)
    ensures { result ≡ (is_stop end, is_unmatched end) }
{
    match end {
        ScanEnd::Done => (false, false),
        ScanEnd::NoMatch(_) => (true, true),
        _ => (true, false),
    }
}

/// How lexing went whose scanner comes to this end behind so many lexemes. The lexeme that comes with the end, if there is one, is
/// written and counted too.
fn finish(
    scanner: &Scanner<'_, '_, u32>,
    end: ScanEnd<u32>,
    tokens: &mut [Token],
    mut count: usize,
) -> Lexed
    requires end { EndsBy (λ n. n) scanner.now end }
    requires few { count ≤ scanner.now.place }
    ensures { HasFinished scanner.now end tokens.old tokens.new count result }
{
    if let ScanEnd::NoTarget(tile) = end {
        put(tile, tokens, &mut count);
    }
    let (stopped, unmatched) = stops(end);
    Lexed {
        count,
        end: scanner.place(),
        state: number_of(scanner.state()),
        stopped,
        unmatched,
    }
}

/// Writes the lexemes of a scanner's text, as many as there is room for, and counts all.
pub(crate) fn fill(
    alloc: Global,
    scanner: &mut Scanner<'_, '_, u32>,
    tokens: &mut [Token],
) -> Result<Lexed, AllocError>
    requires { IsAtFront scanner.old.definition scanner.old.text scanner.old }
    ensures { IfOk result (AreTokensOf scanner.old.definition scanner.old.text 0 tokens.old
        tokens.new) }
{
    if scanner.state().is_none() {
        return Ok(finish(scanner, ScanEnd::NoState, tokens, 0));
    }
    let mut count = 0;
    'tiles: loop {
        match scanner.next(alloc)? {
            Step::Tile(tile) => put(tile, tokens, &mut count),
            Step::End(end) => return Ok(finish(scanner, end, tokens, count)),
        }
    }
}
