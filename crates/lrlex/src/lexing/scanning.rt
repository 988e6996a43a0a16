//! A scanner's step where its tile wasn't found ahead, or its rule isn't plain.
ghost use Rattle.std.specs.Prelude.{◌≡◌, ◌+◌, ◌≤◌, max, None, Some};
ghost use Rattle.lrlex.specs.Scanner.{HasGivenStep, IsCursorOf, IsSought, sought_at, sought_to};
ghost use Rattle.lrlex.specs.Work.{won_bytes};

use crate::lexing::cursor::{Cursor, Sought};
use crate::lexing::scanner::{ScanEnd, ScannedTile, Step};
use crate::lexing::stack::{step, top_of};
use crate::lexing::winner::Tile;
use lrlex_base::{Numbered, Span};
use lrlex_definition::RuleTable;
use lrlex_rules::{StartStateId, lacks_id, lexeme_id};
use std::alloc::{AllocError, Global};

/// Takes what won at the cursor's place in the state that is on top, whatever its rule is.
#[inline(always)]
pub(crate) fn take_tile<'d, S: Numbered>(
    table: &'d RuleTable<S>,
    text: &str,
    cursor: &mut Cursor<'d, '_>,
    winner: Option<Tile>,
) -> Result<Step<S>, AllocError>
    requires cursor { IsCursorOf S.number table.now text.now cursor.old }
    requires sought { IsSought S.number table.now text.now cursor.old.place cursor.old.rules.state
        winner }
    requires within { sought_to cursor.old.place (sought_at cursor.old.place cursor.old.sought)
        ≤ cursor.old.place + max 1 (won_bytes winner) }
    ensures { HasGivenStep S.number table.now text.now cursor.old result cursor.new }
{
    let Some(tile) = winner else {
        let state = StartStateId::new(cursor.rules.state);
        return Ok(Step::End(ScanEnd::NoMatch(state)));
    };
    let rule = &table.rules[tile.rule];
    if lacks_id(rule) {
        return Ok(Step::End(ScanEnd::NoId(tile.rule)));
    }
    let place = cursor.place;
    let found = ScannedTile {
        rule: tile.rule,
        id: lexeme_id(rule),
        span: Span::new(place, place + tile.len),
    };
    if table.lacks_target(rule) {
        return Ok(Step::End(ScanEnd::NoTarget(found)));
    }
    step(&mut cursor.stack, rule.target_state())?;
    table.enter(&mut cursor.rules, top_of(&cursor.stack));
    cursor.place = place + tile.len;
    Ok(Step::Tile(found))
}

/// Takes the next step, where what wins was sought before. In line, as all of a step is: out of line, each result would go through memory.
#[inline(always)]
pub(crate) fn take_sought<'d, S: Numbered>(
    table: &'d RuleTable<S>,
    text: &str,
    cursor: &mut Cursor<'d, '_>,
    winner: Option<Tile>,
) -> Result<Step<S>, AllocError>
    requires cursor { IsCursorOf S.number table.now text.now cursor.old }
    requires sought { sought_at cursor.old.place cursor.old.sought ≡ Some winner }
    ensures { HasGivenStep S.number table.now text.now cursor.old result cursor.new }
{
    take_tile(table, text, cursor, winner)
}

/// Takes the next step, where no tile was found ahead, and nothing was sought.
#[inline(always)]
pub(crate) fn seek<'d, S: Numbered>(
    alloc: Global,
    table: &'d RuleTable<S>,
    text: &str,
    cursor: &mut Cursor<'d, '_>,
) -> Result<Step<S>, AllocError>
    requires cursor { IsCursorOf S.number table.now text.now cursor.old }
    requires unsought { sought_at cursor.old.place cursor.old.sought ≡ None }
    ensures { HasGivenStep S.number table.now text.now cursor.old result cursor.new }
{
    let place = cursor.place;
    if place == text.len() {
        return Ok(Step::End(ScanEnd::Done));
    }
    let rules = cursor.rules;
    let rest = &text[place..];
    let mut asked = 0;
    let searcher = &mut cursor.searcher;
    match searcher.winner(alloc, table, rules.state, rules, place, rest, &mut asked) {
        Ok(scan) => {
            let winner = scan.winner;
            cursor.sought = Some(Sought { place, winner });
            take_tile(table, text, cursor, winner)
        }
        Err(refused) => {
            cursor.lost = true;
            Err(refused)
        }
    }
}
