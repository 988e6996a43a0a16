//! A run takes what won at its place, whatever its rule is.
ghost use Rattle.std.specs.Prelude.{◌≡◌, ◌+◌, ◌^◌, ◌<◌, max, true, false, length, drop, vec_len, IfOk, IfSome, OnOk, IsCharBoundary};
ghost use Rattle.lrlex_rules.specs.Tiling.{top};
ghost use Rattle.lrlex_boundaries.specs.Entries.{plain, AreEntries};
ghost use Rattle.lrlex_boundaries.specs.Boundaries.{last_entries};
ghost use Rattle.lrlex.specs.Searcher.{HasAsked, IsScanOf};
ghost use Rattle.lrlex_definition.specs.RuleTable.{definition_by};
ghost use Rattle.lrlex.specs.Work.{won_bytes};
ghost use Rattle.lrlex.specs.Progress.{Front, HasEntered, HasTakenStep, IsUnderWay};

use crate::lexing::stack::step;
use crate::lexing::step::{Progress, capped, push_error, push_lexeme};
use crate::lexing::winner::Scan;
use lrlex_base::{Lexeme, Numbered};
use lrlex_boundaries::room::append;
use lrlex_definition::RuleTable;
use lrlex_rules::{Rule, lacks_id, lexeme_id};
use std::alloc::AllocError;

/// Enters the next boundary: moves the stack by the rule's target. The tiles looked `lookahead` bytes past its place.
#[inline(always)]
#[tactic(auto, unfolding(lrlex_rules::specs::Tiling::stack_after))]
fn push_boundary<S, X: Copy>(
    progress: &mut Progress<X>,
    rule: &Rule<S>,
    place: usize,
    lookahead: usize,
) -> Result<(), AllocError>
    requires entries { AreEntries progress.old.stack.items }
    requires room { length (plain progress.old.stack.items) + 1 < 2 ^ 64 }
    requires last { last_entries progress.old.boundaries ≡ progress.old.stack.items }
    ensures { OnOk result (HasEntered progress.old progress.new rule.now.target place lookahead) }
{
    progress.place = place;
    progress.lookahead = lookahead;
    append(&mut progress.ahead, capped(lookahead))?;
    // read as a whole only where there is one, so that the tiles of other rules don't pay for it
    if rule.target_state().is_none() {
        progress.boundaries.repeat(place)?;
    } else {
        let kept = step(&mut progress.stack, rule.target_state())?;
        progress.boundaries.push(place, &progress.stack, kept)?;
    }
    Ok(())
}

/// Takes what won at the place in the state that is on top, and answers whether lexing goes on after it. So many searches were made up to
/// now. In line: what it is given would go through memory else, which costs a tile of a text with many start states half its time.
#[inline(always)]
pub(crate) fn take_scan<S: Numbered, X: Lexeme<S>>(
    table: &RuleTable<S>,
    text: &str,
    state: usize,
    scan: Scan,
    asked: u128,
    progress: &mut Progress<X>,
) -> Result<bool, AllocError>
    requires state { state ≡ top (plain progress.old.stack.items) }
    requires inside { progress.old.place < length text.now }
    requires scan { IsScanOf (definition_by S.number table.now) state
        (drop progress.old.place text.now) scan }
    requires tile { IfSome scan.winner (λ t. IsCharBoundary
        (drop progress.old.place text.now) t.len × (t.rule < vec_len table.now.rules)) }
    requires asked { HasAsked S.number table.now state progress.old.asked asked }
    requires under_way { (f : Front) × IsUnderWay (definition_by S.number table.now)
        S.number X.seen text.now f progress.old }
    ensures stepped { IfOk result (HasTakenStep S.number X.seen table.now text.now
        progress.old progress.new) }
    ensures place { IfOk result (λ on. on ≡ true
        → progress.new.place ≡ progress.old.place + max 1 (won_bytes scan.winner)) }
{
    let place = progress.place;
    progress.asked = asked;
    let Some(tile) = scan.winner else {
        push_error::<S, X>(&mut progress.items, place, Some(state))?;
        return Ok(false);
    };
    let rule = &table.rules[tile.rule];
    if lacks_id(rule) {
        push_error::<S, X>(&mut progress.items, place, None)?;
        return Ok(false);
    }
    push_lexeme::<S, X>(&mut progress.items, lexeme_id(rule), place, tile.len)?;
    if table.lacks_target(rule) {
        push_error::<S, X>(&mut progress.items, place, None)?;
        return Ok(false);
    }
    let lookahead = progress.lookahead.max(scan.reach).saturating_sub(tile.len);
    push_boundary(progress, rule, place + tile.len, lookahead)?;
    Ok(true)
}
