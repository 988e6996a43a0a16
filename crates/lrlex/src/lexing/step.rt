ghost use Rattle.std.specs.Prelude.{◌≡◌, ℕ, ◌+◌, ◌-◌, ◌^◌, ◌<◌, true, [], ◌∷◌, ◌++◌, length, map, max, None, option_map, IfOk, OnOk};
ghost use Rattle.lrlex_rules.specs.Tiling.{Error, stack_after, lexeme_of};
ghost use Rattle.lrlex_boundaries.specs.Entries.{AreEntries};
ghost use Rattle.lrlex_boundaries.specs.Boundaries.{last_entries};
ghost use Rattle.lrlex.specs.Lookahead.{capped};
ghost use Rattle.lrlex_definition.specs.RuleTable.{AreOf};
ghost use Rattle.lrlex.specs.Searcher.{IsSearcherOf};
ghost use Rattle.lrlex_definition.specs.RuleTable.{definition_by};
ghost use Rattle.lrlex.specs.Views.{item_of, items_by};
ghost use Rattle.lrlex.specs.Work.{HasGoneOn, HasWorked};
ghost use Rattle.lrlex.specs.Progress.{Front, HasEntered, HasTakenStep, IsUnderWay};

use crate::lexing::stack::top_of;
use crate::lexing::taking::take_scan;
use crate::lexing::winner::{Scan, Searcher, Tile};
use lrlex_base::{Lexeme, Numbered, Span};
use lrlex_boundaries::Boundaries;
use lrlex_boundaries::room::append;
use lrlex_definition::{RuleTable, StateRules};
use lrlex_rules::{LRLexError, StartStateId};
use std::alloc::{AllocError, Global};

/// What a run has found so far. Its last boundary is its place with its stack.
#[derive(Drop)]
pub(crate) struct Progress<X> {
    pub(crate) place: usize,
    pub(crate) stack: Vec<(usize, usize)>,
    pub(crate) items: Vec<Result<X, LRLexError>>,
    pub(crate) boundaries: Boundaries,
    pub(crate) asked: u128,
    /// For each boundary, how many bytes past its place the tiles before it looked. 255 means more, or unknown.
    pub(crate) ahead: Vec<u8>,
    /// How many bytes past the place the tiles looked.
    pub(crate) lookahead: usize,
}

/// The most tiles for which room is made ahead.
const MOST_EXPECTED: usize = 1 << 20;

/// For how many tiles room is made ahead.
fn tiles_expected(text: &str) -> usize {
    (text.len() / 4).min(MOST_EXPECTED)
}

/// Nothing found yet, in state 0.
pub(crate) fn begin<X: Copy>(alloc: Global, text: &str) -> Result<Progress<X>, AllocError>
    ensures place { IfOk result (λ p. p.place ≡ 0) }
    ensures stack { IfOk result (λ p. p.stack.items ≡ (1, 0) ∷ []) }
    ensures items { IfOk result (λ p. p.items.items ≡ []) }
    ensures boundaries { IfOk result (λ p. p.boundaries
        ≡ record { place = 0; entries = (1, 0) ∷ [] } ∷ []) }
    ensures asked { IfOk result (λ p. p.asked ≡ 0) }
    ensures ahead { IfOk result (λ p. p.ahead.items ≡ 0 ∷ []) }
    ensures lookahead { IfOk result (λ p. p.lookahead ≡ 0) }
{
    let room = tiles_expected(text);
    let mut progress = Progress {
        place: 0,
        stack: Vec::new(alloc),
        items: Vec::new(alloc),
        boundaries: Boundaries::with_capacity(alloc, room)?,
        asked: 0,
        ahead: Vec::new(alloc),
        lookahead: 0,
    };
    progress.items.reserve(room)?;
    progress.ahead.reserve(room)?;
    progress.ahead.push(0)?;
    progress.stack.push((1, 0))?;
    progress.boundaries.push(0, &progress.stack, 0)?;
    Ok(progress)
}

/// Gives a lexeme with the id, if there is one.
#[inline(always)]
pub(crate) fn push_lexeme<S: Numbered, X: Lexeme<S>>(
    items: &mut Vec<Result<X, LRLexError>>,
    id: Option<S>,
    place: usize,
    len: usize,
) -> Result<(), AllocError>
    requires { place + len < 2 ^ 64 }
    ensures { OnOk result (map (item_of S.number X.seen) items.new.items
        ≡ map (item_of S.number X.seen) items.old.items
        ++ lexeme_of (option_map S.number id) place len) }
{
    if let Some(id) = id {
        append(items, Ok(Lexeme::new(id, place, len)))?;
    }
    Ok(())
}

/// Gives an error at the place, with the state in which no rule matches there, if that is why.
#[inline(never)]
pub(crate) fn push_error<S: Numbered, X: Lexeme<S>>(
    items: &mut Vec<Result<X, LRLexError>>,
    place: usize,
    state: Option<usize>,
) -> Result<(), AllocError>
    ensures { OnOk result (items_by S.number X.seen items.new.items
        ≡ items_by S.number X.seen items.old.items
        ++ Error place place state ∷ []) }
{
    let span = Span::new(place, place);
    let error = match state {
        Some(state) => LRLexError::new_with_lexing_state(span, StartStateId::new(state)),
        None => LRLexError::new(span),
    };
    items.push(Err(error))?;
    Ok(())
}

/// So many bytes as a number of one byte, where 255 means more.
#[inline(always)]
pub(crate) fn capped(lookahead: usize) -> u8
    ensures { result ≡ capped lookahead }
{
    if lookahead < 255 {
        lookahead as u8
    } else {
        255
    }
}

/// Enters the next boundary, with the same stack, behind a tile of so many bytes. The byte behind it decided it.
#[inline(always)]
#[tactic(auto, unfolding(lrlex_rules::specs::Tiling::stack_after))]
fn stay<X: Copy>(progress: &mut Progress<X>, len: usize) -> Result<(), AllocError>
    requires place { progress.old.place + len < 2 ^ 64 }
    requires entries { AreEntries progress.old.stack.items }
    requires last { last_entries progress.old.boundaries ≡ progress.old.stack.items }
    ensures { OnOk result (HasEntered progress.old progress.new None (progress.old.place + len)
        (max progress.old.lookahead (len + 1) - len)) }
{
    let place = progress.place + len;
    let lookahead = progress.lookahead.saturating_sub(len).max(1);
    progress.place = place;
    progress.lookahead = lookahead;
    append(&mut progress.ahead, capped(lookahead))?;
    progress.boundaries.repeat(place)?;
    Ok(())
}

/// Takes the tile at the place, and answers whether lexing goes on after it. `rules` are the rules of some state, and then
/// those of the state that the tile was looked for in.
#[inline(always)]
pub(crate) fn advance<'d, S: Numbered, X: Lexeme<S>>(
    alloc: Global,
    table: &'d RuleTable<S>,
    text: &str,
    rules: &mut StateRules<'d>,
    searcher: &mut Searcher<'d, '_>,
    progress: &mut Progress<X>,
) -> Result<bool, AllocError>
    requires rules { AreOf S.number table.now rules.old.state rules.old }
    requires inside { progress.old.place < length text.now }
    requires searcher { IsSearcherOf table.now text.now searcher.old }
    requires under_way { (f : Front) × IsUnderWay (definition_by S.number table.now)
        S.number X.seen text.now f progress.old }
    ensures held { IfOk result (λ _. AreOf S.number table.now rules.new.state rules.new
        × IsSearcherOf table.now text.now searcher.new) }
    ensures stepped { IfOk result (HasTakenStep S.number X.seen table.now text.now
        progress.old progress.new) }
    ensures linear { IfOk result (λ on. (first : ℕ)
        → HasWorked table.now first progress.old.place searcher.old.ends
        → HasGoneOn table.now text.now first progress.new.place on searcher.new.ends) }
{
    let place = progress.place;
    table.enter(rules, top_of(&progress.stack));
    let state = rules.state;
    if let Some(found) = searcher.ahead(table, &table.row_kinds, rules, place) {
        let kind = found.kind;
        let len = found.next.end - place;
        searcher.pass(table, place, found.next);
        if kind.plain {
            push_lexeme::<S, X>(&mut progress.items, kind.own_id(), place, len)?;
            stay(progress, len)?;
            return Ok(true);
        }
        let scan = Scan {
            winner: Some(Tile {
                rule: kind.rule,
                len,
            }),
            reach: len + 1,
        };
        return take_scan(table, text, state, scan, progress.asked, progress);
    }
    let mut asked = progress.asked;
    let rest = &text[place..];
    let scan = searcher.winner(alloc, table, state, *rules, place, rest, &mut asked)?;
    take_scan(table, text, state, scan, asked, progress)
}
