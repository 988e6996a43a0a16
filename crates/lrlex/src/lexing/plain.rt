//! A run takes many tiles at a time, where they were found ahead and their rules are plain.
ghost use Rattle.std.specs.Prelude.{◌≡◌, ℕ, ◌+◌, ◌^◌, ◌<◌, ◌≤◌, ◌++◌, length, map, Some, None, vec_len, vec_capacity, slice_get, if◌then◌else◌, OnOk};
ghost use Rattle.lrlex_table.specs.Ahead.{begin_at};
ghost use Rattle.lrlex_table.specs.Chain.{end_of, row_of};
ghost use Rattle.lrlex_rules.specs.Tiling.{lexeme_of};
ghost use Rattle.lrlex_definition.specs.RuleTable.{AreOf};
ghost use Rattle.lrlex.specs.Plain.{AllArePlain, HasEnteredAll, HasTakenMany, IsRunningIn, lexemes_of};
ghost use Rattle.lrlex.specs.Views.{item_of};

use crate::lexing::step::Progress;
use crate::lexing::winner::Searcher;
use lrlex_base::{Lexeme, Numbered};
use lrlex_definition::{RowKind, RuleTable, StateRules};
use lrlex_rules::LRLexError;
use lrlex_table::MatchesAhead;
use std::alloc::AllocError;
use std::mem;

/// Gives a lexeme with the id, if it has a name. There is room. It is stored first, and then counted or not: a branch on whether it has a name
/// would often be guessed wrong.
#[inline(always)]
fn store_lexeme<S: Numbered, X: Lexeme<S>>(
    items: &mut Vec<Result<X, LRLexError>>,
    id: S,
    named: bool,
    place: usize,
    len: usize,
)
    requires fits { place + len < 2 ^ 64 }
    requires room { vec_len items.old < vec_capacity items.old }
    ensures items { map (item_of S.number X.seen) items.new.items
        ≡ map (item_of S.number X.seen) items.old.items
        ++ lexeme_of (if named then Some (S.number id) else None) place len }
    ensures len { vec_len items.new ≤ vec_len items.old + 1 }
    ensures capacity { vec_capacity items.new ≡ vec_capacity items.old }
{
    items.push_reserved(Ok(Lexeme::new(id, place, len)));
    if !named {
        let _ = items.take_last();
        return;
    }
}

/// Gives a lexeme for each of these tiles whose rule has a name, up to the first tile of another list, or whose rule isn't plain. There is room
/// for all. Returns the list, and how many tiles these are. The list is handed in and out as a whole, so that its parts are in registers.
#[inline(always)]
fn store_tiles<S: Numbered, X: Lexeme<S>>(
    kinds: &[RowKind<S>],
    list: usize,
    place: usize,
    found: MatchesAhead<'_>,
    mut items: Vec<Result<X, LRLexError>>,
) -> (Vec<Result<X, LRLexError>>, usize)
    requires tiles { (k : ℕ) (w : RowKind S) → k < length found.marks.now → slice_get kinds.now (row_of found.marks.now k) ≡ Some w → w.list ≡ list →
        (begin_at found.from place found.marks.now k < found.from + end_of found.marks.now k) × (found.from + end_of found.marks.now k < 2 ^ 64) }
    requires room { vec_len items + length found.marks.now ≤ vec_capacity items }
    ensures count { result.1 ≤ length found.entry.marks.now }
    ensures plain { AllArePlain kinds.now list found.entry.marks.now result.1 }
    ensures items { map (item_of S.number X.seen) result.0.items ≡ map (item_of S.number X.seen) items.items
        ++ lexemes_of S.number kinds.now found.entry.from place found.entry.marks.now result.1 }
{
    let marks = found.marks;
    let mut begin = place;
    'tiles: for at in 0..marks.len() {
        let mark = marks[at];
        let Some(kind) = kinds.get(mark.row() as usize).copied() else {
            return (items, at);
        };
        if kind.list as usize != list || !kind.plain {
            return (items, at);
        }
        let end = found.from + mark.end() as usize;
        store_lexeme::<S, X>(&mut items, kind.id, kind.named, begin, end - begin);
        begin = end;
    }
    (items, marks.len())
}

/// Enters a boundary behind each of the first of these tiles, so many of them, with the same stack. The byte behind each decided it.
#[inline(always)]
fn enter_all<X: Copy>(
    progress: &mut Progress<X>,
    found: MatchesAhead<'_>,
    count: usize,
) -> Result<(), AllocError>
    requires count { count ≤ length found.marks.now }
    requires fits { (k : ℕ) → k < count → found.from + end_of found.marks.now k < 2 ^ 64 }
    requires numbers { vec_len progress.old.ahead + count < 2 ^ 64 }
    ensures { OnOk result (HasEnteredAll progress.old progress.new found.entry.from found.entry.marks.now count) }
{
    if count == 0 {
        return Ok(());
    }
    let mut place = progress.place;
    'tiles: for at in 0..count {
        place = found.from + found.marks[at].end() as usize;
        progress.boundaries.repeat(place)?;
    }
    progress.place = place;
    progress.lookahead = 1;
    let numbers = progress.ahead.len() + count;
    progress.ahead.resize(numbers, 1)?;
    Ok(())
}

/// Takes the tiles that were found ahead, one behind the other, so long as their rules are plain. Room is made once for all. None is taken where
/// a tile before them looked past the byte at the place. Out of line, so that the loops have the registers for themselves.
#[inline(never)]
fn take_plain<S: Numbered, X: Lexeme<S>>(
    table: &RuleTable<S>,
    text: &str,
    rules: StateRules<'_>,
    searcher: &mut Searcher<'_, '_>,
    progress: &mut Progress<X>,
) -> Result<(), AllocError>
    requires rules { AreOf S.number table.now rules.state rules }
    requires at { IsRunningIn S.number X.seen table.now text.now rules.state searcher.old
        progress.old }
    ensures taken { OnOk result (HasTakenMany S.number X.seen table.now text.now
        rules.entry.state searcher.old searcher.new progress.old progress.new) }
{
    let _ = text;
    if progress.lookahead > 1 {
        return Ok(());
    }
    let place = progress.place;
    let found = searcher.all_ahead(table, &rules, place);
    progress.items.reserve(found.marks.len())?;
    let kinds = table.row_kinds.as_slice();
    let none = Vec::new(*progress.items.allocator());
    let items = mem::replace(&mut progress.items, none);
    let (items, count) = store_tiles::<S, X>(kinds, rules.list, place, found, items);
    progress.items = items;
    enter_all(progress, found, count)?;
    searcher.pass_all(table, count);
    Ok(())
}

/// How many steps there are at most between two tries to take many tiles.
const MOST_STEPS: usize = 15;

/// How many steps are left to the next try to take many tiles: more each time, so long as none is taken, as where none was found ahead,
/// or where the rule of the first isn't plain.
#[derive(Clone, Copy)]
pub(crate) struct Pace {
    left: usize,
    wait: usize,
}

impl Pace {
    /// The first step is a try.
    pub(crate) fn new() -> Pace {
        Pace { left: 0, wait: 0 }
    }

    /// After a try that was of use or wasn't.
    #[inline(always)]
    fn note(&mut self, of_use: bool) {
        let longer = self.wait.saturating_mul(2).saturating_add(1);
        self.wait = if of_use { 0 } else { longer.min(MOST_STEPS) };
        self.left = self.wait;
    }

    /// Whether this step is a try.
    #[inline(always)]
    fn is_try(&mut self) -> bool {
        let is_try = self.left == 0;
        self.left = self.left.saturating_sub(1);
        is_try
    }
}

/// Takes the tiles that were found ahead, as `take_plain` does, where its turn has come. Else none, so that a text that changes its state at every
/// few tiles doesn't pay for it.
#[inline(always)]
pub(crate) fn take_ahead<S: Numbered, X: Lexeme<S>>(
    table: &RuleTable<S>,
    text: &str,
    rules: StateRules<'_>,
    searcher: &mut Searcher<'_, '_>,
    progress: &mut Progress<X>,
    pace: &mut Pace,
) -> Result<(), AllocError>
    requires rules { AreOf S.number table.now rules.state rules }
    requires at { IsRunningIn S.number X.seen table.now text.now rules.state searcher.old
        progress.old }
    ensures taken { OnOk result (HasTakenMany S.number X.seen table.now text.now
        rules.entry.state searcher.old searcher.new progress.old progress.new) }
{
    if !pace.is_try() {
        return Ok(());
    }
    let before = progress.place;
    take_plain(table, text, rules, searcher, progress)?;
    pace.note(progress.place > before);
    Ok(())
}
