//! The winner at a place: the best of what the tables tell and of what the rules without one answer, as they are asked.
ghost use Rattle.std.specs.Prelude.{◌≡◌, ℕ, length, slice_index, [], max, ◌+◌, ◌-◌, ◌^◌, ◌<◌, ◌≤◌, ◌⊎◌, true, false, vec_len, List, drop, IfOk, IfSome, IsCharBoundary};
ghost use Rattle.lrlex_rules.specs.Matchers.{AreMatchers};
ghost use Rattle.lrlex_table.specs.Linear.{HasWorkedTo};
ghost use Rattle.lrlex_table.specs.Ahead.{IsNextAt};
ghost use Rattle.lrlex_rules.specs.Active.{rule_at};
ghost use Rattle.lrlex_rules.specs.Kinds.{IsPlain};
ghost use Rattle.lrlex_definition.specs.RowKinds.{own_kind};
ghost use Rattle.lrlex_definition.specs.RuleTable.{AreOf};
ghost use Rattle.lrlex.specs.Searcher.{AreFoundAt, HasAsked, IsFoundAt, IsSearcherOf, IsScanOf, tile_of};
ghost use Rattle.lrlex_definition.specs.RuleTable.{definition_by};
ghost use Rattle.lrlex.specs.Work.{HasWorked, IsLinearIn, won_bytes};

use lrlex_base::Numbered;
use lrlex_definition::{RowKind, RuleTable, StateRules};
use lrlex_rules::{empty_matchers, match_rule};
use lrlex_table::{DeadEnds, MatchAhead, MatchesAhead};
use regex::Matcher;
use std::alloc::{AllocError, Global};

/// A winner's text: the place of its rule, and how many bytes it takes.
#[derive(Clone, Copy)]
pub(crate) struct Tile {
    pub(crate) rule: usize,
    pub(crate) len: usize,
}

/// A winner, if there is one, and how many bytes of the text decide it. Its end counts as one more.
#[derive(Clone, Copy)]
pub(crate) struct Scan {
    pub(crate) winner: Option<Tile>,
    pub(crate) reach: usize,
}

/// Whether a rule that takes so many bytes is better than the best so far: it takes more, or as many and is the earlier one.
#[inline(always)]
fn is_better(rule: usize, len: usize, best: Tile) -> bool
    ensures better { result ≡ true → (best.len < len) ⊎ ((len ≡ best.len) × (rule < best.rule)) }
    ensures no_more { result ≡ false → len ≤ best.len }
    ensures later { result ≡ false → len ≡ best.len → best.rule ≤ rule }
{
    len > best.len || (len == best.len && rule < best.rule)
}

/// The place of the active rule with this number, among so many rules. Where all are active, nothing waits for the list, which
/// would cost each tile.
#[inline(always)]
fn active_place(active: &[usize], rules: usize, number: usize) -> usize
    requires within { number < length active.now }
    requires all { length active.now ≡ rules → (i : ℕ) → i < rules → slice_index active.now i ≡ i }
    ensures { result ≡ slice_index active.now number }
{
    if active.len() == rules {
        number
    } else {
        active[number]
    }
}

/// What wins at the beginning of the text, which begins at `from` in the input, in a state whose active rules all have a
/// table: the tables decide.
#[inline(always)]
fn tabled_winner<S: Numbered>(
    table: &RuleTable<S>,
    state: usize,
    rules: StateRules<'_>,
    ends: &mut DeadEnds<'_, '_>,
    from: usize,
    text: &str,
) -> Scan
    requires rules { AreOf S.number table.now state rules }
    requires tabled { rules.tables.now.asked.items ≡ [] }
    requires ends { (ends.old.lists.now ≡ table.now.tables.items)
        × (text.now ≡ drop from ends.old.text.now) × (from ≤ length ends.old.text.now) }
    ensures scan { IsScanOf (definition_by S.number table.now) state text.now
        result }
    ensures tile { IfSome result.winner (λ t. IsCharBoundary text.now t.len
        × (t.rule < vec_len table.now.rules)) }
    ensures ends { (ends.new.lists ≡ ends.old.lists) × (ends.new.text ≡ ends.old.text)
        × (ends.new.chain ≡ ends.old.chain) }
    ensures linear { (first : ℕ) → HasWorked table.now first from ends.old
        → HasWorked table.now first (from + max 1 (won_bytes result.winner)) ends.new }
{
    let scan = ends.winner_at(rules.tables, rules.list, from, text);
    let Some(found) = scan.winner else {
        return Scan {
            winner: None,
            reach: scan.reach,
        };
    };
    let rule = active_place(rules.active, table.rules.len(), found.pattern);
    Scan {
        winner: Some(Tile {
            rule,
            len: found.len,
        }),
        reach: scan.reach,
    }
}

/// The rule that wins at the beginning of the text, which begins at `from` in the input, among those that are active in the
/// state: the tables give the best of the rules that have one, and each other rule is matched by `regex`. Such a match doesn't
/// say how far it looked, so the whole text decides. Out of line, so that a tile whose rules all have a table doesn't pay for it.
#[inline(never)]
fn winner_with_search<'d, S: Numbered>(
    alloc: Global,
    table: &'d RuleTable<S>,
    state: usize,
    rules: StateRules<'d>,
    matchers: &mut [Option<Box<Matcher<'d>>>],
    ends: &mut DeadEnds<'d, '_>,
    from: usize,
    text: &str,
    asked: &mut u128,
) -> Result<Scan, AllocError>
    requires rules { AreOf S.number table.now state rules }
    requires held { AreMatchers table.now.rules.items matchers.old
        × (ends.old.lists.now ≡ table.now.tables.items)
        × (text.now ≡ drop from ends.old.text.now) × (from ≤ length ends.old.text.now) }
    requires room { asked.old + vec_len table.now.rules < 2 ^ 128 }
    ensures scan { IfOk result (IsScanOf (definition_by S.number table.now)
        state text.now) }
    ensures tile { IfOk result (λ s. IfSome s.winner (λ t. IsCharBoundary text.now t.len
        × (t.rule < vec_len table.now.rules))) }
    ensures asked { IfOk result (λ _. HasAsked S.number table.now state
        asked.old asked.new) }
    ensures matchers { AreMatchers table.now.rules.items matchers.new }
    ensures ends { (ends.new.lists ≡ ends.old.lists) × (ends.new.text ≡ ends.old.text)
        × (ends.new.chain ≡ ends.old.chain) }
    ensures linear { IfOk result (λ s. (first : ℕ) → HasWorked table.now first from ends.old
        → HasWorked table.now first (from + max 1 (won_bytes s.winner)) ends.new) }
{
    let active = rules.active;
    let tables = rules.tables;
    let scan = ends.winner_at(tables, rules.list, from, text);
    let mut best = match scan.winner {
        Some(found) => Tile {
            rule: found.pattern,
            len: found.len,
        },
        None => Tile { rule: 0, len: 0 },
    };
    'others: for index in 0..tables.asked().len() {
        let number = tables.asked()[index];
        let place = active[number];
        let rule = &table.rules[place];
        let len = match_rule(alloc, &mut matchers[place], rule, text, asked)?;
        if is_better(number, len, best) {
            best = Tile { rule: number, len };
        }
    }
    let reach = text.len() + 1;
    if best.len == 0 {
        return Ok(Scan {
            winner: None,
            reach,
        });
    }
    let winner = Some(Tile {
        rule: active_place(active, table.rules.len(), best.rule),
        len: best.len,
    });
    Ok(Scan { winner, reach })
}

/// A tile that was found ahead: its rule, with what lexing needs of it, and where it ends.
#[derive(Clone, Copy)]
pub(crate) struct Found<S> {
    pub(crate) kind: RowKind<S>,
    pub(crate) next: MatchAhead,
}

/// What a run needs to look for winners in a text: the matchers of the rules that have no table, as they come to be made,
/// and the dead ends of the tables.
#[derive(Drop)]
pub(crate) struct Searcher<'d, 't> {
    matchers: Vec<Option<Box<Matcher<'d>>>>,
    ends: DeadEnds<'d, 't>,
}

impl<'d, 't> Searcher<'d, 't> {
    /// Of the text, with no matcher and no dead end yet.
    pub(crate) fn new<S: Numbered>(
        alloc: Global,
        table: &'d RuleTable<S>,
        text: &'t str,
    ) -> Result<Self, AllocError>
        ensures searcher { IfOk result (IsSearcherOf table.now text.now) }
        ensures linear { IfOk result (λ s. (first : ℕ) → HasWorked table.now first first s.ends) }
    {
        let matchers = empty_matchers(alloc, &table.rules)?;
        let ends = DeadEnds::new(alloc, &table.tables, table.chains.first(), text);
        Ok(Searcher { matchers, ends })
    }

    /// How many cells of tables were looked at. None where a dead end was forgotten for want of memory.
    pub(crate) fn looked<S>(&self, table: &RuleTable<S>) -> Option<usize>
        ensures { (input : List ℕ) (first place : ℕ) → IsSearcherOf table.now input self.now
            → HasWorked table.now first place self.now.ends → place ≤ length input
            → IsLinearIn table.now input (place - first) result }
    {
        let _ = table;
        self.ends.looked()
    }

    /// Begins another pass over the text. The matchers stay, and the room for dead ends.
    pub(crate) fn rewind(&mut self)
        ensures matchers { self.new.matchers ≡ self.old.matchers }
        ensures lists { self.new.ends.lists ≡ self.old.ends.lists }
        ensures text { self.new.ends.text ≡ self.old.ends.text }
        ensures chain { self.new.ends.chain ≡ self.old.ends.chain }
        ensures linear { (most : ℕ) → HasWorkedTo most 0 0 self.new.ends }
    {
        self.ends.rewind();
    }

    /// The tile at the place by the rules of the state, if it was found ahead. No rule is searched for then, and the byte behind the tile
    /// decides it. `kinds` are those of the table's rows, all that is read of it.
    #[inline(always)]
    pub(crate) fn ahead<S: Numbered>(
        &self,
        table: &RuleTable<S>,
        kinds: &[RowKind<S>],
        rules: &StateRules<'_>,
        place: usize,
    ) -> Option<Found<S>>
        requires kinds { kinds.now ≡ table.now.row_kinds.items }
        requires rules { AreOf S.number table.now rules.now.state rules.now }
        requires searcher { (input : List ℕ) × IsSearcherOf table.now input self.now }
        ensures tile { (input : List ℕ) → IsSearcherOf table.now input self.now
            → IfSome result (λ f. IsFoundAt S.number table.now rules.now.state input place (tile_of place f)) }
        ensures next { IfSome result (λ f. IsNextAt self.now.ends.ahead place f.next) }
        ensures some { IfSome result (λ f. place < f.next.end) }
        ensures plain { IfSome result (λ f. f.kind.plain ≡ true → IsPlain S.number (own_kind f.kind).id
            (rule_at (definition_by S.number table.now) f.kind.rule)) }
    {
        let _ = table;
        let next = self.ends.next_ahead(place)?;
        let kind = kinds.get(next.row as usize).copied()?;
        if kind.list as usize != rules.list {
            return None;
        }
        Some(Found { kind, next })
    }

    /// Passes a tile that was found ahead at this place.
    #[inline(always)]
    pub(crate) fn pass<S>(&mut self, table: &RuleTable<S>, place: usize, next: MatchAhead)
        requires { IsNextAt self.old.ends.ahead place next }
        ensures searcher { (input : List ℕ) → IsSearcherOf table.now input self.old
            → IsSearcherOf table.now input self.new }
        ensures linear { (first at : ℕ) → HasWorked table.now first at self.old.ends
            → HasWorked table.now first at self.new.ends }
    {
        let _ = table;
        self.ends.pass_ahead(place, next);
    }

    /// All tiles that were found ahead and aren't passed, if the next one begins at the place. A tile of the state's list wins there by the
    /// rules of the state, and the byte behind it decides it.
    #[inline(always)]
    pub(crate) fn all_ahead<S: Numbered>(
        &self,
        table: &RuleTable<S>,
        rules: &StateRules<'_>,
        place: usize,
    ) -> MatchesAhead<'_>
        requires rules { AreOf S.number table.now rules.now.state rules.now }
        ensures left { length result.marks.now ≤ self.now.ends.ahead.count - self.now.ends.ahead.at }
        ensures tiles { (input : List ℕ) → IsSearcherOf table.now input self.now → AreFoundAt S.number table.now rules.now.state rules.now.list input result.from place result.marks.now }
    {
        let _ = table;
        let _ = rules;
        self.ends.matches_ahead(place)
    }

    /// Passes the next tiles that were found ahead, so many of them.
    #[inline(always)]
    pub(crate) fn pass_all<S>(&mut self, table: &RuleTable<S>, count: usize)
        requires { count ≤ self.old.ends.ahead.count - self.old.ends.ahead.at }
        ensures searcher { (input : List ℕ) → IsSearcherOf table.now input self.old
            → IsSearcherOf table.now input self.new }
        ensures linear { (first at : ℕ) → HasWorked table.now first at self.old.ends
            → HasWorked table.now first at self.new.ends }
    {
        let _ = table;
        self.ends.pass_matches(count);
    }

    /// The rule that wins at the place, from which on the rest of the text stands, among those that are active in the
    /// state.
    #[inline(always)]
    pub(crate) fn winner<S: Numbered>(
        &mut self,
        alloc: Global,
        table: &'d RuleTable<S>,
        state: usize,
        rules: StateRules<'d>,
        place: usize,
        rest: &str,
        asked: &mut u128,
    ) -> Result<Scan, AllocError>
        requires rules { AreOf S.number table.now state rules }
        requires searcher { (input : List ℕ) × IsSearcherOf table.now input self.old
            × (rest.now ≡ drop place input) × (place ≤ length input) }
        requires room { asked.old + vec_len table.now.rules < 2 ^ 128 }
        ensures scan { IfOk result (IsScanOf (definition_by S.number table.now)
            state rest.now) }
        ensures tile { IfOk result (λ s. IfSome s.winner (λ t. IsCharBoundary rest.now t.len
            × (t.rule < vec_len table.now.rules))) }
        ensures asked { IfOk result (λ _. HasAsked S.number table.now state
            asked.old asked.new) }
        ensures searcher { (input : List ℕ) → IsSearcherOf table.now input self.old
            → IsSearcherOf table.now input self.new }
        ensures linear { IfOk result (λ s. (first : ℕ) → HasWorked table.now first place self.old.ends
            → HasWorked table.now first (place + max 1 (won_bytes s.winner)) self.new.ends) }
    {
        if rules.tables.asked().is_empty() {
            let ends = &mut self.ends;
            return Ok(tabled_winner(table, state, rules, ends, place, rest));
        }
        let scan = winner_with_search(
            alloc,
            table,
            state,
            rules,
            &mut self.matchers,
            &mut self.ends,
            place,
            rest,
            asked,
        )?;
        Ok(scan)
    }
}
