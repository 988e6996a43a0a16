//! Which pattern wins at a place, where matches that were looked for ahead tell it.
ghost use Rattle.std.specs.Prelude.{◌≡◌, ℕ, ◌+◌, ◌-◌, ◌<◌, ◌≤◌, List, [], length, drop, Some, IfSome, IsCharBoundary, slice_get};
ghost use Rattle.regex.specs.Patterns.{Re};
ghost use Rattle.lrlex_table.specs.Reach.{IsDecidedBy};
ghost use Rattle.std.specs.Option.{ForSome};
ghost use Rattle.lrlex_table.specs.Ahead.{AreBestIn, IsBestIn, IsNextAt};
ghost use Rattle.lrlex_table.specs.Looking.{HasSameEnds};
ghost use Rattle.lrlex_table.specs.Linear.{HasWorkedTo};
ghost use Rattle.lrlex_table.specs.Tables.{is_tabled, AreTablesOf, IsBestAmong};

use crate::ahead::{MOST_WAIT, TRY_AGAIN};
use crate::chain::Chain;
use crate::dead_ends::DeadEnds;
use crate::marks::Mark;
use crate::tables::Tables;
use crate::walk::PatternMatch;

/// A match that was found ahead: the row of the chain in which it ends, and where that is in the text, in bytes.
#[derive(Clone, Copy)]
pub struct MatchAhead {
    pub row: u16,
    pub end: usize,
}

/// Matches that were found ahead, one behind the other: each ends so many bytes behind `from` as its mark says, in the mark's row of the chain,
/// and the next one begins there.
#[derive(Clone, Copy)]
pub struct MatchesAhead<'a> {
    pub from: usize,
    pub marks: &'a [Mark],
}

impl<'d, 't> DeadEnds<'d, 't> {
    /// All matches that were found ahead and aren't passed, if the next one begins at this place. Each is of the list of its row: whoever looks
    /// for a match of another list can't take it.
    #[inline(always)]
    pub fn matches_ahead(&self, place: usize) -> MatchesAhead<'_>
        ensures left { length result.marks.now ≤ self.now.ahead.count - self.now.ahead.at }
        ensures best { ForSome self.now.chain (λ c. AreBestIn self.now.lists.now self.now.text.now result.from place result.marks.now c.now) }
    {
        self.matches_in(self.text, place)
    }

    /// The same, in this text.
    #[inline(always)]
    fn matches_in(&self, text: &str, place: usize) -> MatchesAhead<'_>
        requires text { text.now ≡ self.now.text.now }
        ensures left { length result.marks.now ≤ self.now.ahead.count - self.now.ahead.at }
        ensures best { ForSome self.now.chain (λ c. AreBestIn self.now.lists.now text.now result.from place result.marks.now c.now) }
    {
        let _ = text;
        let from = self.ahead.from;
        if self.ahead.at >= self.ahead.count || self.ahead.begin != place {
            let marks = &self.ahead.marks[..0];
            return MatchesAhead { from, marks };
        }
        let marks = &self.ahead.marks[self.ahead.at..self.ahead.count];
        MatchesAhead { from, marks }
    }

    /// Passes the next matches that were found ahead, so many of them.
    #[inline(always)]
    pub fn pass_matches(&mut self, count: usize)
        requires { count ≤ self.old.ahead.count - self.old.ahead.at }
        ensures lists { self.new.lists ≡ self.old.lists }
        ensures text { self.new.text ≡ self.old.text }
        ensures ends { HasSameEnds self.old self.new }
        ensures counted { self.old.ahead.cells ≤ self.new.ahead.cells }
        ensures linear { (most from at : ℕ) → HasWorkedTo most from at self.old → HasWorkedTo most from at self.new }
    {
        self.pass_in(self.text, count);
    }

    /// The same, in this text.
    #[inline(always)]
    fn pass_in(&mut self, text: &str, count: usize)
        requires text { text.now ≡ self.old.text.now }
        requires left { count ≤ self.old.ahead.count - self.old.ahead.at }
        ensures lists { self.new.lists ≡ self.old.lists }
        ensures text { self.new.text ≡ self.old.text }
        ensures ends { HasSameEnds self.old self.new }
        ensures counted { self.old.ahead.cells ≤ self.new.ahead.cells }
        ensures linear { (most from at : ℕ) → HasWorkedTo most from at self.old → HasWorkedTo most from at self.new }
    {
        let _ = text;
        if count == 0 {
            return;
        }
        let at = self.ahead.at + count;
        self.ahead.begin = self.ahead.from + self.ahead.marks[at - 1].end() as usize;
        self.ahead.at = at;
    }

    /// The next match that was found ahead, if it begins at this place. It is of the list of its row: whoever looks for a match of another
    /// list can't take it.
    #[inline(always)]
    pub fn next_ahead(&self, place: usize) -> Option<MatchAhead>
        ensures next { IfSome result (IsNextAt self.now.ahead place) }
        ensures best { IfSome result (λ m. ForSome self.now.chain (λ c. IsBestIn self.now.lists.now self.now.text.now place m c.now)) }
    {
        self.next_in(self.text, place)
    }

    /// The same, in this text.
    #[inline(always)]
    fn next_in(&self, text: &str, place: usize) -> Option<MatchAhead>
        requires text { text.now ≡ self.now.text.now }
        ensures next { IfSome result (IsNextAt self.now.ahead place) }
        ensures best { IfSome result (λ m. ForSome self.now.chain (λ c. IsBestIn self.now.lists.now text.now place m c.now)) }
    {
        let _ = text;
        if self.ahead.begin != place || self.ahead.at >= self.ahead.count {
            return None;
        }
        let mark = self.ahead.marks[self.ahead.at];
        Some(MatchAhead {
            row: mark.row(),
            end: self.ahead.from + mark.end() as usize,
        })
    }

    /// Passes the next match that was found ahead, which begins at this place.
    #[inline(always)]
    pub fn pass_ahead(&mut self, place: usize, next: MatchAhead)
        requires { IsNextAt self.old.ahead place next }
        ensures lists { self.new.lists ≡ self.old.lists }
        ensures text { self.new.text ≡ self.old.text }
        ensures ends { HasSameEnds self.old self.new }
        ensures counted { self.old.ahead.cells ≤ self.new.ahead.cells }
        ensures linear { (most from at : ℕ) → HasWorkedTo most from at self.old → HasWorkedTo most from at self.new }
    {
        let _ = place;
        self.ahead.at += 1;
        self.ahead.begin = next.end;
    }

    /// The next match that was found ahead in this text, as `ahead_at` returns it.
    fn take(
        &mut self,
        chain: Option<&Chain>,
        tables: &Tables,
        list: usize,
        place: usize,
    ) -> Option<PatternMatch>
        requires chain { chain ≡ self.old.chain }
        requires tables { slice_get self.old.lists.now list ≡ Some tables.now }
        ensures tabled { IfSome result (λ _. tables.now.asked.items ≡ []) }
        ensures winner { IfSome result (λ t. (ps : List Re) → AreTablesOf ps tables.now →
            (0 < t.len) × IsBestAmong ps (is_tabled tables.now.parts.items) (drop place self.old.text.now) t.pattern t.len) }
        ensures decided { IfSome result (λ t. (ps : List Re) → AreTablesOf ps tables.now →
            IsDecidedBy ps (drop place self.old.text.now) (t.len + 1)) }
        ensures within { IfSome result (λ t. place + t.len < length self.old.text.now) }
        ensures lists { self.new.lists ≡ self.old.lists }
        ensures text { self.new.text ≡ self.old.text }
        ensures ends { HasSameEnds self.old self.new }
        ensures counted { self.old.ahead.cells ≤ self.new.ahead.cells }
        ensures linear { (most from at : ℕ) → HasWorkedTo most from at self.old → HasWorkedTo most from at self.new }
    {
        let _ = tables;
        let next = self.next_ahead(place)?;
        let name = chain?.name_of(next.row)?;
        if name.list as usize != list {
            return None;
        }
        self.pass_ahead(place, next);
        Some(PatternMatch {
            pattern: name.pattern as usize,
            len: next.end - place,
        })
    }

    /// Which pattern of the list wins at this place, where matches that were looked for ahead tell it. Then each pattern of the list has a table,
    /// and the byte behind the match decides.
    fn ahead_at(&mut self, tables: &Tables, list: usize, place: usize) -> Option<PatternMatch>
        requires tables { slice_get self.old.lists.now list ≡ Some tables.now }
        ensures tabled { IfSome result (λ _. tables.now.asked.items ≡ []) }
        ensures winner { IfSome result (λ t. (ps : List Re) → AreTablesOf ps tables.now →
            (0 < t.len) × IsBestAmong ps (is_tabled tables.now.parts.items) (drop place self.old.text.now) t.pattern t.len) }
        ensures decided { IfSome result (λ t. (ps : List Re) → AreTablesOf ps tables.now →
            IsDecidedBy ps (drop place self.old.text.now) (t.len + 1)) }
        ensures within { IfSome result (λ t. place + t.len < length self.old.text.now) }
        ensures lists { self.new.lists ≡ self.old.lists }
        ensures text { self.new.text ≡ self.old.text }
        ensures ends { HasSameEnds self.old self.new }
        ensures counted { self.old.ahead.cells ≤ self.new.ahead.cells }
        ensures linear { (most from at : ℕ) → HasWorkedTo most from at self.old → HasWorkedTo most from at self.new }
    {
        let chain = self.chain;
        self.take(chain, tables, list, place)
    }

    /// Passes the matches that were found ahead, up to the first that begins at this place or after it.
    fn pass_to(&mut self, place: usize, text: &str)
        requires text { text.now ≡ self.old.text.now }
        ensures lists { self.new.lists ≡ self.old.lists }
        ensures text { self.new.text ≡ self.old.text }
        ensures ends { HasSameEnds self.old self.new }
        ensures counted { self.old.ahead.cells ≤ self.new.ahead.cells }
        ensures linear { (most from at : ℕ) → HasWorkedTo most from at self.old → HasWorkedTo most from at self.new }
    {
        let _ = text;
        let most = self.ahead.count;
        let first = self.ahead.begin;
        let mut at = self.ahead.at;
        let mut begin = first;
        'passed: while at < most && begin < place {
            begin = self.ahead.from + self.ahead.marks[at].end() as usize;
            at += 1;
        }
        self.ahead.passed = self
            .ahead
            .passed
            .saturating_add(begin.saturating_sub(first));
        self.ahead.at = at;
        self.ahead.begin = begin;
    }

    /// Looks ahead in this text from this place on, if that is due and the list is in the chain.
    fn look_ahead(&mut self, chain: Option<&Chain>, list: usize, place: usize, text: &str)
        requires chain { chain ≡ self.old.chain }
        requires text { text.now ≡ self.old.text.now }
        requires inside { place ≤ length text.now }
        requires boundary { IsCharBoundary text.now place }
        ensures lists { self.new.lists ≡ self.old.lists }
        ensures text { self.new.text ≡ self.old.text }
        ensures ends { HasSameEnds self.old self.new }
        ensures counted { self.old.ahead.cells ≤ self.new.ahead.cells }
        ensures linear { (most from : ℕ) → HasWorkedTo most from place self.old → HasWorkedTo most from place self.new }
    {
        if !self.ahead.is_due(place) {
            return;
        }
        let Some(chain) = chain else {
            self.ahead.put_off(place, MOST_WAIT);
            return;
        };
        let Some(begin) = chain.start_of(list) else {
            self.ahead.put_off(place, TRY_AGAIN);
            return;
        };
        self.ahead.look(chain, begin, text.as_bytes(), place);
    }

    /// Which pattern wins at this place, where the next match that was found ahead doesn't begin behind it: passes what isn't of use any more,
    /// and looks ahead where nothing is left. Out of line, so that a walk isn't longer for it.
    #[inline(never)]
    pub(crate) fn found_at(
        &mut self,
        tables: &Tables,
        list: usize,
        place: usize,
        rest: &str,
    ) -> Option<PatternMatch>
        requires tables { slice_get self.old.lists.now list ≡ Some tables.now }
        requires rest { rest.now ≡ drop place self.old.text.now }
        requires inside { place ≤ length self.old.text.now }
        ensures winner { IfSome result (λ t. (ps : List Re) → AreTablesOf ps tables.now →
            (0 < t.len) × IsBestAmong ps (is_tabled tables.now.parts.items) rest.now t.pattern t.len) }
        ensures decided { IfSome result (λ t. (ps : List Re) → AreTablesOf ps tables.now →
            IsDecidedBy ps rest.now (t.len + 1)) }
        ensures within { IfSome result (λ t. t.len < length rest.now) }
        ensures lists { self.new.lists ≡ self.old.lists }
        ensures text { self.new.text ≡ self.old.text }
        ensures ends { HasSameEnds self.old self.new }
        ensures counted { self.old.ahead.cells ≤ self.new.ahead.cells }
        ensures linear { (most from : ℕ) → HasWorkedTo most from place self.old → HasWorkedTo most from place self.new }
    {
        let text = self.text;
        if self.ahead.has_more() {
            self.ahead.missed = self.ahead.missed.saturating_add(1);
        }
        self.pass_to(place, text);
        if self.ahead.is_spent(place) {
            let chain = self.chain;
            self.look_ahead(chain, list, place, text);
        }
        self.ahead_at(tables, list, place)
    }
}
