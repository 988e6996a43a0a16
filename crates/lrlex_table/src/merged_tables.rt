//! Merges the tables of a list's patterns, so that as few tables as can be had are left: those of a group of patterns at once,
//! where one table for all of them isn't too big, and else the tables of its halves.
ghost use Rattle.std.specs.Prelude.{◌≡◌, ℕ, Bool, ◌*◌, ◌||◌, ◌+◌, ◌-◌, ◌^◌, ◌<◌, ◌≤◌, List, [], ◌∷◌, ◌++◌, length, map, vec_len, slice_index, IfOk, OnOk, IsSome, IfSome, MatchOption, IsTrue, IsFalse, IsUtf8};
ghost use Rattle.regex.specs.Patterns.{Re};
ghost use Rattle.lrlex_table.specs.Table.{pattern_at, EndsInRowOf, IsTableOf};
ghost use Rattle.lrlex_table.specs.Reach.{IsDecidedBy, IsReach};
ghost use Rattle.lrlex_table.specs.Work.{cells};
ghost use Rattle.lrlex_table.specs.Rows.{table_rows, part_rows, cached_rows, tables_rows, some_rows};
ghost use Rattle.lrlex_table.specs.Tables.{AreRising, AreCached, rows_of, is_among, is_tabled, patterns_at, IsPartOf, AreParts, Covers, ArePartsOf, AreTablesOf, IsBelow, IsLongestOf, IsBestAmong, IsWinnerAmong, IsTableScanOf, len_of};

use crate::budget::Budget;
use crate::cached_table::CachedTable;
use crate::group::group_table;
use crate::product::product;
use crate::table::Table;
use crate::tables::Tables;
use crate::walk::{PatternMatch, TableScan, Walk};
use std::alloc::{AllocError, Global};

/// The most rows of a table that is joined from two.
const MOST_ROWS: usize = 65_534;

/// What it costs to try whether two parts can be joined, in the budget's units of work.
const WORK_OF_A_TRY: usize = 500;

/// The table of some patterns of a list, and the places of these in the list, in order.
#[derive(Drop)]
pub struct Part {
    pub(crate) table: Table,
    pub(crate) patterns: Vec<usize>,
}

/// The most rows of a table joined from these two: where it would have many more than both, they aren't joined.
fn most_rows(a: &Table, b: &Table) -> u16 {
    let both = a.rows().saturating_add(b.rows());
    let most = both.saturating_mul(2).saturating_add(64).min(MOST_ROWS);
    most as u16
}

/// The part of the patterns of both, those of `a` first. None where these aren't all before those of `b` in the list, where
/// its table would be too big, and where the budget is spent.
fn join(alloc: Global, a: &Part, b: &Part, budget: &mut Budget) -> Result<Option<Part>, AllocError>
    ensures part { (ps : List Re) (lo hi : ℕ) → IsPartOf ps lo hi a.now → IsPartOf ps lo hi b.now →
        IfOk result (λ o. IfSome o (IsPartOf ps lo hi)) }
    ensures patterns { IfOk result (λ o.
        IfSome o (λ p. p.patterns.items ≡ a.now.patterns.items ++ b.now.patterns.items)) }
    ensures paid { IfOk result (λ o. part_rows o + budget.new.rows ≤ budget.old.rows) }
{
    let Some(last) = a.patterns.last() else {
        return Ok(None)
    };
    let Some(first) = b.patterns.first() else {
        return Ok(None)
    };
    if *last >= *first {
        return Ok(None);
    }
    if !budget.pay_work(WORK_OF_A_TRY) {
        return Ok(None);
    }
    let Ok(shift) = u16::try_from(a.patterns.len()) else {
        return Ok(None)
    };
    let most = most_rows(&a.table, &b.table);
    let rows = budget.rows();
    let made = product(alloc, &a.table, &b.table, shift, most, budget)?;
    let Some(table) = made else {
        budget.free_rows(rows.saturating_sub(budget.rows()));
        return Ok(None);
    };
    let mut patterns = Vec::from_slice(alloc, &a.patterns)?;
    patterns.extend_from_slice(&b.patterns)?;
    Ok(Some(Part { table, patterns }))
}

/// Joins the part with the first of these parts that it can be joined with, or adds it to them.
fn put(
    alloc: Global,
    parts: &mut Vec<Part>,
    part: Part,
    budget: &mut Budget,
) -> Result<(), AllocError>
    ensures parts { (ps : List Re) (lo hi : ℕ) →
        AreParts ps lo hi parts.old.items → IsPartOf ps lo hi part →
        OnOk result (AreParts ps lo hi parts.new.items) }
    ensures covers { OnOk result (Covers parts.new.items (part ∷ parts.old.items)) }
    ensures paid { OnOk result (rows_of parts.new.items + budget.new.rows
        ≤ rows_of parts.old.items + vec_len part.table.wins + budget.old.rows) }
{
    'parts: for at in 0..parts.len() {
        let joined = join(alloc, &parts[at], &part, budget)?;
        if let Some(both) = joined {
            let replaced = parts[at].table.rows().saturating_add(part.table.rows());
            parts[at] = both;
            budget.free_rows(replaced);
            return Ok(());
        }
    }
    parts.push(part)?;
    Ok(())
}

/// The table of the pattern at this place of the cache, for one of the lists that have the pattern.
fn hand_out_at(
    alloc: Global,
    cache: &mut [CachedTable],
    place: usize,
    budget: &mut Budget,
) -> Result<Option<Table>, AllocError>
    ensures given { (pattern : ℕ → Re) → AreCached pattern cache.old →
        IfOk result (λ o. IfSome o (IsTableOf (pattern place ∷ []))) }
    ensures kept { (pattern : ℕ → Re) → AreCached pattern cache.old →
        OnOk result (AreCached pattern cache.new) }
    ensures paid { IfOk result (λ o. cached_rows cache.new + table_rows o + budget.new.rows
        ≤ cached_rows cache.old + budget.old.rows) }
{
    if place < cache.len() {
        cache[place].hand_out(alloc, budget)
    } else {
        Ok(None)
    }
}

/// The tables of one pattern, which is at this index of the list and at this place of the cache.
fn alone(
    alloc: Global,
    cache: &mut [CachedTable],
    place: usize,
    index: usize,
    budget: &mut Budget,
) -> Result<Tables, AllocError>
    ensures tables { (pattern : ℕ → Re) (ps : List Re) →
        AreCached pattern cache.old → pattern_at ps index ≡ pattern place →
        IfOk result (λ t. ArePartsOf ps index (index + 1) t.parts.items t.asked.items) }
    ensures kept { (pattern : ℕ → Re) → AreCached pattern cache.old →
        OnOk result (AreCached pattern cache.new) }
    ensures paid { IfOk result (λ t. cached_rows cache.new + tables_rows t + budget.new.rows
        ≤ cached_rows cache.old + budget.old.rows) }
{
    let mut parts = Vec::new(alloc);
    let mut asked = Vec::new(alloc);
    match hand_out_at(alloc, cache, place, budget)? {
        Some(table) => {
            let mut patterns = Vec::new(alloc);
            patterns.push(index)?;
            parts.push(Part { table, patterns })?;
        }
        None => asked.push(index)?,
    }
    Ok(Tables { parts, asked })
}

/// The tables of the patterns of both, where those of `right` come after those of `left` in the list: as few as can be had
/// within the budget.
pub fn joined_tables(
    alloc: Global,
    left: Tables,
    right: Tables,
    budget: &mut Budget,
) -> Result<Tables, AllocError>
    ensures tables { (ps : List Re) (lo middle hi : ℕ) →
        ArePartsOf ps lo middle left.parts.items left.asked.items →
        ArePartsOf ps middle hi right.parts.items right.asked.items →
        IfOk result (λ t. ArePartsOf ps lo hi t.parts.items t.asked.items) }
    ensures paid { IfOk result (λ t. tables_rows t + budget.new.rows
        ≤ tables_rows left + tables_rows right + budget.old.rows) }
{
    let mut parts = left.parts;
    let mut asked = left.asked;
    'parts: for part in right.parts {
        put(alloc, &mut parts, part, budget)?;
    }
    asked.extend_from_slice(&right.asked)?;
    Ok(Tables { parts, asked })
}

/// How many rows the table at this place of the cache has, or 1 where there is none.
fn rows_at(cache: &[CachedTable], place: usize) -> usize {
    match cache.get(place) {
        Some(cached) => cached.rows(),
        None => 1,
    }
}

/// How many rows the cached tables of the list's patterns have from index `from` to before `to`.
fn rows_between(cache: &[CachedTable], places: &[usize], from: usize, to: usize) -> usize
    requires from { from ≤ to }
    requires to { to ≤ length places.now }
{
    let mut rows = 0usize;
    for place in &places[from..to] {
        rows = rows.saturating_add(rows_at(cache, *place));
    }
    rows
}

/// The index at which to divide these patterns, so that the tables of both halves have about as many rows: a join goes through
/// all rows of both tables, so a big table should take part in few joins.
fn middle_of(cache: &[CachedTable], places: &[usize], from: usize, to: usize) -> usize
    requires two { from + 1 < to }
    requires to { to ≤ length places.now }
    ensures after { from < result }
    ensures before { result < to }
{
    let all = rows_between(cache, places, from, to);
    let mut left = rows_at(cache, places[from]);
    'places: for middle in from + 1..to - 1 {
        let rows = rows_at(cache, places[middle]);
        let more = left.saturating_add(rows);
        if left.saturating_add(more) >= all {
            return middle;
        }
        left = more;
    }
    to - 1
}

/// How many rows the table of a group may have more than the tables of its patterns have together.
const MORE_ROWS_OF_A_GROUP: usize = 64;

/// Notes for each of these places of the cache that one of the lists has its pattern in the table of a group.
fn release_all(cache: &mut [CachedTable], places: &[usize], budget: &mut Budget)
    ensures kept { (pattern : ℕ → Re) → AreCached pattern cache.old → AreCached pattern cache.new }
    ensures paid { cached_rows cache.new + budget.new.rows ≤ cached_rows cache.old + budget.old.rows }
{
    'places: for place in places {
        if *place < cache.len() {
            cache[*place].release(budget);
        }
    }
}

/// The numbers from `from` to before `to`.
fn numbers(alloc: Global, from: usize, to: usize) -> Result<Vec<usize>, AllocError>
    requires { from ≤ to }
    ensures rises { IfOk result (λ v. AreRising from to v.items) }
    ensures len { IfOk result (λ v. length v.items ≡ to - from) }
    ensures each { IfOk result (λ v. (i : ℕ) → i < to - from → slice_index v.items i ≡ from + i) }
{
    let mut numbers = Vec::with_capacity(alloc, to - from)?;
    'numbers: for number in from..to {
        numbers.push(number)?;
    }
    Ok(numbers)
}

/// One table for all of the list's patterns from index `from` to before `to`, joined at once. None where one of them has no table,
/// where the table would have many more rows than theirs, and where the budget is spent.
fn grouped(
    alloc: Global,
    cache: &mut [CachedTable],
    places: &[usize],
    from: usize,
    to: usize,
    budget: &mut Budget,
) -> Result<Option<Tables>, AllocError>
    requires from { from < to }
    requires to { to ≤ length places.now }
    ensures tables { (pattern : ℕ → Re) → AreCached pattern cache.old →
        IfOk result (λ o. IfSome o (λ t.
        ArePartsOf (map pattern places.now) from to t.parts.items t.asked.items)) }
    ensures kept { (pattern : ℕ → Re) → AreCached pattern cache.old →
        OnOk result (AreCached pattern cache.new) }
    ensures paid { IfOk result (λ o. cached_rows cache.new + some_rows o + budget.new.rows
        ≤ cached_rows cache.old + budget.old.rows) }
{
    let rows = rows_between(cache, places, from, to);
    let most = rows.saturating_add(MORE_ROWS_OF_A_GROUP).min(MOST_ROWS) as u16;
    let left = budget.rows();
    let made = group_table(alloc, cache, &places[from..to], most, budget)?;
    let Some(table) = made else {
        budget.free_rows(left.saturating_sub(budget.rows()));
        return Ok(None);
    };
    let patterns = numbers(alloc, from, to)?;
    release_all(cache, &places[from..to], budget);
    let mut parts = Vec::new(alloc);
    parts.push(Part { table, patterns })?;
    Ok(Some(Tables {
        parts,
        asked: Vec::new(alloc),
    }))
}

/// Tables for the list's patterns from index `from` to before `to`, as few as can be had. `places` has the places of the
/// list's patterns in the cache, which hands out their tables. `asked` lists the patterns that have none.
pub fn tables_between(
    alloc: Global,
    cache: &mut [CachedTable],
    places: &[usize],
    from: usize,
    to: usize,
    budget: &mut Budget,
) -> Result<Tables, AllocError>
    requires from { from < to }
    requires to { to ≤ length places.now }
    ensures tables { (pattern : ℕ → Re) → AreCached pattern cache.old →
        IfOk result (λ t. ArePartsOf (map pattern places.now) from to t.parts.items t.asked.items) }
    ensures kept { (pattern : ℕ → Re) → AreCached pattern cache.old →
        OnOk result (AreCached pattern cache.new) }
    ensures paid { IfOk result (λ t. cached_rows cache.new + tables_rows t + budget.new.rows
        ≤ cached_rows cache.old + budget.old.rows) }
{
    if to - from == 1 {
        return alone(alloc, cache, places[from], from, budget);
    }
    if let Some(tables) = grouped(alloc, cache, places, from, to, budget)? {
        return Ok(tables);
    }
    let middle = middle_of(cache, places, from, to);
    let left = tables_between(alloc, cache, places, from, middle, budget)?;
    let right = tables_between(alloc, cache, places, middle, to, budget)?;
    joined_tables(alloc, left, right, budget)
}

/// The better of two matches, or the only one.
#[inline(always)]
fn better(one: Option<PatternMatch>, other: Option<PatternMatch>) -> Option<PatternMatch>
    ensures winner { (ps : List Re) (a b : ℕ → Bool) (text : List ℕ) →
        IsWinnerAmong ps a text one → IsWinnerAmong ps b text other →
        IsWinnerAmong ps (λ k. a k || b k) text result }
    ensures past { (n : ℕ) → IsBelow n one → IsBelow n other → IsBelow n result }
    ensures len { (len_of one ≤ len_of result) × (len_of other ≤ len_of result) }
{
    let Some(found) = one else { return other };
    let Some(rival) = other else { return one };
    if rival.is_better_than(found) {
        other
    } else {
        one
    }
}

/// Two scans of one text as one: the better match, the greater reach, and the cells of both.
#[inline(always)]
pub(crate) fn combined(a: TableScan, b: TableScan) -> TableScan
    ensures scan { (ps : List Re) (one other : ℕ → Bool) (text : List ℕ) →
        IsTableScanOf ps one text a → IsTableScanOf ps other text b →
        IsTableScanOf ps (λ k. one k || other k) text result }
    ensures past { IsBelow a.reach a.winner → IsBelow b.reach b.winner →
        IsBelow result.reach result.winner }
    ensures len { (len_of a.winner ≤ len_of result.winner) × (len_of b.winner ≤ len_of result.winner) }
    ensures reach { (a.reach ≤ result.reach) × (b.reach ≤ result.reach) }
    ensures looked { result.looked ≤ a.looked + b.looked }
    ensures counted { a.looked + b.looked < 2 ^ 64 → result.looked ≡ a.looked + b.looked }
{
    let reach = if a.reach < b.reach { b.reach } else { a.reach };
    TableScan {
        winner: better(a.winner, b.winner),
        reach,
        looked: a.looked.saturating_add(b.looked),
    }
}

/// The entry at this place of a rising list. Where the last entry equals its place, so does each entry: then the place is the
/// answer, and no match waits for the list to be read.
#[inline(always)]
fn entry_at(patterns: &[usize], place: usize) -> Option<usize>
    ensures there { place < length patterns.now → IsSome result }
    ensures pattern { (hi : ℕ) → AreRising 0 hi patterns.now →
        IfSome result (λ r. (place < length patterns.now) × (r ≡ slice_index patterns.now place)) }
{
    let last = *patterns.last()?;
    if last == patterns.len() - 1 {
        if place <= last { Some(place) } else { None }
    } else {
        patterns.get(place).copied()
    }
}

impl Part {
    /// The match with the place of its pattern in the list, in place of the one among the part's patterns.
    #[inline(always)]
    pub(crate) fn in_list(&self, found: Option<PatternMatch>) -> Option<PatternMatch>
        ensures winner { (ps : List Re) (text : List ℕ) →
            IsPartOf ps 0 (length ps) self.now → IsUtf8 text →
            IsLongestOf (patterns_at ps self.now.patterns.items) text found →
            IsWinnerAmong ps (is_among self.now.patterns.items) text result }
        ensures past { (n : ℕ) → IsBelow n found → IsBelow n result }
        ensures len { IfSome found (λ t. t.pattern < length self.now.patterns.items) →
            len_of result ≡ len_of found }
    {
        let found = found?;
        let pattern = entry_at(&self.patterns, found.pattern)?;
        Some(PatternMatch {
            pattern,
            len: found.len,
        })
    }

    /// What a walk through the part's table has found in the text, with the place of its pattern in the list.
    #[inline(always)]
    pub(crate) fn scan_of(&self, text: &str, walk: Walk) -> TableScan
        requires ends { EndsInRowOf self.now.table text.now walk.reach walk.len walk.row }
        requires within { walk.reach ≤ length text.now + 1 }
        requires past { walk.len < walk.reach }
        ensures scan { (ps : List Re) → IsPartOf ps 0 (length ps) self.now →
            IsTableScanOf ps (is_among self.now.patterns.items) text.now result }
        ensures past { IsBelow result.reach result.winner }
    {
        let scan = self.table.scan_of(text, walk);
        TableScan {
            winner: self.in_list(scan.winner),
            reach: scan.reach,
            looked: scan.looked,
        }
    }

    /// Which of the part's patterns wins, by its place in the list, and how many bytes of the text decide that.
    #[inline(always)]
    pub(crate) fn winner(&self, text: &str) -> TableScan
        ensures scan { (ps : List Re) → IsPartOf ps 0 (length ps) self.now →
            IsTableScanOf ps (is_among self.now.patterns.items) text.now result }
        ensures past { IsBelow result.reach result.winner }
        ensures looked { result.looked ≡ result.reach }
        ensures reach { IsReach self.now.table text.now result.reach }
    {
        let scan = self.table.longest_match(text);
        TableScan {
            winner: self.in_list(scan.winner),
            reach: scan.reach,
            looked: scan.looked,
        }
    }
}

impl Tables {
    /// No tables: `regex` matches each of so many patterns.
    pub fn none(alloc: Global, patterns: usize) -> Result<Tables, AllocError>
        ensures tables { (ps : List Re) → length ps ≡ patterns → IfOk result (AreTablesOf ps) }
        ensures rows { IfOk result (λ t. tables_rows t ≡ 0) }
    {
        let mut asked = Vec::new(alloc);
        'patterns: for place in 0..patterns {
            asked.push(place)?;
        }
        Ok(Tables {
            parts: Vec::new(alloc),
            asked,
        })
    }

    /// The places in the list of the patterns that have no table, in order.
    pub fn asked(&self) -> &[usize]
        ensures { result.now ≡ self.now.asked.items }
    {
        &self.asked
    }

    /// The part, where there is only one.
    #[inline(always)]
    pub(crate) fn only(&self) -> Option<&Part>
        ensures { IfSome result (λ p. self.now.parts.items ≡ p.now ∷ []) }
    {
        match self.parts.as_slice() {
            [part] => Some(part),
            _ => None,
        }
    }

    /// Which pattern wins among those of all tables. Out of line, since most lists of patterns have one table, whose walk has to
    /// stay short.
    #[inline(never)]
    fn winner_of_parts(&self, text: &str) -> TableScan
        ensures scan { (ps : List Re) → AreTablesOf ps self.now →
            IsTableScanOf ps (is_tabled self.now.parts.items) text.now result }
        ensures past { IsBelow result.reach result.winner }
        ensures looked { result.looked ≤ cells self.now.parts.items text.now }
        ensures counted { cells self.now.parts.items text.now < 2 ^ 64 →
            result.looked ≡ cells self.now.parts.items text.now }
        ensures most { cells self.now.parts.items text.now ≤ vec_len self.now.parts * result.reach }
    {
        let mut scan = TableScan {
            winner: None,
            reach: 0,
            looked: 0,
        };
        'parts: for at in 0..self.parts.len() {
            scan = combined(scan, self.parts[at].winner(text));
        }
        scan
    }

    /// Which of the patterns that have a table wins at the beginning of the text: the longest match, on a tie of the earliest
    /// pattern. There is no winner where none of them matches a byte. Where all patterns have a table, the first `reach` bytes of
    /// the text decide the winner: it is the same in each text that begins with them. A walk through each table looks at a cell for
    /// each byte up to where no pattern can match any more.
    #[inline(always)]
    pub fn winner(&self, text: &str) -> TableScan
        ensures winner { (ps : List Re) → AreTablesOf ps self.now →
            MatchOption result.winner (IsBestAmong ps (is_tabled self.now.parts.items) text.now 0 0)
            (λ t. (0 < t.len) ×
            IsBestAmong ps (is_tabled self.now.parts.items) text.now t.pattern t.len) }
        ensures decided { (ps : List Re) → AreTablesOf ps self.now → self.now.asked.items ≡ [] →
            IsDecidedBy ps text.now result.reach }
        ensures past { IfSome result.winner (λ t. t.len < result.reach) }
        ensures looked { result.looked ≤ cells self.now.parts.items text.now }
        ensures counted { cells self.now.parts.items text.now < 2 ^ 64 →
            result.looked ≡ cells self.now.parts.items text.now }
        ensures most { cells self.now.parts.items text.now ≤ vec_len self.now.parts * result.reach }
    {
        if let Some(part) = self.only() {
            return part.winner(text);
        }
        self.winner_of_parts(text)
    }

    /// How many tables there are.
    pub fn count(&self) -> usize
        ensures { result ≡ vec_len self.now.parts }
    {
        self.parts.len()
    }

    /// How many rows all tables have together.
    pub fn rows(&self) -> usize
        ensures { rows_of self.now.parts.items < 2 ^ 64 → result ≡ rows_of self.now.parts.items }
    {
        let mut rows = 0usize;
        'parts: for at in 0..self.parts.len() {
            rows = rows.saturating_add(self.parts[at].table.rows());
        }
        rows
    }
}
