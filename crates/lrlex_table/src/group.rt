//! The table of a group of patterns, from the table of each alone. All are joined in one pass: each row stands for a row of each of
//! these tables, of which only those that aren't dead are listed.
ghost use Rattle.std.specs.Prelude.{◌≡◌, ◌≢◌, ◌+◌, ◌*◌, ◌<◌, ◌≤◌, ℕ, length, map, vec_len, IsTrue, IfOk, IfSome, MatchOption, None, Some, is_some, slice_index_or};
ghost use Rattle.regex.specs.Patterns.{Re};
ghost use Rattle.lrlex_table.specs.Table.{IsTableOf};
ghost use Rattle.lrlex_table.specs.Tables.{AreCached};
ghost use Rattle.lrlex_table.specs.Rows.{table_rows};
ghost use Rattle.lrlex_table.specs.ProductBuilder.{AreEqualCells};
ghost use Rattle.lrlex_table.specs.Group.{table_in, nexts_in, wins_in, start_in, step_row, step_all, first_among, all_starts, ArePastStart, AreTabled, live_rows_of, live_rows_at, HasLiveRowsOf, IsGroupBelow};

use crate::budget::Budget;
use crate::cached_table::CachedTable;
use crate::index::{Index, hash_of_live_rows};
use crate::marking::marked_table;
use crate::table::{START, Table};
use std::alloc::{AllocError, Global};

/// What it costs to go on from a row of one of the tables, in the budget's units of work.
const WORK_OF_A_LIVE_ROW: usize = 300;

/// A pattern of the group, and a row of its table that isn't dead.
pub type Live = (u16, u16);

/// The table of a group in the making: for each row so far those that it stands for, the cells of the rows that were filled, and
/// the first pattern that matches at each of these.
#[derive(Drop)]
pub struct GroupBuilder {
    rows: Vec<Vec<Live>>,
    next: Vec<u16>,
    wins: Vec<Option<u16>>,
    index: Index,
}

/// The table of the group's pattern with this number, where it has one.
#[inline(always)]
fn table_in<'c>(cache: &'c [CachedTable], places: &[usize], pattern: u16) -> Option<&'c Table>
    ensures { MatchOption result (table_in cache.now places.now pattern ≡ None)
        (λ t. table_in cache.now places.now pattern ≡ Some t.now) }
{
    let place = *places.get(pattern as usize)?;
    let cached = cache.get(place)?;
    cached.table.as_ref()
}

/// The first byte after this one, and up to `to`, for which the row has another cell than for this one.
#[inline(always)]
fn same_until(table: &Table, row: u16, byte: usize, to: usize) -> usize
    requires byte { byte < to }
    requires to { to ≤ 256 }
    requires row { row < vec_len table.now.wins }
    ensures past { byte < result }
    ensures within { result ≤ to }
    ensures same { AreEqualCells table.now.cells.items row byte result }
{
    let first = row as usize * 256;
    let cell = table.cells[first + byte];
    'cells: for end in byte + 1..to {
        if table.cells[first + end] != cell {
            return end;
        }
    }
    to
}

/// The first byte after this one, and up to `to`, for which the row of the pattern's table may go elsewhere than for this one.
#[inline(always)]
fn run_of(cache: &[CachedTable], places: &[usize], live: Live, byte: usize, to: usize) -> usize
    requires byte { byte < to }
    requires to { to ≤ 256 }
    ensures past { byte < result }
    ensures within { result ≤ to }
    ensures same { (c : ℕ) → byte ≤ c → c < result →
        step_row (nexts_in cache.now places.now live.0) live.1 (Some c)
        ≡ step_row (nexts_in cache.now places.now live.0) live.1 (Some byte) }
{
    let (pattern, row) = live;
    match table_in(cache, places, pattern) {
        Some(table) => {
            if (row as usize) < table.rows() {
                same_until(table, row, byte, to)
            } else {
                byte + 1
            }
        }
        None => byte + 1,
    }
}

/// The first byte after this one for which one of the rows may go elsewhere than for this one, or 256.
fn run_end(cache: &[CachedTable], places: &[usize], live_rows: &[Live], byte: usize) -> usize
    requires { byte < 256 }
    ensures past { byte < result }
    ensures within { result ≤ 256 }
    ensures same { (c : ℕ) → byte ≤ c → c < result →
        step_all (nexts_in cache.now places.now) live_rows.now c
        ≡ step_all (nexts_in cache.now places.now) live_rows.now byte }
{
    let mut end = 256usize;
    'live_rows: for at in 0..live_rows.len() {
        end = run_of(cache, places, live_rows[at], byte, end);
    }
    end
}

/// Where all these rows go on the byte, into `next`. False where one goes to the first row of its table.
fn step_all(
    cache: &[CachedTable],
    places: &[usize],
    live_rows: &[Live],
    byte: u8,
    next: &mut Vec<Live>,
) -> Result<bool, AllocError>
    ensures next { IfOk result (λ t. IsTrue t →
        next.new.items ≡ step_all (nexts_in cache.now places.now) live_rows.now byte) }
    ensures past { IfOk result (λ t. IsTrue t →
        ArePastStart (start_in cache.now places.now) next.new.items) }
{
    next.clear();
    'live_rows: for at in 0..live_rows.len() {
        let (pattern, row) = live_rows[at];
        let Some(table) = table_in(cache, places, pattern) else {
            return Ok(false)
        };
        let to = if row == 0 {
            0
        } else {
            table.next_of(row, byte)
        };
        if to == table.start {
            return Ok(false);
        }
        if to != 0 {
            next.push((pattern, to))?;
        }
    }
    Ok(true)
}

/// Whether the pattern matches at the row of its table.
#[inline(always)]
fn wins_at(cache: &[CachedTable], places: &[usize], live: Live) -> bool
    ensures { result ≡ is_some (slice_index_or (wins_in cache.now places.now live.0) live.1 None) }
{
    match table_in(cache, places, live.0) {
        Some(table) => table.win_of(live.1).is_some(),
        None => false,
    }
}

/// The first of the patterns that match at their rows.
fn first_among(cache: &[CachedTable], places: &[usize], live_rows: &[Live]) -> Option<u16>
    ensures { result ≡ first_among (wins_in cache.now places.now) live_rows.now }
{
    'live_rows: for at in 0..live_rows.len() {
        if wins_at(cache, places, live_rows[at]) {
            return Some(live_rows[at].0);
        }
    }
    None
}

/// Whether both lists are the same.
fn are_same(a: &[Live], b: &[Live]) -> bool
    ensures { IsTrue result → a.now ≡ b.now }
{
    if a.len() != b.len() {
        return false;
    }
    'live_rows: for at in 0..a.len() {
        if a[at].0 != b[at].0 || a[at].1 != b[at].1 {
            return false;
        }
    }
    true
}

/// Each pattern at the first row of its table. None where one has no table.
fn all_starts(
    alloc: Global,
    cache: &[CachedTable],
    places: &[usize],
) -> Result<Option<Vec<Live>>, AllocError>
    ensures starts { IfOk result (λ o. IfSome o (λ v.
        v.items ≡ all_starts (start_in cache.now places.now) (length places.now))) }
    ensures tabled { IfOk result (λ o. IfSome o (λ v. AreTabled cache.now places.now)) }
{
    let mut starts = Vec::with_capacity(alloc, places.len())?;
    'places: for at in 0..places.len() {
        let Ok(pattern) = u16::try_from(at) else {
            return Ok(None)
        };
        let Some(table) = table_in(cache, places, pattern) else {
            return Ok(None)
        };
        starts.push((pattern, table.start))?;
    }
    Ok(Some(starts))
}

impl GroupBuilder {
    /// The dead row and the row where all tables begin, neither of them filled. None where a pattern has no table.
    fn new(
        alloc: Global,
        cache: &[CachedTable],
        places: &[usize],
    ) -> Result<Option<GroupBuilder>, AllocError>
        ensures { IfOk result (λ o. IfSome o (λ g. IsGroupBelow cache.now places.now g 0)) }
    {
        let Some(starts) = all_starts(alloc, cache, places)? else {
            return Ok(None);
        };
        let mut rows = Vec::new(alloc);
        rows.push(Vec::new(alloc))?;
        rows.push(starts)?;
        let mut index = Index::new(alloc)?;
        index.add(0, hash_of_live_rows(&[]));
        Ok(Some(GroupBuilder {
            rows,
            next: Vec::new(alloc),
            wins: Vec::new(alloc),
            index,
        }))
    }

    /// The row that stands for these, other than `START`, where the index has it.
    fn find(&self, live_rows: &[Live], hash: u32) -> Option<u16>
        ensures other { IfSome result (λ v. v ≢ 1) }
        ensures within { IfSome result (λ v. v < vec_len self.now.rows) }
        ensures is { IfSome result (λ v. live_rows_at (live_rows_of self.now.rows) v ≡ live_rows.now) }
    {
        for probe in 0..self.index.len() {
            if let Some(row) = self.index.candidate(hash, probe)?
                && let Some(found) = self.rows.get(row as usize)
                && are_same(found, live_rows)
            {
                return Some(row);
            }
        }
        None
    }

    /// The row that stands for these, other than `START`. None where there would be more than `most` rows.
    #[inline(never)]
    fn intern(
        &mut self,
        alloc: Global,
        live_rows: &[Live],
        most: u16,
    ) -> Result<Option<u16>, AllocError>
        ensures row { IfOk result (λ o. IfSome o (HasLiveRowsOf self.old self.new live_rows.now)) }
        ensures next { self.new.next ≡ self.old.next }
        ensures wins { self.new.wins ≡ self.old.wins }
    {
        let hash = hash_of_live_rows(live_rows);
        if let Some(row) = self.find(live_rows, hash) {
            return Ok(Some(row));
        }
        if self.rows.len() >= most as usize {
            return Ok(None);
        }
        let row = self.rows.len() as u16;
        if row == START {
            return Ok(None);
        }
        self.rows.push(Vec::from_slice(alloc, live_rows)?)?;
        self.index.add(row, hash);
        Ok(Some(row))
    }

    /// Adds the cells of a row. False past `most` rows, and where a step goes back to the first row of a pattern's table.
    #[inline(never)]
    fn fill(
        &mut self,
        alloc: Global,
        cache: &[CachedTable],
        places: &[usize],
        row: u16,
        most: u16,
    ) -> Result<bool, AllocError>
        requires filled { IsGroupBelow cache.now places.now self.old row }
        requires row { row < vec_len self.old.rows }
        ensures filled { IfOk result (λ t.
            IsTrue t → IsGroupBelow cache.now places.now self.new (row + 1)) }
    {
        let live_rows = Vec::from_slice(alloc, self.rows[row as usize].as_slice())?;
        let win = first_among(cache, places, &live_rows);
        self.wins.push(win)?;
        let mut next = Vec::new(alloc);
        let mut byte = 0usize;
        'bytes: while byte < 256 {
            let end = run_end(cache, places, &live_rows, byte);
            if !step_all(cache, places, &live_rows, byte as u8, &mut next)? {
                return Ok(false);
            }
            let found = self.intern(alloc, &next, most)?;
            let Some(v) = found else { return Ok(false) };
            self.next.resize(row as usize * 256 + end, v)?;
            byte = end;
        }
        Ok(true)
    }

    /// How many rows of tables the row stands for.
    fn count_of_live(&self, row: u16) -> usize {
        match self.rows.get(row as usize) {
            Some(live_rows) => live_rows.len(),
            None => 0,
        }
    }

    /// Adds the cells of all rows, each paid from the budget, also for each row of a table that it stands for. False past `most`
    /// rows, where these stand for more than twice as many, and where the budget is spent.
    fn fill_all(
        &mut self,
        alloc: Global,
        cache: &[CachedTable],
        places: &[usize],
        most: u16,
        budget: &mut Budget,
    ) -> Result<bool, AllocError>
        requires filled { IsGroupBelow cache.now places.now self.old 0 }
        ensures filled { IfOk result (λ t.
            IsTrue t → IsGroupBelow cache.now places.now self.new (vec_len self.new.rows)) }
        ensures paid { IfOk result (λ t.
            IsTrue t → vec_len self.new.wins + budget.new.rows ≤ budget.old.rows) }
        ensures less { budget.new.rows ≤ budget.old.rows }
    {
        let mut live_rows = 0usize;
        'rows: for row in 0..most {
            if row as usize == self.rows.len() {
                return Ok(true);
            }
            let more = self.count_of_live(row);
            live_rows = live_rows.saturating_add(more);
            if !budget.pay_row() || !budget.pay_work(more.saturating_mul(WORK_OF_A_LIVE_ROW)) {
                return Ok(false);
            }
            if live_rows / 2 > most as usize {
                return Ok(false);
            }
            if !self.fill(alloc, cache, places, row, most)? {
                return Ok(false);
            }
        }
        Ok(false)
    }
}

/// The table of all these patterns, in order, from the table that the cache has of each. None where one has no table, past `most`
/// rows, where these stand for more than twice as many rows of the patterns' tables, and where the budget is spent, which pays for
/// each row.
pub(crate) fn group_table(
    alloc: Global,
    cache: &[CachedTable],
    places: &[usize],
    most: u16,
    budget: &mut Budget,
) -> Result<Option<Table>, AllocError>
    requires { 0 < length places.now }
    ensures table { (pattern : ℕ → Re) → AreCached pattern cache.now →
        IfOk result (λ o. IfSome o (IsTableOf (map pattern places.now))) }
    ensures paid { IfOk result (λ o. table_rows o + budget.new.rows ≤ budget.old.rows) }
{
    let Some(mut builder) = GroupBuilder::new(alloc, cache, places)? else {
        return Ok(None);
    };
    if !builder.fill_all(alloc, cache, places, most, budget)? {
        return Ok(None);
    }
    Ok(marked_table(builder.next, builder.wins, START))
}
