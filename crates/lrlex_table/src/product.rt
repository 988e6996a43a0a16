//! The product of two tables: the table of the patterns of both. Each of its rows stands for a row of one and a row of the
//! other.
ghost use Rattle.std.specs.Prelude.{◌≡◌, ◌≢◌, ◌+◌, ◌-◌, ◌*◌, ◌<◌, ◌≤◌, ◌++◌, List, length, vec_len, IsTrue, IfOk, IfSome, None, Some};
ghost use Rattle.regex.specs.Patterns.{Re};
ghost use Rattle.lrlex_table.specs.Table.{next_of, IsTableOf};
ghost use Rattle.lrlex_table.specs.Rows.{table_rows};
ghost use Rattle.lrlex_table.specs.ProductBuilder.{first_win, pair_at, AreEqualCells, HasPairOf, IsProductBelow};

use crate::budget::Budget;
use crate::index::{Index, hash_of_pair};
use crate::marking::marked_table;
use crate::table::{START, Table};
use std::alloc::{AllocError, Global};

/// A product in the making: the rows so far with their pairs, the cells of those that were filled, and the first pattern
/// that matches at each of these.
#[derive(Drop)]
pub struct ProductBuilder {
    /// The rows of the two tables where a walk begins.
    first: (u16, u16),
    rows: Vec<(u16, u16)>,
    next: Vec<u16>,
    wins: Vec<Option<u16>>,
    index: Index,
}

/// The first of the patterns of two tables that matches, where the second's patterns count from `shift`. None where its
/// number is too big.
fn first_of(one: Option<u16>, other: Option<u16>, shift: u16) -> Option<Option<u16>>
    ensures { IfSome result (λ win. win ≡ first_win shift one other) }
{
    match (one, other) {
        (Some(k), _) => Some(Some(k)),
        (None, Some(k)) => {
            let shifted = k.checked_add(shift)?;
            Some(Some(shifted))
        }
        (None, None) => Some(None),
    }
}

/// The first byte after this one for which one of the two rows has another cell than for this one, or 256.
#[inline(always)]
fn run_end(a: &Table, x: u16, b: &Table, y: u16, byte: usize) -> usize
    requires byte { byte < 256 }
    requires row { x < vec_len a.now.wins }
    requires other { y < vec_len b.now.wins }
    ensures past { byte < result }
    ensures within { result ≤ 256 }
    ensures row { AreEqualCells a.now.cells.items x byte result }
    ensures other { AreEqualCells b.now.cells.items y byte result }
{
    let (x, y) = (x as usize * 256, y as usize * 256);
    let (to, also) = (a.cells[x + byte], b.cells[y + byte]);
    'cells: for end in byte + 1..256 {
        if a.cells[x + end] != to || b.cells[y + end] != also {
            return end;
        }
    }
    256
}

impl ProductBuilder {
    /// The dead row and the row of the two tables' first rows, neither of them filled. None where a table begins at row 0.
    fn new(
        alloc: Global,
        a: &Table,
        b: &Table,
        shift: u16,
    ) -> Result<Option<ProductBuilder>, AllocError>
        ensures { IfOk result (λ o. IfSome o (λ g. IsProductBelow a.now b.now shift g 0)) }
    {
        if a.start == 0 || b.start == 0 {
            return Ok(None);
        }
        let mut rows = Vec::new(alloc);
        rows.push((0, 0))?;
        rows.push((a.start, b.start))?;
        let mut index = Index::new(alloc)?;
        index.add(0, hash_of_pair(0, 0));
        let cells = a.rows().saturating_add(b.rows()).saturating_mul(256);
        Ok(Some(ProductBuilder {
            first: (a.start, b.start),
            rows,
            next: Vec::with_capacity(alloc, cells)?,
            wins: Vec::new(alloc),
            index,
        }))
    }

    /// The row of this pair of rows, other than `START`, where the index has it.
    #[inline(always)]
    fn find(&self, x: u16, y: u16, hash: u32) -> Option<u16>
        ensures other { IfSome result (λ v. v ≢ 1) }
        ensures within { IfSome result (λ v. v < vec_len self.now.rows) }
        ensures is { IfSome result (λ v. pair_at self.now.rows.items v ≡ (x, y)) }
    {
        for probe in 0..self.index.len() {
            if let Some(row) = self.index.candidate(hash, probe)?
                && let Some(found) = self.rows.get(row as usize)
                && found.0 == x
                && found.1 == y
            {
                return Some(row);
            }
        }
        None
    }

    /// The row of this pair of rows, other than `START`. None where there would be more than `most` rows.
    #[inline(never)]
    fn intern(&mut self, x: u16, y: u16, most: u16) -> Result<Option<u16>, AllocError>
        ensures row { IfOk result (λ o. IfSome o (HasPairOf self.old self.new x y)) }
        ensures next { self.new.next ≡ self.old.next }
        ensures wins { self.new.wins ≡ self.old.wins }
        ensures first { self.new.first ≡ self.old.first }
    {
        let hash = hash_of_pair(x, y);
        if let Some(row) = self.find(x, y, hash) {
            return Ok(Some(row));
        }
        if self.rows.len() >= most as usize {
            return Ok(None);
        }
        let row = self.rows.len() as u16;
        if row == START || x == self.first.0 || y == self.first.1 {
            return Ok(None);
        }
        self.rows.push((x, y))?;
        self.index.add(row, hash);
        Ok(Some(row))
    }

    /// Adds the cells of a row. False past `most` rows.
    #[inline(never)]
    fn fill(
        &mut self,
        a: &Table,
        b: &Table,
        shift: u16,
        row: u16,
        most: u16,
    ) -> Result<bool, AllocError>
        requires filled { IsProductBelow a.now b.now shift self.old row }
        requires row { row < vec_len self.old.rows }
        ensures first { self.new.first ≡ self.old.first }
        ensures filled { IfOk result (λ t.
            IsTrue t → IsProductBelow a.now b.now shift self.new (row + 1)) }
    {
        let (x, y) = self.rows[row as usize];
        let Some(win) = first_of(a.win_of(x), b.win_of(y), shift) else {
            return Ok(false);
        };
        self.wins.push(win)?;
        if x as usize >= a.rows() || y as usize >= b.rows() {
            return Ok(false);
        }
        let mut byte = 0usize;
        'bytes: while byte < 256 {
            let end = run_end(a, x, b, y, byte);
            let to = a.next_of(x, byte as u8);
            let also = b.next_of(y, byte as u8);
            let found = self.intern(to, also, most)?;
            let Some(v) = found else { return Ok(false) };
            self.next.resize(row as usize * 256 + end, v)?;
            byte = end;
        }
        Ok(true)
    }

    /// Adds the cells of all rows, each paid from the budget. False past `most` rows, and where the budget is spent.
    fn fill_all(
        &mut self,
        a: &Table,
        b: &Table,
        shift: u16,
        most: u16,
        budget: &mut Budget,
    ) -> Result<bool, AllocError>
        requires filled { IsProductBelow a.now b.now shift self.old 0 }
        ensures filled { IfOk result (λ t.
            IsTrue t → IsProductBelow a.now b.now shift self.new (vec_len self.new.rows)) }
        ensures paid { IfOk result (λ t.
            IsTrue t → vec_len self.new.wins + budget.new.rows ≤ budget.old.rows) }
        ensures less { budget.new.rows ≤ budget.old.rows }
    {
        'rows: for row in 0..most {
            if row as usize == self.rows.len() {
                return Ok(true);
            }
            if !budget.pay_row() {
                return Ok(false);
            }
            if !self.fill(a, b, shift, row, most)? {
                return Ok(false);
            }
        }
        Ok(false)
    }
}

/// The table of the patterns of both tables, where the second's patterns count from `shift`. None past `most` rows, and
/// where the budget is spent, which pays for each row.
pub fn product(
    alloc: Global,
    a: &Table,
    b: &Table,
    shift: u16,
    most: u16,
    budget: &mut Budget,
) -> Result<Option<Table>, AllocError>
    ensures table { (ps qs : List Re) →
        IsTableOf ps a.now → IsTableOf qs b.now → shift ≡ length ps →
        IfOk result (λ o. IfSome o (IsTableOf (ps ++ qs))) }
    ensures paid { IfOk result (λ o. table_rows o + budget.new.rows ≤ budget.old.rows) }
{
    let made = ProductBuilder::new(alloc, a, b, shift)?;
    let Some(mut builder) = made else {
        return Ok(None)
    };
    if !builder.fill_all(a, b, shift, most, budget)? {
        return Ok(None);
    }
    Ok(marked_table(builder.next, builder.wins, START))
}
