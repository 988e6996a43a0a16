//! Builds the chain of lists of patterns. What comes out is checked, so nothing has to be shown of how it is built.
ghost use Rattle.std.specs.Prelude.{◌≡◌, ◌+◌, ◌≤◌, IfOk, IfSome};
ghost use Rattle.lrlex_table.specs.Rows.{chain_rows};
ghost use Rattle.lrlex_table.specs.Chain.{IsChainOfLists};

use crate::budget::Budget;
use crate::chain::Chain;
use crate::checking::{begins_character, only_part};
use crate::hash::hash_with;
use crate::marks::Name;
use crate::merged_tables::Part;
use crate::table::row_of;
use crate::tables::Tables;
use std::alloc::{AllocError, Global};

/// The most lists that are in a chain.
const MOST_LISTS: usize = 256;

/// The most rows of the tables of a chain. For each list a fresh row for each byte is added at most.
const MOST_ROWS: usize = 32_768;

/// What it costs to build and to check the cells of a row for all bytes, in the budget's units of work.
const WORK_OF_A_ROW: usize = 1_500;

/// No row, and no list.
const NONE: u16 = u16::MAX;

/// The tables of a chain, for each list: those of the first so many lists of which each has one table for all its patterns. A table with
/// more rows than are left for it is left out.
fn parts_of<'l>(
    alloc: Global,
    lists: &'l [Tables],
    many: usize,
) -> Result<Vec<Option<&'l Part>>, AllocError> {
    let mut parts = Vec::with_capacity(alloc, lists.len())?;
    let mut left = MOST_ROWS;
    for list in 0..lists.len().min(many) {
        let mut part = only_part(lists, list);
        if let Some(only) = part {
            if only.table.rows() > left {
                part = None;
            } else {
                left -= only.table.rows();
            }
        }
        parts.push(part)?;
    }
    Ok(parts)
}

/// How many rows the tables have.
fn rows_of(parts: &[Option<&Part>]) -> usize {
    let mut rows = 0usize;
    for part in parts {
        if let Some(part) = part {
            rows = rows.saturating_add(part.table.rows());
        }
    }
    rows
}

/// For each byte a hash of where all rows go on it, and of whether a character may begin with it.
fn hashes_of(parts: &[Option<&Part>]) -> [u64; 256] {
    let mut hashes = [0u64; 256];
    for byte in 0..256usize {
        hashes[byte] = begins_character(byte as u8) as u64;
    }
    for part in parts {
        if let Some(part) = part {
            let (rows, _) = part.table.cells.as_chunks::<256>();
            for row in rows {
                for byte in 0..256usize {
                    hashes[byte] = hash_with(hashes[byte], row[byte] as u64);
                }
            }
        }
    }
    hashes
}

/// For each byte the first with the same hash: the first byte of its class.
fn firsts_of(hashes: &[u64; 256]) -> [u8; 256] {
    let mut firsts = [0u8; 256];
    for byte in 0..256usize {
        let hash = hashes[byte];
        let first = hashes
            .iter()
            .position(|other: &u64| -> bool { *other == hash });
        if let Some(first) = first {
            firsts[byte] = first as u8;
        }
    }
    firsts
}

/// The number in 16 bits, or the greatest one.
fn narrow(number: usize) -> u16 {
    number.min(NONE as usize) as u16
}

/// The first row from this one on that stands for the table's row, or how many rows there are.
fn row_for(bases: &[u16], from: usize, base: u16) -> usize {
    for row in from..bases.len() {
        if bases[row] == base {
            return row;
        }
    }
    bases.len()
}

/// A chain in the making.
#[derive(Drop)]
struct Links {
    /// For each row the row of its list's table that it stands for: first all rows of all tables, then the fresh ones.
    bases: Vec<u16>,
    names: Vec<Name>,
    /// For each row the list that follows, where a match may end in it.
    follows: Vec<u16>,
    /// For each list the row that stands for row 0 of its table.
    dead: Vec<u16>,
    /// For each list the row that stands for its table's start.
    starts: Vec<u16>,
    /// For each list, for each byte, the fresh row at which a match begins with it.
    begins: Vec<u16>,
}

impl Links {
    /// Of no list yet.
    fn new(alloc: Global) -> Links {
        Links {
            bases: Vec::new(alloc),
            names: Vec::new(alloc),
            follows: Vec::new(alloc),
            dead: Vec::new(alloc),
            starts: Vec::new(alloc),
            begins: Vec::new(alloc),
        }
    }

    /// Adds a row of the list's table.
    fn add_row(
        &mut self,
        list: usize,
        part: &Part,
        base: u16,
        follow: &[Vec<usize>],
    ) -> Result<(), AllocError> {
        let won = match part.table.win_of(base) {
            Some(won) => part.patterns.get(won as usize).copied(),
            None => None,
        };
        let pattern = won.unwrap_or(0);
        let mut follows = NONE;
        if won.is_some() && base != part.table.start {
            if let Some(lists) = follow.get(list) {
                follows = narrow(lists.get(pattern).copied().unwrap_or(NONE as usize));
            }
        }
        self.bases.push(base)?;
        self.names.push(Name {
            list: narrow(list),
            pattern: narrow(pattern),
        })?;
        self.follows.push(follows)?;
        Ok(())
    }

    /// Adds all rows of the list's table.
    fn add_table(
        &mut self,
        list: usize,
        part: &Part,
        follow: &[Vec<usize>],
    ) -> Result<(), AllocError> {
        let dead = self.bases.len();
        for row in 0..part.table.rows() {
            self.add_row(list, part, narrow(row), follow)?;
        }
        self.dead.push(narrow(dead))?;
        let start = dead.saturating_add(part.table.start as usize);
        self.starts.push(narrow(start))?;
        Ok(())
    }

    /// Adds the fresh rows of the list: one for each row of its table at which a match begins.
    fn add_fresh(
        &mut self,
        list: usize,
        part: &Part,
        follow: &[Vec<usize>],
    ) -> Result<(), AllocError> {
        let from = self.bases.len();
        for byte in 0..256usize {
            let base = part.table.next_of(part.table.start, byte as u8);
            let mut row = NONE as usize;
            if base != 0 {
                row = row_for(&self.bases, from, base);
                if row == self.bases.len() {
                    self.add_row(list, part, base, follow)?;
                }
            }
            self.begins.push(narrow(row))?;
        }
        Ok(())
    }

    /// Adds all rows of all tables, and then the fresh ones. Returns how many rows aren't fresh.
    fn add_all(
        &mut self,
        parts: &[Option<&Part>],
        follow: &[Vec<usize>],
    ) -> Result<usize, AllocError> {
        for list in 0..parts.len() {
            match parts[list] {
                Some(part) => self.add_table(list, part, follow)?,
                None => {
                    self.dead.push(0)?;
                    self.starts.push(NONE)?;
                }
            }
        }
        let fresh = self.bases.len();
        for list in 0..parts.len() {
            match parts[list] {
                Some(part) => self.add_fresh(list, part, follow)?,
                None => self
                    .begins
                    .resize(self.begins.len().saturating_add(256), NONE)?,
            }
        }
        Ok(fresh)
    }

    /// For each byte the row at which the next match begins, where one ends in this row.
    fn begins_behind(&self, row: usize) -> Option<&[u16; 256]> {
        let list = *self.follows.get(row)? as usize;
        let (begins, _) = self.begins.as_chunks::<256>();
        begins.get(list)
    }

    /// Fills in where the row goes, for one byte of each class.
    fn fill_row(
        &self,
        parts: &[Option<&Part>],
        heads: &[u8],
        row: usize,
        cells: &mut [u16],
    ) -> Option<()> {
        let list = self.names.get(row)?.list as usize;
        let dead = *self.dead.get(list)?;
        let part = (*parts.get(list)?)?;
        let (rows, _) = part.table.cells.as_chunks::<256>();
        let table_row = rows.get(*self.bases.get(row)? as usize)?;
        let begins = self.begins_behind(row);
        let mut at = row;
        for head in heads {
            let on = row_of(table_row[*head as usize]);
            *cells.get_mut(at)? = next_row(on, dead, begins, *head);
            at = at.saturating_add(self.bases.len());
        }
        Some(())
    }

    /// The cells, by columns: one for each class of bytes, which begins with this byte.
    fn cells(
        &self,
        alloc: Global,
        parts: &[Option<&Part>],
        heads: &[u8],
    ) -> Result<Vec<u16>, AllocError> {
        let mut cells = Vec::new(alloc);
        cells.resize(heads.len().saturating_mul(self.bases.len()), 0)?;
        for row in 0..self.bases.len() {
            let _ = self.fill_row(parts, heads, row, &mut cells);
        }
        Ok(cells)
    }
}

/// The row of the chain behind one whose table goes to row `on`: where that is dead, the one at which the next match begins, if one ends.
fn next_row(on: u16, dead: u16, begins: Option<&[u16; 256]>, byte: u8) -> u16 {
    if on != 0 {
        return dead.saturating_add(on);
    }
    match begins {
        Some(begins) if begins_character(byte) && begins[byte as usize] != NONE => {
            begins[byte as usize]
        }
        _ => dead,
    }
}

/// How many rows of 256 cells so many columns come to, of so many cells each.
fn rows_held(columns: usize, rows: usize) -> usize {
    columns.saturating_mul(rows).div_ceil(256)
}

/// Bytes in classes: no row of some tables tells bytes of one class apart.
#[derive(Drop)]
pub(crate) struct Classes {
    /// For each byte the first of its class.
    pub(crate) firsts: [u8; 256],
    /// These first bytes, in order.
    pub(crate) heads: Vec<u8>,
}

impl Classes {
    /// The classes of bytes by which rows of these tables go.
    fn of(alloc: Global, parts: &[Option<&Part>]) -> Result<Classes, AllocError> {
        let firsts = firsts_of(&hashes_of(parts));
        let mut heads = Vec::with_capacity(alloc, 256)?;
        for byte in 0..256usize {
            if firsts[byte] as usize == byte {
                heads.push(byte as u8)?;
            }
        }
        Ok(Classes { firsts, heads })
    }

    /// For each byte where its column begins, where each class has a column of so many cells.
    fn columns(&self, alloc: Global, rows: usize) -> Result<Vec<u32>, AllocError> {
        let mut columns: Vec<u32> = Vec::with_capacity(alloc, 256)?;
        let mut cells = 0usize;
        for byte in 0..256usize {
            match columns.get(self.firsts[byte] as usize).copied() {
                Some(column) => columns.push(column)?,
                None => {
                    columns.push(cells.min(u32::MAX as usize) as u32)?;
                    cells = cells.saturating_add(rows);
                }
            }
        }
        Ok(columns)
    }
}

/// The chain of these tables, if they fit in one and it has at most `most` rows of 256 cells. That it is theirs isn't checked.
fn chain_of_parts(
    alloc: Global,
    parts: &[Option<&Part>],
    follow: &[Vec<usize>],
    classes: &Classes,
    most: usize,
) -> Result<Option<Chain>, AllocError> {
    let mut links = Links::new(alloc);
    let fresh = links.add_all(parts, follow)?;
    if rows_held(classes.heads.len(), links.bases.len()) > most {
        return Ok(None);
    }
    let columns = classes.columns(alloc, links.bases.len())?;
    let cells = links.cells(alloc, parts, &classes.heads)?;
    let Links {
        bases,
        names,
        starts,
        ..
    } = links;
    Ok(Chain::of_parts(cells, columns, bases, names, starts, fresh))
}

/// The chain of those of the first so many lists that can be in one, paid from the budget: a row for each 256 cells. None where the
/// budget has too little left, or no list can be in it.
fn chain_of(
    alloc: Global,
    lists: &[Tables],
    many: usize,
    follow: &[Vec<usize>],
    budget: &mut Budget,
) -> Result<Option<Chain>, AllocError>
    ensures chain { IfOk result (λ o. IfSome o (IsChainOfLists lists.now)) }
    ensures paid { IfOk result (λ o. chain_rows o + budget.new.rows ≤ budget.old.rows) }
{
    let parts = parts_of(alloc, lists, many)?;
    let rows = rows_of(&parts);
    let work = rows.saturating_mul(WORK_OF_A_ROW);
    if rows == 0 || work > budget.work() || !budget.pay_work(work) {
        return Ok(None);
    }
    let classes = Classes::of(alloc, &parts)?;
    let Some(chain) = chain_of_parts(alloc, &parts, follow, &classes, budget.rows())? else {
        return Ok(None);
    };
    if !budget.pay_rows(chain.cells.len().div_ceil(256)) {
        return Ok(None);
    }
    if chain.is_of(lists, &classes) {
        Ok(Some(chain))
    } else {
        Ok(None)
    }
}

/// The chain of these lists, where the budget pays for it, or of the first half of them, and so on. `follow` has for each list, for each of
/// its patterns, the place of the list that probably follows where the pattern wins. A wrong guess costs time, and changes no match.
pub fn chain_for(
    alloc: Global,
    lists: &[Tables],
    follow: &[Vec<usize>],
    budget: &mut Budget,
) -> Result<Option<Chain>, AllocError>
    ensures chain { IfOk result (λ o. IfSome o (IsChainOfLists lists.now)) }
    ensures paid { IfOk result (λ o. chain_rows o + budget.new.rows ≤ budget.old.rows) }
{
    let mut many = lists.len().min(MOST_LISTS);
    'fewer: while many > 0 {
        let chain = chain_of(alloc, lists, many, follow, budget)?;
        if chain.is_some() {
            return Ok(chain);
        }
        many /= 2;
    }
    Ok(None)
}
