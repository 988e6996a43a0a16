ghost use Rattle.std.specs.Prelude.{◌≡◌, ◌+◌, ◌*◌, None, IfOk, vec_len, slice_index_or};
ghost use Rattle.lrlex_table.specs.Cell.{row_in, rows_in, IsSound};

use std::alloc::{AllocError, Global};

/// Added to a cell that leads to a row where some pattern matches.
pub(crate) const MARK: u16 = 0x8000;

/// The row where a walk begins, in each table that is built. No cell leads to it.
pub(crate) const START: u16 = 1;

/// An automaton for a list of patterns. It has a row for each state, and a row has a cell for each byte: the next row,
/// marked where some pattern matches there. Row 0 is dead. `wins` has the first pattern that matches at a row.
#[derive(Drop)]
pub struct Table {
    pub(crate) cells: Vec<u16>,
    pub(crate) wins: Vec<Option<u16>>,
    pub(crate) start: u16,
    ghost sound: { IsSound cells.items wins.items start },
}

/// The row to which a cell leads.
#[inline(always)]
pub(crate) fn row_of(cell: u16) -> u16
    ensures { result ≡ row_in cell }
{
    cell % MARK
}

/// The first pattern that matches at the row.
#[inline(always)]
pub(crate) fn win_in(wins: &[Option<u16>], row: u16) -> Option<u16>
    ensures { result ≡ slice_index_or wins.now row None }
{
    match wins.get(row as usize) {
        Some(pattern) => *pattern,
        None => None,
    }
}

impl Table {
    /// The row to which this row goes on the byte, or row 0 where the table has no such row.
    #[inline(always)]
    pub(crate) fn next_of(&self, row: u16, byte: u8) -> u16
        ensures { result ≡ slice_index_or (rows_in self.now.cells.items) (row * 256 + byte) 0 }
    {
        match self.cells.get(row as usize * 256 + byte as usize) {
            Some(cell) => row_of(*cell),
            None => 0,
        }
    }

    /// The first pattern that matches at the row.
    #[inline(always)]
    pub(crate) fn win_of(&self, row: u16) -> Option<u16>
        ensures { result ≡ slice_index_or self.now.wins.items row None }
    {
        win_in(&self.wins, row)
    }

    /// How many rows the table has.
    pub fn rows(&self) -> usize
        ensures { result ≡ vec_len self.now.wins }
    {
        self.wins.len()
    }

    /// A copy of the table.
    pub(crate) fn copy(&self, alloc: Global) -> Result<Table, AllocError>
        ensures cells { IfOk result (λ t. t.cells.items ≡ self.now.cells.items) }
        ensures wins { IfOk result (λ t. t.wins.items ≡ self.now.wins.items) }
        ensures start { IfOk result (λ t. t.start ≡ self.now.start) }
    {
        Ok(Table {
            cells: Vec::from_slice(alloc, &self.cells)?,
            wins: Vec::from_slice(alloc, &self.wins)?,
            start: self.start,
        })
    }
}
