//! The walk through a chain, which finds many matches in a row without a branch that depends on the text.
ghost use Rattle.std.specs.Prelude.{◌≡◌, ℕ, ◌+◌, ◌<◌, ◌≤◌, All, length, vec_len, IfSome};
ghost use Rattle.lrlex_table.specs.Chain.{row_behind, list_of, name_of, BeginsIn, IsChainOf, AreMarksOf};
ghost use Rattle.lrlex_table.specs.declared.table.Table.{Table};

use crate::chain::Chain;
use std::marker::Model;

/// The most bytes in which marks are looked for at once.
pub(crate) const MOST_BYTES: usize = 8192;

/// Where a match ends, in bytes from where marks were looked for, and the row of the chain in which it does. Both are in one number, so that
/// a mark is noted by one store.
#[derive(Clone, Copy)]
pub struct Mark {
    bits: u32,
}

impl Model for Mark {
    ghost use Rattle.lrlex_table.specs.Mark as value;

    ghost Value = { value.Mark };

    ghost use Rattle.lrlex_table.specs.PackedMark.{packed, packed_again, unpacked};

    ghost view = { unpacked };

    ghost inverse = { packed };

    ghost inverse_ok = { packed_again };
}

impl Mark {
    /// A match that ends in the row, so many bytes from where marks were looked for.
    #[inline(always)]
    pub(crate) fn new(row: u16, end: u16) -> Mark
        ensures { result ≡ record { row = row; end = end } }
    {
        Mark {
            bits: row as u32 + end as u32 * 65_536,
        }
    }

    /// The row of the chain.
    #[inline(always)]
    pub fn row(self) -> u16
        ensures { result ≡ self.row }
    {
        (self.bits % 65_536) as u16
    }

    /// Where the match ends.
    #[inline(always)]
    pub fn end(self) -> u16
        ensures { result ≡ self.end }
    {
        (self.bits / 65_536) as u16
    }
}

/// A pattern by its list, and its place there.
#[derive(Clone, Copy)]
pub struct Name {
    pub list: u16,
    pub pattern: u16,
}

/// The row behind this one on the byte.
#[inline(always)]
pub(crate) fn next(cells: &[u16], columns: &[u32], rows: usize, row: usize, byte: u8) -> usize
    requires row { row < rows }
    requires bytes { length columns.now ≡ 256 }
    requires within { All (λ c. c + rows ≤ length cells.now) columns.now }
    requires lead { All (λ r. r < rows) cells.now }
    ensures row { result < rows }
    ensures behind { result ≡ row_behind cells.now columns.now row byte }
{
    let first = columns[byte as usize] as usize;
    let column = &cells[first..first + rows];
    column[row] as usize
}

/// One where a match begins at the row, and else nothing.
#[inline(always)]
pub(crate) fn begun(row: usize, fresh: usize) -> usize
    ensures one { fresh ≤ row → result ≡ 1 }
    ensures none { row < fresh → result ≡ 0 }
{
    (row >= fresh) as usize
}

impl Chain {
    /// The list of the row, and the place in the list of the pattern that wins there, if one does.
    #[inline(always)]
    pub(crate) fn name_of(&self, row: u16) -> Option<Name>
        ensures { IfSome result (λ n. (n.list ≡ list_of self.now row) × (n.pattern ≡ name_of self.now row)) }
    {
        self.names.get(row as usize).copied()
    }

    /// Marks where matches end in so many bytes of the text from `from` on: the first begins there, in this row, and each other where the one
    /// before it ends. Returns how many matches were found. What the list has after these is left over.
    #[inline(never)]
    pub(crate) fn mark(
        &self,
        begin: usize,
        text: &[u8],
        from: usize,
        many: usize,
        marks: &mut [Mark],
    ) -> usize
        requires row { begin < vec_len self.now.bases }
        requires begins { (t : Table) (l : ℕ) → IsChainOf t l self.now → BeginsIn t l self.now begin }
        requires inside { from + many ≤ length text.now }
        requires short { many ≤ 8192 }
        requires room { many < length marks.old }
        ensures count { result ≤ many }
        ensures room { length marks.new ≡ length marks.old }
        ensures marks { (t : Table) (l : ℕ) → IsChainOf t l self.now →
            AreMarksOf t l self.now text.now from 0 marks.new result }
    {
        let cells = self.cells.as_slice();
        let columns = self.columns.as_slice();
        let height = self.bases.len();
        let fresh = self.fresh;
        let mut row = begin;
        let mut count = 0usize;
        'bytes: for at in 0..many {
            let behind = next(cells, columns, height, row, text[from + at]);
            marks[count] = Mark::new(row as u16, at as u16);
            count += begun(behind, fresh);
            row = behind;
        }
        count
    }
}
