//! Checks that a chain is one of lists of patterns, for one byte of each class.
ghost use Rattle.std.specs.Prelude.{◌≡◌, ℕ, ◌+◌, ◌*◌, ◌<◌, ◌≤◌, ◌∷◌, [], true, false, Some, None, IfSome, length, vec_len, slice_index_or};
ghost use Rattle.lrlex_table.specs.Cell.{row_in};
ghost use Rattle.lrlex_table.specs.Table.{next_rows, next_of};
ghost use Rattle.lrlex_table.specs.Chain.{row_behind, list_of, base_of, start_of, name_of, IsIn, IsOnly, BeginsIn, GoesTo, NamesWinners, IsChainOfLists};
ghost use Rattle.lrlex_table.specs.declared.merged_tables.Part.{Part};

use crate::chain::Chain;
use crate::chaining::Classes;
use crate::marks::next;
use crate::merged_tables::Part;
use crate::table::Table;
use crate::tables::Tables;

/// Whether each cell of a row equals that of the first byte of its class.
fn is_alike(cells: &[u16], firsts: &[u8; 256]) -> bool
    requires { length cells.now ≡ 256 }
    ensures { result ≡ true → (b : ℕ) → b < 256 →
        slice_index_or cells.now b 0 ≡ slice_index_or cells.now (slice_index_or firsts.now b 0) 0 }
{
    'bytes: for byte in 0..256usize {
        if cells[byte] != cells[firsts[byte] as usize] {
            return false;
        }
    }
    true
}

/// Whether a character may begin with each byte, if it may with the first of its class.
fn begin_alike(firsts: &[u8; 256]) -> bool
    ensures { result ≡ true → (b : ℕ) → b < 256 → (128 ≤ slice_index_or firsts.now b 0 → 192 ≤ slice_index_or firsts.now b 0) → 128 ≤ b → 192 ≤ b }
{
    'bytes: for byte in 0..256usize {
        if begins_character(firsts[byte]) && !begins_character(byte as u8) {
            return false;
        }
    }
    true
}

/// Whether the first byte of each class is one of these.
fn are_heads(heads: &[u8], firsts: &[u8; 256]) -> bool
    ensures { result ≡ true → (b : ℕ) → b < 256 →
        (k : ℕ) × (k < length heads.now) × (slice_index_or heads.now k 0 ≡ slice_index_or firsts.now b 0) }
{
    let mut at = 0usize;
    'bytes: for byte in 0..256usize {
        let first = firsts[byte] as usize;
        if first == byte {
            if at >= heads.len() || heads[at] as usize != byte {
                return false;
            }
            at += 1;
        } else if first > byte || firsts[first] as usize != first {
            return false;
        }
    }
    true
}

impl Table {
    /// Whether each row goes on each byte as on the first of its class.
    fn are_classes(&self, firsts: &[u8; 256]) -> bool
        ensures { result ≡ true → (r b : ℕ) → b < 256 →
            next_of (next_rows self.now) r (Some b) ≡ next_of (next_rows self.now) r (Some (slice_index_or firsts.now b 0)) }
    {
        'rows: for row in 0..self.wins.len() {
            if !is_alike(&self.cells[row * 256..row * 256 + 256], firsts) {
                return false;
            }
        }
        true
    }
}

/// Whether a character may begin with this byte.
#[inline(always)]
pub(crate) fn begins_character(byte: u8) -> bool
    ensures begins { result ≡ true → 128 ≤ byte → 192 ≤ byte }
    ensures goes_on { result ≡ false → (128 ≤ byte) × (byte < 192) }
{
    byte < 128 || byte >= 192
}

/// The only table of the list, where each of its patterns is in it.
pub(crate) fn only_part(lists: &[Tables], list: usize) -> Option<&Part>
    ensures { IfSome result (λ p. IsOnly lists.now list p.now) }
{
    let tables = lists.get(list)?;
    if tables.asked.len() > 0 {
        return None;
    }
    tables.only()
}

/// The row of a list's only table for which a row of a chain stands.
#[derive(Clone, Copy)]
struct Origin<'p> {
    list: usize,
    part: &'p Part,
    base: u16,
}

impl Chain {
    /// The row where a walk for the list begins, if the list is in the chain.
    pub(crate) fn start_of(&self, list: usize) -> Option<usize>
        ensures row { IfSome result (λ r. r ≡ start_of self.now list) }
        ensures within { IfSome result (λ _. IsIn self.now list) }
        ensures without { result ≡ None → vec_len self.now.bases ≤ start_of self.now list }
    {
        let row = *self.starts.get(list)? as usize;
        if row < self.bases.len() {
            Some(row)
        } else {
            None
        }
    }

    /// The row of its list's table for which the row stands.
    #[inline(always)]
    pub(crate) fn base_of(&self, row: usize) -> u16
        ensures { result ≡ base_of self.now row }
    {
        match self.bases.get(row) {
            Some(base) => *base,
            None => 0,
        }
    }

    /// The list of the row.
    #[inline(always)]
    pub(crate) fn list_of(&self, row: usize) -> usize
        ensures { result ≡ list_of self.now row }
    {
        match self.names.get(row) {
            Some(name) => name.list as usize,
            None => 0,
        }
    }

    /// Whether the row, which stands for this one, goes on the byte as the tables of the lists say.
    #[inline(always)]
    fn goes_as(&self, lists: &[Tables], origin: Origin<'_>, row: usize, byte: u8) -> bool
        requires row { row < vec_len self.now.bases }
        requires list { origin.list ≡ list_of self.now row }
        requires base { origin.base ≡ base_of self.now row }
        requires part { IsOnly lists.now origin.list origin.part.now }
        ensures { result ≡ true → (l : ℕ) (p : Part) → IsOnly lists.now l p → GoesTo p.table l self.now row byte
            (row_behind self.now.cells.items self.now.columns.items row byte) }
    {
        let to = next(&self.cells, &self.columns, self.bases.len(), row, byte);
        let table = &origin.part.table;
        let on = table.next_of(origin.base, byte);
        let then = self.list_of(to);
        let stands_for = self.base_of(to);
        if to < self.fresh {
            return then == origin.list && stands_for == on;
        }
        let Some(other) = only_part(lists, then) else {
            return false
        };
        on == 0
            && begins_character(byte)
            && table.win_of(origin.base).is_some()
            && origin.base != table.start
            && stands_for == other.table.next_of(other.table.start, byte)
    }

    /// Whether the row goes on each of these bytes as the tables of the lists say.
    fn row_goes_as(&self, lists: &[Tables], row: usize, heads: &[u8]) -> bool
        requires { row < vec_len self.now.bases }
        ensures { result ≡ true → (k : ℕ) → k < length heads.now → (l : ℕ) (p : Part) → IsOnly lists.now l p →
            GoesTo p.table l self.now row (slice_index_or heads.now k 0)
            (row_behind self.now.cells.items self.now.columns.items row (slice_index_or heads.now k 0)) }
    {
        let list = self.list_of(row);
        let base = self.base_of(row);
        let Some(part) = only_part(lists, list) else {
            return false
        };
        let origin = Origin { list, part, base };
        'heads: for at in 0..heads.len() {
            if !self.goes_as(lists, origin, row, heads[at]) {
                return false;
            }
        }
        true
    }

    /// Whether each row goes on each of these bytes as the tables of the lists say.
    fn all_go_as(&self, lists: &[Tables], heads: &[u8]) -> bool
        ensures { result ≡ true → (r k : ℕ) → r < vec_len self.now.bases → k < length heads.now →
            (l : ℕ) (p : Part) → IsOnly lists.now l p → GoesTo p.table l self.now r (slice_index_or heads.now k 0)
            (row_behind self.now.cells.items self.now.columns.items r (slice_index_or heads.now k 0)) }
    {
        'rows: for row in 0..self.bases.len() {
            if !self.row_goes_as(lists, row, heads) {
                return false;
            }
        }
        true
    }

    /// Whether each byte has the same column as the first one of its class.
    fn has_columns_of(&self, firsts: &[u8; 256]) -> bool
        ensures { result ≡ true → (b : ℕ) → b < 256 → slice_index_or self.now.columns.items b 0 ≡
            slice_index_or self.now.columns.items (slice_index_or firsts.now b 0) 0 }
    {
        'bytes: for byte in 0..256usize {
            if self.columns[byte] != self.columns[firsts[byte] as usize] {
                return false;
            }
        }
        true
    }

    /// Whether each row goes on each byte as on the first of its class, and on that as the tables of the lists say.
    fn goes_by_classes(&self, lists: &[Tables], classes: &Classes) -> bool
        ensures { result ≡ true → (r b : ℕ) → r < vec_len self.now.bases → b < 256 → (l : ℕ) (p : Part) → IsOnly lists.now l p →
            GoesTo p.table l self.now r (slice_index_or classes.now.firsts b 0) (row_behind self.now.cells.items self.now.columns.items r b) }
    {
        if !are_heads(&classes.heads, &classes.firsts) || !self.has_columns_of(&classes.firsts) {
            return false;
        }
        self.all_go_as(lists, &classes.heads)
    }

    /// Whether the list, if it is in the chain, has one table of all its patterns, which goes alike on bytes of one class, and whether
    /// its walks begin where that of their list does.
    fn begins_as(&self, lists: &[Tables], list: usize, firsts: &[u8; 256]) -> bool
        ensures only { result ≡ true → IsIn self.now list → (p : Part) × IsOnly lists.now list p }
        ensures classes { result ≡ true → IsIn self.now list → (p : Part) → IsOnly lists.now list p → (r b : ℕ) → b < 256 →
            next_of (next_rows p.table) r (Some b) ≡ next_of (next_rows p.table) r (Some (slice_index_or firsts.now b 0)) }
        ensures begins { result ≡ true → IsIn self.now list → (l : ℕ) (p : Part) → IsOnly lists.now l p →
            BeginsIn p.table l self.now (start_of self.now list) }
    {
        let Some(row) = self.start_of(list) else {
            return true
        };
        let Some(part) = only_part(lists, list) else {
            return false
        };
        self.list_of(row) == list
            && self.base_of(row) == part.table.start
            && part.table.are_classes(firsts)
    }

    /// Whether all lists in the chain begin as they do, and each row is of one of them.
    fn begins_as_lists(&self, lists: &[Tables], firsts: &[u8; 256]) -> bool
        ensures only { result ≡ true → (m : ℕ) → IsIn self.now m → (p : Part) × IsOnly lists.now m p }
        ensures classes { result ≡ true → (m : ℕ) → IsIn self.now m → (p : Part) → IsOnly lists.now m p → (r b : ℕ) → b < 256 →
            next_of (next_rows p.table) r (Some b) ≡ next_of (next_rows p.table) r (Some (slice_index_or firsts.now b 0)) }
        ensures begins { result ≡ true → (m : ℕ) → IsIn self.now m → (l : ℕ) (p : Part) → IsOnly lists.now l p →
            BeginsIn p.table l self.now (start_of self.now m) }
    {
        'lists: for list in 0..self.starts.len() {
            if !self.begins_as(lists, list, firsts) {
                return false;
            }
        }
        true
    }

    /// Whether each row is of a list in the chain.
    fn rows_are_in(&self) -> bool
        ensures { result ≡ true → (r : ℕ) → r < vec_len self.now.bases → IsIn self.now (list_of self.now r) }
    {
        'rows: for row in 0..self.bases.len() {
            if self.start_of(self.list_of(row)).is_none() {
                return false;
            }
        }
        true
    }

    /// Whether the row, where a pattern wins, has its place in its list.
    fn is_named(&self, lists: &[Tables], row: usize) -> bool
        requires { row < vec_len self.now.bases }
        ensures { result ≡ true → (l : ℕ) (p : Part) (k : ℕ) → IsOnly lists.now l p → list_of self.now row ≡ l →
            slice_index_or p.table.wins.items (base_of self.now row) None ≡ Some k → name_of self.now row ≡ slice_index_or p.patterns.items k 0 }
    {
        let Some(part) = only_part(lists, self.list_of(row)) else {
            return false
        };
        let Some(won) = part.table.win_of(self.base_of(row)) else {
            return true
        };
        let Some(name) = self.names.get(row) else {
            return false
        };
        let Some(place) = part.patterns.get(won as usize) else {
            return false
        };
        name.pattern as usize == *place
    }

    /// Whether each row where a pattern wins has its place in its list.
    fn names_winners(&self, lists: &[Tables]) -> bool
        ensures { result ≡ true → (l : ℕ) (p : Part) → IsOnly lists.now l p → NamesWinners p l self.now }
    {
        'rows: for row in 0..self.bases.len() {
            if !self.is_named(lists, row) {
                return false;
            }
        }
        true
    }

    /// Whether it is a chain of these lists, by classes of bytes that their tables don't tell apart.
    pub(crate) fn is_of(&self, lists: &[Tables], classes: &Classes) -> bool
        ensures { result ≡ true → IsChainOfLists lists.now self.now }
    {
        if !self.begins_as_lists(lists, &classes.firsts) || !self.rows_are_in() {
            return false;
        }
        if !begin_alike(&classes.firsts) || !self.goes_by_classes(lists, classes) {
            return false;
        }
        self.names_winners(lists)
    }
}
