//! Makes a table of finished rows: marks the cells that lead to rows where some pattern matches.
ghost use Rattle.std.specs.Prelude.{◌≡◌, ℕ, ◌*◌, ◌<◌, List, length, IfSome, vec_len, slice_index_or};
ghost use Rattle.regex.specs.Patterns.{Re};
ghost use Rattle.lrlex_table.specs.Cell.{row_in, is_marked, wins_at};
ghost use Rattle.lrlex_table.specs.Table.{IsTableOf, Serves};

use crate::table::{MARK, Table, win_in};

/// The cell that leads to the row, with the mark where some pattern matches there.
fn cell_of(wins: &[Option<u16>], row: u16) -> u16
    requires { row < 32768 }
    ensures row { row_in result ≡ row }
    ensures mark { is_marked result ≡ wins_at wins.now row }
{
    match win_in(wins, row) {
        Some(_) => row + MARK,
        None => row,
    }
}

/// Marks the cells that lead to rows where some pattern matches.
fn mark(cells: &mut [u16], wins: &[Option<u16>])
    requires { (i : ℕ) → slice_index_or cells.old i 0 < 32768 }
    ensures len { length cells.new ≡ length cells.old }
    ensures rows { (i : ℕ) → i < length cells.old →
        row_in (slice_index_or cells.new i 0) ≡ slice_index_or cells.old i 0 }
    ensures marks { (i : ℕ) → i < length cells.old →
        is_marked (slice_index_or cells.new i 0) ≡ wins_at wins.now (slice_index_or cells.old i 0) }
{
    'cells: for at in 0..cells.len() {
        cells[at] = cell_of(wins, cells[at]);
    }
}

/// The table with these rows. None where they are too many for marks, where some pattern matches at row 0, and where a walk
/// would begin at row 0.
pub(crate) fn marked_table(mut next: Vec<u16>, wins: Vec<Option<u16>>, start: u16) -> Option<Table>
    requires wide { vec_len next ≡ vec_len wins * 256 }
    requires start { start < vec_len wins }
    requires inside { (i : ℕ) → slice_index_or next.items i 0 < vec_len wins }
    ensures table { (ps : List Re) → Serves next.items wins.items start ps →
        IfSome result (IsTableOf ps) }
    ensures wins { IfSome result (λ t. t.wins ≡ wins) }
{
    if start == 0 || wins.len() > MARK as usize || win_in(&wins, 0).is_some() {
        return None;
    }
    next.shrink_to_fit();
    mark(&mut next, &wins);
    Some(Table {
        cells: next,
        wins,
        start,
    })
}
