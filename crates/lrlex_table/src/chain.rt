//! The chain of lists of patterns: an automaton whose walk goes on behind a match with the next one.
ghost use Rattle.std.specs.Prelude.{◌≡◌, ◌+◌, ◌<◌, ◌≤◌, All, true, length};

use crate::marks::Name;

/// An automaton whose rows stand for rows of the tables of some lists, one table each. `cells` has a column for each class of bytes: for each row the next one.
/// Rows from `fresh` on are those at which a match begins: a row goes to one of them where its own match ends. That is of the list which
/// probably follows. A guess that is wrong costs time and changes no match.
#[derive(Drop)]
pub struct Chain {
    pub(crate) cells: Vec<u16>,
    /// For each byte where its column begins in `cells`.
    pub(crate) columns: Vec<u32>,
    /// For each row the row of its list's table that it stands for.
    pub(crate) bases: Vec<u16>,
    /// For each row its list, and the place in the list of the pattern that wins there, if one does.
    pub(crate) names: Vec<Name>,
    /// For each list the row where a walk for it begins. Lists that aren't in the chain have a number here that is no row's.
    pub(crate) starts: Vec<u16>,
    /// As wide as a row in a walk is, so that nothing is widened there at each byte.
    pub(crate) fresh: usize,
    ghost bytes: { length columns.items ≡ 256 },
    ghost within: { All (λ c. c + length bases.items ≤ length cells.items) columns.items },
    ghost lead: { All (λ r. r < length bases.items) cells.items },
    ghost few: { length bases.items < 65536 },
}

/// Whether each column has so many cells.
fn are_columns(columns: &[u32], rows: usize, cells: usize) -> bool
    ensures { result ≡ true → All (λ c. c + rows ≤ cells) columns.now }
{
    columns.iter().all(
        |c: &u32| -> bool
            ensures { result ≡ true → c.now + rows ≤ cells }
        { rows <= cells && *c as usize <= cells - rows },
    )
}

/// Whether each cell leads to a row.
fn are_rows(cells: &[u16], rows: usize) -> bool
    ensures { result ≡ true → All (λ r. r < rows) cells.now }
{
    cells.iter().all(
        |r: &u16| -> bool
            ensures { result ≡ true → r.now < rows }
        { (*r as usize) < rows },
    )
}

impl Chain {
    /// Of these parts, where they fit together.
    pub(crate) fn of_parts(
        cells: Vec<u16>,
        columns: Vec<u32>,
        bases: Vec<u16>,
        names: Vec<Name>,
        starts: Vec<u16>,
        fresh: usize,
    ) -> Option<Chain> {
        let rows = bases.len();
        if columns.len() != 256 || rows >= 65536 {
            return None;
        }
        if !are_columns(&columns, rows, cells.len()) || !are_rows(&cells, rows) {
            return None;
        }
        Some(Chain {
            cells,
            columns,
            bases,
            names,
            starts,
            fresh,
        })
    }

    /// For each row its list, and the place in the list of the pattern that wins there, if one does.
    pub fn names(&self) -> &[Name]
        ensures { result.now ≡ self.now.names.items }
    {
        &self.names
    }
}
