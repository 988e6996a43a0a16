//! Which items and which pieces an edit changed.
ghost use Rattle.std.specs.Prelude.{◌≡◌, ◌-◌, ◌≤◌};
ghost use Rattle.lrlex.specs.Changes.{change, all_new, none_of};

/// A part of a list that gave way to another: from the element at `first` on `removed` elements went, and `inserted` came. Those
/// before them stayed, and so did those after them. Elements are counted from 0.
#[derive(Clone, Copy, Debug, PartialEq, Eq)]
pub struct Change {
    pub first: usize,
    pub removed: usize,
    pub inserted: usize,
}

impl Change {
    /// The elements from `first` up to `last` went, and so many came.
    pub(crate) fn between(first: usize, last: usize, inserted: usize) -> Change
        requires { first ≤ last }
        ensures { result ≡ change first (last - first) inserted }
    {
        Change {
            first,
            removed: last - first,
            inserted,
        }
    }
}

/// What an edit changed in the lists of a document: in its items, and in its pieces.
#[derive(Clone, Copy, Debug, PartialEq, Eq)]
pub struct Changed {
    pub items: Change,
    pub pieces: Change,
}

impl Changed {
    /// Nothing went, and nothing came: all of so many items stayed, and no piece.
    pub(crate) fn none(items: usize) -> Changed
        ensures { result ≡ none_of items }
    {
        Changed {
            items: Change::between(items, items, 0),
            pieces: Change::between(0, 0, 0),
        }
    }

    /// Nothing went, and so many items and pieces came.
    pub(crate) fn all_new(items: usize, pieces: usize) -> Changed
        ensures { result ≡ all_new items pieces }
    {
        Changed {
            items: Change::between(0, 0, items),
            pieces: Change::between(0, 0, pieces),
        }
    }
}
