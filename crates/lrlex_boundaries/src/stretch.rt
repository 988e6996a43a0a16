ghost use Rattle.std.specs.Prelude.{◌≡◌, ◌+◌, ◌≤◌, ◌++◌, All, length, map, slice_range, take, drop, vec_len, vec_capacity, IfOk};
ghost use Rattle.lrlex_boundaries.specs.Ranges.{IsMovablePlace, IsPlaceable, last_stretch, longest, moved_stretch, no_stretch, placed_stretch};

use crate::room::splice;
use std::alloc::AllocError;

/// Boundaries in a row with one stack: the first of them, and where the stack stands in a list of entries.
#[derive(Clone, Copy)]
pub(crate) struct Stretch {
    pub(crate) from: usize,
    pub(crate) first: usize,
    pub(crate) end: usize,
}

/// What stands before the first stretch.
pub(crate) const NO_STRETCH: Stretch = Stretch {
    from: 0,
    first: 0,
    end: 0,
};

/// The last stretch, or one without entries where there is none.
pub(crate) fn last_of(stretches: &[Stretch]) -> Stretch
    ensures { result ≡ last_stretch no_stretch stretches.now }
{
    match stretches.last() {
        Some(stretch) => *stretch,
        None => NO_STRETCH,
    }
}

/// The greatest number of entries of a stretch.
pub(crate) fn longest(stretches: &[Stretch]) -> usize
    requires { All (λ s. s.first ≤ s.end) stretches.now }
    ensures { result ≡ longest stretches.now }
{
    let mut most = 0usize;
    for stretch in stretches {
        most = most.max(stretch.end - stretch.first);
    }
    most
}

/// Where the stack stands in the list of entries. Its first `kept` entries stand there from `first` on, and serve again where the
/// rest follows them or can be added behind them. Else the whole stack is added.
pub(crate) fn stored(
    entries: &mut Vec<(usize, usize)>,
    first: usize,
    kept: usize,
    stack: &[(usize, usize)],
) -> Result<(usize, usize), AllocError>
    requires some { kept ≤ length stack.now }
    requires within { first + kept ≤ length entries.old.items }
    requires same { slice_range entries.old.items first (first + kept) ≡ take kept stack.now }
    ensures longer { entries.new.items ≡ entries.old.items
        ++ drop (length entries.old.items) entries.new.items }
    ensures ordered { IfOk result (λ r. r.0 ≤ r.1) }
    ensures within { IfOk result (λ r. r.1 ≤ length entries.new.items) }
    ensures stack { IfOk result (λ r. slice_range entries.new.items r.0 r.1 ≡ stack.now) }
    ensures few { IfOk result (λ _.
        length entries.new.items ≤ length entries.old.items + length stack.now) }
    ensures fewer { first + kept ≡ length entries.old.items → IfOk result (λ _.
        length entries.new.items + kept ≤ length entries.old.items + length stack.now) }
{
    let shared = first + kept;
    let rest = &stack[kept..];
    if entries[shared..].starts_with(rest) {
        return Ok((first, first + stack.len()));
    }
    if shared == entries.len() {
        entries.extend_from_slice(rest)?;
        return Ok((first, entries.len()));
    }
    let own = entries.len();
    entries.extend_from_slice(stack)?;
    Ok((own, entries.len()))
}

/// Moves the stretches so many boundaries and entries further on.
fn place_stretches(stretches: &mut [Stretch], boundaries: usize, entries: usize)
    requires { All (IsPlaceable boundaries entries) stretches.old }
    ensures { stretches.new ≡ map (placed_stretch boundaries entries) stretches.old }
{
    for stretch in stretches.iter_mut() {
        *stretch = Stretch {
            from: stretch.from + boundaries,
            first: stretch.first + entries,
            end: stretch.end + entries,
        };
    }
}

/// Puts stretches in the place of those from `first` up to `last`, so many boundaries and entries further on. There is room for them
/// beside all that are there.
pub(crate) fn put_stretches(
    list: &mut Vec<Stretch>,
    first: usize,
    last: usize,
    between: &[Stretch],
    boundaries: usize,
    entries: usize,
)
    requires order { first ≤ last }
    requires within { last ≤ length list.old.items }
    requires room { vec_len list.old + length between.now ≤ vec_capacity list.old }
    requires placeable { All (IsPlaceable boundaries entries) between.now }
    ensures { list.new.items ≡ take first list.old.items
        ++ (map (placed_stretch boundaries entries) between.now ++ drop last list.old.items) }
{
    splice(list, first, last, between);
    place_stretches(&mut list[first..first + between.len()], boundaries, entries);
}

/// Moves the stretches: the boundary at `from` is the one at `to`.
fn move_each(stretches: &mut [Stretch], from: usize, to: usize)
    requires { All (λ s. IsMovablePlace from to s.from) stretches.old }
    ensures { stretches.new ≡ map (moved_stretch from to) stretches.old }
{
    if from == to {
        return;
    }
    for stretch in stretches.iter_mut() {
        *stretch = Stretch {
            from: stretch.from - from + to,
            first: stretch.first,
            end: stretch.end,
        };
    }
}

/// Moves the stretches from the one at `first` on: the boundary at `from` is the one at `to`.
pub(crate) fn move_stretches(list: &mut Vec<Stretch>, first: usize, from: usize, to: usize)
    requires within { first ≤ length list.old.items }
    requires movable { All (λ s. IsMovablePlace from to s.from) (drop first list.old.items) }
    ensures { list.new.items ≡ take first list.old.items
        ++ map (moved_stretch from to) (drop first list.old.items) }
{
    move_each(&mut list[first..], from, to);
}
