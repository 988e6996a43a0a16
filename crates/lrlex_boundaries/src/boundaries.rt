ghost use Rattle.std.specs.Prelude.{◌≡◌, ℕ, ◌+◌, ◌-◌, ◌^◌, ◌<◌, ◌≤◌, List, All, [], ◌∷◌, ◌++◌, length, map, take, drop, nat_le, nat_lt, vec_len, vec_capacity, IfOk, OnErr, OnOk};
ghost use Rattle.lrlex_boundaries.specs.Boundaries.{boundary_at, last_entries, most_entries};
ghost use Rattle.lrlex_boundaries.specs.Moves.{moved_boundary, IsMovableBoundary};
ghost use Rattle.lrlex_boundaries.specs.Ranges.{AreBefore, AreBegun, AreJoined, AreRising, IsMovablePlace, IsRange, are_loose, entries_of, last_stretch, own_entries, moved_place, no_stretch, stretch_at};
ghost use Rattle.lrlex_boundaries.specs.Entries.{Stay};

use crate::room::{append, copied, splice};
use crate::stretch::{
    NO_STRETCH, Stretch, last_of, longest, move_stretches, put_stretches, stored,
};
use std::alloc::{AllocError, Global};
use std::marker::Model;

/// How many entries may serve no stretch before a list is looked through for them, and for how many more a new one has room.
const SLACK: usize = 64;

/// Boundaries with their stacks. A stack that stays is kept once for all boundaries in a row that have it, and entries that
/// stay from one stack to the next once, where the list of entries has room.
#[derive(Drop)]
pub struct Boundaries {
    places: Vec<usize>,
    stretches: Vec<Stretch>,
    entries: Vec<(usize, usize)>,
}

impl Model for Boundaries {
    ghost use Rattle.std.specs.Prelude.{List};
    ghost use Rattle.lrlex_boundaries.specs.Boundaries.{Boundary};

    ghost Value = { List Boundary };

    ghost use Rattle.lrlex_boundaries.specs.Arena.{boundaries_of, AreKept};

    ghost view = { boundaries_of };

    ghost invariant = { AreKept };
}

/// How many stretches begin at the boundary or before it.
fn begun(stretches: &[Stretch], index: usize) -> usize
    requires { AreRising stretches.now }
    ensures { AreBegun stretches.now result index }
{
    stretches.partition_point(
        |s: &Stretch| -> bool
            ensures { result ≡ nat_le s.now.from index }
        { s.from <= index },
    )
}

/// How many stretches begin before the boundary.
fn begun_before(stretches: &[Stretch], index: usize) -> usize
    requires { AreRising stretches.now }
    ensures { AreBefore stretches.now result index }
{
    stretches.partition_point(
        |s: &Stretch| -> bool
            ensures { result ≡ nat_lt s.now.from index }
        { s.from < index },
    )
}

/// The stretch that the boundary is in.
fn stretch_of(stretches: &[Stretch], index: usize) -> Stretch
    requires { AreRising stretches.now }
    ensures { result ≡ stretch_at stretches.now index }
{
    last_of(&stretches[..begun(stretches, index)])
}

/// The entries of the stretch's stack.
fn range_of(entries: &[(usize, usize)], stretch: Stretch) -> &[(usize, usize)]
    requires { IsRange (length entries.now) stretch }
    ensures { result.now ≡ entries_of entries.now stretch }
{
    &entries[stretch.first..stretch.end]
}

/// How many entries from the bottom the stretch is known to share with the one before.
fn shared(before: Stretch, here: Stretch) -> usize
    requires before { before.first ≤ before.end }
    requires here { here.first ≤ here.end }
    ensures { (entries : List (ℕ × ℕ)) → IsRange (length entries) before
        → IsRange (length entries) here
        → Stay result (entries_of entries before) (entries_of entries here) }
{
    if here.first == before.first {
        here.end.min(before.end) - here.first
    } else {
        0
    }
}

/// How many entries the stretch has beyond those of the one before, where both begin with the same.
fn own_entries(before: Stretch, here: Stretch) -> usize
    requires { here.first ≤ here.end }
    ensures { result ≡ own_entries before here }
{
    if here.first == before.first {
        here.end.saturating_sub(before.end)
    } else {
        here.end - here.first
    }
}

/// Whether more than half of the entries serve no stretch, and more than some: each edit may leave some behind.
fn is_loose(entries: &[(usize, usize)], stretches: &[Stretch]) -> bool
    requires { All (λ s. s.first ≤ s.end) stretches.now }
    ensures { result ≡ are_loose entries.now stretches.now }
{
    let mut spare = entries.len().saturating_sub(SLACK);
    let mut before = NO_STRETCH;
    for here in stretches {
        if spare == 0 {
            return false;
        }
        let own = own_entries(before, *here);
        spare = spare.saturating_sub(own).saturating_sub(own);
        before = *here;
    }
    spare > 0
}

/// Moves the places: what stood at `from` stands at `to`.
fn move_places(places: &mut [usize], from: usize, to: usize)
    requires { All (IsMovablePlace from to) places.old }
    ensures { places.new ≡ map (moved_place from to) places.old }
{
    if from == to {
        return;
    }
    for place in places.iter_mut() {
        *place = *place - from + to;
    }
}

/// Puts places in the place of those from `first` up to `last`, and moves those that follow: what stood at `from` stands at `to`.
/// There is room for them beside all that are there.
fn put_places(
    places: &mut Vec<usize>,
    first: usize,
    last: usize,
    between: &[usize],
    from: usize,
    to: usize,
)
    requires order { first ≤ last }
    requires within { last ≤ length places.old.items }
    requires room { vec_len places.old + length between.now ≤ vec_capacity places.old }
    requires movable { All (IsMovablePlace from to) (drop last places.old.items) }
    ensures { places.new.items ≡ take first places.old.items
        ++ (between.now ++ map (moved_place from to) (drop last places.old.items)) }
{
    splice(places, first, last, between);
    move_places(&mut places[first + between.len()..], from, to);
}

/// Puts the stretches of boundaries that are to stand from the one at `keep` on in the place of those from `mine` up to `passed`,
/// and their stacks behind the entries. Tells where they end. None is put for the first boundary where its stack is the one before.
fn join(
    stretches: &mut Vec<Stretch>,
    entries: &mut Vec<(usize, usize)>,
    mine: usize,
    passed: usize,
    between: &[Stretch],
    stacks: &[(usize, usize)],
    keep: usize,
) -> Result<usize, AllocError>
    requires within { (mine ≤ passed) × (passed ≤ length stretches.old.items) }
    requires before { IsRange (length entries.old.items)
        (last_stretch no_stretch (take mine stretches.old.items)) }
    requires rising { AreRising between.now }
    requires ranges { All (IsRange (length stacks.now)) between.now }
    requires fits { All (λ s. s.from + keep < 2 ^ 64) between.now }
    ensures longer { entries.new.items ≡ entries.old.items
        ++ drop (length entries.old.items) entries.new.items }
    ensures joined { IfOk result (AreJoined stacks.now entries.new.items mine passed keep
        between.now stretches.old.items stretches.new.items) }
    ensures same { OnErr result (stretches.new.items ≡ stretches.old.items) }
{
    let before = last_of(&stretches[..mine]);
    let first = stretch_of(between, 0);
    let later = &between[begun(between, 0)..];
    let shift = entries.len();
    let same = range_of(entries, before) == range_of(stacks, first);
    stretches.reserve(later.len() + 1)?;
    if same && later.is_empty() {
        splice(stretches, mine, passed, later);
        return Ok(mine);
    }
    entries.extend_from_slice(stacks)?;
    if same {
        put_stretches(stretches, mine, passed, later, keep, shift);
        return Ok(mine + later.len());
    }
    let opening = Stretch {
        from: keep,
        first: first.first + shift,
        end: first.end + shift,
    };
    stretches.insert(mine, opening)?;
    put_stretches(stretches, mine + 1, passed + 1, later, keep, shift);
    Ok(mine + 1 + later.len())
}

impl Boundaries {
    /// None yet.
    pub fn new(alloc: Global) -> Self
        ensures { result ≡ [] }
    {
        Boundaries {
            places: Vec::new(alloc),
            stretches: Vec::new(alloc),
            entries: Vec::new(alloc),
        }
    }

    /// None yet, with room for so many.
    pub fn with_capacity(alloc: Global, many: usize) -> Result<Self, AllocError>
        ensures { IfOk result (λ made. made ≡ []) }
    {
        Ok(Boundaries {
            places: Vec::with_capacity(alloc, many)?,
            stretches: Vec::new(alloc),
            entries: Vec::new(alloc),
        })
    }

    /// How many there are.
    pub fn len(&self) -> usize
        ensures { result ≡ length self.now }
    {
        self.places.len()
    }

    /// The place of the boundary.
    pub fn place(&self, index: usize) -> usize
        requires { index < length self.now }
        ensures { result ≡ (boundary_at self.now index).place }
    {
        self.places[index]
    }

    /// The entries of the boundary's stack, from bottom to top.
    pub fn stack(&self, index: usize) -> &[(usize, usize)]
        requires { index < length self.now }
        ensures { result.now ≡ (boundary_at self.now index).entries }
    {
        range_of(&self.entries, stretch_of(&self.stretches, index))
    }

    /// The greatest number of entries of a stack.
    pub fn peak(&self) -> usize
        ensures { result ≡ most_entries self.now }
    {
        longest(&self.stretches)
    }

    /// Adds a boundary with the stack of the last one.
    #[inline(always)]
    pub fn repeat(&mut self, place: usize) -> Result<(), AllocError>
        ensures { OnOk result (self.new ≡ self.old
            ++ record { place = place; entries = last_entries self.old } ∷ []) }
    {
        append(&mut self.places, place)?;
        Ok(())
    }

    /// Adds a boundary, whose first `kept` entries are those of the last one.
    pub fn push(
        &mut self,
        place: usize,
        stack: &[(usize, usize)],
        kept: usize,
    ) -> Result<(), AllocError>
        requires { Stay kept (last_entries self.old) stack.now }
        ensures { OnOk result (self.new ≡ self.old
            ++ record { place = place; entries = stack.now } ∷ []) }
    {
        let last = last_of(&self.stretches);
        if kept == stack.len() && kept == last.end - last.first {
            return self.repeat(place);
        }
        let from = self.places.len();
        let (first, end) = stored(&mut self.entries, last.first, kept, stack)?;
        self.places.push(place)?;
        self.stretches.push(Stretch { from, first, end })?;
        Ok(())
    }

    /// A copy with all entries, and with room for some more.
    pub fn copied(&self, alloc: Global) -> Result<Self, AllocError>
        ensures { IfOk result (λ made. made ≡ self.now) }
    {
        Ok(Boundaries {
            places: copied(alloc, &self.places)?,
            stretches: copied(alloc, &self.stretches)?,
            entries: copied(alloc, &self.entries)?,
        })
    }

    /// Leaves out the entries that no stack has any more, where these are more than half.
    pub fn tidy(&mut self, alloc: Global) -> Result<(), AllocError>
        ensures { self.new ≡ self.old }
    {
        if is_loose(&self.entries, &self.stretches) {
            *self = self.compacted(alloc)?;
        }
        Ok(())
    }

    /// The same boundaries, with those entries alone that a stack has.
    fn compacted(&self, alloc: Global) -> Result<Self, AllocError>
        ensures { IfOk result (λ made. made ≡ self.now) }
    {
        let mut made = Boundaries::with_capacity(alloc, self.len().saturating_add(SLACK))?;
        let mut entered = 0usize;
        'all: for next in 0..self.len() {
            let place = self.place(next);
            if entered < self.stretches.len() && self.stretches[entered].from == next {
                let before = last_of(&self.stretches[..entered]);
                let here = self.stretches[entered];
                entered += 1;
                made.push(place, range_of(&self.entries, here), shared(before, here))?;
            } else {
                made.repeat(place)?;
            }
        }
        Ok(made)
    }

    /// Puts boundaries in the place of all from the one at `keep` on. After a refusal they are what they were.
    pub fn replace_from(&mut self, keep: usize, between: &Boundaries) -> Result<(), AllocError>
        requires within { keep ≤ length self.old }
        requires some { 0 < length between.now }
        ensures put { OnOk result (self.new ≡ take keep self.old ++ between.now) }
        ensures same { OnErr result (self.new ≡ self.old) }
    {
        let mine = begun_before(&self.stretches, keep);
        let passed = self.stretches.len();
        let end = self.places.len();
        self.places.reserve(between.len())?;
        join(
            &mut self.stretches,
            &mut self.entries,
            mine,
            passed,
            &between.stretches,
            &between.entries,
            keep,
        )?;
        splice(&mut self.places, keep, end, &between.places);
        Ok(())
    }

    /// Puts boundaries in the place of those from the one at `keep` up to the one at `index`, and moves those that follow it: what stood
    /// at its place stands at `to`. The last of them has its stack. After a refusal they are what they were.
    pub fn splice(
        &mut self,
        keep: usize,
        index: usize,
        between: &Boundaries,
        to: usize,
    ) -> Result<(), AllocError>
        requires order { keep ≤ index }
        requires within { index < length self.old }
        requires some { 0 < length between.now }
        requires last { last_entries between.now ≡ (boundary_at self.old index).entries }
        requires movable { All (IsMovableBoundary (boundary_at self.old index).place to)
            (drop (index + 1) self.old) }
        ensures put { OnOk result (self.new ≡ (take keep self.old ++ between.now)
            ++ map (moved_boundary (boundary_at self.old index).place to)
            (drop (index + 1) self.old)) }
        ensures same { OnErr result (self.new ≡ self.old) }
    {
        let from = self.places[index];
        let mine = begun_before(&self.stretches, keep);
        let passed = begun(&self.stretches, index);
        self.places.reserve(between.len())?;
        let joined = join(
            &mut self.stretches,
            &mut self.entries,
            mine,
            passed,
            &between.stretches,
            &between.entries,
            keep,
        )?;
        put_places(&mut self.places, keep, index + 1, &between.places, from, to);
        move_stretches(&mut self.stretches, joined, index + 1, keep + between.len());
        Ok(())
    }
}
