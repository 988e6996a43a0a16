//! Matches that were found ahead, one behind the other, and where it is worth while to look for more.
ghost use Rattle.std.specs.Prelude.{◌≡◌, ◌↔◌, ℕ, ◌+◌, ◌-◌, ◌*◌, ◌^◌, ◌<◌, ◌≤◌, min, length, vec_len, true, IsTrue};
ghost use Rattle.lrlex_table.specs.Ahead.{IsFoundIn, bytes_ahead};
ghost use Rattle.lrlex_table.specs.Chain.{BeginsIn, IsChainOf};
ghost use Rattle.lrlex_table.specs.declared.table.Table.{Table};

use crate::chain::Chain;
use crate::marks::{MOST_BYTES, Mark};
use std::alloc::Global;
use std::mem;

/// How many bytes are looked at ahead at first.
const FIRST_BYTES: usize = 256;

/// How many bytes are passed before the first look, and before it is tried again where the list isn't in the chain.
pub(crate) const TRY_AGAIN: usize = 64;

/// How many bytes are passed at most before it is tried again, where little of what was found was of use.
pub(crate) const MOST_WAIT: usize = 65_536;

/// Matches that were found ahead from this place on, by the chain: the first `count` marks, of which those from `at` on are left. The next one begins at `begin`,
/// and each where the one before it ends. Where none is left, it isn't looked ahead before `begin`, and never before `limit`: a look of so
/// many bytes isn't followed by another in the first half of them. So looks take at most four cells for each byte of the text.
#[derive(Drop)]
pub(crate) struct Ahead {
    alloc: Global,
    pub(crate) from: usize,
    pub(crate) begin: usize,
    pub(crate) at: usize,
    pub(crate) count: usize,
    /// Where the last match ends that was found.
    end: usize,
    /// Behind these there is as much room again, for those of the second lane.
    pub(crate) marks: Vec<Mark>,
    /// How many bytes are looked at the next time: more each time, so long as most of what was found is of use.
    bytes: usize,
    /// How many bytes were looked at last, until it is known whether that was of use.
    looked: usize,
    /// How many of these bytes were passed without a match that was asked for.
    pub(crate) passed: usize,
    /// How many matches were asked for that weren't the next one found, as where another list follows than was guessed.
    pub(crate) missed: usize,
    /// How many bytes are passed before it is tried again.
    wait: usize,
    /// Whether a match was asked for before. A short text, or an edit of a few tiles, is done without a look.
    asked: bool,
    /// How many cells were looked at: twice the bytes of each look, since a second lane may walk in vain. It stays at the greatest number.
    pub(crate) cells: usize,
    /// It isn't looked ahead again before this place, in the middle of the bytes that were looked at last.
    pub(crate) limit: usize,
}

impl Ahead {
    /// Nothing found ahead yet, and no room for it.
    pub(crate) fn new(alloc: Global) -> Ahead
        ensures none { result.count ≡ 0 }
        ensures cells { result.cells ≡ 0 }
        ensures limit { result.limit ≡ 0 }
    {
        Ahead {
            alloc,
            from: 0,
            begin: 0,
            at: 0,
            count: 0,
            end: 0,
            marks: Vec::new(alloc),
            bytes: FIRST_BYTES,
            looked: 0,
            passed: 0,
            missed: 0,
            wait: FIRST_BYTES,
            asked: false,
            cells: 0,
            limit: 0,
        }
    }

    /// Nothing found ahead any more, as for another pass over the text. The room that it has is kept.
    pub(crate) fn rewind(&mut self)
        ensures none { self.new.count ≡ 0 }
        ensures cells { self.new.cells ≡ 0 }
        ensures limit { self.new.limit ≡ 0 }
    {
        let kept = mem::replace(self, Ahead::new(self.alloc));
        self.marks = kept.marks;
    }

    /// Whether a match is left.
    pub(crate) fn has_more(&self) -> bool {
        self.at < self.count
    }

    /// Whether nothing that was found is left at this place, and it isn't put off.
    pub(crate) fn is_spent(&self, place: usize) -> bool {
        !self.has_more() && place >= self.begin
    }

    /// Whether to look ahead for matches from this place on. Else it is put off, as it is before `limit`. Nothing that was found is left.
    pub(crate) fn is_due(&mut self, place: usize) -> bool
        ensures none { self.new.count ≡ 0 }
        ensures due { result ≡ true → self.old.limit ≤ place }
        ensures cells { self.new.cells ≡ self.old.cells }
        ensures limit { self.new.limit ≡ self.old.limit }
    {
        let count = self.count;
        self.count = 0;
        self.at = 0;
        if !self.asked {
            self.asked = true;
            self.begin = place.saturating_add(TRY_AGAIN);
            return false;
        }
        if self.looked > 0 {
            let reached = self.end.saturating_sub(self.from);
            let is_of_use = self.passed <= self.looked / 4
                && self.missed <= count / 4
                && reached >= self.looked / 4;
            self.looked = 0;
            if !is_of_use {
                self.bytes = FIRST_BYTES;
                self.wait = self.wait.saturating_mul(2).min(MOST_WAIT);
                self.begin = place.saturating_add(self.wait);
                return false;
            }
            self.bytes = self.bytes.saturating_mul(2).min(MOST_BYTES);
            self.wait = FIRST_BYTES;
        }
        if place < self.limit {
            self.begin = self.limit;
            return false;
        }
        true
    }

    /// Doesn't look ahead from this place on for so many bytes.
    pub(crate) fn put_off(&mut self, place: usize, bytes: usize)
        ensures none { self.new.count ≡ 0 }
        ensures cells { self.new.cells ≡ self.old.cells }
        ensures limit { self.new.limit ≡ self.old.limit }
    {
        self.count = 0;
        self.at = 0;
        self.begin = place.saturating_add(bytes);
    }

    /// Makes room for what is found in so many bytes, in two lanes. Whether there is room.
    fn has_room(&mut self, bytes: usize) -> bool
        requires { bytes ≤ 8192 }
        ensures none { self.new.count ≡ 0 }
        ensures at { self.new.at ≡ 0 }
        ensures from { self.new.from ≡ self.old.from }
        ensures room { IsTrue result ↔ 2 * bytes + 1 < vec_len self.new.marks }
        ensures cells { self.new.cells ≡ self.old.cells }
        ensures limit { self.new.limit ≡ self.old.limit }
    {
        self.count = 0;
        self.at = 0;
        let room = 2 * bytes + 2;
        if self.marks.len() >= room {
            return true;
        }
        let none = Mark::new(0, 0);
        self.marks.resize(room, none).is_ok()
    }

    /// Looks for matches in the text from this place on, where a walk of the chain begins in this row. Where there is no room for them,
    /// nothing is looked at.
    #[inline(never)]
    pub(crate) fn look(&mut self, chain: &Chain, begin: usize, text: &[u8], from: usize)
        requires row { begin < vec_len chain.now.bases }
        requires begins { (t : Table) (l : ℕ) → IsChainOf t l chain.now → BeginsIn t l chain.now begin }
        requires inside { from ≤ length text.now }
        requires due { self.old.limit ≤ from }
        ensures found { IsFoundIn chain.now text.now from self.new }
        ensures counted { 2 * bytes_ahead self.old text.now from + 1 < vec_len self.new.marks →
            self.new.cells ≡ min (self.old.cells + 2 * bytes_ahead self.old text.now from) (2 ^ 64 - 1) }
        ensures kept { self.old.cells ≤ self.new.cells }
        ensures cells { self.new.cells ≤ self.old.cells + 4 * (self.new.limit - from) }
        ensures limit { self.old.limit ≤ self.new.limit }
        ensures near { self.new.limit ≤ from + 4096 }
    {
        let many = self.bytes.min(text.len() - from).min(MOST_BYTES);
        self.from = from;
        self.begin = from.saturating_add(many);
        if !self.has_room(many) {
            return;
        }
        self.cells = self.cells.saturating_add(2 * many);
        self.limit = from + many.div_ceil(2);
        let count = chain.mark_in_lanes(begin, text, from, many, many + 1, &mut self.marks);
        if count == 0 {
            return;
        }
        self.count = count;
        self.begin = from;
        self.end = from.saturating_add(self.marks[count - 1].end() as usize);
        self.looked = many;
        self.passed = 0;
        self.missed = 0;
    }
}
