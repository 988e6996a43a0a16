//! Marks in a block of the text, found in two lanes: where the second meets the first, its marks go on with the first's.
ghost use Rattle.std.specs.Prelude.{◌≡◌, ℕ, ◌+◌, ◌<◌, ◌≤◌, drop, length, vec_len, IfSome};
ghost use Rattle.lrlex_table.specs.Chain.{begin_of, end_of, BeginsIn, IsChainOf, AreMarksOf, AreJoined};
ghost use Rattle.lrlex_table.specs.declared.table.Table.{Table};

use crate::chain::Chain;
use crate::marks::{Mark, Name, begun, next};

/// The fewest bytes in which there are two lanes.
const LEAST_BYTES: usize = 1024;

/// So many bytes the first lane goes on at least beyond where the second begins.
const OVERLAP: usize = 128;

/// In so many bytes before that a line's end is looked for.
const NEAR: usize = 256;

/// Where a second lane begins in so many bytes of the text from `from` on: behind a line's end near the middle, where a match is likely
/// to begin. A wrong guess costs time, and changes no match.
fn second_start(text: &[u8], from: usize, many: usize) -> Option<usize>
    requires inside { from + many ≤ length text.now }
    ensures within { IfSome result (λ apart. apart ≤ many) }
{
    if many < LEAST_BYTES {
        return None;
    }
    let last = many / 2 - OVERLAP;
    for back in 0..NEAR {
        let apart = last - back;
        if text[from + apart - 1] == b'\n' {
            return Some(apart);
        }
    }
    None
}

/// Where the match behind so many marks begins, from where they count on.
#[inline(always)]
fn begin_in(marks: &[Mark], at: usize) -> usize
    requires { at ≤ length marks.now }
    ensures begin { result ≡ begin_of 0 marks.now at }
    ensures small { result < 65536 }
{
    if at == 0 {
        return 0;
    }
    marks[at - 1].end() as usize
}

/// The list of the row in which a match is, or at last no list's number.
fn list_in(names: &[Name], mark: Mark) -> u16 {
    match names.get(mark.row() as usize) {
        Some(name) => name.list,
        None => u16::MAX,
    }
}

/// Behind how many marks of the first lane, and how many of the second, which count from `apart` bytes later on, a match of both begins at one
/// place, in one list: where they first meet. All marks of both, where they don't.
fn meeting(
    names: &[Name],
    first: &[Mark],
    count: usize,
    apart: usize,
    second: &[Mark],
    others: usize,
) -> (usize, usize)
    requires count { count < length first.now }
    requires others { others ≤ length second.now }
    requires apart { apart ≤ 8192 }
    ensures first { result.0 ≤ count }
    ensures second { result.1 ≤ others }
    ensures meet { result.1 < others →
        begin_of 0 first.now result.0 ≡ apart + begin_of 0 second.now result.1 }
{
    let mut at = count;
    'back: while at > 0 && begin_in(first, at) > apart {
        at -= 1;
    }
    let mut then = 0usize;
    'marks: while at <= count && then < others {
        let here = begin_in(first, at);
        let there = apart + begin_in(second, then);
        if here == there && list_in(names, first[at]) == list_in(names, second[then]) {
            return (at, then);
        }
        if here < there {
            at += 1;
        } else {
            then += 1;
        }
    }
    (count, others)
}

/// Goes on from the first lane's marks with the second's, which begin in the middle of the list, from where the lanes meet. Returns how many
/// marks there are then: those of the first lane alone, where they don't meet.
fn join(
    names: &[Name],
    marks: &mut [Mark],
    count: usize,
    apart: usize,
    half: usize,
    others: usize,
) -> usize
    requires count { count < half }
    requires others { half + others ≤ length marks.old }
    requires apart { apart ≤ 8192 }
    requires near { (k : ℕ) → k < others → end_of (drop half marks.old) k ≤ 8192 }
    ensures room { length marks.new ≡ length marks.old }
    ensures within { result ≤ half }
    ensures joined { AreJoined marks.old count apart (drop half marks.old) others marks.new result }
{
    let all = &marks[..];
    let (at, then) = meeting(names, all, count, apart, &all[half..], others);
    let more = (others - then).min(half - at);
    'marks: for next in 0..more {
        let mark = marks[half + (then + next)];
        marks[at + next] = Mark::new(mark.row(), (apart + mark.end() as usize) as u16);
    }
    at + more
}

impl Chain {
    /// Marks where matches end as `mark` does, in two lanes side by side of so many bytes each: one from `from` on, and one that begins
    /// `apart` bytes later, in these rows, with marks that count from there. Neither waits for the other, so both take little longer than one.
    /// Marks of the second begin in the middle of the list: one list for both leaves all that the loop needs in registers. Returns how many
    /// matches were found in each.
    #[inline(never)]
    pub(crate) fn mark_both(
        &self,
        begin: usize,
        later: usize,
        text: &[u8],
        from: usize,
        apart: usize,
        many: usize,
        half: usize,
        marks: &mut [Mark],
    ) -> (usize, usize)
        requires row { begin < vec_len self.now.bases }
        requires begins { (t : Table) (l : ℕ) → IsChainOf t l self.now → BeginsIn t l self.now begin }
        requires row_later { later < vec_len self.now.bases }
        requires begins_later { (t : Table) (l : ℕ) → IsChainOf t l self.now → BeginsIn t l self.now later }
        requires inside { from + apart + many ≤ length text.now }
        requires short { apart + many ≤ 8192 }
        requires room_first { many < half }
        requires room_second { half + many < length marks.old }
        ensures count { result.0 ≤ many }
        ensures others { result.1 ≤ many }
        ensures room { length marks.new ≡ length marks.old }
        ensures first { (t : Table) (l : ℕ) → IsChainOf t l self.now →
            AreMarksOf t l self.now text.now from 0 marks.new result.0 }
        ensures second { (t : Table) (l : ℕ) → IsChainOf t l self.now →
            AreMarksOf t l self.now text.now (from + apart) 0 (drop half marks.new) result.1 }
        ensures near { (k : ℕ) → k < result.1 → end_of (drop half marks.new) k ≤ many }
    {
        let cells = self.cells.as_slice();
        let columns = self.columns.as_slice();
        let height = self.bases.len();
        let fresh = self.fresh;
        let mut row = begin;
        let mut count = 0usize;
        let mut other = later;
        let mut others = half;
        'bytes: for at in 0..many {
            let behind = next(cells, columns, height, row, text[from + at]);
            marks[count] = Mark::new(row as u16, at as u16);
            count += begun(behind, fresh);
            row = behind;
            let after = next(cells, columns, height, other, text[from + apart + at]);
            marks[others] = Mark::new(other as u16, at as u16);
            others += begun(after, fresh);
            other = after;
        }
        (count, others - half)
    }

    /// Marks where matches end in so many bytes of the text from `from` on, as `mark` does, and in two lanes where there is a place for
    /// the second to begin. It begins with the first of all lists, in which a line mostly begins, or else in this row. What the list has from its
    /// middle on is left over.
    pub(crate) fn mark_in_lanes(
        &self,
        begin: usize,
        text: &[u8],
        from: usize,
        many: usize,
        half: usize,
        marks: &mut [Mark],
    ) -> usize
        requires row { begin < vec_len self.now.bases }
        requires begins { (t : Table) (l : ℕ) → IsChainOf t l self.now → BeginsIn t l self.now begin }
        requires inside { from + many ≤ length text.now }
        requires short { many ≤ 8192 }
        requires room { many < half }
        requires room_for_more { half + many < length marks.old }
        ensures count { result ≤ half }
        ensures room { length marks.new ≡ length marks.old }
        ensures marks { (t : Table) (l : ℕ) → IsChainOf t l self.now →
            AreMarksOf t l self.now text.now from 0 marks.new result }
    {
        let Some(apart) = second_start(text, from, many) else {
            return self.mark(begin, text, from, many, marks);
        };
        let later = match self.start_of(0) {
            Some(row) => row,
            None => begin,
        };
        let (count, others) = self.mark_both(
            begin,
            later,
            text,
            from,
            apart,
            many - apart,
            half,
            marks,
        );
        join(&self.names, marks, count, apart, half, others)
    }
}
