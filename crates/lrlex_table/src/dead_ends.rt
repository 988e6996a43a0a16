//! Dead ends of a text: rows and places from which a walk goes on in vain. A later walk that comes to one stops there.
ghost use Rattle.std.specs.Prelude.{◌≡◌, ◌≢◌, ℕ, ◌+◌, ◌-◌, ◌*◌, ◌^◌, ◌<◌, ◌≤◌, min, List, length, drop, Some, None, IfSome, MatchOption, slice_get, vec_len, true, false, [], IsCharBoundary};
ghost use Rattle.std.specs.HashMap.{hash_map_len};
ghost use Rattle.std.specs.Option.{ForSome};
ghost use Rattle.regex.specs.Patterns.{Re};
ghost use Rattle.lrlex_table.specs.Table.{EndsInRowOf};
ghost use Rattle.lrlex_table.specs.Reach.{IsDecidedBy};
ghost use Rattle.lrlex_table.specs.Tables.{is_among, is_tabled, IsPartOf, AreTablesOf, IsBestAmong, IsTableScanOf, len_of};
ghost use Rattle.lrlex_table.specs.Work.{cells, reach_of, IsLook};
ghost use Rattle.lrlex_table.specs.Ahead.{AreAheadIn, AreWonAhead};
ghost use Rattle.lrlex_table.specs.Chain.{IsChainOfLists};
ghost use Rattle.lrlex_table.specs.DeadEnds.{table_at, more_of, AreDeadEndsIn, AreUpTo, AreWithin, HasNoneFrom, IsDeadEndIn, IsDue, IsStop, IsVainPast, IsWithin};

use crate::ahead::Ahead;
use crate::chain::Chain;
use crate::merged_tables::{Part, combined};
use crate::table::{MARK, Table, row_of};
use crate::tables::Tables;
use crate::walk::{TableScan, Walk, cell_at};
use std::alloc::Global;
use std::collections::HashMap;

/// Dead ends are kept only at places that are multiples of this.
const STEP: usize = 64;

/// A row and a place of the text from which a walk goes on in vain, through the table of this part of this list: it reads `more`
/// bytes from there on, where the text's end counts as one, and no pattern matches.
#[derive(Clone, Copy)]
pub struct DeadEnd {
    pub(crate) list: usize,
    pub(crate) part: usize,
    pub(crate) row: u16,
    pub(crate) place: usize,
    pub(crate) more: usize,
}

/// The dead ends of a text to which walks came, through the tables of these lists of patterns.
#[derive(Drop)]
pub struct DeadEnds<'d, 't> {
    pub(crate) lists: &'d [Tables],
    /// The chain of those lists that are in it.
    pub(crate) chain: Option<&'d Chain>,
    pub(crate) text: &'t str,
    /// How many bytes are read from a dead end on, by its list, part, row and place.
    pub(crate) known: HashMap<(usize, usize, u16, usize), usize>,
    /// No dead end is after this place.
    pub(crate) known_to: usize,
    /// Whether a dead end was forgotten for want of memory.
    pub(crate) forgot: bool,
    /// How many cells walks have looked at. It stays at the greatest number, once it is there.
    pub(crate) looked: usize,
    pub(crate) ahead: Ahead,
    ghost right: { AreDeadEndsIn lists.now text.now known },
    ghost up_to: { AreUpTo known_to known },
    ghost within: { AreWithin lists.now text.now known },
    ghost marked: { AreAheadIn text.now ahead },
    ghost won: { ForSome chain (λ c. AreWonAhead lists.now c.now text.now ahead) },
    ghost chained: { ForSome chain (λ c. IsChainOfLists lists.now c.now) },
}

/// Whether a dead end is kept at this place, so many bytes after the walk's last match.
fn is_due(place: usize, past: usize) -> bool
    ensures { IsDue place past result }
{
    place % STEP == 0 && past > STEP
}

impl<'d, 't> DeadEnds<'d, 't> {
    /// How many bytes a walk reads from here on, if this is known to be a dead end.
    fn more_at(&self, list: usize, part: usize, row: u16, place: usize) -> Option<usize>
        ensures known { result ≡ more_of self.now.known list part row place }
        ensures vain { IfSome result (λ more. IsDeadEndIn self.now.lists.now self.now.text.now
            (record { list = list; part = part; row = row; place = place; more = more })) }
    {
        self.known.get(&(list, part, row, place)).copied()
    }

    /// Keeps a dead end that isn't known. Where memory runs out it is forgotten, and a later walk takes longer.
    fn add(&mut self, end: DeadEnd)
        requires vain { IsDeadEndIn self.old.lists.now self.old.text.now end }
        requires within { IsWithin self.old.lists.now self.old.text.now end.list end.part end.row end.place }
        requires new { more_of self.old.known end.list end.part end.row end.place ≡ None }
        ensures lists { self.new.lists ≡ self.old.lists }
        ensures text { self.new.text ≡ self.old.text }
        ensures chain { self.new.chain ≡ self.old.chain }
        ensures looked { self.new.looked ≡ self.old.looked }
        ensures ahead { self.new.ahead ≡ self.old.ahead }
        ensures forgot { self.old.forgot ≡ true → self.new.forgot ≡ true }
        ensures one_more { self.new.forgot ≡ false →
            hash_map_len self.new.known ≡ hash_map_len self.old.known + 1 }
        ensures elsewhere { (list part row place : ℕ) → place ≢ end.place →
            more_of self.new.known list part row place ≡ more_of self.old.known list part row place }
        ensures other_parts { (list part row place : ℕ) → part ≢ end.part →
            more_of self.new.known list part row place ≡ more_of self.old.known list part row place }
    {
        self.known_to = self.known_to.max(end.place);
        let key = (end.list, end.part, end.row, end.place);
        if self.known.insert(key, end.more).is_err() {
            self.forgot = true;
        }
    }

    /// Walks through the table over the rest of the text from this place on, and no farther than to a known dead end. The second
    /// number is how many cells it looked at.
    fn walk(
        &self,
        table: &Table,
        list: usize,
        part: usize,
        place: usize,
        rest: &[u8],
    ) -> (Walk, usize)
        requires table { table_at self.now.lists.now list part ≡ Some table.now }
        requires rest { rest.now ≡ drop place self.now.text.now }
        requires inside { place ≤ length self.now.text.now }
        ensures ends { EndsInRowOf table.now rest.now result.0.reach result.0.len result.0.row }
        ensures vain { IsVainPast table.now rest.now result.0.len result.0.reach }
        ensures past { result.0.len < result.0.reach }
        ensures looked { IsStop self.now.known list part table.now place rest.now result.1 }
        ensures before { result.1 ≤ result.0.reach }
    {
        let end = rest.len() + 1;
        let mut row = table.start;
        let mut len = 0usize;
        let mut last = 0u16;
        'bytes: for at in 0..rest.len() {
            let here = place + at;
            if here % STEP == 0 {
                if let Some(more) = self.more_at(list, part, row, here) {
                    let walk = Walk {
                        len,
                        row: last,
                        reach: at + more,
                    };
                    return (walk, at);
                }
            }
            let cell = cell_at(&table.cells, row, rest[at]);
            let dead = cell == 0;
            if dead {
                let walk = Walk {
                    len,
                    row: last,
                    reach: at + 1,
                };
                return (walk, at + 1);
            }
            row = row_of(cell);
            let marked = cell >= MARK;
            if marked {
                len = at + 1;
                last = row;
            }
        }
        let walk = Walk {
            len,
            row: last,
            reach: end,
        };
        (walk, end)
    }

    /// Keeps the dead ends that a walk came to on the cells that it looked at.
    fn keep(
        &mut self,
        table: &Table,
        list: usize,
        part: usize,
        place: usize,
        rest: &[u8],
        walk: Walk,
        looked: usize,
    )
        requires table { table_at self.old.lists.now list part ≡ Some table.now }
        requires rest { rest.now ≡ drop place self.old.text.now }
        requires inside { place ≤ length self.old.text.now }
        requires vain { IsVainPast table.now rest.now walk.len walk.reach }
        requires looked { IsStop self.old.known list part table.now place rest.now looked }
        requires before { looked ≤ walk.reach }
        ensures lists { self.new.lists ≡ self.old.lists }
        ensures text { self.new.text ≡ self.old.text }
        ensures chain { self.new.chain ≡ self.old.chain }
        ensures looked { self.new.looked ≡ self.old.looked }
        ensures ahead { self.new.ahead ≡ self.old.ahead }
        ensures forgot { self.old.forgot ≡ true → self.new.forgot ≡ true }
        ensures kept { self.new.forgot ≡ false →
            looked + 64 * hash_map_len self.old.known ≤ walk.len + 129 + 64 * hash_map_len self.new.known }
        ensures grown { self.new.forgot ≡ false → hash_map_len self.old.known ≤ hash_map_len self.new.known }
        ensures other_parts { (lists parts row here : ℕ) → parts ≢ part →
            more_of self.new.known lists parts row here ≡ more_of self.old.known lists parts row here }
    {
        let mut row = table.start;
        'bytes: for at in 0..rest.len() {
            if at >= looked {
                return;
            }
            let here = place + at;
            if is_due(here, at.saturating_sub(walk.len)) {
                self.add(DeadEnd {
                    list,
                    part,
                    row,
                    place: here,
                    more: walk.reach - at,
                });
            }
            row = table.next_of(row, rest[at]);
        }
    }

    /// Which of the part's patterns wins at this place, where the walk stops at the first known dead end, and those that it comes
    /// to are kept.
    fn part_winner_at(
        &mut self,
        part: &Part,
        list: usize,
        index: usize,
        place: usize,
        rest: &str,
    ) -> TableScan
        requires part { table_at self.old.lists.now list index ≡ Some part.now.table }
        requires rest { rest.now ≡ drop place self.old.text.now }
        requires inside { place ≤ length self.old.text.now }
        ensures scan { (ps : List Re) → IsPartOf ps 0 (length ps) part.now →
            IsTableScanOf ps (is_among part.now.patterns.items) rest.now result }
        ensures past { IfSome result.winner (λ t. t.len < result.reach) }
        ensures lists { self.new.lists ≡ self.old.lists }
        ensures text { self.new.text ≡ self.old.text }
        ensures chain { self.new.chain ≡ self.old.chain }
        ensures looks { (n : ℕ) × IsStop self.old.known list index part.now.table place rest.now n × (n ≤ result.looked) }
        ensures looked { self.new.looked ≡ self.old.looked }
        ensures ahead { self.new.ahead ≡ self.old.ahead }
        ensures forgot { self.old.forgot ≡ true → self.new.forgot ≡ true }
        ensures work { (ps : List Re) → IsPartOf ps 0 (length ps) part.now → self.new.forgot ≡ false →
            IsLook 2 1 (len_of result.winner) result.looked (hash_map_len self.old.known) (hash_map_len self.new.known) }
        ensures fresh { (ps : List Re) → IsPartOf ps 0 (length ps) part.now → self.new.forgot ≡ false →
            HasNoneFrom self.old.known list index place →
            IsLook 1 1 (len_of result.winner) (reach_of part.now.table rest.now) (hash_map_len self.old.known) (hash_map_len self.new.known) }
        ensures other_parts { (lists part row here : ℕ) → part ≢ index →
            more_of self.new.known lists part row here ≡ more_of self.old.known lists part row here }
    {
        let (walk, looked) = self.walk(&part.table, list, index, place, rest.as_bytes());
        let scan = part.table.scan_of(rest, walk);
        let mut all = looked;
        if scan.is_far() {
            self.keep(
                &part.table,
                list,
                index,
                place,
                rest.as_bytes(),
                walk,
                looked,
            );
            all = looked.saturating_mul(2);
        }
        TableScan {
            winner: part.in_list(scan.winner),
            reach: scan.reach,
            looked: all,
        }
    }

    /// Which pattern of the list wins at this place among those that have a table, where each walk stops at the first known
    /// dead end, and those that it comes to are kept.
    #[inline(never)]
    pub(crate) fn winner_of_parts_at(
        &mut self,
        tables: &Tables,
        list: usize,
        place: usize,
        rest: &str,
    ) -> TableScan
        requires tables { slice_get self.old.lists.now list ≡ Some tables.now }
        requires rest { rest.now ≡ drop place self.old.text.now }
        requires inside { place ≤ length self.old.text.now }
        ensures scan { (ps : List Re) → AreTablesOf ps tables.now →
            IsTableScanOf ps (is_tabled tables.now.parts.items) rest.now result }
        ensures past { IfSome result.winner (λ t. t.len < result.reach) }
        ensures lists { self.new.lists ≡ self.old.lists }
        ensures text { self.new.text ≡ self.old.text }
        ensures chain { self.new.chain ≡ self.old.chain }
        ensures looked { self.new.looked ≡ self.old.looked }
        ensures ahead { self.new.ahead ≡ self.old.ahead }
        ensures forgot { self.old.forgot ≡ true → self.new.forgot ≡ true }
        ensures work { (ps : List Re) → AreTablesOf ps tables.now → self.new.forgot ≡ false →
            IsLook 2 (vec_len tables.now.parts) (len_of result.winner) result.looked (hash_map_len self.old.known) (hash_map_len self.new.known) }
        ensures fresh { (ps : List Re) → AreTablesOf ps tables.now → self.new.forgot ≡ false →
            ((part : ℕ) → HasNoneFrom self.old.known list part place) →
            IsLook 1 (vec_len tables.now.parts) (len_of result.winner) (cells tables.now.parts.items rest.now) (hash_map_len self.old.known) (hash_map_len self.new.known) }
    {
        let mut scan = TableScan {
            winner: None,
            reach: 0,
            looked: 0,
        };
        'parts: for at in 0..tables.parts.len() {
            let part = &tables.parts[at];
            scan = combined(scan, self.part_winner_at(part, list, at, place, rest));
        }
        scan
    }

    /// Counts cells that were looked at.
    #[inline(always)]
    pub(crate) fn count(&mut self, looked: usize)
        ensures lists { self.new.lists ≡ self.old.lists }
        ensures text { self.new.text ≡ self.old.text }
        ensures chain { self.new.chain ≡ self.old.chain }
        ensures known { self.new.known ≡ self.old.known }
        ensures forgot { self.new.forgot ≡ self.old.forgot }
        ensures ahead { self.new.ahead ≡ self.old.ahead }
        ensures looked { self.new.looked ≡ min (self.old.looked + looked) (2 ^ 64 - 1) }
    {
        self.looked = self.looked.saturating_add(looked);
    }
}
