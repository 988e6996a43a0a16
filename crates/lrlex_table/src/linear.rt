//! Winners at the places of a text, in linear time.
ghost use Rattle.std.specs.Prelude.{◌≡◌, ℕ, ◌+◌, ◌-◌, ◌*◌, ◌/◌, ◌^◌, ◌<◌, ◌≤◌, max, min, List, length, drop, Some, None, IfSome, MatchOption, slice_get, vec_len, true, false, [], if◌then◌else◌};
ghost use Rattle.std.specs.HashMap.{hash_map_len};
ghost use Rattle.regex.specs.Patterns.{Re};
ghost use Rattle.lrlex_table.specs.Chain.{IsChainOfLists};
ghost use Rattle.lrlex_table.specs.Reach.{IsDecidedBy};
ghost use Rattle.lrlex_table.specs.Tables.{is_tabled, AreTablesOf, IsBestAmong, len_of};
ghost use Rattle.lrlex_table.specs.Work.{IsLook};
ghost use Rattle.lrlex_table.specs.Linear.{HasWorkedTo, count_of_rows, most_cells};

use crate::ahead::Ahead;
use crate::chain::Chain;
use crate::dead_ends::DeadEnds;
use crate::tables::Tables;
use crate::walk::{FAR, TableScan};
use std::alloc::Global;
use std::collections::HashMap;

impl<'d, 't> DeadEnds<'d, 't> {
    /// No dead ends yet, for this text, the tables of these lists, and their chain.
    pub fn new(alloc: Global, lists: &'d [Tables], chain: Option<&'d Chain>, text: &'t str) -> Self
        requires chain { IfSome chain (λ c. IsChainOfLists lists.now c.now) }
        ensures lists { result.lists.now ≡ lists.now }
        ensures text { result.text.now ≡ text.now }
        ensures chain { result.chain ≡ chain.entry }
        ensures linear { (most from : ℕ) → HasWorkedTo most from from result }
    {
        DeadEnds {
            lists,
            chain,
            text,
            known: HashMap::new(alloc),
            known_to: 0,
            forgot: false,
            looked: 0,
            ahead: Ahead::new(alloc),
        }
    }

    /// Begins another pass over the text, as if none had been made. The room for dead ends and for matches found ahead is kept, and
    /// cells are counted anew. So a pass that makes the same calls finds the same, and asks for no memory that it didn't ask for
    /// the first time.
    pub fn rewind(&mut self)
        ensures lists { self.new.lists ≡ self.old.lists }
        ensures text { self.new.text ≡ self.old.text }
        ensures chain { self.new.chain ≡ self.old.chain }
        ensures none { hash_map_len self.new.known ≡ 0 }
        ensures forgot { self.new.forgot ≡ false }
        ensures looked { self.new.looked ≡ 0 }
        ensures linear { (most : ℕ) → HasWorkedTo most 0 0 self.new }
    {
        self.known.clear();
        self.known_to = 0;
        self.forgot = false;
        self.looked = 0;
        self.ahead.rewind();
    }

    /// How many cells of tables were looked at, the end of the text counting as one, and looking ahead as twice the bytes that it
    /// was for. None where a dead end was forgotten for want of memory: then nothing bounds it. It stays at the greatest number,
    /// once it is there.
    pub fn looked(&self) -> Option<usize>
        ensures looked { result ≡ (if self.now.forgot then None else Some (min (self.now.looked + self.now.ahead.cells) (2 ^ 64 - 1))) }
        ensures linear { (most from place : ℕ) → HasWorkedTo most from place self.now → place ≤ length self.now.text.now →
            IfSome result (λ n. n ≤ most_cells most (place - from) (count_of_rows self.now.lists.now) (length self.now.text.now)) }
    {
        // it says how few there are
        let _ = self.known();
        if self.forgot {
            return None;
        }
        Some(self.looked.saturating_add(self.ahead.cells))
    }

    /// How many dead ends are known: at most one for each row of a table and each 64 bytes of the text.
    pub fn known(&self) -> usize
        ensures known { result ≡ hash_map_len self.now.known }
        ensures few { result ≤ count_of_rows self.now.lists.now * (length self.now.text.now / 64 + 1) }
    {
        self.known.len()
    }

    /// Which pattern of the list wins at this place of the text among those that have a table, as `Tables::winner` returns it for
    /// the rest of the text. A scan that went far in vain is made once more, to keep the dead ends, and each later walk stops at the
    /// first that is known. So where no dead end was forgotten for want of memory, walks look at three cells at most for each byte of the
    /// winner and 129 more, in each table, and at 192 for each dead end that is new. `looked` of the answer is a part of that: what
    /// the last walks looked at.
    #[inline(always)]
    pub fn winner_at(&mut self, tables: &Tables, list: usize, place: usize, rest: &str) -> TableScan
        requires tables { slice_get self.old.lists.now list ≡ Some tables.now }
        requires rest { rest.now ≡ drop place self.old.text.now }
        requires inside { place ≤ length self.old.text.now }
        ensures winner { (ps : List Re) → AreTablesOf ps tables.now →
            MatchOption result.winner
            (IsBestAmong ps (is_tabled tables.now.parts.items) rest.now 0 0)
            (λ t. (0 < t.len) ×
            IsBestAmong ps (is_tabled tables.now.parts.items) rest.now t.pattern t.len) }
        ensures decided { (ps : List Re) → AreTablesOf ps tables.now →
            tables.now.asked.items ≡ [] → IsDecidedBy ps rest.now result.reach }
        ensures past { IfSome result.winner (λ t. t.len < result.reach) }
        ensures lists { self.new.lists ≡ self.old.lists }
        ensures text { self.new.text ≡ self.old.text }
        ensures chain { self.new.chain ≡ self.old.chain }
        ensures counted { self.old.looked + result.looked < 2 ^ 64 → self.old.looked + result.looked ≤ self.new.looked }
        ensures ahead { self.old.ahead.cells ≤ self.new.ahead.cells }
        ensures forgot { self.old.forgot ≡ true → self.new.forgot ≡ true }
        ensures work { (ps : List Re) → AreTablesOf ps tables.now → self.new.forgot ≡ false →
            IsLook 3 (vec_len tables.now.parts) (len_of result.winner) (self.new.looked - self.old.looked) (hash_map_len self.old.known) (hash_map_len self.new.known) }
        ensures linear { (ps : List Re) (most from : ℕ) → AreTablesOf ps tables.now → vec_len tables.now.parts ≤ most →
            HasWorkedTo most from place self.old → HasWorkedTo most from (place + max 1 (len_of result.winner)) self.new }
    {
        if place >= self.ahead.begin {
            if let Some(found) = self.found_at(tables, list, place, rest) {
                return TableScan {
                    winner: Some(found),
                    reach: found.len + 1,
                    looked: 0,
                };
            }
        }
        if place > self.known_to {
            let scan = tables.winner(rest);
            self.count(scan.looked);
            // mostly decided by the reach alone
            if scan.reach <= FAR || !scan.is_far() {
                return scan;
            }
        }
        let scan = self.winner_of_parts_at(tables, list, place, rest);
        self.count(scan.looked);
        scan
    }
}
