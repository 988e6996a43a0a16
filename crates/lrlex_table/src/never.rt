//! Which patterns never win.
ghost use Rattle.std.specs.Prelude.{◌≡◌, ℕ, ◌<◌, ◌≢◌, List, map, true, false, Option, Some, None, IfOk, OnOk, length, vec_len, slice_index_or};
ghost use Rattle.regex.specs.Patterns.{Re};
ghost use Rattle.lrlex_table.specs.Table.{IsTableOf};
ghost use Rattle.lrlex_table.specs.Tables.{IsPartOf, AreTablesOf};
ghost use Rattle.lrlex_table.specs.Never.{NeverWins, NoneOfWins, WinsAt, IsStruck, AreStruck, AreTablesOn, NeverWinsIn, WinsNowhereIn};

use crate::merged_tables::Part;
use crate::table::Table;
use crate::tables::Tables;
use std::alloc::{AllocError, Global};

impl Table {
    /// For each of so many patterns, whether it is the first that matches at some row other than the first. One that is so
    /// at none has the longest match of no text: it never wins.
    pub fn may_win(&self, alloc: Global, patterns: usize) -> Result<Vec<bool>, AllocError>
        ensures never { (ps : List Re) → IsTableOf ps self.now →
            IfOk result (λ may. NoneOfWins ps may.items) }
        ensures rows { IfOk result (λ may. (k : ℕ) →
            slice_index_or may.items k false ≡ true → (row : ℕ) × WinsAt self.now row k) }
        ensures len { IfOk result (λ may. vec_len may ≡ patterns) }
    {
        let mut may_win = vec![in alloc; false; patterns]?;
        let start = self.start as usize;
        'rows: for row in 0..self.wins.len() {
            if row != start
                && let Some(pattern) = self.wins[row]
            {
                let pattern = pattern as usize;
                if pattern < patterns {
                    may_win[pattern] = true;
                }
            }
        }
        Ok(may_win)
    }
}

/// Notes that the pattern never wins, where the list has a place for it.
fn strike_out(may_win: &mut [bool], pattern: usize)
    ensures never { (ps : List Re) → NeverWins ps pattern →
        NoneOfWins ps may_win.old → NoneOfWins ps may_win.new }
    ensures struck { slice_index_or may_win.new pattern false ≡ false }
    ensures kept { (k : ℕ) → slice_index_or may_win.old k false ≡ false →
        slice_index_or may_win.new k false ≡ false }
    ensures len { length may_win.new ≡ length may_win.old }
{
    if pattern < may_win.len() {
        may_win[pattern] = false;
    }
}

impl Part {
    /// Strikes out those of the part's patterns that win at no row of its table.
    fn strike(&self, alloc: Global, may_win: &mut [bool]) -> Result<(), AllocError>
        ensures never { (ps : List Re) → IsPartOf ps 0 (length ps) self.now →
            NoneOfWins ps may_win.old → NoneOfWins ps may_win.new }
        ensures struck { OnOk result ((i : ℕ) → i < length self.now.patterns.items →
            IsStruck self.now may_win.new i) }
        ensures kept { (k : ℕ) → slice_index_or may_win.old k false ≡ false →
            slice_index_or may_win.new k false ≡ false }
        ensures len { length may_win.new ≡ length may_win.old }
    {
        let winners = self.table.may_win(alloc, self.patterns.len())?;
        'patterns: for at in 0..self.patterns.len() {
            if !winners[at] {
                strike_out(may_win, self.patterns[at]);
            }
        }
        Ok(())
    }
}

impl Tables {
    /// For each of so many patterns, whether it may win: false where it has a table and wins at no row there, so that it has
    /// the longest match of no text. Of a pattern that has no table nothing is known, and it may.
    pub fn may_win(&self, alloc: Global, patterns: usize) -> Result<Vec<bool>, AllocError>
        ensures never { (ps : List Re) → AreTablesOf ps self.now →
            IfOk result (λ may. NoneOfWins ps may.items) }
        ensures struck { IfOk result (λ may.
            AreStruck self.now.parts.items may.items (vec_len self.now.parts)) }
        ensures len { IfOk result (λ may. vec_len may ≡ patterns) }
    {
        let mut may_win = vec![in alloc; true; patterns]?;
        'parts: for at in 0..self.parts.len() {
            self.parts[at].strike(alloc, &mut may_win)?;
        }
        Ok(may_win)
    }
}

/// Notes that the rule may win, where the list has a place for it.
fn mark(may_win: &mut [bool], rule: usize)
    ensures marked { slice_index_or may_win.new rule true ≡ true }
    ensures kept { (r : ℕ) → slice_index_or may_win.old r true ≡ true →
        slice_index_or may_win.new r true ≡ true }
    ensures others { (r : ℕ) → r ≢ rule →
        slice_index_or may_win.new r false ≡ slice_index_or may_win.old r false }
    ensures len { length may_win.new ≡ length may_win.old }
{
    if rule < may_win.len() {
        may_win[rule] = true;
    }
}

/// Notes which rules may win in one list.
fn note(may_win: &mut [bool], places: &[usize], here: &[bool])
    requires { length here.now ≡ length places.now }
    ensures noted { (k : ℕ) → k < length places.now → slice_index_or here.now k true ≡ true →
        slice_index_or may_win.new (slice_index_or places.now k 0) true ≡ true }
    ensures kept { (r : ℕ) → slice_index_or may_win.old r true ≡ true →
        slice_index_or may_win.new r true ≡ true }
    ensures only { (r : ℕ) → slice_index_or may_win.old r false ≡ false →
        ((k : ℕ) → k < length places.now → slice_index_or places.now k 0 ≡ r →
        slice_index_or here.now k true ≡ false) → slice_index_or may_win.new r false ≡ false }
    ensures len { length may_win.new ≡ length may_win.old }
{
    'places: for at in 0..places.len() {
        if here[at] {
            mark(may_win, places[at]);
        }
    }
}

/// For each of so many rules, whether it may win in one of the lists, which hold the places of rules and have these
/// tables. False where it never wins in any.
pub fn may_win_in(
    alloc: Global,
    tables: &[Tables],
    lists: &[Vec<usize>],
    rules: usize,
) -> Result<Vec<bool>, AllocError>
    requires { length tables.now ≡ length lists.now }
    ensures never { (pattern : ℕ → Re) →
        AreTablesOn pattern (map (λ v. v.items) lists.now) tables.now →
        IfOk result (λ may. (r : ℕ) → slice_index_or may.items r true ≡ false →
        NeverWinsIn pattern (map (λ v. v.items) lists.now) (length lists.now) r) }
    ensures struck { IfOk result (λ may. (r : ℕ) →
        WinsNowhereIn (map (λ v. v.items) lists.now) tables.now r →
        slice_index_or may.items r false ≡ false) }
    ensures len { IfOk result (λ may. vec_len may ≡ rules) }
{
    let mut may_win = vec![in alloc; false; rules]?;
    'lists: for at in 0..lists.len() {
        let places = lists[at].as_slice();
        let here = tables[at].may_win(alloc, places.len())?;
        note(&mut may_win, places, &here);
    }
    Ok(may_win)
}
