//! Determinizes the NFA of one pattern: each row of the table stands for a list of the NFA's threads, in order of priority.
ghost use Rattle.std.specs.Prelude.{◌≡◌, ◌≢◌, ◌+◌, ◌-◌, ◌<◌, ◌≤◌, true, Some, None, [], ◌∷◌, vec_len, IsTrue, IfOk, IfSome};
ghost use Rattle.regex_nfa.specs.Sides.{seen};
ghost use Rattle.regex_dfa.specs.Walks.{AreStates};
ghost use Rattle.regex.specs.Patterns.{Re};
ghost use Rattle.lrlex_table.specs.Step.{Fits};
ghost use Rattle.lrlex_table.specs.Table.{Measures, IsTableOf};
ghost use Rattle.lrlex_table.specs.Determinizer.{AsksForStarts, side_at, StepsFrom, StepsOn, win_of, lists_of, threads_at, IsCellOf, HasRowOf, IsFilledBelow, IsFillingOf, IsFillingBy};

use crate::budget::Budget;
use crate::index::{Index, hash_of_threads};
use crate::marking::marked_table;
use crate::step::{Scratch, StepContext, Stuck};
use crate::table::{START, Table};
use regex_dfa::Dfa;
use regex_hir::Look;
use regex_nfa::{Nfa, Side, State, StateId};
use std::alloc::{AllocError, Global};

/// How many states the steps for one table may visit.
const MOST_VISITS_ALONE: usize = 3_000_000;

/// What it costs to visit a state, in the budget's units of work.
const WORK_OF_A_VISIT: usize = 12;

/// A table in the making: the rows so far with their threads, the cells of those that were filled, and whether the pattern
/// matches at each of these. In row `START`, and in no other, nothing is before the position.
#[derive(Drop)]
pub struct Determinizer {
    rows: Vec<Vec<StateId>>,
    next: Vec<u16>,
    wins: Vec<Option<u16>>,
    index: Index,
}

/// Whether the NFA has no assertion but the start of the text or of a line.
pub fn asks_for_starts(nfa: &Nfa) -> bool
    ensures { IsTrue result → AsksForStarts nfa.now }
{
    'states: for q in 0..nfa.states.len() {
        if let State::Look { look, .. } = nfa.state(q as u32) {
            let (Look::Start | Look::StartLf) = look else {
                return false
            };
        }
    }
    true
}

/// What is before a position of this row: nothing at the start of the text, else the end of a line or another byte.
fn side_of(row: u16, line: bool) -> Side
    ensures { seen result ≡ side_at row line }
{
    let byte = if row == START {
        None
    } else if line {
        Some(b'\n')
    } else {
        Some(0)
    };
    Side { byte, char: None }
}

/// The first pattern that matches, in a table of one pattern.
fn win_for(matched: bool) -> Option<u16>
    ensures { result ≡ win_of matched }
{
    if matched { Some(0) } else { None }
}

/// Steps the threads at a position with this side before it, into `scratch.next`. Returns whether the pattern matches there,
/// or None where an assertion can't be decided.
fn step_from(
    nfa: &Nfa,
    scratch: &mut Scratch,
    threads: &[StateId],
    before: Side,
    byte: Option<u8>,
) -> Result<Option<bool>, AllocError>
    requires fits { Fits scratch.old (vec_len nfa.now.states) }
    requires states { AreStates nfa.now threads.now }
    ensures fits { Fits scratch.new (vec_len nfa.now.states) }
    ensures states { IfOk result (λ o. IfSome o (λ m. AreStates nfa.now scratch.new.next.items)) }
    ensures steps { IfOk result (λ o.
        IfSome o (StepsFrom nfa.now (seen before) byte threads.now scratch.new.next.items)) }
{
    let context = StepContext {
        before,
        after: Side {
            byte: None,
            char: None,
        },
        exact: true,
        byte,
    };
    match scratch.forward(nfa, threads, context) {
        Ok(matched) => Ok(Some(matched)),
        Err(Stuck::Undecided) => Ok(None),
        Err(Stuck::OutOfMemory) => Err(AllocError),
    }
}

/// Steps the threads of a row, into `scratch.next`. Returns whether the pattern matches there. None where that depends on
/// whether a line ends before the position, where an assertion can't be decided, and once too many states were visited.
fn step(
    alloc: Global,
    dfa: &Dfa,
    scratch: &mut Scratch,
    threads: &[StateId],
    row: u16,
    byte: Option<u8>,
) -> Result<Option<bool>, AllocError>
    requires starts { AsksForStarts dfa.now.nfa }
    requires fits { Fits scratch.old (vec_len dfa.now.nfa.states) }
    requires states { AreStates dfa.now.nfa threads.now }
    ensures fits { Fits scratch.new (vec_len dfa.now.nfa.states) }
    ensures states { IfOk result (λ o.
        IfSome o (λ m. AreStates dfa.now.nfa scratch.new.next.items)) }
    ensures steps { IfOk result (λ o.
        IfSome o (StepsOn dfa.now.nfa row byte threads.now scratch.new.next.items)) }
{
    if scratch.visits > MOST_VISITS_ALONE {
        return Ok(None);
    }
    let alone = scratch.read_alone(&dfa.nfa, threads, byte)?;
    if alone {
        return Ok(Some(false));
    }
    let Some(matched) = step_from(&dfa.nfa, scratch, threads, side_of(row, false), byte)? else {
        return Ok(None);
    };
    if row == START || !dfa.needs.lf {
        return Ok(Some(matched));
    }
    let next = Vec::from_slice(alloc, &scratch.next)?;
    let Some(after) = step_from(&dfa.nfa, scratch, threads, side_of(row, true), byte)? else {
        return Ok(None);
    };
    if after != matched || scratch.next.as_slice() != next.as_slice() {
        return Ok(None);
    }
    Ok(Some(matched))
}

impl Determinizer {
    /// The dead row and the row of the NFA's first state, neither of them filled.
    fn new(alloc: Global, nfa: &Nfa) -> Result<Determinizer, AllocError>
        ensures { IfOk result (λ c. IsFilledBelow nfa.now c 0) }
    {
        let mut rows = Vec::new(alloc);
        rows.push(Vec::new(alloc))?;
        let mut first = Vec::new(alloc);
        first.push(nfa.start)?;
        rows.push(first)?;
        let mut index = Index::new(alloc)?;
        index.add(0, hash_of_threads(&[]));
        Ok(Determinizer {
            rows,
            next: Vec::new(alloc),
            wins: Vec::new(alloc),
            index,
        })
    }

    /// Whether no thread is left, as in row 0.
    #[inline(always)]
    fn is_dead(&self, threads: &[StateId]) -> bool
        ensures within { IsTrue result → 0 < vec_len self.now.rows }
        ensures is { IsTrue result → threads_at (lists_of self.now.rows) 0 ≡ threads.now }
    {
        match self.rows.first() {
            Some(dead) => dead.is_empty() && threads.is_empty(),
            None => false,
        }
    }

    /// The row of these threads, other than `START`, where the index has it.
    fn find(&self, threads: &[StateId], hash: u32) -> Option<u16>
        ensures other { IfSome result (λ v. v ≢ 1) }
        ensures within { IfSome result (λ v. v < vec_len self.now.rows) }
        ensures is { IfSome result (λ v. threads_at (lists_of self.now.rows) v ≡ threads.now) }
    {
        for probe in 0..self.index.len() {
            if let Some(row) = self.index.candidate(hash, probe)?
                && let Some(found) = self.rows.get(row as usize)
                && found.as_slice() == threads
            {
                return Some(row);
            }
        }
        None
    }

    /// The row of these threads, other than `START`. None where there would be more than `most` rows.
    #[inline(always)]
    fn intern(
        &mut self,
        alloc: Global,
        threads: &[StateId],
        most: u16,
    ) -> Result<Option<u16>, AllocError>
        ensures row { IfOk result (λ o. IfSome o (HasRowOf self.old self.new threads.now)) }
        ensures next { self.new.next ≡ self.old.next }
        ensures wins { self.new.wins ≡ self.old.wins }
    {
        if self.is_dead(threads) {
            return Ok(Some(0));
        }
        self.find_or_add(alloc, threads, most)
    }

    /// The row of these threads that the index has, or else a new row. None where there would be more than `most` rows.
    #[inline(never)]
    fn find_or_add(
        &mut self,
        alloc: Global,
        threads: &[StateId],
        most: u16,
    ) -> Result<Option<u16>, AllocError>
        ensures row { IfOk result (λ o. IfSome o (HasRowOf self.old self.new threads.now)) }
        ensures next { self.new.next ≡ self.old.next }
        ensures wins { self.new.wins ≡ self.old.wins }
    {
        let hash = hash_of_threads(threads);
        if let Some(row) = self.find(threads, hash) {
            return Ok(Some(row));
        }
        if self.rows.len() >= most as usize {
            return Ok(None);
        }
        let row = self.rows.len() as u16;
        if row == START {
            return Ok(None);
        }
        self.rows.push(Vec::from_slice(alloc, threads)?)?;
        self.index.add(row, hash);
        Ok(Some(row))
    }

    /// Begins to fill a row: notes and returns whether the pattern matches at it. None where that can't be decided.
    fn begin(
        &mut self,
        alloc: Global,
        dfa: &Dfa,
        scratch: &mut Scratch,
        threads: &[StateId],
        row: u16,
    ) -> Result<Option<bool>, AllocError>
        requires starts { AsksForStarts dfa.now.nfa }
        requires fits { Fits scratch.old (vec_len dfa.now.nfa.states) }
        requires filled { IsFilledBelow dfa.now.nfa self.old row }
        requires row { row < vec_len self.old.rows }
        requires threads { threads.now ≡ threads_at (lists_of self.old.rows) row }
        ensures fits { Fits scratch.new (vec_len dfa.now.nfa.states) }
        ensures filling { IfOk result (λ o.
            IfSome o (IsFillingOf dfa.now.nfa self.new row 0 threads.now)) }
    {
        let Some(matched) = step(alloc, dfa, scratch, threads, row, None)? else {
            return Ok(None);
        };
        if !scratch.next.is_empty() {
            return Ok(None);
        }
        self.wins.push(win_for(matched))?;
        Ok(Some(matched))
    }

    /// The row to which this row goes on the byte. `led` has the rows to which it goes on the classes of bytes that were met.
    fn cell_for(
        &mut self,
        alloc: Global,
        dfa: &Dfa,
        scratch: &mut Scratch,
        threads: &[StateId],
        row: u16,
        byte: u8,
        led: &mut [Option<u16>],
        matched: bool,
        most: u16,
    ) -> Result<Option<u16>, AllocError>
        requires starts { AsksForStarts dfa.now.nfa }
        requires fits { Fits scratch.old (vec_len dfa.now.nfa.states) }
        requires filling { IsFillingBy dfa.now self.old row byte threads.now matched led.old }
        ensures fits { Fits scratch.new (vec_len dfa.now.nfa.states) }
        ensures filling { IfOk result (λ o. IfSome o (λ v.
            IsFillingBy dfa.now self.new row byte threads.now matched led.new)) }
        ensures cell { IfOk result (λ o.
            IfSome o (IsCellOf dfa.now.nfa (lists_of self.new.rows) matched row byte)) }
    {
        let class = dfa.class_of[byte as usize] as usize;
        if let Some(to) = led[class] {
            return Ok(Some(to));
        }
        let Some(now) = step(alloc, dfa, scratch, threads, row, Some(byte))? else {
            return Ok(None);
        };
        if now != matched {
            return Ok(None);
        }
        let found = self.intern(alloc, &scratch.next, most)?;
        let Some(to) = found else { return Ok(None) };
        led[class] = Some(to);
        Ok(Some(to))
    }

    /// Adds the cells of a row. False past `most` rows, and where a step can't be decided.
    #[inline(never)]
    fn fill(
        &mut self,
        alloc: Global,
        dfa: &Dfa,
        scratch: &mut Scratch,
        row: u16,
        most: u16,
    ) -> Result<bool, AllocError>
        requires starts { AsksForStarts dfa.now.nfa }
        requires fits { Fits scratch.old (vec_len dfa.now.nfa.states) }
        requires filled { IsFilledBelow dfa.now.nfa self.old row }
        requires row { row < vec_len self.old.rows }
        ensures fits { Fits scratch.new (vec_len dfa.now.nfa.states) }
        ensures filled { IfOk result (λ b.
            IsTrue b → IsFilledBelow dfa.now.nfa self.new (row + 1)) }
    {
        let threads = Vec::from_slice(alloc, self.rows[row as usize].as_slice())?;
        let Some(matched) = self.begin(alloc, dfa, scratch, &threads, row)? else {
            return Ok(false);
        };
        let mut led = [None; 256];
        'bytes: for byte in 0..256usize {
            let found = self.cell_for(
                alloc, dfa, scratch, &threads, row, byte as u8, &mut led, matched, most,
            )?;
            let Some(to) = found else { return Ok(false) };
            self.next.push(to)?;
        }
        Ok(true)
    }

    /// Adds the cells of all rows, each paid from the budget. False past `most` rows, where a step can't be decided, and where
    /// the budget is spent.
    fn fill_all(
        &mut self,
        alloc: Global,
        dfa: &Dfa,
        scratch: &mut Scratch,
        most: u16,
        budget: &mut Budget,
    ) -> Result<bool, AllocError>
        requires starts { AsksForStarts dfa.now.nfa }
        requires fits { Fits scratch.old (vec_len dfa.now.nfa.states) }
        requires filled { IsFilledBelow dfa.now.nfa self.old 0 }
        ensures filled { IfOk result (λ b.
            IsTrue b → IsFilledBelow dfa.now.nfa self.new (vec_len self.new.rows)) }
        ensures paid { IfOk result (λ b.
            IsTrue b → vec_len self.new.wins + budget.new.rows ≤ budget.old.rows) }
        ensures less { budget.new.rows ≤ budget.old.rows }
    {
        'rows: for row in 0..most {
            if row as usize == self.rows.len() {
                return Ok(true);
            }
            if !budget.pay_row() {
                return Ok(false);
            }
            let visited = scratch.visits;
            let filled = self.fill(alloc, dfa, scratch, row, most)?;
            let visits = scratch.visits.saturating_sub(visited);
            if !budget.pay_work(visits.saturating_mul(WORK_OF_A_VISIT)) || !filled {
                return Ok(false);
            }
        }
        Ok(false)
    }
}

/// The table of one pattern, by its NFA. None past `most` rows or too many steps, where the budget is spent, where the NFA has
/// an assertion other than the start of the text or of a line, and where a row would depend on whether a line ends before it.
pub fn determinize(
    alloc: Global,
    dfa: &Dfa,
    most: u16,
    budget: &mut Budget,
) -> Result<Option<Table>, AllocError>
    ensures table { (re : Re) → Measures dfa.now.nfa re →
        IfOk result (λ o. IfSome o (IsTableOf (re ∷ []))) }
    ensures paid { IfOk result (λ o.
        IfSome o (λ t. vec_len t.wins + budget.new.rows ≤ budget.old.rows)) }
    ensures less { budget.new.rows ≤ budget.old.rows }
{
    if !asks_for_starts(&dfa.nfa) {
        return Ok(None);
    }
    let mut scratch = Scratch::new(alloc, dfa.nfa.states.len())?;
    let mut builder = Determinizer::new(alloc, &dfa.nfa)?;
    if !builder.fill_all(alloc, dfa, &mut scratch, most, budget)? {
        return Ok(None);
    }
    Ok(marked_table(builder.next, builder.wins, START))
}
