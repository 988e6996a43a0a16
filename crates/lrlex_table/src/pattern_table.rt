//! Builds the table of one pattern: reads the pattern, compiles its NFA and determinizes that.
ghost use Rattle.std.specs.Prelude.{[], ◌∷◌, ◌+◌, ◌≤◌, IfOk, IfSome};
ghost use Rattle.lrlex_table.specs.Table.{IsTableOf};
ghost use Rattle.lrlex_table.specs.Rows.{table_rows};
ghost use Rattle.lrlex_table.specs.Source.{source_pattern};

use crate::budget::Budget;
use crate::determinize::determinize;
use crate::nfa::nfa_of;
use crate::source::Source;
use crate::table::Table;
use regex_dfa::Dfa;
use regex_nfa::BuildError;
use std::alloc::{AllocError, Global};

/// The most rows that the table of one pattern has.
const MOST_ROWS_ALONE: u16 = 2_000;

/// The fewest rows of a table whose pattern matches a byte.
const FEWEST_ROWS: usize = 3;

/// What it costs to read a pattern, in the budget's units of work, without its bytes.
const WORK_OF_A_PATTERN: usize = 5_000;

/// What it costs to read a byte of a pattern, in the budget's units of work.
const WORK_OF_A_BYTE: usize = 50;

/// What it costs to compile a state of an NFA and to look at it once, in the budget's units of work.
const WORK_OF_A_STATE: usize = 400;

/// The table of one pattern. None where the pattern has an assertion that no table can hold, and where the budget is spent.
pub fn table_of(
    alloc: Global,
    source: Source<'_>,
    budget: &mut Budget,
) -> Result<Option<Table>, AllocError>
    ensures table { IfOk result (λ o. IfSome o (IsTableOf (source_pattern source.entry ∷ []))) }
    ensures paid { IfOk result (λ o. table_rows o + budget.new.rows ≤ budget.old.rows) }
{
    let bytes = source.regex.as_str().len();
    let reading = bytes
        .saturating_mul(WORK_OF_A_BYTE)
        .saturating_add(WORK_OF_A_PATTERN);
    if budget.rows() < FEWEST_ROWS || !budget.pay_work(reading) {
        return Ok(None);
    }
    let made = nfa_of(alloc, source.regex, source.config)?;
    let Some(nfa) = made else { return Ok(None) };
    if !budget.pay_work(nfa.states.len().saturating_mul(WORK_OF_A_STATE)) {
        return Ok(None);
    }
    let dfa = match Dfa::new(alloc, nfa) {
        Ok(dfa) => dfa,
        Err(BuildError::OutOfMemory) => return Err(AllocError),
        Err(_) => return Ok(None),
    };
    let rows = budget.rows();
    let table = determinize(alloc, &dfa, MOST_ROWS_ALONE, budget)?;
    if table.is_none() {
        budget.free_rows(rows.saturating_sub(budget.rows()));
    }
    Ok(table)
}
