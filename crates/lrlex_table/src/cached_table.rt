//! The table of one pattern, which is built at most once and handed out to each list of patterns that has the pattern.
ghost use Rattle.std.specs.Prelude.{◌≡◌, ◌+◌, ◌≤◌, true, false, List, None, IfOk, IfSome};
ghost use Rattle.regex.specs.Patterns.{Re};
ghost use Rattle.lrlex_table.specs.Table.{IsTableOf};
ghost use Rattle.lrlex_table.specs.Rows.{table_rows};

use crate::budget::Budget;
use crate::table::Table;
use std::alloc::{AllocError, Global};

/// Room for the table of one pattern, which may be untried, built or impossible to build, and how many lists are still to get it.
#[derive(Drop)]
pub struct CachedTable {
    pub(crate) table: Option<Table>,
    is_tried: bool,
    lists: usize,
}

impl CachedTable {
    /// Room for a table that so many lists are to get, and that wasn't tried to be built yet.
    pub fn new(lists: usize) -> CachedTable
        ensures table { result.table ≡ None }
        ensures is_tried { result.is_tried ≡ false }
        ensures lists { result.lists ≡ lists }
    {
        CachedTable {
            table: None,
            is_tried: false,
            lists,
        }
    }

    /// Whether building the table was tried.
    pub fn is_tried(&self) -> bool
        ensures { result ≡ self.now.is_tried }
    {
        self.is_tried
    }

    /// Keeps the table that was built, or that building it was tried and failed.
    pub fn tried(&mut self, table: Option<Table>)
        ensures table { self.new.table ≡ table }
        ensures is_tried { self.new.is_tried ≡ true }
        ensures lists { self.new.lists ≡ self.old.lists }
    {
        self.table = table;
        self.is_tried = true;
    }

    /// How many rows the table has, or 1 where there is none.
    pub(crate) fn rows(&self) -> usize {
        match &self.table {
            Some(table) => table.rows(),
            None => 1,
        }
    }

    /// The table for one of the lists: a copy, paid from the budget, and for the last list the table itself, whose rows
    /// are paid for. None where there is no table, and where the budget is spent.
    pub(crate) fn hand_out(
        &mut self,
        alloc: Global,
        budget: &mut Budget,
    ) -> Result<Option<Table>, AllocError>
        ensures given { (ps : List Re) → IfSome self.old.table (IsTableOf ps) →
            IfOk result (λ o. IfSome o (IsTableOf ps)) }
        ensures kept { (ps : List Re) → IfSome self.old.table (IsTableOf ps) →
            IfSome self.new.table (IsTableOf ps) }
        ensures paid { IfOk result (λ o.
            table_rows self.new.table + table_rows o + budget.new.rows
            ≤ table_rows self.old.table + budget.old.rows) }
    {
        self.lists = self.lists.saturating_sub(1);
        if self.lists == 0 {
            return Ok(self.table.take());
        }
        let Some(table) = &self.table else {
            return Ok(None)
        };
        let rows = table.rows();
        if rows > budget.rows() || !budget.pay_rows(rows) {
            return Ok(None);
        }
        let copy = table.copy(alloc)?;
        Ok(Some(copy))
    }

    /// Notes that one of the lists has the pattern in the table of a group. With the last list the table goes, and its rows
    /// are given back.
    pub(crate) fn release(&mut self, budget: &mut Budget)
        ensures kept { (ps : List Re) → IfSome self.old.table (IsTableOf ps) →
            IfSome self.new.table (IsTableOf ps) }
        ensures paid { table_rows self.new.table + budget.new.rows
            ≤ table_rows self.old.table + budget.old.rows }
    {
        self.lists = self.lists.saturating_sub(1);
        if self.lists == 0
            && let Some(table) = self.table.take()
        {
            budget.free_rows(table.rows());
        }
    }
}
