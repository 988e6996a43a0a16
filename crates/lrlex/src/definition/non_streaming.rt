ghost use Rattle.std.specs.Prelude.{◌≡◌, ◌<◌, ◌≤◌};

use lrlex_base::LexerTypes;
use lrlex_definition::{RuleTable, count_of_asked, count_of_rows, count_of_tables, most_tables};
use lrlex_rules::LexFlags;
use lrlex_table::Budget;
use std::alloc::{AllocError, Global};

/// The rules, start states and flags of a lexer.
#[derive(Drop)]
pub struct LRNonStreamingLexerDef<L: LexerTypes> {
    pub(crate) table: RuleTable<L::StorageT>,
}

impl<L: LexerTypes> LRNonStreamingLexerDef<L> {
    ghost use Rattle.lrlex.specs.Views.{definition_of, definition_rows, definition_tables};
    ghost use Rattle.std.specs.Prelude.{Some, option_map, min, IfOk, ◌-◌, ◌^◌};
    ghost use Rattle.lrlex_definition.specs.StateTables.{count_of_tables, count_of_asked, most_tables};
    ghost use Rattle.lrlex_table.specs.Linear.{count_of_rows, most_cells};
    ghost use Rattle.lrlex_rules.specs.Ids.{name_of};

    /// This definition with tables that cost no more than the budget. They and their chain hold at most its rows, the chain
    /// one for each 256 cells. Under a budget of nothing each rule is matched by `regex`. No answer changes. `new_with_budget` makes
    /// such a definition at once.
    pub fn with_budget(self, alloc: Global, budget: Budget) -> Result<Self, AllocError>
        ensures same { IfOk result (λ d. definition_of L.StorageT.number d
            ≡ definition_of L.StorageT.number self) }
        ensures within { IfOk result (λ d. definition_rows d ≤ budget.rows) }
    {
        let table = self.table.within(alloc, budget)?;
        Ok(LRNonStreamingLexerDef { table })
    }

    /// The name of the first rule that has a name and this id: what a lexeme with the id is called. Where each id is its
    /// rule's place, as in a definition that was read, in constant time; else in time linear in the rules.
    pub fn name_of(&self, id: L::StorageT) -> Option<&str>
        ensures { option_map (λ t. t.now) result
            ≡ name_of (definition_of L.StorageT.number self.now).rules (L.StorageT.number id) }
    {
        self.table.name_of(id)
    }

    /// How many tables the start states have: states with the same rules share theirs.
    pub fn tables(&self) -> usize
        ensures { count_of_tables (definition_tables self.now) < 2 ^ 64
            → result ≡ count_of_tables (definition_tables self.now) }
    {
        count_of_tables(self.table.tables.as_slice())
    }

    /// How many rows all tables have, of some 512 bytes each.
    pub fn table_rows(&self) -> usize
        ensures { count_of_rows (definition_tables self.now) < 2 ^ 64
            → result ≡ count_of_rows (definition_tables self.now) }
    {
        count_of_rows(self.table.tables.as_slice())
    }

    /// How many cells of tables lexing a text of so many bytes looks at, at most: 390 for each byte and each table that a start
    /// state has, 192 for each row of a table and each 64 bytes, 4 more for each byte, and 16,384. `LexRun::looked` is no more, where
    /// it is told. It stays at the greatest number, once it is there.
    pub fn most_cells(&self, bytes: usize) -> usize
        ensures { count_of_rows (definition_tables self.now) < 2 ^ 64
            → result ≡ min (most_cells (most_tables (definition_tables self.now)) bytes
            (count_of_rows (definition_tables self.now)) bytes) (2 ^ 64 - 1) }
    {
        let lists = self.table.tables.as_slice();
        let by_walks = most_tables(lists).saturating_mul(bytes).saturating_mul(390);
        let blocks = bytes / 64 + 1;
        let by_dead_ends = count_of_rows(lists)
            .saturating_mul(blocks)
            .saturating_mul(192);
        let ahead = bytes.saturating_mul(4).saturating_add(16_384);
        by_walks.saturating_add(by_dead_ends).saturating_add(ahead)
    }

    /// How many rules have no table, in all lists of rules that are active in a state.
    pub fn asked_rules(&self) -> usize
        ensures { count_of_asked (definition_tables self.now) < 2 ^ 64
            → result ≡ count_of_asked (definition_tables self.now) }
    {
        count_of_asked(self.table.tables.as_slice())
    }

    /// The rules with the tables of their start states: all that reports ask of a definition (`lrlex_report`).
    pub fn rule_table(&self) -> &RuleTable<L::StorageT>
        ensures { result.now ≡ self.now.table }
    {
        &self.table
    }

    /// The flags of the rule text, with their defaults.
    pub fn lex_flags(&self) -> Option<&LexFlags>
        ensures { option_map (λ f. f.now) result
            ≡ Some (definition_of L.StorageT.number self.now).flags }
    {
        Some(&self.table.flags)
    }
}
