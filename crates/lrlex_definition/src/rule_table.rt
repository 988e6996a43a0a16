ghost use Rattle.std.specs.Prelude.{◌≡◌, ◌+◌, ◌<◌, ◌≤◌, All, length, map, true, IsTrue};
ghost use Rattle.lrlex_rules.specs.Active.{active_places, is_state, lacks_target};
ghost use Rattle.lrlex_rules.specs.RuleParts.{as_rule, as_state};
ghost use Rattle.lrlex_definition.specs.StateTables.{AreServed, chains_rows};
ghost use Rattle.lrlex_rules.specs.RuleLists.{ArePlaced, list_in};
ghost use Rattle.lrlex_table.specs.Chain.{IsChainOfLists};
ghost use Rattle.lrlex_table.specs.Rows.{rows_held};
ghost use Rattle.lrlex_rules.specs.Ids.{HaveDistinctIds};
ghost use Rattle.lrlex_definition.specs.RowKinds.{AreRowKinds};

use crate::followers::chained_tables;
use crate::row_kinds::{RowKind, row_kinds_of};
use lrlex_base::Numbered;
use lrlex_rules::{
    LexFlags, Rule, StartState, are_placed, has_state, have_own_ids, lists_for, position_of,
};
use lrlex_table::{Budget, Chain, Tables};
use std::alloc::{AllocError, Global};

/// What the tables of a definition may cost: rows, of some 512 bytes each, and work, in units of about a nanosecond.
const MOST_ROWS: usize = 14_000;

const MOST_WORK: usize = 60_000_000;

/// The usual budget.
pub fn usual_budget() -> Budget
    ensures { result.rows ≡ 14000 }
{
    Budget::new(MOST_ROWS, MOST_WORK)
}

/// Rules, start states and flags, with the places of the rules that are active in each state, and their tables.
#[derive(Drop)]
pub struct RuleTable<S> {
    pub rules: Vec<Rule<S>>,
    pub start_states: Vec<StartState>,
    pub flags: LexFlags,
    /// Whether the id of each rule that has one is its place, as in every definition that was read.
    pub own_ids: bool,
    /// Whether the id of each state is its place, as in every definition that was read.
    placed: bool,
    /// The places of active rules: each list once, since states with the same rules share theirs.
    pub lists: Vec<Vec<usize>>,
    /// The tables of each list.
    pub tables: Vec<Tables>,
    /// Their chain, if there is one. It isn't an `Option`: dropping one in a struct with facts costs callers a proof.
    pub chains: Vec<Chain>,
    /// What lexing needs of the rule that wins at each row of the chain: a rule itself is large, and those of a definition are many.
    pub row_kinds: Vec<RowKind<S>>,
    /// Which of the lists each state has.
    pub list_at: Vec<usize>,
    pub ghost distinct: { IsTrue own_ids → HaveDistinctIds rules.items },
    pub ghost at_places: { IsTrue placed → ArePlaced start_states.items },
    pub ghost listed: { map (list_in (map (λ v. v.items) lists.items)) list_at.items ≡ map (λ s. active_places (map as_state start_states.items) (map (as_rule (λ _. 0)) rules.items) (as_state s).id) start_states.items },
    pub ghost served: { ∥ AreServed rules.items (map (λ v. v.items) lists.items) tables.items ∥₁ },
    pub ghost each: { length tables.items ≡ length lists.items },
    pub ghost chained: { All (IsChainOfLists tables.items) chains.items },
    pub ghost within: { All (λ j. j < length lists.items) list_at.items },
    pub ghost by_rows: { ∥ AreRowKinds rules.items (map (λ v. v.items) lists.items) chains.items row_kinds.items ∥₁ },
}

impl<S: Numbered> RuleTable<S> {
    ghost use Rattle.std.specs.Prelude.{IfOk};

    /// Of these start states and rules, in order, with tables that cost no more than this.
    fn of_parts(
        alloc: Global,
        start_states: Vec<StartState>,
        rules: Vec<Rule<S>>,
        flags: LexFlags,
        own_ids: bool,
        budget: Budget,
    ) -> Result<Self, AllocError>
        requires { IsTrue own_ids → HaveDistinctIds rules.items }
        ensures rules { IfOk result (λ t. t.rules ≡ rules) }
        ensures states { IfOk result (λ t. t.start_states ≡ start_states) }
        ensures flags { IfOk result (λ t. t.flags ≡ flags) }
        ensures paid { IfOk result (λ t. rows_held t.tables.items + chains_rows t.chains.items ≤ budget.rows) }
    {
        let placed = are_placed(&start_states);
        let (lists, list_at) = lists_for(alloc, &start_states, placed, &rules)?;
        let (tables, chains) = chained_tables(
            alloc,
            &start_states,
            placed,
            &rules,
            &lists,
            &list_at,
            budget,
        )?;
        let row_kinds = row_kinds_of(alloc, &rules, &lists, &chains)?;
        Ok(RuleTable {
            rules,
            start_states,
            flags,
            own_ids,
            placed,
            lists,
            tables,
            chains,
            row_kinds,
            list_at,
        })
    }
}

impl<S: Numbered> RuleTable<S> {
    ghost use Rattle.std.specs.Prelude.{IfOk, IfErr};
    ghost use Rattle.lrlex_definition.specs.RuleTable.{definition_by};

    /// Of these start states, rules and flags, in order, with tables that cost no more than this.
    pub fn made(
        alloc: Global,
        start_states: Vec<StartState>,
        rules: Vec<Rule<S>>,
        flags: LexFlags,
        budget: Budget,
    ) -> Result<Self, AllocError>
        ensures rules { IfOk result (λ t. t.rules ≡ rules) }
        ensures states { IfOk result (λ t. t.start_states ≡ start_states) }
        ensures flags { IfOk result (λ t. t.flags ≡ flags) }
        ensures paid { IfOk result (λ t. rows_held t.tables.items + chains_rows t.chains.items ≤ budget.rows) }
    {
        let own_ids = have_own_ids(&rules);
        RuleTable::of_parts(alloc, start_states, rules, flags, own_ids, budget)
    }

    /// A table with these rules, start states and flags, with tables that cost no more than this.
    pub fn within(self, alloc: Global, budget: Budget) -> Result<Self, AllocError>
        ensures same { IfOk result (λ t. definition_by S.number t ≡ definition_by S.number self) }
        ensures paid { IfOk result (λ t. rows_held t.tables.items + chains_rows t.chains.items ≤ budget.rows) }
    {
        let RuleTable {
            rules,
            start_states,
            flags,
            ..
        } = self;
        Ok(RuleTable::made(alloc, start_states, rules, flags, budget)?)
    }
}

/// The rules that are active in a start state, as places, and their tables.
#[derive(Clone, Copy)]
pub struct StateRules<'d> {
    pub state: usize,
    pub active: &'d [usize],
    /// The place of the tables among those of the definition.
    pub list: usize,
    pub tables: &'d Tables,
}

impl<S: Numbered> RuleTable<S> {
    ghost use Rattle.lrlex_definition.specs.RuleTable.{definition_by};
    ghost use Rattle.std.specs.Prelude.{Some};
    ghost use Rattle.lrlex_definition.specs.RuleTable.{AreOf};

    /// Whether a state has the id.
    #[inline(always)]
    pub fn is_state(&self, id: usize) -> bool
        ensures { result ≡ is_state (definition_by S.number self.now) id }
    {
        has_state(&self.start_states, self.placed, id)
    }

    /// The rules that are active in the first state with the id.
    #[inline(always)]
    pub fn rules_in(&self, id: usize) -> StateRules<'_>
        requires { is_state (definition_by S.number self.now) id ≡ true }
        ensures state { result.state ≡ id }
        ensures rules { AreOf S.number self.now id result }
    {
        let index = position_of(&self.start_states, self.placed, id).unwrap_or(0);
        let list = self.list_at[index];
        let active = &self.lists[list];
        let tables = &self.tables[list];
        StateRules {
            state: id,
            active,
            list,
            tables,
        }
    }

    /// The rules that are active in the first state with the id. These are the given ones, where they are that state's:
    /// lexing mostly stays in a state.
    #[inline(always)]
    pub fn rules_at<'d>(&'d self, rules: StateRules<'d>, id: usize) -> StateRules<'d>
        requires id { is_state (definition_by S.number self.now) id ≡ true }
        requires rules { AreOf S.number self.now rules.state rules }
        ensures state { result.state ≡ id }
        ensures rules { AreOf S.number self.now id result }
    {
        if rules.state == id {
            rules
        } else {
            self.rules_in(id)
        }
    }

    /// Makes the rules those that are active in the first state with the id, where they aren't yet.
    #[inline(always)]
    pub fn enter<'d>(&'d self, rules: &mut StateRules<'d>, id: usize)
        requires id { is_state (definition_by S.number self.now) id ≡ true }
        requires rules { AreOf S.number self.now rules.old.state rules.old }
        ensures state { rules.new.state ≡ id }
        ensures rules { AreOf S.number self.now rules.new.state rules.new }
    {
        if rules.state != id {
            *rules = self.rules_in(id);
        }
    }

    /// Whether the rule's target is no state.
    #[inline(always)]
    pub fn lacks_target(&self, rule: &Rule<S>) -> bool
        ensures { result ≡ lacks_target (definition_by S.number self.now)
            (as_rule S.number rule.now) }
    {
        match rule.target_state() {
            Some((id, _)) => !self.is_state(id),
            None => false,
        }
    }
}
