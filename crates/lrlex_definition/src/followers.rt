//! Which list of rules probably follows where a rule wins. The chain of the tables goes by it: a wrong guess costs time, and changes no
//! match.
ghost use Rattle.std.specs.Prelude.{◌≡◌, ◌+◌, ◌≤◌, All, List, length, map, IfOk, IfSome, IsTrue};
ghost use Rattle.lrlex_table.specs.Chain.{IsChainOfLists};
ghost use Rattle.lrlex_table.specs.Rows.{chain_rows, rows_held};
ghost use Rattle.lrlex_table.specs.declared.tables.Tables.{Tables};
ghost use Rattle.lrlex_rules.specs.RuleLists.{ArePlaced};
ghost use Rattle.lrlex_definition.specs.StateTables.{AreServed, chains_rows};

use crate::state_tables::tables_for;
use lrlex_rules::{Rule, StartState, StartStateOperation, position_of};
use lrlex_table::{Budget, Chain, Tables};
use std::alloc::{AllocError, Global};

/// The lists that states have.
#[derive(Clone, Copy)]
struct StateLists<'d> {
    states: &'d [StartState],
    /// Whether the id of each state is its place.
    placed: bool,
    /// Which of the lists each state has.
    list_at: &'d [usize],
    ghost at_places: { IsTrue placed → ArePlaced states.now },
}

impl<'d> StateLists<'d> {
    /// The list of the state with this id.
    fn list_of(self, id: usize) -> Option<usize> {
        let index = position_of(self.states, self.placed, id)?;
        self.list_at.get(index).copied()
    }

    /// The list of the state that the rule pushes.
    fn pushed<S>(self, rule: &Rule<S>) -> Option<usize> {
        match rule.target_state() {
            Some((id, StartStateOperation::Push)) => self.list_of(id),
            _ => None,
        }
    }

    /// The list that follows where this rule of the list wins, where `below` has the one that follows a pop.
    fn follower<S>(self, rule: &Rule<S>, list: usize, below: usize) -> usize {
        match rule.target_state() {
            None => list,
            Some((_, StartStateOperation::Pop)) => below,
            Some((id, _)) => self.list_of(id).unwrap_or(list),
        }
    }
}

/// For each list the one that probably is below it on the stack: the last other one with a rule that pushes a state of it, or else the first
/// of all.
fn lists_below<S>(
    alloc: Global,
    states: StateLists<'_>,
    rules: &[Rule<S>],
    lists: &[Vec<usize>],
) -> Result<Vec<usize>, AllocError> {
    let mut below = vec![in alloc; 0usize; lists.len()]?;
    for list in 0..lists.len() {
        for place in &lists[list] {
            if let Some(rule) = rules.get(*place) {
                if let Some(pushed) = states.pushed(rule) {
                    if pushed != list && pushed < below.len() {
                        below[pushed] = list;
                    }
                }
            }
        }
    }
    Ok(below)
}

/// For each list, for each of its rules, the list that probably follows where the rule wins.
fn followers<S>(
    alloc: Global,
    states: StateLists<'_>,
    rules: &[Rule<S>],
    lists: &[Vec<usize>],
) -> Result<Vec<Vec<usize>>, AllocError> {
    let below = lists_below(alloc, states, rules, lists)?;
    let mut all = Vec::with_capacity(alloc, lists.len())?;
    for list in 0..lists.len() {
        let under = below.get(list).copied().unwrap_or(0);
        let mut of_list = Vec::with_capacity(alloc, lists[list].len())?;
        for place in &lists[list] {
            let follower = match rules.get(*place) {
                Some(rule) => states.follower(rule, list, under),
                None => list,
            };
            of_list.push(follower)?;
        }
        all.push(of_list)?;
    }
    Ok(all)
}

/// A list of the chain, if there is one.
fn listed(alloc: Global, chain: Option<Chain>) -> Result<Vec<Chain>, AllocError>
    ensures all { (lists : List Tables) → IfSome chain (IsChainOfLists lists) → IfOk result (λ chains. All (IsChainOfLists lists) chains.items) }
    ensures rows { IfOk result (λ chains. chains_rows chains.items ≡ chain_rows chain) }
{
    let mut chains = Vec::new(alloc);
    match chain {
        Some(chain) => {
            chains.push(chain)?;
            Ok(chains)
        }
        None => Ok(chains),
    }
}

/// Tables for each of the lists of rules, which are at these places, and their chain, if there is one. `list_at` says which of the lists each state has, and
/// `placed` whether the id of each state is its place.
pub(crate) fn chained_tables<S>(
    alloc: Global,
    states: &[StartState],
    placed: bool,
    rules: &[Rule<S>],
    lists: &[Vec<usize>],
    list_at: &[usize],
    budget: Budget,
) -> Result<(Vec<Tables>, Vec<Chain>), AllocError>
    requires { IsTrue placed → ArePlaced states.now }
    ensures served { IfOk result (λ r. AreServed rules.now (map (λ v. v.items) lists.now)
        r.0.items) }
    ensures each { IfOk result (λ r. length r.0.items ≡ length lists.now) }
    ensures chained { IfOk result (λ r. All (IsChainOfLists r.0.items) r.1.items) }
    ensures paid { IfOk result (λ r. rows_held r.0.items + chains_rows r.1.items ≤ budget.rows) }
{
    let of = StateLists {
        states,
        placed,
        list_at,
    };
    let follow = followers(alloc, of, rules, lists)?;
    let (tables, chain) = tables_for(alloc, rules, lists, &follow, budget)?;
    let chains = listed(alloc, chain)?;
    Ok((tables, chains))
}
