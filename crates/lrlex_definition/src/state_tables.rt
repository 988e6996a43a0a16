//! The tables of each list of rules.
ghost use Rattle.std.specs.Prelude.{◌≡◌, ◌+◌, ◌<◌, ◌≤◌, ◌^◌, ℕ, [], ◌∷◌, map, length, IfOk, OnOk, IfSome};
ghost use Rattle.regex.specs.Patterns.{Re};
ghost use Rattle.lrlex_table.specs.Table.{IsTableOf};
ghost use Rattle.lrlex_table.specs.Linear.{count_of_rows};
ghost use Rattle.lrlex_table.specs.Chain.{IsChainOfLists};
ghost use Rattle.lrlex_table.specs.Rows.{table_rows, cached_rows, tables_rows, rows_held, chain_rows};
ghost use Rattle.lrlex_table.specs.Tables.{AreCached, ArePartsOf, AreTablesOf};
ghost use Rattle.lrlex_rules.specs.RuleParts.{as_rule};
ghost use Rattle.lrlex_rules.specs.Patterns.{pattern_of};
ghost use Rattle.lrlex_definition.specs.StateTables.{pattern_in, patterns_on, AreServed, count_of_tables, count_of_asked, most_tables};

use lrlex_rules::Rule;
use lrlex_table::{
    Budget, CachedTable, Chain, Source, Table, Tables, chain_for, joined_tables, table_of,
    tables_between,
};
use std::alloc::{AllocError, Global};

/// What it costs to look at a rule of a list, in the budget's units of work.
const WORK_OF_A_RULE: usize = 100;

/// The table of the rule alone, where it can be had.
fn table_alone<S>(
    alloc: Global,
    rule: &Rule<S>,
    budget: &mut Budget,
) -> Result<Option<Table>, AllocError>
    ensures table { IfOk result (λ o. IfSome o (IsTableOf
        (pattern_of (as_rule (λ _. 0) rule.now) ∷ []))) }
    ensures paid { IfOk result (λ o. table_rows o + budget.new.rows ≤ budget.old.rows) }
{
    let source = Source {
        regex: rule.regex(),
        config: rule.config(),
    };
    let table = table_of(alloc, source, budget)?;
    Ok(table)
}

/// Tries the table of the rule at this place alone, unless it was tried before.
fn try_single<S>(
    alloc: Global,
    rules: &[Rule<S>],
    place: usize,
    singles: &mut [CachedTable],
    budget: &mut Budget,
) -> Result<(), AllocError>
    ensures cached { AreCached (pattern_in (map (as_rule (λ _. 0)) rules.now)) singles.old →
        OnOk result (AreCached (pattern_in (map (as_rule (λ _. 0)) rules.now)) singles.new) }
    ensures paid { OnOk result (cached_rows singles.new + budget.new.rows
        ≤ cached_rows singles.old + budget.old.rows) }
{
    if place < rules.len() && place < singles.len() && !singles[place].is_tried() {
        let table = table_alone(alloc, &rules[place], budget)?;
        singles[place].tried(table);
    }
    Ok(())
}

/// Tries the tables of the rules at these places, each alone.
fn try_singles<S>(
    alloc: Global,
    rules: &[Rule<S>],
    places: &[usize],
    singles: &mut [CachedTable],
    budget: &mut Budget,
) -> Result<(), AllocError>
    ensures cached { AreCached (pattern_in (map (as_rule (λ _. 0)) rules.now)) singles.old →
        OnOk result (AreCached (pattern_in (map (as_rule (λ _. 0)) rules.now)) singles.new) }
    ensures paid { OnOk result (cached_rows singles.new + budget.new.rows
        ≤ cached_rows singles.old + budget.old.rows) }
{
    'places: for place in places {
        try_single(alloc, rules, *place, singles, budget)?;
    }
    Ok(())
}

/// For how many rules the table of each alone is made before they are joined.
const RULES_AT_ONCE: usize = 256;

/// Tables for those of the rules at these places whose index in the list is from `from` on and below `to`. The tables of rules
/// alone have many more rows than one for all, so of a long list one part is joined before the next is begun. In a part at
/// most half of what is left of the budget goes into these, so that as much is left to join them, and for other lists.
fn tables_from<S>(
    alloc: Global,
    rules: &[Rule<S>],
    places: &[usize],
    from: usize,
    to: usize,
    singles: &mut [CachedTable],
    budget: &mut Budget,
) -> Result<Tables, AllocError>
    requires from { from < to }
    requires to { to ≤ length places.now }
    ensures tables { AreCached (pattern_in (map (as_rule (λ _. 0)) rules.now)) singles.old →
        IfOk result (λ t. ArePartsOf (patterns_on (map (as_rule (λ _. 0)) rules.now) places.now)
        from to t.parts.items t.asked.items) }
    ensures kept { AreCached (pattern_in (map (as_rule (λ _. 0)) rules.now)) singles.old →
        OnOk result (AreCached (pattern_in (map (as_rule (λ _. 0)) rules.now)) singles.new) }
    ensures paid { IfOk result (λ t. cached_rows singles.new + tables_rows t + budget.new.rows
        ≤ cached_rows singles.old + budget.old.rows) }
{
    if to - from <= RULES_AT_ONCE {
        let joining = budget.set_aside();
        try_singles(alloc, rules, &places[from..to], singles, budget)?;
        budget.put_back(joining);
        return tables_between(alloc, singles, places, from, to, budget);
    }
    let middle = from + (to - from) / 2;
    let left = tables_from(alloc, rules, places, from, middle, singles, budget)?;
    let right = tables_from(alloc, rules, places, middle, to, singles, budget)?;
    joined_tables(alloc, left, right, budget)
}

/// Tables for the rules at these places. A list is paid for before it is looked at.
fn tables_on<S>(
    alloc: Global,
    rules: &[Rule<S>],
    places: &[usize],
    singles: &mut [CachedTable],
    budget: &mut Budget,
) -> Result<Tables, AllocError>
    ensures tables { AreCached (pattern_in (map (as_rule (λ _. 0)) rules.now)) singles.old →
        IfOk result (AreTablesOf (patterns_on (map (as_rule (λ _. 0)) rules.now) places.now)) }
    ensures kept { AreCached (pattern_in (map (as_rule (λ _. 0)) rules.now)) singles.old →
        OnOk result (AreCached (pattern_in (map (as_rule (λ _. 0)) rules.now)) singles.new) }
    ensures paid { IfOk result (λ t. cached_rows singles.new + tables_rows t + budget.new.rows
        ≤ cached_rows singles.old + budget.old.rows) }
{
    let looking = places.len().saturating_mul(WORK_OF_A_RULE);
    if places.is_empty() || !budget.pay_work(looking) {
        return Tables::none(alloc, places.len());
    }
    tables_from(alloc, rules, places, 0, places.len(), singles, budget)
}

/// In how many of the lists each of so many rules is.
fn lists_with(alloc: Global, rules: usize, lists: &[Vec<usize>]) -> Result<Vec<usize>, AllocError> {
    let mut counts = vec![in alloc; 0usize; rules]?;
    for places in lists {
        for place in places {
            if let Some(count) = counts.get_mut(*place) {
                *count = count.saturating_add(1);
            }
        }
    }
    Ok(counts)
}

/// Room for the table of each rule alone, which is in so many lists.
fn singles_in(alloc: Global, lists: &[usize]) -> Result<Vec<CachedTable>, AllocError>
    ensures cached { (pattern : ℕ → Re) → IfOk result (λ singles. AreCached pattern singles.items) }
    ensures rows { IfOk result (λ singles. cached_rows singles.items ≡ 0) }
{
    let mut singles = Vec::with_capacity(alloc, lists.len())?;
    'lists: for count in lists {
        singles.push(CachedTable::new(*count))?;
    }
    Ok(singles)
}

/// Tables for each of the lists of rules, which are at these places, and their chain, which goes by the lists that probably follow.
pub(crate) fn tables_for<S>(
    alloc: Global,
    rules: &[Rule<S>],
    lists: &[Vec<usize>],
    follow: &[Vec<usize>],
    mut budget: Budget,
) -> Result<(Vec<Tables>, Option<Chain>), AllocError>
    ensures served { IfOk result (λ r. AreServed rules.now (map (λ v. v.items) lists.now)
        r.0.items) }
    ensures each { IfOk result (λ r. length r.0.items ≡ length lists.now) }
    ensures chained { IfOk result (λ r. IfSome r.1 (IsChainOfLists r.0.items)) }
    ensures paid { IfOk result (λ r. rows_held r.0.items + chain_rows r.1 ≤ budget.rows) }
{
    let counts = lists_with(alloc, rules.len(), lists)?;
    let mut singles = singles_in(alloc, &counts)?;
    let mut tables = Vec::with_capacity(alloc, lists.len())?;
    'lists: for index in 0..lists.len() {
        let places = lists[index].as_slice();
        let made = tables_on(alloc, rules, places, &mut singles, &mut budget)?;
        tables.push(made)?;
    }
    let chain = chain_for(alloc, &tables, follow, &mut budget)?;
    Ok((tables, chain))
}

/// How many tables the lists have.
pub fn count_of_tables(lists: &[Tables]) -> usize
    ensures { count_of_tables lists.now < 2 ^ 64 → result ≡ count_of_tables lists.now }
{
    let mut tables = 0usize;
    'lists: for of_list in lists {
        tables = tables.saturating_add(of_list.count());
    }
    tables
}

/// How many rows all these tables have.
pub fn count_of_rows(lists: &[Tables]) -> usize
    ensures { count_of_rows lists.now < 2 ^ 64 → result ≡ count_of_rows lists.now }
{
    let mut rows = 0usize;
    'lists: for of_list in lists {
        rows = rows.saturating_add(of_list.rows());
    }
    rows
}

/// The most tables that one of these lists has.
pub fn most_tables(lists: &[Tables]) -> usize
    ensures { result ≡ most_tables lists.now }
{
    let mut most = 0usize;
    'lists: for of_list in lists {
        most = most.max(of_list.count());
    }
    most
}

/// How many rules have no table, in all lists.
pub fn count_of_asked(lists: &[Tables]) -> usize
    ensures { count_of_asked lists.now < 2 ^ 64 → result ≡ count_of_asked lists.now }
{
    let mut asked = 0usize;
    'lists: for of_list in lists {
        asked = asked.saturating_add(of_list.asked().len());
    }
    asked
}
