//! What lexing needs of a rule for each tile that was found ahead, by the row of the chain in which the tile ends.
ghost use Rattle.std.specs.Prelude.{◌≡◌, ℕ, List, length, map, slice_get, slice_index_or, Some, IfOk};
ghost use Rattle.lrlex_rules.specs.RuleParts.{RuleParts};
ghost use Rattle.lrlex_table.specs.declared.chain.Chain.{Chain};
ghost use Rattle.lrlex_rules.specs.Kinds.{kind_of};
ghost use Rattle.lrlex_definition.specs.RowKinds.{AreRowKinds, own_kind};
ghost use Rattle.lrlex_rules.specs.RuleLists.{list_in};

use lrlex_base::Numbered;
use lrlex_rules::{Rule, kind_of};
use lrlex_table::{Chain, Name};
use std::alloc::{AllocError, Global};

/// The rule that wins where a tile ends in a row of the chain, with its list, and what lexing needs of it for each tile: all of it in one
/// look. The id is another one where the rule has none, so that it is read without asking.
#[derive(Clone, Copy)]
pub struct RowKind<S> {
    pub rule: usize,
    pub id: S,
    pub named: bool,
    pub plain: bool,
    pub list: u16,
}

impl<S: Copy> RowKind<S> {
    /// The id of the rule's lexemes.
    #[inline(always)]
    pub fn own_id(self) -> Option<S>
        ensures { result ≡ (own_kind self).id }
    {
        if self.named { Some(self.id) } else { None }
    }

    /// The same with the kind that its rule has among these.
    fn with_kind(self, rules: &[Rule<S>]) -> RowKind<S>
        ensures list { result.list ≡ self.list }
        ensures rule { result.rule ≡ self.rule }
        ensures kind { (r : RuleParts S) → slice_get rules.now self.rule ≡ Some r → own_kind result ≡ kind_of r }
    {
        let Some(rule) = rules.get(self.rule) else {
            return RowKind {
                named: false,
                plain: false,
                ..self
            };
        };
        let kind = kind_of(rule);
        RowKind {
            id: kind.id.unwrap_or(self.id),
            named: kind.id.is_some(),
            plain: kind.plain,
            ..self
        }
    }
}

/// The place of the rule that has this name, among the rules of the lists.
fn rule_of(lists: &[Vec<usize>], name: Name) -> usize
    ensures { result ≡ slice_index_or (list_in (map (λ v. v.items) lists.now) name.list) name.pattern 0 }
{
    match lists.get(name.list as usize) {
        Some(list) => list.get(name.pattern as usize).copied().unwrap_or(0),
        None => 0,
    }
}

/// Those of the rows of the chain, if there is one.
pub(crate) fn row_kinds_of<S: Numbered>(
    alloc: Global,
    rules: &[Rule<S>],
    lists: &[Vec<usize>],
    chains: &[Chain],
) -> Result<Vec<RowKind<S>>, AllocError>
    ensures { IfOk result (λ rows. AreRowKinds rules.now (map (λ v. v.items) lists.now) chains.now rows.items) }
{
    let Some(chain) = chains.first() else {
        return Ok(Vec::new(alloc));
    };
    let other = S::of_count(0).unwrap();
    let names = chain.names();
    let mut rows = Vec::with_capacity(alloc, names.len())?;
    'names: for row in 0..names.len() {
        let name = names[row];
        let bare = RowKind {
            rule: rule_of(lists, name),
            id: other,
            named: false,
            plain: false,
            list: name.list,
        };
        rows.push(bare.with_kind(rules))?;
    }
    Ok(rows)
}

/// Gives each row the kind that its rule has now.
pub(crate) fn set_row_kinds<S: Copy>(rows: &mut [RowKind<S>], rules: &[Rule<S>])
    ensures { (old : List (RuleParts S)) (lists : List (List ℕ)) (chains : List Chain) → AreRowKinds old lists chains rows.old → AreRowKinds rules.now lists chains rows.new }
{
    'rows: for row in 0..rows.len() {
        let kind = rows[row];
        rows[row] = kind.with_kind(rules);
    }
}
