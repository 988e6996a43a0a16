ghost use Rattle.std.specs.Prelude.{◌≡◌, IfOk};
ghost use Rattle.lrlex_parser.specs.LexBuildResult.{IsAnswer, AreOwnRefusals, AreAllFaults, BeginAsRead, as_faults};

use crate::definition::non_streaming::LRNonStreamingLexerDef;
use crate::definition::read_table::read_table;
use lrlex_base::{LexerTypes, Numbered, Span};
use lrlex_definition::{RuleTable, usual_budget};
use lrlex_parser::{LexBuildError, LexBuildResult, all_faults};
use lrlex_rules::{
    DEFAULT_LEX_FLAGS, LexFlags, Rule, StartState, UNSPECIFIED_LEX_FLAGS, first_named,
    first_with_id,
};
use lrlex_table::Budget;
use std::alloc::{AllocError, Global};
use std::collections::{HashMap, HashSet};
use std::slice::Iter;

/// The definition of a lexer: start states and rules, read from a rule text or put together from parts.
pub trait LexerDef<L: LexerTypes>: Sized {
    ghost use Rattle.std.specs.Prelude.{◌≡◌, Some, IsSome, IfOk, IfErr, OnOk, OnErr, All, List, map, slice_get};
    ghost use Rattle.std.specs.Option.{option_copied};
    ghost use Rattle.std.specs.Slice.Iter.{iter_rest};
    ghost use Rattle.lrlex_rules.specs.declared.states.StartState.{StartState};
    ghost use Rattle.lrlex_rules.specs.Definition.{Definition};
    ghost use Rattle.lrlex_parser.specs.LexBuildResult.{IsAnswer, AreOwnRefusals};
    ghost use Rattle.lrlex_parser.specs.LexBuildError.{IsPlaced};
    ghost use Rattle.lrlex_parser.specs.DefinitionLaws.{IsLawful};
    ghost use Rattle.lrlex_rules.specs.RuleParts.{RuleParts, as_rule};
    ghost use Rattle.lrlex_rules.specs.Ids.{IsMadeOf, rule_with_id, rule_named, ids_of, with_own_id, with_ids, is_lacking, is_unused, is_unused_at, HoldsNames, HoldsTexts, HoldsPlaces};

    // What it says.
    ghost said: { Self → Definition };

    // Its rules and its start states, in order.
    ghost rules_of: { Self → List (RuleParts L.StorageT) };

    ghost states_of: { Self → List StartState };

    /// Just these start states and rules, in order, with the default flags.
    fn from_rules(
        alloc: Global,
        start_states: Vec<StartState>,
        rules: Vec<Rule<L::StorageT>>,
    ) -> Result<Self, AllocError>
        ensures rules { IfOk result (λ d. rules_of d ≡ rules.items) }
        ensures states { IfOk result (λ d. states_of d ≡ start_states.items) }
        ensures flags { IfOk result (λ d. (said d).flags ≡ DEFAULT_LEX_FLAGS) }
        ensures made_of { IfOk result (λ d. IsMadeOf L.StorageT.number (rules_of d) (states_of d)
            (said d)) };

    /// Reads a rule text with unset flags. The inner `Err` has the faults of the text up to the first that is neither a duplicate nor
    /// verbatim code, and there is at least one.
    fn from_str(alloc: Global, text: &str) -> Result<LexBuildResult<Self>, AllocError>
        ensures answer { IfOk result (IsAnswer said UNSPECIFIED_LEX_FLAGS L.StorageT.greatest
            text.now) }
        ensures refusals { IfOk result (AreOwnRefusals UNSPECIFIED_LEX_FLAGS L.StorageT.greatest
            text.now) }
        ensures placed { IfOk result (λ built. IfErr built
            (λ faults. All (IsPlaced text.now) faults.items)) }
        ensures lawful { IfOk result (λ built. IfOk built (λ d. IsLawful text.now (said d))) }
        ensures made_of { IfOk result (λ built. IfOk built
            (λ d. IsMadeOf L.StorageT.number (rules_of d) (states_of d) (said d))) };

    /// The rule at this place, counted from 0.
    fn get_rule(&self, idx: usize) -> Option<&Rule<L::StorageT>>
        ensures { option_copied result ≡ slice_get (rules_of self.now) idx };

    /// The first rule with this id, where there is one. `find_rule_by_id` is the test.
    fn get_rule_by_id(&self, tok_id: L::StorageT) -> &Rule<L::StorageT>
        requires { IsSome (rule_with_id L.StorageT.number (rules_of self.now)
            (L.StorageT.number tok_id)) }
        ensures { rule_with_id L.StorageT.number (rules_of self.now) (L.StorageT.number tok_id)
            ≡ Some result.now };

    /// The first rule with this id, if there is one.
    fn find_rule_by_id(&self, tok_id: L::StorageT) -> Option<&Rule<L::StorageT>>
        ensures { option_copied result ≡ rule_with_id L.StorageT.number (rules_of self.now)
            (L.StorageT.number tok_id) };

    /// The first rule with this name, if there is one.
    fn get_rule_by_name(&self, name: &str) -> Option<&Rule<L::StorageT>>
        ensures { option_copied result ≡ rule_named L.StorageT.number
            (rules_of self.now) name.now };

    /// Gives each named rule the map's id for its name, or none. Unnamed rules keep theirs.
    ///
    /// The first set has the map's names that no rule has, the second the names of rules that the map lacks. None
    /// stands for an empty set. Nothing changes where memory is refused.
    fn set_rule_ids<'a>(
        &mut self,
        alloc: Global,
        ids: &HashMap<&'a str, L::StorageT>,
    ) -> Result<(Option<HashSet<&'a str>>, Option<HashSet<String>>), AllocError>
        ensures rules { OnOk result (map (as_rule L.StorageT.number) (rules_of self.new)
            ≡ map (with_own_id (ids_of L.StorageT.number ids.now))
            (map (as_rule L.StorageT.number) (rules_of self.old))) }
        ensures states { states_of self.new ≡ states_of self.old }
        ensures says { OnOk result (said self.new
            ≡ with_ids (ids_of L.StorageT.number ids.now) (said self.old)) }
        ensures lacking { IfOk result (λ sets. HoldsNames
            (is_lacking (ids_of L.StorageT.number ids.now)
            (map (as_rule L.StorageT.number) (rules_of self.old))) sets.0) }
        ensures unused { IfOk result (λ sets. HoldsTexts
            (is_unused (ids_of L.StorageT.number ids.now)
            (map (as_rule L.StorageT.number) (rules_of self.old))) sets.1) }
        ensures unchanged { OnErr result (self.new ≡ self.old) };

    /// Gives each named rule the map's id for its name, or none, as `set_rule_ids` does. The second set has each name of a
    /// rule that the map lacks with the name's place in the rule text.
    fn set_rule_ids_spanned<'a>(
        &mut self,
        alloc: Global,
        ids: &HashMap<&'a str, L::StorageT>,
    ) -> Result<(Option<HashSet<&'a str>>, Option<HashSet<(String, Span)>>), AllocError>
        ensures rules { OnOk result (map (as_rule L.StorageT.number) (rules_of self.new)
            ≡ map (with_own_id (ids_of L.StorageT.number ids.now))
            (map (as_rule L.StorageT.number) (rules_of self.old))) }
        ensures states { states_of self.new ≡ states_of self.old }
        ensures says { OnOk result (said self.new
            ≡ with_ids (ids_of L.StorageT.number ids.now) (said self.old)) }
        ensures lacking { IfOk result (λ sets. HoldsNames
            (is_lacking (ids_of L.StorageT.number ids.now)
            (map (as_rule L.StorageT.number) (rules_of self.old))) sets.0) }
        ensures unused { IfOk result (λ sets. HoldsPlaces
            (is_unused_at (ids_of L.StorageT.number ids.now)
            (map (as_rule L.StorageT.number) (rules_of self.old))) sets.1) }
        ensures unchanged { OnErr result (self.new ≡ self.old) };

    /// The rules, in order.
    fn iter_rules(&self) -> Iter<'_, Rule<L::StorageT>>
        ensures { iter_rest result ≡ rules_of self.now };

    /// The start states, in order.
    fn iter_start_states(&self) -> Iter<'_, StartState>
        ensures { iter_rest result ≡ states_of self.now };
}

impl<L: LexerTypes> LexerDef<L> for LRNonStreamingLexerDef<L> {
    ghost use Rattle.std.specs.Prelude.{◌≡◌, ◌≤◌, true, IfOk, IfErr, All};
    ghost use Rattle.lrlex_parser.specs.LexBuildError.{IsPlaced};
    ghost use Rattle.lrlex_parser.specs.DefinitionLaws.{IsLawful};
    ghost use Rattle.lrlex_rules.specs.Active.{is_state};
    ghost use Rattle.lrlex_rules.specs.Ids.{IsMadeOf};
    ghost use Rattle.lrlex.specs.Views.{definition_of, definition_rows, definition_rules, definition_states};

    ghost said = { definition_of L.StorageT.number };

    ghost rules_of = { definition_rules };

    ghost states_of = { definition_states };

    /// Just these start states and rules, in order, with the default flags. Their tables and the chain hold at most 7,000 rows.
    fn from_rules(
        alloc: Global,
        start_states: Vec<StartState>,
        rules: Vec<Rule<L::StorageT>>,
    ) -> Result<LRNonStreamingLexerDef<L>, AllocError>
        ensures rules { IfOk result (λ d. definition_rules d ≡ rules.items) }
        ensures states { IfOk result (λ d. definition_states d ≡ start_states.items) }
        ensures flags { IfOk result (λ d. (definition_of L.StorageT.number d).flags
            ≡ DEFAULT_LEX_FLAGS) }
        ensures made_of { IfOk result (λ d. IsMadeOf L.StorageT.number (definition_rules d)
            (definition_states d) (definition_of L.StorageT.number d)) }
        ensures within { IfOk result (λ d. definition_rows d ≤ 14000) }
    {
        let flags = DEFAULT_LEX_FLAGS;
        let table = RuleTable::made(alloc, start_states, rules, flags, usual_budget())?;
        Ok(LRNonStreamingLexerDef { table })
    }

    /// Reads a rule text with unset flags, as `new_with_options` does.
    fn from_str(
        alloc: Global,
        text: &str,
    ) -> Result<LexBuildResult<LRNonStreamingLexerDef<L>>, AllocError>
        ensures answer { IfOk result (IsAnswer (definition_of L.StorageT.number)
            UNSPECIFIED_LEX_FLAGS L.StorageT.greatest text.now) }
        ensures refusals { IfOk result (AreOwnRefusals UNSPECIFIED_LEX_FLAGS L.StorageT.greatest
            text.now) }
        ensures placed { IfOk result (λ built. IfErr built
            (λ faults. All (IsPlaced text.now) faults.items)) }
        ensures lawful { IfOk result (λ built. IfOk built
            (λ d. IsLawful text.now (definition_of L.StorageT.number d))) }
        ensures initial { IfOk result (λ built. IfOk built
            (λ d. is_state (definition_of L.StorageT.number d) 0 ≡ true)) }
        ensures made_of { IfOk result (λ built. IfOk built
            (λ d. IsMadeOf L.StorageT.number (definition_rules d) (definition_states d)
            (definition_of L.StorageT.number d))) }
        ensures within { IfOk result (λ built. IfOk built (λ d. definition_rows d ≤ 14000)) }
    {
        LRNonStreamingLexerDef::new_with_options(alloc, text, UNSPECIFIED_LEX_FLAGS)
    }

    fn get_rule(&self, idx: usize) -> Option<&Rule<L::StorageT>> {
        self.table.rules.get(idx)
    }

    fn get_rule_by_id(&self, tok_id: L::StorageT) -> &Rule<L::StorageT> {
        match self.find_rule_by_id(tok_id) {
            Some(rule) => rule,
            None => unreachable!(),
        }
    }

    fn find_rule_by_id(&self, tok_id: L::StorageT) -> Option<&Rule<L::StorageT>> {
        first_with_id(self.table.rules.as_slice(), tok_id)
    }

    fn get_rule_by_name(&self, name: &str) -> Option<&Rule<L::StorageT>> {
        first_named(self.table.rules.as_slice(), name)
    }

    fn set_rule_ids<'a>(
        &mut self,
        alloc: Global,
        ids: &HashMap<&'a str, L::StorageT>,
    ) -> Result<(Option<HashSet<&'a str>>, Option<HashSet<String>>), AllocError> {
        Ok(self.table.set_ids(alloc, ids)?)
    }

    fn set_rule_ids_spanned<'a>(
        &mut self,
        alloc: Global,
        ids: &HashMap<&'a str, L::StorageT>,
    ) -> Result<(Option<HashSet<&'a str>>, Option<HashSet<(String, Span)>>), AllocError> {
        Ok(self.table.set_ids_spanned(alloc, ids)?)
    }

    fn iter_rules(&self) -> Iter<'_, Rule<L::StorageT>> {
        self.table.rules.iter()
    }

    fn iter_start_states(&self) -> Iter<'_, StartState> {
        self.table.start_states.iter()
    }
}

impl<L: LexerTypes> LRNonStreamingLexerDef<L> {
    ghost use Rattle.std.specs.Prelude.{◌≤◌, true, IfErr, All};
    ghost use Rattle.lrlex_parser.specs.LexBuildError.{IsPlaced};
    ghost use Rattle.lrlex_parser.specs.DefinitionLaws.{IsLawful};
    ghost use Rattle.lrlex_rules.specs.Active.{is_state};
    ghost use Rattle.lrlex.specs.Views.{definition_of, definition_rows, definition_rules};

    /// Reads a rule text with these flags. The inner `Err` has the faults of the text up to the first that is neither a duplicate nor
    /// verbatim code, and there is at least one; `all_faults` goes on behind that one. The tables of the definition and their chain
    /// hold at most 7,000 rows, as under a budget of so many.
    pub fn new_with_options(
        alloc: Global,
        text: &str,
        flags: LexFlags,
    ) -> Result<LexBuildResult<LRNonStreamingLexerDef<L>>, AllocError>
        ensures answer { IfOk result (IsAnswer
            (definition_of L.StorageT.number) flags L.StorageT.greatest text.now) }
        ensures refusals { IfOk result (AreOwnRefusals flags L.StorageT.greatest text.now) }
        ensures placed { IfOk result (λ built. IfErr built
            (λ faults. All (IsPlaced text.now) faults.items)) }
        ensures lawful { IfOk result (λ built. IfOk built
            (λ d. IsLawful text.now (definition_of L.StorageT.number d))) }
        ensures initial { IfOk result (λ built. IfOk built
            (λ d. is_state (definition_of L.StorageT.number d) 0 ≡ true)) }
        ensures within { IfOk result (λ built. IfOk built (λ d. definition_rows d ≤ 14000)) }
    {
        LRNonStreamingLexerDef::new_with_budget(alloc, text, flags, usual_budget())
    }

    /// All faults of a rule text with these flags, in order. Empty where `new_with_options` gives a definition.
    ///
    /// `new_with_options` stops at the first fault that is neither a duplicate nor verbatim code, as the original does. Here such
    /// a fault ends its line alone, and the next line is read after it. The first faults are those of `new_with_options`.
    pub fn all_faults(
        alloc: Global,
        text: &str,
        flags: LexFlags,
    ) -> Result<Vec<LexBuildError>, AllocError>
        ensures exact { IfOk result (AreAllFaults flags L.StorageT.greatest text.now) }
        ensures begins { IfOk result (λ faults.
            BeginAsRead flags L.StorageT.greatest text.now (as_faults faults)) }
        ensures placed { IfOk result (λ faults. All (IsPlaced text.now) faults.items) }
    {
        all_faults::<L::StorageT>(alloc, text, flags)
    }

    /// Reads a rule text with these flags, as `new_with_options` does, and makes tables that cost no more than the budget.
    /// They and their chain hold at most the budget's rows, the chain one for each 256 cells. Under a budget of nothing each rule
    /// is matched by `regex`. No answer depends on the budget.
    pub fn new_with_budget(
        alloc: Global,
        text: &str,
        flags: LexFlags,
        budget: Budget,
    ) -> Result<LexBuildResult<LRNonStreamingLexerDef<L>>, AllocError>
        ensures answer { IfOk result (IsAnswer
            (definition_of L.StorageT.number) flags L.StorageT.greatest text.now) }
        ensures refusals { IfOk result (AreOwnRefusals flags L.StorageT.greatest text.now) }
        ensures placed { IfOk result (λ built. IfErr built
            (λ faults. All (IsPlaced text.now) faults.items)) }
        ensures lawful { IfOk result (λ built. IfOk built
            (λ d. IsLawful text.now (definition_of L.StorageT.number d))) }
        ensures initial { IfOk result (λ built. IfOk built
            (λ d. is_state (definition_of L.StorageT.number d) 0 ≡ true)) }
        ensures within { IfOk result (λ built. IfOk built
            (λ d. definition_rows d ≤ budget.rows)) }
    {
        match read_table(alloc, text, flags, budget)? {
            Ok(table) => Ok(Ok(LRNonStreamingLexerDef { table })),
            Err(faults) => Ok(Err(faults)),
        }
    }

    /// The rules, in order.
    pub fn rules(&self) -> &[Rule<L::StorageT>]
        ensures { result.now ≡ definition_rules self.now }
    {
        self.table.rules.as_slice()
    }
}
