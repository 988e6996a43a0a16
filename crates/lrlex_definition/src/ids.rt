//! Token ids of the rules of a table, by name, and names by id.
ghost use Rattle.std.specs.Prelude.{◌≡◌, map, option_map, IfOk, OnErr, OnOk};
ghost use Rattle.lrlex_rules.specs.Ids.{ids_of, is_lacking, is_unused, is_unused_at, name_of, with_own_id, HoldsNames, HoldsPlaces, HoldsTexts};
ghost use Rattle.lrlex_rules.specs.RuleParts.{as_rule};

use crate::row_kinds::set_row_kinds;
use crate::rule_table::RuleTable;
use lrlex_base::{Numbered, Span};
use lrlex_rules::{
    have_own_ids, name_of, names_without_id, names_without_rule, places_without_id, take_ids,
};
use std::alloc::{AllocError, Global};
use std::collections::{HashMap, HashSet};

impl<S: Numbered> RuleTable<S> {
    /// The name of the first rule that has a name and this id: what a lexeme with the id is called. Where each id is its
    /// rule's place, as in a definition that was read, in constant time; else in time linear in the rules.
    #[inline(always)]
    pub fn name_of(&self, id: S) -> Option<&str>
        ensures { option_map (λ t. t.now) result
            ≡ name_of (map (as_rule S.number) self.now.rules.items) (S.number id) }
    {
        name_of(&self.rules, self.own_ids, id)
    }

    /// Gives each named rule the map's id for its name, or none.
    fn take_ids<'a>(&mut self, ids: &HashMap<&'a str, S>)
        ensures rules { map (as_rule S.number) self.new.rules.items
            ≡ map (with_own_id (ids_of S.number ids.now))
            (map (as_rule S.number) self.old.rules.items) }
        ensures states { self.new.start_states ≡ self.old.start_states }
        ensures flags { self.new.flags ≡ self.old.flags }
    {
        take_ids(self.rules.as_mut_slice(), ids);
        self.own_ids = have_own_ids(&self.rules);
        set_row_kinds(self.row_kinds.as_mut_slice(), &self.rules);
    }

    /// Gives each named rule the map's id for its name, or none. Answers the map's names that no rule has, and the names of
    /// rules that the map lacks.
    pub fn set_ids<'a>(
        &mut self,
        alloc: Global,
        ids: &HashMap<&'a str, S>,
    ) -> Result<(Option<HashSet<&'a str>>, Option<HashSet<String>>), AllocError>
        ensures rules { OnOk result (map (as_rule S.number) self.new.rules.items
            ≡ map (with_own_id (ids_of S.number ids.now))
            (map (as_rule S.number) self.old.rules.items)) }
        ensures states { self.new.start_states ≡ self.old.start_states }
        ensures flags { self.new.flags ≡ self.old.flags }
        ensures lacking { IfOk result (λ sets. HoldsNames (is_lacking (ids_of S.number ids.now)
            (map (as_rule S.number) self.old.rules.items)) sets.0) }
        ensures unused { IfOk result (λ sets. HoldsTexts (is_unused (ids_of S.number ids.now)
            (map (as_rule S.number) self.old.rules.items)) sets.1) }
        ensures unchanged { OnErr result (self.new ≡ self.old) }
    {
        let lacking = names_without_rule(alloc, self.rules.as_slice(), ids)?;
        let unused = names_without_id(alloc, self.rules.as_slice(), ids)?;
        self.take_ids(ids);
        Ok((lacking, unused))
    }

    /// Gives each named rule the map's id for its name, or none. Answers the map's names that no rule has, and the names of
    /// rules that the map lacks, each with its place in the rule text.
    pub fn set_ids_spanned<'a>(
        &mut self,
        alloc: Global,
        ids: &HashMap<&'a str, S>,
    ) -> Result<(Option<HashSet<&'a str>>, Option<HashSet<(String, Span)>>), AllocError>
        ensures rules { OnOk result (map (as_rule S.number) self.new.rules.items
            ≡ map (with_own_id (ids_of S.number ids.now))
            (map (as_rule S.number) self.old.rules.items)) }
        ensures states { self.new.start_states ≡ self.old.start_states }
        ensures flags { self.new.flags ≡ self.old.flags }
        ensures lacking { IfOk result (λ sets. HoldsNames (is_lacking (ids_of S.number ids.now)
            (map (as_rule S.number) self.old.rules.items)) sets.0) }
        ensures unused { IfOk result (λ sets. HoldsPlaces (is_unused_at (ids_of S.number ids.now)
            (map (as_rule S.number) self.old.rules.items)) sets.1) }
        ensures unchanged { OnErr result (self.new ≡ self.old) }
    {
        let lacking = names_without_rule(alloc, self.rules.as_slice(), ids)?;
        let unused = places_without_id(alloc, self.rules.as_slice(), ids)?;
        self.take_ids(ids);
        Ok((lacking, unused))
    }
}
