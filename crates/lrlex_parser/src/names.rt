ghost use Rattle.std.specs.Prelude.{◌≡◌, ◌++◌, ◌∷◌, [], map, option_map, OnOk, OnErr};
ghost use Rattle.std.specs.Option.{option_copied};
ghost use Rattle.std.proofs.Props.{props};
ghost use Rattle.lrlex_parser.specs.Names.{state_name, rule_name, ArePlaces, NotesName, KeepsNames};

use lrlex_base::Numbered;
use lrlex_rules::{Rule, StartState};
use std::alloc::{AllocError, Global};
use std::collections::BTreeMap;

// Where in a list the first with each name is. A tree: no choice of names makes it slow.
type Places<'t> = BTreeMap<&'t str, usize>;

/// Notes the place of a state or a rule by its name, unless it has none or an earlier one has the same.
fn note<'t>(places: &mut Places<'t>, name: Option<&'t str>, place: usize) -> Result<(), AllocError>
    ensures noted { OnOk result (NotesName places.old places.new (option_copied name.entry) place) }
    ensures same { OnErr result (KeepsNames places.old places.new) }
{
    let Some(name) = name else {
        return Ok(());
    };
    if !places.contains_key(name) {
        places.insert(name, place)?;
    }
    Ok(())
}

/// The start states so far, with the place of each name.
#[derive(Drop)]
pub(crate) struct States<'t> {
    pub(crate) list: Vec<StartState>,
    places: Places<'t>,
    ghost placed: { ArePlaces state_name places list.items } by { Prim.hlevel props },
}

impl<'t> States<'t> {
    ghost use Rattle.lrlex_rules.specs.RuleParts.{as_state};
    ghost use Rattle.lrlex_parser.specs.Declaration.{state_named};

    /// A list of no states.
    pub(crate) fn new(alloc: Global) -> States<'t>
        ensures { result.list.items ≡ [] }
    {
        States {
            list: Vec::new(alloc),
            places: BTreeMap::new(alloc),
        }
    }

    /// The first state with this name.
    pub(crate) fn named(&self, name: &str) -> Option<&StartState>
        ensures { option_map as_state (option_copied result)
            ≡ state_named name.now (map as_state self.now.list.items) }
    {
        match self.places.get(name) {
            Some(place) => self.list.get(*place),
            None => None,
        }
    }

    /// Adds a state of this name.
    pub(crate) fn push(&mut self, name: &'t str, state: StartState) -> Result<(), AllocError>
        requires { (as_state state).name ≡ name.now }
        ensures { OnOk result (self.new.list.items ≡ self.old.list.items ++ state ∷ []) }
    {
        self.list.reserve(1)?;
        note(&mut self.places, Some(name), self.list.as_slice().len())?;
        self.list.push(state)?;
        Ok(())
    }
}

/// The rules so far, with the place of each name.
#[derive(Drop)]
pub(crate) struct Rules<'t, StorageT> {
    pub(crate) list: Vec<Rule<StorageT>>,
    places: Places<'t>,
    ghost placed: { ArePlaces rule_name places list.items } by { Prim.hlevel props },
}

impl<'t, StorageT: Numbered> Rules<'t, StorageT> {
    ghost use Rattle.lrlex_rules.specs.RuleParts.{as_rule};
    ghost use Rattle.lrlex_parser.specs.Outcome.{rule_with_name};

    /// A list of no rules.
    pub(crate) fn new(alloc: Global) -> Rules<'t, StorageT>
        ensures { result.list.items ≡ [] }
    {
        Rules {
            list: Vec::new(alloc),
            places: BTreeMap::new(alloc),
        }
    }

    /// The first rule with this name, if it is one.
    pub(crate) fn named(&self, name: Option<&str>) -> Option<&Rule<StorageT>>
        ensures { option_map (as_rule StorageT.number) (option_copied result)
            ≡ rule_with_name (map (as_rule StorageT.number) self.now.list.items)
            (option_copied name.entry) }
    {
        match self.places.get(name?) {
            Some(place) => self.list.get(*place),
            None => None,
        }
    }

    /// Adds a rule of this name, if it is one.
    pub(crate) fn push(
        &mut self,
        name: Option<&'t str>,
        rule: Rule<StorageT>,
    ) -> Result<(), AllocError>
        requires { (as_rule StorageT.number rule).name ≡ option_copied name }
        ensures { OnOk result (self.new.list.items ≡ self.old.list.items ++ rule ∷ []) }
    {
        self.list.reserve(1)?;
        note(&mut self.places, name, self.list.as_slice().len())?;
        self.list.push(rule)?;
        Ok(())
    }
}
