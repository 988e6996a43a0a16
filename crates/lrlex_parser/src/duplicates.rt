ghost use Rattle.std.specs.Prelude.{◌≡◌, ◌++◌, ◌∷◌, [], map, false, OnOk, OnErr};
ghost use Rattle.std.proofs.Props.{props};
ghost use Rattle.lrlex_base.specs.Spans.{as_span};
ghost use Rattle.lrlex_parser.specs.Outcome.{kind_of};
ghost use Rattle.lrlex_parser.specs.LexErrorKind.{as_kind, as_subject};
ghost use Rattle.lrlex_parser.specs.Duplicates.{AreFaultPlaces, NotesFault, KeepsFaults, fault_index};

use crate::faults::{LexBuildError, LexErrorKind};
use lrlex_base::Span;
use std::alloc::{AllocError, Global};
use std::collections::BTreeMap;

/// What can be declared twice.
#[derive(Clone, Copy, PartialEq, Eq, PartialOrd, Ord)]
pub(crate) enum Named {
    State,
    Rule,
}

impl Named {
    /// The kind of a duplicate's fault.
    fn kind(self) -> LexErrorKind
        ensures { as_kind result ≡ kind_of (as_subject self) }
    {
        match self {
            Named::State => LexErrorKind::DuplicateStartState,
            Named::Rule => LexErrorKind::DuplicateName,
        }
    }
}

// What was declared first: a state or a rule, and where its name is.
type Original = (Named, usize, usize);

/// The index of the fault of an original, if it has one.
fn fault_index(places: &BTreeMap<Original, usize>, named: Named, original: Span) -> Option<usize>
    ensures { result ≡ fault_index places.now (as_subject named) (as_span original) }
{
    match places.get(&(named, original.start(), original.end())) {
        Some(place) => Some(*place),
        None => None,
    }
}

/// Notes the place of the fault of an original.
fn note(
    places: &mut BTreeMap<Original, usize>,
    named: Named,
    original: Span,
    place: usize,
) -> Result<(), AllocError>
    ensures noted { OnOk result
        (NotesFault places.old places.new (as_subject named) (as_span original) place) }
    ensures same { OnErr result (KeepsFaults places.old places.new) }
{
    places.insert((named, original.start(), original.end()), place)?;
    Ok(())
}

/// The faults so far, with the index of the fault of each original that has duplicates.
#[derive(Drop)]
pub(crate) struct Faults {
    pub(crate) list: Vec<LexBuildError>,
    places: BTreeMap<Original, usize>,
    ghost placed: { AreFaultPlaces places list.items } by { Prim.hlevel props },
}

impl Faults {
    ghost use Rattle.lrlex_parser.specs.Duplicates.{tells_duplicates, with_duplicate};
    ghost use Rattle.lrlex_parser.specs.LexBuildError.{fault_kind};
    ghost use Rattle.lrlex_parser.specs.LexParser.{as_fault};

    /// A list of no faults.
    pub(crate) fn new(alloc: Global) -> Faults
        ensures { result.list.items ≡ [] }
    {
        Faults {
            list: Vec::new(alloc),
            places: BTreeMap::new(alloc),
        }
    }

    /// Adds a fault of another kind than duplicates.
    pub(crate) fn push(&mut self, fault: LexBuildError) -> Result<(), AllocError>
        requires { tells_duplicates (as_kind (fault_kind fault)) ≡ false }
        ensures { OnOk result (self.new.list.items ≡ self.old.list.items ++ fault ∷ []) }
    {
        self.list.push(fault)?;
        Ok(())
    }

    /// Adds a duplicate to the fault of its original, which is a new one at the first duplicate.
    pub(crate) fn add_duplicate(
        &mut self,
        alloc: Global,
        named: Named,
        original: Span,
        found: Span,
    ) -> Result<(), AllocError>
        ensures { OnOk result (map as_fault self.new.list.items
            ≡ with_duplicate (as_subject named) (as_span original) (as_span found)
            (map as_fault self.old.list.items)) }
    {
        if let Some(place) = fault_index(&self.places, named, original) {
            let fault = &mut self.list[place];
            fault.spans.push(found)?;
            return Ok(());
        }
        let spans = vec![in alloc; original, found]?;
        let fault = LexBuildError::new(named.kind(), spans);
        self.list.reserve(1)?;
        note(
            &mut self.places,
            named,
            original,
            self.list.as_slice().len(),
        )?;
        self.list.push(fault)?;
        Ok(())
    }
}
