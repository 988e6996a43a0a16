ghost use Rattle.std.specs.Prelude.{◌≡◌, IfOk, string_bytes};

use lrlex_base::Span;
use std::alloc::{AllocError, Global};

/// What a rule does to the stack of start states, after its lexeme.
#[derive(Clone, Copy, PartialEq, Eq, Debug)]
pub enum StartStateOperation {
    /// The stack becomes the rule's target alone.
    ReplaceStack,
    /// The target becomes the new top.
    Push,
    /// The top is removed, whatever it is. An emptied stack becomes state 0 alone.
    Pop,
}

/// The id of a start state.
#[derive(Clone, Copy, Debug)]
pub struct StartStateId {
    number: usize,
}

impl StartStateId {
    ghost use Rattle.lrlex_rules.specs.RuleParts.{state_number};

    /// The id with this number.
    pub fn new(id: usize) -> StartStateId
        ensures { state_number result ≡ id }
    {
        StartStateId { number: id }
    }

    /// The id's number.
    pub fn id(&self) -> usize
        ensures { result ≡ state_number self.now }
    {
        self.number
    }
}

/// A start state of a lexer. In an inclusive state the rules that list no start states are active too.
#[derive(Debug, Drop)]
pub struct StartState {
    pub(crate) id: usize,
    pub(crate) name: String,
    pub(crate) exclusive: bool,
    pub(crate) name_span: Span,
}

impl StartState {
    ghost use Rattle.lrlex_base.specs.Spans.{as_span};
    ghost use Rattle.lrlex_rules.specs.RuleParts.{as_state};

    /// A start state with a copy of this name, which is at `name_span` in the rule text.
    pub fn new(
        alloc: Global,
        id: usize,
        name: &str,
        exclusive: bool,
        name_span: Span,
    ) -> Result<StartState, AllocError>
        ensures { IfOk result (λ s. as_state s ≡ record {
          id = id;
          name = name.now;
          exclusive = exclusive;
          name_span = as_span name_span;
        }) }
    {
        let name = String::from_str(alloc, name)?;
        Ok(StartState {
            id,
            name,
            exclusive,
            name_span,
        })
    }

    /// The state's id, by which rules refer to it.
    pub fn id(&self) -> usize
        ensures { result ≡ (as_state self.now).id }
    {
        self.id
    }

    /// The state's name.
    pub fn name(&self) -> &str
        ensures { result.now ≡ (as_state self.now).name }
    {
        self.name.as_str()
    }

    /// Whether only the rules that list the state are active in it.
    pub fn exclusive(&self) -> bool
        ensures { result ≡ (as_state self.now).exclusive }
    {
        self.exclusive
    }

    /// Where the state's name is in the rule text. `INITIAL`, which no text declares, has 0..0.
    pub fn name_span(&self) -> Span
        ensures { as_span result ≡ (as_state self.now).name_span }
    {
        self.name_span
    }
}
