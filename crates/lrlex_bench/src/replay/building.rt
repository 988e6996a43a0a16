//! The definition that a case describes.
use crate::replay::cases::facts::Refusal;
use crate::replay::cases::parts::{rules_of, states_of};
use crate::replay::cases::reading::{budget_in, flags_in, list_in, text_in};
use lrlex::{
    Budget, DefaultLexerTypes, LRNonStreamingLexerDef, LexBuildResult, LexFlags, LexerDef,
};
use serde_json::Value;
use std::alloc::{AllocError, Global};

/// A definition with ids of this type.
pub type Definition<T> = LRNonStreamingLexerDef<DefaultLexerTypes<T>>;

/// The definition that a case builds, or why there is none.
pub type Built = Result<Definition<u32>, Refusal>;

/// Puts the definition together from states and rules.
fn from_parts(alloc: Global, parts: &Value, flags: &LexFlags) -> Result<Built, AllocError> {
    let states = states_of(alloc, list_in(parts, "states"))?;
    match rules_of(alloc, list_in(parts, "rules"), flags)? {
        Ok(rules) => Ok(Ok(Definition::<u32>::from_rules(alloc, states, rules)?)),
        Err(place) => Ok(Err(Refusal::Rule(place))),
    }
}

/// What reading a rule text gave.
fn built_of(
    read: Result<LexBuildResult<Definition<u32>>, AllocError>,
) -> Result<Built, AllocError> {
    match read? {
        Ok(definition) => Ok(Ok(definition)),
        Err(faults) => Ok(Err(Refusal::Faulty(faults))),
    }
}

/// Builds the definition of the case, from its parts where it has some, else from its rule text.
pub fn build(alloc: Global, case: &Value) -> Result<Built, AllocError> {
    let flags = flags_in(case);
    match case.get("from_rules") {
        Some(parts) => from_parts(alloc, parts, &flags),
        None => built_of(Definition::<u32>::new_with_options(alloc, text_in(case, "rules"), flags)),
    }
}

/// Builds the definition of a case with steps, with tables under its first budget.
fn build_once(alloc: Global, case: &Value) -> Result<Built, AllocError> {
    match budget_in(case, "budget") {
        Some(budget) => built_of(Definition::<u32>::new_with_budget(
            alloc,
            text_in(case, "rules"),
            flags_in(case),
            budget,
        )),
        None => build(alloc, case),
    }
}

/// Builds the definition of a case with steps, with tables under its budgets.
pub fn build_within(alloc: Global, case: &Value) -> Result<Built, AllocError> {
    let built = build_once(alloc, case)?;
    match (built, budget_in(case, "again")) {
        (Ok(definition), Some(budget)) => Ok(Ok(definition.with_budget(alloc, budget)?)),
        (built, _) => Ok(built),
    }
}
