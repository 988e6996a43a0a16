//! The step that tells all faults of a rule text.
use crate::replay::building::Definition;
use crate::replay::cases::facts::tell_faults;
use crate::replay::cases::reading::{Trouble, flags_in, text_in};
use crate::replay::cases::told::Told;
use lrlex::LexBuildError;
use serde_json::Value;
use std::alloc::{AllocError, Global};

/// All faults of the rule text of a case, with the flags and the ids that it names.
fn all_faults(alloc: Global, case: &Value) -> Result<Vec<LexBuildError>, AllocError> {
    let (rules, flags) = (text_in(case, "rules"), flags_in(case));
    match text_in(case, "storage") {
        "u8" => Definition::<u8>::all_faults(alloc, rules, flags),
        "u16" => Definition::<u16>::all_faults(alloc, rules, flags),
        _ => Definition::<u32>::all_faults(alloc, rules, flags),
    }
}

/// Tells them, if there is a case.
pub fn tell_all_faults(told: &mut Told, case: Option<&Value>) -> Result<(), Trouble> {
    if let Some(case) = case {
        let faults = all_faults(told.alloc(), case)?;
        tell_faults(told, faults.as_slice());
    }
    Ok(())
}
