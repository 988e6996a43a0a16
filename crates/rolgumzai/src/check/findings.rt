//! What is wrong with a rule text, and what its author hardly meant.
use crate::files::Definition;
use lrlex::{LexBuildError, LexFlags, LexerDef};
use lrlex_report::{Warning, WarningKind, faults_text, warnings_of, warnings_text};
use std::alloc::{AllocError, Global};

/// What is found of a rule text: all its faults, or else its warnings.
#[derive(Drop)]
pub enum Findings {
    Faults(Vec<LexBuildError>),
    Warnings(Vec<Warning>),
}

impl Findings {
    /// What is found of a rule text. Warnings of allowed kinds are left out.
    pub fn of(
        alloc: Global,
        text: &str,
        flags: LexFlags,
        allowed: &[WarningKind],
    ) -> Result<Findings, AllocError> {
        if let Ok(definition) = Definition::new_with_options(alloc, text, flags)? {
            let mut warnings = warnings_of(alloc, text, definition.rule_table())?;
            warnings.retain(|warning| !allowed.contains(&warning.kind()));
            return Ok(Findings::Warnings(warnings));
        }
        let faults = Definition::all_faults(alloc, text, flags)?;
        Ok(Findings::Faults(faults))
    }

    /// Whether these are faults, or warnings where those count as faults.
    pub fn is_faulty(&self, denies: bool) -> bool {
        match self {
            Findings::Faults(_) => true,
            Findings::Warnings(warnings) => denies && !warnings.is_empty(),
        }
    }

    /// The findings of a rule text of this file, as people read them.
    pub fn shown(&self, alloc: Global, file: &str, text: &str) -> Result<String, AllocError> {
        match self {
            Findings::Faults(faults) => faults_text(alloc, file, text, faults),
            Findings::Warnings(warnings) => warnings_text(alloc, file, text, warnings),
        }
    }
}
