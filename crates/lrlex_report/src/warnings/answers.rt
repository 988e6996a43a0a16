//! What a definition answers of its rules.
ghost use Rattle.std.specs.Prelude.{◌≡◌, IfOk, false, slice_index_or};
ghost use Rattle.lrlex_report.specs.Warnings.{AreAnswers, as_answered, known_of};

use lrlex_base::Numbered;
use lrlex_definition::RuleTable;
use std::alloc::{AllocError, Global};

/// What a definition answers of a rule.
#[derive(Clone, Copy)]
pub(crate) struct Facts {
    pub(crate) may_win: bool,
    pub(crate) is_active: bool,
    pub(crate) is_asked: bool,
}

/// What a definition answers of each rule, by its place.
#[derive(Drop)]
pub(crate) struct Answers {
    may_win: Vec<bool>,
    is_active: Vec<bool>,
    is_asked: Vec<bool>,
}

/// Whether the place is marked.
fn is_marked(marks: &[bool], place: usize) -> bool
    ensures { result ≡ slice_index_or marks.now place false }
{
    match marks.get(place) {
        Some(mark) => *mark,
        None => false,
    }
}

impl Answers {
    /// What the definition answers.
    pub(crate) fn of<S: Numbered>(
        alloc: Global,
        table: &RuleTable<S>,
    ) -> Result<Answers, AllocError>
        ensures { IfOk result (λ a.
            AreAnswers S.number table.now (as_answered a)) }
    {
        Ok(Answers {
            may_win: table.may_win(alloc)?,
            is_active: table.active_somewhere(alloc)?,
            is_asked: table.asked_somewhere(alloc)?,
        })
    }

    /// What is known of the rule at a place.
    pub(crate) fn at(&self, place: usize) -> Facts
        ensures { result ≡ known_of (as_answered self.now) place }
    {
        Facts {
            may_win: is_marked(&self.may_win, place),
            is_active: is_marked(&self.is_active, place),
            is_asked: is_marked(&self.is_asked, place),
        }
    }
}
