//! Which rules may win.
ghost use Rattle.std.specs.Prelude.{◌≡◌, ℕ, true, false, length, IfOk, slice_index_or};
ghost use Rattle.lrlex_definition.specs.Never.{NeverWinsAnywhere, WinsAtNoRow};
ghost use Rattle.lrlex_definition.specs.RuleTable.{definition_by};

use crate::rule_table::RuleTable;
use lrlex_base::Numbered;
use lrlex_table::may_win_in;
use std::alloc::{AllocError, Global};

impl<S: Numbered> RuleTable<S> {
    /// For each rule, by its place, whether it may win in some start state.
    ///
    /// False where the rule wins no text in any start state: a keyword below a rule that matches all that it does, a pattern that
    /// matches no byte, or a rule that is active in no start state. Also true of a rule of which that isn't known, since it has no
    /// table with the rules before it.
    pub fn may_win(&self, alloc: Global) -> Result<Vec<bool>, AllocError>
        ensures never { IfOk result (λ may. (k : ℕ) → slice_index_or may.items k true ≡ false →
            NeverWinsAnywhere (definition_by S.number self.now) k) }
        ensures struck { IfOk result (λ may. (k : ℕ) → WinsAtNoRow self.now k →
            slice_index_or may.items k false ≡ false) }
        ensures each { IfOk result (λ may. length may.items ≡ length self.now.rules.items) }
    {
        let may_win = may_win_in(alloc, &self.tables, &self.lists, self.rules.len())?;
        Ok(may_win)
    }
}
