//! The rule table that a rule text says.
ghost use Rattle.std.specs.Prelude.{◌≡◌, ◌+◌, ◌≤◌, All, true, IfOk, IfErr};
ghost use Rattle.lrlex_parser.specs.DefinitionLaws.{IsLawful};
ghost use Rattle.lrlex_parser.specs.LexBuildError.{IsPlaced};
ghost use Rattle.lrlex_parser.specs.LexBuildResult.{IsAnswer, AreOwnRefusals};
ghost use Rattle.lrlex_table.specs.Rows.{rows_held};
ghost use Rattle.lrlex_rules.specs.Active.{is_state};
ghost use Rattle.lrlex_definition.specs.RuleTable.{definition_by};
ghost use Rattle.lrlex_definition.specs.StateTables.{chains_rows};

use lrlex_base::Numbered;
use lrlex_definition::RuleTable;
use lrlex_parser::{LexBuildResult, RuleFile, parse_rule_file};
use lrlex_rules::LexFlags;
use lrlex_table::Budget;
use std::alloc::{AllocError, Global};

/// The rule table of a rule text, with tables that cost no more than this. The inner `Err` has its faults, up to the
/// first that is neither a duplicate nor verbatim code.
pub(crate) fn read_table<S: Numbered>(
    alloc: Global,
    text: &str,
    flags: LexFlags,
    budget: Budget,
) -> Result<LexBuildResult<RuleTable<S>>, AllocError>
    ensures answer { IfOk result (IsAnswer (definition_by S.number) flags S.greatest
        text.now) }
    ensures refusals { IfOk result (AreOwnRefusals flags S.greatest text.now) }
    ensures placed { IfOk result (λ built. IfErr built
        (λ faults. All (IsPlaced text.now) faults.items)) }
    ensures lawful { IfOk result (λ built. IfOk built
        (λ t. IsLawful text.now (definition_by S.number t))) }
    ensures initial { IfOk result (λ built. IfOk built
        (λ t. is_state (definition_by S.number t) 0 ≡ true)) }
    ensures paid { IfOk result (λ built. IfOk built
        (λ t. rows_held t.tables.items + chains_rows t.chains.items ≤ budget.rows)) }
{
    match parse_rule_file::<S>(alloc, text, flags)? {
        Ok(file) => {
            let RuleFile {
                states,
                rules,
                flags,
            } = file;
            Ok(Ok(RuleTable::made(alloc, states, rules, flags, budget)?))
        }
        Err(faults) => Ok(Err(faults)),
    }
}
