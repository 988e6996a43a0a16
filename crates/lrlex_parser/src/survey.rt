ghost use Rattle.std.specs.Prelude.{◌≡◌, ◌^◌, ◌-◌, ◌∷◌, [], List, All, map, false, OnOk, IfOk};
ghost use Rattle.std.specs.Option.{option_map};
ghost use Rattle.lrlex_rules.specs.declared.flags.LexFlags.{LexFlags};
ghost use Rattle.lrlex_parser.specs.Event.{Event};
ghost use Rattle.lrlex_parser.specs.Event.Event.{NewState};
ghost use Rattle.lrlex_parser.specs.Declaration.{initial};
ghost use Rattle.lrlex_parser.specs.AllFaults.{all_after, declaration_events, then_fault};
ghost use Rattle.lrlex_parser.specs.LexParser.{as_piece, as_fatal, AreApart, EndBy};
ghost use Rattle.lrlex_parser.specs.Survey.{IsCalm, IsAtFault, AddsEvents, AddsRules, IsToldBy};
ghost use Rattle.lrlex_parser.specs.LexBuildError.{IsPlaced};
ghost use Rattle.lrlex_parser.specs.LexBuildResult.{AreAllFaults, BeginAsRead, as_faults};

use crate::duplicates::Faults;
use crate::fatal::Fatal;
use crate::faults::LexBuildError;
use crate::lex_parser::LexParser;
use crate::sections::{Sections, read_sections};
use crate::text::Line;
use lrlex_base::Numbered;
use lrlex_rules::{LexFlags, allows_comments, resolved};
use std::alloc::{AllocError, Global};
use std::mem::replace;

/// All faults of a rule text, in the order in which a parser meets them. Patterns are compiled under these flags.
///
/// `parse_rule_file` stops at the first fault that is neither a duplicate nor verbatim code. Here such a fault ends its
/// line alone, and the next line is read after it.
pub fn all_faults<StorageT: Numbered>(
    alloc: Global,
    text: &str,
    flags: LexFlags,
) -> Result<Vec<LexBuildError>, AllocError>
    ensures exact { IfOk result (AreAllFaults flags StorageT.greatest text.now) }
    ensures begins { IfOk result (λ faults.
        BeginAsRead flags StorageT.greatest text.now (as_faults faults)) }
    ensures placed { IfOk result (λ faults. All (IsPlaced text.now) faults.items) }
{
    let resolved = resolved(&flags);
    let Sections {
        declared,
        rules,
        fault,
    } = read_sections(alloc, text, allows_comments(&resolved))?;
    let mut survey = Survey::<StorageT>::new(alloc)?;
    survey.read_declarations(alloc, declared.as_slice())?;
    survey.read_rules(alloc, rules.as_slice(), &resolved)?;
    survey.finish(alloc, fault)
}

/// What was read so far of a rule text, past its fatal faults.
#[derive(Drop)]
pub(crate) struct Survey<'t, StorageT> {
    parser: LexParser<'t, StorageT>,
    /// The faults up to the last fatal one.
    told: Vec<LexBuildError>,
}

impl<'t, StorageT: Numbered> Survey<'t, StorageT> {
    /// A survey that has the state with which each rule file begins.
    fn new(alloc: Global) -> Result<Survey<'t, StorageT>, AllocError>
        ensures stands { IfOk result (λ v. (flags : LexFlags) →
            IsCalm StorageT.number flags v (NewState initial ∷ [])) }
        ensures calm { IfOk result (λ v. v.parser.is_refused ≡ false) }
    {
        Ok(Survey {
            parser: LexParser::new(alloc)?,
            told: Vec::new(alloc),
        })
    }

    /// Reads the lines of the declarations.
    fn read_declarations(&mut self, alloc: Global, lines: &[Line<'t>]) -> Result<(), AllocError>
        requires fit { EndBy (2 ^ 64 - 1) lines.now }
        requires calm { self.old.parser.is_refused ≡ false }
        ensures adds { OnOk result (AddsEvents StorageT.number self.old self.new
            (λ events. all_after declaration_events events (map as_piece lines.now))) }
        ensures calm { OnOk result (self.new.parser.is_refused ≡ false) }
    {
        for line in lines {
            self.parser.parse_declaration(alloc, *line)?;
            self.pass_over(alloc)?;
        }
        Ok(())
    }

    /// Reads the lines of the rules section.
    fn read_rules(
        &mut self,
        alloc: Global,
        lines: &[Line<'t>],
        flags: &LexFlags,
    ) -> Result<(), AllocError>
        requires fit { EndBy (2 ^ 64 - 1) lines.now }
        requires apart { AreApart lines.now }
        requires calm { self.old.parser.is_refused ≡ false }
        ensures adds { OnOk result (AddsRules StorageT.number flags.now StorageT.greatest
            self.old self.new lines.now) }
        ensures calm { OnOk result (self.new.parser.is_refused ≡ false) }
    {
        for line in lines {
            self.parser.parse_line(alloc, *line, flags)?;
            self.pass_over(alloc)?;
        }
        Ok(())
    }

    /// Puts the faults aside after a fatal one, so that the parser goes on with the states and rules that it has.
    fn pass_over(&mut self, alloc: Global) -> Result<(), AllocError>
        ensures passes { OnOk result ((flags : LexFlags) (events : List Event) →
            IsAtFault StorageT.number flags self.old events
            → IsCalm StorageT.number flags self.new events) }
        ensures calm { OnOk result (self.new.parser.is_refused ≡ false) }
    {
        if self.parser.is_refused {
            let Faults { mut list, .. } = replace(&mut self.parser.faults, Faults::new(alloc));
            self.told.append(&mut list)?;
            self.parser.is_refused = false;
        }
        Ok(())
    }

    /// All faults, where the text as a whole has this one.
    fn finish(self, alloc: Global, fault: Option<Fatal>) -> Result<Vec<LexBuildError>, AllocError>
        requires { self.parser.is_refused ≡ false }
        ensures { IfOk result (λ told. (flags : LexFlags) (events : List Event) →
            IsCalm StorageT.number flags self.entry events
            → IsToldBy flags (then_fault events (option_map as_fatal fault)) told.items) }
    {
        let Survey {
            mut parser,
            mut told,
        } = self;
        if let Some(fault) = fault {
            parser.refuse(alloc, fault.kind, fault.at)?;
        }
        let LexParser { faults, .. } = parser;
        let Faults { mut list, .. } = faults;
        told.append(&mut list)?;
        Ok(told)
    }
}
