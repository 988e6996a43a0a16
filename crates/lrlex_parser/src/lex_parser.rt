ghost use Rattle.std.specs.Prelude.{◌≡◌, ◌-◌, ◌^◌, ◌<◌, ◌∷◌, [], length, map, slice_get, false, OnOk, IfOk, All};
ghost use Rattle.std.specs.Result.{IfErr};
ghost use Rattle.std.specs.List.{flat_map};
ghost use Rattle.std.specs.String.{string_bytes};
ghost use Rattle.std.specs.Option.{option_copied, option_map};
ghost use Rattle.lrlex_rules.specs.declared.flags.LexFlags.{LexFlags};
ghost use Rattle.lrlex_rules.specs.Flags.{allows_comments};
ghost use Rattle.lrlex_parser.specs.Event.{fault_at, span_of, rules_of};
ghost use Rattle.lrlex_parser.specs.Event.Event.{Fatal, Verbatim, NewState};
ghost use Rattle.lrlex_parser.specs.Declaration.{initial, state_event, declared_name, names_in, declared_by};
ghost use Rattle.lrlex_parser.specs.Outcome.{then_fatal, rules_events, events_after, file_events, rule_event, split_event, line_event};
ghost use Rattle.lrlex_parser.specs.LexErrorKind.{as_kind, is_regex_error};
ghost use Rattle.lrlex_parser.specs.Duplicates.{tells_duplicates};
ghost use Rattle.lrlex_parser.specs.LexBuildError.{IsPlaced};
ghost use Rattle.lrlex_parser.specs.DefinitionLaws.{IsLawful};
ghost use Rattle.lrlex_parser.specs.LexParser.{as_piece, as_parts, as_pattern, AddsLine, ReadsLines, AreApart, MarkAt, IsAnswer, AreOwnRefusals, as_definition, refused_of, Represents, Adds, AddsRefused, Reads, EndBy, line_end};

use crate::declaration::{declares_exclusive, is_state_name};
use crate::duplicates::{Faults, Named};
use crate::escapes::trim_head;
use crate::faults::{LexBuildError, LexErrorKind};
use crate::names::{Rules, States};
use crate::rule_line::{Parts, Pattern, read_pattern, split};
use crate::text::{
    Line, Margins, after_mark, begins_with_white, first_word, is_white, next_name, read_section,
    skip_blanks,
};
use lrlex_base::{Numbered, Span};
use lrlex_rules::{LexFlags, Rule, StartState, allows_comments, has_posix_escapes, resolved};
use std::alloc::{AllocError, Global};

/// What a rule text says: start states, rules and flags. A flag that has a default is set.
#[derive(Drop)]
pub struct RuleFile<StorageT> {
    pub states: Vec<StartState>,
    pub rules: Vec<Rule<StorageT>>,
    pub flags: LexFlags,
}

/// Parses a rule text, and compiles the patterns under these flags. The inner `Err` has its faults, up to
/// the first that is neither a duplicate nor verbatim code.
pub fn parse_rule_file<StorageT: Numbered>(
    alloc: Global,
    text: &str,
    flags: LexFlags,
) -> Result<Result<RuleFile<StorageT>, Vec<LexBuildError>>, AllocError>
    ensures answer { IfOk result
        (IsAnswer (as_definition StorageT.number) flags StorageT.greatest text.now) }
    ensures refusals { IfOk result (AreOwnRefusals flags StorageT.greatest text.now) }
    ensures placed { IfOk result (λ answer.
        IfErr answer (λ faults. All (IsPlaced text.now) faults.items)) }
    ensures lawful { IfOk result (λ answer.
        IfOk answer (λ file. IsLawful text.now (as_definition StorageT.number file))) }
    ensures first { IfOk result (λ answer. IfOk answer (λ file.
        slice_get (as_definition StorageT.number file).states 0 ≡ Some initial)) }
{
    let resolved = resolved(&flags);
    let mut parser = LexParser::<StorageT>::new(alloc)?;
    parser.parse(alloc, text, &resolved)?;
    let LexParser {
        states,
        rules,
        faults,
        ..
    } = parser;
    let Faults { list: faults, .. } = faults;
    if !faults.as_slice().is_empty() {
        return Ok(Err(faults));
    }
    let States { list: states, .. } = states;
    let Rules { list: rules, .. } = rules;
    Ok(Ok(RuleFile {
        states,
        rules,
        flags: resolved,
    }))
}

/// What was parsed so far. A fatal fault ends the parse.
#[derive(Drop)]
pub(crate) struct LexParser<'t, StorageT> {
    states: States<'t>,
    rules: Rules<'t, StorageT>,
    pub(crate) faults: Faults,
    pub(crate) is_refused: bool,
}

impl<'t, StorageT: Numbered> LexParser<'t, StorageT> {
    /// A parser that has the state with which each rule file begins.
    pub(crate) fn new(alloc: Global) -> Result<LexParser<'t, StorageT>, AllocError>
        ensures { IfOk result (λ b. (flags : LexFlags) →
            Represents StorageT.number flags b (NewState initial ∷ [])) }
    {
        let first = StartState::new(alloc, 0, "INITIAL", false, Span::new(0, 0))?;
        let mut states = States::new(alloc);
        states.push("INITIAL", first)?;
        Ok(LexParser {
            states,
            rules: Rules::new(alloc),
            faults: Faults::new(alloc),
            is_refused: false,
        })
    }

    /// Parses a rule text.
    fn parse(&mut self, alloc: Global, text: &'t str, flags: &LexFlags) -> Result<(), AllocError>
        requires { length text.now < 2 ^ 64 }
        ensures { OnOk result
            (ReadsLines StorageT.number flags.now StorageT.greatest self.old self.new
            (λ s events. file_events s (allows_comments flags.now) text.now events)) }
    {
        let comments = allows_comments(flags);
        let declared = read_section(alloc, text, 0, comments, Margins::Trimmed)?;
        self.parse_declarations(alloc, declared.lines.as_slice())?;
        match declared.end {
            Some(mark) => self.parse_rules(alloc, text, mark, flags),
            None => self.refuse_unless_ended(alloc, LexErrorKind::PrematureEnd, text.len()),
        }
    }

    /// Parses the lines of the declarations.
    fn parse_declarations(&mut self, alloc: Global, lines: &[Line<'t>]) -> Result<(), AllocError>
        requires { EndBy (2 ^ 64 - 1) lines.now }
        ensures { OnOk result (Reads StorageT.number self.old self.new
            (λ events. events_after state_event events
            (flat_map declared_by (map as_piece lines.now)))) }
    {
        for line in lines {
            if self.is_refused {
                break;
            }
            self.parse_declaration(alloc, *line)?;
        }
        Ok(())
    }

    /// Parses a declaration: `%s` or `%x`, and the names of start states.
    pub(crate) fn parse_declaration(
        &mut self,
        alloc: Global,
        line: Line<'t>,
    ) -> Result<(), AllocError>
        requires fits { line_end line < 2 ^ 64 }
        requires calm { self.old.is_refused ≡ false }
        ensures { OnOk result (Reads StorageT.number self.old self.new
            (λ events. events_after state_event events (declared_by (as_piece line.entry)))) }
    {
        let (word, rest) = first_word(line.text);
        let rest = Line {
            at: line.at + word.len(),
            text: rest,
        };
        let parameters = rest.trim();
        match declares_exclusive(word) {
            Some(exclusive) if !parameters.text.is_empty() => {
                self.declare_start_states(alloc, parameters, exclusive)
            }
            _ => self.refuse(alloc, LexErrorKind::UnknownDeclaration, line.at),
        }
    }

    /// Declares the start states with these names, which single white space characters separate.
    fn declare_start_states(
        &mut self,
        alloc: Global,
        names: Line<'t>,
        exclusive: bool,
    ) -> Result<(), AllocError>
        requires { line_end names < 2 ^ 64 }
        ensures { OnOk result (Reads StorageT.number self.old self.new
            (λ events. events_after state_event events
            (names_in exclusive (as_piece names.entry)))) }
    {
        let end = names.at + names.text.len();
        let mut left = Some(names.text);
        while let Some(rest) = left {
            if self.is_refused {
                break;
            }
            let (first, more) = next_name(rest);
            let name = Line {
                at: end - rest.len(),
                text: first,
            };
            self.declare_start_state(alloc, name, exclusive)?;
            left = more;
        }
        Ok(())
    }

    /// Declares a start state with this name.
    fn declare_start_state(
        &mut self,
        alloc: Global,
        name: Line<'t>,
        exclusive: bool,
    ) -> Result<(), AllocError>
        requires fits { line_end name < 2 ^ 64 }
        requires calm { self.old.is_refused ≡ false }
        ensures { OnOk result (Adds StorageT.number self.old self.new
            (λ events. state_event events (declared_name exclusive (as_piece name.entry)))) }
    {
        if !is_state_name(name.text) {
            return self.refuse(alloc, LexErrorKind::InvalidStartStateName, name.at);
        }
        let span = Span::new(name.at, name.at + name.text.len());
        if let Some(original) = self.states.named(name.text) {
            let first = original.name_span();
            return self.faults.add_duplicate(alloc, Named::State, first, span);
        }
        let id = self.states.list.as_slice().len();
        let state = StartState::new(alloc, id, name.text, exclusive, span)?;
        self.states.push(name.text, state)?;
        Ok(())
    }

    /// Parses the rules section after this mark.
    fn parse_rules(
        &mut self,
        alloc: Global,
        text: &'t str,
        mark: Line,
        flags: &LexFlags,
    ) -> Result<(), AllocError>
        requires fits { length text.now < 2 ^ 64 }
        requires mark { MarkAt 0 text.now mark }
        ensures { OnOk result
            (ReadsLines StorageT.number flags.now StorageT.greatest self.old self.new
            (λ s events. rules_events s text.now events (Some (as_piece mark.entry)))) }
    {
        let section = skip_blanks(after_mark(text, 0, mark));
        let at = text.len() - section.len();
        let comments = allows_comments(flags);
        let rules = read_section(alloc, section, at, comments, Margins::Kept)?;
        self.parse_lines(alloc, rules.lines.as_slice(), flags)?;
        let Some(end) = rules.end else {
            return Ok(());
        };
        let routines = after_mark(section, at, end);
        if is_white(routines) {
            return Ok(());
        }
        self.refuse_unless_ended(alloc, LexErrorKind::RoutinesNotSupported, end.at)
    }

    /// Parses the lines of the rules section.
    fn parse_lines(
        &mut self,
        alloc: Global,
        lines: &[Line<'t>],
        flags: &LexFlags,
    ) -> Result<(), AllocError>
        requires fit { EndBy (2 ^ 64 - 1) lines.now }
        requires apart { AreApart lines.now }
        ensures { OnOk result
            (ReadsLines StorageT.number flags.now StorageT.greatest self.old self.new
            (λ s events. events_after (line_event s) events (map as_piece lines.now))) }
    {
        for line in lines {
            if self.is_refused {
                break;
            }
            self.parse_line(alloc, *line, flags)?;
        }
        Ok(())
    }

    /// Parses a line of the rules section.
    pub(crate) fn parse_line(
        &mut self,
        alloc: Global,
        line: Line<'t>,
        flags: &LexFlags,
    ) -> Result<(), AllocError>
        requires fits { line_end line < 2 ^ 64 }
        requires calm { self.old.is_refused ≡ false }
        ensures { OnOk result
            (AddsLine StorageT.number flags.now StorageT.greatest self.old self.new line.entry.at
            (λ s events. line_event s events (as_piece line.entry))) }
    {
        if begins_with_white(line.text) {
            return self.add_verbatim(alloc, line);
        }
        match split(&self.states, line) {
            Ok(parts) => self.parse_rule(alloc, line.at, parts, flags),
            Err(fatal) => self.refuse(alloc, fatal.kind, fatal.at),
        }
    }

    /// Adds the fault of a line that begins with white space, and goes on.
    fn add_verbatim(&mut self, alloc: Global, line: Line) -> Result<(), AllocError>
        requires fits { line_end line < 2 ^ 64 }
        requires calm { self.old.is_refused ≡ false }
        ensures { OnOk result (Adds StorageT.number self.old self.new
            (λ events. Verbatim (span_of (as_piece line.entry)))) }
    {
        let span = Span::new(line.at, line.at + line.text.len());
        let spans = vec![in alloc; span]?;
        let kind = LexErrorKind::VerbatimNotSupported;
        self.faults.push(LexBuildError::new(kind, spans))?;
        Ok(())
    }

    /// Parses a rule line, which was split into these parts.
    fn parse_rule(
        &mut self,
        alloc: Global,
        at: usize,
        parts: Parts<'t>,
        flags: &LexFlags,
    ) -> Result<(), AllocError>
        requires { self.old.is_refused ≡ false }
        ensures { OnOk result
            (AddsLine StorageT.number flags.now StorageT.greatest self.old self.new at
            (λ s events. split_event s events at (Ok (as_parts parts.entry)))) }
    {
        if let Some(original) = self.rules.named(parts.label.name) {
            let first = original.name_span();
            let found = parts.label.span;
            return self.faults.add_duplicate(alloc, Named::Rule, first, found);
        }
        let posix = has_posix_escapes(flags);
        let head = trim_head(parts.head);
        match read_pattern(alloc, &self.states, at, head, posix)? {
            Ok(pattern) => self.add_rule(alloc, at, parts, pattern, flags),
            Err(fatal) => self.refuse(alloc, fatal.kind, fatal.at),
        }
    }

    /// Adds a rule with these parts and this pattern.
    fn add_rule(
        &mut self,
        alloc: Global,
        at: usize,
        parts: Parts<'t>,
        pattern: Pattern,
        flags: &LexFlags,
    ) -> Result<(), AllocError>
        requires { self.old.is_refused ≡ false }
        ensures { OnOk result
            (AddsLine StorageT.number flags.now StorageT.greatest self.old self.new at
            (λ s events. rule_event s (rules_of events) at
            (as_parts parts.entry) (as_pattern pattern))) }
    {
        let Some(id) = StorageT::of_count(self.rules.list.as_slice().len()) else {
            return self.refuse(alloc, LexErrorKind::TooManyRules, at);
        };
        let name = owned(alloc, parts.label.name)?;
        let Pattern { start_states, text } = pattern;
        match Rule::new(
            alloc,
            Some(id),
            name,
            parts.label.span,
            text,
            start_states,
            parts.target,
            flags,
        )? {
            Ok(rule) => {
                self.rules.push(parts.label.name, rule)?;
                Ok(())
            }
            Err(error) => self.refuse_pattern(alloc, error, at),
        }
    }

    /// Ends the parse with a fault that is neither `regex`'s nor that of duplicates.
    pub(crate) fn refuse(
        &mut self,
        alloc: Global,
        kind: LexErrorKind,
        at: usize,
    ) -> Result<(), AllocError>
        requires calm { self.old.is_refused ≡ false }
        requires own { is_regex_error (as_kind kind) ≡ false }
        requires lone { tells_duplicates (as_kind kind) ≡ false }
        ensures adds { OnOk result (Adds StorageT.number self.old self.new
            (λ events. Fatal (fault_at (as_kind kind) at))) }
        ensures keeps { OnOk result (refused_of self.new ≡ refused_of self.old) }
    {
        let spans = vec![in alloc; Span::new(at, at)]?;
        self.faults.push(LexBuildError::new(kind, spans))?;
        self.is_refused = true;
        Ok(())
    }

    /// Ends the parse with a fault, unless an earlier one has ended it. The fault is neither `regex`'s nor that of duplicates.
    fn refuse_unless_ended(
        &mut self,
        alloc: Global,
        kind: LexErrorKind,
        at: usize,
    ) -> Result<(), AllocError>
        requires own { is_regex_error (as_kind kind) ≡ false }
        requires lone { tells_duplicates (as_kind kind) ≡ false }
        ensures reads { OnOk result (Reads StorageT.number self.old self.new
            (λ events. then_fatal events (as_kind kind) at)) }
        ensures keeps { OnOk result (refused_of self.new ≡ refused_of self.old) }
    {
        if self.is_refused {
            return Ok(());
        }
        self.refuse(alloc, kind, at)
    }

    /// Ends the parse at a pattern that `regex` refuses.
    fn refuse_pattern(
        &mut self,
        alloc: Global,
        error: regex::Error,
        at: usize,
    ) -> Result<(), AllocError>
        requires { self.old.is_refused ≡ false }
        ensures { OnOk result (AddsRefused StorageT.number self.old self.new error at) }
    {
        let spans = vec![in alloc; Span::new(at, at)]?;
        let kind = LexErrorKind::RegexError(error);
        self.faults.push(LexBuildError::new(kind, spans))?;
        self.is_refused = true;
        Ok(())
    }
}

/// A name of its own, if there is one.
fn owned(alloc: Global, name: Option<&str>) -> Result<Option<String>, AllocError>
    ensures { IfOk result (λ copy. option_map string_bytes copy ≡ option_copied name.entry) }
{
    match name {
        Some(name) => {
            let copy = String::from_str(alloc, name)?;
            Ok(Some(copy))
        }
        None => Ok(None),
    }
}
