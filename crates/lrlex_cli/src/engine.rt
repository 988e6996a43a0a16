//! Builds a lexer from a rule text, lexes an input and writes a line for each item.
ghost use Rattle.std.specs.Prelude.{◌≡◌, ℕ, All, List, Option, is_err, true};
ghost use Rattle.std.specs.List.{list_any};
ghost use Rattle.lrlex_base.specs.Spans.{Fits, as_span};
ghost use Rattle.lrlex_base.specs.Edits.{edited};
ghost use Rattle.lrlex_cli.specs.Engine.{IsEngineRun, EndsWriting, EndsLexing, IsReport};
ghost use Rattle.lrlex_cli.specs.Writing.{Writes};
ghost use Rattle.lrlex_cli.specs.declared.engine.EngineFault.TheVariants.{Memory};
ghost use Rattle.lrlex_parser.specs.LexBuildError.{IsPlaced};
ghost use Rattle.lrlex.specs.Active.{is_state};
ghost use Rattle.lrlex.specs.Views.{definition_of};
ghost use Rattle.lrlex_cli.specs.FaultLines.{fault_lines};

use crate::fault_lines::fault_lines;
use crate::lines::write_lines;
use crate::messages::{CANNOT_WRITE, OUT_OF_MEMORY};
use crate::scanning::{first_pass, second_pass};
use crate::writing::{ROOM, write_bytes};
use lrlex::{LRLexError, LRNonStreamingLexerDef, LexBuildError, LexFlags};
use lrlex_base::{Edit, LexerTypes};
use std::alloc::{AllocError, Global};
use std::error::Error;
use std::io::Write;
use std::{fmt, io};

/// How a run ended.
#[derive(Debug, Drop)]
pub enum Ended {
    /// The whole text was lexed.
    Lexed,
    /// Lexing stopped at an error. Its line was written last.
    Stopped,
    /// The rule text has these errors, and nothing was written.
    Refused(Vec<LexBuildError>),
}

/// Why the lines of a run or a report weren't all written.
#[derive(Debug, Drop)]
pub enum EngineFault {
    /// Out of memory, and nothing was written.
    Memory,
    /// The writer failed, or took nothing. The beginning of the text was written.
    Write(io::Error),
}

impl fmt::Display for EngineFault {
    ghost use Rattle.std.specs.Prelude.{Some};
    ghost use Rattle.lrlex_cli.specs.Engine.{engine_fault_text};

    ghost output = { λ e. Some (engine_fault_text e) };

    fn fmt<W: fmt::Write>(&self, f: &mut fmt::Formatter<W>) -> fmt::Result {
        f.write_str(match self {
            EngineFault::Memory => OUT_OF_MEMORY,
            EngineFault::Write(_) => CANNOT_WRITE,
        })
    }
}

impl Error for EngineFault {}

impl From<AllocError> for EngineFault {
    ghost from_gives = { λ _ e. e ≡ Memory };

    fn from(_fault: AllocError) -> EngineFault {
        EngineFault::Memory
    }
}

/// How a run ended whose lines were written with this result; `stopped` is whether an error stopped it.
fn ending(written: io::Result<()>, stopped: bool) -> Result<Ended, EngineFault>
    ensures { (old new : Option (List ℕ)) (text : List ℕ) → Writes old new written text
        → EndsWriting old new result text stopped }
{
    match written {
        Ok(()) if stopped => Ok(Ended::Stopped),
        Ok(()) => Ok(Ended::Lexed),
        Err(fault) => Err(EngineFault::Write(fault)),
    }
}

/// Whether one of the items is an error.
fn has_error<X>(items: &[Result<X, LRLexError>]) -> bool
    ensures { result ≡ list_any (λ item. is_err item) items.now }
{
    items.iter().any(|item| item.is_err())
}

/// Lexes the input and writes a line for each item. No list of the items is kept. The definition has start state 0.
fn write_lexed<L: LexerTypes<LexErrorT = LRLexError>, W: Write>(
    alloc: Global,
    definition: &LRNonStreamingLexerDef<L>,
    input: &str,
    out: &mut W,
) -> Result<Ended, EngineFault>
    requires { is_state (definition_of L.StorageT.number definition.now) 0 ≡ true }
    ensures { EndsLexing (definition_of L.StorageT.number definition.now) input.now
        (W.contents out.old) (W.contents out.new) result }
{
    let mut waiting = Vec::with_capacity(alloc, ROOM)?;
    let mut scanner = definition.scanner(alloc, input)?;
    let first = first_pass(alloc, &mut scanner)?;
    let written = second_pass::<L::StorageT, W>(
        alloc,
        &mut scanner,
        first,
        definition.rule_table(),
        input,
        &mut waiting,
        out,
    );
    ending(written, first.stopped())
}

/// Lexes the old text, lexes again after the edit, and writes a line for each item of the new text.
fn write_relexed<L: LexerTypes<LexErrorT = LRLexError>, W: Write>(
    alloc: Global,
    definition: &LRNonStreamingLexerDef<L>,
    old: &str,
    edit: &Edit<'_>,
    new: &str,
    out: &mut W,
) -> Result<Ended, EngineFault>
    requires fits { Fits old.now edit.now.removed }
    requires gives { new.now ≡ edited old.now (as_span edit.now.removed) edit.now.put.now }
    ensures { EndsLexing (definition_of L.StorageT.number definition.now) new.now
        (W.contents out.old) (W.contents out.new) result }
{
    let lexed = definition.run(alloc, old)?.relex(alloc, edit, new)?;
    let mut waiting = Vec::with_capacity(alloc, ROOM)?;
    let items = lexed.items();
    let written = write_lines::<L::StorageT, L::LexemeT, W>(
        out,
        &mut waiting,
        definition.rule_table(),
        new,
        items,
    );
    ending(written, has_error(items))
}

/// Builds a lexer from the rule text, lexes the input and writes a line for each item, which ends with U+000A.
/// The line of a lexeme is its rule's name, a blank and the matched text. The line of an error is the text that it displays.
///
/// All memory is asked for before the first line is written. After an error of the writer nothing is tried again.
pub fn run<L: LexerTypes<LexErrorT = LRLexError>, W: Write>(
    alloc: Global,
    rules: &str,
    flags: LexFlags,
    input: &str,
    out: &mut W,
) -> Result<Ended, EngineFault>
    ensures { IsEngineRun
        (record { greatest = L.StorageT.greatest; flags = flags; rules = rules.now; input = input.now })
        (W.contents out.old) (W.contents out.new) result }
{
    match LRNonStreamingLexerDef::<L>::new_with_options(alloc, rules, flags)? {
        Ok(definition) => write_lexed::<L, W>(alloc, &definition, input, out),
        Err(faults) => Ok(Ended::Refused(faults)),
    }
}

/// Returns and writes what `run` does for the new text, by lexing the old text and then again after the edit.
/// Nothing is written about the old text.
///
/// The edit fits the old text and makes the new one.
pub fn run_edited<L: LexerTypes<LexErrorT = LRLexError>, W: Write>(
    alloc: Global,
    rules: &str,
    flags: LexFlags,
    old: &str,
    edit: &Edit<'_>,
    new: &str,
    out: &mut W,
) -> Result<Ended, EngineFault>
    requires fits { Fits old.now edit.now.removed }
    requires gives { new.now ≡ edited old.now (as_span edit.now.removed) edit.now.put.now }
    ensures { IsEngineRun
        (record { greatest = L.StorageT.greatest; flags = flags; rules = rules.now; input = new.now })
        (W.contents out.old) (W.contents out.new) result }
{
    match LRNonStreamingLexerDef::<L>::new_with_options(alloc, rules, flags)? {
        Ok(definition) => write_relexed::<L, W>(alloc, &definition, old, edit, new, out),
        Err(faults) => Ok(Ended::Refused(faults)),
    }
}

/// Writes a line for each error of a rule text: `L:C: TEXT`, where `L:C` is the start of the error's first span.
/// Lines and columns count from 1, columns in characters, and U+000A alone ends a line. The places of further spans follow, as
/// `, again at L:C` and then `, L:C` each. The reason that `regex` gives for a pattern isn't written.
///
/// Each error has a span, and all its spans fit the rule text, as in the errors of a build from it.
/// The lines are all made before the first is written. After an error of the writer nothing is tried again.
pub fn report<W: Write>(
    alloc: Global,
    faults: &[LexBuildError],
    rules: &str,
    err: &mut W,
) -> Result<(), EngineFault>
    requires { All (IsPlaced rules.now) faults.now }
    ensures { IsReport (W.contents err.old) (W.contents err.new) result
        (fault_lines rules.now faults.now) }
{
    let Ok(text) = fault_lines(alloc, rules, faults) else {
        return Err(EngineFault::Memory);
    };
    write_bytes(err, text.as_bytes()).map_err(EngineFault::Write)
}
