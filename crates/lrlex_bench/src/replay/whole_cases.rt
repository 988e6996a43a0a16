//! Tells all that comes of the rules and the input of a case without steps.
ghost use Rattle.std.specs.Prelude.{◌≡◌};
ghost use Rattle.lrlex.specs.Lexer.{lexer_text};

use crate::replay::building::{Definition, build};
use crate::replay::cases::facts::{
    Item, tell_counts, tell_faults, tell_items, tell_refusal, tell_rules, tell_sets, tell_states,
};
use crate::replay::cases::parts::ids_of;
use crate::replay::cases::printing::{print_told, told_of_case};
use crate::replay::cases::reading::{Trouble, flags_in, text_in};
use crate::replay::cases::told::Told;
use crate::replay::items::{item_seen, item_seen_u8, item_seen_u16};
use crate::replay::lexers::LexerOf;
use crate::replay::runs::most_of;
use lrlex::{Budget, LexerDef};
use lrlex_base::{NewlineCache, NonStreamingLexer, Span};
use serde_json::Value;
use std::alloc::{AllocError, Global};
use std::io;

/// What lexing an input gives: the items, and how many tiles the run has, the most entries of a stack and how many matches it
/// asked for.
type Lexed = (Vec<Item>, [usize; 3]);

/// Line and column of both ends of a span of the lexer of this input; zeros where it doesn't fit.
fn ends_of(lexer: &LexerOf<'_, '_>, span: Span, input: &str) -> ((usize, usize), (usize, usize))
    requires { lexer_text lexer.now ≡ input.now }
{
    if span.fits(input) {
        lexer.line_col(span)
    } else {
        ((0, 0), (0, 0))
    }
}

/// Tells lines and columns where each item begins and ends, by the lexer of this input.
fn tell_ends(told: &mut Told, lexer: &LexerOf<'_, '_>, input: &str, items: &[Item])
    requires { lexer_text lexer.now ≡ input.now }
{
    told.list("linecols");
    for item in items {
        told.pairs(ends_of(lexer, item.span(), input));
    }
    told.close();
}

/// Tells the items of the input, with lines and columns.
fn tell_placed(told: &mut Told, input: &str, items: &[Item]) -> Result<(), Trouble> {
    tell_items(told, items);
    let newlines = NewlineCache::from_str(told.alloc(), input)?;
    let lexer = LexerOf::new(input, Vec::new(told.alloc()), newlines);
    tell_ends(told, &lexer, input, items);
    Ok(())
}

/// Tells what lexing the input gives, with lines and columns.
fn tell_lexed(
    told: &mut Told,
    input: &str,
    lexed: Result<Lexed, AllocError>,
) -> Result<(), Trouble> {
    let (items, counts) = lexed?;
    tell_placed(told, input, items.as_slice())?;
    tell_counts(told, counts);
    Ok(())
}

/// What lexing the input by this definition gives, each item as this function tells it.
macro_rules! lexed {
    ($alloc:expr, $definition:expr, $input:expr, $seen:expr) => {{
        let run = $definition.run($alloc, $input)?;
        let counts = [run.tiles(), run.entries_peak(), most_of(run.asked())];
        let items = run.items().iter().map($seen).collect($alloc)?;
        Ok((items, counts))
    }};
}

/// Tells the definition, and what lexing the input gives, as this function does it: by the definition's tables, and without any,
/// so that each rule is asked.
macro_rules! tell_both {
    ($told:expr, $definition:expr, $input:expr, $lexed:expr) => {{
        let alloc = $told.alloc();
        tell_states($told, $definition.iter_start_states().as_slice());
        tell_rules($told, $definition.rules());
        tell_lexed($told, $input, $lexed(alloc, &$definition, $input))?;
        let asking = $definition.with_budget(alloc, Budget::new(0, 0))?;
        tell_lexed($told, $input, $lexed(alloc, &asking, $input))
    }};
}

/// Tells all that comes of a case that has a rule text and sets no token ids: its faults, or its definition, as this function tells
/// it.
macro_rules! tell_text {
    ($told:expr, $case:expr, $id:ty, $tell:expr) => {
        match Definition::<$id>::new_with_options(
            $told.alloc(),
            text_in($case, "rules"),
            flags_in($case),
        )? {
            Ok(definition) => $tell($told, definition, text_in($case, "input")),
            Err(faults) => {
                tell_faults($told, faults.as_slice());
                Ok(())
            }
        }
    };
}

/// What lexing the input by this definition gives.
fn lexed(alloc: Global, definition: &Definition<u32>, input: &str) -> Result<Lexed, AllocError> {
    lexed!(alloc, definition, input, item_seen)
}

/// The same with ids of type `u8`.
fn lexed_u8(alloc: Global, definition: &Definition<u8>, input: &str) -> Result<Lexed, AllocError> {
    lexed!(alloc, definition, input, item_seen_u8)
}

/// The same with ids of type `u16`.
fn lexed_u16(
    alloc: Global,
    definition: &Definition<u16>,
    input: &str,
) -> Result<Lexed, AllocError> {
    lexed!(alloc, definition, input, item_seen_u16)
}

/// Tells the definition, and what lexing the input gives: by the definition's tables, and without any.
fn tell_definition(
    told: &mut Told,
    definition: Definition<u32>,
    input: &str,
) -> Result<(), Trouble> {
    tell_both!(told, definition, input, lexed)
}

/// The same with ids of type `u8`.
fn tell_definition_u8(
    told: &mut Told,
    definition: Definition<u8>,
    input: &str,
) -> Result<(), Trouble> {
    tell_both!(told, definition, input, lexed_u8)
}

/// The same with ids of type `u16`.
fn tell_definition_u16(
    told: &mut Told,
    definition: Definition<u16>,
    input: &str,
) -> Result<(), Trouble> {
    tell_both!(told, definition, input, lexed_u16)
}

/// Tells all that comes of a case with ids of type `u8`.
fn tell_text_u8(told: &mut Told, case: &Value) -> Result<(), Trouble> {
    tell_text!(told, case, u8, tell_definition_u8)
}

/// Tells all that comes of a case with ids of type `u16`.
fn tell_text_u16(told: &mut Told, case: &Value) -> Result<(), Trouble> {
    tell_text!(told, case, u16, tell_definition_u16)
}

/// Sets the token ids of a case, and tells what that gives.
fn set_ids(told: &mut Told, definition: &mut Definition<u32>, case: &Value) -> Result<(), Trouble> {
    let ids = ids_of(told.alloc(), case.get("ids"))?;
    let sets = definition.set_rule_ids_spanned(told.alloc(), &ids);
    tell_sets(told, "set_ids", sets);
    Ok(())
}

/// Tells what comes of the definition of a case, after setting its token ids where it has some.
fn tell_defined(told: &mut Told, definition: Definition<u32>, case: &Value) -> Result<(), Trouble> {
    let mut definition = definition;
    if case.get("ids").is_some() {
        set_ids(told, &mut definition, case)?;
    }
    tell_definition(told, definition, text_in(case, "input"))
}

/// Tells all that comes of a case, with ids of type `u32`.
fn tell_case(told: &mut Told, case: &Value) -> Result<(), Trouble> {
    match build(told.alloc(), case)? {
        Ok(definition) => tell_defined(told, definition, case),
        Err(refusal) => {
            tell_refusal(told, &refusal);
            Ok(())
        }
    }
}

/// Tells all that comes of a case, with ids of the type that it names.
fn tell(told: &mut Told, case: &Value) -> Result<(), Trouble> {
    match text_in(case, "storage") {
        "u8" => tell_text_u8(told, case),
        "u16" => tell_text_u16(told, case),
        _ => tell_case(told, case),
    }
}

/// All that comes of a case, behind its id.
fn told_of(alloc: Global, case: &Value) -> Result<String, Trouble> {
    let mut told = told_of_case(alloc, case);
    tell(&mut told, case)?;
    Ok(told.lines()?)
}

/// Replays a case, and prints what comes of it.
pub fn replay(rt: &HostRuntime, case: &Value) -> io::Result<()> {
    print_told(rt, told_of(rt.alloc(), case))
}
