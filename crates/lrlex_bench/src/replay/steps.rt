//! Steps: what is done with the definition of a case, and told.
use crate::replay::building::Definition;
use crate::replay::cases::edits::{edit_of, tell_edit};
use crate::replay::cases::facts::{tell_rules, tell_states};
use crate::replay::cases::reading::{Trouble, count_at, is_true_at, list_at, text_at};
use crate::replay::cases::told::Told;
use crate::replay::documents::{cut_document, show};
use crate::replay::engines::{display_faults, drive, serve};
use crate::replay::faults::tell_all_faults;
use crate::replay::lexers::ask_lexer;
use crate::replay::lookups::{find, set_ids};
use crate::replay::positions::ask_positions;
use crate::replay::reports::report;
use crate::replay::runs::{cut_run, lex, tell_end};
use crate::replay::scanners::scan;
use lrlex::{DEFAULT_LEX_FLAGS, LexerDef};
use serde_json::Value;

/// Tells whether the definition's flags are the default ones; null where it has none.
fn tell_flags(told: &mut Told, definition: &Definition<u32>) {
    told.key("default_flags");
    match definition.lex_flags() {
        Some(flags) => told.truth(*flags == DEFAULT_LEX_FLAGS),
        None => told.null(),
    };
}

/// Tells how many tables the definition has, how many rows these have, and how many rules have none, and then what it says.
fn tell_definition(told: &mut Told, definition: &Definition<u32>) {
    told.key("tables").numbers(&[
        definition.tables(),
        definition.table_rows(),
        definition.asked_rules(),
    ]);
    tell_states(told, definition.iter_start_states().as_slice());
    tell_rules(told, definition.rules());
    tell_flags(told, definition);
}

/// Tells of each rule whether it may win.
fn tell_may_win(told: &mut Told, definition: &Definition<u32>) -> Result<(), Trouble> {
    let may_win = definition.may_win(told.alloc())?;
    told.list("may_win");
    for may_win in &may_win {
        told.truth(*may_win);
    }
    told.close();
    Ok(())
}

/// The pieces of a part of a text, by a run and by a document.
fn cut_part(
    told: &mut Told,
    definition: &Definition<u32>,
    text: &str,
    ends: (usize, usize),
) -> Result<(), Trouble> {
    cut_run(told, definition, text, ends)?;
    cut_document(told, definition, text, ends)
}

/// Makes a step that needs no definition.
fn make_alone(told: &mut Told, name: &str, step: &[Value]) -> Result<(), Trouble> {
    match name {
        "edit" => {
            let edit = edit_of(list_at(step, 2));
            tell_edit(told, text_at(step, 1), edit, text_at(step, 3));
            Ok(())
        }
        "engine" | "engine_edited" | "engine_report" => drive(told, name, step),
        "all_faults" => tell_all_faults(told, step.get(1)),
        "faults" => {
            display_faults(told);
            Ok(())
        }
        _ => report(told, name, step),
    }
}

/// Makes a step that asks the definition about a text.
fn ask_about_text(
    told: &mut Told,
    definition: &Definition<u32>,
    name: &str,
    step: &[Value],
) -> Result<(), Trouble> {
    let text = text_at(step, 1);
    match name {
        "run" => lex(told, definition, text, list_at(step, 2)),
        "lexer" => {
            let asked = (list_at(step, 3), list_at(step, 4));
            ask_lexer(told, definition, text, is_true_at(step, 2), asked)
        }
        "part" => cut_part(
            told,
            definition,
            text,
            (count_at(step, 2), count_at(step, 3)),
        ),
        "end" => tell_end(told, definition, text),
        "scan" => scan(told, definition, text),
        "positions" => ask_positions(told, definition, text, list_at(step, 2), list_at(step, 3)),
        "document" | "texts" => show(told, definition, name, step),
        _ => make_alone(told, name, step),
    }
}

/// Makes a step, and tells what comes of it.
pub fn make(
    rt: &HostRuntime,
    told: &mut Told,
    definition: &mut Definition<u32>,
    step: &[Value],
) -> Result<(), Trouble> {
    match text_at(step, 0) {
        "definition" => {
            tell_definition(told, definition);
            Ok(())
        }
        "may_win" => tell_may_win(told, definition),
        "find" => {
            find(told, definition, list_at(step, 1), list_at(step, 2));
            Ok(())
        }
        "ids" => set_ids(told, definition, step.get(1), is_true_at(step, 2)),
        "served" => {
            serve(rt, told, step);
            Ok(())
        }
        name => ask_about_text(told, definition, name, step),
    }
}
