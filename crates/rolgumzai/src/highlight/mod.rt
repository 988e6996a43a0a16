//! `rolgumzai highlight [--html] [--map NAME=TOKENTYPE].. RULES INPUT`: a text in colours, by the pieces into which the rules cut it.
mod classes;
mod map;
mod marks;
mod types;

use crate::files::{Definition, rules_of, text_at, word_of};
use crate::output::{FAULTY, UNABLE, print};
use crate::runs::{Run, stop_of};
use clap::ArgMatches;
use classes::{REST, class_of};
use lrlex::{Piece, Span};
use map::{Map, map_of};
use marks::Marks;
use std::alloc::{AllocError, Global};
use std::io;

/// Adds these pieces of a text, marked.
fn push_pieces(
    page: &mut String,
    map: &Map,
    text: &str,
    pieces: &[Piece<'_, '_>],
    marks: Marks,
) -> Result<(), AllocError> {
    for piece in pieces {
        let class = map.class_of(piece.rule).unwrap_or(class_of(piece));
        marks.push(page, class, text, piece.span)?;
    }
    Ok(())
}

/// Adds the pieces of a run, marked, and after the last one the rest of its text.
fn push_run(
    alloc: Global,
    page: &mut String,
    map: &Map,
    run: &Run<'_, '_>,
    marks: Marks,
) -> Result<(), AllocError> {
    let text = run.text();
    let pieces = run.pieces(alloc)?;
    push_pieces(page, map, text, pieces.as_slice(), marks)?;
    let (begin, end) = (run.end(), text.len());
    if begin < end {
        marks.push(page, REST, text, Span::new(begin, end))
    } else {
        Ok(())
    }
}

/// The text of a run with its pieces marked, between what precedes and what follows it.
fn page_of(
    alloc: Global,
    map: &Map,
    run: &Run<'_, '_>,
    marks: Marks,
) -> Result<String, AllocError> {
    let mut page = String::from_str(alloc, marks.head())?;
    push_run(alloc, &mut page, map, run, marks)?;
    page.push_str(marks.tail())?;
    Ok(page)
}

/// The input with its pieces marked, and after the last one the rest of it. Whether an error stopped lexing there.
fn marked(
    alloc: Global,
    definition: &Definition,
    map: &Map,
    input: &str,
    marks: Marks,
) -> Result<(String, bool), AllocError> {
    let run = definition.run(alloc, input)?;
    Ok((page_of(alloc, map, &run, marks)?, stop_of(&run).is_some()))
}

/// How the words want pieces to be marked.
fn marks_of(words: &ArgMatches<'_>) -> Marks {
    if words.get_flag("html") {
        Marks::Html
    } else {
        Marks::Terminal
    }
}

/// Shows an input. Gives the status.
fn show(
    rt: &HostRuntime,
    definition: &Definition,
    map: &Map,
    input: &str,
    marks: Marks,
) -> io::Result<u8> {
    let (page, is_stopped) = marked(rt.alloc(), definition, map, input, marks)?;
    print(rt, &page)?;
    Ok(if is_stopped { FAULTY } else { 0 })
}

/// Shows the input that the words name, by these rules and what the words say of them. Gives the status.
fn show_input(
    rt: &HostRuntime,
    words: &ArgMatches<'_>,
    definition: &Definition,
    map: &Map,
) -> io::Result<u8> {
    match text_at(rt, word_of(words, "input"))? {
        Some(input) => show(rt, definition, map, &input, marks_of(words)),
        None => Ok(UNABLE),
    }
}

/// Shows the text that the words name by these rules. Gives the status.
fn show_by(rt: &HostRuntime, words: &ArgMatches<'_>, definition: &Definition) -> io::Result<u8> {
    match map_of(rt, words, definition)? {
        Some(map) => show_input(rt, words, definition, &map),
        None => Ok(UNABLE),
    }
}

/// Shows the text that the words name. Gives the status.
pub fn serve(rt: &HostRuntime, words: &ArgMatches<'_>) -> io::Result<u8> {
    match rules_of(rt, words)? {
        Ok((_text, definition)) => show_by(rt, words, &definition),
        Err(status) => Ok(status),
    }
}
