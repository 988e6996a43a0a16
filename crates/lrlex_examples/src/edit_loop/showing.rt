//! What a document says, as lines.
use crate::rules::Types;
use lrlex::{DefaultLexeme, Document, LexError, Lexeme, LineCursor};
use std::io;

/// A lexeme: its place, its name and its text.
fn show_lexeme(
    rt: &HostRuntime,
    document: &Document<'_, Types>,
    place: (usize, usize),
    lexeme: &DefaultLexeme<u32>,
) -> io::Result<()> {
    let (line, column) = place;
    let name = document.definition().name_of(lexeme.tok_id()).unwrap_or("");
    let text = document.text_of(lexeme.span());
    println!(rt; "{line}:{column} {name} {text}")
}

/// Where lexing stopped.
fn show_error(rt: &HostRuntime, place: (usize, usize)) -> io::Result<()> {
    let (line, column) = place;
    println!(rt; "stdin:{line}:{column}: no rule matches here")
}

/// What the document's text is cut into, and how many tiles the last edit cut anew.
pub fn show(rt: &HostRuntime, document: &Document<'_, Types>) -> io::Result<()> {
    let mut cursor = LineCursor::new(document.text());
    for item in document.items() {
        match item {
            Ok(lexeme) => {
                let place = cursor.place(lexeme.span().start());
                show_lexeme(rt, document, place, lexeme)?;
            }
            Err(error) => show_error(rt, cursor.place(error.span().start()))?,
        }
    }
    let (recut, tiles) = (document.recut_tiles(), document.tiles());
    println!(rt; "{recut} of {tiles} tiles cut anew")
}

/// Why nothing was edited.
pub fn show_refused(rt: &HostRuntime, why: &str) -> io::Result<()> {
    rt.println(why)
}
