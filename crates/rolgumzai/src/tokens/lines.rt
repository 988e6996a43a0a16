//! A token, and its line.
use crate::output::{Output, json_of};
use crate::runs::Run;
use lrlex::{DefaultLexeme, Lexeme, LineCursor};
use serde::Serialize;
use std::alloc::Global;
use std::io;
use std::io::Write;

/// A token, as a line of JSON has it. Bytes count from 0, lines and columns from 1, columns in characters.
#[derive(Drop, Serialize)]
pub struct Token<'a> {
    name: &'a str,
    text: &'a str,
    start: usize,
    end: usize,
    line: usize,
    column: usize,
    end_line: usize,
    end_column: usize,
}

/// The token of a run's lexeme. The cursor moves to its end.
pub fn token_of<'a>(
    run: &Run<'a, 'a>,
    cursor: &mut LineCursor<'_>,
    lexeme: &DefaultLexeme<u32>,
) -> Token<'a> {
    let span = lexeme.span();
    let (line, column) = cursor.place(span.start());
    let (end_line, end_column) = cursor.place(span.end());
    Token {
        name: run.definition().name_of(lexeme.tok_id()).unwrap_or(""),
        text: run.text().get(span.start()..span.end()).unwrap_or(""),
        start: span.start(),
        end: span.end(),
        line,
        column,
        end_line,
        end_column,
    }
}

/// Writes the line of a token.
pub fn write_token(
    alloc: Global,
    out: &mut Output<'_>,
    token: &Token<'_>,
    is_json: bool,
) -> io::Result<()> {
    if is_json {
        let json = json_of(alloc, token)?;
        return writeln!(out, "{json}");
    }
    let text = json_of(alloc, &token.text)?;
    let (line, column) = (token.line, token.column);
    let (start, end) = (token.start, token.end);
    let name = token.name;
    writeln!(out, "{line}:{column} {start}..{end} {name} {text}")
}
