//! What a lexer tells of its items, and of any span and byte.
ghost use Rattle.std.specs.Prelude.{◌≡◌};
ghost use Rattle.lrlex.specs.Lexer.{lexer_text};

use crate::replay::building::Definition;
use crate::replay::cases::facts::{Fitting, tell_fitting, tell_item};
use crate::replay::cases::reading::{Trouble, count_of, list_of, span_of};
use crate::replay::cases::told::Told;
use crate::replay::items::item_seen;
use lrlex::{DefaultLexerTypes, LRNonStreamingLexer, LineCursor};
use lrlex_base::{Lexer, NonStreamingLexer, Span};
use serde_json::Value;

/// A lexer with ids of type `u32`.
pub type LexerOf<'lexer, 'input> = LRNonStreamingLexer<'lexer, 'input, DefaultLexerTypes<u32>>;

/// Spans and bytes that a lexer is asked about.
type Asked<'v> = (&'v [Value], &'v [Value]);

/// What the lexer of this input tells of a span that fits it.
fn fitting<'t>(lexer: &LexerOf<'_, 't>, input: &str, span: Span) -> Option<Fitting<'t>>
    requires { lexer_text lexer.now ≡ input.now }
{
    if span.fits(input) {
        Some((
            lexer.span_str(span),
            lexer.span_lines_str(span),
            lexer.line_col(span),
        ))
    } else {
        None
    }
}

/// Tells the place before a byte, by `place` and by `position`.
fn tell_place(told: &mut Told, lexer: &LexerOf<'_, '_>, byte: usize) {
    told.pair(lexer.place(byte)).pair(lexer.position(byte));
}

/// Tells what the lexer of this input says of a span.
fn tell_span(told: &mut Told, lexer: &LexerOf<'_, '_>, input: &str, span: Span)
    requires { lexer_text lexer.now ≡ input.now }
{
    told.list("told")
        .number(span.start())
        .number(span.end())
        .text(lexer.text_of(span));
    tell_fitting(told, fitting(lexer, input, span));
    tell_place(told, lexer, span.start());
    tell_place(told, lexer, span.end());
    told.close();
}

/// Tells the items of a lexer.
pub fn tell_lexed(told: &mut Told, lexer: &LexerOf<'_, '_>) {
    told.list("items");
    for item in lexer.iter() {
        tell_item(told, item_seen(&item));
    }
    told.close();
}

/// Tells what the lexer of this input says of each of its items.
fn tell_each(told: &mut Told, lexer: &LexerOf<'_, '_>, input: &str)
    requires { lexer_text lexer.now ≡ input.now }
{
    for item in lexer.iter() {
        tell_span(told, lexer, input, item_seen(&item).span());
    }
}

/// Tells what the lexer of this input says of these spans.
fn tell_spans(told: &mut Told, lexer: &LexerOf<'_, '_>, input: &str, spans: &[Value])
    requires { lexer_text lexer.now ≡ input.now }
{
    for value in spans {
        tell_span(told, lexer, input, span_of(list_of(value)));
    }
}

/// Tells the places of these bytes, each on a line: those of the lexer, and that of a cursor of its input.
fn tell_bytes(told: &mut Told, lexer: &LexerOf<'_, '_>, input: &str, bytes: &[Value]) {
    let mut cursor = LineCursor::new(input);
    for value in bytes {
        told.list("place");
        tell_place(told, lexer, count_of(value));
        told.pair(cursor.place(count_of(value))).close();
    }
}

/// Tells what the lexer of this input says of its items, and of these spans and bytes.
fn tell_lexer(told: &mut Told, lexer: &LexerOf<'_, '_>, input: &str, asked: Asked<'_>)
    requires { lexer_text lexer.now ≡ input.now }
{
    tell_lexed(told, lexer);
    tell_each(told, lexer, input);
    tell_spans(told, lexer, input, asked.0);
    tell_bytes(told, lexer, input, asked.1);
}

/// Asks the lexer of a text, or that of its run.
pub fn ask_lexer(
    told: &mut Told,
    definition: &Definition<u32>,
    input: &str,
    of_run: bool,
    asked: Asked<'_>,
) -> Result<(), Trouble> {
    let alloc = told.alloc();
    let lexer = if of_run {
        definition.run(alloc, input)?.into_lexer(alloc)?
    } else {
        definition.lexer(alloc, input)?
    };
    tell_lexer(told, &lexer, input, asked);
    Ok(())
}
