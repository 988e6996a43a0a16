//! The lines that the program writes for the items of a run.
ghost use Rattle.std.specs.Prelude.{◌≡◌, [], ◌∷◌, ◌++◌, ◌-◌, All, false, map, true};
ghost use Rattle.lrlex_base.specs.Spans.{Fits, span_end, span_start};
ghost use Rattle.lrlex.specs.Errors.{stop_text};
ghost use Rattle.lrlex.specs.ItemLaws.{FitsText};
ghost use Rattle.lrlex.specs.Tiling.{Lexeme};
ghost use Rattle.lrlex.specs.Views.{definition_by, item_of};
ghost use Rattle.lrlex_cli.specs.Lines.{line, lines};
ghost use Rattle.lrlex_cli.specs.Scanning.{last_lexeme, lexeme_by, stop_line};
ghost use Rattle.lrlex_cli.specs.Writing.{Passes, Writes};

use crate::messages::STOPPED_AT;
use crate::writing::{flush, pass, pass_both};
use lrlex::{LRLexError, RuleTable, ScannedTile};
use lrlex_base::{LexError, Lexeme, Numbered, Span};
use std::io;
use std::io::Write;

/// Whether there was room for the line behind those that wait, so that it waits too. No memory is asked for.
#[inline(always)]
fn line_waits(waiting: &mut Vec<u8>, name: &[u8], matched: &[u8]) -> bool
    ensures added { result ≡ true → waiting.new.items ≡ waiting.old.items
        ++ (name.now ++ 32 ∷ (matched.now ++ 10 ∷ [])) }
    ensures same { result ≡ false → waiting.new.items ≡ waiting.old.items }
{
    let room = waiting.capacity() - waiting.len();
    if name.len() >= room || matched.len() + 2 > room - name.len() {
        return false;
    }
    let _ = waiting.extend_from_slice(name);
    let _ = waiting.push(b' ');
    let _ = waiting.extend_from_slice(matched);
    let _ = waiting.push(b'\n');
    true
}

/// Passes on the line of a lexeme, where there is no room for it to wait.
#[inline(never)]
fn pass_parts<W: Write>(
    out: &mut W,
    waiting: &mut Vec<u8>,
    name: &[u8],
    matched: &[u8],
) -> io::Result<()>
    ensures { Passes (W.contents out.old) (W.contents out.new) result
        (waiting.old.items ++ (name.now ++ 32 ∷ (matched.now ++ 10 ∷ []))) waiting.new.items }
{
    pass_both(out, waiting, name, b" ")?;
    pass_both(out, waiting, matched, b"\n")
}

/// Passes on the line of a lexeme: its rule's name, a blank and the matched text.
#[inline(always)]
fn pass_named<W: Write>(
    out: &mut W,
    waiting: &mut Vec<u8>,
    name: &str,
    matched: &str,
) -> io::Result<()>
    ensures { Passes (W.contents out.old) (W.contents out.new) result
        (waiting.old.items ++ (name.now ++ 32 ∷ (matched.now ++ 10 ∷ []))) waiting.new.items }
{
    if line_waits(waiting, name.as_bytes(), matched.as_bytes()) {
        return Ok(());
    }
    pass_parts(out, waiting, name.as_bytes(), matched.as_bytes())
}

/// Passes on the line of the lexeme with this id and these bytes of the text.
#[inline(always)]
fn pass_lexeme<S: Numbered, W: Write>(
    out: &mut W,
    waiting: &mut Vec<u8>,
    table: &RuleTable<S>,
    text: &str,
    id: S,
    span: Span,
) -> io::Result<()>
    requires { Fits text.now span }
    ensures { Passes (W.contents out.old) (W.contents out.new) result
        (waiting.old.items ++ line (definition_by S.number table.now).rules text.now
        (Lexeme (S.number id) (span_start span) (span_end span - span_start span) false))
        waiting.new.items }
{
    let name = table.name_of(id).unwrap_or("");
    pass_named(out, waiting, name, &text[span.start()..span.end()])
}

/// Passes on the line of an error at this byte: the text that it displays.
fn pass_error<W: Write>(out: &mut W, waiting: &mut Vec<u8>, at: usize) -> io::Result<()>
    ensures { Passes (W.contents out.old) (W.contents out.new) result
        (waiting.old.items ++ (stop_text at ++ 10 ∷ [])) waiting.new.items }
{
    let mut number = itoa::Buffer::new();
    let number = number.format(at);
    pass_both(out, waiting, STOPPED_AT.as_bytes(), number.as_bytes())?;
    pass(out, waiting, b"\n")
}

/// Passes on the line of an item of a text. The item fits the text.
fn pass_line<S: Numbered, X: Lexeme<S>, W: Write>(
    out: &mut W,
    waiting: &mut Vec<u8>,
    table: &RuleTable<S>,
    text: &str,
    item: &Result<X, LRLexError>,
) -> io::Result<()>
    requires { FitsText text.now (item_of S.number X.seen item.now) }
    ensures { Passes (W.contents out.old) (W.contents out.new) result
        (waiting.old.items ++ line (definition_by S.number table.now).rules text.now
        (item_of S.number X.seen item.now)) waiting.new.items }
{
    match item {
        Ok(lexeme) => {
            pass_lexeme::<S, W>(out, waiting, table, text, lexeme.tok_id(), lexeme.span())
        }
        Err(error) => pass_error(out, waiting, error.span().start()),
    }
}

/// Writes the lines of the items of a text. The items fit the text. No bytes wait before, and none behind. No memory is asked for.
pub(crate) fn write_lines<S: Numbered, X: Lexeme<S>, W: Write>(
    out: &mut W,
    waiting: &mut Vec<u8>,
    table: &RuleTable<S>,
    text: &str,
    items: &[Result<X, LRLexError>],
) -> io::Result<()>
    requires fit { All (λ item. FitsText text.now (item_of S.number X.seen item))
        items.now }
    requires none { waiting.old.items ≡ [] }
    ensures { Writes (W.contents out.old) (W.contents out.new) result
        (lines (definition_by S.number table.now).rules text.now
        (map (item_of S.number X.seen) items.now)) }
{
    for item in items {
        pass_line::<S, X, W>(out, waiting, table, text, item)?;
    }
    flush(out, waiting)
}

/// Passes on the line of a tile's lexeme, if it gives one. The lexeme fits the text.
#[inline(always)]
pub(crate) fn pass_tile<S: Numbered, W: Write>(
    out: &mut W,
    waiting: &mut Vec<u8>,
    table: &RuleTable<S>,
    text: &str,
    tile: ScannedTile<S>,
) -> io::Result<()>
    requires { All (FitsText text.now) (lexeme_by S.number tile) }
    ensures { Passes (W.contents out.old) (W.contents out.new) result
        (waiting.old.items ++ lines (definition_by S.number table.now).rules text.now
        (lexeme_by S.number tile)) waiting.new.items }
{
    match tile.id {
        Some(id) => pass_lexeme::<S, W>(out, waiting, table, text, id, tile.span),
        None => Ok(()),
    }
}

/// Passes on the line of the lexeme of a tile that may be there. The lexeme fits the text.
fn pass_last<S: Numbered, W: Write>(
    out: &mut W,
    waiting: &mut Vec<u8>,
    table: &RuleTable<S>,
    text: &str,
    last: Option<ScannedTile<S>>,
) -> io::Result<()>
    requires { All (FitsText text.now) (last_lexeme S.number last) }
    ensures { Passes (W.contents out.old) (W.contents out.new) result
        (waiting.old.items ++ lines (definition_by S.number table.now).rules text.now
        (last_lexeme S.number last)) waiting.new.items }
{
    match last {
        Some(tile) => pass_tile::<S, W>(out, waiting, table, text, tile),
        None => Ok(()),
    }
}

/// Passes on the line of an error that may be there, at this byte.
fn pass_stop<W: Write>(out: &mut W, waiting: &mut Vec<u8>, error: Option<usize>) -> io::Result<()>
    ensures { Passes (W.contents out.old) (W.contents out.new) result
        (waiting.old.items ++ stop_line error) waiting.new.items }
{
    match error {
        Some(at) => pass_error(out, waiting, at),
        None => Ok(()),
    }
}

/// Writes the bytes that wait, and then the lines of what comes with the end: of a last tile's lexeme, and of an error at a byte.
/// The lexeme fits the text.
pub(crate) fn write_end<S: Numbered, W: Write>(
    out: &mut W,
    waiting: &mut Vec<u8>,
    table: &RuleTable<S>,
    text: &str,
    last: Option<ScannedTile<S>>,
    error: Option<usize>,
) -> io::Result<()>
    requires { All (FitsText text.now) (last_lexeme S.number last) }
    ensures { Writes (W.contents out.old) (W.contents out.new) result (waiting.old.items
        ++ (lines (definition_by S.number table.now).rules text.now
        (last_lexeme S.number last) ++ stop_line error)) }
{
    pass_last::<S, W>(out, waiting, table, text, last)?;
    pass_stop(out, waiting, error)?;
    flush(out, waiting)
}
