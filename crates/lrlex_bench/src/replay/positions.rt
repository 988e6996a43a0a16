//! The positions of bytes and the bytes of positions, by a document after its edits and by lexers of its text.
use crate::replay::building::Definition;
use crate::replay::cases::reading::{Trouble, change_of, count_of, list_of};
use crate::replay::cases::told::Told;
use crate::replay::documents::{Edited, make};
use crate::replay::lexers::LexerOf;
use lrlex::{Document, PositionEncoding};
use lrlex_base::NewlineCache;
use serde_json::Value;

/// What is asked for.
enum Question {
    /// The positions of a byte.
    Byte(usize),
    /// The bytes of a line and column.
    Position((usize, usize)),
}

/// What a byte or a pair of line and column asks for.
fn asked_of(value: &Value) -> Question {
    match list_of(value) {
        [line, column] => Question::Position((count_of(line), count_of(column))),
        _ => Question::Byte(count_of(value)),
    }
}

/// Tells what a document answers: in columns of UTF-8, and of UTF-16.
fn tell_of_document(told: &mut Told, document: &Edited<'_>, asked: Question) {
    match asked {
        Question::Byte(byte) => {
            told.pairs((
                document.position_in(byte, PositionEncoding::Utf8),
                document.position_in(byte, PositionEncoding::Utf16),
            ));
        }
        Question::Position(position) => {
            told.pair((
                document.offset_at(position, PositionEncoding::Utf8),
                document.offset_at(position, PositionEncoding::Utf16),
            ));
        }
    }
}

/// Tells what a lexer answers, likewise.
fn tell_of_lexer(told: &mut Told, lexer: &LexerOf<'_, '_>, asked: Question) {
    match asked {
        Question::Byte(byte) => {
            told.pairs((
                lexer.position_in(byte, PositionEncoding::Utf8),
                lexer.position_in(byte, PositionEncoding::Utf16),
            ));
        }
        Question::Position(position) => {
            told.pair((
                lexer.offset_at(position, PositionEncoding::Utf8),
                lexer.offset_at(position, PositionEncoding::Utf16),
            ));
        }
    }
}

/// Tells all that is asked of a document.
fn tell_document(told: &mut Told, document: &Edited<'_>, asked: &[Value]) {
    told.list("positions");
    for value in asked {
        tell_of_document(told, document, asked_of(value));
    }
    told.close();
}

/// Tells all that is asked of a lexer.
fn tell_lexer(told: &mut Told, lexer: &LexerOf<'_, '_>, asked: &[Value]) {
    told.list("positions");
    for value in asked {
        tell_of_lexer(told, lexer, asked_of(value));
    }
    told.close();
}

/// Makes the edits, each of which fits.
fn edit_all(told: &mut Told, document: &mut Edited<'_>, edits: &[Value]) -> Result<(), Trouble> {
    for edit in edits {
        if !make(told, document, change_of(list_of(edit)))? {
            return Err(Trouble::Malformed);
        }
    }
    Ok(())
}

/// Asks the lexer of a text.
fn ask_lexer(
    told: &mut Told,
    definition: &Definition<u32>,
    text: &str,
    asked: &[Value],
) -> Result<(), Trouble> {
    let lexer = definition.lexer(told.alloc(), text)?;
    tell_lexer(told, &lexer, asked);
    Ok(())
}

/// Asks a lexer made of a text without items.
fn ask_bare_lexer(told: &mut Told, text: &str, asked: &[Value]) -> Result<(), Trouble> {
    let newlines = NewlineCache::from_str(told.alloc(), text)?;
    let lexer = LexerOf::new(text, Vec::new(told.alloc()), newlines);
    tell_lexer(told, &lexer, asked);
    Ok(())
}

/// Asks a document after edits, and then both lexers of its text.
fn ask_edited(
    told: &mut Told,
    definition: &Definition<u32>,
    document: &mut Edited<'_>,
    edits: &[Value],
    asked: &[Value],
) -> Result<(), Trouble> {
    edit_all(told, document, edits)?;
    tell_document(told, document, asked);
    ask_lexer(told, definition, document.text(), asked)?;
    ask_bare_lexer(told, document.text(), asked)
}

/// Asks a document after edits, then the lexer of its text, and a lexer made of the text without items.
pub fn ask_positions(
    told: &mut Told,
    definition: &Definition<u32>,
    text: &str,
    edits: &[Value],
    asked: &[Value],
) -> Result<(), Trouble> {
    let mut document = Document::new(told.alloc(), definition, text)?;
    ask_edited(told, definition, &mut document, edits, asked)
}
