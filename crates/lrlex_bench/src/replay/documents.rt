//! What a document shows, at first and after each of its edits, and its texts.
use crate::replay::building::Definition;
use crate::replay::cases::facts::tell_boundary;
use crate::replay::cases::reading::{
    Change, Trouble, change_of, count_of, list_at, list_of, span_of, text_at,
};
use crate::replay::cases::told::Told;
use crate::replay::items::tell_items;
use crate::replay::runs::{most_of, tell_pieces};
use lrlex::{DefaultLexerTypes, Document, EditError};
use serde_json::Value;

/// A document of a definition with ids of type `u32`.
pub type Edited<'d> = Document<'d, DefaultLexerTypes<u32>>;

/// Tells a change: `[first, removed, inserted]`.
pub fn tell_change(told: &mut Told, change: lrlex::Change) {
    told.numbers(&[change.first, change.removed, change.inserted]);
}

/// Tells the boundaries of a document.
fn tell_boundaries(told: &mut Told, document: &Edited<'_>) {
    told.list("boundaries");
    for index in 0..document.boundaries() {
        tell_boundary(told, document.boundary(index), document.stack(index));
    }
    told.close();
}

/// Tells what a document shows: its counts, what the last edit changed in its items and in its pieces, its text, its items, its
/// boundaries and its pieces.
fn tell_shown(told: &mut Told, document: &Edited<'_>) {
    told.key("document")
        .numbers(&[
            document.tiles(),
            document.recut_tiles(),
            most_of(document.asked()),
        ])
        .list("changed");
    tell_change(told, document.changed().items);
    tell_change(told, document.changed().pieces);
    told.close().key("text").text(document.text());
    tell_items(told, document.items());
    tell_boundaries(told, document);
    let pieces = document.pieces(told.alloc());
    tell_pieces(told, document.text(), pieces);
}

/// Tells that an edit was out of memory, and what the document shows then.
fn tell_refused(told: &mut Told, document: &Edited<'_>) {
    told.key("out_of_memory").null();
    tell_shown(told, document);
}

/// Makes an edit; where memory is refused, tells what the document shows then, and makes it once more. Whether it fits.
pub fn make(
    told: &mut Told,
    document: &mut Edited<'_>,
    change: Change<'_>,
) -> Result<bool, Trouble> {
    let (from, to, put) = change;
    let mut made = document.edit(told.alloc(), from, to, put);
    if let Err(EditError::OutOfMemory) = made {
        tell_refused(told, document);
        made = document.edit(told.alloc(), from, to, put);
    }
    match made {
        Ok(()) => Ok(true),
        Err(EditError::DoesNotFit) => Ok(false),
        Err(EditError::OutOfMemory) => Err(Trouble::Memory),
    }
}

/// Tells line and column before a byte, as `place` and as `position` count them.
fn tell_place(told: &mut Told, document: &Edited<'_>, byte: usize) {
    told.pairs((document.place(byte), document.position(byte)));
}

/// Tells the places of these bytes.
fn tell_places(told: &mut Told, document: &Edited<'_>, bytes: &[Value]) {
    told.list("places");
    for byte in bytes {
        tell_place(told, document, count_of(byte));
    }
    told.close();
}

/// Makes the edit `[from, to, text, bytes]`, and tells what comes of it, with the places of the bytes if there are any.
fn tell_edit(told: &mut Told, document: &mut Edited<'_>, value: &Value) -> Result<(), Trouble> {
    let parts = list_of(value);
    let made = make(told, document, change_of(parts))?;
    told.key("edit").truth(made);
    tell_shown(told, document);
    let bytes = list_at(parts, 3);
    if !bytes.is_empty() {
        tell_places(told, document, bytes);
    }
    Ok(())
}

/// Tells a document, and again after each edit.
fn tell_edits(told: &mut Told, document: &mut Edited<'_>, edits: &[Value]) -> Result<(), Trouble> {
    tell_shown(told, document);
    for edit in edits {
        tell_edit(told, document, edit)?;
    }
    Ok(())
}

/// Tells the texts that the document has at these spans.
fn tell_texts(told: &mut Told, document: &Edited<'_>, spans: &[Value]) {
    told.list("texts");
    for span in spans {
        told.text(document.text_of(span_of(list_of(span))));
    }
    told.close();
}

/// Tells what the step of this name asks a document; the last of them is `texts`.
fn tell_document(
    told: &mut Told,
    document: &mut Edited<'_>,
    name: &str,
    asked: &[Value],
) -> Result<(), Trouble> {
    match name {
        "document" => tell_edits(told, document, asked),
        _ => {
            tell_texts(told, document, asked);
            Ok(())
        }
    }
}

/// Asks a document of a step's text.
pub fn show(
    told: &mut Told,
    definition: &Definition<u32>,
    name: &str,
    step: &[Value],
) -> Result<(), Trouble> {
    let mut document = Document::new(told.alloc(), definition, text_at(step, 1))?;
    tell_document(told, &mut document, name, list_at(step, 2))
}

/// Tells the pieces of a part of a text, by a document.
pub fn cut_document(
    told: &mut Told,
    definition: &Definition<u32>,
    text: &str,
    ends: (usize, usize),
) -> Result<(), Trouble> {
    let document = Document::new(told.alloc(), definition, text)?;
    tell_pieces(told, text, document.pieces_in(told.alloc(), ends.0, ends.1));
    Ok(())
}
