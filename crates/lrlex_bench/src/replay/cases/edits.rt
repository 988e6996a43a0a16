//! The edits of a step, and the texts that they make.
use crate::replay::cases::reading::{change_of, list_of, text_at};
use crate::replay::cases::told::Told;
use lrlex_base::{Edit, Span};
use serde_json::Value;
use std::alloc::{AllocError, Global};

/// An edit, and the text that it makes.
#[derive(Drop)]
pub struct Made<'v> {
    pub edit: Edit<'v>,
    pub text: String,
}

/// The edit of these parts.
pub fn edit_of(parts: &[Value]) -> Edit<'_> {
    let (from, to, put) = change_of(parts);
    Edit {
        removed: Span::new(from, to.max(from)),
        put,
    }
}

/// The edit with the text that it makes of this one; none where it doesn't fit.
fn made_of<'v>(alloc: Global, text: &str, edit: Edit<'v>) -> Result<Option<Made<'v>>, AllocError> {
    if !edit.fits(text) {
        return Ok(None);
    }
    let text = edit.apply(alloc, text)?;
    Ok(Some(Made { edit, text }))
}

/// The same of the last text that was made, or of this one where there is none.
fn next_of<'v>(
    alloc: Global,
    text: &str,
    made: &[Made<'v>],
    value: &'v Value,
) -> Result<Option<Made<'v>>, AllocError> {
    let edit = edit_of(list_of(value));
    match made.last() {
        Some(last) => made_of(alloc, last.text.as_str(), edit),
        None => made_of(alloc, text, edit),
    }
}

/// The edits of a list and the texts that they make, each of the one before and the first of this text. It ends before an edit
/// that doesn't fit.
pub fn all_made_of<'v>(
    alloc: Global,
    text: &str,
    edits: &'v [Value],
) -> Result<Vec<Made<'v>>, AllocError> {
    let mut all = Vec::new(alloc);
    for value in edits {
        match next_of(alloc, text, all.as_slice(), value)? {
            Some(made) => all.push(made)?,
            None => return Ok(all),
        }
    }
    Ok(all)
}

/// Tells the edit at this place of a list, behind all that were made, if there is one: it doesn't fit.
pub fn tell_unfit(told: &mut Told, edits: &[Value], made: usize) {
    if let Some(edit) = edits.get(made) {
        told.key("unfit").span(edit_of(list_of(edit)).removed);
    }
}

/// The edit `[from, to, text, new]`, beside the text that it makes.
fn edit_with_text(value: &Value) -> (Edit<'_>, &str) {
    let parts = list_of(value);
    (edit_of(parts), text_at(parts, 3))
}

/// The edits of a list, each beside the text that it makes.
pub fn edits_of(alloc: Global, list: &[Value]) -> Result<Vec<(Edit<'_>, &str)>, AllocError> {
    let mut edits = Vec::new(alloc);
    for value in list {
        edits.push(edit_with_text(value))?;
    }
    Ok(edits)
}

/// Tells whether an edit fits a text, and whether it makes the other of it.
pub fn tell_edit(told: &mut Told, old: &str, edit: Edit<'_>, new: &str) {
    told.list("fits")
        .truth(edit.fits(old))
        .truth(edit.gives(old, new))
        .close();
}
