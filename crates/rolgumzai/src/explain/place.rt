//! The place of a text that a word names.
use lrlex::LineCursor;

/// The byte at a line and a column of a text. None where the text has no such place.
fn byte_at(text: &str, wanted: (usize, usize)) -> Option<usize> {
    let mut cursor = LineCursor::new(text);
    for (byte, _) in text.char_indices() {
        if cursor.place(byte) == wanted {
            return Some(byte);
        }
    }
    let end = text.len();
    if cursor.place(end) == wanted {
        Some(end)
    } else {
        None
    }
}

/// The byte of a text that a word names: by its number from 0, up to the text's end, or by LINE:COLUMN. None where it names none.
pub fn byte_named(text: &str, word: &str) -> Option<usize> {
    match word.split_once(':') {
        Some((line, column)) => {
            let line = line.parse::<usize>().ok()?;
            let column = column.parse::<usize>().ok()?;
            byte_at(text, (line, column))
        }
        None => {
            let byte = word.parse::<usize>().ok()?;
            if byte <= text.len() { Some(byte) } else { None }
        }
    }
}
