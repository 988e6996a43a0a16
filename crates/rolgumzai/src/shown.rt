//! Characters, as a terminal may be given them.
use lrlex_report::shown_char;
use std::alloc::AllocError;

/// Adds the characters of a part of a line, each as it is shown.
pub fn push_shown(shown: &mut String, text: &str) -> Result<(), AllocError> {
    for c in text.chars() {
        shown.push(shown_char(c))?;
    }
    Ok(())
}

/// Adds the first characters of a part of a line, so many at most, each as it is shown, and `...` for the rest.
pub fn push_first(shown: &mut String, text: &str, most: usize) -> Result<(), AllocError> {
    match text.char_indices().nth(most) {
        Some((at, _)) => {
            push_shown(shown, text.get(..at).unwrap_or(""))?;
            shown.push_str("...")
        }
        None => push_shown(shown, text),
    }
}
