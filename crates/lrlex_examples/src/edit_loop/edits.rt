//! Edits, as lines of the input say them.

/// Bytes of a text, and what is put in their place.
#[derive(Clone, Copy)]
pub struct Change<'t> {
    /// The first byte that goes.
    pub from: usize,
    /// The byte behind the last that goes.
    pub to: usize,
    pub put: &'t str,
}

/// The edit of a line `FROM TO PUT`. PUT is all that follows the second space, and nothing where there is none.
pub fn change_of(line: &str) -> Option<Change<'_>> {
    let (from, rest) = line.split_once(' ')?;
    let (to, put) = rest.split_once(' ').unwrap_or((rest, ""));
    Some(Change {
        from: from.parse().ok()?,
        to: to.parse().ok()?,
        put,
    })
}
