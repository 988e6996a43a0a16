//! `--allow KIND`: the kinds of warnings that aren't shown.
use crate::adding::{Kind, Word};
use crate::output::say;
use clap::ArgMatches;
use lrlex_report::WarningKind;
use std::alloc::AllocError;

/// What leaves out the warnings of a kind.
pub static ALLOW: [Word; 1] = [(
    "allow",
    Kind::Values("KIND"),
    "Leaves out the warnings of this kind, which check names in brackets",
)];

/// The kinds that the words allow. None where a word is no kind, which is reported.
pub fn allowed_of(
    rt: &HostRuntime,
    words: &ArgMatches<'_>,
) -> Result<Option<Vec<WarningKind>>, AllocError> {
    let mut allowed = Vec::new(rt.alloc());
    for word in words.get_strs("allow").unwrap_or(&[]) {
        let Some(kind) = WarningKind::named(word) else {
            say(
                rt,
                format_args!("rolgumzai: --allow {word}: no kind of warnings has this name\n"),
            );
            return Ok(None);
        };
        allowed.push(kind)?;
    }
    Ok(Some(allowed))
}
