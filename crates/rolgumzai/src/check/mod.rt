//! `rolgumzai check [--json] [--deny-warnings] [--allow KIND].. RULES..`: what is wrong with rule files.
mod findings;
mod lines;

use crate::allowed::allowed_of;
use crate::check::findings::Findings;
use crate::check::lines::lines_of;
use crate::files::{is_read_twice, name_of, text_at};
use crate::flags::flags_of;
use crate::output::{FAULTY, UNABLE, print};
use clap::ArgMatches;
use lrlex::LexFlags;
use lrlex_report::WarningKind;
use std::io;

/// How rule files are checked.
#[derive(Drop)]
struct Check {
    flags: LexFlags,
    /// The kinds of warnings that aren't shown.
    allowed: Vec<WarningKind>,
    /// Whether a finding is a line of JSON.
    is_json: bool,
    /// Whether warnings count as faults.
    denies: bool,
}

impl Check {
    /// Shows what is wrong with a rule file. Gives the status.
    fn check(&self, rt: &HostRuntime, path: &str) -> io::Result<u8> {
        let Some(text) = text_at(rt, path)? else {
            return Ok(UNABLE);
        };
        let findings = Findings::of(rt.alloc(), &text, self.flags, &self.allowed)?;
        let shown = if self.is_json {
            lines_of(rt.alloc(), name_of(path), &text, &findings)?
        } else {
            findings.shown(rt.alloc(), name_of(path), &text)?
        };
        print(rt, &shown)?;
        Ok(if findings.is_faulty(self.denies) {
            FAULTY
        } else {
            0
        })
    }
}

/// Shows what is wrong with the files that the words name. Gives the greatest status of all.
pub fn serve(rt: &HostRuntime, words: &ArgMatches<'_>) -> io::Result<u8> {
    let paths = words.get_strs("rules").unwrap_or(&[]);
    if is_read_twice(rt, paths) {
        return Ok(UNABLE);
    }
    let Some(allowed) = allowed_of(rt, words)? else {
        return Ok(UNABLE);
    };
    let check = Check {
        flags: flags_of(words),
        allowed,
        is_json: words.get_flag("json"),
        denies: words.get_flag("deny-warnings"),
    };
    let mut status = 0;
    for path in paths {
        status = status.max(check.check(rt, path)?);
    }
    Ok(status)
}
