//! `rolgumzai explain RULES INPUT PLACE`: which rule wins at a place of a text, and why.
mod active;
mod boundary;
mod lines;
mod place;
mod reasons;
mod rule_file;

use crate::files::{name_of, rules_of, text_at, word_of};
use crate::output::{UNABLE, print, say};
use clap::ArgMatches;
use lines::{Input, explained};
use place::byte_named;
use rule_file::RuleFile;
use std::io;

/// Reports that a word names no place of the text.
fn refuse(rt: &HostRuntime, input: Input<'_>, word: &str) {
    let (file, length) = (input.file, input.text.len());
    say(
        rt,
        format_args!(
            "rolgumzai: {file}: there is no place {word}; write a byte from 0 to {length}, or LINE:COLUMN\n"
        ),
    );
}

/// Explains the place of a text that a word names by the rules. Gives the status.
fn explain(rt: &HostRuntime, rules: RuleFile<'_>, input: Input<'_>, word: &str) -> io::Result<u8> {
    let Some(offset) = byte_named(input.text, word) else {
        refuse(rt, input, word);
        return Ok(UNABLE);
    };
    let (shown, status) = explained(rt.alloc(), rules, input, offset)?;
    print(rt, &shown)?;
    Ok(status)
}

/// Explains the place that the words name. Gives the status.
pub fn serve(rt: &HostRuntime, words: &ArgMatches<'_>) -> io::Result<u8> {
    let (rules, definition) = match rules_of(rt, words)? {
        Ok(found) => found,
        Err(status) => return Ok(status),
    };
    let path = word_of(words, "input");
    let Some(text) = text_at(rt, path)? else {
        return Ok(UNABLE);
    };
    let rules = RuleFile {
        file: name_of(word_of(words, "rules")),
        text: &rules,
        definition: &definition,
    };
    let input = Input {
        file: name_of(path),
        text: &text,
    };
    explain(rt, rules, input, word_of(words, "place"))
}
