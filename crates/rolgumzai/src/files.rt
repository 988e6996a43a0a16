//! The texts that the words name, and the definitions of rule files.
use crate::flags::flags_of;
use crate::output::{FAULTY, UNABLE, say};
use clap::ArgMatches;
use lrlex::{DefaultLexerTypes, LRNonStreamingLexerDef, LexBuildError};
use lrlex_report::{bad_byte_text, faults_text};
use std::alloc::AllocError;
use std::io::{ErrorKind, Read};
use std::{fs, io};

/// The types of the program's lexers.
pub type Types = DefaultLexerTypes<u32>;

pub type Definition = LRNonStreamingLexerDef<Types>;

/// What a file is called in a report.
pub fn name_of(path: &str) -> &str {
    if path == "-" { "stdin" } else { path }
}

/// The bytes of a file, or of standard input where the path is `-`.
fn bytes_at(rt: &HostRuntime, path: &str) -> io::Result<Vec<u8>> {
    if path != "-" {
        return fs::read(rt, path);
    }
    let mut bytes = Vec::new(rt.alloc());
    let _ = rt.reader().read_to_end(&mut bytes)?;
    Ok(bytes)
}

/// Reports that what is called this can't be read. Memory that ran out is no fault of it.
pub fn refuse(rt: &HostRuntime, name: &str, error: io::Error) -> io::Result<Option<String>> {
    if error.kind() == ErrorKind::OutOfMemory {
        return Err(error);
    }
    say(rt, format_args!("rolgumzai: {name}: {error}\n"));
    Ok(None)
}

/// The text of a file, or of standard input where the path is `-`. None where it can't be read or isn't UTF-8, which is reported.
pub fn text_at(rt: &HostRuntime, path: &str) -> io::Result<Option<String>> {
    let bytes = match bytes_at(rt, path) {
        Ok(bytes) => bytes,
        Err(error) => return refuse(rt, name_of(path), error),
    };
    match bad_byte_text(rt.alloc(), name_of(path), &bytes)? {
        Some(shown) => {
            say(rt, &shown);
            Ok(None)
        }
        None => Ok(Some(String::from_utf8(bytes).unwrap())),
    }
}

/// Whether two of these paths are standard input, which is reported. It can be read once.
pub fn is_read_twice(rt: &HostRuntime, paths: &[&str]) -> bool {
    let mut found = false;
    for path in paths {
        if *path == "-" {
            if found {
                say(
                    rt,
                    "rolgumzai: - is given twice, but standard input can be one file only\n",
                );
                return true;
            }
            found = true;
        }
    }
    false
}

/// The word with this id. It is there: the command takes no words without it.
pub fn word_of<'a>(words: &ArgMatches<'a>, id: &str) -> &'a str {
    words.get_str(id).unwrap_or("")
}

/// Reports the faults of a rule text of this name.
pub fn report_faults(
    rt: &HostRuntime,
    name: &str,
    text: &str,
    faults: &[LexBuildError],
) -> Result<(), AllocError> {
    let shown = faults_text(rt.alloc(), name, text, faults)?;
    say(rt, &shown);
    Ok(())
}

/// The definition of a rule text, under the flags of the words. The status where the text has faults, which are reported.
fn definition_of(
    rt: &HostRuntime,
    words: &ArgMatches<'_>,
    text: &str,
) -> Result<Result<Definition, u8>, AllocError> {
    let flags = flags_of(words);
    match Definition::new_with_options(rt.alloc(), text, flags)? {
        Ok(definition) => Ok(Ok(definition)),
        Err(faults) => {
            let name = name_of(word_of(words, "rules"));
            report_faults(rt, name, text, &faults)?;
            Ok(Err(FAULTY))
        }
    }
}

/// The text of the words' rule file, and its definition. The status where there is none, after a report of why.
pub fn rules_of(
    rt: &HostRuntime,
    words: &ArgMatches<'_>,
) -> io::Result<Result<(String, Definition), u8>> {
    if is_read_twice(rt, &[word_of(words, "rules"), word_of(words, "input")]) {
        return Ok(Err(UNABLE));
    }
    let Some(text) = text_at(rt, word_of(words, "rules"))? else {
        return Ok(Err(UNABLE));
    };
    match definition_of(rt, words, &text)? {
        Ok(definition) => Ok(Ok((text, definition))),
        Err(status) => Ok(Err(status)),
    }
}
