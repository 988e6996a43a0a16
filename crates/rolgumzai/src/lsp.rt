//! `rolgumzai lsp [--rules FILE] [--map NAME=TOKENTYPE].. [--allow KIND]..`: a language server over standard input and output.
use crate::allowed::allowed_of;
use crate::files::{Definition, refuse, report_faults, text_at};
use crate::flags::flags_of;
use crate::mapped::parted;
use crate::output::{FAULTY, UNABLE, say};
use clap::ArgMatches;
use lrlex::LexFlags;
use lrlex_lsp::Options;
use std::alloc::{AllocError, Global};
use std::io::{BufReader, ErrorKind};
use std::{env, io};

/// The absolute path of a file. It may have `.` and `..` in it, which the server compares by what they stand for. None where the
/// path of the working folder is wanted and can't be had, as where it isn't UTF-8, which is reported.
fn absolute(rt: &HostRuntime, path: &str) -> io::Result<Option<String>> {
    let mut whole = String::new(rt.alloc());
    if !path.starts_with('/') {
        match env::current_dir(rt) {
            Ok(folder) => whole.push_str(folder.as_str())?,
            Err(error) => return refuse(rt, "the working folder", error),
        }
        whole.push_str("/")?;
    }
    whole.push_str(path)?;
    Ok(Some(whole))
}

/// Reports all faults of a rule file. The server goes on without it, until a client mends it.
fn tell_faults(
    rt: &HostRuntime,
    path: &str,
    text: &str,
    flags: LexFlags,
) -> Result<(), AllocError> {
    let faults = Definition::all_faults(rt.alloc(), text, flags)?;
    report_faults(rt, path, text, &faults)
}

/// The given rule file, by its absolute path, and its text. None where it can't be read, which is reported.
fn rules_at(rt: &HostRuntime, path: &str, flags: LexFlags) -> io::Result<Option<(String, String)>> {
    let Some(whole) = absolute(rt, path)? else {
        return Ok(None);
    };
    let Some(text) = text_at(rt, path)? else {
        return Ok(None);
    };
    tell_faults(rt, path, &text, flags)?;
    Ok(Some((whole, text)))
}

/// Both texts, as texts of their own.
fn owned(alloc: Global, texts: (&str, &str)) -> Result<(String, String), AllocError> {
    let first = String::from_str(alloc, texts.0)?;
    let second = String::from_str(alloc, texts.1)?;
    Ok((first, second))
}

/// What the words say of token types. The first word that isn't `NAME=TOKENTYPE`, if there is one.
fn map_of<'a>(
    alloc: Global,
    words: &[&'a str],
) -> Result<Result<Vec<(String, String)>, &'a str>, AllocError> {
    let mut map = Vec::new(alloc);
    for word in words {
        match parted(word) {
            Ok(texts) => map.push(owned(alloc, texts)?)?,
            Err(_) => return Ok(Err(*word)),
        }
    }
    Ok(Ok(map))
}

/// Serves until the client ends it. Gives the status: 1 where the client ends it without shutting it down, or reads no more.
fn serve_client(rt: &HostRuntime, options: Options) -> io::Result<u8> {
    let mut reader = BufReader::new(rt.alloc(), rt.reader())?;
    let mut writer = rt.stdout();
    match lrlex_lsp::serve(rt.alloc(), &mut reader, &mut writer, options) {
        Ok(true) => Ok(0),
        Ok(false) => Ok(FAULTY),
        Err(fault) if fault.kind() == ErrorKind::BrokenPipe => Ok(FAULTY),
        Err(fault) => Err(fault),
    }
}

/// The rule file that the words name and its text, if they name one. The status where it can't be had, which is reported.
fn rules_in(
    rt: &HostRuntime,
    words: &ArgMatches<'_>,
    flags: LexFlags,
) -> io::Result<Result<Option<(String, String)>, u8>> {
    match words.get_str("rules") {
        Some("-") => {
            say(
                rt,
                "rolgumzai: lsp: the rules can't come from standard input, which is the client's\n",
            );
            Ok(Err(UNABLE))
        }
        Some(path) => match rules_at(rt, path, flags)? {
            Some(rules) => Ok(Ok(Some(rules))),
            None => Ok(Err(UNABLE)),
        },
        None => Ok(Ok(None)),
    }
}

/// Serves with the rules that the words name, if they do. Gives the status.
fn serve_with(
    rt: &HostRuntime,
    words: &ArgMatches<'_>,
    map: Vec<(String, String)>,
) -> io::Result<u8> {
    let flags = flags_of(words);
    let Some(allowed) = allowed_of(rt, words)? else {
        return Ok(UNABLE);
    };
    match rules_in(rt, words, flags)? {
        Ok(rules) => serve_client(
            rt,
            Options {
                rules,
                map,
                flags,
                allowed,
            },
        ),
        Err(status) => Ok(status),
    }
}

/// Serves as the words say. Gives the status.
pub fn serve(rt: &HostRuntime, words: &ArgMatches<'_>) -> io::Result<u8> {
    match map_of(rt.alloc(), words.get_strs("map").unwrap_or(&[]))? {
        Ok(map) => serve_with(rt, words, map),
        Err(word) => {
            say(
                rt,
                format_args!(
                    "rolgumzai: --map {word}: NAME=TOKENTYPE is wanted, with a type of the Language Server Protocol\n"
                ),
            );
            Ok(UNABLE)
        }
    }
}
