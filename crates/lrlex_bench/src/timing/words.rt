//! The words of the command line.
use crate::timing::faults::Fault;
use clap::error::ErrorKind;
use clap::{Arg, ArgAction, ArgMatches, Command, value_parser};
use std::alloc::{AllocError, Global};

/// How the program is called.
pub const USAGE: &str =
    "Usage: lrlex_bench RULES INPUT K [--edits | --keys] [--no-tables]\n       lrlex_bench --replay\n       lrlex_bench --example NAME";

/// A word of the command line or an option, and whether it is given alone.
struct Word {
    name: &'static str,
    kind: Kind,
    is_alone: bool,
}

/// What is given.
enum Kind {
    /// A word that has to be there.
    Text,
    /// A number that has to be there.
    Number,
    /// An option without a value.
    Switch,
    /// An option with a value.
    Value,
}

/// The words, in order, and the options.
static WORDS: [Word; 8] = [
    Word {
        name: "rules",
        kind: Kind::Text,
        is_alone: false,
    },
    Word {
        name: "input",
        kind: Kind::Text,
        is_alone: false,
    },
    Word {
        name: "times",
        kind: Kind::Number,
        is_alone: false,
    },
    Word {
        name: "edits",
        kind: Kind::Switch,
        is_alone: false,
    },
    Word {
        name: "keys",
        kind: Kind::Switch,
        is_alone: false,
    },
    Word {
        name: "no-tables",
        kind: Kind::Switch,
        is_alone: false,
    },
    Word {
        name: "replay",
        kind: Kind::Switch,
        is_alone: true,
    },
    Word {
        name: "example",
        kind: Kind::Value,
        is_alone: true,
    },
];

/// The word, as `clap` has it.
fn arg_of<'a>(alloc: Global, word: &'a Word) -> Arg<'a> {
    let arg = Arg::new(alloc, word.name).exclusive(word.is_alone);
    match word.kind {
        Kind::Text => arg.required(true),
        Kind::Number => arg.required(true).value_parser(value_parser!(u32)),
        Kind::Switch => arg.long(word.name).action(ArgAction::SetTrue),
        Kind::Value => arg.long(word.name),
    }
}

/// The command, as `clap` has it.
fn command<'a>(alloc: Global) -> Result<Command<'a>, AllocError> {
    let mut command = Command::new(alloc, "lrlex_bench");
    for word in &WORDS {
        command = command.arg(arg_of(alloc, word))?;
    }
    Ok(command)
}

/// What the command finds in the words, the program's own name first; nothing where they ask for help.
pub fn matches_of<'a>(alloc: Global, words: &'a [String]) -> Result<Option<ArgMatches<'a>>, Fault> {
    match command(alloc)?.try_get_matches_from(words) {
        Ok(matches) => Ok(Some(matches)),
        Err(error) => none_by(error.kind()),
    }
}

/// What an error of `clap` comes to: none for help, else a fault.
fn none_by<'a>(kind: ErrorKind) -> Result<Option<ArgMatches<'a>>, Fault> {
    match kind {
        ErrorKind::DisplayHelp => Ok(None),
        ErrorKind::OutOfMemory => Err(Fault::Memory),
        _ => Err(Fault::Usage),
    }
}
