//! Adding words, options and commands to a command, step by step. Each step takes what the one before it gave.
use clap::{Arg, ArgAction, Command};
use std::alloc::{AllocError, Global};

/// A command that is made step by step, or that memory ran out.
pub type Made<'a> = Result<Command<'a>, AllocError>;

/// A word of a command, or an option: its name, how it is given, and what the help says of it.
pub type Word = (&'static str, Kind, &'static str);

/// How a word is given. The text stands for its value in the help.
pub enum Kind {
    /// It has to be there.
    Needed(&'static str),
    /// There is at least one such word.
    Rest(&'static str),
    /// An option without a value.
    Switch,
    /// An option with a value.
    Value(&'static str),
    /// An option with a value, which may be given more than once.
    Values(&'static str),
}

/// The word, as `clap` has it.
fn arg_of<'a>(alloc: Global, word: &'a Word) -> Arg<'a> {
    let (name, kind, help) = word;
    let arg = Arg::new(alloc, name).help(help);
    match kind {
        Kind::Needed(shown) => arg.value_name(shown).required(true),
        Kind::Rest(shown) => {
            arg.value_name(shown)
                .required(true)
                .action(ArgAction::Append)
                .num_args(1..)
        }
        Kind::Switch => arg.long(name).action(ArgAction::SetTrue),
        Kind::Value(shown) => arg.long(name).value_name(shown),
        Kind::Values(shown) => { arg.long(name).value_name(shown).action(ArgAction::Append) }
    }
}

/// Adds words.
pub fn with_words<'a>(alloc: Global, command: Made<'a>, words: &'a [Word]) -> Made<'a> {
    let mut command = command?;
    for word in words {
        command = command.arg(arg_of(alloc, word))?;
    }
    Ok(command)
}

/// Adds a command.
pub fn with_command<'a>(command: Made<'a>, added: Made<'a>) -> Made<'a> {
    command?.subcommand(added?)
}
