//! The program `rolgumzai`: what people ask about rule files and about texts that are lexed by them. `rolgumzai --help` names its
//! commands, and `rolgumzai COMMAND --help` says what one does.
//!
//! The status is 0 where all is well, 1 where a rule file has a fault, or a warning under `--deny-warnings`, or lexing stops, and 2
//! where the words are refused, a file can't be read, or memory or standard output fails.
#![tactic(auto)]

mod adding;
mod allowed;
mod check;
mod command;
mod explain;
mod files;
mod flags;
mod highlight;
mod lsp;
mod mapped;
mod output;
mod runs;
mod shown;
mod states;
mod tokens;

use crate::command::command;
use crate::output::{UNABLE, say, tell};
use clap::ArgMatches;
use clap::error::ErrorKind;
use std::alloc::AllocError;
use std::process::ExitCode;
use std::{env, io};

/// Does what the command's words ask for. Gives the status.
fn serve(rt: &HostRuntime, words: &ArgMatches<'_>) -> io::Result<u8> {
    match words.subcommand() {
        Some(("check", words)) => check::serve(rt, words),
        Some(("explain", words)) => explain::serve(rt, words),
        Some(("highlight", words)) => highlight::serve(rt, words),
        Some(("lsp", words)) => lsp::serve(rt, words),
        Some(("tokens", words)) => tokens::serve(rt, words),
        // Not met: the command takes no words without one of these.
        _ => Ok(UNABLE),
    }
}

/// Reads the words of the command line, and does what they ask for. Gives the status.
fn serve_words(rt: &HostRuntime) -> io::Result<u8> {
    let words: Vec<String> = env::args(rt)?.collect(rt.alloc())?;
    match command(rt.alloc())?.try_get_matches_from(words.as_slice()) {
        Ok(words) => serve(rt, &words),
        Err(told) if told.kind() == ErrorKind::OutOfMemory => Err(io::Error::from(AllocError)),
        Err(told) if told.use_stderr() => {
            say(rt, &told);
            Ok(UNABLE)
        }
        Err(told) => {
            told.print(rt)?;
            Ok(0)
        }
    }
}

fn main(rt: HostRuntime) -> ExitCode {
    match serve_words(&rt) {
        Ok(status) => ExitCode::from(status),
        Err(fault) => ExitCode::from(tell(&rt, &fault)),
    }
}
