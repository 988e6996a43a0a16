//! What the program is asked: its words, with the texts that they name.
use crate::timing::faults::Fault;
use crate::timing::texts::text_at;
use crate::timing::words::matches_of;
use clap::ArgMatches;
use std::env;

/// What is to be timed.
#[derive(Drop)]
pub struct Task {
    /// The text of the rule file.
    pub rules: String,
    /// The text to lex.
    pub input: String,
    /// How many times each thing is timed; not 0.
    pub times: u32,
    /// Whether lexing again after an edit is measured.
    pub edits: bool,
    /// Whether typing in a document is measured.
    pub keys: bool,
    /// Whether the definition gets tables.
    pub tables: bool,
}

/// What the program is asked for.
#[derive(Drop)]
pub enum Request {
    /// How it is called.
    Usage,
    /// To replay the cases of standard input.
    Replay,
    /// To run the example of this name.
    Example(String),
    /// To time something.
    Timing(Task),
}

/// What these matches say is to be timed. Reads the texts that they name.
fn task_of(rt: &HostRuntime, matches: &ArgMatches<'_>) -> Result<Task, Fault> {
    let times = matches.get_one::<u32>("times").unwrap_or(0);
    if times == 0 {
        return Err(Fault::Usage);
    }
    // Both paths are there: the command takes no words without them.
    let rules = matches.get_str("rules").unwrap_or("");
    let input = matches.get_str("input").unwrap_or("");
    Ok(Task {
        rules: text_at(rt, rules, Fault::CannotReadRules)?,
        input: text_at(rt, input, Fault::CannotReadInput)?,
        times,
        edits: matches.get_flag("edits"),
        keys: matches.get_flag("keys"),
        tables: !matches.get_flag("no-tables"),
    })
}

/// What these matches ask for.
fn request_of(rt: &HostRuntime, matches: &ArgMatches<'_>) -> Result<Request, Fault> {
    if matches.get_flag("replay") {
        return Ok(Request::Replay);
    }
    if let Some(name) = matches.get_str("example") {
        return Ok(Request::Example(String::from_str(rt.alloc(), name)?));
    }
    Ok(Request::Timing(task_of(rt, matches)?))
}

/// What the words of the command line ask for: the usage where there are none.
pub fn asked(rt: &HostRuntime) -> Result<Request, Fault> {
    let words: Vec<String> = env::args(rt)?.collect(rt.alloc())?;
    if words.len() < 2 {
        return Ok(Request::Usage);
    }
    match matches_of(rt.alloc(), words.as_slice())? {
        Some(matches) => request_of(rt, &matches),
        None => Ok(Request::Usage),
    }
}
