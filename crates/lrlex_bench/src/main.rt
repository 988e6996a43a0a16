//! Times lexing: `lrlex_bench RULES INPUT K` lexes a text K times by the rules of a rule file. `lrlex_bench --replay` replays the
//! cases of standard input, and `lrlex_bench --example NAME` runs an example.
#![tactic(auto)]

mod edits;
mod keys;
mod measure;
mod replay;
mod timing;

use crate::measure::{Definition, definition_by, tell_run};
use crate::replay::replay_all;
use crate::timing::{Fault, Request, Task, Watch, asked, tell_usage};
use std::io;
use std::process::ExitCode;

/// Measures what is asked for. The watch took how long the definition's build was.
fn measured(
    rt: &HostRuntime,
    task: &Task,
    definition: &Definition,
    watch: &mut Watch,
) -> Result<(), Fault> {
    let input = task.input.as_str();
    let built = watch.spread()?.median;
    if task.edits {
        edits::tell_edits(rt, definition, input, task.times, watch)
    } else if task.keys {
        keys::tell_typing(rt, definition, input, task.times, watch)
    } else {
        tell_run(rt, definition, built, input, task.times, watch)
    }
}

/// Builds the definition, and measures what is asked for.
fn built(rt: &HostRuntime, task: &Task) -> Result<(), Fault> {
    let mut watch = Watch::new(rt)?;
    let definition = definition_by(rt.alloc(), task.rules.as_str(), task.tables)?;
    watch.stop(rt);
    measured(rt, task, &definition, &mut watch)
}

/// Does what the words of the command line ask for, but for an example: gives its name.
fn served(rt: &HostRuntime) -> Result<Option<String>, Fault> {
    match asked(rt)? {
        Request::Usage => tell_usage(rt)?,
        Request::Replay => replay_all(rt)?,
        Request::Example(name) => return Ok(Some(name)),
        Request::Timing(task) => built(rt, &task)?,
    }
    Ok(None)
}

fn main(rt: HostRuntime) -> io::Result<ExitCode> {
    match served(&rt) {
        Ok(Some(name)) => lrlex_examples::serve(rt, &name),
        Ok(None) => Ok(ExitCode::SUCCESS),
        Err(fault) => {
            fault.tell(&rt);
            Ok(ExitCode::FAILURE)
        }
    }
}
