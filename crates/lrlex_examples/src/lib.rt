//! Examples: in `callers` what the CALLING.md files show, word for word, so that the check proves what they show; beside it five programs
//! that stand on a lexer. Each has a module of its own, which needs nothing of the others. `lrlex_bench --example NAME` runs one.
#![tactic(auto)]

mod calc;
pub mod callers;
mod conf;
mod edit_loop;
mod first;
mod json_check;
mod rules;

use std::io;
use std::process::ExitCode;

/// Runs the example of this name. Tells their names where it is none of them.
pub fn serve(rt: HostRuntime, name: &str) -> io::Result<ExitCode> {
    match name {
        "calc" => calc::serve(&rt),
        "conf" => conf::serve(&rt),
        "edit_loop" => edit_loop::serve(&rt),
        "first" => first::main(rt),
        "json_check" => json_check::serve(&rt),
        _ => {
            rt.eprintln("The examples are calc, conf, edit_loop, first and json_check")?;
            Ok(ExitCode::FAILURE)
        }
    }
}
