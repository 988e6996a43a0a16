//! What is printed of cases: what is told of them and of their steps, and how many there were.
use crate::replay::cases::facts::{Refusal, tell_refusal};
use crate::replay::cases::reading::Trouble;
use crate::replay::cases::told::Told;
use serde_json::Value;
use std::alloc::{AllocError, Global};
use std::io;

/// What is told of a step before its own lines: its name.
pub fn told_of_step(alloc: Global, name: &str) -> Told {
    let mut told = Told::new(alloc);
    told.key("step").text(name);
    told
}

/// What is told of a case before anything else: its id.
pub fn told_of_case(alloc: Global, case: &Value) -> Told {
    let mut told = Told::new(alloc);
    told.key("case")
        .value(case.get("id").unwrap_or(&Value::Null));
    told
}

/// What is told of a case before its steps: its id, and why it has no definition, if so.
fn introduction(
    alloc: Global,
    case: &Value,
    refusal: Option<&Refusal>,
) -> Result<String, AllocError> {
    let mut told = told_of_case(alloc, case);
    if let Some(refusal) = refusal {
        tell_refusal(&mut told, refusal);
    }
    told.lines()
}

/// Prints what is told of a case before its steps.
pub fn introduce(rt: &HostRuntime, case: &Value, refusal: Option<&Refusal>) -> io::Result<()> {
    let told = introduction(rt.alloc(), case, refusal)?;
    println!(rt; "{told}")
}

/// Prints that a step is out of memory.
pub fn print_refused(rt: &HostRuntime) -> io::Result<()> {
    println!(rt; "out_of_memory null")
}

/// Prints what is told of a step, or of a case without any.
pub fn print_told(rt: &HostRuntime, told: Result<String, Trouble>) -> io::Result<()> {
    let told = told?;
    println!(rt; "{told}")
}

/// Prints how many cases there were.
pub fn print_count(rt: &HostRuntime, cases: u64) -> io::Result<()> {
    println!(rt; "{cases} cases")
}
