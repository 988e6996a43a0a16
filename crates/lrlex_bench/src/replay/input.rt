//! Replays cases: each line of standard input is one, as JSON. The last line that is printed is how many there were.
use crate::replay::building::{Definition, build_within};
use crate::replay::callers::make_by_caller;
use crate::replay::cases::printing::{
    introduce, print_count, print_refused, print_told, told_of_step,
};
use crate::replay::cases::reading::{Trouble, list_of, text_at, value_of};
use crate::replay::steps::make;
use crate::replay::whole_cases::replay;
use serde_json::Value;
use std::io;
use std::io::{BufRead, BufReader};

/// What is told of a step: its name, and then what comes of it.
fn answer(
    rt: &HostRuntime,
    definition: &mut Definition<u32>,
    step: &Value,
) -> Result<String, Trouble> {
    let step = list_of(step);
    let mut told = told_of_step(rt.alloc(), text_at(step, 0));
    if !make_by_caller(&mut told, definition, step)? {
        make(rt, &mut told, definition, step)?;
    }
    Ok(told.lines()?)
}

/// Makes a step, once more where it is out of memory, and prints what is told of it.
fn tell_step(rt: &HostRuntime, definition: &mut Definition<u32>, step: &Value) -> io::Result<()> {
    match answer(rt, definition, step) {
        Err(Trouble::Memory) => {
            print_refused(rt)?;
            print_told(rt, answer(rt, definition, step))
        }
        told => print_told(rt, told),
    }
}

/// Makes the steps of a case, and prints what comes of them.
fn tell_steps(
    rt: &HostRuntime,
    definition: &mut Definition<u32>,
    case: &Value,
    steps: &[Value],
) -> io::Result<()> {
    introduce(rt, case, None)?;
    for step in steps {
        tell_step(rt, definition, step)?;
    }
    Ok(())
}

/// Builds the definition of a case with steps, makes these, and prints what comes of them.
fn tell_case(rt: &HostRuntime, case: &Value, steps: &[Value]) -> io::Result<()> {
    match build_within(rt.alloc(), case)? {
        Ok(mut definition) => tell_steps(rt, &mut definition, case, steps),
        Err(refusal) => introduce(rt, case, Some(&refusal)),
    }
}

/// Replays a case, and prints what comes of it.
fn replay_case(rt: &HostRuntime, case: &Value) -> io::Result<()> {
    match case.get("steps").and_then(Value::as_array) {
        Some(steps) => tell_case(rt, case, steps.as_slice()),
        None => replay(rt, case),
    }
}

/// Replays the case of a line.
fn replay_line(rt: &HostRuntime, line: &str) -> io::Result<()> {
    let case = value_of(rt.alloc(), line)?;
    replay_case(rt, &case)
}

/// Replays the cases of standard input, and prints how many there were.
pub fn replay_all(rt: &HostRuntime) -> io::Result<()> {
    let alloc = rt.alloc();
    let mut cases: u64 = 0;
    for line in BufReader::new(alloc, rt.reader())?.lines(alloc) {
        let line = line?;
        replay_line(rt, line.as_str())?;
        cases = cases.saturating_add(1);
    }
    print_count(rt, cases)
}
