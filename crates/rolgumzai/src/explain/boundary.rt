//! The boundary of a run at a byte, with its stack.
use crate::files::Definition;
use crate::runs::Run;
use crate::states::state_name;
use std::alloc::AllocError;
use std::fmt::Write;

/// A boundary between pieces: its byte, and its stack from bottom to top, as entries of a count and a start state.
#[derive(Clone, Copy)]
pub struct Boundary<'r> {
    pub at: usize,
    pub stack: &'r [(usize, usize)],
}

/// The last boundary that isn't after the byte.
pub fn boundary_before<'r>(run: &'r Run<'_, '_>, offset: usize) -> Boundary<'r> {
    let mut found = Boundary { at: 0, stack: &[] };
    for index in 0..run.boundaries() {
        let at = run.place(index);
        if at > offset {
            break;
        }
        found = Boundary {
            at,
            stack: run.stack(index),
        };
    }
    found
}

impl Boundary<'_> {
    /// The id of the start state on top.
    pub fn state(&self) -> usize {
        match self.stack.last() {
            Some(entry) => entry.1,
            None => 0,
        }
    }
}

/// Adds the line of the stack.
pub fn push_stack(
    shown: &mut String,
    definition: &Definition,
    stack: &[(usize, usize)],
) -> Result<(), AllocError> {
    shown.push_str("stack, from the bottom:")?;
    for (count, state) in stack {
        let name = state_name(definition, *state);
        if *count == 1 {
            write!(shown, " {name}")?;
        } else {
            write!(shown, " {name} ({count} times)")?;
        }
    }
    shown.push_str("\n")
}
