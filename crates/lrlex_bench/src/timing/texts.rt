//! The texts that are lexed: reading them, their places, their lines, and the lexemes among what they were cut into.
use crate::timing::clock::Watch;
use crate::timing::faults::Fault;
use crate::timing::telling::tell_bytes;
use lrlex_base::NewlineCache;
use std::{fs, io};

/// The text of a file, or this fault where it can't be read.
pub fn text_at(rt: &HostRuntime, path: &str, fault: Fault) -> Result<String, Fault> {
    match fs::read_to_string(rt, path) {
        Ok(text) => Ok(text),
        Err(cause) if cause.kind() == io::ErrorKind::OutOfMemory => Err(Fault::Memory),
        Err(_) => Err(fault),
    }
}

/// The first place at `from` or after it, in bytes, that is between two characters or at an end.
pub fn boundary_from(text: &str, from: usize) -> usize {
    for (place, _) in text.char_indices() {
        if place >= from {
            return place;
        }
    }
    text.len()
}

/// Finds the lines of the text once.
fn time_lines(rt: &HostRuntime, text: &str, watch: &mut Watch) -> Result<(), Fault> {
    watch.start(rt);
    let _lines = NewlineCache::from_str(rt.alloc(), text)?;
    watch.stop(rt);
    Ok(())
}

/// Finds the lines of the text so many times, and prints what that took.
pub fn tell_lines(
    rt: &HostRuntime,
    text: &str,
    times: u32,
    watch: &mut Watch,
) -> Result<(), Fault> {
    for _ in 0..times {
        time_lines(rt, text, watch)?;
    }
    tell_bytes(rt, "lines", &watch.spread()?, text.len())
}

/// How many items are lexemes.
pub fn lexemes<X, E>(items: &[Result<X, E>]) -> usize {
    items.iter().filter(|item| item.is_ok()).count()
}
