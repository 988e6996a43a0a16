//! The greatest memory that the program had, as Linux tells it.
use std::fs;

/// The number of kilobytes in a line `VmHWM:   123 kB`.
fn kilobytes(line: &str) -> Option<u64> {
    let rest = line.strip_prefix("VmHWM:")?;
    let number = rest.split_whitespace().next()?;
    number.parse::<u64>().ok()
}

/// The greatest resident memory so far, in kilobytes of 1024 bytes; 0 where the system doesn't tell.
pub fn peak(rt: &HostRuntime) -> u64 {
    let Ok(text) = fs::read_to_string(rt, "/proc/self/status") else {
        return 0;
    };
    for line in text.as_str().lines() {
        if let Some(count) = kilobytes(line) {
            return count;
        }
    }
    0
}
