//! Why a rule wins.
use crate::explain::active::Active;
use std::alloc::{AllocError, Global};

/// How many of the rules match at least so many bytes.
fn matching(active: &[Active], len: usize) -> usize {
    let mut count = 0usize;
    for one in active {
        if one.len >= len {
            count = count.saturating_add(1);
        }
    }
    count
}

/// Why the rule that matches so many bytes wins among these.
pub fn reason(alloc: Global, active: &[Active], len: usize) -> Result<String, AllocError> {
    let as_many = matching(active, len);
    if as_many > 1 {
        return format!(in alloc; "of the {as_many} rules that match as many, it is the first");
    }
    let reason = if matching(active, 1) > 1 {
        "no other rule matches as many"
    } else {
        "no other rule matches"
    };
    String::from_str(alloc, reason)
}
