//! Parts of texts of JSON.
use itoa::Buffer;
use serde_json::Value;
use std::alloc::{AllocError, Global};

/// A text as JSON has it, in quotes.
pub(crate) fn quoted(alloc: Global, text: &str) -> Result<String, AllocError> {
    Value::String(String::from_str(alloc, text)?).to_string(alloc)
}

/// Adds numbers with a comma between two.
pub(crate) fn push_numbers(out: &mut String, numbers: &[u32]) -> Result<(), AllocError> {
    let mut between = "";
    for number in numbers {
        out.push_str(between)?;
        out.push_str(Buffer::new().format(*number))?;
        between = ",";
    }
    Ok(())
}
