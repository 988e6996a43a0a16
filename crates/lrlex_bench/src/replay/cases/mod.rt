//! The parts of cases, read from JSON, and what comes of them, told as JSON. Nothing here lexes.
pub mod edits;
pub mod facts;
pub mod parts;
pub mod printing;
pub mod reading;
pub mod told;
pub mod writers;
