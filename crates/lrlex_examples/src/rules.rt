//! The rules of an example.
use lrlex::{DefaultLexerTypes, LRNonStreamingLexerDef, LexerDef};
use std::io;

/// The types of the examples' lexers.
pub type Types = DefaultLexerTypes<u32>;

pub type Definition = LRNonStreamingLexerDef<Types>;

/// The definition of an example's own rules. None where they have faults, which is told.
pub fn definition_of(rt: &HostRuntime, rules: &str) -> io::Result<Option<Definition>> {
    match Definition::from_str(rt.alloc(), rules)? {
        Ok(definition) => Ok(Some(definition)),
        Err(_) => {
            rt.eprintln("The rules have faults")?;
            Ok(None)
        }
    }
}
