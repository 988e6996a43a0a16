//! What is wrong with a rule text, or where lexing stops, for people.
use lrlex::{DefaultLexerTypes, LRNonStreamingLexerDef, LexerDef};
use lrlex_report::{bad_byte_text, faults_text, stop_text_in, warnings_of, warnings_text};
use std::alloc::{AllocError, Global};
use std::str;

/// What is wrong with the rule text, or where lexing the input stops. Empty where nothing is wrong.
pub fn complaints(alloc: Global, rules: &str, input: &str) -> Result<String, AllocError> {
    match LRNonStreamingLexerDef::<DefaultLexerTypes<u32>>::from_str(alloc, rules)? {
        Err(faults) => faults_text(alloc, "tokens.l", rules, &faults),
        Ok(definition) => {
            let table = definition.rule_table();
            match definition.run(alloc, input)?.items().last() {
                Some(Err(error)) => stop_text_in(alloc, table, "input.txt", input, error),
                _ => Ok(String::new(alloc)),
            }
        }
    }
}

/// What is wrong with the bytes of a rule file, which may not be UTF-8, or where lexing the input stops.
pub fn complaints_of_file(alloc: Global, rules: &[u8], input: &str) -> Result<String, AllocError> {
    match bad_byte_text(alloc, "tokens.l", rules)? {
        Some(shown) => Ok(shown),
        None => complaints(alloc, str::from_utf8(rules).unwrap(), input),
    }
}

/// What the rule text says and its author hardly meant. Empty where it has faults.
pub fn advice(alloc: Global, rules: &str) -> Result<String, AllocError> {
    let built = LRNonStreamingLexerDef::<DefaultLexerTypes<u32>>::from_str(alloc, rules)?;
    let Ok(definition) = built else {
        return Ok(String::new(alloc));
    };
    let warnings = warnings_of(alloc, rules, definition.rule_table())?;
    warnings_text(alloc, "tokens.l", rules, &warnings)
}
