//! What an editor marks: in a rule text each fault, in another text where lexing stops.
use lrlex::{DefaultLexerTypes, LRNonStreamingLexerDef, LexError, LexerDef, Span};
use lrlex_report::{fault_message, fault_range, stop_message_in};
use std::alloc::{AllocError, Global};

/// The bytes that an editor underlines, and the message that it shows there.
#[derive(Debug, Drop)]
pub struct Diagnostic {
    pub range: Span,
    pub message: String,
}

/// What an editor marks in a rule text.
pub fn faults(alloc: Global, rules: &str) -> Result<Vec<Diagnostic>, AllocError> {
    let mut marked = Vec::new(alloc);
    let read = LRNonStreamingLexerDef::<DefaultLexerTypes<u32>>::from_str(alloc, rules)?;
    if let Err(faults) = read {
        for fault in &faults {
            let range = fault_range(rules, fault);
            let message = fault_message(alloc, rules, fault)?;
            marked.push(Diagnostic { range, message })?;
        }
    }
    Ok(marked)
}

/// Where lexing a text stops, and why. None where it comes to the text's end.
pub fn stop(
    alloc: Global,
    definition: &LRNonStreamingLexerDef<DefaultLexerTypes<u32>>,
    text: &str,
) -> Result<Option<Diagnostic>, AllocError> {
    match definition.run(alloc, text)?.items().last() {
        Some(Err(error)) => Ok(Some(Diagnostic {
            range: error.span(),
            message: stop_message_in(alloc, definition.rule_table(), text, error)?,
        })),
        _ => Ok(None),
    }
}
