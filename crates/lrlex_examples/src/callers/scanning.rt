//! Tokens that are pulled, one after the other. Nothing of them is kept.
use lrlex::{DefaultLexerTypes, LRNonStreamingLexerDef, Step};
use std::alloc::{AllocError, Global};

/// How many tokens the text has up to its end, or to where lexing stops.
pub fn count(
    alloc: Global,
    definition: &LRNonStreamingLexerDef<DefaultLexerTypes<u32>>,
    text: &str,
) -> Result<usize, AllocError> {
    let mut count: usize = 0;
    for step in definition.scanner(alloc, text)?.steps(alloc) {
        if let Step::Tile(tile) = step? {
            count = count.saturating_add(tile.id.is_some() as usize);
        }
    }
    Ok(count)
}
