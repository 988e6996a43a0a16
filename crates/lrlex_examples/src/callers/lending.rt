//! A run borrows its definition, so that nothing changes the definition under it.
use lrlex::{DefaultLexerTypes, LRNonStreamingLexerDef};
use std::alloc::{AllocError, Global};

/// Lexes a text, lets the run go, and puts another definition in the place of its own. How many tiles the run had.
pub fn lexed_and_replaced(
    alloc: Global,
    definition: &mut LRNonStreamingLexerDef<DefaultLexerTypes<u32>>,
    other: LRNonStreamingLexerDef<DefaultLexerTypes<u32>>,
    text: &str,
) -> Result<usize, AllocError> {
    let run = definition.run(alloc, text)?;
    let tiles = run.tiles();
    drop(run);
    *definition = other;
    Ok(tiles)
}
