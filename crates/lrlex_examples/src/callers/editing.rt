//! For a highlighter and an editor, at the usual types.
ghost use Rattle.std.specs.Prelude.{◌≡◌, IfOk, map, take};
ghost use Rattle.lrlex.specs.LexRun.{end_of};
ghost use Rattle.lrlex_examples.specs.Lexing.{ShowPart, ShowPieces, shown, joined_parts};

use lrlex::{
    Change, DefaultLexerTypes, Document, EditError, LRNonStreamingLexerDef, LexRun, Lexeme, Piece,
    piece_laws,
};
use std::alloc::{AllocError, Global};

/// The text of each piece with the name of its rule, or "" where that has none.
fn parts_of<'d, 't>(
    alloc: Global,
    pieces: &[Piece<'d, 't>],
) -> Result<Vec<(&'d str, &'t str)>, AllocError>
    ensures { IfOk result (λ parts. ShowPieces pieces.now (map shown parts.items)) }
{
    let mut parts = Vec::new(alloc);
    for piece in pieces {
        parts.push((piece.name.unwrap_or(""), piece.text))?;
    }
    Ok(parts)
}

/// The whole text of a run as it was cut, up to the run's end: each piece with the name of its rule, or "" where that has none.
/// Joined, they are the text up to there.
pub fn cut_up<'d, 't>(
    alloc: Global,
    run: &LexRun<'d, 't, DefaultLexerTypes<u32>>,
) -> Result<Vec<(&'d str, &'t str)>, AllocError>
    ensures { IfOk result (λ parts. joined_parts (map shown parts.items)
        ≡ take (end_of run.now.boundaries) run.now.text) }
{
    run.laws();
    piece_laws();
    let pieces = run.pieces(alloc)?;
    parts_of(alloc, &pieces)
}

/// The whole text as it was cut: each piece with the name of its rule, or "" where that has none.
pub fn highlighted<'d, 't>(
    alloc: Global,
    definition: &'d LRNonStreamingLexerDef<DefaultLexerTypes<u32>>,
    text: &'t str,
) -> Result<Vec<(&'d str, &'t str)>, AllocError> {
    let run = definition.run(alloc, text)?;
    cut_up(alloc, &run)
}

/// Puts what was typed at a byte of the document. Line and column after it.
pub fn typed(
    alloc: Global,
    document: &mut Document<'_, DefaultLexerTypes<u32>>,
    at: usize,
    keys: &str,
) -> Result<(usize, usize), EditError> {
    document.edit(alloc, at, at, keys)?;
    Ok(document.place(at.saturating_add(keys.len())))
}

/// The name and text of each token that came by a change.
fn tokens_that_came<'d, 't>(
    alloc: Global,
    document: &'t Document<'d, DefaultLexerTypes<u32>>,
    change: Change,
) -> Result<Vec<(&'d str, &'t str)>, AllocError> {
    let mut came = Vec::new(alloc);
    let items = document.items().iter();
    for item in items.skip(change.first).take(change.inserted) {
        if let Ok(lexeme) = item {
            let name = document.definition().name_of(lexeme.tok_id());
            came.push((name.unwrap_or(""), document.text_of(lexeme.span())))?;
        }
    }
    Ok(came)
}

/// Makes an edit. Which tokens that changed, and the name and text of each that came.
pub fn retyped<'d, 't>(
    alloc: Global,
    document: &'t mut Document<'d, DefaultLexerTypes<u32>>,
    from: usize,
    to: usize,
    put: &str,
) -> Result<(Change, Vec<(&'d str, &'t str)>), EditError> {
    document.edit(alloc, from, to, put)?;
    let change = document.changed().items;
    Ok((change, tokens_that_came(alloc, document, change)?))
}

/// What a window shows of a document: each piece with a byte in `from..to`, and its rule's name, or "". Joined, they are a part
/// of the text, from where the first of them begins to where the last ends.
pub fn visible<'d, 't>(
    alloc: Global,
    document: &'t Document<'d, DefaultLexerTypes<u32>>,
    from: usize,
    to: usize,
) -> Result<Vec<(&'d str, &'t str)>, AllocError>
    ensures { IfOk result (λ parts. ShowPart document.now.text document.now.boundaries from to
        (map shown parts.items)) }
{
    document.laws();
    piece_laws();
    let pieces = document.pieces_in(alloc, from, to)?;
    parts_of(alloc, &pieces)
}
