//! The pieces of a document.
ghost use Rattle.std.specs.Prelude.{◌≡◌, ◌↔◌, List, length, pos, None, Some, IfOk, IfErr, IfSome};
ghost use Rattle.std.specs.Arc.{arc_value};
ghost use Rattle.lrlex_base.specs.Lexemes.{lexeme_seen};
ghost use Rattle.lrlex.specs.Document.{lexed_bytes};
ghost use Rattle.lrlex.specs.Pieces.{ArePieces, ArePiecesIn};
ghost use Rattle.lrlex.specs.Views.{definition_of, items_by};
ghost use Rattle.lrlex.specs.declared.reading.pieces.Piece.{Piece as Cut};
ghost use Rattle.lrlex_handles.specs.Answers.{lexed_by, ArePiecesOf, ArePartOf};
ghost use Rattle.lrlex_handles.specs.Buffers.{filled, piece_by};
ghost use Rattle.lrlex_handles.specs.Objects.{document_in};
ghost use Rattle.lrlex_handles.specs.declared.object.Object.TheVariants.{Document as Kept};

use crate::documents::Document;
use crate::handle::{Handle, with_object};
use crate::lexing::lexed_of;
use crate::object::{Edited, Object};
use crate::status::{MISUSE, NO_MEMORY, OK};
use crate::structs::{Lexed, Piece};
use crate::taking::{put_document, take_document, with_document};
use crate::texts::copy_pieces;
use std::alloc::{AllocError, Global};

/// Hands out how lexing went, if memory was enough to say it.
fn status_of(answer: Result<Lexed, AllocError>, out: &mut Lexed) -> i32
    ensures done { IfOk answer (λ lexed. (result ≡ pos 0) × (out.new ≡ lexed)) }
    ensures failed { IfErr answer (λ _. result ≡ pos 2) }
{
    match answer {
        Err(_) => NO_MEMORY,
        Ok(lexed) => {
            *out = lexed;
            OK
        }
    }
}

fn pieces_by(
    alloc: Global,
    document: &Document<'_>,
    pieces: &mut [Piece],
) -> Result<Lexed, AllocError>
    ensures { IfOk result (λ lexed. (cuts : List Cut)
        × ArePieces (definition_of (λ n. n) document.now.definition) document.now.text
        document.now.boundaries cuts
        × (pieces.new ≡ filled (λ p _. piece_by p) cuts pieces.old)
        × (lexed ≡ record (lexed_by (items_by (λ n. n) lexeme_seen document.now.items)
        document.now.boundaries) { count = length cuts })) }
{
    let found = document.pieces(alloc)?;
    copy_pieces(&found, pieces);
    Ok(Lexed {
        count: found.len(),
        ..lexed_of(document.items(), document.end(), document.end_state())
    })
}

fn pieces_of(alloc: Global, it: Edited, pieces: &mut [Piece]) -> (Edited, Result<Lexed, AllocError>)
    ensures kept { document_in (Some (Kept result.0)) ≡ document_in (Some (Kept it)) }
    ensures done { IfOk result.1 (ArePiecesOf (definition_of (λ n. n) (arc_value it.definition))
        (lexed_bytes it.text) pieces.old pieces.new) }
{
    let Edited { definition, text } = it;
    let document = Document::of_text(&definition, text);
    let answer = pieces_by(alloc, &document, pieces);
    let text = document.into_text();
    (Edited { definition, text }, answer)
}

fn pieces_in(alloc: Global, object: &mut Object, pieces: &mut [Piece], out: &mut Lexed) -> i32
    ensures kept { document_in (Some object.new) ≡ document_in (Some object.old) }
    ensures misused { result ≡ pos 4 ↔ document_in (Some object.old) ≡ None }
    ensures done { result ≡ pos 0 → IfSome (document_in (Some object.old))
        (λ d. ArePiecesOf d.0 d.1 pieces.old pieces.new out.new) }
{
    with_document!(object, |it| {
        let (it, answer) = pieces_of(alloc, it, pieces);
        (it, status_of(answer, out))
    })
}

/// The pieces of the document, as many as there is room for.
pub fn all(alloc: Global, handle: &mut Handle, pieces: &mut [Piece], out: &mut Lexed) -> i32
    ensures kept { document_in handle.new.value ≡ document_in handle.old.value }
    ensures misused { result ≡ pos 4 ↔ document_in handle.old.value ≡ None }
    ensures done { result ≡ pos 0 → IfSome (document_in handle.old.value)
        (λ d. ArePiecesOf d.0 d.1 pieces.old pieces.new out.new) }
{
    with_object!(
        alloc,
        handle,
        MISUSE,
        |mut object| pieces_in(alloc, &mut object, pieces, out)
    )
}

fn part_by(
    alloc: Global,
    document: &Document<'_>,
    from: usize,
    to: usize,
    pieces: &mut [Piece],
) -> Result<Lexed, AllocError>
    ensures { IfOk result (λ lexed. (cuts : List Cut)
        × ArePiecesIn (definition_of (λ n. n) document.now.definition) document.now.text
        document.now.boundaries from to cuts
        × (pieces.new ≡ filled (λ p _. piece_by p) cuts pieces.old)
        × (lexed ≡ record (lexed_by (items_by (λ n. n) lexeme_seen document.now.items)
        document.now.boundaries) { count = length cuts })) }
{
    let found = document.pieces_in(alloc, from, to)?;
    copy_pieces(&found, pieces);
    Ok(Lexed {
        count: found.len(),
        ..lexed_of(document.items(), document.end(), document.end_state())
    })
}

fn part_of(
    alloc: Global,
    it: Edited,
    from: usize,
    to: usize,
    pieces: &mut [Piece],
) -> (Edited, Result<Lexed, AllocError>)
    ensures kept { document_in (Some (Kept result.0)) ≡ document_in (Some (Kept it)) }
    ensures done { IfOk result.1 (ArePartOf (definition_of (λ n. n) (arc_value it.definition))
        (lexed_bytes it.text) from to pieces.old pieces.new) }
{
    let Edited { definition, text } = it;
    let document = Document::of_text(&definition, text);
    let answer = part_by(alloc, &document, from, to, pieces);
    let text = document.into_text();
    (Edited { definition, text }, answer)
}

fn part_in(
    alloc: Global,
    object: &mut Object,
    from: usize,
    to: usize,
    pieces: &mut [Piece],
    out: &mut Lexed,
) -> i32
    ensures kept { document_in (Some object.new) ≡ document_in (Some object.old) }
    ensures misused { result ≡ pos 4 ↔ document_in (Some object.old) ≡ None }
    ensures done { result ≡ pos 0 → IfSome (document_in (Some object.old))
        (λ d. ArePartOf d.0 d.1 from to pieces.old pieces.new out.new) }
{
    with_document!(object, |it| {
        let (it, answer) = part_of(alloc, it, from, to, pieces);
        (it, status_of(answer, out))
    })
}

/// The pieces of the document that have a byte from `from` up to `to`, as many as there is room for.
pub fn part(
    alloc: Global,
    handle: &mut Handle,
    from: usize,
    to: usize,
    pieces: &mut [Piece],
    out: &mut Lexed,
) -> i32
    ensures kept { document_in handle.new.value ≡ document_in handle.old.value }
    ensures misused { result ≡ pos 4 ↔ document_in handle.old.value ≡ None }
    ensures done { result ≡ pos 0 → IfSome (document_in handle.old.value)
        (λ d. ArePartOf d.0 d.1 from to pieces.old pieces.new out.new) }
{
    with_object!(
        alloc,
        handle,
        MISUSE,
        |mut object| part_in(alloc, &mut object, from, to, pieces, out)
    )
}
