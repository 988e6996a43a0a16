//! Documents: texts that are edited.
ghost use Rattle.std.specs.Prelude.{◌≡◌, ◌≢◌, pos, None, Some, MatchOption, ◌↔◌, ◌≤◌, length, slice_range, IfSome, IsUtf8};
ghost use Rattle.lrlex.specs.Nearest.{FitsAt};
ghost use Rattle.lrlex_handles.specs.Answers.{WasEdited, AreTokensOf, ArePiecesOf, ArePartOf};
ghost use Rattle.lrlex_handles.specs.Buffers.{IsWritten};
ghost use Rattle.lrlex_handles.specs.Entering.{IsEntered};
ghost use Rattle.lrlex_handles.specs.Objects.{definition_in, document_in};

use lrlex_handles::documents::{editing, entering, making, pieces, text, tokens};
use lrlex_handles::handle::Handle;
use lrlex_handles::structs::{Entered, Lexed, Piece, Token};
use std::alloc::Global;

/// Makes a document of this text. The definition may be freed before it. What `out` had before is freed.
#[unsafe(no_mangle)]
pub extern "C" fn lrlex_document_new(
    alloc: Global,
    definition: &mut Handle,
    out: &mut Handle,
    text: &[u8],
) -> i32
    ensures kept { definition.new.value ≡ definition.old.value }
    ensures done { result ≡ pos 0 → MatchOption (definition_in definition.old.value) ⊥
        (λ d. document_in out.new.value ≡ Some (d, text.now)) }
    ensures failed { result ≢ pos 0 → out.new.value ≡ None }
    ensures unread { result ≡ pos 3 → ¬ (IsUtf8 text.now) }
{
    making::begin(alloc, definition, out, text)
}

/// How many bytes the document has.
#[unsafe(no_mangle)]
pub extern "C" fn lrlex_document_len(alloc: Global, handle: &mut Handle, len: &mut usize) -> i32
    ensures kept { document_in handle.new.value ≡ document_in handle.old.value }
    ensures misused { result ≡ pos 4 ↔ document_in handle.old.value ≡ None }
    ensures done { result ≡ pos 0 → IfSome (document_in handle.old.value)
        (λ d. len.new ≡ length d.1) }
{
    text::len(alloc, handle, len)
}

/// The bytes of the document from `from` up to `to`, as many as there is room for.
#[unsafe(no_mangle)]
pub extern "C" fn lrlex_document_text(
    alloc: Global,
    handle: &mut Handle,
    from: usize,
    to: usize,
    out: &mut [u8],
    len: &mut usize,
) -> i32
    ensures kept { document_in handle.new.value ≡ document_in handle.old.value }
    ensures misused { result ≡ pos 4 ↔ document_in handle.old.value ≡ None }
    ensures done { result ≡ pos 0 → IfSome (document_in handle.old.value)
        (λ d. IsWritten (slice_range d.1 from to) out.old out.new len.new) }
    ensures unfit { IfSome (document_in handle.old.value)
        (λ d. result ≡ pos 6 ↔ ¬ ((from ≤ to) × (to ≤ length d.1))) }
{
    text::part(alloc, handle, from, to, out, len)
}

/// Puts a text in the place of the bytes from `from` up to `to`, and lexes again what that changes. If the call doesn't return 0, the
/// document is what it was.
#[unsafe(no_mangle)]
pub extern "C" fn lrlex_document_edit(
    alloc: Global,
    handle: &mut Handle,
    from: usize,
    to: usize,
    put: &[u8],
) -> i32
    ensures made { result ≡ pos 0 → WasEdited from to put.now (document_in handle.old.value)
        (document_in handle.new.value) }
    ensures kept { result ≢ pos 0 → document_in handle.new.value ≡ document_in handle.old.value }
    ensures misused { result ≡ pos 4 ↔ document_in handle.old.value ≡ None }
    ensures unfit { result ≡ pos 6 → IfSome (document_in handle.old.value)
        (λ d. ¬ (FitsAt d.1 from to)) }
    ensures unread { result ≡ pos 3 → ¬ (IsUtf8 put.now) }
{
    editing::edit(alloc, handle, from, to, put)
}

/// The lexemes of the document from this index on, as many as there is room for, and how lexing went: `count` of `out` counts all
/// lexemes, those before `first` too.
#[unsafe(no_mangle)]
pub extern "C" fn lrlex_document_tokens(
    alloc: Global,
    handle: &mut Handle,
    first: usize,
    tokens: &mut [Token],
    out: &mut Lexed,
) -> i32
    ensures kept { document_in handle.new.value ≡ document_in handle.old.value }
    ensures misused { result ≡ pos 4 ↔ document_in handle.old.value ≡ None }
    ensures done { result ≡ pos 0 → IfSome (document_in handle.old.value)
        (λ d. AreTokensOf d.0 d.1 first tokens.old tokens.new out.new) }
{
    tokens::tokens_from(alloc, handle, first, tokens, out)
}

/// The pieces of the document, as many as there is room for.
#[unsafe(no_mangle)]
pub extern "C" fn lrlex_document_pieces(
    alloc: Global,
    handle: &mut Handle,
    pieces: &mut [Piece],
    out: &mut Lexed,
) -> i32
    ensures kept { document_in handle.new.value ≡ document_in handle.old.value }
    ensures misused { result ≡ pos 4 ↔ document_in handle.old.value ≡ None }
    ensures done { result ≡ pos 0 → IfSome (document_in handle.old.value)
        (λ d. ArePiecesOf d.0 d.1 pieces.old pieces.new out.new) }
{
    pieces::all(alloc, handle, pieces, out)
}

/// The pieces of the document that have a byte from `from` up to `to`, as many as there is room for.
#[unsafe(no_mangle)]
pub extern "C" fn lrlex_document_pieces_in(
    alloc: Global,
    handle: &mut Handle,
    from: usize,
    to: usize,
    pieces: &mut [Piece],
    out: &mut Lexed,
) -> i32
    ensures kept { document_in handle.new.value ≡ document_in handle.old.value }
    ensures misused { result ≡ pos 4 ↔ document_in handle.old.value ≡ None }
    ensures done { result ≡ pos 0 → IfSome (document_in handle.old.value)
        (λ d. ArePartOf d.0 d.1 from to pieces.old pieces.new out.new) }
{
    pieces::part(alloc, handle, from, to, pieces, out)
}

/// Where the document enters the start state in which it ends: the last tile before which the stack lacked the entry on top at the end,
/// such as that which begins a comment that nothing closes. 5 if the document begins in that state and no tile leaves it.
#[unsafe(no_mangle)]
pub extern "C" fn lrlex_document_entered_by(
    alloc: Global,
    handle: &mut Handle,
    out: &mut Entered,
) -> i32
    ensures kept { document_in handle.new.value ≡ document_in handle.old.value }
    ensures misused { result ≡ pos 4 ↔ document_in handle.old.value ≡ None }
    ensures done { result ≡ pos 0 → IfSome (document_in handle.old.value)
        (λ d. IsEntered d.0 d.1 (Some out.new)) }
    ensures none { result ≡ pos 5 → IfSome (document_in handle.old.value)
        (λ d. IsEntered d.0 d.1 None) }
{
    entering::entered_by(alloc, handle, out)
}
