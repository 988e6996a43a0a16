//! Lexing.
ghost use Rattle.std.specs.Prelude.{◌≡◌, ◌↔◌, ◌-◌, false, length, slice_get, option_map, unwrap_or, pos, None, Some, Err, IfOk, IfSome, IsUtf8};
ghost use Rattle.lrlex_base.specs.Lexemes.{lexeme_seen};
ghost use Rattle.lrlex_rules.specs.RuleParts.{state_number};
ghost use Rattle.lrlex.specs.Views.{definition_of, item_of};
ghost use Rattle.lrlex_handles.specs.Answers.{outcome, AreTokensOf, ArePiecesOf};
ghost use Rattle.lrlex_handles.specs.Objects.{definition_in};

use crate::filling::fill;
use crate::handle::{Handle, with_object};
use crate::object::{Definition, Object};
use crate::status::{MISUSE, NO_MEMORY, NOT_UTF8, OK};
use crate::structs::{Lexed, Piece, Token};
use crate::texts::{Item, copy_pieces};
use lrlex::{LexError, StartStateId};
use std::alloc::{AllocError, Global};
use std::str;

/// The number of a start state, or 0 without one.
pub(crate) fn number_of(state: Option<StartStateId>) -> usize
    ensures { result ≡ unwrap_or (option_map state_number state) 0 }
{
    match state {
        Some(state) => state.id(),
        None => 0,
    }
}

/// How lexing went that found these items and ended at this offset in this start state.
pub(crate) fn lexed_of(items: &[Item], end: usize, state: Option<StartStateId>) -> Lexed
    ensures { result ≡ outcome (option_map (item_of (λ n. n) lexeme_seen)
        (slice_get items.now (length items.now - 1))) (length items.now) end
        (unwrap_or (option_map state_number state) 0) }
{
    let state = number_of(state);
    match items.last() {
        Some(Err(error)) => Lexed {
            count: items.len() - 1,
            end,
            state,
            stopped: true,
            unmatched: error.lexing_state().is_some(),
        },
        _ => Lexed {
            count: items.len(),
            end,
            state,
            stopped: false,
            unmatched: false,
        },
    }
}

fn lex_by(
    alloc: Global,
    definition: &Definition,
    text: &str,
    tokens: &mut [Token],
) -> Result<Lexed, AllocError>
    ensures { IfOk result (AreTokensOf (definition_of (λ n. n) definition.now) text.now 0 tokens.old
        tokens.new) }
{
    let mut scanner = definition.scanner(alloc, text)?;
    fill(alloc, &mut scanner, tokens)
}

fn lex_in(alloc: Global, object: &Object, text: &[u8], tokens: &mut [Token], out: &mut Lexed) -> i32
    ensures misused { result ≡ pos 4 ↔ definition_in (Some object.now) ≡ None }
    ensures done { result ≡ pos 0 → IfSome (definition_in (Some object.now))
        (λ d. AreTokensOf d text.now 0 tokens.old tokens.new out.new) }
    ensures unread { result ≡ pos 3 → ¬ (IsUtf8 text.now) }
{
    match object {
        Object::Definition(definition) => match str::from_utf8(text) {
            Err(_) => NOT_UTF8,
            Ok(text) => match lex_by(alloc, definition, text, tokens) {
                Err(_) => NO_MEMORY,
                Ok(lexed) => {
                    *out = lexed;
                    OK
                }
            },
        },
        _ => MISUSE,
    }
}

/// Lexes the text. As many lexemes are written as there is room for, and `out` says how many there are.
pub fn lex(
    alloc: Global,
    handle: &mut Handle,
    text: &[u8],
    tokens: &mut [Token],
    out: &mut Lexed,
) -> i32
    ensures kept { handle.new.value ≡ handle.old.value }
    ensures misused { result ≡ pos 4 ↔ definition_in handle.old.value ≡ None }
    ensures done { result ≡ pos 0 → IfSome (definition_in handle.old.value)
        (λ d. AreTokensOf d text.now 0 tokens.old tokens.new out.new) }
    ensures unread { result ≡ pos 3 → ¬ (IsUtf8 text.now) }
{
    with_object!(
        alloc,
        handle,
        MISUSE,
        |object| lex_in(alloc, &object, text, tokens, out)
    )
}

fn pieces_by(
    alloc: Global,
    definition: &Definition,
    text: &str,
    pieces: &mut [Piece],
) -> Result<Lexed, AllocError>
    ensures { IfOk result (ArePiecesOf (definition_of (λ n. n) definition.now) text.now pieces.old
        pieces.new) }
{
    let run = definition.run(alloc, text)?;
    let found = run.pieces(alloc)?;
    copy_pieces(&found, pieces);
    Ok(Lexed {
        count: found.len(),
        ..lexed_of(run.items(), run.end(), run.end_state())
    })
}

fn pieces_in(
    alloc: Global,
    object: &Object,
    text: &[u8],
    pieces: &mut [Piece],
    out: &mut Lexed,
) -> i32
    ensures misused { result ≡ pos 4 ↔ definition_in (Some object.now) ≡ None }
    ensures done { result ≡ pos 0 → IfSome (definition_in (Some object.now))
        (λ d. ArePiecesOf d text.now pieces.old pieces.new out.new) }
    ensures unread { result ≡ pos 3 → ¬ (IsUtf8 text.now) }
{
    match object {
        Object::Definition(definition) => match str::from_utf8(text) {
            Err(_) => NOT_UTF8,
            Ok(text) => match pieces_by(alloc, definition, text, pieces) {
                Err(_) => NO_MEMORY,
                Ok(lexed) => {
                    *out = lexed;
                    OK
                }
            },
        },
        _ => MISUSE,
    }
}

/// Cuts the whole text, with the pieces of unnamed rules. As many pieces are written as there is room for, and `out` says how many
/// there are.
pub fn pieces(
    alloc: Global,
    handle: &mut Handle,
    text: &[u8],
    pieces: &mut [Piece],
    out: &mut Lexed,
) -> i32
    ensures kept { handle.new.value ≡ handle.old.value }
    ensures misused { result ≡ pos 4 ↔ definition_in handle.old.value ≡ None }
    ensures done { result ≡ pos 0 → IfSome (definition_in handle.old.value)
        (λ d. ArePiecesOf d text.now pieces.old pieces.new out.new) }
    ensures unread { result ≡ pos 3 → ¬ (IsUtf8 text.now) }
{
    with_object!(
        alloc,
        handle,
        MISUSE,
        |object| pieces_in(alloc, &object, text, pieces, out)
    )
}
