//! The lexemes of a document.
ghost use Rattle.std.specs.Prelude.{◌≡◌, ◌↔◌, drop, pos, None, Some, IfSome};
ghost use Rattle.std.specs.Arc.{arc_value};
ghost use Rattle.lrlex_base.specs.Lexemes.{lexeme_seen};
ghost use Rattle.lrlex.specs.Document.{lexed_bytes};
ghost use Rattle.lrlex.specs.Views.{definition_of, items_by};
ghost use Rattle.lrlex_handles.specs.Answers.{lexed_by, AreTokensOf};
ghost use Rattle.lrlex_handles.specs.Buffers.{filled, put_token};
ghost use Rattle.lrlex_handles.specs.Objects.{document_in};
ghost use Rattle.lrlex_handles.specs.declared.object.Object.TheVariants.{Document as Kept};

use crate::documents::Document;
use crate::handle::{Handle, with_object};
use crate::lexing::lexed_of;
use crate::object::{Edited, Object};
use crate::status::{MISUSE, OK};
use crate::structs::{Lexed, Token};
use crate::taking::{put_document, take_document, with_document};
use crate::texts::{Item, copy_tokens};
use std::alloc::Global;

/// The items from this index on.
fn items_from(items: &[Item], first: usize) -> &[Item]
    ensures { result.now ≡ drop first items.now }
{
    &items[first.min(items.len())..]
}

fn tokens_by(document: &Document<'_>, first: usize, tokens: &mut [Token], out: &mut Lexed)
    ensures tokens { tokens.new
        ≡ filled put_token (drop first (items_by (λ n. n) lexeme_seen document.now.items))
        tokens.old }
    ensures lexed { out.new
        ≡ lexed_by (items_by (λ n. n) lexeme_seen document.now.items) document.now.boundaries }
{
    copy_tokens(items_from(document.items(), first), tokens);
    *out = lexed_of(document.items(), document.end(), document.end_state());
}

fn tokens_of(it: Edited, first: usize, tokens: &mut [Token], out: &mut Lexed) -> Edited
    ensures kept { document_in (Some (Kept result)) ≡ document_in (Some (Kept it)) }
    ensures tokens { AreTokensOf (definition_of (λ n. n) (arc_value it.definition))
        (lexed_bytes it.text) first tokens.old tokens.new out.new }
{
    let Edited { definition, text } = it;
    let document = Document::of_text(&definition, text);
    tokens_by(&document, first, tokens, out);
    let text = document.into_text();
    Edited { definition, text }
}

fn tokens_in(object: &mut Object, first: usize, tokens: &mut [Token], out: &mut Lexed) -> i32
    ensures kept { document_in (Some object.new) ≡ document_in (Some object.old) }
    ensures misused { result ≡ pos 4 ↔ document_in (Some object.old) ≡ None }
    ensures done { result ≡ pos 0 → IfSome (document_in (Some object.old))
        (λ d. AreTokensOf d.0 d.1 first tokens.old tokens.new out.new) }
{
    with_document!(object, |it| (tokens_of(it, first, tokens, out), OK))
}

/// The lexemes of the document from this index on, as many as there is room for, and how lexing went: `count` of `out` counts all
/// lexemes, those before `first` too.
pub fn tokens_from(
    alloc: Global,
    handle: &mut Handle,
    first: usize,
    tokens: &mut [Token],
    out: &mut Lexed,
) -> i32
    ensures kept { document_in handle.new.value ≡ document_in handle.old.value }
    ensures misused { result ≡ pos 4 ↔ document_in handle.old.value ≡ None }
    ensures done { result ≡ pos 0 → IfSome (document_in handle.old.value)
        (λ d. AreTokensOf d.0 d.1 first tokens.old tokens.new out.new) }
{
    with_object!(
        alloc,
        handle,
        MISUSE,
        |mut object| tokens_in(&mut object, first, tokens, out)
    )
}
