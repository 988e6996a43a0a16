// What no single call's contract states: each law is the contract of a function that needs no caller.
ghost use Rattle.std.specs.Prelude.{◌≡◌, ◌↔◌, IsTrue, length};
ghost use Rattle.lrlex_base.specs.Spans.{as_span};
ghost use Rattle.lrlex_base.specs.Lexemes.{lexeme_seen};
ghost use Rattle.lrlex_base.specs.declared.spans.Span.{Span};
ghost use Rattle.lrlex_base.specs.declared.defaults.DefaultLexeme.{DefaultLexeme};

use crate::defaults::DefaultLexeme;
use crate::ids::Id;
use crate::lexers::{Items, LexerTypes};
use crate::spans::Span;
use std::hash::Hash;

/// Two spans are equal exactly where their ends are, and equal spans hash alike.
pub fn span_laws()
    ensures equal { (a b : Span) →
        IsTrue (⟦<Span as PartialEq>⟧.eq a b) ↔ (as_span a ≡ as_span b) }
    ensures hash { (a b : Span) → IsTrue (⟦<Span as PartialEq>⟧.eq a b)
        → ⟦<Span as Hash>⟧.hash_input a ≡ ⟦<Span as Hash>⟧.hash_input b }
{}

/// Two lexemes are equal exactly where ids, spans and faultiness are, and equal lexemes hash alike.
pub fn lexeme_laws<StorageT: Id>()
    ensures equal { (a b : DefaultLexeme StorageT) →
        IsTrue (⟦<DefaultLexeme<StorageT> as PartialEq>⟧.eq a b)
        ↔ (lexeme_seen a ≡ lexeme_seen b) }
    ensures hash { (a b : DefaultLexeme StorageT) →
        IsTrue (⟦<DefaultLexeme<StorageT> as PartialEq>⟧.eq a b)
        → ⟦<DefaultLexeme<StorageT> as Hash>⟧.hash_input a
        ≡ ⟦<DefaultLexeme<StorageT> as Hash>⟧.hash_input b }
{}

/// `Items` ends after as many items as its slice has, which it answers.
pub fn items_end<L: LexerTypes>(items: &[Result<L::LexemeT, L::LexErrorT>]) -> usize
    ensures { result ≡ length items.now }
{
    Items::<L>::new(items).count()
}
