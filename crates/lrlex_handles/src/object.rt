//! What a handle can hold.
ghost use Rattle.std.specs.Prelude.{string_bytes};
ghost use Rattle.std.specs.Arc.{arc_value};
ghost use Rattle.lrlex_base.specs.Lexemes.{lexeme_seen};
ghost use Rattle.lrlex_base.specs.Places.{AreBreaksOf};
ghost use Rattle.lrlex.specs.Document.{IsLexedBy};

use lrlex::{
    DefaultLexeme, DefaultLexerTypes, LRNonStreamingLexerDef, LexBuildError, LexedText,
    NewlineCache, ScanPlace,
};
use std::alloc::Global;
use std::marker::Model;
use std::sync::Arc;

/// A definition with ids of 32 bits.
pub(crate) type Definition = LRNonStreamingLexerDef<DefaultLexerTypes<u32>>;

/// The faults of a rule text, the text, and where its lines begin.
#[derive(Drop)]
pub(crate) struct Refusal {
    pub(crate) faults: Vec<LexBuildError>,
    pub(crate) rules: String,
    pub(crate) newlines: NewlineCache,
    ghost breaks: { AreBreaksOf (string_bytes rules) newlines },
}

/// A text that was lexed by a definition, and that definition, of which it is an owner.
#[derive(Drop)]
pub(crate) struct Edited {
    pub(crate) definition: Arc<Definition, Global>,
    pub(crate) text: LexedText<DefaultLexeme<u32>>,
    ghost lexed: { IsLexedBy (λ n. n) lexeme_seen (arc_value definition).table text },
}

/// A text that is scanned by a definition, that definition, of which it is an owner, and the place up to which that has come.
#[derive(Drop)]
pub(crate) struct Scanning {
    pub(crate) definition: Arc<Definition, Global>,
    pub(crate) text: String,
    pub(crate) at: ScanPlace,
}

impl Model for Scanning {
    ghost use Rattle.std.specs.String.{string_bytes};
    ghost use Rattle.std.specs.Arc.{arc_value};
    ghost use Rattle.lrlex.specs.Scanner.{IsPlaceOf, Scanned, standing};
    ghost use Rattle.lrlex.specs.Views.{definition_of};
    ghost use Rattle.lrlex.specs.Work.{most_cells_of};

    ghost Value = { Scanned };

    ghost view = { λ s. standing (definition_of (λ n. n) (arc_value s.definition))
        (string_bytes s.text) s.at
        (most_cells_of (arc_value s.definition) (string_bytes s.text)) };

    ghost invariant = { λ s. IsPlaceOf (definition_of (λ n. n) (arc_value s.definition))
        (string_bytes s.text) s.at };
}

/// What a handle can hold.
#[derive(Drop)]
pub enum Object {
    Nothing,
    Definition(Arc<Definition, Global>),
    Refusal(Refusal),
    Document(Edited),
    Scanner(Scanning),
}
