//! Which rules may win, and which are active.
ghost use Rattle.std.specs.Prelude.{◌≡◌, ◌≢◌, ◌<◌, ℕ, List, All, [], ◌∷◌, true, false, length, IfOk, slice_index_or};
ghost use Rattle.std.specs.List.{list_any};
ghost use Rattle.lrlex_rules.specs.Definition.{Definition};
ghost use Rattle.lrlex_table.specs.Reach.{IsText};
ghost use Rattle.lrlex_rules.specs.Active.{active_places, is_state};
ghost use Rattle.lrlex_definition.specs.Never.{NeverWinsAnywhere, HasNoTileOf, LacksState, WinsAtNoRow, enters};
ghost use Rattle.lrlex_definition.specs.Somewhere.{is_active_somewhere, is_asked_somewhere};
ghost use Rattle.lrlex_rules.specs.Tiling.{Tile, End, IsTiling, boundaries};
ghost use Rattle.lrlex.specs.Views.{definition_of};

use crate::definition::non_streaming::LRNonStreamingLexerDef;
use lrlex_base::LexerTypes;
use std::alloc::{AllocError, Global};

impl<L: LexerTypes> LRNonStreamingLexerDef<L> {
    /// For each rule, by its place, whether it may win in some start state.
    ///
    /// False where the rule wins no text in any start state, so that it gives no lexeme: a keyword below a rule that matches all
    /// that it does, a pattern that matches no byte, or a rule that is active in no start state. Also true of a rule of which
    /// that isn't known, since it has no table with the rules before it.
    pub fn may_win(&self, alloc: Global) -> Result<Vec<bool>, AllocError>
        ensures never { IfOk result (λ may. (k : ℕ) → slice_index_or may.items k true ≡ false →
            NeverWinsAnywhere (definition_of L.StorageT.number self.now) k) }
        ensures struck { IfOk result (λ may. (k : ℕ) → WinsAtNoRow self.now.table k →
            slice_index_or may.items k false ≡ false) }
        ensures each { IfOk result (λ may.
            length may.items ≡ length (definition_of L.StorageT.number self.now).rules) }
    {
        self.table.may_win(alloc)
    }

    /// For each rule, by its place, whether it is active in some start state. A rule that was passed to `from_rules` may be
    /// active in none.
    pub fn active_somewhere(&self, alloc: Global) -> Result<Vec<bool>, AllocError>
        ensures active { IfOk result (λ marks. (k : ℕ) →
            k < length (definition_of L.StorageT.number self.now).rules →
            slice_index_or marks.items k false
            ≡ is_active_somewhere (definition_of L.StorageT.number self.now) k) }
        ensures each { IfOk result (λ marks.
            length marks.items ≡ length (definition_of L.StorageT.number self.now).rules) }
    {
        self.table.active_somewhere(alloc)
    }

    /// For each rule, by its place, whether it has no table in some start state, so that `regex` matches it at each place where
    /// that state is on top.
    pub fn asked_somewhere(&self, alloc: Global) -> Result<Vec<bool>, AllocError>
        ensures asked { IfOk result (λ marks. (k : ℕ) →
            k < length (definition_of L.StorageT.number self.now).rules →
            slice_index_or marks.items k false ≡ is_asked_somewhere self.now.table k) }
        ensures each { IfOk result (λ marks.
            length marks.items ≡ length (definition_of L.StorageT.number self.now).rules) }
    {
        self.table.asked_somewhere(alloc)
    }

    /// The places of the rules that are active in the start state with this id, in order. None where no state has the id.
    pub fn active_rules(&self, id: usize) -> &[usize]
        ensures places { is_state (definition_of L.StorageT.number self.now) id ≡ true →
            result.now ≡ active_places (definition_of L.StorageT.number self.now).states
            (definition_of L.StorageT.number self.now).rules id }
        ensures none { is_state (definition_of L.StorageT.number self.now) id ≡ false →
            result.now ≡ [] }
    {
        self.table.active_rules(id)
    }
}

/// What it means that a rule never wins: no text has a tile of it, and lexing never ends after a match of it. A rule that is
/// active in no start state never wins. A start state other than 0 that no rule enters is on no stack.
pub fn never_laws()
    ensures tiles { (d : Definition) (k : ℕ) → NeverWinsAnywhere d k → is_state d 0 ≡ true →
        (text : List ℕ) → IsText text → (ts : List Tile) (e : End) →
        IsTiling d text (0 ∷ []) ts e → HasNoTileOf k ts e }
    ensures entered { (d : Definition) (q : ℕ) → q ≢ 0 → list_any (enters q) d.rules ≡ false →
        (place : ℕ) (ts : List Tile) → All (λ b. LacksState q b.1) (boundaries d place (0 ∷ []) ts) }
    ensures inactive { (d : Definition) (k : ℕ) → is_active_somewhere d k ≡ false →
        NeverWinsAnywhere d k }
{}
