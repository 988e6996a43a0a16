//! The whole text as it was cut.
ghost use Rattle.std.specs.Prelude.{ℕ, ◌≡◌, ◌+◌, ◌<◌, ◌≤◌, true, List, IfOk, IsCharBoundary, drop, length, slice_range, vec_len};
ghost use Rattle.lrlex_rules.specs.Active.{is_state};
ghost use Rattle.lrlex_definition.specs.RuleTable.{AreOf};
ghost use Rattle.lrlex.specs.Searcher.{IsSearcherOf};
ghost use Rattle.lrlex_boundaries.specs.Boundaries.{Boundary, boundary_at};
ghost use Rattle.lrlex_rules.specs.Definition.{Definition};
ghost use Rattle.lrlex.specs.Pieces.{IsPiece, AreTilesOfRun, ArePieces, ArePiecesIn, ArePiecesOfRun, joined};
ghost use Rattle.lrlex.specs.declared.reading.pieces.Piece.{Piece as ThePiece};
ghost use Rattle.lrlex.specs.Reach.{IsLexed, IsRun};
ghost use Rattle.lrlex_rules.specs.Tiling.{Item, Wins};
ghost use Rattle.lrlex_definition.specs.RuleTable.{definition_by};
ghost use Rattle.lrlex.specs.Views.{definition_of};

use crate::editing::restart::count_up_to;
use crate::lexing::run::LexRun;
use crate::lexing::stack::top_of;
use crate::lexing::winner::{Searcher, Tile};
use lrlex_base::{LexerTypes, Numbered, Span};
use lrlex_boundaries::Boundaries;
use lrlex_definition::{RuleTable, StateRules};
use lrlex_rules::LRLexError;
use std::alloc::{AllocError, Global};

/// A tile of a text.
#[derive(Clone, Copy, Debug, PartialEq, Eq)]
pub struct Piece<'d, 't> {
    /// The place of the rule that cut it, counted from 0 (`get_rule`).
    pub rule: usize,
    /// The rule's name. A piece without a name gives no lexeme.
    pub name: Option<&'d str>,
    pub span: Span,
    pub text: &'t str,
}

/// The winner of the text, which has one.
fn tile_of<'d, S: Numbered>(
    alloc: Global,
    table: &'d RuleTable<S>,
    state: usize,
    rules: StateRules<'d>,
    searcher: &mut Searcher<'d, '_>,
    place: usize,
    text: &str,
) -> Result<Tile, AllocError>
    requires rules { AreOf S.number table.now state rules }
    requires searcher { (input : List ℕ) × IsSearcherOf table.now input searcher.old
        × (text.now ≡ drop place input) × (place ≤ length input) }
    requires some { (t : ℕ × ℕ) × Wins (definition_by S.number table.now) state
        text.now t.0 t.1 }
    ensures wins { IfOk result (λ t. Wins (definition_by S.number table.now) state
        text.now t.rule t.len) }
    ensures boundary { IfOk result (λ t. IsCharBoundary text.now t.len) }
    ensures rule { IfOk result (λ t. t.rule < vec_len table.now.rules) }
    ensures searcher { IfOk result (λ _. (input : List ℕ) →
        IsSearcherOf table.now input searcher.old →
        IsSearcherOf table.now input searcher.new) }
{
    let mut asked = 0;
    let scan = searcher.winner(alloc, table, state, rules, place, text, &mut asked)?;
    Ok(scan.winner.unwrap())
}

/// The tile from this place on.
fn piece_of<'d, 't, S: Numbered>(
    table: &'d RuleTable<S>,
    text: &'t str,
    place: usize,
    tile: Tile,
) -> Piece<'d, 't>
    requires rule { tile.rule < vec_len table.now.rules }
    requires begins { IsCharBoundary text.now place }
    requires ends { IsCharBoundary text.now (place + tile.len) }
    ensures { IsPiece (definition_by S.number table.now) text.now place
        (record { rule = tile.rule; len = tile.len }) result }
{
    let end = place + tile.len;
    Piece {
        rule: tile.rule,
        name: table.rules[tile.rule].name(),
        span: Span::new(place, end),
        text: &text[place..end],
    }
}

/// The tiles between two boundaries, in order.
fn pieces_between<'d, 't, S: Numbered>(
    alloc: Global,
    table: &'d RuleTable<S>,
    text: &'t str,
    boundaries: &Boundaries,
    first: usize,
    last: usize,
) -> Result<Vec<Piece<'d, 't>>, AllocError>
    requires initial { is_state (definition_by S.number table.now) 0 ≡ true }
    requires lexed { (found : List Item) × IsLexed (definition_by S.number table.now)
        text.now found boundaries.now }
    requires order { first ≤ last }
    requires within { last < length boundaries.now }
    ensures tiles { IfOk result (λ pieces. AreTilesOfRun
        (definition_by S.number table.now) text.now boundaries.now first
        pieces.items) }
    ensures many { IfOk result (λ pieces. first + vec_len pieces ≡ last) }
{
    let mut pieces = Vec::with_capacity(alloc, last - first)?;
    let mut searcher = Searcher::new(alloc, table, text)?;
    let mut rules = table.rules_in(0);
    let mut place = boundaries.place(first);
    'tiles: for index in first..last {
        let state = top_of(boundaries.stack(index));
        rules = table.rules_at(rules, state);
        let rest = &text[place..];
        let tile = tile_of(alloc, table, state, rules, &mut searcher, place, rest)?;
        pieces.push(piece_of(table, text, place, tile))?;
        place += tile.len;
    }
    Ok(pieces)
}

/// The tiles of the text, in order.
pub(crate) fn pieces_of<'d, 't, S: Numbered>(
    alloc: Global,
    table: &'d RuleTable<S>,
    text: &'t str,
    boundaries: &Boundaries,
) -> Result<Vec<Piece<'d, 't>>, AllocError>
    requires { (found : List Item) × IsRun (definition_by S.number table.now) text.now
        found boundaries.now }
    ensures { IfOk result (λ pieces. ArePieces
        (definition_by S.number table.now) text.now boundaries.now pieces.items) }
{
    if !table.is_state(0) {
        return Ok(Vec::new(alloc));
    }
    let last = boundaries.len() - 1;
    pieces_between(alloc, table, text, boundaries, 0, last)
}

/// The tiles that have a byte in `from..to`, in order.
pub(crate) fn pieces_in<'d, 't, S: Numbered>(
    alloc: Global,
    table: &'d RuleTable<S>,
    text: &'t str,
    boundaries: &Boundaries,
    from: usize,
    to: usize,
) -> Result<Vec<Piece<'d, 't>>, AllocError>
    requires { (found : List Item) × IsRun (definition_by S.number table.now) text.now
        found boundaries.now }
    ensures { IfOk result (λ pieces. ArePiecesIn
        (definition_by S.number table.now) text.now boundaries.now from to
        pieces.items) }
{
    if from >= to || !table.is_state(0) {
        return Ok(Vec::new(alloc));
    }
    let first = count_up_to(boundaries, from) - 1;
    let last = count_up_to(boundaries, to - 1).min(boundaries.len() - 1);
    pieces_between(alloc, table, text, boundaries, first, last)
}

impl<'lexer, 'input, L: LexerTypes<LexErrorT = LRLexError>> LexRun<'lexer, 'input, L> {
    /// The whole text up to its end or to the error, as it was cut: the tiles of unnamed rules too, in order. A run doesn't
    /// keep which rule cut a tile: each tile is looked for once more, and the rules that have no table are matched by `regex` again.
    pub fn pieces(&self, alloc: Global) -> Result<Vec<Piece<'lexer, 'input>>, AllocError>
        ensures { IfOk result (λ pieces. ArePieces
            (definition_of L.StorageT.number self.now.definition) self.now.text
            self.now.boundaries pieces.items) }
    {
        pieces_of(
            alloc,
            &self.definition.table,
            self.text,
            &self.lexed.boundaries,
        )
    }

    /// The pieces that have a byte in `from..to`, in order, such as those of the lines that an editor shows. Each is whole: the
    /// first may begin before `from`, and the last end after `to`. Any numbers will do: past the text's end there are none,
    /// nor where `from` isn't before `to`. Both ends are found by halving, so it takes time for the rules and for what the
    /// tiles of these pieces look at, and none for the rest of the text.
    pub fn pieces_in(
        &self,
        alloc: Global,
        from: usize,
        to: usize,
    ) -> Result<Vec<Piece<'lexer, 'input>>, AllocError>
        ensures { IfOk result (λ pieces. ArePiecesIn
            (definition_of L.StorageT.number self.now.definition) self.now.text
            self.now.boundaries from to pieces.items) }
    {
        pieces_in(
            alloc,
            &self.definition.table,
            self.text,
            &self.lexed.boundaries,
            from,
            to,
        )
    }
}

/// What the pieces of a run say of it. Joined, they are its text up to the place where lexing ended, and those of a part are the
/// text between two boundaries. The run's lexemes are those of the named pieces, in order. Behind these it has only what that
/// end gives: nothing at the text's end, else the error that stopped lexing, and before the error the lexeme of a rule whose
/// target is no state.
pub fn piece_laws()
    ensures all { (d : Definition) (text : List ℕ) (found : List Item) (bounds : List Boundary)
        (h : IsLexed d text found bounds) (pieces : List ThePiece)
        → ArePieces d text bounds pieces → ArePiecesOfRun d text found bounds h pieces }
    ensures part { (d : Definition) (text : List ℕ) (found : List Item) (bounds : List Boundary)
        (first : ℕ) (pieces : List ThePiece) → IsRun d text found bounds
        → AreTilesOfRun d text bounds first pieces → joined pieces
        ≡ slice_range text (boundary_at bounds first).place
        (boundary_at bounds (first + length pieces)).place }
{}
