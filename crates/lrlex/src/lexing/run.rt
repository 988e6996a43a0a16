ghost use Rattle.std.specs.Prelude.{◌≡◌, ℕ, ◌-◌, ◌*◌, ◌<◌, ◌≤◌, false, List, [], length, vec_len, IfOk, MatchOption, Some, option_map, slice_index};
ghost use Rattle.lrlex_rules.specs.Definition.{Definition};
ghost use Rattle.lrlex_rules.specs.Active.{is_state};
ghost use Rattle.lrlex_boundaries.specs.Boundaries.{boundary_at, last_entries, most_entries};
ghost use Rattle.lrlex_boundaries.specs.Entries.{AreEntries};
ghost use Rattle.lrlex.specs.Reach.{IsRun, searches};
ghost use Rattle.lrlex.specs.Searches.{asks, asks_by};
ghost use Rattle.lrlex.specs.Lookahead.{LooksAhead};
ghost use Rattle.lrlex_definition.specs.RuleTable.{definition_by};
ghost use Rattle.lrlex.specs.Views.{definition_of, items_by};
ghost use Rattle.lrlex.specs.Work.{HasLinearWork, IsLinearIn};
ghost use Rattle.lrlex_boundaries.specs.Entering.{AllKeepEnd, IsEntering};
ghost use Rattle.lrlex.specs.LexRun.{IsRunOf, HasItemLaws, end_of, end_state_of};
ghost use Rattle.lrlex_rules.specs.RuleParts.{state_number};
ghost use Rattle.lrlex.specs.Changes.{all_new};
ghost use Rattle.lrlex.specs.Progress.{HasFinished};

use crate::definition::non_streaming::LRNonStreamingLexerDef;
use crate::editing::changes::Changed;
use crate::lexing::plain::{Pace, take_ahead};
use crate::lexing::stack::top_of;
use crate::lexing::step::{Progress, advance, begin, push_error};
use crate::lexing::winner::Searcher;
use lrlex_base::{Lexeme, LexerTypes, Numbered};
use lrlex_boundaries::room::copied;
use lrlex_boundaries::{Boundaries, entered_by};
use lrlex_definition::RuleTable;
use lrlex_rules::{LRLexError, StartStateId};
use std::alloc::{AllocError, Global};
use std::marker::Model;

/// What lexing a text gave.
#[derive(Drop)]
pub struct LexRun<'lexer, 'input, L: LexerTypes<LexErrorT = LRLexError>> {
    pub(crate) definition: &'lexer LRNonStreamingLexerDef<L>,
    pub(crate) text: &'input str,
    pub(crate) lexed: Lexed<L::LexemeT>,
}

impl<'lexer, 'input, L: LexerTypes<LexErrorT = LRLexError>> Model for LexRun<'lexer, 'input, L> {
    ghost use Rattle.std.specs.Coded.{codes};
    ghost use Rattle.regex_hir.specs.contracts.hir.Hir as hir;
    ghost use Rattle.lrlex.specs.Reach.{IsRun};
    ghost use Rattle.lrlex.specs.Lookahead.{LooksAhead};
    ghost use Rattle.lrlex.specs.Views.{definition_of, items_by};
    ghost use Rattle.lrlex.specs.LexRun.{Run};
    ghost use Rattle.lrlex_rules.specs.declared.errors.LRLexError.{LRLexError};
    ghost use Rattle.lrlex.specs.declared.definition.non_streaming.LRNonStreamingLexerDef.{LRNonStreamingLexerDef};

    ghost Value = { Run (LRNonStreamingLexerDef L L.LexemeT L.StorageT LRLexError) L.LexemeT };

    ghost coded = { Prim.hlevel (codes, hir.the_row.coded) };

    ghost view = { λ r. record {
      definition = r.definition.now;
      text = r.text.now;
      items = r.lexed.items.items;
      boundaries = r.lexed.boundaries;
      ahead = r.lexed.ahead.items;
      asked = r.lexed.asked;
      recut = r.lexed.recut;
      looked = r.lexed.looked;
      changed = r.lexed.changed;
    } };

    ghost invariant = { λ r. ∥ LooksAhead (definition_of L.StorageT.number r.definition.now) r.text.now r.lexed.boundaries r.lexed.ahead.items ∥₁
        × ∥ IsRun (definition_of L.StorageT.number r.definition.now) r.text.now (items_by L.StorageT.number L.LexemeT.seen r.lexed.items.items) r.lexed.boundaries ∥₁ };
}

impl<'lexer, 'input, L: LexerTypes<LexErrorT = LRLexError>> LexRun<'lexer, 'input, L> {
    /// Does nothing: its contract says what each run is, for whoever is lent one. It is what lexing its text by its definition
    /// gives, its items have the laws of the items of each run, and its boundaries tell how far the tiles before them looked.
    pub fn laws(&self)
        ensures run { IsRunOf L.StorageT.number L.LexemeT.seen self.now.definition self.now.text
            self.now }
        ensures items { HasItemLaws L.StorageT.number L.LexemeT.seen self.now.definition
            self.now.text self.now }
        ensures looks { LooksAhead (definition_of L.StorageT.number self.now.definition)
            self.now.text self.now.boundaries self.now.ahead }
    {
        // the invariant is known where a field is read
        let _ = &self.lexed;
    }

    /// The lexemes, and an error at the end where lexing stopped early.
    pub fn items(&self) -> &[Result<L::LexemeT, LRLexError>]
        ensures { result.now ≡ self.now.items }
    {
        &self.lexed.items
    }

    /// The text that was lexed.
    pub fn text(&self) -> &'input str
        ensures { result.now ≡ self.now.text }
    {
        self.text
    }

    /// The definition that it was lexed by.
    pub fn definition(&self) -> &'lexer LRNonStreamingLexerDef<L>
        ensures { result.now ≡ self.now.definition }
    {
        self.definition
    }

    /// How many tiles the text was cut into.
    pub fn tiles(&self) -> usize
        ensures { result ≡ length self.now.boundaries - 1 }
    {
        self.lexed.boundaries.len().saturating_sub(1)
    }

    /// How many searches the call that made this run needed.
    pub fn asked(&self) -> u128
        ensures { result ≡ self.now.asked }
    {
        self.lexed.asked
    }

    /// How many tiles the call that made this run cut anew. `relex` takes over the others from the old run.
    pub fn recut_tiles(&self) -> usize
        ensures { result ≡ self.now.recut }
    {
        self.lexed.recut
    }

    /// How many cells of tables the call that made this run looked at. The end of the text counts as one, and looking for many tiles
    /// ahead as twice the bytes that it was for. It stays at the greatest number, once it is there. None where memory for what
    /// bounds it was refused. Searches of `regex` aren't counted.
    pub fn looked(&self) -> Option<usize>
        ensures { result ≡ self.now.looked }
    {
        self.lexed.looked
    }

    /// The greatest number of entries of a boundary's stack.
    pub fn entries_peak(&self) -> usize
        ensures { result ≡ most_entries self.now.boundaries }
    {
        self.lexed.boundaries.peak()
    }

    /// The place up to which the text was lexed: its length, or the place of the error that stopped lexing.
    pub fn end(&self) -> usize
        ensures { result ≡ end_of self.now.boundaries }
    {
        end_of(&self.lexed.boundaries)
    }

    /// The start state at `end()`: the top of the stack there. A text that ends inside a string or a comment ends in the state
    /// of that string or comment. None where the definition has no state 0.
    pub fn end_state(&self) -> Option<StartStateId>
        ensures { option_map state_number result ≡ end_state_of self.now.boundaries }
    {
        end_state_of(&self.lexed.boundaries)
    }

    /// The tile that entered the start state at `end()`, counted from 0: the last one before which the stack lacked the entry on top
    /// there. None where the text began in that state and no tile left it, as is usual for `INITIAL`.
    pub fn entered_by(&self) -> Option<usize>
        ensures { MatchOption result (AllKeepEnd self.now.boundaries)
            (IsEntering self.now.boundaries) }
    {
        entered_by(&self.lexed.boundaries)
    }

    /// One more than the tiles, or 0 without a state 0.
    pub fn boundaries(&self) -> usize
        ensures { result ≡ length self.now.boundaries }
    {
        self.lexed.boundaries.len()
    }

    /// The offset of the boundary in the text, in bytes. Boundary `index` comes after so many tiles.
    pub fn place(&self, index: usize) -> usize
        requires { index < length self.now.boundaries }
        ensures { result ≡ (boundary_at self.now.boundaries index).place }
    {
        self.lexed.boundaries.place(index)
    }

    /// How many bytes past the boundary's place the tiles before it looked. 255 means more, or unknown.
    pub fn ahead(&self, index: usize) -> u8
        requires { index < length self.now.boundaries }
        ensures { result ≡ slice_index self.now.ahead index }
    {
        self.lexed.ahead[index]
    }

    /// The boundary's stack from bottom to top, as entries: each a count of equal neighbours and their state.
    pub fn stack(&self, index: usize) -> &[(usize, usize)]
        requires { index < length self.now.boundaries }
        ensures stack { result.now ≡ (boundary_at self.now.boundaries index).entries }
        ensures entries { AreEntries result.now }
    {
        self.lexed.boundaries.stack(index)
    }
}

/// What lexing a text gave, by a rule table.
#[derive(Drop)]
pub(crate) struct Lexed<X> {
    pub(crate) items: Vec<Result<X, LRLexError>>,
    pub(crate) boundaries: Boundaries,
    pub(crate) asked: u128,
    /// For each boundary, how many bytes past its place the tiles before it looked. 255 means more, or unknown.
    pub(crate) ahead: Vec<u8>,
    /// How many tiles were cut anew.
    pub(crate) recut: usize,
    /// How many cells of tables were looked at, if that is known.
    pub(crate) looked: Option<usize>,
    /// Which items and which tiles went, and which came.
    pub(crate) changed: Changed,
}

impl<X: Copy> Lexed<X> {
    ghost use Rattle.lrlex.specs.Progress.{HasSame};

    /// A copy of it.
    pub(crate) fn copied(&self, alloc: Global) -> Result<Lexed<X>, AllocError>
        ensures { IfOk result (HasSame self.now) }
    {
        Ok(Lexed {
            items: copied(alloc, &self.items)?,
            boundaries: self.boundaries.copied(alloc)?,
            asked: self.asked,
            ahead: copied(alloc, &self.ahead)?,
            recut: self.recut,
            looked: self.looked,
            changed: self.changed,
        })
    }
}

impl<X> Lexed<X> {
    /// The items alone.
    pub(crate) fn into_items(self) -> Vec<Result<X, LRLexError>>
        ensures { result.items ≡ self.items.items }
    {
        self.items
    }
}

/// The place up to which a text with these boundaries was lexed, or 0 without a boundary.
pub(crate) fn end_of(boundaries: &Boundaries) -> usize
    ensures { result ≡ end_of boundaries.now }
{
    match boundaries.len().checked_sub(1) {
        Some(last) => boundaries.place(last),
        None => 0,
    }
}

/// The start state at the last boundary, if there is one: the top of its stack.
pub(crate) fn end_state_of(boundaries: &Boundaries) -> Option<StartStateId>
    requires { 0 < length boundaries.now → AreEntries (last_entries boundaries.now) }
    ensures { option_map state_number result ≡ end_state_of boundaries.now }
{
    match boundaries.len().checked_sub(1) {
        Some(last) => Some(StartStateId::new(top_of(boundaries.stack(last)))),
        None => None,
    }
}

/// Without a state 0: an error alone.
fn stateless<S: Numbered, X: Lexeme<S>>(alloc: Global) -> Result<Lexed<X>, AllocError>
    ensures run { (d : Definition) (text : List ℕ) → is_state d 0 ≡ false → IfOk result (λ r.
        IsRun d text (items_by S.number X.seen r.items.items) r.boundaries) }
    ensures looks { (d : Definition) (text : List ℕ) → IfOk result (λ r.
        LooksAhead d text r.boundaries r.ahead.items) }
    ensures asked { IfOk result (λ r. r.asked ≡ 0) }
    ensures none { IfOk result (λ r. r.boundaries ≡ []) }
    ensures lexed { IfOk result (λ r. r.recut ≡ 0) }
    ensures looked { IfOk result (λ r. r.looked ≡ Some 0) }
    ensures changed { IfOk result (λ r. r.changed ≡ all_new (vec_len r.items) 0) }
{
    let mut items = Vec::new(alloc);
    push_error::<S, X>(&mut items, 0, None)?;
    Ok(Lexed {
        items,
        boundaries: Boundaries::new(alloc),
        asked: 0,
        ahead: Vec::new(alloc),
        recut: 0,
        looked: Some(0),
        changed: Changed::all_new(1, 0),
    })
}

/// What was found, once lexing has come to its end, and how many cells were looked at.
fn finished<X>(progress: Progress<X>, looked: Option<usize>) -> Lexed<X>
    ensures { HasFinished progress (length progress.boundaries - 1) looked result }
{
    let Progress {
        place: _,
        stack: _,
        items,
        boundaries,
        asked,
        ahead,
        lookahead: _,
    } = progress;
    let recut = boundaries.len().saturating_sub(1);
    let changed = Changed::all_new(items.len(), recut);
    Lexed {
        items,
        boundaries,
        asked,
        ahead,
        recut,
        looked,
        changed,
    }
}

/// Cuts the text into tiles, from state 0 on.
pub(crate) fn lex<S: Numbered, X: Lexeme<S>>(
    alloc: Global,
    table: &RuleTable<S>,
    text: &str,
) -> Result<Lexed<X>, AllocError>
    ensures run { IfOk result (λ r. IsRun (definition_by S.number table.now) text.now
        (items_by S.number X.seen r.items.items) r.boundaries) }
    ensures looks { IfOk result (λ r. LooksAhead (definition_by S.number table.now) text.now
        r.boundaries r.ahead.items) }
    ensures asked { IfOk result (λ r. r.asked ≤ searches
        (definition_by S.number table.now) text.now r.boundaries) }
    ensures few { IfOk result (λ r. r.asked ≤ length r.boundaries * length
        (definition_by S.number table.now).rules) }
    ensures exact { IfOk result (λ r. r.asked ≡ asks_by table.now text.now r.boundaries) }
    ensures lexed { IfOk result (λ r. r.recut ≡ length r.boundaries - 1) }
    ensures linear { IfOk result (λ r. IsLinearIn table.now text.now (length text.now) r.looked) }
    ensures changed { IfOk result (λ r. r.changed ≡ all_new (length r.items.items)
        (length r.boundaries - 1)) }
{
    if !table.is_state(0) {
        return stateless::<S, X>(alloc);
    }
    let mut searcher = Searcher::new(alloc, table, text)?;
    let mut progress = begin(alloc, text)?;
    let mut rules = table.rules_in(0);
    let mut pace = Pace::new();
    'tiles: while progress.place < text.len() {
        table.enter(&mut rules, top_of(progress.stack.as_slice()));
        take_ahead(table, text, rules, &mut searcher, &mut progress, &mut pace)?;
        let goes_on = advance(alloc, table, text, &mut rules, &mut searcher, &mut progress)?;
        if !goes_on {
            return Ok(finished(progress, searcher.looked(table)));
        }
    }
    Ok(finished(progress, searcher.looked(table)))
}

impl<L: LexerTypes<LexErrorT = LRLexError>> LRNonStreamingLexerDef<L> {
    /// Cuts the text into tiles, from state 0 on: at each place the rule wins that matches the most bytes there, and of
    /// several the earliest. It stops where no rule matches, where the winner has a name and no id, and where its target
    /// is no state. The cells of tables that it looks at are linear in the text, where memory for dead ends suffices.
    pub fn run<'lexer, 'input>(
        &'lexer self,
        alloc: Global,
        text: &'input str,
    ) -> Result<LexRun<'lexer, 'input, L>, AllocError>
        ensures run { IfOk result (IsRunOf L.StorageT.number L.LexemeT.seen self.now text.now) }
        ensures laws { IfOk result (HasItemLaws L.StorageT.number L.LexemeT.seen self.now
            text.now) }
        ensures definition { IfOk result (λ r. r.definition ≡ self.now) }
        ensures text { IfOk result (λ r. r.text ≡ text.now) }
        ensures asked { IfOk result (λ r. r.asked ≤ searches
            (definition_of L.StorageT.number self.now) text.now r.boundaries) }
        ensures few { IfOk result (λ r. r.asked ≤ length r.boundaries * length
            (definition_of L.StorageT.number self.now).rules) }
        ensures exact { IfOk result (λ r. r.asked ≡ asks self.now text.now r.boundaries) }
        ensures lexed { IfOk result (λ r. r.recut ≡ length r.boundaries - 1) }
        ensures linear { IfOk result (λ r. HasLinearWork self.now text.now r.looked) }
        ensures changed { IfOk result (λ r. r.changed ≡ all_new (length r.items)
            (length r.boundaries - 1)) }
    {
        let lexed = lex(alloc, &self.table, text)?;
        Ok(LexRun {
            definition: self,
            text,
            lexed,
        })
    }
}
