//! A text that is edited, with what lexing it gives.
ghost use Rattle.std.specs.Prelude.{◌≡◌, ◌↔◌, ℕ, ◌+◌, ◌-◌, ◌<◌, ◌≤◌, false, [], length, IfOk, IfErr, IfSome, IsNone, MatchOption, OnOk, OnErr, IsCharBoundary, IsUtf8, option_map, slice_range};
ghost use Rattle.std.specs.String.{string_bytes, string_len, string_capacity};
ghost use Rattle.lrlex_base.specs.Edits.{edited};
ghost use Rattle.lrlex_base.specs.Places.{AreBreaksOf, place_of};
ghost use Rattle.lrlex_base.specs.Spans.{Fits, as_span, span, span_start, span_end};
ghost use Rattle.lrlex_boundaries.specs.Boundaries.{boundary_at};
ghost use Rattle.lrlex_rules.specs.Active.{is_state};
ghost use Rattle.lrlex.specs.Document.{HasChangedText, IsLexedBy, WasEdited, WasLeft, lexed_boundaries, lexed_bytes, lexed_items, shown_by};
ghost use Rattle.lrlex.specs.Lookahead.{LooksAhead};
ghost use Rattle.lrlex_positions.specs.Nearest.{IsNearest, FitsAt};
ghost use Rattle.lrlex.specs.Pieces.{ArePieces, ArePiecesIn};
ghost use Rattle.lrlex_boundaries.specs.Entering.{AllKeepEnd, IsEntering};
ghost use Rattle.lrlex.specs.LexRun.{IsRunOf, HasItemLaws, end_of, end_state_of};
ghost use Rattle.lrlex_rules.specs.RuleParts.{state_number};
ghost use Rattle.lrlex.specs.Reach.{IsRun};
ghost use Rattle.lrlex.specs.Changes.{all_new};
ghost use Rattle.lrlex.specs.Relex.{WasChanged, WasRelexed};
ghost use Rattle.lrlex.specs.Work.{HasLinearRecut, HasLinearWork, IsLinearIn};
ghost use Rattle.lrlex.specs.Searches.{asks, asks_by};
ghost use Rattle.lrlex.specs.Utf16.{utf16_position};
ghost use Rattle.lrlex_positions.specs.Lines.{AreLinesOf, HasPosition, IsNearestPlace};
ghost use Rattle.lrlex_positions.specs.Positions.{position_of, IsLastUpTo};
ghost use Rattle.lrlex_definition.specs.RuleTable.{definition_by};
ghost use Rattle.lrlex.specs.Views.{definition_of, items_by};
ghost use Rattle.lrlex.specs.declared.editing.document.EditError.TheVariants.{DoesNotFit};

use crate::definition::non_streaming::LRNonStreamingLexerDef;
use crate::editing::changes::Changed;
use crate::editing::relex::relex_in_place;
use crate::lexing::run::{Lexed, end_of, end_state_of, lex};
use crate::reading::pieces::{Piece, pieces_in, pieces_of};
use lrlex_base::{Edit, Lexeme, LexerTypes, NewlineCache, Numbered, Span};
use lrlex_boundaries::entered_by;
use lrlex_definition::RuleTable;
use lrlex_positions::{Lines, PositionEncoding, offset_at, place_of, position_at, text_of};
use lrlex_rules::{LRLexError, StartStateId};
use std::alloc::{AllocError, Global};
use std::error::Error;
use std::fmt;
use std::marker::Model;

/// Why an edit was not made.
#[derive(Clone, Copy, Debug, PartialEq, Eq)]
pub enum EditError {
    /// An end of the bytes to remove is past the text's end or inside a character, or the first end is after the second.
    DoesNotFit,
    OutOfMemory,
}

impl From<AllocError> for EditError {
    ghost use Rattle.std.specs.Prelude.{◌≡◌};
    ghost use Rattle.lrlex.specs.declared.editing.document.EditError.TheVariants.{OutOfMemory};

    ghost from_gives = { λ _ e. e ≡ OutOfMemory };

    fn from(_: AllocError) -> EditError {
        EditError::OutOfMemory
    }
}

impl fmt::Display for EditError {
    ghost use Rattle.std.specs.Prelude.{Some};
    ghost use Rattle.lrlex.specs.Errors.{edit_error_text};

    ghost output = { λ e. Some (edit_error_text e) };

    fn fmt<W: fmt::Write>(&self, f: &mut fmt::Formatter<W>) -> fmt::Result {
        f.write_str(match self {
            EditError::DoesNotFit => "The edit doesn't fit the text",
            EditError::OutOfMemory => "Out of memory",
        })
    }
}

impl Error for EditError {}

/// The edit that puts the text in the place of the bytes from `from` up to `to`, if it fits.
fn edit_at<'put>(text: &str, from: usize, to: usize, put: &'put str) -> Option<Edit<'put>>
    ensures fits { IfSome result (λ _. FitsAt text.now from to) }
    ensures removed { IfSome result (λ edit. as_span edit.removed ≡ span from to) }
    ensures put { IfSome result (λ edit. edit.put.now ≡ put.now) }
    ensures none { IsNone result → ¬ (FitsAt text.now from to) }
{
    if from > to {
        return None;
    }
    let edit = Edit {
        removed: Span::new(from, to),
        put,
    };
    if edit.fits(text) { Some(edit) } else { None }
}

/// Puts a text in the place of the bytes from `from` up to `to`. There is room for it beside all that is there.
fn put_text(text: &mut String, from: usize, to: usize, put: &str)
    requires fits { FitsAt (string_bytes text.old) from to }
    requires room { string_len text.old + length put.now ≤ string_capacity text.old }
    ensures text { string_bytes text.new ≡ edited (string_bytes text.old) (span from to) put.now }
    ensures capacity { string_capacity text.old ≤ string_capacity text.new }
{
    // it fails only where there is no room
    let _ = text.replace_range(from..to, put);
}

/// A text with the places of its newlines and lines, and what lexing it gave: a document without its definition. `Document::into_text` gives
/// it and `Document::of_text` takes it, so that a program can keep it beside the definition.
#[derive(Drop)]
pub struct LexedText<X> {
    text: String,
    newlines: NewlineCache,
    lines: Lines,
    lexed: Lexed<X>,
}

/// Lexes a copy of the text.
fn lexed_text<S: Numbered, X: Lexeme<S>>(
    alloc: Global,
    table: &RuleTable<S>,
    text: &str,
) -> Result<LexedText<X>, AllocError>
    ensures text { IfOk result (λ t. string_bytes t.text ≡ text.now) }
    ensures breaks { IfOk result (λ t. AreBreaksOf text.now t.newlines) }
    ensures lines { IfOk result (λ t. AreLinesOf text.now t.lines) }
    ensures run { IfOk result (λ t. IsRun (definition_by S.number table.now) text.now
        (items_by S.number X.seen t.lexed.items.items) t.lexed.boundaries) }
    ensures looks { IfOk result (λ t. LooksAhead (definition_by S.number table.now) text.now
        t.lexed.boundaries t.lexed.ahead.items) }
    ensures exact { IfOk result (λ t. t.lexed.asked ≡ asks_by table.now text.now
        t.lexed.boundaries) }
    ensures lexed { IfOk result (λ t. t.lexed.recut ≡ length t.lexed.boundaries - 1) }
    ensures linear { IfOk result (λ t. IsLinearIn table.now text.now (length text.now) t.lexed.looked) }
    ensures changed { IfOk result (λ t. t.lexed.changed ≡ all_new (length t.lexed.items.items)
        (length t.lexed.boundaries - 1)) }
{
    let newlines = NewlineCache::from_str(alloc, text)?;
    let lexed = lex(alloc, table, text)?;
    Ok(LexedText {
        text: String::from_str(alloc, text)?,
        newlines,
        lines: Lines::of(alloc, text),
        lexed,
    })
}

/// What an edit needs to be made, and unmade, without asking for memory: the places of the newlines after it, the bytes that it
/// removes, and room for those that it puts.
fn prepared(
    alloc: Global,
    text: &mut String,
    newlines: &NewlineCache,
    removed: Span,
    put: &str,
) -> Result<(NewlineCache, String), AllocError>
    requires breaks { AreBreaksOf (string_bytes text.old) newlines.now }
    requires fits { Fits (string_bytes text.old) removed }
    ensures text { string_bytes text.new ≡ string_bytes text.old }
    ensures room { IfOk result (λ _. string_len text.new + length put.now
        ≤ string_capacity text.new) }
    ensures breaks { IfOk result (λ made. AreBreaksOf (edited (string_bytes text.old)
        (as_span removed) put.now) made.0) }
    ensures gone { IfOk result (λ made. string_bytes made.1 ≡ slice_range (string_bytes text.old)
        (span_start removed) (span_end removed)) }
    ensures old_utf8 { IfOk result (λ _. IsUtf8 (string_bytes text.old)) }
    ensures put_utf8 { IfOk result (λ _. IsUtf8 put.now) }
{
    let mut newlines = newlines.clone()?;
    newlines.edit(removed, put)?;
    let gone = String::from_str(alloc, &text[removed.start()..removed.end()])?;
    text.reserve(put.len())?;
    Ok((newlines, gone))
}

/// Makes the edit, which fits, and lexes again what that changes. After a refusal all is what it was.
fn edit_in_place<S: Numbered, X: Lexeme<S>>(
    alloc: Global,
    table: &RuleTable<S>,
    it: &mut LexedText<X>,
    edit: &Edit<'_>,
) -> Result<(), AllocError>
    requires fits { Fits (string_bytes it.old.text) edit.now.removed }
    requires known { IsLexedBy S.number X.seen table.now it.old }
    ensures made { OnOk result (WasEdited S.number X.seen table.now (as_span edit.now.removed)
        edit.now.put.now it.old it.new) }
    ensures changed { OnOk result (HasChangedText S.number X.seen table.now
        (as_span edit.now.removed) edit.now.put.now it.old it.new) }
    ensures stateless { is_state (definition_by S.number table.now) 0 ≡ false →
        OnOk result (it.new.lexed.recut ≡ 0) }
    ensures kept { OnErr result (WasLeft it.old it.new) }
{
    let (newlines, gone) = prepared(alloc, &mut it.text, &it.newlines, edit.removed, edit.put)?;
    let from = edit.removed.start();
    let to = edit.removed.end();
    put_text(&mut it.text, from, to, edit.put);
    match relex_in_place(alloc, table, &mut it.lexed, edit, &it.text) {
        Ok((asked, changed, looked)) => {
            it.newlines = newlines;
            let lines = it.lines.after(alloc, edit, &it.text);
            it.lines = lines;
            it.lexed.asked = asked;
            it.lexed.recut = changed.pieces.inserted;
            it.lexed.looked = looked;
            it.lexed.changed = changed;
            Ok(())
        }
        Err(refused) => {
            put_text(&mut it.text, from, from + edit.put.len(), &gone);
            Err(refused)
        }
    }
}

/// Makes the edit of these bytes, if it fits.
fn edit_bytes<S: Numbered, X: Lexeme<S>>(
    alloc: Global,
    table: &RuleTable<S>,
    it: &mut LexedText<X>,
    from: usize,
    to: usize,
    put: &str,
) -> Result<(), EditError>
    requires { IsLexedBy S.number X.seen table.now it.old }
    ensures fits { OnOk result (FitsAt (string_bytes it.old.text) from to) }
    ensures made { OnOk result (WasEdited S.number X.seen table.now (span from to) put.now it.old
        it.new) }
    ensures changed { OnOk result (HasChangedText S.number X.seen table.now (span from to) put.now
        it.old it.new) }
    ensures stateless { is_state (definition_by S.number table.now) 0 ≡ false →
        OnOk result (it.new.lexed.recut ≡ 0) }
    ensures refused { IfErr result (λ e. e ≡ DoesNotFit
        ↔ ¬ (FitsAt (string_bytes it.old.text) from to)) }
    ensures kept { OnErr result (WasLeft it.old it.new) }
{
    match edit_at(&it.text, from, to, put) {
        Some(edit) => Ok(edit_in_place(alloc, table, it, &edit)?),
        None => Err(EditError::DoesNotFit),
    }
}

/// A text that it owns, with its lexemes, its boundaries and the places of its newlines and lines. An edit lexes again what it has to.
#[derive(Drop)]
pub struct Document<'lexer, L: LexerTypes<LexErrorT = LRLexError>> {
    definition: &'lexer LRNonStreamingLexerDef<L>,
    held: LexedText<L::LexemeT>,
}

impl<'lexer, L: LexerTypes<LexErrorT = LRLexError>> Model for Document<'lexer, L> {
    ghost use Rattle.std.specs.Coded.{codes};
    ghost use Rattle.std.specs.String.{string_bytes};
    ghost use Rattle.regex_hir.specs.contracts.hir.Hir as hir;
    ghost use Rattle.lrlex.specs.Document.{IsLexedBy};
    ghost use Rattle.lrlex.specs.LexRun.{Run};
    ghost use Rattle.lrlex_rules.specs.declared.errors.LRLexError.{LRLexError};
    ghost use Rattle.lrlex.specs.declared.definition.non_streaming.LRNonStreamingLexerDef.{LRNonStreamingLexerDef};

    ghost Value = { Run (LRNonStreamingLexerDef L L.LexemeT L.StorageT LRLexError) L.LexemeT };

    ghost coded = { Prim.hlevel (codes, hir.the_row.coded) };

    ghost view = { λ d. record {
      definition = d.definition.now;
      text = string_bytes d.held.text;
      items = d.held.lexed.items.items;
      boundaries = d.held.lexed.boundaries;
      ahead = d.held.lexed.ahead.items;
      asked = d.held.lexed.asked;
      recut = d.held.lexed.recut;
      looked = d.held.lexed.looked;
      changed = d.held.lexed.changed;
    } };

    ghost invariant = { λ d. IsLexedBy L.StorageT.number L.LexemeT.seen d.definition.now.table d.held };
}

impl<'lexer, L: LexerTypes<LexErrorT = LRLexError>> Document<'lexer, L> {
    /// A document that has this text.
    pub fn new(
        alloc: Global,
        definition: &'lexer LRNonStreamingLexerDef<L>,
        text: &str,
    ) -> Result<Self, AllocError>
        ensures run { IfOk result (IsRunOf L.StorageT.number L.LexemeT.seen definition.now
            text.now) }
        ensures laws { IfOk result (HasItemLaws L.StorageT.number L.LexemeT.seen definition.now
            text.now) }
        ensures definition { IfOk result (λ d. d.definition ≡ definition.now) }
        ensures text { IfOk result (λ d. d.text ≡ text.now) }
        ensures exact { IfOk result (λ d. d.asked ≡ asks definition.now text.now d.boundaries) }
        ensures lexed { IfOk result (λ d. d.recut ≡ length d.boundaries - 1) }
        ensures linear { IfOk result (λ d. HasLinearWork definition.now text.now d.looked) }
        ensures changed { IfOk result (λ d. d.changed ≡ all_new (length d.items)
            (length d.boundaries - 1)) }
    {
        let held = lexed_text(alloc, &definition.table, text)?;
        Ok(Document { definition, held })
    }

    /// The document of a text that was lexed by this definition. Nothing is lexed again.
    pub fn of_text(
        definition: &'lexer LRNonStreamingLexerDef<L>,
        held: LexedText<L::LexemeT>,
    ) -> Self
        requires { IsLexedBy L.StorageT.number L.LexemeT.seen definition.now.table held }
        ensures definition { result.definition ≡ definition.now }
        ensures text { result.text ≡ lexed_bytes held }
        ensures items { result.items ≡ lexed_items held }
        ensures boundaries { result.boundaries ≡ lexed_boundaries held }
        ensures shown { result ≡ shown_by definition.now held }
    {
        Document { definition, held }
    }

    /// The document without its definition, for `of_text`.
    pub fn into_text(self) -> LexedText<L::LexemeT>
        ensures lexed { IsLexedBy L.StorageT.number L.LexemeT.seen self.entry.definition.table
            result }
        ensures text { lexed_bytes result ≡ self.entry.text }
        ensures items { lexed_items result ≡ self.entry.items }
        ensures boundaries { lexed_boundaries result ≡ self.entry.boundaries }
        ensures shown { shown_by self.entry.definition result ≡ self.entry }
    {
        let Document { held, .. } = self;
        held
    }

    /// Puts a text in the place of the bytes from `from` up to `to`, and lexes again what that changes. After a refusal the
    /// document is what it was. The cells of tables that it looks at are linear in the bytes that it cuts anew, beside what the dead
    /// ends of the text take.
    pub fn edit(
        &mut self,
        alloc: Global,
        from: usize,
        to: usize,
        put: &str,
    ) -> Result<(), EditError>
        ensures definition { self.new.definition ≡ self.old.definition }
        ensures fits { OnOk result (FitsAt self.old.text from to) }
        ensures text { OnOk result (self.new.text ≡ edited self.old.text (span from to) put.now) }
        ensures run { OnOk result (IsRunOf L.StorageT.number L.LexemeT.seen self.new.definition
            self.new.text self.new) }
        ensures laws { OnOk result (HasItemLaws L.StorageT.number L.LexemeT.seen self.new.definition
            self.new.text self.new) }
        ensures counts { OnOk result (WasRelexed L.StorageT.number self.old.boundaries
            self.old.ahead (span from to) put.now self.new) }
        ensures changed { OnOk result (WasChanged L.StorageT.number L.LexemeT.seen (span from to)
            put.now self.old self.new) }
        ensures stateless { is_state (definition_of L.StorageT.number self.old.definition) 0 ≡ false →
            OnOk result (self.new.recut ≡ 0) }
        ensures linear { OnOk result (HasLinearWork self.new.definition self.new.text self.new.looked) }
        ensures recut { OnOk result (HasLinearRecut self.new.definition.table self.new.text
            self.new.boundaries self.new.changed.pieces self.new.looked) }
        ensures refused { IfErr result (λ e. e ≡ DoesNotFit ↔ ¬ (FitsAt self.old.text from to)) }
        ensures kept { OnErr result (self.new ≡ self.old) }
    {
        edit_bytes(alloc, &self.definition.table, &mut self.held, from, to, put)
    }

    /// Does nothing: its contract says what each document is, for whoever is lent one (`LexRun::laws`).
    pub fn laws(&self)
        ensures run { IsRunOf L.StorageT.number L.LexemeT.seen self.now.definition self.now.text
            self.now }
        ensures items { HasItemLaws L.StorageT.number L.LexemeT.seen self.now.definition
            self.now.text self.now }
        ensures looks { LooksAhead (definition_of L.StorageT.number self.now.definition)
            self.now.text self.now.boundaries self.now.ahead }
    {
        // the invariant is known where a field is read
        let _ = &self.held;
    }

    /// The text as it is now.
    pub fn text(&self) -> &str
        ensures { result.now ≡ self.now.text }
    {
        &self.held.text
    }

    /// The definition that it is lexed by.
    pub fn definition(&self) -> &'lexer LRNonStreamingLexerDef<L>
        ensures { result.now ≡ self.now.definition }
    {
        self.definition
    }

    /// The lexemes, and an error at the end where lexing stopped early.
    pub fn items(&self) -> &[Result<L::LexemeT, LRLexError>]
        ensures { result.now ≡ self.now.items }
    {
        &self.held.lexed.items
    }

    /// The whole text up to its end or to the error, as it was cut (`LexRun::pieces`).
    pub fn pieces(&self, alloc: Global) -> Result<Vec<Piece<'lexer, '_>>, AllocError>
        ensures { IfOk result (λ pieces. ArePieces
            (definition_of L.StorageT.number self.now.definition) self.now.text
            self.now.boundaries pieces.items) }
    {
        pieces_of(
            alloc,
            &self.definition.table,
            &self.held.text,
            &self.held.lexed.boundaries,
        )
    }

    /// The pieces that have a byte in `from..to` (`LexRun::pieces_in`).
    pub fn pieces_in(
        &self,
        alloc: Global,
        from: usize,
        to: usize,
    ) -> Result<Vec<Piece<'lexer, '_>>, AllocError>
        ensures { IfOk result (λ pieces. ArePiecesIn
            (definition_of L.StorageT.number self.now.definition) self.now.text
            self.now.boundaries from to pieces.items) }
    {
        pieces_in(
            alloc,
            &self.definition.table,
            &self.held.text,
            &self.held.lexed.boundaries,
            from,
            to,
        )
    }

    /// How many tiles the text was cut into.
    pub fn tiles(&self) -> usize
        ensures { result ≡ length self.now.boundaries - 1 }
    {
        self.held.lexed.boundaries.len().saturating_sub(1)
    }

    /// One more than the tiles, or 0 without a state 0.
    pub fn boundaries(&self) -> usize
        ensures { result ≡ length self.now.boundaries }
    {
        self.held.lexed.boundaries.len()
    }

    /// The offset of the boundary in the text, in bytes. Boundary `index` comes after so many tiles.
    pub fn boundary(&self, index: usize) -> usize
        requires { index < length self.now.boundaries }
        ensures { result ≡ (boundary_at self.now.boundaries index).place }
    {
        self.held.lexed.boundaries.place(index)
    }

    /// The boundary's stack from bottom to top, as entries: each a count of equal neighbours and their state.
    pub fn stack(&self, index: usize) -> &[(usize, usize)]
        requires { index < length self.now.boundaries }
        ensures { result.now ≡ (boundary_at self.now.boundaries index).entries }
    {
        self.held.lexed.boundaries.stack(index)
    }

    /// How many searches the last edit needed, or, where there was none yet, the text as a whole.
    pub fn asked(&self) -> u128
        ensures { result ≡ self.now.asked }
    {
        self.held.lexed.asked
    }

    /// How many tiles the last edit cut anew, or, where there was none yet, all. The others were taken over.
    pub fn recut_tiles(&self) -> usize
        ensures { result ≡ self.now.recut }
    {
        self.held.lexed.recut
    }

    /// How many cells of tables the last edit looked at, or, where there was none yet, lexing the text as a whole, counted as
    /// `LexRun::looked` counts them. None where memory for what bounds it was refused.
    pub fn looked(&self) -> Option<usize>
        ensures { result ≡ self.now.looked }
    {
        self.held.lexed.looked
    }

    /// Which items and which pieces the last edit changed: from the `first` on, so many went and so many came. Those before stayed,
    /// and so did those after, moved with the text. As many pieces came as tiles were cut anew. Of a new document nothing went, and
    /// all came.
    pub fn changed(&self) -> Changed
        ensures { result ≡ self.now.changed }
    {
        self.held.lexed.changed
    }

    /// The place up to which the text was lexed: its length, or the place of the error that stopped lexing.
    pub fn end(&self) -> usize
        ensures { result ≡ end_of self.now.boundaries }
    {
        end_of(&self.held.lexed.boundaries)
    }

    /// The start state at `end()`: the top of the stack there. A text that ends inside a string or a comment ends in the state
    /// of that string or comment. None where the definition has no state 0.
    pub fn end_state(&self) -> Option<StartStateId>
        ensures { option_map state_number result ≡ end_state_of self.now.boundaries }
    {
        end_state_of(&self.held.lexed.boundaries)
    }

    /// The tile that entered the start state at `end()`, counted from 0: the last one before which the stack lacked the entry on top
    /// there. None where the text began in that state and no tile left it, as is usual for `INITIAL`.
    pub fn entered_by(&self) -> Option<usize>
        ensures { MatchOption result (AllKeepEnd self.now.boundaries)
            (IsEntering self.now.boundaries) }
    {
        entered_by(&self.held.lexed.boundaries)
    }

    /// The text of the span, or the empty text where the span doesn't fit.
    pub fn text_of(&self, span: Span) -> &str
        ensures fits { Fits self.now.text span
            → result.now ≡ slice_range self.now.text (span_start span) (span_end span) }
        ensures none { ¬ (Fits self.now.text span) → result.now ≡ [] }
    {
        text_of(&self.held.text, span)
    }

    /// Line and column of the place before this byte, both from 1; a column counts characters. Inside a character it is the
    /// place before that, and past the text's end the end.
    pub fn place(&self, byte: usize) -> (usize, usize)
        ensures fits { IsCharBoundary self.now.text byte → result ≡ place_of self.now.text byte }
        ensures nearest { (at : ℕ) → IsNearest self.now.text byte at
            → result ≡ place_of self.now.text at }
    {
        place_of(&self.held.newlines, &self.held.text, byte)
    }

    /// Line and column of the place before this byte as the Language Server Protocol counts them: both from 0, the column in
    /// code units of UTF-16. A line ends by U+000A, by U+000D and U+000A, or by U+000D alone. Inside a character, or between
    /// U+000D and U+000A, it is the place before that, and past the text's end the end.
    pub fn position(&self, byte: usize) -> (usize, usize)
        ensures fits { HasPosition self.now.text byte
            → result ≡ utf16_position self.now.text byte }
        ensures nearest { (at : ℕ) → IsNearestPlace self.now.text byte at
            → result ≡ utf16_position self.now.text at }
    {
        self.position_in(byte, PositionEncoding::Utf16)
    }

    /// Line and column of the place before this byte as `position` counts them, but the column as the encoding says. Inside a
    /// character, or between U+000D and U+000A, it is the place before that, and past the text's end the end.
    pub fn position_in(&self, byte: usize, encoding: PositionEncoding) -> (usize, usize)
        ensures fits { HasPosition self.now.text byte
            → result ≡ position_of encoding self.now.text byte }
        ensures nearest { (at : ℕ) → IsNearestPlace self.now.text byte at
            → result ≡ position_of encoding self.now.text at }
    {
        let held = &self.held;
        position_at(&held.newlines, &held.lines, &held.text, byte, encoding)
    }

    /// The byte of a line and column, counted as `position_in` does: the last place whose position isn't behind that. Past a
    /// line's end it is the place before what ends the line, past the last line the text's end, and inside a character the place
    /// before that. It walks over one line at most, unless memory ran out for the lines of a text in which U+000D alone ends one.
    pub fn offset_at(&self, position: (usize, usize), encoding: PositionEncoding) -> usize
        ensures last { IsLastUpTo encoding self.now.text position result }
        ensures inverse { (at : ℕ) → HasPosition self.now.text at →
            position_of encoding self.now.text at ≡ position → result ≡ at }
    {
        let held = &self.held;
        offset_at(&held.newlines, &held.lines, &held.text, position, encoding)
    }
}
