//! A lexer that is pulled: one tile at a time, and no list is kept.
ghost use Rattle.std.specs.Prelude.{◌≡◌, ◌≤◌, OnErr, IfOk, IfSome, option_map};
ghost use Rattle.lrlex_rules.specs.RuleParts.{state_number};
ghost use Rattle.lrlex.specs.Errors.{error_parts};
ghost use Rattle.lrlex.specs.Scanner.{HasGivenStep, IsCursorOf, IsPlaceOf, IsStep, after_step, at_front, end_error, standing, top_state};
ghost use Rattle.lrlex_definition.specs.RuleTable.{definition_by};
ghost use Rattle.lrlex.specs.Views.{definition_of};
ghost use Rattle.lrlex.specs.Work.{most_cells_by, most_cells_of};

use crate::definition::non_streaming::LRNonStreamingLexerDef;
use crate::lexing::cursor::{Cursor, ScanPlace, cursor_at, cursor_of};
use crate::lexing::scanning::{seek, take_sought, take_tile};
use crate::lexing::stack::top_of;
use crate::lexing::winner::Tile;
use lrlex_base::{LexerTypes, Numbered, Span};
use lrlex_definition::{RowKind, RuleTable};
use lrlex_rules::{LRLexError, StartStateId};
use std::alloc::{AllocError, Global};
use std::marker::Model;

/// Bytes that a rule wins: the place of the rule among the definition's, from 0, its token id, and the bytes. A rule without a
/// name, as one for white space, gives no id.
#[derive(Clone, Copy)]
pub struct ScannedTile<S> {
    pub rule: usize,
    pub id: Option<S>,
    pub span: Span,
}

/// Why a scanner gives no more tiles.
#[derive(Clone, Copy)]
pub enum ScanEnd<S> {
    /// The text ends.
    Done,
    /// No rule that is active in this start state matches a byte.
    NoMatch(StartStateId),
    /// The rule at this place among the definition's wins, and has a name but no token id.
    NoId(usize),
    /// The rule of this tile wins, and its target is no start state. The tile counts, and nothing after it.
    NoTarget(ScannedTile<S>),
    /// The definition has no start state 0, so that lexing can't begin.
    NoState,
}

impl<S> ScanEnd<S> {
    /// The error that a run of the text ends with, where the scanner stands at this place: with the start state in which no rule
    /// matches, if that is why. None where the text ends.
    pub fn error(&self, place: usize) -> Option<LRLexError>
        ensures { option_map error_parts result ≡ end_error self.now place }
    {
        let span = Span::new(place, place);
        match self {
            ScanEnd::Done => None,
            ScanEnd::NoMatch(state) => Some(LRLexError::new_with_lexing_state(span, *state)),
            _ => Some(LRLexError::new(span)),
        }
    }
}

/// What a scanner finds at its place.
#[derive(Clone, Copy)]
pub enum Step<S> {
    /// The next tile. The scanner stands behind it.
    Tile(ScannedTile<S>),
    /// No more tiles, and why. The scanner stays where it is, and says the same again.
    End(ScanEnd<S>),
}

/// What a scanner reads: the rules, with what lexing needs of those that win at a row of the chain, and the text.
#[derive(Clone, Copy)]
struct Source<'d, 't, S> {
    table: &'d RuleTable<S>,
    kinds: &'d [RowKind<S>],
    text: &'t str,
}

impl<'d, 't, S> Source<'d, 't, S> {
    /// These rules, and this text.
    fn new(table: &'d RuleTable<S>, text: &'t str) -> Self
        ensures table { result.table.now ≡ table.now }
        ensures kinds { result.kinds.now ≡ table.now.row_kinds.items }
        ensures text { result.text.now ≡ text.now }
    {
        let kinds = table.row_kinds.as_slice();
        Source { table, kinds, text }
    }
}

/// Takes the next step. After refused memory the cursor stands where it stood. A tile that was found ahead wins, whether what wins was sought
/// before or not, so that this isn't asked first.
#[inline(always)]
fn next_step<'d, S: Numbered>(
    alloc: Global,
    source: &Source<'d, '_, S>,
    cursor: &mut Cursor<'d, '_>,
) -> Result<Step<S>, AllocError>
    requires kinds { source.now.kinds.now ≡ source.now.table.now.row_kinds.items }
    requires cursor { IsCursorOf S.number source.now.table.now source.now.text.now cursor.old }
    ensures { HasGivenStep S.number source.now.table.now source.now.text.now cursor.old result
        cursor.new }
{
    let place = cursor.place;
    if let Some(found) = cursor
        .searcher
        .ahead(source.table, source.kinds, &cursor.rules, place)
    {
        let kind = found.kind;
        let end = found.next.end;
        cursor.searcher.pass(source.table, place, found.next);
        if kind.plain {
            cursor.place = end;
            return Ok(Step::Tile(ScannedTile {
                rule: kind.rule,
                id: kind.own_id(),
                span: Span::new(place, end),
            }));
        }
        let tile = Tile {
            rule: kind.rule,
            len: end - place,
        };
        return take_tile(source.table, source.text, cursor, Some(tile));
    }
    if let Some(winner) = cursor.sought_here() {
        return take_sought(source.table, source.text, cursor, winner);
    }
    seek(alloc, source.table, source.text, cursor)
}

/// A lexer that is pulled: `next` gives one tile after the other, and nothing of them is kept. Beside the stack of start states
/// it holds the matchers of rules without a table, and what stops a look ahead that is known to lead nowhere.
#[derive(Drop)]
pub struct Scanner<'lexer, 'input, S: Numbered> {
    source: Source<'lexer, 'input, S>,
    /// None where the definition has no start state 0.
    cursor: Option<Cursor<'lexer, 'input>>,
}

impl<'lexer, 'input, S: Numbered> Model for Scanner<'lexer, 'input, S> {
    ghost use Rattle.std.specs.Prelude.{◌≡◌};
    ghost use Rattle.lrlex.specs.Scanner.{IsScannerOf, Scanned, scanned};

    ghost Value = { Scanned };

    ghost view = { λ s. scanned S.number s.source.table.now s.source.text.now s.cursor };

    ghost invariant = { λ s. IsScannerOf S.number s.source.table.now s.source.text.now s.cursor
        × (s.source.kinds.now ≡ s.source.table.now.row_kinds.items) };
}

impl<'lexer, 'input, S: Numbered> Scanner<'lexer, 'input, S> {
    /// At the front of the text.
    fn of(alloc: Global, table: &'lexer RuleTable<S>, text: &'input str) -> Result<Self, AllocError>
        ensures { IfOk result (λ s. s ≡ at_front (definition_by S.number table.now) text.now
            (most_cells_by table.now text.now)) }
    {
        let cursor = if table.is_state(0) {
            Some(cursor_of(alloc, table, text)?)
        } else {
            None
        };
        Ok(Scanner {
            source: Source::new(table, text),
            cursor,
        })
    }

    /// Where another one stood.
    fn at(
        alloc: Global,
        table: &'lexer RuleTable<S>,
        text: &'input str,
        at: &ScanPlace,
    ) -> Result<Self, AllocError>
        requires { IsPlaceOf (definition_by S.number table.now) text.now at.now }
        ensures { IfOk result (λ s. s ≡ standing (definition_by S.number table.now) text.now at.now
            (most_cells_by table.now text.now)) }
    {
        let cursor = if table.is_state(0) {
            Some(cursor_at(alloc, table, text, at)?)
        } else {
            None
        };
        Ok(Scanner {
            source: Source::new(table, text),
            cursor,
        })
    }

    /// The next tile, or why there is none. At an end, and after refused memory, the scanner is what it was.
    #[inline(always)]
    pub fn next(&mut self, alloc: Global) -> Result<Step<S>, AllocError>
        ensures step { IfOk result (IsStep S.number self.old) }
        ensures moved { IfOk result (λ s. self.new ≡ after_step self.old s) }
        ensures same { OnErr result (self.new ≡ self.old) }
    {
        match &mut self.cursor {
            Some(cursor) => next_step(alloc, &self.source, cursor),
            None => Ok(Step::End(ScanEnd::NoState)),
        }
    }

    /// Goes back to the front of the text. What it has made stays: the matchers of rules without a table, and the room for its stack,
    /// for tiles found ahead and for where looking ahead leads nowhere. So a second pass over the same tiles asks for no memory, where
    /// the first one got all that it asked for. No contract says so.
    pub fn rewind(&mut self)
        ensures { self.new ≡ at_front self.old.definition self.old.text self.old.most_cells }
    {
        if let Some(cursor) = &mut self.cursor {
            cursor.rewind(self.source.table, self.source.text);
        }
    }

    /// The place up to which it has come, in bytes: that of the next tile.
    pub fn place(&self) -> usize
        ensures { result ≡ self.now.place }
    {
        match &self.cursor {
            Some(cursor) => cursor.place,
            None => 0,
        }
    }

    /// The start state in which it stands: the top of its stack. None where the definition has no start state 0.
    pub fn state(&self) -> Option<StartStateId>
        ensures { option_map state_number result ≡ top_state self.now.stack }
    {
        match &self.cursor {
            Some(cursor) => Some(StartStateId::new(top_of(&cursor.stack))),
            None => None,
        }
    }

    /// How many cells of tables it has looked at since it stood at the front, or where `scanner_at` set it, counted as
    /// `LexRun::looked` counts them. At an end nothing is looked at again. None where memory was refused to what bounds it.
    pub fn looked(&self) -> Option<usize>
        ensures { IfSome result (λ n. n ≤ self.now.most_cells) }
    {
        match &self.cursor {
            Some(cursor) => cursor.looked(self.source.table, self.source.text),
            None => Some(0),
        }
    }

    /// Where it stands, for `scanner_at`.
    pub fn into_place(self, alloc: Global) -> ScanPlace
        ensures place { IsPlaceOf self.entry.definition self.entry.text result }
        ensures same { self.entry ≡ standing self.entry.definition self.entry.text result
            self.entry.most_cells }
    {
        let Scanner { cursor, .. } = self;
        match cursor {
            Some(Cursor { place, stack, .. }) => ScanPlace { place, stack },
            None => ScanPlace {
                place: 0,
                stack: Vec::new(alloc),
            },
        }
    }
}

impl<L: LexerTypes<LexErrorT = LRLexError>> LRNonStreamingLexerDef<L> {
    /// A scanner at the front of the text. Its steps up to the end are the tiles of `run`.
    pub fn scanner<'lexer, 'input>(
        &'lexer self,
        alloc: Global,
        text: &'input str,
    ) -> Result<Scanner<'lexer, 'input, L::StorageT>, AllocError>
        ensures { IfOk result (λ s. s ≡ at_front (definition_of L.StorageT.number self.now) text.now
            (most_cells_of self.now text.now)) }
    {
        Scanner::of(alloc, &self.table, text)
    }

    /// A scanner that stands where another one of this definition and this text stood. What it learned of where looking ahead leads
    /// nowhere is found anew.
    pub fn scanner_at<'lexer, 'input>(
        &'lexer self,
        alloc: Global,
        text: &'input str,
        at: &ScanPlace,
    ) -> Result<Scanner<'lexer, 'input, L::StorageT>, AllocError>
        requires { IsPlaceOf (definition_of L.StorageT.number self.now) text.now at.now }
        ensures { IfOk result (λ s. s ≡ standing (definition_of L.StorageT.number self.now) text.now
            at.now (most_cells_of self.now text.now)) }
    {
        Scanner::at(alloc, &self.table, text, at)
    }
}
