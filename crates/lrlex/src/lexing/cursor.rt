//! Where a scanner stands.
ghost use Rattle.std.specs.Prelude.{◌≡◌, ◌≤◌, true, IfOk, IfSome};
ghost use Rattle.lrlex_rules.specs.Active.{is_state};
ghost use Rattle.lrlex.specs.Scanner.{IsCursorOf, IsStand, at_front, scanned_by, sought_at, standing};
ghost use Rattle.lrlex_definition.specs.RuleTable.{definition_by};
ghost use Rattle.lrlex.specs.Work.{most_cells_by};

use crate::lexing::stack::{reset, top_of};
use crate::lexing::winner::{Searcher, Tile};
use lrlex_base::Numbered;
use lrlex_boundaries::room::copied;
use lrlex_definition::{RuleTable, StateRules};
use std::alloc::{AllocError, Global};

/// What wins at a place, where it was looked for.
#[derive(Clone, Copy)]
pub(crate) struct Sought {
    pub(crate) place: usize,
    pub(crate) winner: Option<Tile>,
}

/// Where a scanner stands, the rules of the start state on top of its stack, and what finds winners.
#[derive(Drop)]
pub(crate) struct Cursor<'d, 't> {
    pub(crate) place: usize,
    pub(crate) stack: Vec<(usize, usize)>,
    pub(crate) rules: StateRules<'d>,
    pub(crate) searcher: Searcher<'d, 't>,
    /// What was last looked for. At its place it isn't looked for again: at an end, and where memory was refused for the stack.
    pub(crate) sought: Option<Sought>,
    /// The place from which on winners were looked for.
    pub(crate) from: usize,
    /// Whether memory was refused while a winner was looked for. Then it may be looked for again, and nothing bounds the cells.
    pub(crate) lost: bool,
}

/// Where a scanner stands, apart from its definition and its text: its place, in bytes, and its stack of start states. It holds
/// neither the definition nor the text, so that a scanner can stop and go on later.
#[derive(Drop)]
pub struct ScanPlace {
    pub(crate) place: usize,
    pub(crate) stack: Vec<(usize, usize)>,
}

impl<'d> Cursor<'d, '_> {
    /// Goes back to the front of the text. The matchers stay, and all room.
    pub(crate) fn rewind<S: Numbered>(&mut self, table: &'d RuleTable<S>, text: &str)
        requires { IsCursorOf S.number table.now text.now self.old }
        ensures cursor { IsCursorOf S.number table.now text.now self.new }
        ensures front { scanned_by S.number table.now text.now self.new
            ≡ at_front (definition_by S.number table.now) text.now (most_cells_by table.now text.now) }
    {
        let _ = text;
        self.place = 0;
        reset(&mut self.stack);
        self.rules = table.rules_in(0);
        self.searcher.rewind();
        self.sought = None;
        self.from = 0;
        self.lost = false;
    }

    /// What wins at the place, where it was looked for before.
    #[inline(always)]
    pub(crate) fn sought_here(&self) -> Option<Option<Tile>>
        ensures { result ≡ sought_at self.now.place self.now.sought }
    {
        match self.sought {
            Some(sought) if sought.place == self.place => Some(sought.winner),
            _ => None,
        }
    }

    /// How many cells of tables were looked at. None where memory was refused while a winner was looked for, or for a dead end.
    pub(crate) fn looked<S: Numbered>(&self, table: &RuleTable<S>, text: &str) -> Option<usize>
        requires { IsCursorOf S.number table.now text.now self.now }
        ensures { IfSome result (λ n. n ≤ most_cells_by table.now text.now) }
    {
        let _ = text;
        if self.lost {
            return None;
        }
        self.searcher.looked(table)
    }
}

/// A cursor at the front of the text.
pub(crate) fn cursor_of<'d, 't, S: Numbered>(
    alloc: Global,
    table: &'d RuleTable<S>,
    text: &'t str,
) -> Result<Cursor<'d, 't>, AllocError>
    requires { is_state (definition_by S.number table.now) 0 ≡ true }
    ensures cursor { IfOk result (IsCursorOf S.number table.now text.now) }
    ensures front { IfOk result (λ c. scanned_by S.number table.now text.now c
        ≡ at_front (definition_by S.number table.now) text.now (most_cells_by table.now text.now)) }
{
    let mut stack = Vec::new(alloc);
    stack.push((1, 0))?;
    let searcher = Searcher::new(alloc, table, text)?;
    Ok(Cursor {
        place: 0,
        stack,
        rules: table.rules_in(0),
        searcher,
        sought: None,
        from: 0,
        lost: false,
    })
}

/// A cursor where another one stood in the same text.
pub(crate) fn cursor_at<'d, 't, S: Numbered>(
    alloc: Global,
    table: &'d RuleTable<S>,
    text: &'t str,
    at: &ScanPlace,
) -> Result<Cursor<'d, 't>, AllocError>
    requires initial { is_state (definition_by S.number table.now) 0 ≡ true }
    requires stands { IsStand (definition_by S.number table.now) text.now at.now.place
        at.now.stack.items }
    ensures cursor { IfOk result (IsCursorOf S.number table.now text.now) }
    ensures place { IfOk result (λ c. scanned_by S.number table.now text.now c
        ≡ standing (definition_by S.number table.now) text.now at.now (most_cells_by table.now text.now)) }
{
    let stack = copied(alloc, &at.stack)?;
    let searcher = Searcher::new(alloc, table, text)?;
    Ok(Cursor {
        place: at.place,
        rules: table.rules_in(top_of(&stack)),
        stack,
        searcher,
        sought: None,
        from: at.place,
        lost: false,
    })
}
