ghost use Rattle.std.specs.Prelude.{◌≡◌, ◌≢◌, ℕ, ◌+◌, ◌-◌, ◌<◌, ◌≤◌, ◌^◌, true, false, max, All, ◌++◌, length, map, drop, take, IfOk, OnOk, OnErr};
ghost use Rattle.lrlex_rules.specs.Active.{is_state};
ghost use Rattle.lrlex_base.specs.Spans.{span_start, span_end, as_span, Fits};
ghost use Rattle.lrlex_base.specs.Edits.{edited};
ghost use Rattle.lrlex_rules.specs.Tiling.{rebased};
ghost use Rattle.lrlex_boundaries.specs.Boundaries.{boundary_at, last_entries};
ghost use Rattle.std.specs.List.Sorted.{IsPartitionedBy};
ghost use Rattle.lrlex_boundaries.specs.Moves.{IsMovableBoundary, AreSorted};
ghost use Rattle.lrlex.specs.Moves.{IsMovable, begins_before, items_from};
ghost use Rattle.lrlex_boundaries.specs.Entries.{plain, AreEntries};
ghost use Rattle.lrlex.specs.Reach.{IsRun};
ghost use Rattle.lrlex.specs.Lookahead.{LooksAhead, items_before};
ghost use Rattle.lrlex.specs.Searches.{asks_by};
ghost use Rattle.lrlex.specs.LexRun.{IsRunOf, HasItemLaws};
ghost use Rattle.lrlex.specs.Changes.{HasChanged};
ghost use Rattle.lrlex.specs.Relex.{AreCountsOf, WasChanged, WasRelexed};
ghost use Rattle.lrlex_definition.specs.RuleTable.{definition_by};
ghost use Rattle.lrlex.specs.Views.{definition_of, items_by, item_of};
ghost use Rattle.lrlex.specs.Work.{HasLinearRecut, HasLinearWork, IsLinearIn};
ghost use Rattle.lrlex.specs.Progress.{HasRecut, HasSame, IsEditOf, HasReplacedTail, HasReplacedMiddle, TellsMeeting};

use crate::editing::changes::{Change, Changed};
use crate::editing::restart::{append_raised, count_up_to, last_safe, resume};
use crate::lexing::run::{LexRun, Lexed};
use crate::lexing::step::{Progress, advance};
use crate::lexing::winner::Searcher;
use lrlex_base::{Edit, LexError, Lexeme, LexerTypes, Numbered, Span};
use lrlex_boundaries::Boundaries;
use lrlex_boundaries::room::splice;
use lrlex_definition::RuleTable;
use lrlex_rules::LRLexError;
use std::alloc::{AllocError, Global};

/// The item, once what was at `from` is at `to`.
fn moved<S: Numbered, X: Lexeme<S>>(
    item: &Result<X, LRLexError>,
    from: usize,
    to: usize,
) -> Result<X, LRLexError>
    requires { IsMovable from to (item_of S.number X.seen item.now) }
    ensures { item_of S.number X.seen result
        ≡ rebased from to (item_of S.number X.seen item.now) }
{
    match item {
        Ok(lexeme) => {
            let id = lexeme.tok_id();
            let span = lexeme.span();
            let start = span.start() - from + to;
            if lexeme.faulty() {
                Ok(Lexeme::new_faulty(id, start, span.len()))
            } else {
                Ok(Lexeme::new(id, start, span.len()))
            }
        }
        Err(error) => {
            let span = error.span();
            let span = Span::new(span.start() - from + to, span.end() - from + to);
            match error.lexing_state() {
                Some(state) => Err(LRLexError::new_with_lexing_state(span, state)),
                None => Err(LRLexError::new(span)),
            }
        }
    }
}

/// Whether the item begins before the place.
pub(crate) fn begins_before<S: Numbered, X: Lexeme<S>>(
    item: &Result<X, LRLexError>,
    place: usize,
) -> bool
    ensures { result ≡ begins_before place (item_of S.number X.seen item.now) }
{
    match item {
        Ok(lexeme) => lexeme.span().start() < place,
        Err(error) => error.span().start() < place,
    }
}

/// How many items begin before the place, of items in order.
fn count_before<S: Numbered, X: Lexeme<S>>(items: &[Result<X, LRLexError>], place: usize) -> usize
    requires { IsPartitionedBy (begins_before place)
        (map (item_of S.number X.seen) items.now) }
    ensures within { result ≤ length items.now }
    ensures before { map (item_of S.number X.seen) (take result items.now)
        ≡ items_before place (map (item_of S.number X.seen) items.now) }
    ensures from { map (item_of S.number X.seen) (drop result items.now)
        ≡ items_from place (map (item_of S.number X.seen) items.now) }
{
    items.partition_point(
        |item: &Result<X, LRLexError>| -> bool
            ensures { result ≡ begins_before place
                (item_of S.number X.seen item.now) }
        { begins_before::<S, X>(item, place) },
    )
}

/// Moves the items from the one at `first` on: what was at `from` is at `to`.
fn move_items<S: Numbered, X: Lexeme<S>>(
    items: &mut [Result<X, LRLexError>],
    first: usize,
    from: usize,
    to: usize,
)
    requires within { first ≤ length items.old }
    requires movable { All (IsMovable from to)
        (map (item_of S.number X.seen) (drop first items.old)) }
    ensures { map (item_of S.number X.seen) items.new
        ≡ map (item_of S.number X.seen) (take first items.old)
        ++ map (rebased from to)
        (map (item_of S.number X.seen) (drop first items.old)) }
{
    if from == to {
        return;
    }
    'items: for index in first..items.len() {
        items[index] = moved::<S, X>(&items[index], from, to);
    }
}

/// The first boundary from `cursor` on that isn't before the place.
fn first_from(boundaries: &Boundaries, cursor: usize, place: usize) -> usize
    requires { cursor ≤ length boundaries.now }
    ensures within { result ≤ length boundaries.now }
    ensures skipped { (j : ℕ) → cursor ≤ j → j < result
        → (boundary_at boundaries.now j).place < place }
    ensures forward { cursor ≤ result }
    ensures stops { result < length boundaries.now
        → place ≤ (boundary_at boundaries.now result).place }
{
    let mut next = cursor;
    'walk: while next < boundaries.len() {
        if boundaries.place(next) >= place {
            break;
        }
        next += 1;
    }
    next
}

/// Whether there is such a boundary, at the place and with the stack.
fn is_at(boundaries: &Boundaries, index: usize, place: usize, stack: &[(usize, usize)]) -> bool
    ensures within { result ≡ true → index < length boundaries.now }
    ensures place { result ≡ true → (boundary_at boundaries.now index).place ≡ place }
    ensures stack { result ≡ true → (boundary_at boundaries.now index).entries ≡ stack.now }
    ensures none { result ≡ false → index < length boundaries.now
        → (boundary_at boundaries.now index).place ≡ place
        → (boundary_at boundaries.now index).entries ≢ stack.now }
{
    if index >= boundaries.len() || boundaries.place(index) != place {
        return false;
    }
    boundaries.stack(index) == stack
}

/// How many old boundaries are before what follows the edit.
fn boundaries_before_rest(old: &Boundaries, edit: &Edit<'_>) -> usize
    requires { AreSorted old.now }
    ensures within { result ≤ length old.now }
    ensures before { (j : ℕ) → j < result
        → (boundary_at old.now j).place < span_end edit.now.removed }
{
    let end = edit.removed.end();
    if end == 0 {
        0
    } else {
        count_up_to(old, end - 1)
    }
}

/// Whether there is an old boundary where the new one was before the edit, with the same stack.
/// The cursor moves forward to the place.
fn meets(
    old: &Boundaries,
    edit: &Edit<'_>,
    cursor: &mut usize,
    place: usize,
    stack: &[(usize, usize)],
) -> bool
    requires sorted { AreSorted old.now }
    requires stack { AreEntries stack.now }
    requires put { span_start edit.now.removed + length edit.now.put.now < 2 ^ 64 }
    requires room { place + span_end edit.now.removed < span_start edit.now.removed + length
        edit.now.put.now + 2 ^ 64 }
    requires cursor { cursor.old ≤ length old.now }
    requires behind { (j : ℕ) → j < cursor.old
        → (boundary_at old.now j).place
        + (span_start edit.now.removed + length edit.now.put.now) < max
        place (span_start edit.now.removed + length edit.now.put.now) + span_end edit.now.removed }
    ensures at { TellsMeeting old.now edit.now.removed edit.now.put.now place stack.now cursor.new
        result }
    ensures none { result ≡ false → span_start edit.now.removed + length edit.now.put.now ≤ place
        → (j : ℕ) → j < length old.now
        → (boundary_at old.now j).place + (span_start edit.now.removed + length edit.now.put.now)
        ≡ place + span_end edit.now.removed
        → plain (boundary_at old.now j).entries ≢ plain stack.now }
{
    let put_end = edit.removed.start() + edit.put.len();
    if place < put_end {
        return false;
    }
    let back = place - put_end + edit.removed.end();
    *cursor = first_from(old, *cursor, back);
    is_at(old, *cursor, back, stack)
}

/// What lexing again reads of an old run.
#[derive(Drop)]
pub(crate) struct Old<'a, X> {
    pub(crate) items: &'a [Result<X, LRLexError>],
    pub(crate) boundaries: &'a Boundaries,
    pub(crate) ahead: &'a [u8],
}

/// The tiles that were cut anew.
#[derive(Drop)]
pub(crate) struct Recut<X> {
    /// The old boundary from which on, and how many old items are before it.
    pub(crate) index: usize,
    pub(crate) first: usize,
    /// What was found from there on.
    pub(crate) progress: Progress<X>,
    /// The old boundary that was met, unless lexing came to an end before.
    pub(crate) met: Option<usize>,
    /// How many cells of tables were looked at, if that is known.
    pub(crate) looked: Option<usize>,
}

/// Lexes the text after an edit of the old run's, from the last boundary before which no tile looked at what the edit changes,
/// as far as the old run knows, up to the first that meets an old one.
fn lex_changed<S: Numbered, X: Lexeme<S>>(
    alloc: Global,
    table: &RuleTable<S>,
    old: &Old<'_, X>,
    edit: &Edit<'_>,
    new: &str,
) -> Result<Recut<X>, AllocError>
    requires initial { is_state (definition_by S.number table.now) 0 ≡ true }
    requires known { IsEditOf S.number X.seen table.now old.now.items.now
        old.now.boundaries.now old.now.ahead.now edit.now.removed edit.now.put.now new.now }
    ensures { IfOk result (HasRecut S.number X.seen table.now
        old.now.items.now old.now.boundaries.now old.now.ahead.now edit.now.removed
        edit.now.put.now new.now) }
{
    let index = last_safe(old.boundaries, old.ahead, edit.removed.start());
    let first = count_before::<S, X>(old.items, old.boundaries.place(index));
    let mut progress = resume(alloc, old.boundaries, old.ahead, index)?;
    let mut searcher = Searcher::new(alloc, table, new)?;
    let mut cursor = boundaries_before_rest(old.boundaries, edit);
    let mut rules = table.rules_in(0);
    'tiles: while progress.place < new.len() {
        if meets(
            old.boundaries,
            edit,
            &mut cursor,
            progress.place,
            &progress.stack,
        ) {
            return Ok(Recut {
                index,
                first,
                progress,
                met: Some(cursor),
                looked: searcher.looked(table),
            });
        }
        if !advance(alloc, table, new, &mut rules, &mut searcher, &mut progress)? {
            return Ok(Recut {
                index,
                first,
                progress,
                met: None,
                looked: searcher.looked(table),
            });
        }
    }
    Ok(Recut {
        index,
        first,
        progress,
        met: None,
        looked: searcher.looked(table),
    })
}

/// Puts what was cut anew in the place of all that the old run has from there on. Where memory is refused, nothing changes.
fn replace_tail<X: Copy>(
    items: &mut Vec<Result<X, LRLexError>>,
    boundaries: &mut Boundaries,
    ahead: &mut Vec<u8>,
    recut: &Recut<X>,
) -> Result<(), AllocError>
    requires first { recut.now.first ≤ length items.old.items }
    requires within { recut.now.index ≤ length boundaries.old }
    requires numbers { length ahead.old.items ≡ length boundaries.old }
    requires some { 0 < length recut.now.progress.boundaries }
    ensures put { OnOk result (HasReplacedTail items.old.items boundaries.old ahead.old.items recut.now
        items.new.items boundaries.new ahead.new.items) }
    ensures kept { OnErr result ((items.new.items ≡ items.old.items)
        × (boundaries.new ≡ boundaries.old) × (ahead.new.items ≡ ahead.old.items)) }
{
    let found = &recut.progress;
    items.reserve(found.items.len())?;
    ahead.reserve(found.ahead.len())?;
    boundaries.replace_from(recut.index, &found.boundaries)?;
    let many = items.len();
    splice(items, recut.first, many, &found.items);
    let many = ahead.len();
    splice(ahead, recut.index, many, &found.ahead);
    Ok(())
}

/// Puts what was cut anew in the place of what the old run has up to the boundary that was met, and moves what follows that
/// one. Answers how many old items were before that one. Where memory is refused, nothing changes.
fn replace_middle<S: Numbered, X: Lexeme<S>>(
    items: &mut Vec<Result<X, LRLexError>>,
    boundaries: &mut Boundaries,
    ahead: &mut Vec<u8>,
    recut: Recut<X>,
    met: usize,
) -> Result<usize, AllocError>
    requires first { (recut.first ≤ length items.old.items)
        × (items_by S.number X.seen (take recut.first items.old.items)
        ≡ items_before (boundary_at boundaries.old recut.index).place
        (items_by S.number X.seen items.old.items)) }
    requires within { (recut.index ≤ met) × (met < length boundaries.old) }
    requires sorted { AreSorted boundaries.old }
    requires numbers { length ahead.old.items ≡ length boundaries.old }
    requires last { (0 < length recut.progress.boundaries)
        × (last_entries recut.progress.boundaries ≡ (boundary_at boundaries.old met).entries) }
    requires movable { IsPartitionedBy (begins_before (boundary_at boundaries.old met).place)
        (items_by S.number X.seen items.old.items)
        × All (IsMovable (boundary_at boundaries.old met).place recut.progress.place)
        (items_from (boundary_at boundaries.old met).place
        (items_by S.number X.seen items.old.items))
        × All (IsMovableBoundary (boundary_at boundaries.old met).place recut.progress.place)
        (drop (met + 1) boundaries.old) }
    ensures put { OnOk result (HasReplacedMiddle S.number X.seen items.old.items
        boundaries.old ahead.old.items recut met items.new.items boundaries.new ahead.new.items) }
    ensures last { IfOk result (λ last. (recut.first ≤ last) × (last ≤ length items.old.items)
        × (drop last (items_by S.number X.seen items.old.items)
        ≡ items_from (boundary_at boundaries.old met).place
        (items_by S.number X.seen items.old.items))) }
    ensures kept { OnErr result ((items.new.items ≡ items.old.items)
        × (boundaries.new ≡ boundaries.old) × (ahead.new.items ≡ ahead.old.items)) }
{
    let Recut {
        index,
        first,
        progress,
        met: _,
        looked: _,
    } = recut;
    let Progress {
        place: to,
        stack: _,
        items: found,
        boundaries: between,
        asked: _,
        ahead: mut numbers,
        lookahead,
    } = progress;
    let from = boundaries.place(met);
    let last = count_before::<S, X>(items, from);
    let far = append_raised(&mut numbers, boundaries, ahead, met, lookahead)?;
    items.reserve(found.len())?;
    ahead.reserve(numbers.len())?;
    boundaries.splice(index, met, &between, to)?;
    splice(items, first, last, &found);
    move_items::<S, X>(items, first + found.len(), from, to);
    splice(ahead, index, far, &numbers);
    Ok(last)
}

/// Lexes the text after an edit in place, and answers how many searches that needed, what it changed, and how many cells were looked
/// at, which the run has yet to be told. What is before these tiles stays, and what follows is moved. Where memory is refused, nothing changes.
pub(crate) fn relex_in_place<S: Numbered, X: Lexeme<S>>(
    alloc: Global,
    table: &RuleTable<S>,
    lexed: &mut Lexed<X>,
    edit: &Edit<'_>,
    new: &str,
) -> Result<(u128, Changed, Option<usize>), AllocError>
    requires known { IsEditOf S.number X.seen table.now lexed.old.items.items
        lexed.old.boundaries lexed.old.ahead.items edit.now.removed edit.now.put.now new.now }
    ensures run { OnOk result (IsRun (definition_by S.number table.now) new.now
        (items_by S.number X.seen lexed.new.items.items) lexed.new.boundaries) }
    ensures looks { OnOk result (LooksAhead (definition_by S.number table.now)
        new.now lexed.new.boundaries lexed.new.ahead.items) }
    ensures counts { IfOk result (λ n. AreCountsOf (definition_by S.number table.now)
        (asks_by table.now new.now) lexed.old.boundaries lexed.old.ahead.items
        (as_span edit.now.removed) edit.now.put.now new.now lexed.new.boundaries n.0
        n.1.pieces.inserted) }
    ensures stateless { is_state (definition_by S.number table.now) 0 ≡ false →
        IfOk result (λ n. n.1.pieces.inserted ≡ 0) }
    ensures changed { IfOk result (λ n. (known : IsEditOf S.number X.seen table.now
        lexed.old.items.items lexed.old.boundaries lexed.old.ahead.items edit.now.removed
        edit.now.put.now new.now)
        → HasChanged (definition_by S.number table.now) known.text new.now
        (as_span edit.now.removed) edit.now.put.now
        (items_by S.number X.seen lexed.old.items.items)
        (items_by S.number X.seen lexed.new.items.items) lexed.old.boundaries
        lexed.new.boundaries n.1 n.1.pieces.inserted) }
    ensures recut { IfOk result (λ n. HasLinearRecut table.now new.now lexed.new.boundaries
        n.1.pieces n.2) }
    ensures kept { OnErr result (HasSame lexed.old lexed.new) }
{
    if !table.is_state(0) {
        return Ok((0, Changed::none(lexed.items.len()), Some(0)));
    }
    lexed.boundaries.tidy(alloc)?;
    let old = Old {
        items: lexed.items.as_slice(),
        boundaries: &lexed.boundaries,
        ahead: lexed.ahead.as_slice(),
    };
    let recut = lex_changed(alloc, table, &old, edit, new)?;
    let asked = recut.progress.asked;
    let looked = recut.looked;
    let index = recut.index;
    let first = recut.first;
    let inserted = recut.progress.items.len();
    let cut = recut.progress.boundaries.len() - 1;
    let Lexed {
        items,
        boundaries,
        ahead,
        ..
    } = lexed;
    match recut.met {
        Some(met) => {
            let last = replace_middle::<S, X>(items, boundaries, ahead, recut, met)?;
            let items_between = Change::between(first, last, inserted);
            let tiles_between = Change::between(index, met, cut);
            Ok((
                asked,
                Changed {
                    items: items_between,
                    pieces: tiles_between,
                },
                looked,
            ))
        }
        None => {
            let many = items.len();
            let end = boundaries.len() - 1;
            let items_behind = Change::between(first, many, inserted);
            let tiles_behind = Change::between(index, end, cut);
            replace_tail(items, boundaries, ahead, &recut)?;
            Ok((
                asked,
                Changed {
                    items: items_behind,
                    pieces: tiles_behind,
                },
                looked,
            ))
        }
    }
}

/// What lexing the text after an edit gives. The old run stays what it is.
fn relexed<S: Numbered, X: Lexeme<S>>(
    alloc: Global,
    table: &RuleTable<S>,
    old: &Lexed<X>,
    edit: &Edit<'_>,
    new: &str,
) -> Result<Lexed<X>, AllocError>
    requires known { IsEditOf S.number X.seen table.now old.now.items.items
        old.now.boundaries old.now.ahead.items edit.now.removed edit.now.put.now new.now }
    ensures run { IfOk result (λ r. IsRun (definition_by S.number table.now) new.now
        (items_by S.number X.seen r.items.items) r.boundaries) }
    ensures looks { IfOk result (λ r. LooksAhead (definition_by S.number table.now)
        new.now r.boundaries r.ahead.items) }
    ensures counts { IfOk result (λ r. AreCountsOf (definition_by S.number table.now)
        (asks_by table.now new.now) old.now.boundaries old.now.ahead.items
        (as_span edit.now.removed) edit.now.put.now new.now r.boundaries r.asked r.recut) }
    ensures stateless { is_state (definition_by S.number table.now) 0 ≡ false →
        IfOk result (λ r. r.recut ≡ 0) }
    ensures changed { IfOk result (λ r. (known : IsEditOf S.number X.seen table.now
        old.now.items.items old.now.boundaries old.now.ahead.items edit.now.removed
        edit.now.put.now new.now)
        → HasChanged (definition_by S.number table.now) known.text new.now
        (as_span edit.now.removed) edit.now.put.now
        (items_by S.number X.seen old.now.items.items)
        (items_by S.number X.seen r.items.items) old.now.boundaries r.boundaries
        r.changed r.recut) }
    ensures linear { IfOk result (λ r. IsLinearIn table.now new.now (length new.now) r.looked) }
    ensures recut { IfOk result (λ r. HasLinearRecut table.now new.now r.boundaries
        r.changed.pieces r.looked) }
{
    let mut lexed = old.copied(alloc)?;
    let (asked, changed, looked) = relex_in_place(alloc, table, &mut lexed, edit, new)?;
    lexed.asked = asked;
    lexed.recut = changed.pieces.inserted;
    lexed.looked = looked;
    lexed.changed = changed;
    Ok(lexed)
}

impl<'lexer, L: LexerTypes<LexErrorT = LRLexError>> LexRun<'lexer, '_, L> {
    /// Lexes the text after an edit. The old items are taken over up to the last boundary before which no tile is known to
    /// have looked at what the edit changes, and again from the first boundary on where place and stack meet the old ones.
    /// The cells of tables that it looks at are linear in the bytes that it cuts anew, beside what the dead ends of the text take.
    pub fn relex<'new>(
        &self,
        alloc: Global,
        edit: &Edit<'_>,
        new: &'new str,
    ) -> Result<LexRun<'lexer, 'new, L>, AllocError>
        requires fits { Fits self.now.text edit.now.removed }
        requires gives { new.now ≡ edited self.now.text
            (as_span edit.now.removed) edit.now.put.now }
        ensures run { IfOk result (IsRunOf L.StorageT.number L.LexemeT.seen self.now.definition
            new.now) }
        ensures laws { IfOk result (HasItemLaws L.StorageT.number L.LexemeT.seen self.now.definition
            new.now) }
        ensures definition { IfOk result (λ r. r.definition ≡ self.now.definition) }
        ensures text { IfOk result (λ r. r.text ≡ new.now) }
        ensures counts { IfOk result (WasRelexed L.StorageT.number self.now.boundaries
            self.now.ahead (as_span edit.now.removed) edit.now.put.now) }
        ensures stateless { is_state (definition_of L.StorageT.number self.now.definition) 0 ≡ false →
            IfOk result (λ r. r.recut ≡ 0) }
        ensures changed { IfOk result (WasChanged L.StorageT.number L.LexemeT.seen
            (as_span edit.now.removed) edit.now.put.now self.now) }
        ensures linear { IfOk result (λ r. HasLinearWork self.now.definition new.now r.looked) }
        ensures recut { IfOk result (λ r. HasLinearRecut self.now.definition.table new.now
            r.boundaries r.changed.pieces r.looked) }
    {
        let lexed = relexed(alloc, &self.definition.table, &self.lexed, edit, new)?;
        Ok(LexRun {
            definition: self.definition,
            text: new,
            lexed,
        })
    }
}
