ghost use Rattle.std.specs.Prelude.{◌≡◌, ℕ, ◌+◌, ◌-◌, ◌<◌, ◌≤◌, true, false, max, List, [], ◌∷◌, ◌++◌, IfOk, take, drop, length};
ghost use Rattle.lrlex_base.specs.Spans.{span};
ghost use Rattle.lrlex_base.specs.Edits.{edited};
ghost use Rattle.lrlex_rules.specs.Definition.{Definition};
ghost use Rattle.lrlex_table.specs.Reach.{IsText};
ghost use Rattle.lrlex_rules.specs.Active.{is_state};
ghost use Rattle.lrlex_rules.specs.Tiling.{Item};
ghost use Rattle.lrlex_boundaries.specs.Boundaries.{Boundary, boundary_at};
ghost use Rattle.lrlex.specs.Reach.{IsLexed};
ghost use Rattle.lrlex.specs.Lookahead.{IsDecided, IsDecidedAt, AreDecided, LooksAhead, IsSafe, GoesOn, BeginAlike, AreRaised};
ghost use Rattle.lrlex_boundaries.specs.Moves.{AreSorted};
ghost use Rattle.lrlex.specs.Progress.{StandsAt};

use crate::lexing::step::{Progress, capped};
use lrlex_boundaries::Boundaries;
use std::alloc::{AllocError, Global};

/// What an edit leaves of a run. Where what wins at each of the first k boundaries is decided by bytes before the
/// edit, the new run has the first k tiles of the old one, with their boundaries and items, and lexing may go on from
/// boundary k.
pub fn resume_laws()
    ensures goes_on { (d : Definition) (old new put : List ℕ) (low high : ℕ) (found : List Item)
        (bounds : List Boundary) (k : ℕ)
        → is_state d 0 ≡ true → IsText new → low ≤ length old → new ≡ edited old (span low high) put
        → IsLexed d old found bounds
        → k < length bounds → AreDecided d old bounds k low → GoesOn d new found bounds k }
    ensures same { (d : Definition) (old new put : List ℕ) (low high : ℕ)
        (found other_found : List Item) (bounds other_bounds : List Boundary) (k : ℕ)
        → is_state d 0 ≡ true → IsText new → low ≤ length old → new ≡ edited old (span low high) put
        → (h : IsLexed d old found bounds) (other : IsLexed d new other_found other_bounds)
        → k < length bounds → AreDecided d old bounds k low
        → BeginAlike h.cut other.cut found other_found bounds other_bounds k }
{}

/// How far the bytes go that decide what wins: the text and its end decide it, more bytes decide it too, before an edit the
/// same bytes decide it as before, and after the edit the same, moved with the text.
pub fn decided_laws()
    ensures whole { (d : Definition) (q : ℕ) (text : List ℕ)
        → IsDecided d q text (length text + 1) }
    ensures more { (d : Definition) (q : ℕ) (text : List ℕ) (reach more : ℕ) → reach ≤ more
        → IsDecided d q text reach → IsDecided d q text more }
    ensures kept { (d : Definition) (old new put : List ℕ) (low high : ℕ) (found : List Item)
        (bounds : List Boundary) (k far : ℕ)
        → is_state d 0 ≡ true → IsText new → low ≤ length old → new ≡ edited old (span low high) put
        → IsLexed d old found bounds
        → k < length bounds → far ≤ low → AreDecided d old bounds k far
        → AreDecided d new bounds k far }
    ensures safe { (d : Definition) (text : List ℕ) (bounds : List Boundary) (ahead : List ℕ)
        (low k : ℕ)
        → LooksAhead d text bounds ahead → k < length bounds → IsSafe bounds ahead low k
        → AreDecided d text bounds k low }
    ensures moved { (d : Definition) (old new : List ℕ) (m : Boundary) (place far to : ℕ)
        → drop m.place old ≡ drop place new
        → far - m.place ≤ to - place → IsDecidedAt d old far m
        → IsDecidedAt d new to (record { place = place; entries = m.entries }) }
{}

/// How the numbers that say how far the tiles looked grow with a run, and that those up to a safe boundary stay.
pub fn ahead_laws()
    ensures start { (d : Definition) (text : List ℕ) (m : Boundary)
        → LooksAhead d text (m ∷ []) (0 ∷ []) }
    ensures step { (d : Definition) (text : List ℕ) (bounds : List Boundary) (k far at : ℕ)
        → k < length bounds → AreDecided d text bounds k far
        → IsDecidedAt d text at (boundary_at bounds k)
        → AreDecided d text bounds (k + 1) (max far at) }
    ensures more { (d : Definition) (text : List ℕ) (bounds : List Boundary) (ahead : List ℕ)
        (m : Boundary)
        (far n : ℕ) → 0 < length bounds → LooksAhead d text bounds ahead
        → AreDecided d text (bounds ++ m ∷ []) (length bounds) far → (n < 255 → far ≤ m.place + n)
        → LooksAhead d text (bounds ++ m ∷ []) (ahead ++ n ∷ []) }
    ensures kept { (d : Definition) (old new put : List ℕ) (low high : ℕ) (found : List Item)
        (bounds : List Boundary) (ahead : List ℕ) (k : ℕ)
        → is_state d 0 ≡ true → IsText new → low ≤ length old → new ≡ edited old (span low high) put
        → IsLexed d old found bounds
        → k < length bounds → LooksAhead d old bounds ahead → IsSafe bounds ahead low k
        → LooksAhead d new (take (k + 1) bounds) (take (k + 1) ahead) }
{}

/// How many boundaries are at the place or before it.
pub(crate) fn count_up_to(boundaries: &Boundaries, place: usize) -> usize
    requires { AreSorted boundaries.now }
    ensures within { result ≤ length boundaries.now }
    ensures up_to { (j : ℕ) → j < result → (boundary_at boundaries.now j).place ≤ place }
    ensures past { (j : ℕ) → result ≤ j → j < length boundaries.now
        → place < (boundary_at boundaries.now j).place }
{
    let mut from = 0usize;
    let mut to = boundaries.len();
    'halves: while from < to {
        let middle = from + (to - from) / 2;
        if boundaries.place(middle) <= place {
            from = middle + 1;
        } else {
            to = middle;
        }
    }
    from
}

/// Whether the tiles before the boundary are known to have looked at no byte from the place on.
fn is_safe(boundaries: &Boundaries, ahead: &[u8], index: usize, place: usize) -> bool
    requires within { index < length boundaries.now }
    requires numbers { length ahead.now ≡ length boundaries.now }
    ensures yes { result ≡ true → IsSafe boundaries.now ahead.now place index }
    ensures no { result ≡ false → ¬ (IsSafe boundaries.now ahead.now place index) }
{
    let past = ahead[index];
    let here = boundaries.place(index);
    past < 255 && here <= place && past as usize <= place - here
}

/// The last boundary before which the tiles are known to have looked at no byte from the place on.
pub(crate) fn last_safe(boundaries: &Boundaries, ahead: &[u8], place: usize) -> usize
    requires sorted { AreSorted boundaries.now }
    requires numbers { length ahead.now ≡ length boundaries.now }
    requires some { 0 < length boundaries.now }
    requires first { IsSafe boundaries.now ahead.now place 0 }
    ensures within { result < length boundaries.now }
    ensures safe { IsSafe boundaries.now ahead.now place result }
    ensures last { (j : ℕ) → result < j → j < length boundaries.now
        → ¬ (IsSafe boundaries.now ahead.now place j) }
{
    let mut index = count_up_to(boundaries, place);
    'back: while index > 0 {
        index -= 1;
        let safe = is_safe(boundaries, ahead, index, place);
        if safe {
            return index;
        }
    }
    0
}

/// What a run has found that begins at an old boundary: that boundary alone.
pub(crate) fn resume<X: Copy>(
    alloc: Global,
    old: &Boundaries,
    ahead: &[u8],
    index: usize,
) -> Result<Progress<X>, AllocError>
    requires within { index < length old.now }
    requires numbers { length ahead.now ≡ length old.now }
    ensures { IfOk result (StandsAt old.now ahead.now index) }
{
    let mut progress = Progress {
        place: old.place(index),
        stack: Vec::new(alloc),
        items: Vec::new(alloc),
        boundaries: Boundaries::new(alloc),
        asked: 0,
        ahead: Vec::new(alloc),
        lookahead: ahead[index] as usize,
    };
    progress.stack.extend_from_slice(old.stack(index))?;
    progress
        .boundaries
        .push(progress.place, &progress.stack, 0)?;
    progress.ahead.push(ahead[index])?;
    Ok(progress)
}

/// Adds the numbers of the boundaries after the one at `index` that are no farther than the tiles before that one looked,
/// which is at most `lookahead` bytes past its place, and answers the first boundary after these. From there on the numbers stay.
pub(crate) fn append_raised(
    ahead: &mut Vec<u8>,
    old: &Boundaries,
    numbers: &[u8],
    index: usize,
    lookahead: usize,
) -> Result<usize, AllocError>
    requires within { index < length old.now }
    requires numbers { length numbers.now ≡ length old.now }
    requires sorted { AreSorted old.now }
    ensures behind { IfOk result (λ far. index < far) }
    ensures within { IfOk result (λ far. far ≤ length old.now) }
    ensures raised { IfOk result (λ far. AreRaised old.now numbers.now index lookahead (length old.now)
        ahead.old.items (ahead.new.items ++ drop far numbers.now)) }
{
    let from = old.place(index);
    let far = match from.checked_add(lookahead) {
        Some(end) => count_up_to(old, end),
        None => old.len(),
    };
    'near: for next in index + 1..far {
        let rest = lookahead.saturating_sub(old.place(next) - from);
        ahead.push(numbers[next].max(capped(rest)))?;
    }
    Ok(far)
}
