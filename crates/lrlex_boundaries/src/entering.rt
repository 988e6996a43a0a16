//! Which tile entered the start state in which lexing ended.
ghost use Rattle.std.specs.Prelude.{◌≡◌, ◌<◌, ℕ, true, false, length, slice_get, IfSome, IsNone, MatchOption};
ghost use Rattle.lrlex_boundaries.specs.Boundaries.{boundary_at};
ghost use Rattle.lrlex_boundaries.specs.Entering.{AllKeepEnd, IsEntering, Keeps};

use crate::boundaries::Boundaries;

/// Whether a stack has this entry at this place, from the bottom, or with more of its neighbours.
fn keeps(stack: &[(usize, usize)], at: usize, top: (usize, usize)) -> bool
    ensures yes { result ≡ true → Keeps top (slice_get stack.now at) }
    ensures no { result ≡ false → ¬ (Keeps top (slice_get stack.now at)) }
{
    match stack.get(at) {
        Some(entry) => entry.1 == top.1 && top.0 <= entry.0,
        None => false,
    }
}

/// The last boundary whose stack lacks the entry that is on top at the end.
fn last_lacking(boundaries: &Boundaries, at: usize, top: (usize, usize)) -> Option<usize>
    ensures within { IfSome result (λ k. k < length boundaries.now) }
    ensures lacks { IfSome result (λ k.
        ¬ (Keeps top (slice_get (boundary_at boundaries.now k).entries at))) }
    ensures behind { IfSome result (λ k. (j : ℕ) → k < j → j < length boundaries.now
        → Keeps top (slice_get (boundary_at boundaries.now j).entries at)) }
    ensures none { IsNone result → (j : ℕ) → j < length boundaries.now
        → Keeps top (slice_get (boundary_at boundaries.now j).entries at) }
{
    let mut index = boundaries.len();
    'back: while index > 0 {
        index -= 1;
        let kept = keeps(boundaries.stack(index), at, top);
        if !kept {
            return Some(index);
        }
    }
    None
}

/// The tile that entered the start state in which lexing ended: the last one before which the stack lacked the entry that is on top
/// at the end.
#[tactic(auto, using(crate::proofs::EnteringLemmas::found_entering))]
pub fn entered_by(boundaries: &Boundaries) -> Option<usize>
    ensures { MatchOption result (AllKeepEnd boundaries.now) (IsEntering boundaries.now) }
{
    let last = boundaries.len().checked_sub(1)?;
    let stack = boundaries.stack(last);
    let at = stack.len().saturating_sub(1);
    let top = *stack.get(at)?;
    last_lacking(boundaries, at, top)
}
