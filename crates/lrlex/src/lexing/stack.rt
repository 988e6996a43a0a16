ghost use Rattle.std.specs.Prelude.{◌≡◌, ◌+◌, ◌-◌, ◌^◌, ◌<◌, [], ◌∷◌, ◌++◌, length, take, IfOk, OnErr};
ghost use Rattle.lrlex_rules.specs.Tiling.{top, or_initial, stack_after};
ghost use Rattle.lrlex_boundaries.specs.Entries.{plain, AreEntries, Stay};

use lrlex_rules::StartStateOperation;
use std::alloc::AllocError;

/// Puts the state on top of the stack, and answers how many entries from the bottom stay.
fn push_state(entries: &mut Vec<(usize, usize)>, id: usize) -> Result<usize, AllocError>
    requires entries { AreEntries entries.old.items }
    requires room { length (plain entries.old.items) + 1 < 2 ^ 64 }
    ensures entries { IfOk result (λ _. AreEntries entries.new.items) }
    ensures pushed { IfOk result (λ _. plain entries.new.items
        ≡ plain entries.old.items ++ id ∷ []) }
    ensures stay { IfOk result (λ k. Stay k entries.old.items entries.new.items) }
    ensures same { OnErr result (entries.new.items ≡ entries.old.items) }
{
    match entries.pop() {
        Some((count, state)) if state == id => {
            let kept = entries.len();
            entries.push((count + 1, id))?;
            Ok(kept)
        }
        Some(run) => {
            entries.push(run)?;
            let kept = entries.len();
            entries.push((1, id))?;
            Ok(kept)
        }
        None => {
            entries.push((1, id))?;
            Ok(0)
        }
    }
}

/// Takes the top away, and answers how many entries from the bottom stay. An emptied stack becomes state 0 alone.
fn pop_state(entries: &mut Vec<(usize, usize)>) -> Result<usize, AllocError>
    requires { AreEntries entries.old.items }
    ensures entries { IfOk result (λ _. AreEntries entries.new.items) }
    ensures popped { IfOk result (λ _. plain entries.new.items
        ≡ or_initial (take (length (plain entries.old.items) - 1) (plain entries.old.items))) }
    ensures stay { IfOk result (λ k. Stay k entries.old.items entries.new.items) }
    ensures same { OnErr result (entries.new.items ≡ entries.old.items) }
{
    let last = entries.pop();
    let kept = entries.len();
    if let Some((count, state)) = last {
        if count > 1 {
            entries.push((count - 1, state))?;
        }
    }
    if entries.is_empty() {
        entries.push((1, 0))?;
    }
    Ok(kept)
}

/// Moves the stack by a rule's target, and answers how many entries from the bottom stay.
#[tactic(auto, unfolding(lrlex_rules::specs::Tiling::stack_after))]
#[inline(never)]
pub(crate) fn step(
    entries: &mut Vec<(usize, usize)>,
    target: Option<(usize, StartStateOperation)>,
) -> Result<usize, AllocError>
    requires entries { AreEntries entries.old.items }
    requires room { length (plain entries.old.items) + 1 < 2 ^ 64 }
    ensures entries { IfOk result (λ _. AreEntries entries.new.items) }
    ensures moved { IfOk result (λ _. plain entries.new.items
        ≡ stack_after (plain entries.old.items) target) }
    ensures stay { IfOk result (λ k. Stay k entries.old.items entries.new.items) }
    ensures same { OnErr result (entries.new.items ≡ entries.old.items) }
{
    match target {
        None => Ok(entries.len()),
        Some((id, StartStateOperation::ReplaceStack)) => {
            entries.clear();
            entries.push((1, id))?;
            Ok(0)
        }
        Some((id, StartStateOperation::Push)) => push_state(entries, id),
        Some((_, StartStateOperation::Pop)) => pop_state(entries),
    }
}

/// Makes the stack state 0 alone, as at the front of a text, in the room that it has.
pub(crate) fn reset(entries: &mut Vec<(usize, usize)>)
    requires { 0 < length entries.old.items }
    ensures { entries.new.items ≡ (1, 0) ∷ [] }
{
    entries.truncate(1);
    entries[0] = (1, 0);
}

/// The state on top of the stack.
#[inline(always)]
pub(crate) fn top_of(entries: &[(usize, usize)]) -> usize
    requires { AreEntries entries.now }
    ensures { result ≡ top (plain entries.now) }
{
    match entries.last() {
        Some((_, id)) => *id,
        None => 0,
    }
}
