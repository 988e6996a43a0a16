//! The difference of two lists of numbers, as one edit, and of lists that changed twice.
ghost use Rattle.std.specs.Prelude.{◌≡◌, ◌≤◌, ◌<◌, ◌+◌, ◌-◌, ◌^◌, IfOk, List, OnOk, ℕ, length, take, drop};
ghost use Rattle.std.specs.List.{splice};
ghost use Rattle.lrlex.specs.Changes.{IsChange};
ghost use Rattle.lrlex_lsp.specs.Changes.{replaced};

use lrlex::Change;
use std::alloc::{AllocError, Global};

/// An edit of a list of numbers: from `start` on, `removed` numbers give way to those of `put`.
#[derive(Clone, Copy)]
pub(crate) struct NumberEdit<'n> {
    pub(crate) start: usize,
    pub(crate) removed: usize,
    pub(crate) put: &'n [u32],
}

/// How many numbers are the same at the front of both.
fn same_front(old: &[u32], new: &[u32]) -> usize
    ensures in_old { result ≤ length old.now }
    ensures in_new { result ≤ length new.now }
    ensures same { take result old.now ≡ take result new.now }
{
    let mut count = 0;
    'front: while count < old.len() && count < new.len() && old[count] == new[count] {
        count += 1;
    }
    count
}

/// How many numbers are the same at the end of both.
fn same_end(old: &[u32], new: &[u32]) -> usize
    ensures in_old { result ≤ length old.now }
    ensures in_new { result ≤ length new.now }
    ensures same { drop (length old.now - result) old.now ≡ drop (length new.now - result) new.now }
{
    let mut count = 0;
    'end: while count < old.len()
        && count < new.len()
        && old[old.len() - count - 1] == new[new.len() - count - 1]
    {
        count += 1;
    }
    count
}

/// The edit that makes the new numbers of the old ones. What is the same at the front and at the end isn't in it.
pub(crate) fn change_between<'n>(old: &[u32], new: &'n [u32]) -> NumberEdit<'n>
    ensures makes { replaced old.now result.start result.removed result.put.now ≡ new.now }
    ensures fits { result.start + result.removed ≤ length old.now }
{
    let front = same_front(old, new);
    let (_, old) = old.split_at(front);
    let (_, new) = new.split_at(front);
    let end = same_end(old, new);
    let (put, _) = new.split_at(new.len() - end);
    NumberEdit {
        start: front,
        removed: old.len() - end,
        put,
    }
}

/// Puts numbers in the place of those from `from` up to `to`, and gives the edit that does that. What is the same at the front and
/// at the end isn't in it.
pub(crate) fn put_between<'n>(
    alloc: Global,
    numbers: &mut Vec<u32>,
    from: usize,
    to: usize,
    put: &'n [u32],
) -> Result<NumberEdit<'n>, AllocError>
    requires order { from ≤ to }
    requires within { to ≤ length numbers.old.items }
    ensures puts { OnOk result (numbers.new.items ≡ splice numbers.old.items from to put.now) }
    ensures makes { IfOk result (λ edit. replaced numbers.old.items edit.start edit.removed
        edit.put.now ≡ numbers.new.items) }
{
    let edit = change_between(&numbers[from..to], put);
    let new = Vec::from_slice(alloc, put)?;
    numbers.splice(from..to, new)?;
    Ok(NumberEdit {
        start: from + edit.start,
        removed: edit.removed,
        put: edit.put,
    })
}

/// Two changes of a list, one after the other, as one.
pub(crate) fn joined(one: Change, other: Change) -> Change
    ensures { (old mid new : List ℕ) → length old < 2 ^ 64 → length mid < 2 ^ 64 → length new < 2 ^ 64
        → IsChange (λ x. x) one old mid → IsChange (λ x. x) other mid new
        → IsChange (λ x. x) result old new }
{
    let first = one.first.min(other.first);
    let one_end = one.first.saturating_add(one.inserted);
    let other_end = other.first.saturating_add(other.removed);
    let end = one_end.max(other_end);
    Change {
        first,
        removed: one
            .first
            .saturating_add(one.removed)
            .saturating_add(end - one_end)
            .saturating_sub(first),
        inserted: other
            .first
            .saturating_add(other.inserted)
            .saturating_add(end - other_end)
            .saturating_sub(first),
    }
}
