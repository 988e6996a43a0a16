//! Lists that have room, as lexing makes it ahead.
ghost use Rattle.std.specs.Prelude.{◌≡◌, ◌+◌, ◌≤◌, [], ◌∷◌, ◌++◌, length, take, drop, vec_len, vec_capacity, IfOk, OnOk, OnErr};

use std::alloc::{AllocError, Global};

/// For how many values more than a list has now room is made.
const SLACK: usize = 64;

/// Appends the value. Where there is room that is a store in line, which `push` isn't: that can hand the value back.
#[inline(always)]
pub fn append<T: Copy>(list: &mut Vec<T>, value: T) -> Result<(), AllocError>
    ensures items { OnOk result (list.new.items ≡ list.old.items ++ value ∷ []) }
    ensures same { OnErr result (list.new.items ≡ list.old.items) }
{
    list.reserve(1)?;
    list.push_reserved(value);
    Ok(())
}

/// A copy of the list, with room for some more.
pub fn copied<T: Copy>(alloc: Global, list: &[T]) -> Result<Vec<T>, AllocError>
    ensures { IfOk result (λ made. made.items ≡ list.now) }
{
    let mut made = Vec::with_capacity(alloc, list.len().saturating_add(SLACK))?;
    made.extend_from_slice(list)?;
    Ok(made)
}

/// Puts values in the place of those from `from` up to `to`. There is room for them beside all that are there.
pub fn splice<T: Copy>(list: &mut Vec<T>, from: usize, to: usize, between: &[T])
    requires order { from ≤ to }
    requires within { to ≤ length list.old.items }
    requires room { vec_len list.old + length between.now ≤ vec_capacity list.old }
    ensures { list.new.items ≡ take from list.old.items ++ (between.now ++ drop to list.old.items) }
{
    let len = list.len();
    let end = from + between.len();
    if end != to {
        'more: for index in 0..end.saturating_sub(to) {
            list.push_reserved(between[index]);
        }
        list.copy_within(to..len, end);
        list.truncate(end + (len - to));
    }
    list[from..end].copy_from_slice(between);
}
