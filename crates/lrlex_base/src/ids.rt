ghost use Rattle.std.specs.Prelude.{◌≡◌, ◌<◌, ◌≤◌, ◌^◌, ◌↔◌, ℕ, IsTrue, IfSome, IsNone};
ghost use Rattle.std.proofs.Common.{rules};

use crate::numbered::Numbered;
use num_traits::{PrimInt, Unsigned};
use std::fmt::{Debug, Display};
use std::hash::Hash;

/// A type of token ids: unsigned numbers up to a greatest one. A parser tells tokens apart by their ids.
pub trait Id: Numbered + Debug + Display + Eq + Hash + PrimInt + Unsigned + TryFrom<usize> {
    /// The id whose number is `n`, or none where `n` is above the type's greatest number.
    fn from_count(n: usize) -> Option<Self>
        ensures value { IfSome result (λ id. Self.number id ≡ n) }
        ensures none { IsNone result ↔ (Self.greatest < n) };

    /// The id's number as a count, or none where it doesn't fit `usize`.
    fn to_count(self) -> Option<usize>
        ensures value { IfSome result (λ n. Self.number self ≡ n) }
        ensures none { IsNone result ↔ (2 ^ 64 ≤ Self.number self) };

    // Two ids are equal by `==` exactly where their numbers are.
    ghost equal_law: { (a b : Self) → IsTrue (Self.eq a b) ↔ (Self.number a ≡ Self.number b) };
}

impl Id for u8 {
    fn from_count(n: usize) -> Option<u8> {
        u8::of_count(n)
    }

    fn to_count(self) -> Option<usize> {
        u8::as_count(self)
    }

    ghost equal_law = { Prim.search rules };
}

impl Id for u16 {
    fn from_count(n: usize) -> Option<u16> {
        u16::of_count(n)
    }

    fn to_count(self) -> Option<usize> {
        u16::as_count(self)
    }

    ghost equal_law = { Prim.search rules };
}

impl Id for u32 {
    fn from_count(n: usize) -> Option<u32> {
        u32::of_count(n)
    }

    fn to_count(self) -> Option<usize> {
        u32::as_count(self)
    }

    ghost equal_law = { Prim.search rules };
}

impl Id for u64 {
    fn from_count(n: usize) -> Option<u64> {
        u64::of_count(n)
    }

    fn to_count(self) -> Option<usize> {
        u64::as_count(self)
    }

    ghost equal_law = { Prim.search rules };
}

impl Id for u128 {
    fn from_count(n: usize) -> Option<u128> {
        u128::of_count(n)
    }

    fn to_count(self) -> Option<usize> {
        u128::as_count(self)
    }

    ghost equal_law = { Prim.search rules };
}

impl Id for usize {
    fn from_count(n: usize) -> Option<usize> {
        usize::of_count(n)
    }

    fn to_count(self) -> Option<usize> {
        usize::as_count(self)
    }

    ghost equal_law = { Prim.search rules };
}
