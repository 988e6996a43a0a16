ghost use Rattle.std.specs.Prelude.{◌≡◌, ◌<◌, ◌≤◌, ◌-◌, ◌^◌, ◌↔◌, ℕ, IfSome, IsNone, IsTrue};

/// A value with a number, as each id is. Code that passes ids on, or makes them from a count, needs this bound alone: `Id` brings
/// about forty traits, among them those of `num_traits`.
pub trait Numbered: Copy {
    // The value's number.
    ghost number: { Self → ℕ };

    // The greatest number of a value of the type.
    ghost greatest: { ℕ };

    /// The value whose number is `n`, or none where `n` is above the type's greatest number.
    fn of_count(n: usize) -> Option<Self>
        ensures value { IfSome result (λ it. number it ≡ n) }
        ensures none { IsNone result ↔ (greatest < n) };

    /// Whether both values have the same number.
    fn is(self, other: Self) -> bool
        ensures { IsTrue result ↔ (number self ≡ number other) };

    /// The value's number as a count, or none where it doesn't fit `usize`.
    fn as_count(self) -> Option<usize>
        ensures value { IfSome result (λ n. number self ≡ n) }
        ensures none { IsNone result ↔ (2 ^ 64 ≤ number self) };

    // Two values are the same exactly where their numbers are.
    ghost same_law: { (a b : Self) → number a ≡ number b → a ≡ b };
}

impl Numbered for u8 {
    ghost number = { λ x. x };

    ghost greatest = { 2 ^ 8 - 1 };

    fn of_count(n: usize) -> Option<u8> {
        u8::try_from(n).ok()
    }

    fn is(self, other: u8) -> bool {
        self == other
    }

    fn as_count(self) -> Option<usize> {
        Some(self as usize)
    }

    ghost same_law = { λ a b e. e };
}

impl Numbered for u16 {
    ghost number = { λ x. x };

    ghost greatest = { 2 ^ 16 - 1 };

    fn of_count(n: usize) -> Option<u16> {
        u16::try_from(n).ok()
    }

    fn is(self, other: u16) -> bool {
        self == other
    }

    fn as_count(self) -> Option<usize> {
        Some(self as usize)
    }

    ghost same_law = { λ a b e. e };
}

impl Numbered for u32 {
    ghost number = { λ x. x };

    ghost greatest = { 2 ^ 32 - 1 };

    fn of_count(n: usize) -> Option<u32> {
        u32::try_from(n).ok()
    }

    fn is(self, other: u32) -> bool {
        self == other
    }

    fn as_count(self) -> Option<usize> {
        Some(self as usize)
    }

    ghost same_law = { λ a b e. e };
}

impl Numbered for u64 {
    ghost number = { λ x. x };

    ghost greatest = { 2 ^ 64 - 1 };

    fn of_count(n: usize) -> Option<u64> {
        Some(n as u64)
    }

    fn is(self, other: u64) -> bool {
        self == other
    }

    fn as_count(self) -> Option<usize> {
        Some(self as usize)
    }

    ghost same_law = { λ a b e. e };
}

impl Numbered for u128 {
    ghost number = { λ x. x };

    ghost greatest = { 2 ^ 128 - 1 };

    fn of_count(n: usize) -> Option<u128> {
        Some(n as u128)
    }

    fn is(self, other: u128) -> bool {
        self == other
    }

    fn as_count(self) -> Option<usize> {
        usize::try_from(self).ok()
    }

    ghost same_law = { λ a b e. e };
}

impl Numbered for usize {
    ghost number = { λ x. x };

    ghost greatest = { 2 ^ 64 - 1 };

    fn of_count(n: usize) -> Option<usize> {
        Some(n)
    }

    fn is(self, other: usize) -> bool {
        self == other
    }

    fn as_count(self) -> Option<usize> {
        Some(self)
    }

    ghost same_law = { λ a b e. e };
}
