//! Quotients of whole numbers, written with decimals.
use std::fmt;

/// A number of hundredths, written with two decimals.
#[derive(Clone, Copy)]
pub struct Hundredths {
    count: u128,
}

impl Hundredths {
    /// `amount / by` in hundredths, rounded down; 0 where `by` is 0.
    pub fn of(amount: u128, by: u128) -> Hundredths {
        Hundredths {
            count: amount.saturating_mul(100).checked_div(by).unwrap_or(0),
        }
    }
}

impl fmt::Display for Hundredths {
    fn fmt<W: fmt::Write>(&self, f: &mut fmt::Formatter<W>) -> fmt::Result {
        let whole = self.count / 100;
        let rest = self.count % 100;
        write!(f, "{whole}.{rest:02}")
    }
}
