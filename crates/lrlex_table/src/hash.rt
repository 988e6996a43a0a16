//! The hash of rows and of dead ends.

/// An odd number whose multiples are spread evenly: 2^64 divided by the golden ratio.
const SPREAD: u64 = 0x9E37_79B9_7F4A_7C15;

/// The hash of a list of words with one more word.
#[inline(always)]
pub(crate) fn hash_with(hash: u64, word: u64) -> u64 {
    (hash.rotate_left(23) ^ word).wrapping_mul(SPREAD)
}
