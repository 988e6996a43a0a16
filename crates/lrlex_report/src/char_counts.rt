//! How many characters a text has before its places, so that the columns of many places of a long line don't count it again.
ghost use Rattle.std.specs.Prelude.{◌≡◌, IfOk, IsCharBoundary};
ghost use Rattle.lrlex_base.specs.Places.{column_of};
ghost use Rattle.lrlex_report.specs.CharCounts.{chars_before, char_counts};
ghost use Rattle.lrlex_report.specs.PlaceTexts.{line_at};

use crate::places::nearest;
use std::alloc::{AllocError, Global};

/// How many bytes are between two places whose counts are kept.
const STEP: usize = 128;

/// How many characters are before every 128th byte of a text, counted in one pass over it.
pub(crate) fn char_counts(alloc: Global, text: &str) -> Result<Vec<usize>, AllocError>
    ensures { IfOk result (λ counts. counts.items ≡ char_counts text.now) }
{
    let mut counts = Vec::new(alloc);
    let (mut from, mut before) = (0usize, 0usize);
    for k in 0..text.len() / STEP + 1 {
        let to = nearest(text, k * STEP);
        before += text[from..to].chars().count();
        counts.push(before)?;
        from = to;
    }
    Ok(counts)
}

/// How many characters are before a place, by the counts of its text: it counts on from the last of them.
fn chars_before(counts: &[usize], text: &str, at: usize) -> usize
    requires counts { counts.now ≡ char_counts text.now }
    requires at { IsCharBoundary text.now at }
    ensures { result ≡ chars_before text.now at }
{
    let from = nearest(text, at / STEP * STEP);
    counts[at / STEP] + text[from..at].chars().count()
}

/// The column of a place, by the counts of its text, where its line begins at `begin`.
pub(crate) fn column(counts: &[usize], text: &str, begin: usize, at: usize) -> usize
    requires counts { counts.now ≡ char_counts text.now }
    requires at { IsCharBoundary text.now at }
    requires line { begin ≡ (line_at text.now at).start }
    requires begin { IsCharBoundary text.now begin }
    ensures { result ≡ column_of text.now at }
{
    1 + (chars_before(counts, text, at) - chars_before(counts, text, begin))
}
