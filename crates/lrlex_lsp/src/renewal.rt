//! The tokens of a document after edits, made of those before.
ghost use Rattle.std.specs.Prelude.{◌≡◌, ◌*◌, IfOk, length, min};
ghost use Rattle.lrlex_lsp.specs.Changes.{replaced};

use crate::changes::{NumberEdit, put_between};
use crate::tokens::{Extent, Tokens};
use lrlex::Change;
use std::alloc::{AllocError, Global};

/// How many numbers a token has.
const NUMBERS: usize = 5;

/// What of a document's pieces is shown anew.
#[derive(Clone, Copy)]
pub(crate) struct Part {
    /// How many pieces stay before it, and how many go.
    first: usize,
    removed: usize,
    /// How far the pieces before it go, and those that go.
    before: Extent,
    gone: Extent,
    /// How many bytes stay after it.
    pub(crate) behind: usize,
    /// Where the last token before it begins.
    pub(crate) last: (usize, usize),
}

impl Part {
    /// The byte at which it begins.
    pub(crate) fn begin(&self) -> usize {
        self.before.bytes
    }
}

/// The pieces before this one, and those from it on.
fn parted(pieces: &[Extent], at: usize) -> (&[Extent], &[Extent]) {
    pieces.split_at(at.min(pieces.len()))
}

/// How far pieces go in all.
fn total(pieces: &[Extent]) -> Extent {
    let mut all = Extent {
        bytes: 0,
        tokens: 0,
    };
    for piece in pieces {
        all.bytes = all.bytes.saturating_add(piece.bytes);
        all.tokens = all.tokens.saturating_add(piece.tokens);
    }
    all
}

/// How many pieces there are up to the first that has a token, and with it.
fn through_token(pieces: &[Extent]) -> usize {
    match pieces.iter().position(|piece| piece.tokens > 0) {
        Some(at) => at.saturating_add(1),
        None => pieces.len(),
    }
}

/// Where the last of these tokens begins, the first of which is told from the text's beginning.
fn last_place(numbers: &[u32]) -> (usize, usize) {
    let (mut line, mut column) = (0usize, 0usize);
    for token in numbers.chunks_exact(NUMBERS) {
        let (down, right) = (token[0] as usize, token[1] as usize);
        column = if down == 0 {
            column.saturating_add(right)
        } else {
            right
        };
        line = line.saturating_add(down);
    }
    (line, column)
}

impl Tokens {
    /// Where the numbers of so many tokens end.
    fn numbers_of(&self, tokens: usize) -> usize
        ensures { result ≡ min (tokens * 5) (length self.now.numbers.items) }
    {
        tokens.saturating_mul(NUMBERS).min(self.numbers.len())
    }

    /// What is shown anew where pieces changed so: these, and those after them up to the first with a token, which is told from
    /// the last token before it.
    pub(crate) fn part(&self, change: Change) -> Part {
        let (front, rest) = parted(&self.pieces, change.first);
        let (gone, back) = parted(rest, change.removed);
        let more = through_token(back);
        let (_, back) = parted(back, more);
        let removed = gone.len().saturating_add(more);
        let (gone, _) = parted(rest, removed);
        let before = total(front);
        let (numbers, _) = self.numbers.split_at(self.numbers_of(before.tokens));
        Part {
            first: front.len(),
            removed,
            before,
            gone: total(gone),
            behind: total(back).bytes,
            last: last_place(numbers),
        }
    }

    /// Puts new tokens in the place of a part, and gives the edit of the numbers.
    pub(crate) fn renew<'n>(
        &mut self,
        alloc: Global,
        part: Part,
        new: &'n Tokens,
    ) -> Result<NumberEdit<'n>, AllocError>
        ensures { IfOk result (λ edit. replaced self.old.numbers.items edit.start edit.removed
            edit.put.now ≡ self.new.numbers.items) }
    {
        let from = self.numbers_of(part.before.tokens);
        let to = self.numbers_of(part.before.tokens.saturating_add(part.gone.tokens));
        let first = part.first.min(self.pieces.len());
        let behind = first.saturating_add(part.removed).min(self.pieces.len());
        let pieces = Vec::from_slice(alloc, &new.pieces)?;
        self.pieces.splice(first..behind, pieces)?;
        put_between(alloc, &mut self.numbers, from, to, &new.numbers)
    }
}
