ghost use Rattle.std.specs.Prelude.{◌≡◌, ◌≢◌, ◌↔◌, ◌++◌, List, ℕ, IsTrue, IfOk, MatchOption};
ghost use Rattle.std.specs.String.{string_bytes};
ghost use Rattle.lrlex_base.specs.Spans.{Fits, as_span};
ghost use Rattle.lrlex_base.specs.Edits.{edited};

use crate::spans::Span;
use std::alloc::{AllocError, Allocator};

/// A change of a text: `put` replaces the bytes of `removed`.
#[derive(Clone, Copy, Debug)]
pub struct Edit<'e> {
    pub removed: Span,
    pub put: &'e str,
}

// The bytes after this prefix, or none where they don't begin with it.
fn after_prefix<'t>(bytes: &'t [u8], prefix: &[u8]) -> Option<&'t [u8]>
    ensures { MatchOption result
        ((rest : List ℕ) → bytes.now ≢ prefix.now ++ rest)
        (λ rest. bytes.now ≡ prefix.now ++ rest.now) }
{
    bytes.strip_prefix(prefix)
}

impl<'e> Edit<'e> {
    /// Whether the edit can be made on `old`: both ends of `removed` are in range and on character boundaries.
    pub fn fits(&self, old: &str) -> bool
        ensures { IsTrue result ↔ Fits old.now self.now.removed }
    {
        self.removed.fits(old)
    }

    /// Whether the edit makes `new` of `old`. False where it doesn't fit `old`.
    pub fn gives(&self, old: &str, new: &str) -> bool
        ensures { IsTrue result ↔ (Fits old.now self.now.removed
            × (new.now ≡ edited old.now (as_span self.now.removed) self.now.put.now)) }
    {
        if !self.fits(old) {
            return false;
        }
        let front = old[..self.removed.start()].as_bytes();
        let tail = old[self.removed.end()..].as_bytes();
        match after_prefix(new.as_bytes(), front) {
            Some(rest) => match after_prefix(rest, self.put.as_bytes()) {
                Some(rest) => rest == tail,
                None => false,
            },
            None => false,
        }
    }

    /// The text that the edit makes of `old`. The edit fits `old`.
    pub fn apply<A: Allocator>(&self, alloc: A, old: &str) -> Result<String<A>, AllocError>
        requires { Fits old.now self.now.removed }
        ensures { IfOk result (λ s.
            string_bytes s ≡ edited old.now (as_span self.now.removed) self.now.put.now) }
    {
        let front = &old[..self.removed.start()];
        let tail = &old[self.removed.end()..];
        let kept = front.len() + tail.len();
        let mut new = String::with_capacity(alloc, kept.saturating_add(self.put.len()))?;
        new.push_str(front)?;
        new.push_str(self.put)?;
        new.push_str(tail)?;
        Ok(new)
    }
}
