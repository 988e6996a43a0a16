//! The steps of a scanner, for a loop.
ghost use Rattle.lrlex.specs.Steps.{BeginsAt};

use crate::lexing::scanner::{Scanner, Step};
use lrlex_base::Numbered;
use std::alloc::{AllocError, Global};

/// The steps of a scanner in order: each tile, and as the last one why there are no more, or that memory was refused.
#[derive(Drop)]
pub struct Steps<'lexer, 'input, S: Numbered> {
    scanner: Scanner<'lexer, 'input, S>,
    alloc: Global,
    ended: bool,
}

impl<'lexer, 'input, S: Numbered> Scanner<'lexer, 'input, S> {
    /// Its steps from here on, for a loop.
    pub fn steps(self, alloc: Global) -> Steps<'lexer, 'input, S>
        ensures { BeginsAt self.entry result }
    {
        Steps {
            scanner: self,
            alloc,
            ended: false,
        }
    }
}

impl<'lexer, 'input, S: Numbered> Iterator for Steps<'lexer, 'input, S> {
    ghost use Rattle.std.specs.Iterator.{at_most};
    ghost use Rattle.lrlex.specs.Steps.{HasStepped, steps_left};

    type Item = Result<Step<S>, AllocError>;

    ghost next_gives = { HasStepped S.number };

    ghost remaining = { λ s. at_most (steps_left s) };

    fn next(&mut self) -> Option<Result<Step<S>, AllocError>> {
        if self.ended {
            return None;
        }
        let step = self.scanner.next(self.alloc);
        self.ended = match step {
            Ok(Step::Tile(_)) => false,
            _ => true,
        };
        Some(step)
    }
}
