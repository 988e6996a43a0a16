ghost use Rattle.std.specs.Prelude.{◌<◌, ◌+◌, ◌^◌};

use crate::lexemes::{LexError, Lexeme};
use crate::lexers::LexerTypes;
use crate::numbered::Numbered;
use crate::spans::Span;
use std::alloc::AllocError;
use std::error::Error;
use std::fmt;
use std::fmt::{Debug, Display};
use std::hash::Hash;
use std::marker::PhantomData;

/// The usual lexeme. It is printed as `DefaultLexeme[S..E]`, S and E being the offsets of its two ends.
#[derive(Copy, PartialEq, Eq, Hash, Debug)]
pub struct DefaultLexeme<StorageT = u32> {
    start: usize,
    len: usize,
    faulty: bool,
    tok_id: StorageT,
    ghost fits: { start + len < 2 ^ 64 },
}

impl<StorageT: Copy> Clone for DefaultLexeme<StorageT> {
    ghost use Rattle.std.specs.Prelude.{◌≡◌, ⊤};

    // The copy is its source, and never fails.
    ghost is_clone = { λ x y. y ≡ x };

    ghost is_infallible = { λ _. ⊤ };

    fn clone(&self) -> Result<DefaultLexeme<StorageT>, AllocError> {
        Ok(*self)
    }
}

impl<StorageT: Numbered + Debug + Eq + Hash> Lexeme<StorageT> for DefaultLexeme<StorageT> {
    ghost use Rattle.lrlex_base.specs.Lexemes.{lexeme_seen};

    ghost seen = { lexeme_seen };

    fn new(tok_id: StorageT, start: usize, len: usize) -> DefaultLexeme<StorageT> {
        DefaultLexeme {
            start,
            len,
            faulty: false,
            tok_id,
        }
    }

    fn new_faulty(tok_id: StorageT, start: usize, len: usize) -> DefaultLexeme<StorageT> {
        DefaultLexeme {
            start,
            len,
            faulty: true,
            tok_id,
        }
    }

    fn tok_id(&self) -> StorageT {
        self.tok_id
    }

    fn span(&self) -> Span {
        Span::new(self.start, self.start + self.len)
    }

    fn faulty(&self) -> bool {
        self.faulty
    }
}

impl<StorageT> fmt::Display for DefaultLexeme<StorageT> {
    ghost use Rattle.std.specs.Prelude.{Some};
    ghost use Rattle.lrlex_base.specs.Lexemes.{lexeme_text};

    ghost output = { λ x. Some (lexeme_text x) };

    fn fmt<W: fmt::Write>(&self, f: &mut fmt::Formatter<W>) -> fmt::Result {
        let start = self.start;
        let end = self.start + self.len;
        write!(f, "DefaultLexeme[{start}..{end}]")
    }
}

impl<StorageT: Numbered + Debug> Error for DefaultLexeme<StorageT> {}

/// The usual types of a lexer: `DefaultLexeme` over the id type `T`, and the error type `E`.
#[derive(Clone, Debug, Drop)]
pub struct DefaultLexerTypes<T = u32, E = ()> {
    phantom: PhantomData<(T, E)>,
}

impl<T: Numbered + Debug + Display + Eq + Hash, E: LexError + Copy> LexerTypes
    for DefaultLexerTypes<T, E> {
    type LexemeT = DefaultLexeme<T>;

    type StorageT = T;

    type LexErrorT = E;
}
