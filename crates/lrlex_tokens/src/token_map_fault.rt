use std::alloc::{Allocator, Global};
use std::error::Error;
use std::fmt;

/// Why no module of token ids is written.
#[derive(Debug, Drop)]
pub enum TokenMapFault<A: Allocator = Global> {
    /// The module's name is no identifier.
    BadModuleName,
    /// The type's name is no identifier.
    BadTypeName,
    /// The token of this own name goes by a name with a character that no identifier may go on with.
    BadTokenName(String<A>),
    /// The token of this own name has the constant of an earlier token.
    SameConstant(String<A>),
}

impl<A: Allocator> fmt::Display for TokenMapFault<A> {
    ghost use Rattle.std.specs.Prelude.{Some};
    ghost use Rattle.lrlex_tokens.specs.TokenModule.{fault_text};
    ghost use Rattle.lrlex_tokens.specs.TokenMap.{fault_view};

    ghost output = { λ fault. Some (fault_text (fault_view fault)) };

    fn fmt<W: fmt::Write>(&self, f: &mut fmt::Formatter<W>) -> fmt::Result {
        match self {
            TokenMapFault::BadModuleName => f.write_str("Module name is not an identifier"),
            TokenMapFault::BadTypeName => f.write_str("Type name is not an identifier"),
            TokenMapFault::BadTokenName(name) => {
                write!(f, "Constant of token '{name}' is not an identifier")
            }
            TokenMapFault::SameConstant(name) => {
                write!(f, "Constant of token '{name}' is that of an earlier token")
            }
        }
    }
}

impl<A: Allocator + fmt::Debug> Error for TokenMapFault<A> {}
