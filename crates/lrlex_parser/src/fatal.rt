ghost use Rattle.std.specs.Prelude.{◌≡◌, false};
ghost use Rattle.lrlex_parser.specs.LexErrorKind.{as_kind, is_regex_error};
ghost use Rattle.lrlex_parser.specs.Duplicates.{tells_duplicates};

use crate::faults::LexErrorKind;

/// A fault that ends the parse, and the place of it. Such a fault is neither `regex`'s nor that of duplicates.
#[derive(Debug, Drop)]
pub(crate) struct Fatal {
    pub(crate) kind: LexErrorKind,
    pub(crate) at: usize,
    ghost own: { is_regex_error (as_kind kind) ≡ false },
    ghost lone: { tells_duplicates (as_kind kind) ≡ false },
}
