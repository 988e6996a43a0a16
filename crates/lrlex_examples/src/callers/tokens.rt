ghost use Rattle.std.specs.Prelude.{List, Some, IfOk, map};
ghost use Rattle.std.specs.List.{IsDistinct};
ghost use Rattle.std.specs.Str.{bytes_eq};
ghost use Rattle.lrlex_tokens.specs.TokenModule.{AreTokensOf, Token, constant_of, renamed};
ghost use Rattle.lrlex_tokens.specs.TokenMap.{entries_of, look_up};

use lrlex_tokens::{CTTokenMapBuilder, TokenMapFault};
use std::alloc::{AllocError, Global};
use std::collections::HashMap;
use std::fmt::Display;

/// The text of a module `token_ids` with a constant of type `u32` for each token of the map, under the names that another
/// map has for them, as `PLUS` for `+`. Or why there is none. No two constants have the same name.
pub fn token_ids(
    alloc: Global,
    tokens: &HashMap<String, u32>,
    renames: &HashMap<&str, &str>,
) -> Result<Result<String, TokenMapFault>, AllocError>
    ensures { IfOk result (λ text. IfOk text (λ _. (named : List Token)
        × AreTokensOf ⟦<u32 as Display>⟧.output (entries_of tokens.now) named
        × IsDistinct bytes_eq (map constant_of (map (renamed (look_up (Some renames.entry))) named)))) }
{
    let named = CTTokenMapBuilder::new(alloc, "token_ids", "u32", tokens)?;
    let shown = named.rename_map(alloc, Some(renames))?;
    shown.build(alloc)
}
