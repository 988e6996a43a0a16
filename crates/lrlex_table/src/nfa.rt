ghost use Rattle.std.specs.Prelude.{◌≡◌, IfOk, IfSome};
ghost use Rattle.regex.specs.Strings.{regex_pattern, regex_config, IsReadFromSource};
ghost use Rattle.lrlex_table.specs.Table.{Measures};

use regex::Regex;
use regex_nfa::Nfa;
use regex_syntax::{Config, ErrorKind};
use std::alloc::{AllocError, Global};

/// The most bytes that an NFA's tables take.
const MOST: usize = 2 << 20;

/// The NFA of a pattern, which `regex` read under these options. None where it would be too big.
pub fn nfa_of(alloc: Global, regex: &Regex, config: &Config) -> Result<Option<Nfa>, AllocError>
    requires read { ∥ IsReadFromSource regex.now ∥₁ }
    requires config { regex_config regex.now ≡ config.now }
    ensures { IfOk result (λ o. IfSome o (λ nfa. Measures nfa (regex_pattern regex.now))) }
{
    let parsed = match regex_syntax::parse(alloc, regex.as_str(), config) {
        Ok(parsed) => parsed,
        Err(error) => {
            return match error.kind {
                ErrorKind::OutOfMemory => Err(AllocError),
                _ => Ok(None),
            };
        }
    };
    let Ok(groups) = u32::try_from(parsed.names.len()) else {
        return Ok(None);
    };
    match regex_compile::compile(alloc, &parsed.hir, groups, MOST) {
        Ok(nfa) => Ok(Some(nfa)),
        Err(regex_compile::Error::OutOfMemory) => Err(AllocError),
        Err(_) => Ok(None),
    }
}
