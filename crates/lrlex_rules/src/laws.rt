// What no single call's contract states: each law is the contract of a function that needs no caller.
ghost use Rattle.std.specs.Prelude.{◌≡◌, ℕ, ◌↔◌, IsTrue, Some};
ghost use Rattle.lrlex_rules.specs.Flags.{unset, resolved, config_of, size_limit_of, has_posix_escapes, allows_comments};
ghost use Rattle.lrlex_rules.specs.declared.flags.LexFlags.{LexFlags};
ghost use Rattle.lrlex_rules.specs.declared.states.StartStateOperation.{StartStateOperation};

use crate::flags::{DEFAULT_LEX_FLAGS, LexFlags, UNSPECIFIED_LEX_FLAGS};
use crate::states::StartStateOperation;

/// Of `UNSPECIFIED_LEX_FLAGS` nothing is set, and `DEFAULT_LEX_FLAGS` are what that resolves to. Flags are equal exactly
/// where each of them is. Resolved flags are those that are used: a rule text is read under them as under the flags that were
/// given, and a nest limit that they have is the one that patterns are read under.
pub fn flag_laws()
    ensures unset { UNSPECIFIED_LEX_FLAGS ≡ unset }
    ensures defaults { DEFAULT_LEX_FLAGS ≡ resolved unset }
    ensures equal { (a b : LexFlags) → IsTrue (⟦<LexFlags as PartialEq>⟧.eq a b) ↔ (a ≡ b) }
    ensures config { (f : LexFlags) → config_of (resolved f) ≡ config_of f }
    ensures size { (f : LexFlags) → size_limit_of (resolved f) ≡ size_limit_of f }
    ensures escapes { (f : LexFlags) → has_posix_escapes (resolved f) ≡ has_posix_escapes f }
    ensures comments { (f : LexFlags) → allows_comments (resolved f) ≡ allows_comments f }
    ensures nesting { (f : LexFlags) (n : ℕ) → (resolved f).nest_limit ≡ Some n
        → (config_of f).nest_limit ≡ n }
    ensures once { (f : LexFlags) → resolved (resolved f) ≡ resolved f }
{}

/// An operation equals itself alone.
pub fn operation_laws()
    ensures { (a b : StartStateOperation) →
        IsTrue (⟦<StartStateOperation as PartialEq>⟧.eq a b) ↔ (a ≡ b) }
{}
