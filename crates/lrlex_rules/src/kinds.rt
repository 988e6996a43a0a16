//! What lexing needs of a rule for each tile, in a few bytes.
ghost use Rattle.std.specs.Prelude.{◌≡◌};
ghost use Rattle.lrlex_rules.specs.Kinds.{kind_of};

use crate::rules::Rule;

/// The id of a rule's lexemes, and whether the rule is plain: it has no target, and an id if it has a name. So a tile of a plain rule
/// leaves the stack as it is, and needs nothing else of its rule.
#[derive(Clone, Copy)]
pub struct Kind<S> {
    pub id: Option<S>,
    pub plain: bool,
}

/// That of a rule.
pub fn kind_of<S: Copy>(rule: &Rule<S>) -> Kind<S>
    ensures { result ≡ kind_of rule.now }
{
    let named = rule.name().is_some();
    Kind {
        id: if named { rule.tok_id() } else { None },
        plain: rule.target_state().is_none() && !(named && rule.tok_id().is_none()),
    }
}
