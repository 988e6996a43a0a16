//! The matchers of rules: how many bytes of a text a rule's pattern matches, by a search that is counted.
ghost use Rattle.std.specs.Prelude.{◌≡◌, ◌+◌, ◌^◌, ◌<◌, IfOk, IsCharBoundary};
ghost use Rattle.regex.specs.Patterns.{SameCaptures};
ghost use Rattle.regex.specs.Strings.{matcher_pattern};
ghost use Rattle.lrlex_matching.specs.Matching.{match_length};
ghost use Rattle.lrlex_rules.specs.Matchers.{IsMatcherOf, AreMatchers};
ghost use Rattle.lrlex_rules.specs.Patterns.{rule_pattern};

use crate::rules::Rule;
use lrlex_matching::match_len;
use regex::Matcher;
use std::alloc::{AllocError, Global};

/// How many bytes of the text the rule's pattern matches, by this matcher. The search is counted, by `match_len`.
fn match_with<S>(matcher: &mut Matcher<'_>, rule: &Rule<S>, text: &str, asked: &mut u128) -> usize
    requires rule { SameCaptures (matcher_pattern matcher.old) (rule_pattern rule.now) }
    requires room { asked.old + 1 < 2 ^ 128 }
    ensures length { result ≡ match_length (rule_pattern rule.now) text.now }
    ensures boundary { IsCharBoundary text.now result }
    ensures counted { asked.new ≡ asked.old + 1 }
    ensures same { matcher_pattern matcher.new ≡ matcher_pattern matcher.old }
{
    match_len(matcher, text, asked)
}

/// How many bytes of the text the rule's pattern matches, by the matcher in the slot, which is made where there is none yet. The
/// search is counted. Out of line, since a matcher's room on the stack would cost each tile.
#[inline(never)]
pub fn match_rule<'d, S>(
    alloc: Global,
    slot: &mut Option<Box<Matcher<'d>>>,
    rule: &'d Rule<S>,
    text: &str,
    asked: &mut u128,
) -> Result<usize, AllocError>
    requires slot { IsMatcherOf rule.now slot.old }
    requires room { asked.old + 1 < 2 ^ 128 }
    ensures length { IfOk result (λ n. n ≡ match_length (rule_pattern rule.now) text.now) }
    ensures boundary { IfOk result (λ n. IsCharBoundary text.now n) }
    ensures counted { IfOk result (λ _. asked.new ≡ asked.old + 1) }
    ensures slot { IsMatcherOf rule.now slot.new }
{
    match slot {
        Some(matcher) => Ok(match_with(matcher, rule, text, asked)),
        None => {
            let mut matcher = Box::new(alloc, rule.matcher(alloc)?)?;
            let len = match_with(&mut matcher, rule, text, asked);
            *slot = Some(matcher);
            Ok(len)
        }
    }
}

/// An empty slot for the matcher of each rule.
pub fn empty_matchers<'d, S>(
    alloc: Global,
    rules: &'d [Rule<S>],
) -> Result<Vec<Option<Box<Matcher<'d>>>>, AllocError>
    ensures { IfOk result (λ made. AreMatchers rules.now made.items) }
{
    let mut made = Vec::with_capacity(alloc, rules.len())?;
    'rules: for _index in 0..rules.len() {
        made.push(None)?;
    }
    Ok(made)
}
