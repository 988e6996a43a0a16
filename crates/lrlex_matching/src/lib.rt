//! Matching: how many bytes of a text a pattern matches, found by `regex`.
#![tactic(auto)]

ghost use Rattle.std.specs.Prelude.{◌≡◌, ◌+◌, ◌^◌, ◌<◌, IsCharBoundary};
ghost use Rattle.regex.specs.Strings.{matcher_pattern};
ghost use Rattle.lrlex_matching.specs.Matching.{match_length};

use regex::Matcher;

/// How many bytes the pattern matches at the beginning of the text: the length of the leftmost match that `regex` finds, if that
/// match starts there, else 0. No other function searches by `regex`, and the search is counted in `asked`.
pub fn match_len(matcher: &mut Matcher<'_>, text: &str, asked: &mut u128) -> usize
    requires { asked.old + 1 < 2 ^ 128 }
    ensures length { result ≡ match_length (matcher_pattern matcher.old) text.now }
    ensures boundary { IsCharBoundary text.now result }
    ensures counted { asked.new ≡ asked.old + 1 }
    ensures same { matcher_pattern matcher.new ≡ matcher_pattern matcher.old }
{
    *asked += 1;
    match matcher.find(text) {
        Some(found) => {
            let start = found.start();
            if start == 0 { found.end() } else { 0 }
        }
        None => 0,
    }
}
