//! Which name of a list of start states a rule text doesn't declare.
ghost use Rattle.std.specs.Prelude.{◌≡◌, ◌∷◌, ◌+◌, ◌<◌, ℕ, length, IfSome};
ghost use Rattle.std.specs.Option.{option_copied};
ghost use Rattle.lrlex_base.specs.Classes.{is_white_space};
ghost use Rattle.lrlex_parser.specs.RuleLine.{listed_names, names_left};
ghost use Rattle.lrlex_parser.specs.Text.{cut, piece, pieces_left, trim_start, trim_text};
ghost use Rattle.lrlex_report.specs.Listed.{declares, is_declared, undeclared, before_angle, after_less, has_few, names_in, unknown_name};

use crate::notes::{begins_list, text_from};
use crate::ranges::{first_bytes, first_line, trim_end};
use lrlex_base::is_white_space;

/// The text without the white space at its front.
fn trim_start(text: &str) -> &str
    ensures { result.now ≡ trim_start text.now }
{
    text.trim_start_matches(|c: char| is_white_space(c))
}

/// The text without the white space at both ends.
fn trim_text(text: &str) -> &str
    ensures { result.now ≡ trim_text text.now }
{
    trim_end(trim_start(text))
}

/// The first word of a text, and what follows the white space character after it, if there is one.
fn next_word(text: &str) -> (&str, Option<&str>)
    ensures pieces { (o : ℕ) → cut is_white_space (piece o text.now)
        ≡ piece o result.0.now
        ∷ pieces_left is_white_space (o + length text.now) (option_copied result.1) }
    ensures shorter { IfSome (option_copied result.1) (λ rest. length rest < length text.now) }
{
    match text.split_once(|c: char| is_white_space(c)) {
        Some((word, rest)) => (word, Some(rest)),
        None => (text, None),
    }
}

/// Whether a text has this word before the first that begins with `%%`, or has no word that begins so.
fn declares(text: &str, name: &str) -> bool
    ensures { result ≡ declares name.now (cut is_white_space (piece 0 text.now)) }
{
    let mut left = Some(text);
    while let Some(rest) = left {
        let (word, more) = next_word(rest);
        if word.starts_with("%%") {
            return false;
        }
        if word == name {
            return true;
        }
        left = more;
    }
    true
}

/// Whether a start state with this name is declared. Each counts as declared where the declarations don't end within the first
/// 2,048 bytes, so that no more than these are read.
fn is_declared(rules: &str, name: &str) -> bool
    ensures { result ≡ is_declared rules.now name.now }
{
    name == "INITIAL" || declares(first_bytes(rules, 2048), name)
}

/// The first name of a list of start states, and what follows the comma after it, if there is one.
fn next_listed(names: &str) -> (&str, Option<&str>)
    ensures names { listed_names names.now ≡ result.0.now ∷ names_left (option_copied result.1) }
    ensures shorter { IfSome (option_copied result.1) (λ rest. length rest < length names.now) }
{
    match names.split_once(',') {
        Some((name, rest)) => (name, Some(rest)),
        None => (names, None),
    }
}

/// The first name of a list that isn't declared. Empty where there is none.
fn undeclared<'t>(rules: &str, names: &'t str) -> &'t str
    ensures { result.now ≡ undeclared rules.now (listed_names names.now) }
{
    let mut left = Some(names);
    while let Some(rest) = left {
        let (first, more) = next_listed(rest);
        let name = trim_text(first);
        if !is_declared(rules, name) {
            return name;
        }
        left = more;
    }
    ""
}

/// The text before its first `>`. Empty without one.
fn before_angle(line: &str) -> &str
    ensures { result.now ≡ before_angle line.now }
{
    match line.split_once('>') {
        Some((front, _)) => front,
        None => "",
    }
}

/// What follows `<`. Empty where another character begins the text.
fn after_less(text: &str) -> &str
    ensures { result.now ≡ after_less text.now }
{
    match text.strip_prefix('<') {
        Some(rest) => rest,
        None => "",
    }
}

/// Whether a list has 2 to 8 names.
fn has_few(names: &str) -> bool
    ensures { result ≡ has_few names.now }
{
    let commas = names.as_bytes().iter().filter(|b| **b == b',').count();
    1 <= commas && commas <= 7
}

/// The list of start states that begins a line, if it has 2 to 8 names.
fn names_in(line: &str) -> &str
    ensures { result.now ≡ names_in line.now }
{
    let names = after_less(before_angle(line));
    if begins_list(line) && has_few(names) {
        names
    } else {
        ""
    }
}

/// The first name that isn't declared of the list of 2 to 8 names that begins the line at this place. Empty where there is none, and
/// where the declarations don't end within the first 2,048 bytes: no more of them is read, once for each name.
pub(crate) fn unknown_name(rules: &str, at: usize) -> &str
    ensures { result.now ≡ unknown_name rules.now at }
{
    let names = names_in(first_line(text_from(rules, at)));
    if names.is_empty() {
        names
    } else {
        undeclared(rules, names)
    }
}
