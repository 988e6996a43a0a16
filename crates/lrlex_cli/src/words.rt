//! The words of the command line, and what they ask for.
ghost use Rattle.std.specs.Prelude.{◌≡◌, ℕ, Option, IfOk, IfErr, codes, map, option_map};
ghost use Rattle.clap.specs.Words.{first_of, found_of, rows_of};
ghost use Rattle.lrlex_cli.specs.declared.words.WordsFault.TheVariants.{Memory};
ghost use Rattle.lrlex_cli.specs.Command.{given};
ghost use Rattle.lrlex_cli.specs.Words.{CanBeRead, IsLimit, IsNumber, IsReadFrom, ReadsEdit, ReadsFlags, truth_in};

use crate::command::lrlex_command;
use crate::messages::{OUT_OF_MEMORY, USAGE};
use clap::ArgMatches;
use clap::error::ErrorKind;
use lrlex_rules::LexFlags;
use std::alloc::{AllocError, Global};
use std::error::Error;
use std::fmt;

/// What the words of the command line ask for.
#[derive(Debug, Drop)]
pub struct Words {
    /// The path of the rule file; `-` for standard input.
    pub rules: String,
    /// The path of the input; `-` for standard input.
    pub input: String,
    pub flags: LexFlags,
    /// An edit of the input: the text replaces the bytes from the first number up to the second.
    pub edit: Option<(usize, usize, String)>,
}

/// Why the words can't be read.
#[derive(Clone, Copy, Debug, PartialEq, Eq)]
pub enum WordsFault {
    /// Out of memory.
    Memory,
    /// The words aren't those of a call of the program.
    Refused,
}

impl fmt::Display for WordsFault {
    ghost use Rattle.std.specs.Prelude.{Some};
    ghost use Rattle.lrlex_cli.specs.Words.{words_fault_text};

    ghost output = { λ e. Some (words_fault_text e) };

    fn fmt<W: fmt::Write>(&self, f: &mut fmt::Formatter<W>) -> fmt::Result {
        f.write_str(match self {
            WordsFault::Memory => OUT_OF_MEMORY,
            WordsFault::Refused => USAGE,
        })
    }
}

impl Error for WordsFault {}

impl From<AllocError> for WordsFault {
    ghost from_gives = { λ _ e. e ≡ Memory };

    fn from(_fault: AllocError) -> WordsFault {
        WordsFault::Memory
    }
}

/// The first value of an option or a path.
fn value<'a>(matches: &ArgMatches<'a>, name: &str) -> Option<&'a str>
    ensures { option_map (λ s. s.now) result ≡ first_of name.now (rows_of (found_of matches.now)) }
{
    matches.get_str(name)
}

/// The truth value of an option.
fn truth(matches: &ArgMatches<'_>, name: &str) -> Option<bool>
    ensures { result ≡ truth_in (first_of name.now (rows_of (found_of matches.now))) }
{
    match value(matches, name) {
        Some(text) => Some(text == "true"),
        None => None,
    }
}

/// The number of an option, as a `usize`; refused if the value is no such number.
fn number(matches: &ArgMatches<'_>, name: &str) -> Result<Option<usize>, WordsFault>
    ensures value { IfOk result (IsNumber 64 (rows_of (found_of matches.now)) name.now) }
    ensures refused { IfErr result (λ _. (n : Option ℕ)
        → ¬ (IsNumber 64 (rows_of (found_of matches.now)) name.now n)) }
{
    matches.try_get_one(name).map_err(|_| WordsFault::Refused)
}

/// The number of an option, as a `u32`; refused if the value is no such number.
fn small_number(matches: &ArgMatches<'_>, name: &str) -> Result<Option<u32>, WordsFault>
    ensures value { IfOk result (IsNumber 32 (rows_of (found_of matches.now)) name.now) }
    ensures refused { IfErr result (λ _. (n : Option ℕ)
        → ¬ (IsNumber 32 (rows_of (found_of matches.now)) name.now n)) }
{
    matches.try_get_one(name).map_err(|_| WordsFault::Refused)
}

/// The number of an option, as a `usize`; `None` if the value is no such number.
fn limit(matches: &ArgMatches<'_>, name: &str) -> Option<usize>
    ensures { IsLimit 64 (rows_of (found_of matches.now)) name.now result }
{
    match number(matches, name) {
        Ok(limit) => limit,
        Err(_) => None,
    }
}

/// The number of an option, as a `u32`; `None` if the value is no such number.
fn small_limit(matches: &ArgMatches<'_>, name: &str) -> Option<u32>
    ensures { IsLimit 32 (rows_of (found_of matches.now)) name.now result }
{
    match small_number(matches, name) {
        Ok(limit) => limit,
        Err(_) => None,
    }
}

/// The flags that the options set.
fn flags_of(matches: &ArgMatches<'_>) -> LexFlags
    ensures { ReadsFlags (rows_of (found_of matches.now)) result }
{
    LexFlags {
        dot_matches_new_line: truth(matches, "dot-matches-new-line"),
        multi_line: truth(matches, "multi-line"),
        octal: truth(matches, "octal"),
        posix_escapes: truth(matches, "posix-escapes"),
        allow_wholeline_comments: truth(matches, "allow-wholeline-comments"),
        case_insensitive: truth(matches, "case-insensitive"),
        swap_greed: truth(matches, "swap-greed"),
        ignore_whitespace: truth(matches, "ignore-whitespace"),
        unicode: truth(matches, "unicode"),
        size_limit: limit(matches, "size-limit"),
        dfa_size_limit: limit(matches, "dfa-size-limit"),
        nest_limit: small_limit(matches, "nest-limit"),
    }
}

/// The edit that the options `from`, `to` and `put` ask for. All three are required, or none.
fn edit_of(
    alloc: Global,
    matches: &ArgMatches<'_>,
) -> Result<Option<(usize, usize, String)>, WordsFault>
    ensures value { IfOk result (ReadsEdit (rows_of (found_of matches.now))) }
    ensures refused { IfErr result (λ e. (w : Words)
        → ReadsEdit (rows_of (found_of matches.now)) w.edit → e ≡ Memory) }
{
    let from = number(matches, "from")?;
    let to = number(matches, "to")?;
    let put = value(matches, "put");
    match (from, to, put) {
        (None, None, None) => Ok(None),
        (Some(from), Some(to), Some(put)) => Ok(Some((from, to, String::from_str(alloc, put)?))),
        _ => Err(WordsFault::Refused),
    }
}

/// What the matches ask for. Both paths are required, and all options of an edit or none.
fn words_of(alloc: Global, matches: &ArgMatches<'_>) -> Result<Words, WordsFault>
    ensures value { IfOk result (IsReadFrom (rows_of (found_of matches.now))) }
    ensures refused { IfErr result (λ e. (w : Words) → IsReadFrom (rows_of (found_of matches.now)) w
        → e ≡ Memory) }
{
    let Some(rules) = value(matches, "rules") else {
        return Err(WordsFault::Refused);
    };
    let Some(input) = value(matches, "input") else {
        return Err(WordsFault::Refused);
    };
    Ok(Words {
        rules: String::from_str(alloc, rules)?,
        input: String::from_str(alloc, input)?,
        flags: flags_of(matches),
        edit: edit_of(alloc, matches)?,
    })
}

/// Reads the words of the command line; the first is the program's own name.
pub fn read(alloc: Global, words: &[&str]) -> Result<Words, WordsFault>
    ensures value { IfOk result (IsReadFrom (given (map (λ w. w.now) words.now))) }
    ensures refused { IfErr result (λ e. CanBeRead (map (λ w. w.now) words.now) → e ≡ Memory) }
{
    let matches = match lrlex_command(alloc)?.try_get_matches_from(words) {
        Ok(matches) => matches,
        Err(error) if error.kind() == ErrorKind::OutOfMemory => return Err(WordsFault::Memory),
        Err(_) => return Err(WordsFault::Refused),
    };
    words_of(alloc, &matches)
}
