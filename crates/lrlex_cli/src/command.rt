//! The command of the program, as `clap` has it.
ghost use Rattle.std.specs.Prelude.{◌≡◌, IfOk};
ghost use Rattle.clap.specs.Words.{App, app_of, with_rule};
ghost use Rattle.lrlex_cli.specs.Command.{command, option_rule, path_rule, with_truths, with_numbers, with_edit};

use clap::builder::ValueParserFactory;
use clap::{Arg, ArgAction, Command, value_parser};
use std::alloc::{AllocError, Global};

/// A command that is made step by step, or that memory ran out. So a chain of steps needs no `?`.
type Made<'a> = Result<Command<'a>, AllocError>;

/// Adds an option `--NAME` of one value of a type.
fn with_option<'a, T: ValueParserFactory>(
    alloc: Global,
    command: Made<'a>,
    name: &'a str,
) -> Made<'a>
    ensures { (a : App) → IfOk command.entry (λ c. app_of c ≡ a) →
        IfOk result (λ c. app_of c ≡ with_rule a (option_rule T.parser name.entry.now)) }
{
    let command = command?;
    let arg = Arg::new(alloc, name)
        .long(name)
        .action(ArgAction::Set)
        .value_parser(value_parser!(T));
    command.arg(arg)
}

/// Adds a path, which is required.
fn with_path<'a>(alloc: Global, command: Made<'a>, name: &'a str) -> Made<'a>
    ensures { (a : App) → IfOk command.entry (λ c. app_of c ≡ a) →
        IfOk result (λ c. app_of c ≡ with_rule a (path_rule name.entry.now)) }
{
    let command = command?;
    let arg = Arg::new(alloc, name).required(true).action(ArgAction::Set);
    command.arg(arg)
}

/// Adds the nine options of one truth value.
fn with_truths<'a>(alloc: Global, command: Made<'a>) -> Made<'a>
    ensures { (a : App) → IfOk command.entry (λ c. app_of c ≡ a) →
        IfOk result (λ c. app_of c ≡ with_truths a) }
{
    let command = with_option::<bool>(alloc, command, "dot-matches-new-line");
    let command = with_option::<bool>(alloc, command, "multi-line");
    let command = with_option::<bool>(alloc, command, "octal");
    let command = with_option::<bool>(alloc, command, "posix-escapes");
    let command = with_option::<bool>(alloc, command, "allow-wholeline-comments");
    let command = with_option::<bool>(alloc, command, "case-insensitive");
    let command = with_option::<bool>(alloc, command, "swap-greed");
    let command = with_option::<bool>(alloc, command, "ignore-whitespace");
    with_option::<bool>(alloc, command, "unicode")
}

/// Adds the three limits.
fn with_numbers<'a>(alloc: Global, command: Made<'a>) -> Made<'a>
    ensures { (a : App) → IfOk command.entry (λ c. app_of c ≡ a) →
        IfOk result (λ c. app_of c ≡ with_numbers a) }
{
    let command = with_option::<usize>(alloc, command, "size-limit");
    let command = with_option::<usize>(alloc, command, "dfa-size-limit");
    with_option::<u32>(alloc, command, "nest-limit")
}

/// Adds the three options of an edit.
fn with_edit<'a>(alloc: Global, command: Made<'a>) -> Made<'a>
    ensures { (a : App) → IfOk command.entry (λ c. app_of c ≡ a) →
        IfOk result (λ c. app_of c ≡ with_edit a) }
{
    let command = with_option::<usize>(alloc, command, "from");
    let command = with_option::<usize>(alloc, command, "to");
    with_option::<String>(alloc, command, "put")
}

/// The command of the program: its twelve flags, its edit and its two paths.
pub(crate) fn lrlex_command<'a>(alloc: Global) -> Made<'a>
    ensures { IfOk result (λ c. app_of c ≡ command) }
{
    let command = with_truths(alloc, Ok(Command::new(alloc, "lrlex")));
    let command = with_numbers(alloc, command);
    let command = with_edit(alloc, command);
    let command = with_path(alloc, command, "rules");
    with_path(alloc, command, "input")
}
