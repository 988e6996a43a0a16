//! The words of the command line.
use crate::adding::{Kind, Made, Word, with_command, with_words};
use crate::allowed::ALLOW;
use crate::flags::with_flags;
use crate::mapped::MAP;
use clap::Command;
use std::alloc::Global;

/// The words of `check`.
static CHECK: [Word; 3] = [
    (
        "json",
        Kind::Switch,
        "Prints each finding as a line of JSON",
    ),
    (
        "deny-warnings",
        Kind::Switch,
        "Makes the status 1 where a file has a warning",
    ),
    ("rules", Kind::Rest("RULES"), "The rule files"),
];

/// The words of `tokens`.
static TOKENS: [Word; 3] = [
    ("json", Kind::Switch, "Prints each token as a line of JSON"),
    ("rules", Kind::Needed("RULES"), "The rule file"),
    ("input", Kind::Needed("INPUT"), "The text to lex"),
];

/// The words of `highlight`.
static HIGHLIGHT: [Word; 3] = [
    (
        "html",
        Kind::Switch,
        "Writes a page of HTML, and no text for a terminal",
    ),
    ("rules", Kind::Needed("RULES"), "The rule file"),
    ("input", Kind::Needed("INPUT"), "The text to show"),
];

/// The words of `explain`.
static EXPLAIN: [Word; 3] = [
    ("rules", Kind::Needed("RULES"), "The rule file"),
    ("input", Kind::Needed("INPUT"), "The text to lex"),
    (
        "place",
        Kind::Needed("PLACE"),
        "A place of the text: LINE:COLUMN, or a byte from 0, as tokens prints them",
    ),
];

/// The words of `lsp`.
static LSP: [Word; 2] = [
    (
        "rules",
        Kind::Value("FILE"),
        "The rule file that all texts but rule files are lexed by",
    ),
    (
        "stdio",
        Kind::Switch,
        "Has no effect: clients give it to servers of this kind",
    ),
];

/// What shows the faults of rule files.
fn check<'a>(alloc: Global) -> Made<'a> {
    let command = Command::new(alloc, "check")
        .about("Shows what is wrong with rule files")
        .after_help(
            "Each fault is shown with its place, its line and carets. The status is 1 where a file has one. A file without faults may \
            have warnings.",
        );
    let command = with_words(alloc, Ok(command), &CHECK);
    with_flags(alloc, with_words(alloc, command, &ALLOW))
}

/// What prints tokens.
fn tokens<'a>(alloc: Global) -> Made<'a> {
    let command = Command::new(alloc, "tokens")
        .about("Prints the tokens of a text, one on a line")
        .after_help(
            "A line is LINE:COLUMN START..END NAME TEXT. Line and column count characters from 1, START and END bytes from 0. \
            TEXT is in quotes, with the escapes of JSON. Where lexing stops, or the text ends within a start state, standard error \
            says so.",
        );
    with_flags(alloc, with_words(alloc, Ok(command), &TOKENS))
}

/// What colours a text.
fn highlight<'a>(alloc: Global) -> Made<'a> {
    let command = Command::new(alloc, "highlight")
        .about("Shows a text in colours, by the pieces into which the rules cut it")
        .after_help(
            "What no --map names is guessed by the rule's name and by the text, as a rule IF that matches if is a keyword.",
        );
    let command = with_words(alloc, Ok(command), &HIGHLIGHT);
    with_flags(alloc, with_words(alloc, command, &MAP))
}

/// What says why a token is what it is.
fn explain<'a>(alloc: Global) -> Made<'a> {
    let command = Command::new(alloc, "explain")
        .about("Says which rule wins at a place of a text, and why")
        .after_help(
            "It shows the piece at this place, the start states on the stack, each rule that is active there, and how many bytes \
            it matches.",
        );
    with_flags(alloc, with_words(alloc, Ok(command), &EXPLAIN))
}

/// What serves an editor.
fn lsp<'a>(alloc: Global) -> Made<'a> {
    let command = Command::new(alloc, "lsp")
        .about("Serves an editor by the Language Server Protocol, over standard input and output")
        .after_help(
            "It shows the faults of rule files while they are typed. With --rules it also colours other texts, and shows where \
            lexing them stops. The status is 1 where the client goes without shutting it down.",
        );
    let command = with_words(alloc, Ok(command), &LSP);
    let command = with_words(alloc, command, &MAP);
    with_flags(alloc, with_words(alloc, command, &ALLOW))
}

/// The command, which takes the name of a command and then its words.
pub fn command<'a>(alloc: Global) -> Made<'a> {
    let command = Command::new(alloc, "rolgumzai")
        .about("Checks rule files, and shows how texts are lexed by them.")
        .version("0.1.0")
        .after_help(
            "A file named - is standard input. The status is 0 where all is well, 1 where a rule file has a fault, or a warning under \
            --deny-warnings, or lexing stops, and 2 where the words are refused or a file can't be read.",
        )
        .subcommand_required(true)
        .arg_required_else_help(true);
    let command = with_command(Ok(command), check(alloc));
    let command = with_command(command, tokens(alloc));
    let command = with_command(command, highlight(alloc));
    let command = with_command(command, explain(alloc));
    with_command(command, lsp(alloc))
}
