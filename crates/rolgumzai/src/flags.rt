//! The flags of a lexer, as words: those that `lrlex` takes.
use crate::adding::Made;
use clap::{Arg, ArgMatches, Command, value_parser};
use lrlex::LexFlags;
use std::alloc::Global;

/// An option, and what it does.
struct Flag {
    name: &'static str,
    help: &'static str,
}

/// The options of one truth value.
static TRUTHS: [Flag; 9] = [
    Flag {
        name: "dot-matches-new-line",
        help: "Whether . matches a newline too; true if left out",
    },
    Flag {
        name: "multi-line",
        help: "Whether ^ and $ match at the ends of lines; true if left out",
    },
    Flag {
        name: "octal",
        help: "Whether \\052 is an octal escape; true if left out",
    },
    Flag {
        name: "posix-escapes",
        help: "Whether \\b is the backspace, and no word boundary; false if left out",
    },
    Flag {
        name: "allow-wholeline-comments",
        help: "Whether a line of the rule file that begins with // is a comment; false if left out",
    },
    Flag {
        name: "case-insensitive",
        help: "Whether letters match in either case; false if left out",
    },
    Flag {
        name: "swap-greed",
        help: "Whether a* is lazy and a*? greedy; false if left out",
    },
    Flag {
        name: "ignore-whitespace",
        help: "Whether white space in a pattern is ignored; false if left out",
    },
    Flag {
        name: "unicode",
        help: "Whether classes and case folding are those of Unicode; true if left out",
    },
];

/// The options of a number of bytes.
static SIZES: [Flag; 2] = [
    Flag {
        name: "size-limit",
        help: "About how much memory a compiled pattern may take; 10485760 if left out",
    },
    Flag {
        name: "dfa-size-limit",
        help: "Has no effect",
    },
];

/// The option of a number of levels.
static LEVELS: Flag = Flag {
    name: "nest-limit",
    help: "How deep a pattern may nest, at most 1000; 250 if left out",
};

/// An option of one value.
fn option<'a>(alloc: Global, flag: &'a Flag, shown: &'a str) -> Arg<'a> {
    Arg::new(alloc, flag.name)
        .long(flag.name)
        .value_name(shown)
        .help(flag.help)
        .help_heading("Flags of the lexer")
}

/// Adds the options of one truth value.
fn with_truths(alloc: Global, mut command: Command<'_>) -> Made<'_> {
    for flag in &TRUTHS {
        let truth = option(alloc, flag, "BOOL").value_parser(value_parser!(bool));
        command = command.arg(truth)?;
    }
    Ok(command)
}

/// Adds the options of a number.
fn with_limits(alloc: Global, mut command: Command<'_>) -> Made<'_> {
    for flag in &SIZES {
        let size = option(alloc, flag, "BYTES").value_parser(value_parser!(usize));
        command = command.arg(size)?;
    }
    let levels = option(alloc, &LEVELS, "LEVELS").value_parser(value_parser!(u32));
    command.arg(levels)
}

/// Adds the options of all flags.
pub fn with_flags(alloc: Global, command: Made<'_>) -> Made<'_> {
    with_limits(alloc, with_truths(alloc, command?)?)
}

/// The truth value of an option.
fn truth(words: &ArgMatches<'_>, name: &str) -> Option<bool> {
    match words.get_str(name) {
        Some(text) => Some(text == "true"),
        None => None,
    }
}

/// The flags that the words set.
pub fn flags_of(words: &ArgMatches<'_>) -> LexFlags {
    LexFlags {
        dot_matches_new_line: truth(words, "dot-matches-new-line"),
        multi_line: truth(words, "multi-line"),
        octal: truth(words, "octal"),
        posix_escapes: truth(words, "posix-escapes"),
        allow_wholeline_comments: truth(words, "allow-wholeline-comments"),
        case_insensitive: truth(words, "case-insensitive"),
        swap_greed: truth(words, "swap-greed"),
        ignore_whitespace: truth(words, "ignore-whitespace"),
        unicode: truth(words, "unicode"),
        size_limit: words.get_one("size-limit"),
        dfa_size_limit: words.get_one("dfa-size-limit"),
        nest_limit: words.get_one("nest-limit"),
    }
}
