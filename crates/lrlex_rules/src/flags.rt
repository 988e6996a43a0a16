ghost use Rattle.std.specs.Prelude.{◌≡◌};
ghost use Rattle.lrlex_rules.specs.Flags.{allows_comments, has_posix_escapes, resolved};

use regex_syntax::{Config, Flags};

/// The settings of a rule file. What is unset is as in `DEFAULT_LEX_FLAGS`, or as `regex` has it.
#[derive(Clone, Copy, PartialEq, Eq, Debug)]
pub struct LexFlags {
    /// Whether `.` matches U+000A. True unless set to false.
    pub dot_matches_new_line: Option<bool>,
    /// Whether `^` and `$` match at the ends of lines. True unless set to false.
    pub multi_line: Option<bool>,
    /// Whether `\052` is an octal escape. True unless set to false.
    pub octal: Option<bool>,
    /// Whether `\b` is the backspace, as in POSIX lex, rather than a word boundary.
    pub posix_escapes: Option<bool>,
    /// Whether a line that begins with `//` is a comment.
    pub allow_wholeline_comments: Option<bool>,
    /// Whether letters match in either case.
    pub case_insensitive: Option<bool>,
    /// Whether `a*` is lazy and `a*?` greedy.
    pub swap_greed: Option<bool>,
    /// Whether white space in a pattern is ignored.
    pub ignore_whitespace: Option<bool>,
    /// Whether classes and case folding are Unicode's. True unless set to false.
    pub unicode: Option<bool>,
    /// About how many bytes a compiled pattern may take; 10 MiB unless set.
    pub size_limit: Option<usize>,
    /// Kept but not used: `regex` has no such limit here.
    pub dfa_size_limit: Option<usize>,
    /// How deep a pattern may nest; 250 unless set, and at most 1,000. `regex` takes about 1 KB of stack for each level.
    pub nest_limit: Option<u32>,
}

/// Flags with nothing set.
pub const UNSPECIFIED_LEX_FLAGS: LexFlags = LexFlags {
    dot_matches_new_line: None,
    multi_line: None,
    octal: None,
    posix_escapes: None,
    allow_wholeline_comments: None,
    case_insensitive: None,
    swap_greed: None,
    ignore_whitespace: None,
    unicode: None,
    size_limit: None,
    dfa_size_limit: None,
    nest_limit: None,
};

/// The flags that lrlex has a default for, set to it.
pub const DEFAULT_LEX_FLAGS: LexFlags = LexFlags {
    dot_matches_new_line: Some(true),
    multi_line: Some(true),
    octal: Some(true),
    posix_escapes: Some(false),
    allow_wholeline_comments: Some(false),
    case_insensitive: None,
    swap_greed: None,
    ignore_whitespace: None,
    unicode: None,
    size_limit: None,
    dfa_size_limit: None,
    nest_limit: None,
};

/// The most levels that a pattern may nest, whatever the flags say: `regex` takes about 1 KB of stack for each.
const MOST_NESTED: u32 = 1_000;

impl LexFlags {
    ghost use Rattle.lrlex_rules.specs.Flags.{config_of, nest_limit_of};

    /// How deep a pattern may nest.
    fn nesting(&self) -> u32
        ensures { result ≡ nest_limit_of self.now }
    {
        self.nest_limit.unwrap_or(250).min(MOST_NESTED)
    }

    /// The options of `regex` for these flags.
    pub(crate) fn config(&self) -> Config
        ensures { result ≡ config_of self.now }
    {
        Config {
            flags: Flags {
                case_insensitive: self.case_insensitive.unwrap_or(false),
                multi_line: self.multi_line.unwrap_or(true),
                dot_matches_new_line: self.dot_matches_new_line.unwrap_or(true),
                swap_greed: self.swap_greed.unwrap_or(false),
                unicode: self.unicode.unwrap_or(true),
                crlf: false,
                ignore_whitespace: self.ignore_whitespace.unwrap_or(false),
            },
            octal: self.octal.unwrap_or(true),
            utf8: true,
            nest_limit: self.nesting(),
        }
    }
}

/// Whether escapes are POSIX lex's.
pub fn has_posix_escapes(flags: &LexFlags) -> bool
    ensures { result ≡ has_posix_escapes flags.now }
{
    flags.posix_escapes.unwrap_or(false)
}

/// Whether a line may be a comment.
pub fn allows_comments(flags: &LexFlags) -> bool
    ensures { result ≡ allows_comments flags.now }
{
    flags.allow_wholeline_comments.unwrap_or(false)
}

/// The flags as they are used: each unset one that has a default is set to it, and a nest limit that is set is at most 1,000.
pub fn resolved(flags: &LexFlags) -> LexFlags
    ensures { result ≡ resolved flags.now }
{
    let config = flags.config();
    LexFlags {
        dot_matches_new_line: Some(config.flags.dot_matches_new_line),
        multi_line: Some(config.flags.multi_line),
        octal: Some(config.octal),
        posix_escapes: Some(has_posix_escapes(flags)),
        allow_wholeline_comments: Some(allows_comments(flags)),
        nest_limit: flags.nest_limit.map(|limit| limit.min(MOST_NESTED)),
        ..*flags
    }
}
