//! The kinds of warnings, and what is said of each.
ghost use Rattle.std.specs.Prelude.{◌≡◌, ◌++◌, ℕ, List, All, OnOk, find, map};
ghost use Rattle.lrlex_base.specs.Spans.{Fits, as_span};
ghost use Rattle.lrlex_report.specs.WarningTexts.{is_named, warning_kinds, warning_message, warning_name};
ghost use Rattle.lrlex_report.specs.Warnings.{as_told, SpanFits, when, those_that_hold};

use lrlex_base::Span;
use std::alloc::AllocError;

/// What a rule text says that its author hardly meant. None of these is a fault: the text has a definition.
#[derive(Clone, Copy, PartialEq, Eq, Debug)]
pub enum WarningKind {
    /// A rule that is active in some start state and that wins no text, by `may_win` of the definition.
    NeverWins,
    /// A rule that is active in no start state. No rule that was read from a text is so.
    NeverActive,
    /// A rule without a table, so that `regex` matches it at each place: its pattern has `$`, `\b`, `\B`, `\z`, `\<`, `\>` or a
    /// `^` within it, which look at what is beside the match.
    LooksAround,
    /// A rule without a table, so that `regex` matches it at each place: its table would be too large, or leave no room for those
    /// of other rules.
    NoTable,
    /// A rule whose pattern ends in `<T>`, `<+T>` or `<-T>` of a start state T.
    TargetInPattern,
    /// A rule with a list of start states whose pattern begins with a blank. It isn't told where `ignore_whitespace` is set, and the
    /// blank does nothing.
    BlankAfterStates,
    /// A rule without a list whose pattern has a backslash before a letter that begins no escape.
    LostEscape,
    /// A rule with a list whose pattern has `\<` or `\>`.
    EscapeAfterStates,
    /// A rule whose pattern has an alternative that begins with an earlier one, as `a|ab`, so that it never matches. The pattern has
    /// no groups, but perhaps one around all of it, without a name; no escape of a digit outside classes of characters, as `\1`; and
    /// at most 4,096 bytes. It isn't told where `*`, `?` or `{` follows that beginning, as in `a|a?b`, nor where the first alternative
    /// is empty, since then none matches a byte.
    LostAlternative,
    /// A rule without a name whose pattern ends in a blank and a text in quotes, as in `a 'A' ;`.
    NameInPattern,
    /// A rule whose pattern is a text in quotes, `"` or `'`, as flex has it. The quotes are part of the pattern. It isn't told where
    /// a quote, a backslash, `.` or `[` is between them.
    QuotedPattern,
    /// A rule whose pattern is `|`, `^` and `$` alone.
    BareOperator,
    /// A rule whose pattern begins with `^`, which does nothing there, and goes on.
    LostCaret,
    /// A rule whose pattern has `.*` or `.+`, outside classes of characters and without a `?` behind it, where the dot matches a
    /// newline too. It isn't told where `swap_greed` is set, nor where the pattern begins with `(?`, but for `(?:`.
    GreedyDot,
    /// A rule whose pattern has an operator within a class of characters: a `[` that begins another class, but none with a name, as
    /// `[:alpha:]`, or `--`, `&&` or `~~`. A `-` at the front of a class and what ends a range are characters. An operation
    /// whose right side is a class, as `[a-z&&[^b]]`, is meant, and isn't told.
    ClassOperator,
    /// A rule whose pattern has `[:`, letters and `:]`, perhaps with `^` before the letters, where this is no class with a name to
    /// `regex`, but a set of its characters: outside a class, as `[:alpha:]` alone, or with a name that `regex` doesn't know, as
    /// `[[:alpah:]]`.
    UnknownClass,
    /// A start state other than `INITIAL` that no rule enters.
    NeverEntered,
    /// A start state that no rule is active in.
    NoRules,
}

/// All kinds.
static KINDS: [WarningKind; 18] = [
    WarningKind::NeverWins,
    WarningKind::NeverActive,
    WarningKind::LooksAround,
    WarningKind::NoTable,
    WarningKind::TargetInPattern,
    WarningKind::BlankAfterStates,
    WarningKind::LostEscape,
    WarningKind::EscapeAfterStates,
    WarningKind::LostAlternative,
    WarningKind::NameInPattern,
    WarningKind::QuotedPattern,
    WarningKind::BareOperator,
    WarningKind::LostCaret,
    WarningKind::GreedyDot,
    WarningKind::ClassOperator,
    WarningKind::UnknownClass,
    WarningKind::NeverEntered,
    WarningKind::NoRules,
];

/// A warning: its kind, and the bytes of the rule text that it is about.
#[derive(Clone, Copy, PartialEq, Eq, Debug)]
pub struct Warning {
    pub(crate) kind: WarningKind,
    pub(crate) span: Span,
}

impl WarningKind {
    /// Its name, as `NeverWins`, which `warnings_text` shows behind the message.
    pub fn name(self) -> &'static str
        ensures { result.now ≡ warning_name self }
    {
        match self {
            WarningKind::NeverWins => "NeverWins",
            WarningKind::NeverActive => "NeverActive",
            WarningKind::LooksAround => "LooksAround",
            WarningKind::NoTable => "NoTable",
            WarningKind::TargetInPattern => "TargetInPattern",
            WarningKind::BlankAfterStates => "BlankAfterStates",
            WarningKind::LostEscape => "LostEscape",
            WarningKind::EscapeAfterStates => "EscapeAfterStates",
            WarningKind::LostAlternative => "LostAlternative",
            WarningKind::NameInPattern => "NameInPattern",
            WarningKind::QuotedPattern => "QuotedPattern",
            WarningKind::BareOperator => "BareOperator",
            WarningKind::LostCaret => "LostCaret",
            WarningKind::GreedyDot => "GreedyDot",
            WarningKind::ClassOperator => "ClassOperator",
            WarningKind::UnknownClass => "UnknownClass",
            WarningKind::NeverEntered => "NeverEntered",
            WarningKind::NoRules => "NoRules",
        }
    }

    /// The kind with this name, if there is one.
    pub fn named(name: &str) -> Option<WarningKind>
        ensures { result ≡ find (is_named name.now) warning_kinds }
    {
        KINDS.iter().copied().find(|kind| kind.name() == name)
    }

    /// What is unusual, why, and what to write in its place, in English, without a full stop.
    pub fn message(self) -> &'static str
        ensures { result.now ≡ warning_message self }
    {
        match self {
            WarningKind::NeverWins => {
                "this rule never wins: it matches no byte, or other rules match as much or more; put it before them, or make them match less"
            }
            WarningKind::NeverActive => {
                "this rule is active in no start state; list one that is declared"
            }
            WarningKind::LooksAround => {
                "this rule has no table, and is slower: $, \\b, \\B, \\z, \\<, \\> and a ^ within it look at what is beside the match; leave them out, or write a backslash before $ and ^ for the characters"
            }
            WarningKind::NoTable => {
                "this rule has no table, and is slower: its table, or all tables together, would be too large; repeat fewer times, split the pattern, or have fewer rules"
            }
            WarningKind::TargetInPattern => {
                "this target is part of the pattern; write no blank between the target and the name"
            }
            WarningKind::BlankAfterStates => {
                "the blank after these start states is part of the pattern; leave it out, or write [ ]"
            }
            WarningKind::LostEscape => {
                "a backslash is dropped here, before a letter that begins no escape; write the letter, or \\x41 in place of \\x{41}"
            }
            WarningKind::EscapeAfterStates => {
                "after start states \\< and \\> are the beginning and the end of a word; write < and > without the backslash"
            }
            WarningKind::LostAlternative => {
                "an alternative never matches here: it begins with an earlier one, which is tried first; put the longer one first"
            }
            WarningKind::NameInPattern => {
                "this name is part of the pattern, since the last blank of a line is before its name; write nothing after the name"
            }
            WarningKind::QuotedPattern => {
                "the quotes are part of this pattern; leave them out, and write operators with a backslash, as \\+"
            }
            WarningKind::BareOperator => {
                "this pattern is an operator, and matches no byte; write a backslash before it to match its character"
            }
            WarningKind::LostCaret => {
                "a ^ at the beginning does nothing, since a match may begin anywhere in a line; leave it out, or write \\^ for the character"
            }
            WarningKind::GreedyDot => {
                "a . matches a newline too, so .* and .+ take all lines that follow; write [^\\n] in place of the dot, or .*? before what ends it"
            }
            WarningKind::ClassOperator => {
                "this class has an operator: [ begins another class, and --, && and ~~ are operations on sets; write a backslash before the character, as \\[ or \\-"
            }
            WarningKind::UnknownClass => {
                "this [:name:] is no class with a name, but a set of its characters; write it within a class, as [[:alpha:]], and one of alnum, alpha, ascii, blank, cntrl, digit, graph, lower, print, punct, space, upper, word or xdigit"
            }
            WarningKind::NeverEntered => {
                "no rule enters this start state; name it as the target of a rule"
            }
            WarningKind::NoRules => {
                "no rule is active in this start state, so lexing stops there; list it before a pattern"
            }
        }
    }
}

impl Warning {
    /// What kind of warning it is.
    pub fn kind(&self) -> WarningKind
        ensures { result ≡ (as_told self.now).0 }
    {
        self.kind
    }

    /// The bytes that it is about: a rule's pattern with its list of start states, or a start state's name.
    pub fn span(&self) -> Span
        ensures { as_span result ≡ (as_told self.now).1 }
    {
        self.span
    }
}

/// Adds a warning where it holds.
fn push_when(
    told: &mut Vec<Warning>,
    holds: bool,
    kind: WarningKind,
    span: Span,
) -> Result<(), AllocError>
    ensures told { OnOk result (map as_told told.new.items
        ≡ map as_told told.old.items ++ when holds kind (as_span span)) }
    ensures fit { (text : List ℕ) → Fits text span → All (SpanFits text) told.old.items
        → OnOk result (All (SpanFits text) told.new.items) }
{
    if holds {
        told.push(Warning { kind, span })?;
    }
    Ok(())
}

/// Adds the warnings of these tests that hold, all at one place.
pub(crate) fn push_all(
    told: &mut Vec<Warning>,
    tests: &[(WarningKind, bool)],
    span: Span,
) -> Result<(), AllocError>
    ensures told { OnOk result (map as_told told.new.items
        ≡ map as_told told.old.items ++ those_that_hold (as_span span) tests.now) }
    ensures fit { (text : List ℕ) → Fits text span → All (SpanFits text) told.old.items
        → OnOk result (All (SpanFits text) told.new.items) }
{
    'tests: for test in tests {
        push_when(told, test.1, test.0, span)?;
    }
    Ok(())
}
