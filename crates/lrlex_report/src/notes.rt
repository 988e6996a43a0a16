//! What the message of a fault ends with: the mistake that it usually comes of, and what to write.
ghost use Rattle.std.specs.Prelude.{◌≡◌, slice_index};
ghost use Rattle.std.specs.List.{list_any};
ghost use Rattle.lrlex_base.specs.Classes.{is_blank};
ghost use Rattle.lrlex_parser.specs.Text.{trim_end};
ghost use Rattle.lrlex_report.specs.Notes.{text_from, or_note, comment_note, option_note, code_note, is_word_start, ends_rule, is_definition, definition_note, flex_note, declaration_note, bar_note, is_action, action_note, word_note, name_note, begins_list, list_note, end_note, undeclared_note, state_note, space_note, pattern_note, kind_note, fault_note};

use crate::encoding::mark_note;
use crate::pattern_notes::{
    braces_note, class_note, escape_note, number_note, operator_note, pattern_of, quotes_note,
};
use crate::places::nearest;
use crate::ranges::{first_line, source_in, told_span, trim_end};
use crate::warnings::patterns::{ends_in, source_of};
use lrlex_parser::{LexBuildError, LexErrorKind};

/// The text from a place on.
pub(crate) fn text_from(rules: &str, at: usize) -> &str
    ensures { result.now ≡ text_from rules.now at }
{
    &rules[nearest(rules, at)..]
}

/// The first note, unless it is empty.
fn or_note(first: &'static str, second: &'static str) -> &'static str
    ensures { result.now ≡ or_note first.now second.now }
{
    if first.is_empty() { second } else { first }
}

/// Tells what a comment is, and names the flag for it, if the text begins with `//` or `/*`.
fn comment_note(text: &str) -> &'static str
    ensures { result.now ≡ comment_note text.now }
{
    if text.starts_with("//") || text.starts_with("/*") {
        ": a comment is a line that begins with //, and only with the flag allow_wholeline_comments"
    } else {
        ""
    }
}

/// Tells that options aren't read, if this line of flex sets some.
fn option_note(line: &str) -> &'static str
    ensures { result.now ≡ option_note line.now }
{
    if line.starts_with("%option") {
        ": options of flex aren't read; leave the line out, and give flags, as case_insensitive, outside the text"
    } else {
        ""
    }
}

/// Tells that code isn't read, if a block of it begins or ends on this line.
fn code_note(line: &str) -> &'static str
    ensures { result.now ≡ code_note line.now }
{
    if line.starts_with("%{") || line.starts_with("%}") || line.starts_with("%top") {
        ": blocks of code aren't read; leave them out"
    } else {
        ""
    }
}

/// Whether a name of flex begins with this byte: a letter or `_`.
fn is_word_start(byte: u8) -> bool
    ensures { result ≡ is_word_start byte }
{
    byte.is_ascii_alphabetic() || byte == b'_'
}

/// Whether a letter or `_` begins a line.
fn begins_word(line: &str) -> bool
    ensures { result ≡ is_word_start (slice_index line.now 0) }
{
    line.as_bytes().first().is_some_and(|b| is_word_start(*b))
}

/// Whether a text ends as a rule does: in a quote, or in `;`.
fn ends_rule(text: &str) -> bool
    ensures { result ≡ ends_rule text.now }
{
    ends_in(b'\'', text) || ends_in(b'"', text) || ends_in(b';', text)
}

/// Whether a line is a name, a blank and a pattern, as flex has definitions. A rule ends in its own name.
fn is_definition(line: &str) -> bool
    ensures { result ≡ is_definition line.now }
{
    begins_word(line) && has_blank(line) && !ends_rule(trim_end(line))
}

/// What to write in place of a definition of a pattern, if this line is one.
fn definition_note(line: &str) -> &'static str
    ensures { result.now ≡ definition_note line.now }
{
    if is_definition(line) {
        ": definitions of patterns aren't read; leave the line out, and write the pattern in each rule, in place of {NAME}"
    } else {
        ""
    }
}

/// What isn't read of this line of flex, if it sets options, is part of a block of code, or defines a pattern.
fn flex_note(line: &str) -> &'static str
    ensures { result.now ≡ flex_note line.now }
{
    or_note(
        option_note(line),
        or_note(code_note(line), definition_note(line)),
    )
}

/// Why the line at this place declares nothing: it begins with a byte order mark, is a comment, is one of flex, or is another line.
fn declaration_note(rules: &str, at: usize) -> &'static str
    ensures { result.now ≡ declaration_note rules.now at }
{
    let flex = or_note(
        flex_note(first_line(text_from(rules, at))),
        ": a line before %% is %s or %x with names of start states; rules come after it",
    );
    let other = or_note(comment_note(text_from(rules, at)), flex);
    or_note(mark_note(rules, at), other)
}

/// What to write in place of `|`, if that stands for a name. In flex it is the action of the next rule.
fn bar_note(name: &str) -> &'static str
    ensures { result.now ≡ bar_note name.now }
{
    if name == "|" {
        ": | takes no name from the next rule; write both patterns in one rule, as a|b, or give each a name"
    } else {
        ""
    }
}

/// Whether this is the last word of an action, as `}` or `ID;`.
fn is_action(name: &str) -> bool
    ensures { result ≡ is_action name.now }
{
    name.starts_with("{") || ends_in(b'}', name) || ends_in(b';', name)
}

/// What to write in place of an action, if this is the last word of one.
fn action_note(name: &str) -> &'static str
    ensures { result.now ≡ action_note name.now }
{
    if is_action(name) {
        ": actions aren't read; write a name in quotes, or ; for no name, and nothing after it"
    } else {
        ""
    }
}

/// What to write in place of this word, which is no name.
fn word_note(name: &str) -> &'static str
    ensures { result.now ≡ word_note name.now }
{
    let other = or_note(
        action_note(name),
        ": write it in quotes and without blanks, or ; for no name; no action or comment follows it",
    );
    or_note(bar_note(name), other)
}

/// What to write in place of the word at this place, which is no name, or that its line is a comment.
fn name_note(rules: &str, at: usize) -> &'static str
    ensures { result.now ≡ name_note rules.now at }
{
    let (_, pattern) = source_of(rules, at);
    let name = trim_end(first_line(text_from(rules, at)));
    or_note(comment_note(pattern), word_note(name))
}

/// Whether a text has a blank before the white space at its end.
fn has_blank(line: &str) -> bool
    ensures { result ≡ list_any is_blank (trim_end line.now) }
{
    let text = trim_end(line);
    text.as_bytes().iter().any(|b| *b == b' ' || *b == b'\t')
}

/// Whether a line begins with a list of start states. A target, which begins with `<` too, has no blank after it.
pub(crate) fn begins_list(line: &str) -> bool
    ensures { result ≡ begins_list line.now }
{
    line.starts_with("<") && has_blank(line)
}

/// How to write a `<`, if a pattern that begins with one begins this line.
fn list_note(line: &str) -> &'static str
    ensures { result.now ≡ list_note line.now }
{
    if begins_list(line) {
        ": a pattern that begins with < lists start states; write \\< for the character"
    } else {
        ""
    }
}

/// Tells that no rule matches at the end of the text, if this line is a rule for that, as flex has it.
fn end_note(line: &str) -> &'static str
    ensures { result.now ≡ end_note line.now }
{
    if line.starts_with("<<EOF>>") {
        ": no rule matches at the end of the text; leave it out"
    } else {
        ""
    }
}

/// How to declare the start state that this line names, and how to write a `<`, if a pattern that begins with one begins the line.
fn undeclared_note(line: &str) -> &'static str
    ensures { result.now ≡ undeclared_note line.now }
{
    if begins_list(line) {
        ": declare it with %s or %x; commas separate the names of a list, and a target stands before the rule's name; a pattern that begins with the character < begins with \\<"
    } else {
        ": declare it with %s or %x"
    }
}

/// What to write in place of the start state that this line names, which isn't declared.
fn state_note(line: &str) -> &'static str
    ensures { result.now ≡ state_note line.now }
{
    or_note(end_note(line), undeclared_note(line))
}

/// What a rule is, or that its line is a comment, where the text from the line on has no blank before the line's end.
fn space_note(text: &str) -> &'static str
    ensures { result.now ≡ space_note text.now }
{
    or_note(
        comment_note(text),
        ": a rule is a pattern, a space or a tab, and a name in quotes, or ; for no name",
    )
}

/// What the message of a pattern that `regex` refuses ends with, where this is its line.
fn pattern_note(line: &str) -> &'static str
    ensures { result.now ≡ pattern_note line.now }
{
    let pattern = pattern_of(line);
    let unescaped = or_note(class_note(pattern), operator_note(pattern));
    let operator = or_note(quotes_note(pattern), unescaped);
    let inside = or_note(braces_note(pattern), operator);
    let note = or_note(number_note(source_in(line)), inside);
    or_note(escape_note(line), note)
}

/// What the message of a fault of this kind at this place ends with. `rules` is the text that has the fault.
fn kind_note(rules: &str, at: usize, kind: &LexErrorKind) -> &'static str
    ensures { result.now ≡ kind_note rules.now at kind.now }
{
    match kind {
        LexErrorKind::PrematureEnd => ": no line begins with %%; write one before the rules",
        LexErrorKind::UnknownDeclaration => declaration_note(rules, at),
        LexErrorKind::MissingSpace => space_note(text_from(rules, at)),
        LexErrorKind::InvalidName => name_note(rules, at),
        LexErrorKind::UnknownStartState => state_note(first_line(text_from(rules, at))),
        LexErrorKind::InvalidStartState => list_note(first_line(text_from(rules, at))),
        LexErrorKind::RegexError(_) => pattern_note(first_line(text_from(rules, at))),
        LexErrorKind::InvalidStartStateName => {
            ": a name is an ASCII letter, then ASCII letters, digits, _ or .; one blank separates two names"
        }
        LexErrorKind::RoutinesNotSupported => {
            ": %% ends the rules, and only white space may follow; write \\%% for a pattern that begins with it"
        }
        LexErrorKind::VerbatimNotSupported => {
            ": white space begins the line; write the rule without it, or an empty line"
        }
        _ => "",
    }
}

/// What the message of a fault ends with: the mistake that it usually comes of, and what to write. Empty where there is nothing to
/// say. `rules` is the text that has the fault.
pub(crate) fn fault_note(rules: &str, fault: &LexBuildError) -> &'static str
    ensures { result.now ≡ fault_note rules.now fault.now }
{
    kind_note(rules, told_span(fault).start(), fault.kind())
}
