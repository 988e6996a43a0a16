//! What definitions say, lexemes and errors, and what setting token ids gives.
use crate::replay::cases::told::Told;
use lrlex::{LexBuildError, Rule, StartState, StartStateOperation};
use lrlex_base::{Span, Spanned};
use lrlex_report::fault_name;
use serde_json::Value;
use std::alloc::AllocError;
use std::collections::HashSet;

/// A lexeme or an error, as plain numbers.
#[derive(Clone, Copy)]
pub enum Item {
    /// A lexeme: its id and its span.
    Lexeme(u64, Span),
    /// An error: its span, and the state in which no rule matched.
    Error(Span, Option<usize>),
}

/// A rule, with its id as a number.
#[derive(Clone, Copy)]
pub struct RuleSeen<'r> {
    id: Option<u64>,
    name: Option<&'r str>,
    name_span: Span,
    re_str: &'r str,
    start_states: &'r [usize],
    target: Option<(usize, StartStateOperation)>,
}

/// Why there is no definition.
#[derive(Drop)]
pub enum Refusal {
    /// The rule text has these faults.
    Faulty(Vec<LexBuildError>),
    /// The rule at this place was refused.
    Rule(usize),
}

/// What is told of a span that fits a text: its text, its lines, and the places of its ends.
pub type Fitting<'t> = (&'t str, &'t str, ((usize, usize), (usize, usize)));

/// What setting token ids gave: the names without a rule, and the rules' names without an id, with their places.
pub type Sets<'n> = (Option<HashSet<&'n str>>, Option<HashSet<(String, Span)>>);

/// The same without places.
pub type NameSets<'n> = (Option<HashSet<&'n str>>, Option<HashSet<String>>);

/// Tells a fault, by its kind and its spans.
fn tell_fault(told: &mut Told, fault: &LexBuildError) {
    told.open_object()
        .member("kind")
        .text(fault_name(fault))
        .member("spans")
        .open();
    for span in fault.spans() {
        told.span(*span);
    }
    told.close().close_object();
}

/// Tells the faults.
pub fn tell_faults(told: &mut Told, faults: &[LexBuildError]) {
    told.list("faults");
    for fault in faults {
        tell_fault(told, fault);
    }
    told.close();
}

/// Tells why there is no definition.
pub fn tell_refusal(told: &mut Told, refusal: &Refusal) {
    match refusal {
        Refusal::Faulty(faults) => tell_faults(told, faults.as_slice()),
        Refusal::Rule(place) => {
            told.key("rule_refused").number(*place);
        }
    }
}

/// Tells a start state: `[id, name, exclusive, span]`.
fn tell_state(told: &mut Told, state: &StartState) {
    told.open()
        .number(state.id())
        .text(state.name())
        .truth(state.exclusive())
        .span(state.name_span())
        .close();
}

/// Tells the start states.
pub fn tell_states(told: &mut Told, states: &[StartState]) {
    told.list("states");
    for state in states {
        tell_state(told, state);
    }
    told.close();
}

fn operation_name(operation: StartStateOperation) -> &'static str {
    match operation {
        StartStateOperation::ReplaceStack => "ReplaceStack",
        StartStateOperation::Push => "Push",
        StartStateOperation::Pop => "Pop",
    }
}

/// Tells what a rule does to the stack: `[id, operation]`, or null.
fn tell_target(told: &mut Told, target: Option<(usize, StartStateOperation)>) {
    match target {
        Some((state, operation)) => {
            told.open()
                .number(state)
                .text(operation_name(operation))
                .close();
        }
        None => {
            told.null();
        }
    }
}

/// Tells a rule, with all its fields.
fn tell_rule(told: &mut Told, rule: RuleSeen<'_>) {
    told.open_object()
        .member("tok_id")
        .value(&Value::from(rule.id))
        .member("name")
        .name(rule.name)
        .member("name_span")
        .span(rule.name_span)
        .member("re_str")
        .text(rule.re_str)
        .member("start_states")
        .numbers(rule.start_states)
        .member("target");
    tell_target(told, rule.target);
    told.close_object();
}

/// What a rule says, with its id as a number.
fn rule_seen<T: Copy + Into<u64>>(rule: &Rule<T>) -> RuleSeen<'_> {
    RuleSeen {
        id: rule.tok_id().map(|id| id.into()),
        name: rule.name(),
        name_span: rule.name_span(),
        re_str: rule.re_str(),
        start_states: rule.start_states(),
        target: rule.target_state(),
    }
}

/// Tells the rules.
pub fn tell_rules<T: Copy + Into<u64>>(told: &mut Told, rules: &[Rule<T>]) {
    told.list("rules");
    for rule in rules {
        tell_rule(told, rule_seen(rule));
    }
    told.close();
}

impl Item {
    /// Where it stands.
    pub fn span(self) -> Span {
        let (Item::Lexeme(_, span) | Item::Error(span, _)) = self;
        span
    }
}

/// Tells a lexeme or an error: `["lex", id, start, length]` or `["err", place, state]`.
pub fn tell_item(told: &mut Told, item: Item) {
    told.open();
    match item {
        Item::Lexeme(id, span) => {
            told.text("lex")
                .value(&Value::from(id))
                .number(span.start())
                .number(span.len());
        }
        Item::Error(span, state) => {
            told.text("err")
                .number(span.start())
                .value(&Value::from(state));
        }
    }
    told.close();
}

/// Tells lexemes and errors.
pub fn tell_items(told: &mut Told, items: &[Item]) {
    told.list("items");
    for item in items {
        tell_item(told, *item);
    }
    told.close();
}

/// Tells that there are no items to tell of.
pub fn tell_no_items(told: &mut Told) {
    told.key("items").null();
}

/// Tells how many tiles a run has, the most entries of a stack, and how many matches it asked for.
pub fn tell_counts(told: &mut Told, counts: [usize; 3]) {
    let [tiles, entries_peak, asked] = counts;
    told.key("tiles")
        .number(tiles)
        .key("entries_peak")
        .number(entries_peak)
        .key("asked_max")
        .number(asked);
}

/// Tells a boundary: `[place, [[count, state], ..]]`.
pub fn tell_boundary(told: &mut Told, place: usize, stack: &[(usize, usize)]) {
    told.open().number(place).open();
    for entry in stack {
        told.pair(*entry);
    }
    told.close().close();
}

/// Tells a piece: `[rule, start, length, name]`, and more where its text isn't the text's at its span.
pub fn tell_piece(told: &mut Told, rule: usize, span: Span, name: Option<&str>, is_own: bool) {
    told.open()
        .number(rule)
        .number(span.start())
        .number(span.len())
        .name(name);
    if !is_own {
        told.text("wrong text");
    }
    told.close();
}

/// Tells a pair of a name and a text.
fn tell_word(told: &mut Told, name: &str, text: &str) {
    told.open().text(name).text(text).close();
}

/// Tells pairs of a name and a text, if memory was there for them.
pub fn tell_words(told: &mut Told, words: Result<Vec<(&str, &str)>, AllocError>) {
    match words {
        Ok(words) => {
            told.list("words");
            for (name, text) in words.as_slice() {
                tell_word(told, name, text);
            }
            told.close();
        }
        Err(_) => {
            told.refuse();
        }
    }
}

/// Tells what is shown to people, if memory was there for it.
pub fn tell_report(told: &mut Told, shown: Result<String, AllocError>) {
    told.key("shown").made(shown);
}

/// Tells a span's text, its lines and the places of its ends, or as many nulls.
pub fn tell_fitting(told: &mut Told, fitting: Option<Fitting<'_>>) {
    let Some((text, lines, places)) = fitting else {
        told.null().null().null();
        return;
    };
    told.text(text).text(lines).pairs(places);
}

/// Tells the rule that was found, or null.
fn tell_found(told: &mut Told, found: Option<&Rule<u32>>) {
    match found {
        Some(rule) => tell_rule(told, rule_seen(rule)),
        None => {
            told.null();
        }
    }
}

/// Tells the rule with this id, and what lexemes of the id are called.
pub fn tell_by_id(told: &mut Told, id: u32, found: Option<&Rule<u32>>, name: Option<&str>) {
    told.list("by_id").number(id as usize);
    tell_found(told, found);
    told.name(name).close();
}

/// Tells the rule with this name.
pub fn tell_by_name(told: &mut Told, name: &str, found: Option<&Rule<u32>>) {
    told.list("by_name").text(name);
    tell_found(told, found);
    told.close();
}

/// Tells the names, or null for none.
fn tell_names(told: &mut Told, names: &Option<HashSet<&str>>) {
    let Some(names) = names else {
        told.null();
        return;
    };
    told.open();
    for name in names {
        told.text(name);
    }
    told.close();
}

/// The same of names of their own.
fn tell_own_names(told: &mut Told, names: &Option<HashSet<String>>) {
    let Some(names) = names else {
        told.null();
        return;
    };
    told.open();
    for name in names {
        told.text(name);
    }
    told.close();
}

/// Tells the names with their places, each as `[name, span]`, or null for none.
fn tell_placed_names(told: &mut Told, names: &Option<HashSet<(String, Span)>>) {
    let Some(names) = names else {
        told.null();
        return;
    };
    told.open();
    for (name, span) in names {
        told.open().text(name).span(*span).close();
    }
    told.close();
}

/// Tells what setting token ids gave, in any order, if memory was there for it.
pub fn tell_sets(told: &mut Told, key: &str, sets: Result<Sets<'_>, AllocError>) {
    match sets {
        Ok(sets) => {
            told.list(key);
            tell_names(told, &sets.0);
            tell_placed_names(told, &sets.1);
            told.close();
        }
        Err(_) => {
            told.refuse();
        }
    }
}

/// The same without places.
pub fn tell_name_sets(told: &mut Told, key: &str, sets: Result<NameSets<'_>, AllocError>) {
    match sets {
        Ok(sets) => {
            told.list(key);
            tell_names(told, &sets.0);
            tell_own_names(told, &sets.1);
            told.close();
        }
        Err(_) => {
            told.refuse();
        }
    }
}
