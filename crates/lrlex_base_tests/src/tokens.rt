//! The text of a token module, and its faults.
use lrlex_tokens::{CTTokenMapBuilder, TokenMapFault, ct_token_map};
use std::alloc::Global;
use std::collections::HashMap;
use std::error::Error;
use std::process::Abort;

/// The message of an error.
fn message<E: Error>(rt: &impl Abort, alloc: Global, error: &E) -> String {
    error.to_string(alloc).expect(rt, "memory")
}

/// The module's text, or the message of the fault.
fn text_or_message(
    rt: &impl Abort,
    alloc: Global,
    answer: Result<String, TokenMapFault>,
) -> String {
    match answer {
        Ok(text) => text,
        Err(fault) => message(rt, alloc, &fault),
    }
}

/// A map of these names, which commas part, to the ids from `first` on.
pub(crate) fn tokens_of(
    rt: &impl Abort,
    alloc: Global,
    names: &str,
    first: u8,
) -> HashMap<String, u8> {
    let mut tokens: HashMap<String, u8> = HashMap::new(alloc);
    let mut id = first;
    for name in names.split(',') {
        let name = String::from_str(alloc, name).expect(rt, "memory");
        let put: Result<_, _> = tokens.insert(name, id);
        put.expect(rt, "memory");
        id = id.saturating_add(1);
    }
    tokens
}

/// A map that renames one name.
pub(crate) fn renamed<'t>(
    rt: &impl Abort,
    alloc: Global,
    from: &'t str,
    to: &'t str,
) -> HashMap<&'t str, &'t str> {
    let mut renames: HashMap<&str, &str> = HashMap::new(alloc);
    let put: Result<_, _> = renames.insert(from, to);
    put.expect(rt, "memory");
    renames
}

/// What the builder gives for the module `x` over `u8`, without the attribute for dead code.
fn built(rt: &impl Abort, alloc: Global, names: &str, first: u8, from: &str, to: &str) -> String {
    let tokens = tokens_of(rt, alloc, names, first);
    let renames = renamed(rt, alloc, from, to);
    let builder = CTTokenMapBuilder::new(alloc, "x", "u8", &tokens).expect(rt, "memory");
    let builder = builder
        .rename_map(alloc, Some(&renames))
        .expect(rt, "memory");
    text_or_message(rt, alloc, builder.build(alloc).expect(rt, "memory"))
}

/// Names, the first id, a name and what it is renamed to; the text or the fault.
const MODULES: &[(&str, u8, &str, &str, &str)] = &[
    (
        "+,ID",
        0,
        "+",
        "PLUS",
        "mod x {\n    pub const T_PLUS: u8 = 0;\n    pub const T_ID: u8 = 1;\n    #[allow(dead_code)]\n    pub const TOK_IDS: &[u8] = &[0, 1];\n}\n",
    ),
    (
        "",
        3,
        "-",
        "a",
        "mod x {\n    pub const T_: u8 = 3;\n    #[allow(dead_code)]\n    pub const TOK_IDS: &[u8] = &[3];\n}\n",
    ),
    (
        "é",
        3,
        "-",
        "a",
        "mod x {\n    pub const T_é: u8 = 3;\n    #[allow(dead_code)]\n    pub const TOK_IDS: &[u8] = &[3];\n}\n",
    ),
    (
        "id,ID",
        0,
        "-",
        "a",
        "Constant of token 'id' is that of an earlier token",
    ),
    (
        "b,B",
        0,
        "-",
        "a",
        "Constant of token 'b' is that of an earlier token",
    ),
    (
        "+,PLUS",
        0,
        "+",
        "PLUS",
        "Constant of token 'PLUS' is that of an earlier token",
    ),
    (
        "+",
        0,
        "-",
        "a",
        "Constant of token '+' is not an identifier",
    ),
    (
        "+",
        0,
        "+",
        "a b",
        "Constant of token '+' is not an identifier",
    ),
    (
        "❤",
        0,
        "-",
        "a",
        "Constant of token '❤' is not an identifier",
    ),
];

#[test]
fn modules_of_tokens(rt: HostRuntime) {
    for row in MODULES {
        let (names, first, from, to, want) = *row;
        let got = built(&rt, rt.alloc(), names, first, from, to);
        assert_eq!(rt; got.as_str(), want);
    }
}

const EMPTY: &str =
    "#[allow(dead_code)]\nmod x {\n    #[allow(dead_code)]\n    pub const TOK_IDS: &[u8] = &[];\n}\n";

/// Module and type; the text or the fault.
const NAMES: &[(&str, &str, &str)] = &[
    ("x", "u8", EMPTY),
    ("_", "", "Module name is not an identifier"),
    ("1x", "u8", "Module name is not an identifier"),
    ("", "u8", "Module name is not an identifier"),
    ("x", "u 8", "Type name is not an identifier"),
    ("x", "_", "Type name is not an identifier"),
];

/// What the call gives for no tokens, with the attribute for dead code.
fn of_call(rt: &impl Abort, alloc: Global, module: &str, kind: &str) -> String {
    let none: HashMap<String, u8> = HashMap::new(alloc);
    let written = ct_token_map(alloc, module, kind, &none, None).expect(rt, "memory");
    text_or_message(rt, alloc, written)
}

/// What the builder gives for no tokens, with the attribute for dead code.
fn of_builder(rt: &impl Abort, alloc: Global, module: &str, kind: &str) -> String {
    let none: HashMap<String, u8> = HashMap::new(alloc);
    let builder = CTTokenMapBuilder::new(alloc, module, kind, &none).expect(rt, "memory");
    let written = builder.allow_dead_code(true).build(alloc);
    text_or_message(rt, alloc, written.expect(rt, "memory"))
}

#[test]
fn names_of_modules_and_types(rt: HostRuntime) {
    for (module, kind, want) in NAMES {
        assert_eq!(rt; of_call(&rt, rt.alloc(), module, kind).as_str(), *want);
        assert_eq!(rt; of_builder(&rt, rt.alloc(), module, kind).as_str(), *want);
    }
}
