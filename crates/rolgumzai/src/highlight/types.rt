//! What the token types of the Language Server Protocol 3.17 are shown as.
use crate::highlight::classes::{
    COMMENT, Class, FUNCTION, KEYWORD, NAME, NUMBER, PLAIN, TEXT, TYPE,
};

/// Token types, with a blank between two, and what they are shown as.
struct Row {
    types: &'static str,
    class: Class,
}

static ROWS: [Row; 7] = [
    Row {
        types: "namespace type class enum interface struct typeParameter",
        class: TYPE,
    },
    Row {
        types: "parameter variable property enumMember",
        class: NAME,
    },
    Row {
        types: "event function method macro decorator",
        class: FUNCTION,
    },
    Row {
        types: "keyword modifier",
        class: KEYWORD,
    },
    Row {
        types: "comment",
        class: COMMENT,
    },
    Row {
        types: "string regexp",
        class: TEXT,
    },
    Row {
        types: "number",
        class: NUMBER,
    },
];

/// What a token type is shown as. An operator is plain, and so is what has no type, by an empty text.
pub fn class_of_type(kind: &str) -> Class {
    for row in &ROWS {
        for known in row.types.split(' ') {
            if known == kind {
                return row.class;
            }
        }
    }
    PLAIN
}
