//! The tokens of JSON.

/// The rules that cut a text. The last takes any other character, so that no text stops the lexer; the one before it takes a
/// word whole, so that it is told whole.
pub const RULES: &str = r#"%%
\{ '{'
\} '}'
\[ '['
\] ']'
: ':'
, ','
true|false|null 'LITERAL'
-?(0|[1-9][0-9]*)(\.[0-9]+)?([eE][+-]?[0-9]+)? 'NUMBER'
"([^"\\\x00-\x1f]|\\["\\/bfnrt]|\\u[0-9a-fA-F]{4})*" 'STRING'
[ \t\n\r]+ ;
[A-Za-z0-9_]+ 'WORD'
.|\n 'OTHER'
"#;

/// What a lexeme is to the reader.
#[derive(Clone, Copy, PartialEq, Eq)]
pub enum Token {
    LeftBrace,
    RightBrace,
    LeftBracket,
    RightBracket,
    Colon,
    Comma,
    Text,
    /// A number, `true`, `false` or `null`.
    Scalar,
    /// What is no token of JSON.
    Other,
}

/// The token of the rule's name.
pub fn token_named(name: &str) -> Token {
    match name {
        "{" => Token::LeftBrace,
        "}" => Token::RightBrace,
        "[" => Token::LeftBracket,
        "]" => Token::RightBracket,
        ":" => Token::Colon,
        "," => Token::Comma,
        "STRING" => Token::Text,
        "LITERAL" | "NUMBER" => Token::Scalar,
        _ => Token::Other,
    }
}
