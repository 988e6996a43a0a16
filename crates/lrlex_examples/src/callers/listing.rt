//! The tokens of a text, and where it ends. No clause and no proof file.
use lrlex::{DefaultLexerTypes, LRNonStreamingLexerDef, Lexeme, Lexer, LexerDef, LineCursor};
use std::alloc::{AllocError, Global};

/// A token: the name of its rule, its text, and the line and column of its first character, both from 1.
#[derive(Clone, Copy, Debug, PartialEq, Eq)]
pub struct Token<'d, 't> {
    pub name: &'d str,
    pub text: &'t str,
    pub line: usize,
    pub column: usize,
}

/// The tokens of a text in order, up to the text's end or to where lexing stops.
pub fn tokens<'d, 't>(
    alloc: Global,
    definition: &'d LRNonStreamingLexerDef<DefaultLexerTypes<u32>>,
    text: &'t str,
) -> Result<Vec<Token<'d, 't>>, AllocError> {
    let lexer = definition.lexer(alloc, text)?;
    let mut cursor = LineCursor::new(text);
    let mut tokens = Vec::new(alloc);
    for item in lexer.iter() {
        if let Ok(lexeme) = item {
            let (line, column) = cursor.place(lexeme.span().start());
            tokens.push(Token {
                name: definition.name_of(lexeme.tok_id()).unwrap_or(""),
                text: lexer.text_of(lexeme.span()),
                line,
                column,
            })?;
        }
    }
    Ok(tokens)
}

/// The name of the start state in which the text ends, as that of a comment that isn't closed. None where that is `INITIAL`.
pub fn unclosed<'d>(
    alloc: Global,
    definition: &'d LRNonStreamingLexerDef<DefaultLexerTypes<u32>>,
    text: &str,
) -> Result<Option<&'d str>, AllocError> {
    let run = definition.run(alloc, text)?;
    let Some(last) = run.end_state() else {
        return Ok(None);
    };
    for state in definition.iter_start_states().skip(1) {
        if state.id() == last.id() {
            return Ok(Some(state.name()));
        }
    }
    Ok(None)
}
