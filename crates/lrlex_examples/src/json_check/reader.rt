//! Reads the tokens by the grammar of JSON.
use crate::json_check::tokens::{Token, token_named};
use crate::rules::{Definition, Types};
use lrlex::{DefaultLexeme, LRLexError, LRNonStreamingLexer, LexError, Lexeme, Lexer, Span};
use std::alloc::{AllocError, Global};

/// What is open round a place.
#[derive(Clone, Copy)]
enum Open {
    Object,
    Array,
}

/// What may come next.
#[derive(Clone, Copy)]
enum Next {
    Value,
    ElementOrEnd,
    Key,
    KeyOrEnd,
    Colon,
    CommaOrEnd,
    End,
}

/// Where a text isn't JSON.
#[derive(Drop)]
pub struct Fault<'t> {
    /// Where it stands.
    pub span: Span,
    pub expected: &'static str,
    /// The text that stands there instead, and nothing at the text's end.
    pub found: &'t str,
}

/// How far a text was read.
#[derive(Drop)]
struct Reader {
    /// What is open, the innermost last.
    open: Vec<Open>,
    next: Next,
}

impl Reader {
    /// What is expected, in words.
    fn expected(&self) -> &'static str {
        match (self.next, self.open.last()) {
            (Next::Value, _) => "a value",
            (Next::ElementOrEnd, _) => "a value or ']'",
            (Next::Key, _) => "a string",
            (Next::KeyOrEnd, _) => "a string or '}'",
            (Next::Colon, _) => "':'",
            (Next::CommaOrEnd, Some(Open::Object)) => "',' or '}'",
            (Next::CommaOrEnd, _) => "',' or ']'",
            (Next::End, _) => "the end",
        }
    }

    /// After a whole value.
    fn close(&mut self) {
        self.next = if self.open.is_empty() {
            Next::End
        } else {
            Next::CommaOrEnd
        };
    }

    /// Begins a value. Whether the token does.
    fn begin(&mut self, token: Token) -> Result<bool, AllocError> {
        match token {
            Token::LeftBrace => {
                self.open.push(Open::Object)?;
                self.next = Next::KeyOrEnd;
            }
            Token::LeftBracket => {
                self.open.push(Open::Array)?;
                self.next = Next::ElementOrEnd;
            }
            Token::Text | Token::Scalar => self.close(),
            _ => return Ok(false),
        }
        Ok(true)
    }

    /// Ends what is open innermost. Whether the token does.
    fn end(&mut self, token: Token) -> bool {
        let ends = match self.open.last() {
            Some(Open::Object) => token == Token::RightBrace,
            Some(Open::Array) => token == Token::RightBracket,
            None => false,
        };
        if ends {
            self.open.pop();
            self.close();
        }
        ends
    }

    /// Goes on behind a comma in what is open innermost.
    fn go_on(&mut self) {
        self.next = match self.open.last() {
            Some(Open::Object) => Next::Key,
            Some(Open::Array) => Next::Value,
            None => Next::End,
        };
    }

    /// Takes a token. Whether it may stand here.
    fn take(&mut self, token: Token) -> Result<bool, AllocError> {
        match (self.next, token) {
            (Next::Value, _) => self.begin(token),
            (Next::ElementOrEnd, Token::RightBracket) => Ok(self.end(token)),
            (Next::ElementOrEnd, _) => self.begin(token),
            (Next::Key | Next::KeyOrEnd, Token::Text) => {
                self.next = Next::Colon;
                Ok(true)
            }
            (Next::KeyOrEnd, Token::RightBrace) => Ok(self.end(token)),
            (Next::Colon, Token::Colon) => {
                self.next = Next::Value;
                Ok(true)
            }
            (Next::CommaOrEnd, Token::Comma) => {
                self.go_on();
                Ok(true)
            }
            (Next::CommaOrEnd, _) => Ok(self.end(token)),
            _ => Ok(false),
        }
    }
}

/// The part of the text that an item has, and its token.
fn token_of(
    definition: &Definition,
    item: Result<DefaultLexeme<u32>, LRLexError>,
) -> (Span, Token) {
    match item {
        Ok(lexeme) => {
            let name = definition.name_of(lexeme.tok_id()).unwrap_or("");
            (lexeme.span(), token_named(name))
        }
        Err(error) => (error.span(), Token::Other),
    }
}

/// That the reader expects something else at this span.
fn fault_at<'t>(
    reader: &Reader,
    lexer: &LRNonStreamingLexer<'_, 't, Types>,
    span: Span,
) -> Fault<'t> {
    Fault {
        span,
        expected: reader.expected(),
        found: lexer.text_of(span),
    }
}

/// The first place where the text isn't JSON.
pub fn fault_of<'t>(
    alloc: Global,
    definition: &Definition,
    text: &'t str,
) -> Result<Option<Fault<'t>>, AllocError> {
    let lexer = definition.lexer(alloc, text)?;
    let mut reader = Reader {
        open: Vec::new(alloc),
        next: Next::Value,
    };
    for item in lexer.iter() {
        let (span, token) = token_of(definition, item);
        if !reader.take(token)? {
            return Ok(Some(fault_at(&reader, &lexer, span)));
        }
    }
    let end = Span::new(text.len(), text.len());
    Ok(match reader.next {
        Next::End => None,
        _ => Some(fault_at(&reader, &lexer, end)),
    })
}
