//! Works out a line.
use crate::calc::grammar::{CLOSE, MINUS, NUMBER, OPEN, OVER, PLUS, TIMES};
use crate::rules::{Definition, Types};
use lrlex::{LRNonStreamingLexer, LexError, Lexeme, Lexer};
use std::alloc::{AllocError, AllocFailed, Global};

/// Why a line has no value.
#[derive(Clone, Copy)]
pub enum Failure {
    /// What is wrong begins at this byte of the line.
    Wrong { place: usize, why: &'static str },
    Memory,
}

impl From<AllocError> for Failure {
    fn from(_fault: AllocError) -> Failure {
        Failure::Memory
    }
}

impl<T: Drop> From<AllocFailed<T>> for Failure {
    fn from(_fault: AllocFailed<T>) -> Failure {
        Failure::Memory
    }
}

#[derive(Clone, Copy)]
enum Operator {
    Add,
    Subtract,
    Multiply,
    Divide,
}

/// What waits for its right side.
#[derive(Clone, Copy)]
enum Held {
    Parenthesis,
    Negation,
    /// An operator with its left side.
    Left(i64, Operator),
}

/// What waits, and the byte of the line where it begins.
#[derive(Clone, Copy)]
struct Waiting {
    held: Held,
    place: usize,
}

/// A line that is read so far.
#[derive(Drop)]
struct Sum {
    /// The value up to here, from the innermost that waits on. None where a value has to come.
    value: Option<i64>,
    /// What waits, the innermost last.
    waiting: Vec<Waiting>,
}

/// The operator of a token.
fn operator_of(token: u32) -> Option<Operator> {
    match token {
        PLUS => Some(Operator::Add),
        MINUS => Some(Operator::Subtract),
        TIMES => Some(Operator::Multiply),
        OVER => Some(Operator::Divide),
        _ => None,
    }
}

/// How strongly an operator binds.
fn strength(operator: Operator) -> u8 {
    match operator {
        Operator::Add | Operator::Subtract => 1,
        Operator::Multiply | Operator::Divide => 2,
    }
}

/// How strongly it holds what comes after it. A parenthesis lets nothing out before it closes.
fn hold(held: Held) -> u8 {
    match held {
        Held::Parenthesis => 0,
        Held::Left(_, operator) => strength(operator),
        Held::Negation => 3,
    }
}

/// The value with what waited for it. None where it is too large, or a divisor is 0.
fn applied(held: Held, right: i64) -> Option<i64> {
    match held {
        Held::Parenthesis => Some(right),
        Held::Negation => right.checked_neg(),
        Held::Left(left, Operator::Add) => left.checked_add(right),
        Held::Left(left, Operator::Subtract) => left.checked_sub(right),
        Held::Left(left, Operator::Multiply) => left.checked_mul(right),
        Held::Left(left, Operator::Divide) => left.checked_div(right),
    }
}

/// Why `applied` gave none.
fn why_none(held: Held, right: i64) -> &'static str {
    match (held, right) {
        (Held::Left(_, Operator::Divide), 0) => "division by 0",
        _ => "the result is too large",
    }
}

/// That this is wrong at the byte.
fn wrong<T>(place: usize, why: &'static str) -> Result<T, Failure> {
    Err(Failure::Wrong { place, why })
}

impl Sum {
    /// The value, after all that waits for it and holds at least so strongly.
    fn reduced(&mut self, value: i64, least: u8) -> Result<i64, Failure> {
        let mut value = value;
        for _ in 0..self.waiting.len() {
            let Some(Waiting { held, place }) = self.waiting.last().copied() else {
                break;
            };
            if hold(held) < least {
                break;
            }
            self.waiting.pop();
            value = match applied(held, value) {
                Some(value) => value,
                None => return wrong(place, why_none(held, value)),
            };
        }
        Ok(value)
    }

    /// Takes a token where a value has to come.
    fn take_first(&mut self, token: u32, text: &str, place: usize) -> Result<(), Failure> {
        let held = match token {
            NUMBER => match text.parse() {
                Ok(number) => {
                    self.value = Some(number);
                    return Ok(());
                }
                Err(_) => return wrong(place, "the number is too large"),
            },
            OPEN => Held::Parenthesis,
            MINUS => Held::Negation,
            _ => return wrong(place, "expected a number, - or ("),
        };
        self.waiting.push(Waiting { held, place })?;
        Ok(())
    }

    /// Closes the innermost parenthesis after the value.
    fn close(&mut self, value: i64, place: usize) -> Result<(), Failure> {
        self.value = Some(self.reduced(value, 1)?);
        match self.waiting.pop() {
            Some(_) => Ok(()),
            None => wrong(place, "no parenthesis is open"),
        }
    }

    /// Takes a token after a value.
    fn take_next(&mut self, value: i64, token: u32, place: usize) -> Result<(), Failure> {
        match operator_of(token) {
            Some(operator) => {
                let left = self.reduced(value, strength(operator))?;
                self.value = None;
                let held = Held::Left(left, operator);
                self.waiting.push(Waiting { held, place })?;
                Ok(())
            }
            None if token == CLOSE => self.close(value, place),
            None => wrong(place, "expected an operator or )"),
        }
    }

    /// Takes a token.
    fn take(&mut self, token: u32, text: &str, place: usize) -> Result<(), Failure> {
        match self.value {
            Some(value) => self.take_next(value, token, place),
            None => self.take_first(token, text, place),
        }
    }

    /// The whole line's value. The place is the line's end.
    fn whole(&mut self, place: usize) -> Result<i64, Failure> {
        let Some(value) = self.value else {
            return wrong(place, "expected a number, - or (");
        };
        let value = self.reduced(value, 1)?;
        match self.waiting.last() {
            Some(open) => wrong(open.place, "this parenthesis isn't closed"),
            None => Ok(value),
        }
    }
}

/// Takes all tokens of a line.
fn take_all(sum: &mut Sum, lexer: &LRNonStreamingLexer<'_, '_, Types>) -> Result<(), Failure> {
    for item in lexer.iter() {
        match item {
            Ok(lexeme) => {
                let span = lexeme.span();
                sum.take(lexeme.tok_id(), lexer.text_of(span), span.start())?;
            }
            Err(error) => return wrong(error.span().start(), "no token begins here"),
        }
    }
    Ok(())
}

/// The value of a line.
pub fn value_of(alloc: Global, definition: &Definition, line: &str) -> Result<i64, Failure> {
    let lexer = definition.lexer(alloc, line)?;
    let mut sum = Sum {
        value: None,
        waiting: Vec::new(alloc),
    };
    take_all(&mut sum, &lexer)?;
    sum.whole(line.len())
}
