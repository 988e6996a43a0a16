//! Lexing: at each place the longest match wins, on a tie the earliest rule, under a stack of start states.
pub(crate) mod cursor;
pub(crate) mod laws;
pub(crate) mod plain;
pub(crate) mod run;
pub(crate) mod scanner;
pub(crate) mod scanning;
pub(crate) mod stack;
pub(crate) mod step;
pub(crate) mod steps;
pub(crate) mod taking;
pub(crate) mod winner;
