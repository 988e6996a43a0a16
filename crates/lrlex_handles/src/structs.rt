//! The structs that C reads and writes.

/// A lexeme: where it starts and how long it is, in bytes, and the id of its rule.
#[repr(C)]
#[derive(Clone, Copy)]
pub struct Token {
    pub start: usize,
    pub len: usize,
    pub id: u32,
}

/// A piece of a text as it was cut: where it starts and how long it is, in bytes, and the index of its rule.
#[repr(C)]
#[derive(Clone, Copy)]
pub struct Piece {
    pub start: usize,
    pub len: usize,
    pub rule: usize,
}

/// A tile that a scanner gives: where it starts and how long it is, in bytes, the index of its rule, and the id of its lexeme, if it
/// gives one.
#[repr(C)]
#[derive(Clone, Copy)]
pub struct Tile {
    pub start: usize,
    pub len: usize,
    pub rule: usize,
    pub id: u32,
    pub has_id: bool,
}

/// How a scanner went on.
#[repr(C)]
#[derive(Clone, Copy)]
pub struct Scanned {
    /// How many tiles were written.
    pub count: usize,
    /// The offset behind them.
    pub place: usize,
    /// The start state in which no rule matches there, or 0.
    pub state: usize,
    /// The index of the rule that ends all, or 0.
    pub rule: usize,
    /// Why no more tiles come, or 0 where there was room for no more.
    pub end: u32,
}

/// How lexing went.
#[repr(C)]
#[derive(Clone, Copy)]
pub struct Lexed {
    /// How many lexemes or pieces there are, even if the buffer has room for fewer.
    pub count: usize,
    /// The offset at which lexing ended.
    pub end: usize,
    /// The start state at that offset.
    pub state: usize,
    /// Whether lexing ended at an error.
    pub stopped: bool,
    /// Whether that error is that no rule matches.
    pub unmatched: bool,
}

/// Where a text enters the start state in which it ends: the bytes of the tile that entered it, from `start` up to `end`, and the
/// state.
#[repr(C)]
#[derive(Clone, Copy)]
pub struct Entered {
    pub start: usize,
    pub end: usize,
    pub state: usize,
}

/// A fault of a rule text: its kind, its first span, in bytes, and line and column of that, both from 1.
#[repr(C)]
#[derive(Clone, Copy)]
pub struct Fault {
    pub start: usize,
    pub end: usize,
    pub line: usize,
    pub column: usize,
    /// How many spans it has.
    pub spans: usize,
    pub kind: u32,
}

/// A span of a rule text, in bytes, with line and column of its start, both from 1.
#[repr(C)]
#[derive(Clone, Copy)]
pub struct FaultSpan {
    pub start: usize,
    pub end: usize,
    pub line: usize,
    pub column: usize,
}

/// A warning of a rule text: its kind, its span, in bytes, and line and column of that, both from 1.
#[repr(C)]
#[derive(Clone, Copy)]
pub struct Warning {
    pub start: usize,
    pub end: usize,
    pub line: usize,
    pub column: usize,
    pub kind: u32,
}

/// Line and column. Of a place both count from 1, the column in characters; of a position both count from 0, the column in bytes or in
/// code units of UTF-16.
#[repr(C)]
#[derive(Clone, Copy)]
pub struct Place {
    pub line: usize,
    pub column: usize,
}

/// A rule: where its name is in the rule text, how long its name is, and its id, if it has these.
#[repr(C)]
#[derive(Clone, Copy)]
pub struct RuleInfo {
    pub name_start: usize,
    pub name_end: usize,
    pub name_len: usize,
    pub id: u32,
    pub has_id: bool,
    pub has_name: bool,
}

/// A name, and the id that the rules of this name are to have.
#[repr(C)]
#[derive(Clone, Copy)]
pub struct NamedId<'a> {
    pub name: &'a [u8],
    pub id: u32,
}

/// A start state: its id, where its name is in the rule text, and how long its name is.
#[repr(C)]
#[derive(Clone, Copy)]
pub struct StateInfo {
    pub id: usize,
    pub name_start: usize,
    pub name_end: usize,
    pub name_len: usize,
    pub exclusive: bool,
}

/// The settings of a rule text. All zero is the usual.
#[repr(C)]
#[derive(Clone, Copy)]
pub struct Options {
    /// About how many bytes a compiled pattern may take; 0 is the usual.
    pub size_limit: usize,
    /// How many rows of tables to make at most, with `limit_tables`.
    pub table_rows: usize,
    /// How much work to spend on tables at most, with `limit_tables`.
    pub table_work: usize,
    /// Which flags are set: bits.
    pub set: u32,
    /// Which of the set flags are on: bits.
    pub on: u32,
    /// How deep a pattern may nest; 0 is the usual.
    pub nest_limit: u32,
    /// Whether `table_rows` and `table_work` limit the tables.
    pub limit_tables: bool,
}
