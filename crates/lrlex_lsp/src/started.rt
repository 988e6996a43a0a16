//! What a server is begun with, and what outlives it where the given rules change.
ghost use Rattle.std.specs.Prelude.{◌≡◌, []};

use crate::languages::Language;
use lrlex::{LexFlags, PositionEncoding};
use lrlex_report::WarningKind;
use std::alloc::Global;

/// What the server does after a message.
#[derive(Drop)]
pub enum Next {
    GoOn,
    /// It ends. Whether the client had shut it down.
    End(bool),
    /// The given rules are this text now: `close`, and a new server over its language, or without one where it has faults. What is
    /// wrong with the text is told by that one.
    Rules(String),
}

/// How far client and server are.
#[derive(Clone, Copy, PartialEq, Eq)]
pub(crate) enum Phase {
    Begun,
    Serving,
    ShutDown,
}

/// What a server counts, so that no number is given twice.
#[derive(Clone, Copy)]
pub(crate) struct Counts {
    /// How many requests of its own it has made.
    pub(crate) asked: usize,
    /// How many requests for tokens there were.
    pub(crate) told: usize,
}

/// What the client can do.
#[derive(Clone, Copy)]
pub(crate) struct Client {
    pub(crate) encoding: PositionEncoding,
    /// Whether it can ask for all tokens again.
    pub(crate) can_refresh: bool,
    /// Whether it takes where else something is (`relatedInformation`).
    pub(crate) takes_places: bool,
    /// Whether it takes the tag of what does nothing (`tags`).
    pub(crate) takes_tags: bool,
}

/// The languages of a server.
#[derive(Clone, Copy)]
pub struct Given<'d> {
    /// The language of rule files.
    pub own: &'d Language,
    /// A language without rules, for texts while no other is there.
    pub bare: &'d Language,
    /// The language of all other texts, if there is one.
    pub language: Option<&'d Language>,
    /// The URI of that language's rule file, or an empty text.
    pub uri: &'d str,
    /// The flags that rule files are read with.
    pub flags: LexFlags,
    /// The kinds of warnings that aren't told.
    pub allowed: &'d [WarningKind],
}

/// A text between two servers.
#[derive(Drop)]
pub(crate) struct Kept {
    pub(crate) uri: String,
    pub(crate) is_rules: bool,
    pub(crate) text: String,
    pub(crate) version: Option<usize>,
}

/// What outlives a server: how far the client is, and the texts that are open.
#[derive(Drop)]
pub struct State {
    pub(crate) phase: Phase,
    pub(crate) client: Client,
    pub(crate) counts: Counts,
    pub(crate) kept: Vec<Kept>,
    pub(crate) saved: Option<String>,
}

impl State {
    /// That before the first message: no text is open, and columns are counted in UTF-16 until the client says otherwise.
    pub fn new(alloc: Global) -> State
        ensures begun { result.phase ≡ Phase.Begun }
        ensures encoding { result.client.encoding ≡ PositionEncoding.Utf16 }
        ensures texts { result.kept.items ≡ [] }
        ensures saved { result.saved ≡ None }
    {
        State {
            phase: Phase::Begun,
            client: Client {
                encoding: PositionEncoding::Utf16,
                can_refresh: false,
                takes_places: false,
                takes_tags: false,
            },
            counts: Counts { asked: 0, told: 0 },
            kept: Vec::new(alloc),
            saved: None,
        }
    }
}
