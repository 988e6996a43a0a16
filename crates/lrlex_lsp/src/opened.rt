//! A document that a client has opened.
ghost use Rattle.std.specs.Prelude.{◌≡◌, IfOk};
ghost use Rattle.lrlex_lsp.specs.Changes.{replaced};
ghost use Rattle.lrlex_lsp.specs.Servers.{is_rules, kept_as, open_as};

use crate::changes::{NumberEdit, joined};
use crate::json::push_numbers;
use crate::languages::{Language, Types};
use crate::renewal::Part;
use crate::started::Kept;
use crate::tokens::{Tokens, tokens_in};
use lrlex::{Change, Document, PositionEncoding};
use serde_json::Value;
use std::alloc::{AllocError, Global};
use std::fmt::Write;

/// What a document is to the server.
#[derive(Clone, Copy)]
pub(crate) enum Role {
    /// A rule file.
    Rules,
    /// A text of the language that the given rules describe.
    Text,
    /// A text while no rules are there. No piece of it is cut.
    Unlexed,
}

/// A document that a client has opened.
#[derive(Drop)]
pub(crate) struct Opened<'d> {
    pub(crate) role: Role,
    pub(crate) language: &'d Language,
    pub(crate) document: Document<'d, Types>,
    pub(crate) version: Option<usize>,
    /// The tokens that were told last, and the number of that answer, if there was one.
    told: Tokens,
    answer: Option<usize>,
    /// Which pieces have changed since, if any.
    since: Option<Change>,
}

/// A request for tokens, to be answered by the answer of this number.
#[derive(Clone, Copy)]
pub(crate) struct Asked<'v> {
    pub(crate) id: &'v Value,
    pub(crate) answer: usize,
    pub(crate) encoding: PositionEncoding,
}

impl<'d> Opened<'d> {
    /// A document of this text.
    pub(crate) fn new(
        alloc: Global,
        role: Role,
        language: &'d Language,
        text: &str,
        version: Option<usize>,
    ) -> Result<Opened<'d>, AllocError>
        ensures text { IfOk result (λ opened. opened.document.text ≡ text.now) }
        ensures version { IfOk result (λ opened. opened.version ≡ version) }
    {
        let document = Document::new(alloc, language.definition(), text)?;
        Ok(Opened {
            role,
            language,
            document,
            version,
            told: Tokens::none(alloc),
            answer: None,
            since: None,
        })
    }

    /// The document of this URI, without what it is lexed by.
    pub(crate) fn kept(&self, alloc: Global, uri: &str) -> Result<Kept, AllocError>
        ensures known { IfOk result (λ kept. kept_as kept ≡ open_as uri.now self.now) }
        ensures role { IfOk result (λ kept. kept.is_rules ≡ is_rules self.now.role) }
    {
        Ok(Kept {
            uri: String::from_str(alloc, uri)?,
            is_rules: matches!(self.role, Role::Rules),
            text: String::from_str(alloc, self.document.text())?,
            version: self.version,
        })
    }

    /// Notes which pieces the last edit changed.
    pub(crate) fn note_edit(&mut self) {
        let last = self.document.changed().pieces;
        self.since = match self.since {
            Some(since) => Some(joined(since, last)),
            None => Some(last),
        };
    }

    /// The tokens of the pieces that have a byte in `bytes.0..bytes.1`, after a token at the place `last`.
    fn tokens_in(
        &self,
        alloc: Global,
        encoding: PositionEncoding,
        bytes: (usize, usize),
        last: (usize, usize),
    ) -> Result<Tokens, AllocError> {
        match self.role {
            Role::Unlexed => Ok(Tokens::none(alloc)),
            _ => tokens_in(alloc, self.language, &self.document, encoding, bytes, last),
        }
    }

    /// The tokens of a part that is shown anew.
    fn renewed(
        &self,
        alloc: Global,
        encoding: PositionEncoding,
        part: Part,
    ) -> Result<Tokens, AllocError> {
        let end = self.document.end().saturating_sub(part.behind);
        self.tokens_in(alloc, encoding, (part.begin(), end), part.last)
    }

    /// Adds the edit that makes the tokens as they are now of those that were told last, if these aren't the same, and takes the
    /// new ones for told.
    fn push_edits(
        &mut self,
        alloc: Global,
        encoding: PositionEncoding,
        out: &mut String,
    ) -> Result<(), AllocError> {
        if let Some(change) = self.since {
            let part = self.told.part(change);
            let new = self.renewed(alloc, encoding, part)?;
            push_edit(out, self.told.renew(alloc, part, &new)?)?;
            self.since = None;
        }
        Ok(())
    }

    /// The answer with all tokens.
    pub(crate) fn answer_full(
        &mut self,
        alloc: Global,
        asked: Asked<'_>,
    ) -> Result<String, AllocError> {
        let end = self.document.text().len();
        self.told = self.tokens_in(alloc, asked.encoding, (0, end), (0, 0))?;
        self.answer = Some(asked.answer);
        self.since = None;
        let mut out = begin_tokens(alloc, asked, "data")?;
        push_numbers(&mut out, &self.told.numbers)?;
        out.push_str("]}}")?;
        Ok(out)
    }

    /// The answer with what has changed of the tokens since the answer of this number, or, where that wasn't the last one, with all.
    pub(crate) fn answer_delta(
        &mut self,
        alloc: Global,
        asked: Asked<'_>,
        since: &str,
    ) -> Result<String, AllocError> {
        let since = since.parse::<usize>().ok();
        if since.is_none() || since != self.answer {
            return self.answer_full(alloc, asked);
        }
        self.answer = Some(asked.answer);
        let mut out = begin_tokens(alloc, asked, "edits")?;
        self.push_edits(alloc, asked.encoding, &mut out)?;
        out.push_str("]}}")?;
        Ok(out)
    }

    /// The tokens of a range.
    fn in_range(
        &self,
        alloc: Global,
        encoding: PositionEncoding,
        range: ((usize, usize), (usize, usize)),
    ) -> Result<Tokens, AllocError> {
        let document = &self.document;
        let from = document.offset_at(range.0, encoding);
        let to = document.offset_at(range.1, encoding);
        self.tokens_in(alloc, encoding, (from, to), (0, 0))
    }

    /// The answer with the tokens of a range.
    pub(crate) fn answer_range(
        &self,
        alloc: Global,
        asked: Asked<'_>,
        range: ((usize, usize), (usize, usize)),
    ) -> Result<String, AllocError> {
        let tokens = self.in_range(alloc, asked.encoding, range)?;
        let id = asked.id;
        let mut out = format!(in alloc;
            "{{\"jsonrpc\":\"2.0\",\"id\":{id},\"result\":{{\"data\":["
        )?;
        push_numbers(&mut out, &tokens.numbers)?;
        out.push_str("]}}")?;
        Ok(out)
    }
}

/// Begins an answer that later ones are told against, up to its list of this name.
fn begin_tokens(alloc: Global, asked: Asked<'_>, name: &str) -> Result<String, AllocError> {
    let (id, answer) = (asked.id, asked.answer);
    format!(in alloc;
        "{{\"jsonrpc\":\"2.0\",\"id\":{id},\"result\":{{\"resultId\":\"{answer}\",\"{name}\":["
    )
}

/// Adds an edit, unless it leaves all as it is.
fn push_edit(out: &mut String, edit: NumberEdit<'_>) -> Result<(), AllocError> {
    let (start, removed) = (edit.start, edit.removed);
    if removed == 0 && edit.put.is_empty() {
        return Ok(());
    }
    write!(
        out,
        "{{\"start\":{start},\"deleteCount\":{removed},\"data\":["
    )?;
    push_numbers(out, edit.put)?;
    out.push_str("]}")
}
