//! The documents that are open.
ghost use Rattle.std.specs.Prelude.{◌≡◌, ◌<◌, ◌+◌, ◌^◌, [], IfOk, OnOk, fold, map};
ghost use Rattle.lrlex_lsp.specs.Servers.{KeepsClient, all_open, all_roles, kept_as, put};

use crate::diagnostics::{nothing_of, told_of};
use crate::edits::make_change;
use crate::languages::{Definition, Language};
use crate::messages::request;
use crate::opened::{Opened, Role};
use crate::started::{Client, Counts, Given, Kept, Next};
use crate::uris::is_same_file;
use serde_json::Value;
use std::alloc::{AllocError, Global};
use std::collections::BTreeMap;

/// The documents that are open, by their URIs.
#[derive(Drop)]
pub(crate) struct Texts<'d> {
    alloc: Global,
    given: Given<'d>,
    pub(crate) client: Client,
    pub(crate) counts: Counts,
    pub(crate) open: BTreeMap<String, Opened<'d>>,
    /// The rules that held when the file of the given rules was opened or last saved, while it is open.
    pub(crate) saved: Option<String>,
}

/// The next number.
fn counted(count: &mut usize) -> usize
    ensures next { count.old + 1 < 2 ^ 64 → result ≡ count.old + 1 }
    ensures count { count.new ≡ result }
{
    *count = count.saturating_add(1);
    *count
}

impl<'d> Texts<'d> {
    /// No documents yet.
    pub(crate) fn new(
        alloc: Global,
        given: Given<'d>,
        client: Client,
        counts: Counts,
        saved: Option<String>,
    ) -> Texts<'d>
        ensures client { result.client ≡ client }
        ensures counts { result.counts ≡ counts }
        ensures saved { result.saved ≡ saved }
        ensures open { result.open.entries ≡ [] }
    {
        Texts {
            alloc,
            given,
            client,
            counts,
            open: BTreeMap::new(alloc),
            saved,
        }
    }

    /// Whether there are given rules, but no language of theirs.
    pub(crate) fn lacks_language(&self) -> bool {
        !self.given.uri.is_empty() && self.given.language.is_none()
    }

    /// Opens what was open before, and tells what is wrong with each document.
    pub(crate) fn reopen(
        &mut self,
        kept: Vec<Kept>,
        told: &mut Vec<String>,
    ) -> Result<(), AllocError>
        ensures client { KeepsClient self.old self.new }
        ensures opens { OnOk result (all_open self.new.open.entries
            ≡ fold put (all_open self.old.open.entries) (map kept_as kept.items)) }
    {
        for text in &kept {
            self.open(&text.uri, text.is_rules, &text.text, text.version)?;
            self.tell(&text.uri, told)?;
        }
        if self.client.can_refresh && !kept.is_empty() {
            let number = counted(&mut self.counts.asked);
            let body = request(self.alloc, number, "workspace/semanticTokens/refresh")?;
            told.push(body)?;
        }
        Ok(())
    }

    /// The documents, without what they are lexed by.
    pub(crate) fn close(self) -> Result<Vec<Kept>, AllocError>
        ensures texts { IfOk result (λ kept. map kept_as kept.items ≡ all_open self.entry.open.entries) }
        ensures roles { IfOk result (λ kept. map (λ it. it.is_rules) kept.items ≡ all_roles self.entry.open.entries) }
    {
        let mut all = Vec::new(self.alloc);
        for (uri, opened) in self.open.iter() {
            all.push(opened.kept(self.alloc, uri)?)?;
        }
        Ok(all)
    }

    /// Whether this is the file of the given rules. None is where there are none.
    fn is_given(&self, uri: &str) -> Result<bool, AllocError> {
        if self.given.uri.is_empty() {
            return Ok(false);
        }
        is_same_file(self.alloc, uri, self.given.uri)
    }

    /// What a document is, and what it is lexed by.
    fn role_of(&self, uri: &str, is_rules: bool) -> Result<(Role, &'d Language), AllocError> {
        if is_rules || self.is_given(uri)? {
            return Ok((Role::Rules, self.given.own));
        }
        match self.given.language {
            Some(given) => Ok((Role::Text, given)),
            None => Ok((Role::Unlexed, self.given.bare)),
        }
    }

    /// Opens a document.
    pub(crate) fn open(
        &mut self,
        uri: &str,
        is_rules: bool,
        text: &str,
        version: Option<usize>,
    ) -> Result<(), AllocError>
        ensures client { KeepsClient self.old self.new }
        ensures opens { OnOk result (all_open self.new.open.entries ≡ put (all_open self.old.open.entries)
            (record { uri = uri.now; text = text.now; version = version })) }
    {
        let (role, language) = self.role_of(uri, is_rules)?;
        let name = String::from_str(self.alloc, uri)?;
        let opened = Opened::new(self.alloc, role, language, text, version)?;
        self.open.insert(name, opened)?;
        Ok(())
    }

    /// Makes changes of a document, one after the other, and says whether all fit. One that doesn't fit changes nothing.
    pub(crate) fn change(
        &mut self,
        uri: &str,
        changes: &[Value],
        version: Option<usize>,
    ) -> Result<bool, AllocError> {
        let Some(opened) = self.open.get_mut(uri) else {
            return Ok(true);
        };
        let mut all_fit = true;
        for change in changes {
            if make_change(
                self.alloc,
                &mut opened.document,
                self.client.encoding,
                change,
            )? {
                opened.note_edit();
            } else {
                all_fit = false;
            }
        }
        opened.version = version;
        Ok(all_fit)
    }

    /// The number of an answer with tokens, which no other has: neither one of this document nor of another, open or closed.
    pub(crate) fn next_answer(&mut self) -> usize
        ensures next { self.old.counts.told + 1 < 2 ^ 64 → result ≡ self.old.counts.told + 1 }
        ensures count { self.new.counts.told ≡ result }
    {
        counted(&mut self.counts.told)
    }

    /// The rules that hold where they aren't those that hold now, if this is the file of the given rules, which was closed.
    fn rules_of_closed(&mut self, uri: &str) -> Result<Next, AllocError> {
        if !self.is_given(uri)? {
            return Ok(Next::GoOn);
        }
        let (Some(rules), Some(now)) = (self.saved.take(), self.given.language) else {
            return Ok(Next::GoOn);
        };
        if now.is_of(&rules, self.given.flags) {
            Ok(Next::GoOn)
        } else {
            Ok(Next::Rules(rules))
        }
    }

    /// Closes a document, and tells that nothing is wrong with it any more. If it is the file of the given rules, those hold again
    /// that held when it was opened or last saved.
    pub(crate) fn close_one(
        &mut self,
        uri: &str,
        told: &mut Vec<String>,
    ) -> Result<Next, AllocError> {
        if self.open.remove(uri).is_none() {
            return Ok(Next::GoOn);
        }
        told.push(nothing_of(self.alloc, uri)?)?;
        self.rules_of_closed(uri)
    }

    /// Tells what is wrong with a document, if it is open.
    fn tell(&self, uri: &str, told: &mut Vec<String>) -> Result<(), AllocError> {
        if let Some(opened) = self.open.get(uri) {
            let body = told_of(self.alloc, uri, opened, self.client, self.given)?;
            told.push(body)?;
        }
        Ok(())
    }

    /// The text of a document, if it is the file of the given rules.
    fn given_text(&self, uri: &str) -> Result<Option<String>, AllocError> {
        match self.open.get(uri) {
            Some(opened) if self.is_given(uri)? => {
                Ok(Some(String::from_str(self.alloc, opened.document.text())?))
            }
            _ => Ok(None),
        }
    }

    /// Whether a text has no faults, and the given rules weren't read from it.
    fn gives_anew(&self, rules: &str) -> Result<bool, AllocError> {
        let flags = self.given.flags;
        match self.given.language {
            Some(now) if now.is_of(rules, flags) => Ok(false),
            _ => Ok(Definition::all_faults(self.alloc, rules, flags)?.is_empty()),
        }
    }

    /// Tells what is wrong with a document, unless it gives the given rules anew. Then it is told by them.
    pub(crate) fn tell_changed(
        &self,
        uri: &str,
        told: &mut Vec<String>,
    ) -> Result<Next, AllocError> {
        if let Some(text) = self.given_text(uri)? {
            if self.gives_anew(&text)? {
                return Ok(Next::Rules(text));
            }
        }
        self.tell(uri, told)?;
        Ok(Next::GoOn)
    }

    /// The rules that hold now, as a text: where none do, that of their file, which has faults.
    fn rules_now(&self, file: String) -> Result<String, AllocError> {
        match self.given.language {
            Some(language) => String::from_str(self.alloc, language.rules()),
            None => Ok(file),
        }
    }

    /// Notes which rules hold when a document was saved, if it is their file.
    pub(crate) fn note_saved(&mut self, uri: &str) -> Result<(), AllocError> {
        if let Some(text) = self.given_text(uri)? {
            self.saved = Some(self.rules_now(text)?);
        }
        Ok(())
    }

    /// Tells what is wrong with a document that was opened, unless it gives the given rules anew.
    pub(crate) fn tell_opened(
        &mut self,
        uri: &str,
        told: &mut Vec<String>,
    ) -> Result<Next, AllocError> {
        let next = self.tell_changed(uri, told)?;
        match &next {
            Next::Rules(text) => self.saved = Some(text.clone()?),
            _ => self.note_saved(uri)?,
        }
        Ok(next)
    }
}
