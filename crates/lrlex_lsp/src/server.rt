//! What is answered to each message.
ghost use Rattle.std.specs.Prelude.{◌≡◌, IfOk, IsSome, IsNone, IsUtf8, Some};
ghost use Rattle.serde_json.specs.Data.{Data};
ghost use Rattle.serde_json.specs.Read.{read};
ghost use Rattle.serde_json.specs.View.{view};
ghost use Rattle.lrlex_lsp.specs.Messages.{IsAnswer, IsNotification, IsRequest};
ghost use Rattle.lrlex_lsp.specs.Servers.{GoesOnFrom, IsLeftBy};

use crate::capabilities::initialized;
use crate::messages::{
    BAD_PARAMS, Call, Fault, NO_JSON, NO_METHOD, NO_REQUEST, NOT_INITIALIZED, answer, call_of,
    refusal, warning,
};
use crate::opened::Asked;
use crate::params::{client_of, is_rule_file, range_of, text_at, uri_of, version_of};
use crate::started::{Given, Next, Phase, State};
use crate::surrogates::paired;
use crate::texts::Texts;
use serde_json::Value;
use std::alloc::{AllocError, Global};

/// What comes of a message.
#[derive(Drop)]
pub struct Handled {
    /// The body of the answer to a request. Notifications and the client's own answers have none.
    pub answer: Option<String>,
    pub next: Next,
}

/// The answers to messages, over languages that don't change.
#[derive(Drop)]
pub struct Server<'d> {
    alloc: Global,
    phase: Phase,
    texts: Texts<'d>,
}

impl<'d> Server<'d> {
    /// A server that goes on from a state. What is told of the texts that are open is added to `told`, as bodies of messages.
    pub fn new(
        alloc: Global,
        given: Given<'d>,
        state: State,
        told: &mut Vec<String>,
    ) -> Result<Server<'d>, AllocError>
        ensures { IfOk result (GoesOnFrom state) }
    {
        let State {
            phase,
            client,
            counts,
            kept,
            saved,
        } = state;
        let mut texts = Texts::new(alloc, given, client, counts, saved);
        texts.reopen(kept, told)?;
        let server = Server {
            alloc,
            phase,
            texts,
        };
        if phase == Phase::Serving {
            server.tell_lack(told)?;
        }
        Ok(server)
    }

    /// What a server over other languages goes on from.
    pub fn close(self) -> Result<State, AllocError>
        ensures { IfOk result (IsLeftBy self.entry) }
    {
        let Server {
            alloc: _,
            phase,
            mut texts,
        } = self;
        let client = texts.client;
        let counts = texts.counts;
        let saved = texts.saved.take();
        let kept = texts.close()?;
        Ok(State {
            phase,
            client,
            counts,
            kept,
            saved,
        })
    }

    /// Tells the user that the given rules have faults, if they do: then no text is lexed by them.
    fn tell_lack(&self, told: &mut Vec<String>) -> Result<(), AllocError> {
        if self.texts.lacks_language() {
            told.push(warning(
                self.alloc,
                "window/showMessage",
                "The rule file has faults, so no text is lexed by it. Open it to see them",
            )?)?;
        }
        Ok(())
    }

    fn did_open(&mut self, message: &Value, told: &mut Vec<String>) -> Result<Next, AllocError> {
        let text = text_at(message, "/params/textDocument/text");
        let (Some(uri), Some(text)) = (uri_of(message), text) else {
            return Ok(Next::GoOn);
        };
        let language = text_at(message, "/params/textDocument/languageId");
        let is_rules = is_rule_file(uri, language);
        self.texts.open(uri, is_rules, text, version_of(message))?;
        self.texts.tell_opened(uri, told)
    }

    fn did_save(&mut self, message: &Value) -> Result<Next, AllocError> {
        if let Some(uri) = uri_of(message) {
            self.texts.note_saved(uri)?;
        }
        Ok(Next::GoOn)
    }

    fn did_close(&mut self, message: &Value, told: &mut Vec<String>) -> Result<Next, AllocError> {
        match uri_of(message) {
            Some(uri) => self.texts.close_one(uri, told),
            None => Ok(Next::GoOn),
        }
    }

    fn did_change(&mut self, message: &Value, told: &mut Vec<String>) -> Result<Next, AllocError> {
        let changes = message.pointer("/params/contentChanges");
        let (Some(uri), Some(changes)) = (uri_of(message), changes.and_then(Value::as_array)) else {
            return Ok(Next::GoOn);
        };
        if !self.texts.change(uri, changes, version_of(message))? {
            told.push(warning(
                self.alloc,
                "window/logMessage",
                "A change doesn't fit the document, which is as it was before it",
            )?)?;
        }
        self.texts.tell_changed(uri, told)
    }

    /// Takes a notification.
    fn notified(
        &mut self,
        method: &str,
        message: &Value,
        told: &mut Vec<String>,
    ) -> Result<Next, AllocError> {
        match (self.phase, method) {
            (phase, "exit") => Ok(Next::End(phase == Phase::ShutDown)),
            (Phase::Serving, "initialized") => {
                self.tell_lack(told)?;
                Ok(Next::GoOn)
            }
            (Phase::Serving, "textDocument/didOpen") => self.did_open(message, told),
            (Phase::Serving, "textDocument/didChange") => self.did_change(message, told),
            (Phase::Serving, "textDocument/didSave") => self.did_save(message),
            (Phase::Serving, "textDocument/didClose") => self.did_close(message, told),
            _ => Ok(Next::GoOn),
        }
    }

    fn initialize(&mut self, id: &Value, message: &Value) -> Result<String, AllocError> {
        let client = client_of(message);
        self.texts.client = client;
        self.phase = Phase::Serving;
        initialized(self.alloc, id, client.encoding)
    }

    /// The answer to a request for tokens.
    fn tokens(&mut self, id: &Value, method: &str, message: &Value) -> Result<String, AllocError> {
        let asked = Asked {
            id,
            answer: self.texts.next_answer(),
            encoding: self.texts.client.encoding,
        };
        let uri = uri_of(message).unwrap_or("");
        let Some(opened) = self.texts.open.get_mut(uri) else {
            return refusal(self.alloc, Some(id), BAD_PARAMS);
        };
        if method == "textDocument/semanticTokens/full" {
            return opened.answer_full(self.alloc, asked);
        }
        if method == "textDocument/semanticTokens/full/delta" {
            let since = text_at(message, "/params/previousResultId").unwrap_or("");
            return opened.answer_delta(self.alloc, asked, since);
        }
        match message.pointer("/params/range").and_then(range_of) {
            Some(range) => opened.answer_range(self.alloc, asked, range),
            None => refusal(self.alloc, Some(id), BAD_PARAMS),
        }
    }

    /// The answer to a request.
    fn requested(
        &mut self,
        id: &Value,
        method: &str,
        message: &Value,
    ) -> Result<String, AllocError> {
        match (self.phase, method) {
            (Phase::Begun, "initialize") => self.initialize(id, message),
            (Phase::Begun, _) => self.refused(id, NOT_INITIALIZED),
            (Phase::ShutDown, _) | (_, "initialize") => self.refused(id, NO_REQUEST),
            (_, "shutdown") => {
                self.phase = Phase::ShutDown;
                answer(self.alloc, id, "null")
            }
            (
                _,
                "textDocument/semanticTokens/full"
                | "textDocument/semanticTokens/full/delta"
                | "textDocument/semanticTokens/range",
            ) => self.tokens(id, method, message),
            _ => self.refused(id, NO_METHOD),
        }
    }

    fn refused(&self, id: &Value, fault: Fault) -> Result<String, AllocError> {
        refusal(self.alloc, Some(id), fault)
    }

    /// Takes a message.
    fn take(&mut self, message: &Value, told: &mut Vec<String>) -> Result<Handled, AllocError>
        ensures request { IfOk result (λ handled. IsRequest (view message.now) → IsSome handled.answer) }
        ensures notification { IfOk result (λ handled. IsNotification (view message.now) → IsNone handled.answer) }
        ensures answer { IfOk result (λ handled. IsAnswer (view message.now) → IsNone handled.answer) }
    {
        match call_of(message) {
            Call::Request(id, method) => Ok(answered(self.requested(id, method, message)?)),
            Call::Notification(method) => Ok(unanswered(self.notified(method, message, told)?)),
            Call::Answer => Ok(unanswered(Next::GoOn)),
            Call::Malformed => Ok(answered(refusal(self.alloc, message.get("id"), NO_REQUEST)?)),
        }
    }

    /// What comes of a body that isn't JSON.
    fn refused_body(&self) -> Result<Handled, AllocError>
        ensures { IfOk result (λ handled. IsSome handled.answer) }
    {
        Ok(answered(refusal(self.alloc, None, NO_JSON)?))
    }

    /// Takes a body that isn't JSON as it is. It may be where half a pair of surrogates is read as U+FFFD.
    fn take_paired(&mut self, body: &str, told: &mut Vec<String>) -> Result<Handled, AllocError> {
        let paired = paired(self.alloc, body.as_bytes())?;
        match Value::from_slice(self.alloc, &paired) {
            Ok(mended) => self.take(&mended, told),
            Err(fault) if fault.is_memory() => Err(AllocError),
            Err(_) => self.refused_body(),
        }
    }

    /// Takes the body of a message, and gives the body of its answer. The bodies of notifications and of requests of the server's
    /// own are added to `told`.
    pub fn handle(&mut self, body: &[u8], told: &mut Vec<String>) -> Result<Handled, AllocError>
        ensures request { IfOk result (λ handled. (message : Data) → read body.now ≡ Some message
            → IsRequest message → IsSome handled.answer) }
        ensures notification { IfOk result (λ handled. (message : Data) → IsUtf8 body.now
            → read body.now ≡ Some message → IsNotification message → IsNone handled.answer) }
        ensures answer { IfOk result (λ handled. (message : Data) → IsUtf8 body.now
            → read body.now ≡ Some message → IsAnswer message → IsNone handled.answer) }
    {
        match Value::from_slice(self.alloc, body) {
            Ok(message) => self.take(&message, told),
            Err(fault) if fault.is_memory() => Err(AllocError),
            Err(_) => match str::from_utf8(body) {
                Ok(body) => self.take_paired(body, told),
                Err(_) => self.refused_body(),
            },
        }
    }
}

/// What comes of a message that isn't answered.
pub(crate) fn unanswered(next: Next) -> Handled
    ensures { IsNone result.answer }
{
    Handled { answer: None, next }
}

/// What comes of a message that is only answered.
pub(crate) fn answered(body: String) -> Handled
    ensures { IsSome result.answer }
{
    Handled {
        answer: Some(body),
        next: Next::GoOn,
    }
}
