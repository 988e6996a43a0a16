//! A session: messages from a reader, answers to a writer.
ghost use Rattle.std.specs.Prelude.{IfOk};
ghost use Rattle.lrlex_lsp.specs.Framing.{WritesMessages};

use crate::framing::{Frame, read_frame, write_frame};
use crate::languages::{Language, LanguageFault};
use crate::messages::{NO_JSON, TOO_LONG, refusal};
use crate::server::{Handled, Server, answered, unanswered};
use crate::started::{Given, Next, State};
use crate::uris::file_uri;
use lrlex::LexFlags;
use lrlex_report::WarningKind;
use std::alloc::{AllocError, Global};
use std::io;
use std::io::{Read, Write};

/// What a session is begun with.
#[derive(Drop)]
pub struct Options {
    /// The rule file that all texts but rule files are lexed by: its absolute path or its URI, and its text.
    pub rules: Option<(String, String)>,
    /// What the pieces of these rules are shown as: the name of a rule, and the name of a token type of the protocol (3.17), or
    /// an empty text where they are plain. Other names are guessed at.
    pub map: Vec<(String, String)>,
    /// The flags that rule files are read with.
    pub flags: LexFlags,
    /// The kinds of warnings that aren't told.
    pub allowed: Vec<WarningKind>,
}

/// Why a server ended.
#[derive(Drop)]
enum Ended {
    /// Whether the client had shut it down.
    Done(bool),
    /// The given rules are this text now.
    Rules(State, String),
}

/// Takes what was read.
fn take(
    alloc: Global,
    server: &mut Server<'_>,
    frame: Frame,
    told: &mut Vec<String>,
) -> Result<Handled, AllocError> {
    match frame {
        Frame::Body(body) => server.handle(body.as_slice(), told),
        Frame::TooLong => Ok(answered(refusal(alloc, None, TOO_LONG)?)),
        Frame::Headless => Ok(Handled {
            answer: Some(refusal(alloc, None, NO_JSON)?),
            next: Next::End(false),
        }),
        Frame::End => Ok(unanswered(Next::End(false))),
    }
}

/// Writes what was told, and forgets it.
fn write_told<W: Write>(alloc: Global, writer: &mut W, told: &mut Vec<String>) -> io::Result<()>
    ensures { IfOk result (λ _. WritesMessages (W.contents writer.old) (W.contents writer.new)) }
{
    for body in told.iter() {
        write_frame(alloc, writer, body)?;
    }
    told.clear();
    Ok(())
}

/// Takes one message, writes what comes of it, and says what is next.
fn turn<R: Read, W: Write>(
    alloc: Global,
    reader: &mut R,
    writer: &mut W,
    server: &mut Server<'_>,
) -> io::Result<Next>
    ensures { IfOk result (λ _. WritesMessages (W.contents writer.old) (W.contents writer.new)) }
{
    let mut told = Vec::new(alloc);
    let frame = read_frame(alloc, reader)?;
    let handled = take(alloc, server, frame, &mut told)?;
    if let Some(body) = &handled.answer {
        write_frame(alloc, writer, body)?;
    }
    write_told(alloc, writer, &mut told)?;
    Ok(handled.next)
}

/// A server, with what it tells of the texts that are open written.
fn begun<'d, W: Write>(
    alloc: Global,
    writer: &mut W,
    given: Given<'d>,
    state: State,
) -> io::Result<Server<'d>>
    ensures { IfOk result (λ _. WritesMessages (W.contents writer.old) (W.contents writer.new)) }
{
    let mut told = Vec::new(alloc);
    let server = Server::new(alloc, given, state, &mut told)?;
    write_told(alloc, writer, &mut told)?;
    Ok(server)
}

/// Serves until the input ends, the client ends it or the given rules change.
fn serve_over<R: Read, W: Write>(
    alloc: Global,
    reader: &mut R,
    writer: &mut W,
    given: Given<'_>,
    state: State,
) -> io::Result<Ended>
    ensures { IfOk result (λ _. WritesMessages (W.contents writer.old) (W.contents writer.new)) }
{
    let mut server = begun(alloc, writer, given, state)?;
    'turns: for _ in 0..u64::MAX {
        match turn(alloc, reader, writer, &mut server)? {
            Next::GoOn => {}
            Next::End(is_clean) => return Ok(Ended::Done(is_clean)),
            Next::Rules(text) => return Ok(Ended::Rules(server.close()?, text)),
        }
    }
    Ok(Ended::Done(false))
}

/// The language of the given rules, if there are any and they have no faults.
fn language_of(
    alloc: Global,
    rules: Option<&str>,
    options: &Options,
) -> Result<Option<Language>, AllocError> {
    let Some(rules) = rules else {
        return Ok(None);
    };
    match Language::from_rules(alloc, rules, options.flags, options.map.as_slice()) {
        Ok(language) => Ok(Some(language)),
        Err(LanguageFault::OutOfMemory) => Err(AllocError),
        Err(LanguageFault::Rules(_)) => Ok(None),
    }
}

/// A language whose rules have no faults.
fn faultless(language: Result<Language, LanguageFault>) -> Result<Language, AllocError> {
    match language {
        Ok(language) => Ok(language),
        Err(_) => Err(AllocError),
    }
}

/// The URI of the given rule file, or an empty text.
fn rules_uri(alloc: Global, options: &Options) -> Result<String, AllocError> {
    match &options.rules {
        Some((path, _)) if path.starts_with('/') => file_uri(alloc, path),
        Some((uri, _)) => uri.clone(),
        None => Ok(String::new(alloc)),
    }
}

/// The text of the given rule file, as it is at the beginning.
fn first_rules(options: &Options) -> Result<Option<String>, AllocError> {
    match &options.rules {
        Some((_, text)) => Ok(Some(text.clone()?)),
        None => Ok(None),
    }
}

/// What stays the same in a session.
#[derive(Drop)]
struct Base {
    /// The language of rule files.
    own: Language,
    /// The language without rules.
    bare: Language,
    /// The URI of the given rule file, or an empty text.
    uri: String,
}

/// What stays the same in a session of these options.
fn base_of(alloc: Global, options: &Options) -> Result<Base, AllocError> {
    let uri = rules_uri(alloc, options)?;
    let own = faultless(Language::of_rules(alloc))?;
    let bare = faultless(Language::without_rules(alloc))?;
    Ok(Base { own, bare, uri })
}

/// Serves as `serve_over` does, where this is the language of the given rules.
fn serve_by<R: Read, W: Write>(
    alloc: Global,
    reader: &mut R,
    writer: &mut W,
    base: &Base,
    options: &Options,
    language: Option<&Language>,
    state: State,
) -> io::Result<Ended>
    ensures { IfOk result (λ _. WritesMessages (W.contents writer.old) (W.contents writer.new)) }
{
    let given = Given {
        own: &base.own,
        bare: &base.bare,
        language,
        uri: &base.uri,
        flags: options.flags,
        allowed: options.allowed.as_slice(),
    };
    serve_over(alloc, reader, writer, given, state)
}

/// Serves as `serve_over` does, where this is the text of the given rules, if there are any.
fn serve_from<R: Read, W: Write>(
    alloc: Global,
    reader: &mut R,
    writer: &mut W,
    base: &Base,
    options: &Options,
    rules: Option<&str>,
    state: State,
) -> io::Result<Ended>
    ensures { IfOk result (λ _. WritesMessages (W.contents writer.old) (W.contents writer.new)) }
{
    let language = language_of(alloc, rules, options)?;
    serve_by(
        alloc,
        reader,
        writer,
        base,
        options,
        language.as_ref(),
        state,
    )
}

/// Serves until the input ends or the client ends it, and says whether the client had shut the server down before.
fn serve_all<R: Read, W: Write>(
    alloc: Global,
    reader: &mut R,
    writer: &mut W,
    base: &Base,
    options: &Options,
) -> io::Result<bool>
    ensures { IfOk result (λ _. WritesMessages (W.contents writer.old) (W.contents writer.new)) }
{
    let mut rules = first_rules(options)?;
    let mut state = State::new(alloc);
    'rules: for _ in 0..u64::MAX {
        match serve_from(
            alloc,
            reader,
            writer,
            base,
            options,
            rules.as_deref(),
            state,
        )? {
            Ended::Done(is_clean) => return Ok(is_clean),
            Ended::Rules(kept, text) => {
                state = kept;
                rules = Some(text);
            }
        }
    }
    Ok(false)
}

/// Serves until the input ends or the client ends it, and says whether the client had shut the server down before. Where the given
/// rules change, all texts are lexed by the new ones. It writes whole messages. It fails where memory runs out, or the reader or the
/// writer fails, which may leave a message in part.
pub fn serve<R: Read, W: Write>(
    alloc: Global,
    reader: &mut R,
    writer: &mut W,
    options: Options,
) -> io::Result<bool>
    ensures { IfOk result (λ _. WritesMessages (W.contents writer.old) (W.contents writer.new)) }
{
    let base = base_of(alloc, &options)?;
    serve_all(alloc, reader, writer, &base, &options)
}
