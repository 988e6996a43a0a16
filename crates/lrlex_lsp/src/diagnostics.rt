//! What is told of a document.
use crate::findings::push_findings;
use crate::json::quoted;
use crate::languages::Types;
use crate::opened::Opened;
use crate::started::{Client, Given};
use crate::tokens::{ends_line, width};
use lrlex::{Document, PositionEncoding, Span};
use std::alloc::{AllocError, Global};
use std::fmt::Write;

/// How a finding is told.
#[derive(Clone, Copy)]
pub(crate) enum Weight {
    Fault,
    Warning,
    /// A warning of what does nothing, which editors fade.
    Unnecessary,
    /// What may be meant.
    Note,
    /// What could be better.
    Hint,
}

/// What is found of a part of a text.
#[derive(Clone, Copy)]
pub(crate) struct Finding<'m> {
    pub(crate) weight: Weight,
    pub(crate) span: Span,
    pub(crate) message: &'m str,
    /// The name of its kind, or an empty text.
    pub(crate) code: &'static str,
    /// Where something that is declared again stands first.
    pub(crate) first: Option<Span>,
}

/// The positions of a span's ends.
type Ends = ((usize, usize), (usize, usize));

/// A byte of a document whose position is known.
#[derive(Clone, Copy)]
struct Known {
    byte: usize,
    position: (usize, usize),
}

/// The notification of what is found of a document, to which one finding after the other is added.
#[derive(Drop)]
pub(crate) struct Report<'p, 'd> {
    alloc: Global,
    document: &'p Document<'d, Types>,
    client: Client,
    /// The document's URI as JSON has it.
    uri: &'p str,
    text: String,
    /// What stands before the next finding.
    before: &'static str,
    /// Where the last finding begins, and what stands first that was told last.
    last: Known,
    last_first: Known,
}

/// The text's beginning.
const BEGIN: Known = Known {
    byte: 0,
    position: (0, 0),
};

impl Known {
    /// Goes to a byte, and gives its position. In the line of the byte before, what is between is counted, so that many findings
    /// in one long line take one walk.
    fn go(
        &mut self,
        document: &Document<'_, Types>,
        encoding: PositionEncoding,
        byte: usize,
    ) -> (usize, usize) {
        let (line, column) = self.position;
        self.position = match document.text().get(self.byte..byte) {
            Some(part) if !part.bytes().any(ends_line) => {
                (line, column.saturating_add(width(encoding, part)))
            }
            _ => document.position_in(byte, encoding),
        };
        self.byte = byte;
        self.position
    }

    /// Goes to the beginning of a span, and gives the positions of both ends.
    fn ends(
        &mut self,
        document: &Document<'_, Types>,
        encoding: PositionEncoding,
        span: Span,
    ) -> Ends {
        let start = self.go(document, encoding, span.start());
        let mut behind = *self;
        (start, behind.go(document, encoding, span.end()))
    }
}

/// Adds a range, and what stands before it.
fn push_range(text: &mut String, before: &str, ends: Ends) -> Result<(), AllocError> {
    let ((line, column), (end_line, end_column)) = ends;
    write!(
        text,
        "{before}\"range\":{{\"start\":{{\"line\":{line},\"character\":{column}}},\
        \"end\":{{\"line\":{end_line},\"character\":{end_column}}}}}"
    )
}

impl Weight {
    /// The number that the protocol has for it (`DiagnosticSeverity`), and what follows the message.
    fn told(self) -> (&'static str, &'static str) {
        match self {
            Weight::Fault => ("1", ""),
            Weight::Warning => ("2", ""),
            Weight::Unnecessary => ("2", ",\"tags\":[1]"),
            Weight::Note => ("3", ""),
            Weight::Hint => ("4", ""),
        }
    }
}

impl<'p, 'd> Report<'p, 'd> {
    /// Adds the range of a finding, and what stands before it.
    fn push_span(&mut self, span: Span) -> Result<(), AllocError> {
        let ends = self.last.ends(self.document, self.client.encoding, span);
        push_range(&mut self.text, self.before, ends)
    }

    /// Adds the name of a finding's kind, if it has one.
    fn push_code(&mut self, code: &str) -> Result<(), AllocError> {
        if code.is_empty() {
            return Ok(());
        }
        write!(self.text, ",\"code\":\"{code}\"")
    }

    /// Adds how a finding is told, and its message as JSON has it.
    fn push_message(&mut self, weight: Weight, message: &str) -> Result<(), AllocError> {
        let (severity, tags) = weight.told();
        let tags = if self.client.takes_tags { tags } else { "" };
        write!(
            self.text,
            ",\"severity\":{severity},\"source\":\"lrlex\",\"message\":{message}{tags}"
        )
    }

    /// Adds where something that is declared again stands first, if the client takes that. `INITIAL`, which no text declares, has
    /// an empty span.
    fn push_first(&mut self, span: Span) -> Result<(), AllocError> {
        if span.len() == 0 || !self.client.takes_places {
            return Ok(());
        }
        self.text
            .push_str(",\"relatedInformation\":[{\"location\":{\"uri\":")?;
        self.text.push_str(self.uri)?;
        let ends = self
            .last_first
            .ends(self.document, self.client.encoding, span);
        push_range(&mut self.text, ",", ends)?;
        self.text.push_str("},\"message\":\"first here\"}]")
    }

    /// Adds a finding.
    pub(crate) fn push(&mut self, finding: Finding<'_>) -> Result<(), AllocError> {
        let message = quoted(self.alloc, finding.message)?;
        self.push_span(finding.span)?;
        self.push_code(finding.code)?;
        self.push_message(finding.weight, &message)?;
        if let Some(first) = finding.first {
            self.push_first(first)?;
        }
        self.before = ",{";
        self.text.push_str("}")
    }
}

/// Begins what is told of a document, up to the list of diagnostics. The URI is as JSON has it.
fn begin_told(alloc: Global, uri: &str, version: Option<usize>) -> Result<String, AllocError> {
    let mut text = format!(in alloc;
        "{{\"jsonrpc\":\"2.0\",\"method\":\"textDocument/publishDiagnostics\",\"params\":{{\"uri\":{uri}"
    )?;
    if let Some(version) = version {
        write!(text, ",\"version\":{version}")?;
    }
    text.push_str(",\"diagnostics\":[")?;
    Ok(text)
}

/// The notification of all that was found of a document.
pub(crate) fn told_of(
    alloc: Global,
    uri: &str,
    opened: &Opened<'_>,
    client: Client,
    given: Given<'_>,
) -> Result<String, AllocError> {
    let uri = quoted(alloc, uri)?;
    let mut report = Report {
        alloc,
        document: &opened.document,
        client,
        uri: &uri,
        text: begin_told(alloc, &uri, opened.version)?,
        before: "{",
        last: BEGIN,
        last_first: BEGIN,
    };
    push_findings(alloc, &mut report, &opened.document, opened.role, given)?;
    report.text.push_str("]}}")?;
    Ok(report.text)
}

/// The notification that nothing is told of a document any more.
pub(crate) fn nothing_of(alloc: Global, uri: &str) -> Result<String, AllocError> {
    let uri = quoted(alloc, uri)?;
    let mut text = begin_told(alloc, &uri, None)?;
    text.push_str("]}}")?;
    Ok(text)
}
