//! Findings as lines of JSON.
use crate::check::findings::Findings;
use crate::output::json_of;
use lrlex::{LexBuildError, LineCursor, Span, Spanned};
use lrlex_report::{Warning, fault_message, fault_name, fault_range};
use serde::Serialize;
use std::alloc::{AllocError, Global};
use std::fmt::Write;

/// A part of a text. Bytes count from 0, lines and columns from 1, columns in characters.
#[derive(Clone, Copy, Serialize)]
struct Place {
    start: usize,
    end: usize,
    line: usize,
    column: usize,
    end_line: usize,
    end_column: usize,
}

/// A finding.
#[derive(Drop, Serialize)]
struct Line<'a> {
    file: &'a str,
    severity: &'static str,
    kind: &'static str,
    message: &'a str,
    place: Place,
    /// Where something that is declared again stands first.
    first: Option<Place>,
}

/// The place of a span. The cursor moves to its end.
fn place_of(cursor: &mut LineCursor<'_>, span: Span) -> Place {
    let (line, column) = cursor.place(span.start());
    let (end_line, end_column) = cursor.place(span.end());
    Place {
        start: span.start(),
        end: span.end(),
        line,
        column,
        end_line,
        end_column,
    }
}

/// A rule text with the name of its file, and the lines of its findings so far.
#[derive(Drop)]
struct Lines<'a> {
    alloc: Global,
    file: &'a str,
    text: &'a str,
    /// Where the last finding is.
    cursor: LineCursor<'a>,
    /// Where the last finding's first place is.
    first_cursor: LineCursor<'a>,
    told: String,
}

impl Lines<'_> {
    /// Where something is declared. `INITIAL`, which no text declares, has an empty span.
    fn declared(&mut self, span: Span) -> Option<Place> {
        if span.len() == 0 {
            None
        } else {
            Some(place_of(&mut self.first_cursor, span))
        }
    }

    /// Adds the line of a finding.
    fn push(&mut self, line: &Line<'_>) -> Result<(), AllocError> {
        let json = json_of(self.alloc, line)?;
        writeln!(self.told, "{json}")
    }

    /// Adds the lines of a fault: of a duplicate one for each place but the first.
    fn push_fault(&mut self, fault: &LexBuildError) -> Result<(), AllocError> {
        let Some((first, others)) = fault.spans().split_first() else {
            return Ok(());
        };
        let message = fault_message(self.alloc, self.text, fault)?;
        let mut line = Line {
            file: self.file,
            severity: "fault",
            kind: fault_name(fault),
            message: &message,
            place: place_of(&mut self.cursor, fault_range(self.text, fault)),
            first: None,
        };
        if others.is_empty() {
            return self.push(&line);
        }
        line.first = self.declared(*first);
        for other in others {
            line.place = place_of(&mut self.cursor, *other);
            self.push(&line)?;
        }
        Ok(())
    }

    /// Adds the line of a warning.
    fn push_warning(&mut self, warning: &Warning) -> Result<(), AllocError> {
        let kind = warning.kind();
        let line = Line {
            file: self.file,
            severity: "warning",
            kind: kind.name(),
            message: kind.message(),
            place: place_of(&mut self.cursor, warning.span()),
            first: None,
        };
        self.push(&line)
    }

    /// Adds the lines of all findings.
    fn push_all(&mut self, findings: &Findings) -> Result<(), AllocError> {
        match findings {
            Findings::Faults(faults) => {
                for fault in faults {
                    self.push_fault(fault)?;
                }
            }
            Findings::Warnings(warnings) => {
                for warning in warnings {
                    self.push_warning(warning)?;
                }
            }
        }
        Ok(())
    }
}

/// The findings of a rule text of this file, each as a line of JSON.
pub fn lines_of(
    alloc: Global,
    file: &str,
    text: &str,
    findings: &Findings,
) -> Result<String, AllocError> {
    let mut lines = Lines {
        alloc,
        file,
        text,
        cursor: LineCursor::new(text),
        first_cursor: LineCursor::new(text),
        told: String::new(alloc),
    };
    lines.push_all(findings)?;
    Ok(lines.told)
}
