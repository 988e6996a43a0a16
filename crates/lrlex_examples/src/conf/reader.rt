//! Reads the tokens of a configuration.
use crate::rules::{Definition, Types};
use lrlex::{DefaultLexeme, LRLexError, LRNonStreamingLexer, LexError, Lexeme, Lexer};
use std::alloc::{AllocError, AllocFailed, Global};
use std::fmt::Write;

/// Where a configuration is wrong, and why.
#[derive(Clone, Copy)]
pub struct Fault {
    /// Line and column, from 1.
    pub place: (usize, usize),
    pub why: &'static str,
}

/// Why a token wasn't taken.
#[derive(Clone, Copy)]
enum Refusal {
    Wrong(&'static str),
    Memory,
}

impl From<AllocError> for Refusal {
    fn from(_fault: AllocError) -> Refusal {
        Refusal::Memory
    }
}

impl<T: Drop> From<AllocFailed<T>> for Refusal {
    fn from(_fault: AllocFailed<T>) -> Refusal {
        Refusal::Memory
    }
}

/// A configuration that is read so far.
#[derive(Drop)]
struct Reader<'t> {
    /// The names of the sections that are open, the innermost last.
    sections: Vec<&'t str>,
    /// A name that a value or a section has to follow.
    name: Option<&'t str>,
    /// The value of an entry that isn't at its end.
    value: Option<String>,
    /// The whole entries, a line each.
    entries: String,
}

/// What an escape stands for.
fn escaped(text: &str) -> &'static str {
    match text {
        "\\n" => "\n",
        "\\t" => "\t",
        "\\\"" => "\"",
        _ => "\\",
    }
}

impl<'t> Reader<'t> {
    /// Takes a name.
    fn take_name(&mut self, text: &'t str) -> Result<(), Refusal> {
        match self.name.replace(text) {
            Some(_) => Err(Refusal::Wrong("expected = or {")),
            None => Ok(()),
        }
    }

    /// Begins what the name is of.
    fn need_name(&self) -> Result<(), Refusal> {
        match self.name {
            Some(_) => Ok(()),
            None => Err(Refusal::Wrong("expected a name")),
        }
    }

    /// Opens the section of the name.
    fn open(&mut self) -> Result<(), Refusal> {
        match self.name.take() {
            Some(name) => Ok(self.sections.push(name)?),
            None => Err(Refusal::Wrong("expected a name")),
        }
    }

    /// Closes the innermost section.
    fn close(&mut self) -> Result<(), Refusal> {
        self.sections.pop();
        match self.name {
            Some(_) => Err(Refusal::Wrong("expected = or {")),
            None => Ok(()),
        }
    }

    /// Begins a value with this text.
    fn begin(&mut self, alloc: Global, text: &str) -> Result<(), Refusal> {
        if self.value.is_some() {
            return Err(Refusal::Wrong("expected the end of the line"));
        }
        self.value = Some(String::from_str(alloc, text)?);
        Ok(())
    }

    /// Adds to a value.
    fn add(&mut self, text: &str) -> Result<(), Refusal> {
        match &mut self.value {
            Some(value) => Ok(value.push_str(text)?),
            None => Err(Refusal::Wrong("expected a value")),
        }
    }

    /// Writes an entry, behind the names of its sections.
    fn write(&mut self, name: &str, value: &str) -> Result<(), AllocError> {
        for section in &self.sections {
            write!(self.entries, "{section}.")?;
        }
        writeln!(self.entries, "{name} = {value}")
    }

    /// Ends an entry.
    fn end(&mut self) -> Result<(), Refusal> {
        match (self.name.take(), self.value.take()) {
            (Some(name), Some(value)) => Ok(self.write(name, value.as_str())?),
            _ => Err(Refusal::Wrong("expected a value")),
        }
    }

    /// Takes a token by the name of its rule.
    fn take(&mut self, alloc: Global, rule: &str, text: &'t str) -> Result<(), Refusal> {
        match rule {
            "WORD" => self.take_name(text),
            "=" => self.need_name(),
            "{" => self.open(),
            "}" => self.close(),
            "BARE" => self.begin(alloc, text),
            "QUOTE" => self.begin(alloc, ""),
            "PART" => self.add(text),
            "ESCAPE" => self.add(escaped(text)),
            _ => self.end(),
        }
    }

    /// Why the text may not end here.
    fn lacks(&self) -> Option<&'static str> {
        if self.name.is_some() {
            Some("expected = or {")
        } else if self.sections.is_empty() {
            None
        } else {
            Some("expected }")
        }
    }
}

/// Takes an item. A fault where it may not stand here.
fn take_item<'t>(
    alloc: Global,
    lexer: &LRNonStreamingLexer<'_, 't, Types>,
    definition: &Definition,
    reader: &mut Reader<'t>,
    item: Result<DefaultLexeme<u32>, LRLexError>,
) -> Result<Option<Fault>, AllocError> {
    let (span, taken) = match item {
        Ok(lexeme) => {
            let rule = definition.name_of(lexeme.tok_id()).unwrap_or("");
            let text = lexer.text_of(lexeme.span());
            (lexeme.span(), reader.take(alloc, rule, text))
        }
        Err(error) => (error.span(), Err(Refusal::Wrong("no token begins here"))),
    };
    match taken {
        Ok(()) => Ok(None),
        Err(Refusal::Wrong(why)) => {
            let place = lexer.place(span.start());
            Ok(Some(Fault { place, why }))
        }
        Err(Refusal::Memory) => Err(AllocError),
    }
}

/// The whole entries before the first fault, and that.
pub fn read(
    alloc: Global,
    definition: &Definition,
    text: &str,
) -> Result<(String, Option<Fault>), AllocError> {
    let lexer = definition.lexer(alloc, text)?;
    let mut reader = Reader {
        sections: Vec::new(alloc),
        name: None,
        value: None,
        entries: String::new(alloc),
    };
    let mut fault = None;
    for item in lexer.iter() {
        fault = take_item(alloc, &lexer, definition, &mut reader, item)?;
        if fault.is_some() {
            break;
        }
    }
    if fault.is_none() {
        let place = lexer.place(text.trim_end().len());
        fault = reader.lacks().map(|why| Fault { place, why });
    }
    let Reader { entries, .. } = reader;
    Ok((entries, fault))
}
