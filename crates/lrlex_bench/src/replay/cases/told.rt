//! What is told of a case: lines of a key, a blank and a value, as JSON.
use lrlex_base::Span;
use serde_json::Value;
use std::alloc::{AllocError, Global};
use std::fmt::Write;

/// Lines to which one value after the other is added. Once memory is refused some of them lack, which `lines` tells: so whoever
/// adds need not ask.
#[derive(Drop)]
pub struct Told {
    alloc: Global,
    lines: String,
    /// What stands before the next value: nothing at the beginning of a line, of a list and behind a member's name.
    between: &'static str,
    is_refused: bool,
}

impl Told {
    /// No lines yet.
    pub fn new(alloc: Global) -> Told {
        Told {
            alloc,
            lines: String::new(alloc),
            between: "",
            is_refused: false,
        }
    }

    /// What its memory comes from.
    pub fn alloc(&self) -> Global {
        self.alloc
    }

    /// The lines, if memory was never refused.
    pub fn lines(self) -> Result<String, AllocError> {
        if self.is_refused {
            Err(AllocError)
        } else {
            Ok(self.lines)
        }
    }

    /// Notes that memory was refused for something that would have been added.
    pub fn refuse(&mut self) -> &mut Told {
        self.is_refused = true;
        self
    }

    /// Notes whether something was added.
    fn note(&mut self, added: Result<(), AllocError>) -> &mut Told {
        if added.is_err() {
            self.refuse();
        }
        self
    }

    /// Adds a text as it stands.
    fn add(&mut self, text: &str) -> &mut Told {
        let added = self.lines.push_str(text);
        self.note(added)
    }

    /// Adds a value that is shown as JSON.
    fn put(&mut self, value: &str) -> &mut Told {
        let between = self.between;
        self.add(between).add(value);
        self.between = ",";
        self
    }

    /// Begins a line.
    pub fn key(&mut self, key: &str) -> &mut Told {
        if !self.lines.is_empty() {
            self.add("\n");
        }
        self.add(key).add(" ");
        self.between = "";
        self
    }

    /// Opens a list.
    pub fn open(&mut self) -> &mut Told {
        self.put("[");
        self.between = "";
        self
    }

    /// Closes it.
    pub fn close(&mut self) -> &mut Told {
        self.add("]");
        self.between = ",";
        self
    }

    /// Begins a line, and opens the list that is its value.
    pub fn list(&mut self, key: &str) -> &mut Told {
        self.key(key).open()
    }

    /// Opens an object.
    pub fn open_object(&mut self) -> &mut Told {
        self.put("{");
        self.between = "";
        self
    }

    /// Closes it.
    pub fn close_object(&mut self) -> &mut Told {
        self.add("}");
        self.between = ",";
        self
    }

    /// Begins a member of an object.
    pub fn member(&mut self, name: &str) -> &mut Told {
        self.put("\"").add(name).add("\":");
        self.between = "";
        self
    }

    /// Adds null.
    pub fn null(&mut self) -> &mut Told {
        self.put("null")
    }

    /// Adds true or false.
    pub fn truth(&mut self, is_true: bool) -> &mut Told {
        self.put(if is_true { "true" } else { "false" })
    }

    /// Adds a number.
    pub fn number(&mut self, number: usize) -> &mut Told {
        let between = self.between;
        let added = write!(self.lines, "{between}{number}");
        self.is_refused = self.is_refused || added.is_err();
        self.between = ",";
        self
    }

    /// Adds a list of numbers.
    pub fn numbers(&mut self, numbers: &[usize]) -> &mut Told {
        self.open();
        for number in numbers {
            self.number(*number);
        }
        self.close()
    }

    /// Adds a line and a column, or another two numbers, as a list.
    pub fn pair(&mut self, place: (usize, usize)) -> &mut Told {
        self.numbers(&[place.0, place.1])
    }

    /// Adds two places, as a list of both.
    pub fn pairs(&mut self, places: ((usize, usize), (usize, usize))) -> &mut Told {
        self.open().pair(places.0).pair(places.1).close()
    }

    /// Adds both ends of a span, as a list.
    pub fn span(&mut self, span: Span) -> &mut Told {
        self.numbers(&[span.start(), span.end()])
    }

    /// Adds a value.
    pub fn value(&mut self, value: &Value) -> &mut Told {
        let between = self.between;
        let added = write!(self.lines, "{between}{value}");
        self.is_refused = self.is_refused || added.is_err();
        self.between = ",";
        self
    }

    /// Adds a text that was made, if memory was there for it.
    pub fn made(&mut self, text: Result<String, AllocError>) -> &mut Told {
        match text {
            Ok(text) => self.value(&Value::String(text)),
            Err(_) => self.refuse(),
        }
    }

    /// Adds a text.
    pub fn text(&mut self, text: &str) -> &mut Told {
        let made = String::from_str(self.alloc, text);
        self.made(made)
    }

    /// Adds a name, or null for none.
    pub fn name(&mut self, name: Option<&str>) -> &mut Told {
        match name {
            Some(name) => self.text(name),
            None => self.null(),
        }
    }
}
