//! How pieces are marked: for a terminal, or as a page of HTML.
use crate::highlight::classes::Class;
use lrlex::Span;
use lrlex_report::shown_char;
use std::alloc::AllocError;

/// The marks of a text.
#[derive(Clone, Copy)]
pub enum Marks {
    /// Colours as terminals have them (ECMA-48, select graphic rendition).
    Terminal,
    /// Elements `span` of HTML in an element `pre`.
    Html,
}

/// What precedes the text in a page. A newline after `<pre>` is none of the text, so a first one of the text's own is shown.
const HEAD: &str =
    "<!DOCTYPE html>\n<meta charset=\"utf-8\">\n<title>Highlighted</title>\n<style>\n\
    pre { font: 14px/1.4 monospace; color: #24292f; }\n\
    .comment { color: #6a737d; font-style: italic; }\n\
    .keyword { color: #cf222e; }\n\
    .number { color: #0550ae; }\n\
    .text { color: #0a7d33; }\n\
    .type { color: #953800; }\n\
    .function { color: #8250df; }\n\
    .name { color: #116b7a; }\n\
    .rest { background: #ffebe9; }\n</style>\n<pre>\n";

/// Adds a character, written out where HTML reads it as its own.
fn push_escaped(page: &mut String, c: char) -> Result<(), AllocError> {
    match c {
        '<' => page.push_str("&lt;"),
        '>' => page.push_str("&gt;"),
        '&' => page.push_str("&amp;"),
        _ => page.push(c),
    }
}

/// The character that is shown for this one, before this byte of the text: an end of a line stays, and U+FFFD stands for another
/// control character than the tab.
fn given(c: char, text: &str, next: usize) -> char {
    match c {
        '\n' => c,
        '\r' if text.as_bytes().get(next) == Some(&b'\n') => c,
        _ => shown_char(c),
    }
}

impl Marks {
    /// What precedes the text.
    pub fn head(self) -> &'static str {
        match self {
            Marks::Terminal => "",
            Marks::Html => HEAD,
        }
    }

    /// What follows it.
    pub fn tail(self) -> &'static str {
        match self {
            Marks::Terminal => "",
            Marks::Html => "</pre>\n",
        }
    }

    /// Adds the characters of a part of a text.
    fn push_part(self, page: &mut String, text: &str, part: Span) -> Result<(), AllocError> {
        let mut next = part.start();
        for c in text.get(part.start()..part.end()).unwrap_or("").chars() {
            next = next.saturating_add(c.len_utf8());
            let c = given(c, text, next);
            match self {
                Marks::Terminal => page.push(c)?,
                Marks::Html => push_escaped(page, c)?,
            }
        }
        Ok(())
    }

    /// Adds a part of a text, shown as this class.
    pub fn push(
        self,
        page: &mut String,
        class: Class,
        text: &str,
        part: Span,
    ) -> Result<(), AllocError> {
        let (begin, end) = match self {
            Marks::Terminal => (class.terminal, "\u{1b}[0m"),
            Marks::Html => (class.html, "</span>"),
        };
        page.push_str(begin)?;
        self.push_part(page, text, part)?;
        page.push_str(if begin.is_empty() { "" } else { end })
    }
}
