//! Lines and columns of many places of a text, in one pass over it.
ghost use Rattle.std.specs.Prelude.{◌≡◌, ℕ, IsCharBoundary, length};
ghost use Rattle.lrlex_base.specs.Places.{place_of};
ghost use Rattle.lrlex_positions.specs.Nearest.{IsNearest};

use std::marker::Model;

/// Line and column of the text's end, given those of a place of it.
fn end_place(text: &str, from: usize, place: (usize, usize)) -> (usize, usize)
    requires from { IsCharBoundary text.now from }
    requires place { place ≡ place_of text.now from }
    ensures { result ≡ place_of text.now (length text.now) }
{
    let (mut line, mut column) = place;
    for c in text[from..].chars() {
        if c == '\n' {
            line += 1;
            column = 1;
        } else {
            column += 1;
        }
    }
    (line, column)
}

/// A place of a text, with its line and column. Moved forward, it counts only the characters that it passes. So the lines and
/// columns of many places take one pass over the text, however long its lines are.
#[derive(Drop)]
pub struct LineCursor<'t> {
    text: &'t str,
    at: usize,
    place: (usize, usize),
    ghost begin: { IsCharBoundary text.now 0 },
    ghost boundary: { IsCharBoundary text.now at },
    ghost place_of: { place ≡ place_of text.now at },
}

impl<'t> Model for LineCursor<'t> {
    ghost use Rattle.std.specs.Prelude.{ℕ, List};

    ghost Value = { List ℕ };

    ghost view = { λ c. c.text.now };
}

impl<'t> LineCursor<'t> {
    /// A cursor at the text's first byte.
    pub fn new(text: &'t str) -> LineCursor<'t>
        ensures { result ≡ text.now }
    {
        LineCursor {
            text,
            at: 0,
            place: (1, 1),
        }
    }

    /// Moves to the place before this byte. Gives its line and its column, both from 1; a column counts characters. Inside a
    /// character it is the place before that, and past the text's end the end. Moved back, it counts from the text's beginning.
    pub fn place(&mut self, byte: usize) -> (usize, usize)
        ensures fits { IsCharBoundary self.old byte → result ≡ place_of self.old byte }
        ensures nearest { (at : ℕ) → IsNearest self.old byte at → result ≡ place_of self.old at }
        ensures text { self.new ≡ self.old }
    {
        let at = self.text.floor_char_boundary(byte);
        let (from, place) = if self.at <= at {
            (self.at, self.place)
        } else {
            (0, (1, 1))
        };
        self.place = end_place(&self.text[..at], from, place);
        self.at = at;
        self.place
    }
}
