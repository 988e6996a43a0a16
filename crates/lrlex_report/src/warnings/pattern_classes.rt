//! The classes of characters of a pattern, in brackets, as `regex` reads them: where a byte stands in them. A class with a name, as
//! `[:alpha:]`, is read as a class of its bytes, since it ends at the same `]`.
ghost use Rattle.std.specs.Prelude.{◌≡◌, ℕ, ◌+◌, ◌^◌, ◌<◌, ◌≤◌, Bool, false, List, length};
ghost use Rattle.lrlex_report.specs.PatternClasses.{in_part, opened, part_around, closed, after_outside, after_inside, after_front, after, is_front_operation, is_inner_operation, is_operation, behind_escape, is_pair, after_pair, from_first};

/// Which part of a pattern, or of its innermost class, a byte of it stands in.
#[derive(Clone, Copy)]
pub(crate) enum Part {
    /// In no class, at the beginning or behind `(`, `|` or `:`: a pattern, an alternative or a group may begin here.
    Beginning,
    /// Elsewhere in no class.
    Outside,
    /// Behind the `[` of a class.
    Bracket,
    /// Behind the `[^` of a class.
    Caret,
    /// Behind these and `-`, of which all are characters.
    Hyphens,
    /// Further in a class, where a member begins.
    Inside,
    /// Behind a member that may begin a range.
    Member,
    /// Behind such a member and `-`: any character but `]` ends the range.
    Range,
    /// Behind an operation on sets.
    Operated,
}

/// Where a byte of a pattern stands: in how many classes of characters, and in which part.
#[derive(Clone, Copy)]
pub(crate) struct Context {
    pub(crate) classes: usize,
    pub(crate) part: Part,
}

/// At the beginning of a pattern.
pub(crate) const BEGINNING: Context = Context {
    classes: 0,
    part: Part::Beginning,
};

/// Whether these bytes are an operation on sets also at the front of a class.
fn is_front_operation(b: u8, c: u8) -> bool
    ensures { result ≡ is_front_operation b c }
{
    b == c && (b == b'&' || b == b'~')
}

/// Whether these bytes are an operation on sets further in a class.
fn is_inner_operation(b: u8, c: u8) -> bool
    ensures { result ≡ is_inner_operation b c }
{
    is_front_operation(b, c) || b == b'-' && c == b'-'
}

impl Part {
    /// Whether these bytes are an operation on sets.
    pub(crate) fn is_operation(self, b: u8, c: u8) -> bool
        ensures { result ≡ is_operation self b c }
    {
        match self {
            Part::Beginning | Part::Outside | Part::Range => false,
            Part::Bracket | Part::Caret | Part::Hyphens => is_front_operation(b, c),
            Part::Inside | Part::Member | Part::Operated => is_inner_operation(b, c),
        }
    }

    /// The part behind an escape, which is a character.
    fn behind_escape(self) -> Part
        ensures { result ≡ behind_escape self }
    {
        match self {
            Part::Beginning | Part::Outside => Part::Outside,
            Part::Range => Part::Inside,
            _ => Part::Member,
        }
    }
}

/// The part of a pattern, or of the class around, behind the end of a class in so many others.
fn part_around(classes: usize) -> Part
    ensures { result ≡ part_around classes }
{
    if classes == 0 {
        Part::Outside
    } else {
        Part::Inside
    }
}

impl Context {
    /// In the same classes, in this part.
    fn in_part(self, part: Part) -> Context
        ensures { result ≡ in_part self part }
    {
        Context {
            classes: self.classes,
            part,
        }
    }

    /// Behind the `[` that begins a class.
    fn opened(self) -> Context
        requires { self.classes + 1 < 2 ^ 64 }
        ensures { result ≡ opened self }
    {
        Context {
            classes: self.classes + 1,
            part: Part::Bracket,
        }
    }

    /// Behind the `]` that ends a class.
    fn closed(self) -> Context
        ensures { result ≡ closed self }
    {
        let classes = self.classes.saturating_sub(1);
        Context {
            classes,
            part: part_around(classes),
        }
    }

    /// The context behind this byte, in no class.
    fn after_outside(self, b: u8) -> Context
        requires { self.classes + 1 < 2 ^ 64 }
        ensures { result ≡ after_outside self b }
    {
        match b {
            b'[' => self.opened(),
            b'(' | b'|' | b':' => self.in_part(Part::Beginning),
            _ => self.in_part(Part::Outside),
        }
    }

    /// The context behind this byte, where a member of a class begins.
    fn after_inside(self, b: u8) -> Context
        requires { self.classes + 1 < 2 ^ 64 }
        ensures { result ≡ after_inside self b }
    {
        match b {
            b'[' => self.opened(),
            b']' => self.closed(),
            b'-' => self.in_part(Part::Inside),
            _ => self.in_part(Part::Member),
        }
    }

    /// The context behind this byte at the front of a class, where `]` and `-` are characters.
    fn after_front(self, b: u8) -> Context
        requires { self.classes + 1 < 2 ^ 64 }
        ensures { result ≡ after_front self b }
    {
        match b {
            b']' => self.in_part(Part::Inside),
            b'-' => self.in_part(Part::Hyphens),
            _ => self.after_inside(b),
        }
    }

    /// The context behind this byte, which is no part of an escape or of an operation.
    fn after(self, b: u8) -> Context
        requires { self.classes + 1 < 2 ^ 64 }
        ensures { result ≡ after self b }
    {
        match (self.part, b) {
            (Part::Beginning | Part::Outside, _) => self.after_outside(b),
            (Part::Bracket, b'^') => self.in_part(Part::Caret),
            (Part::Bracket | Part::Caret, _) => self.after_front(b),
            (Part::Hyphens, b'-') => self.in_part(Part::Hyphens),
            (Part::Member, b'-') => self.in_part(Part::Range),
            (Part::Range, b']') => self.closed(),
            (Part::Range, _) => self.in_part(Part::Inside),
            (Part::Hyphens | Part::Inside | Part::Member | Part::Operated, _) => {
                self.after_inside(b)
            }
        }
    }

    /// Whether these bytes are an escape, or an operation on sets.
    fn is_pair(self, b: u8, c: u8) -> bool
        ensures { result ≡ is_pair self b c }
    {
        b == b'\\' || self.part.is_operation(b, c)
    }

    /// The context behind two bytes that are one of these, of which this is the first.
    fn after_pair(self, b: u8) -> Context
        ensures { result ≡ after_pair self b }
    {
        if b == b'\\' {
            self.in_part(self.part.behind_escape())
        } else {
            self.in_part(Part::Operated)
        }
    }

    /// One step on in a pattern: the context behind its next byte, escape or operation, and what follows.
    pub(crate) fn step(self, rest: &[u8]) -> (Context, &[u8])
        requires room { self.classes + length rest.now < 2 ^ 64 }
        ensures on { (test : Context → List ℕ → Bool) → test self rest.now ≡ false
            → from_first test self rest.now ≡ from_first test result.0 result.1.now }
        ensures room { result.0.classes + length result.1.now ≤ self.classes + length rest.now }
        ensures less { 0 < length rest.now → length result.1.now < length rest.now }
    {
        match rest {
            [] => (self, rest),
            [b] => (self.after(*b), &rest[1..]),
            [b, c, after @ ..] => {
                if self.is_pair(*b, *c) {
                    (self.after_pair(*b), after)
                } else {
                    (self.after(*b), &rest[1..])
                }
            }
        }
    }
}
