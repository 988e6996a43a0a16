ghost use Rattle.std.specs.Prelude.{◌≡◌, ◌≤◌, ◌-◌, ◌↔◌, IsTrue, List};

/// A part of a text: from the byte at `start` up to the byte before `end`. Offsets count bytes.
#[derive(Clone, Copy, PartialEq, Eq, Hash, Debug)]
pub struct Span {
    start: usize,
    end: usize,
    pub ghost in_order: { start ≤ end },
}

impl Span {
    ghost use Rattle.lrlex_base.specs.Spans.{span_start, span_end, Fits};

    /// The part from `start` to `end`, which is not before it.
    pub fn new(start: usize, end: usize) -> Span
        requires { start ≤ end }
        ensures start { span_start result ≡ start }
        ensures end { span_end result ≡ end }
    {
        Span { start, end }
    }

    /// The offset of the span's first byte.
    pub fn start(&self) -> usize
        ensures { result ≡ span_start self.now }
    {
        self.start
    }

    /// The offset after the span's last byte.
    pub fn end(&self) -> usize
        ensures { result ≡ span_end self.now }
    {
        self.end
    }

    /// How many bytes the span has.
    pub fn len(&self) -> usize
        ensures { result ≡ span_end self.now - span_start self.now }
    {
        self.end - self.start
    }

    /// Whether both ends are in the text and on character boundaries.
    pub fn fits(&self, text: &str) -> bool
        ensures { IsTrue result ↔ Fits text.now self.now }
    {
        text.is_char_boundary(self.start) && text.is_char_boundary(self.end)
    }
}

/// What the spans of a fault mean.
#[derive(Clone, Copy, PartialEq, Eq, Debug)]
pub enum SpansKind {
    /// The place of an error.
    Error,
    /// The first place of something that was declared again, and then the places where it was.
    DuplicationError,
}

/// A value that names places of a text, as a fault of a rule file does.
pub trait Spanned {
    ghost use Rattle.lrlex_base.specs.declared.spans.Span.{Span};
    ghost use Rattle.lrlex_base.specs.declared.spans.SpansKind.{SpansKind};

    // The places.
    ghost spans_of: { Self → List Span };

    // What the places mean.
    ghost kind_of: { Self → SpansKind };

    /// The places, in the order in which they are shown.
    fn spans(&self) -> &[Span]
        ensures { result.now ≡ spans_of self.now };

    /// What the places mean.
    fn spanskind(&self) -> SpansKind
        ensures { result ≡ kind_of self.now };
}
