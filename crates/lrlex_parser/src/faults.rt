ghost use Rattle.std.specs.Prelude.{◌≡◌};

use lrlex_base::{Span, Spanned, SpansKind};
use std::error::Error;
use std::fmt;

/// What parsing a rule text returns: the definition, or the faults of the text, up to the first that is neither a duplicate nor
/// verbatim code.
pub type LexBuildResult<T> = Result<T, Vec<LexBuildError>>;

/// What is wrong with a rule text.
#[derive(Debug, Drop)]
pub enum LexErrorKind {
    /// The text ends before a line `%%`.
    PrematureEnd,
    /// There is text after the second `%%`.
    RoutinesNotSupported,
    /// A line before `%%` declares no start states.
    UnknownDeclaration,
    /// No space or tab separates a rule's pattern from its name.
    MissingSpace,
    /// A rule's name is neither `;` nor in quotes.
    InvalidName,
    /// A rule names a start state that isn't declared.
    UnknownStartState,
    /// A start state is declared again.
    DuplicateStartState,
    /// A `<` has no `>`.
    InvalidStartState,
    /// A start state's name isn't a letter followed by letters, digits, `_` and `.`.
    InvalidStartStateName,
    /// A rule has the name of an earlier rule.
    DuplicateName,
    /// `regex` refuses the pattern.
    RegexError(regex::Error),
    /// A line between the rules begins with white space.
    VerbatimNotSupported,
    /// The id type has no id for the rule.
    TooManyRules,
}

impl LexErrorKind {
    ghost use Rattle.lrlex_parser.specs.LexBuildError.{message};

    /// What is wrong, in English, without a full stop. The reason why `regex` refuses a pattern isn't part of it.
    pub fn message(&self) -> &'static str
        ensures { result.now ≡ message self.now }
    {
        match self {
            LexErrorKind::PrematureEnd => "File ends prematurely",
            LexErrorKind::RoutinesNotSupported => "Routines not currently supported",
            LexErrorKind::UnknownDeclaration => "Unknown declaration",
            LexErrorKind::MissingSpace => "Rule is missing a space",
            LexErrorKind::InvalidName => "Invalid rule name",
            LexErrorKind::UnknownStartState => "Start state not known",
            LexErrorKind::DuplicateStartState => "Start state already exists",
            LexErrorKind::InvalidStartState => "Invalid start state",
            LexErrorKind::InvalidStartStateName => "Invalid start state name",
            LexErrorKind::DuplicateName => "Rule name already exists",
            LexErrorKind::RegexError(_) => "Invalid regular expression",
            LexErrorKind::VerbatimNotSupported => "Verbatim code not supported",
            LexErrorKind::TooManyRules => "Too many rules for the token id type",
        }
    }
}

/// A fault of a rule text, and its places: for a duplicate, the first place of the name, then the others.
#[derive(Debug, Drop)]
pub struct LexBuildError {
    pub(crate) kind: LexErrorKind,
    pub(crate) spans: Vec<Span>,
}

impl LexBuildError {
    ghost use Rattle.lrlex_parser.specs.LexBuildError.{fault_kind, fault_spans};

    pub(crate) fn new(kind: LexErrorKind, spans: Vec<Span>) -> LexBuildError
        ensures kind { fault_kind result ≡ kind }
        ensures spans { fault_spans result ≡ spans.items }
    {
        LexBuildError { kind, spans }
    }

    /// What kind of fault it is.
    pub fn kind(&self) -> &LexErrorKind
        ensures { result.now ≡ fault_kind self.now }
    {
        &self.kind
    }
}

impl Spanned for LexBuildError {
    ghost use Rattle.lrlex_parser.specs.LexBuildError.{fault_kind, fault_spans, kind_of_spans};

    ghost spans_of = { fault_spans };

    ghost kind_of = { λ e. kind_of_spans (fault_kind e) };

    fn spans(&self) -> &[Span] {
        self.spans.as_slice()
    }

    fn spanskind(&self) -> SpansKind {
        match self.kind {
            LexErrorKind::DuplicateStartState | LexErrorKind::DuplicateName => {
                SpansKind::DuplicationError
            }
            _ => SpansKind::Error,
        }
    }
}

impl fmt::Display for LexBuildError {
    ghost use Rattle.lrlex_parser.specs.LexBuildError.{fault_kind, kind_text};

    ghost output = { λ e. kind_text (fault_kind e) };

    fn fmt<W: fmt::Write>(&self, f: &mut fmt::Formatter<W>) -> fmt::Result {
        match &self.kind {
            LexErrorKind::RegexError(error) => write!(f, "{}: {error}", self.kind.message()),
            kind => f.write_str(kind.message()),
        }
    }
}

impl Error for LexBuildError {}
