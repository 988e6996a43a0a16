//! What a piece of a text is, guessed by the name of its rule and by the text.
ghost use Rattle.std.specs.Prelude.{◌≡◌, chars};
ghost use Rattle.std.specs.Str.{str_eq_ignore_ascii_case};
ghost use Rattle.lrlex_lsp.specs.Guesses.{ends_in, guess_of, guess_by_first, guess_by_name, is_keyword, is_named_as_text, is_quoted};

/// What a piece is guessed to be. Names of rules count in capital and in small letters.
#[derive(Clone, Copy, PartialEq, Eq, Debug)]
pub enum Guess {
    /// The rule is named `COMMENT`, or has no name and the piece isn't white space alone.
    Comment,
    /// The rule is named after its text, as `if` by `'IF'` or `'Kif'`. After `K` the text stands as it is.
    Keyword,
    /// The piece begins with a digit.
    Number,
    /// The piece begins with a quote, or the rule is named as quoted texts and their insides are: `STRING`, `..TEXT`, `..ESC` or
    /// `..ESCAPE`.
    Text,
    /// The piece begins with a letter or `_`.
    Name,
    /// The piece begins with another visible character of ASCII.
    Operator,
}

/// Whether two texts are the same but for the case of ASCII letters.
pub(crate) fn is_alike(one: &[u8], other: &str) -> bool
    ensures { result ≡ str_eq_ignore_ascii_case one.now other.now }
{
    one.eq_ignore_ascii_case(other.as_bytes())
}

/// Whether a rule is named after its text: as `if` in either case by `'IF'`, or as it is by `'Kif'`.
fn is_keyword(name: &str, text: &str) -> bool
    ensures { result ≡ is_keyword name.now text.now }
{
    is_alike(name.as_bytes(), text) || name.strip_prefix("K") == Some(text)
}

/// Whether a name ends in this word, in either case.
fn ends_in(name: &str, word: &str) -> bool
    ensures { result ≡ ends_in name.now word.now }
{
    let (_, end) = name
        .as_bytes()
        .split_at(name.len().saturating_sub(word.len()));
    is_alike(end, word)
}

/// Whether a rule is named as quoted texts and their insides are.
fn is_named_as_text(name: &str) -> bool
    ensures { result ≡ is_named_as_text name.now }
{
    is_alike(name.as_bytes(), "STRING")
        || ends_in(name, "TEXT")
        || ends_in(name, "ESC")
        || ends_in(name, "ESCAPE")
}

/// Whether a text begins with a quote.
fn is_quoted(text: &str) -> bool
    ensures { result ≡ is_quoted text.now }
{
    text.starts_with('"') || text.starts_with('\'')
}

/// What a piece of this text is by its first character.
fn guess_by_first(text: &str) -> Option<Guess>
    ensures { result ≡ guess_by_first (chars text.now) }
{
    match text.chars().next() {
        Some(c) if c.is_ascii_digit() => Some(Guess::Number),
        Some(c) if c.is_alphabetic() || c == '_' => Some(Guess::Name),
        Some(c) if c.is_ascii_punctuation() => Some(Guess::Operator),
        _ => None,
    }
}

/// What a piece of this text is whose rule has this name.
fn guess_by_name(name: &str, text: &str) -> Option<Guess>
    ensures { result ≡ guess_by_name name.now text.now }
{
    if is_keyword(name, text) {
        Some(Guess::Keyword)
    } else if is_alike(name.as_bytes(), "COMMENT") {
        Some(Guess::Comment)
    } else if is_named_as_text(name) || is_quoted(text) {
        Some(Guess::Text)
    } else {
        guess_by_first(text)
    }
}

/// What a piece of this text is, by the name of its rule, if it has one, and by the text: the first of these that holds. Without a
/// name it is a comment, unless it is white space alone.
pub fn guessed(name: Option<&str>, text: &str) -> Option<Guess>
    ensures { result ≡ guess_of name.entry text.now }
{
    match name {
        Some(name) => guess_by_name(name, text),
        None if text.trim().is_empty() => None,
        None => Some(Guess::Comment),
    }
}
