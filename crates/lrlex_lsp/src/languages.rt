//! What a text is lexed by, and what its pieces are shown as.
ghost use Rattle.std.specs.Prelude.{◌≡◌, [], IfErr, IfOk, codes, option_map};
ghost use Rattle.lrlex_lsp.specs.Guesses.{guess_of};
ghost use Rattle.lrlex_lsp.specs.Languages.{IsFaultOf, IsLanguageOf, all_shown, map_pairs, pairs_in, pairs_of, shown_as, shown_by, shown_of};
ghost use Rattle.lrlex_lsp.specs.Shown.{IsShownAs, type_of};

use crate::guesses::guessed;
use crate::token_types::{type_named, type_of};
use lrlex::{
    DefaultLexerTypes, LRNonStreamingLexerDef, LexBuildError, LexFlags, Piece, Rule,
    UNSPECIFIED_LEX_FLAGS,
};
use std::alloc::{AllocError, Global};
use std::error::Error;
use std::fmt;

/// The types of the server's lexers.
pub type Types = DefaultLexerTypes<u32>;

/// The definitions of the server's lexers.
pub type Definition = LRNonStreamingLexerDef<Types>;

/// The rules of rule files.
const RULES_OF_RULES: &str = r#"%x RULES RULE NAME
%%
[%][%][^\n]* <RULES>'MARK'
[%][sxSX] 'DECLARE'
[A-Za-z][A-Za-z0-9_.]* 'STATE'
[ \t\r\n]+ 'SPACE'
[^\n] 'OTHER'
<RULES>\n+ 'LINES'
<RULES>[%][%][^\n]* 'END'
<RULES><[^>\n]*> <RULE>'STATES'
<RULES>[^<\n][^\n]*[ \t] <NAME>'PATTERN'
<RULE>[^\n]*[ \t] <NAME>'LISTED'
<RULES,RULE>[^\n] 'REST'
<NAME><[^>\n]*> 'TARGET'
<NAME>'[^'\n]*'|"[^"\n]*" 'NAMED'
<NAME>; 'UNNAMED'
<RULE,NAME>\n+ <RULES>'NEXT'
<NAME>[^\n] 'TAIL'
"#;

/// What the pieces of rule files are shown as.
const TYPES_OF_RULES: &str =
    "MARK=keyword END=keyword DECLARE=keyword STATE=enumMember STATES=enumMember TARGET=enumMember \
    PATTERN=regexp LISTED=regexp NAMED=type UNNAMED=operator SPACE= LINES= NEXT= OTHER= REST= TAIL=";

/// What the rule of a piece says about how it is shown.
#[derive(Clone, Copy)]
enum Shown {
    As(u32),
    Plain,
    /// By its name and text.
    Guessed,
}

/// A definition with the rule text and the flags that it was read from, and what the pieces of each rule are shown as.
#[derive(Drop)]
pub struct Language {
    definition: Definition,
    rules: String,
    flags: LexFlags,
    shown: Vec<Shown>,
}

/// Why there is no language.
#[derive(Debug, Drop)]
pub enum LanguageFault {
    OutOfMemory,
    /// The faults of the rule text.
    Rules(Vec<LexBuildError>),
}

impl fmt::Display for LanguageFault {
    ghost use Rattle.std.specs.Prelude.{Some};
    ghost use Rattle.lrlex_lsp.specs.Faults.{language_fault_text};

    ghost output = { λ e. Some (language_fault_text e) };

    fn fmt<W: fmt::Write>(&self, f: &mut fmt::Formatter<W>) -> fmt::Result {
        f.write_str(match self {
            LanguageFault::OutOfMemory => "Out of memory",
            LanguageFault::Rules(_) => "The rule text has faults",
        })
    }
}

impl Error for LanguageFault {}

impl From<AllocError> for LanguageFault {
    ghost use Rattle.lrlex_lsp.specs.declared.languages.LanguageFault.TheVariants.{OutOfMemory};

    ghost from_gives = { λ _ e. e ≡ OutOfMemory };

    fn from(_: AllocError) -> LanguageFault {
        LanguageFault::OutOfMemory
    }
}

/// What rules are shown as, by their names.
#[derive(Clone, Copy)]
enum Map<'m> {
    /// Names and types.
    Pairs(&'m [(String, String)]),
    /// Words `NAME=TOKENTYPE` with a blank between two.
    Words(&'m str),
}

/// What a rule is shown as by the name of a token type. What isn't one stands for plain text.
fn shown_as(kind: &str) -> Shown
    ensures { result ≡ shown_as kind.now }
{
    match type_named(kind) {
        Some(number) => Shown::As(number),
        None => Shown::Plain,
    }
}

/// What pairs say of a name.
fn shown_by_pairs(pairs: &[(String, String)], name: &str) -> Shown
    ensures { result ≡ shown_by (pairs_of pairs.now) name.now }
{
    for (named, kind) in pairs {
        if named.as_str() == name {
            return shown_as(kind);
        }
    }
    Shown::Guessed
}

/// What words say of a name.
fn shown_by_words(words: &str, name: &str) -> Shown
    ensures { result ≡ shown_by (pairs_in words.now) name.now }
{
    for word in words.split(' ') {
        if let Some((named, kind)) = word.split_once('=') {
            if named == name {
                return shown_as(kind);
            }
        }
    }
    Shown::Guessed
}

impl Map<'_> {
    /// What it says of a rule.
    fn shown(self, rule: &Rule<u32>) -> Shown
        ensures { result ≡ shown_of (map_pairs self.entry) rule.now.name }
    {
        match (rule.name(), self) {
            (Some(name), Map::Pairs(pairs)) => shown_by_pairs(pairs, name),
            (Some(name), Map::Words(words)) => shown_by_words(words, name),
            (None, _) => Shown::Guessed,
        }
    }
}

/// What these rules are shown as.
fn all_shown(alloc: Global, rules: &[Rule<u32>], map: Map<'_>) -> Result<Vec<Shown>, AllocError>
    ensures { IfOk result (λ shown. shown.items ≡ all_shown (map_pairs map.entry) rules.now) }
{
    let mut shown = Vec::new(alloc);
    for rule in rules {
        shown.push(map.shown(rule))?;
    }
    Ok(shown)
}

/// The language of a rule text.
fn read(
    alloc: Global,
    rules: &str,
    flags: LexFlags,
    map: Map<'_>,
) -> Result<Language, LanguageFault>
    ensures language { IfOk result (IsLanguageOf (map_pairs map.entry) flags rules.now) }
    ensures faults { IfErr result (IsFaultOf flags rules.now) }
{
    match Definition::new_with_options(alloc, rules, flags)? {
        Ok(definition) => Ok(Language {
            shown: all_shown(alloc, definition.rules(), map)?,
            rules: String::from_str(alloc, rules)?,
            definition,
            flags,
        }),
        Err(faults) => Err(LanguageFault::Rules(faults)),
    }
}

/// The number of the token type of what a piece is guessed to be, by its rule's name and its text; None where it is plain.
fn guessed_kind(name: Option<&str>, text: &str) -> Option<u32>
    ensures { result ≡ option_map type_of (guess_of name.entry text.now) }
{
    match guessed(name, text) {
        Some(guess) => Some(type_of(guess)),
        None => None,
    }
}

impl Language {
    /// The language of a rule text. The map has for the name of a rule the token type of the protocol that its pieces are shown
    /// as, or an empty text where they are plain; other names are guessed at. The first pair that has a name counts.
    pub fn from_rules(
        alloc: Global,
        rules: &str,
        flags: LexFlags,
        map: &[(String, String)],
    ) -> Result<Language, LanguageFault>
        ensures language { IfOk result (IsLanguageOf (pairs_of map.now) flags rules.now) }
        ensures faults { IfErr result (IsFaultOf flags rules.now) }
    {
        read(alloc, rules, flags, Map::Pairs(map))
    }

    /// The language of rule files.
    pub fn of_rules(alloc: Global) -> Result<Language, LanguageFault>
        ensures { IfOk result (IsLanguageOf (pairs_in TYPES_OF_RULES.now) UNSPECIFIED_LEX_FLAGS
            RULES_OF_RULES.now) }
    {
        let map = Map::Words(TYPES_OF_RULES);
        read(alloc, RULES_OF_RULES, UNSPECIFIED_LEX_FLAGS, map)
    }

    /// A language without rules, by which lexing stops at once.
    pub fn without_rules(alloc: Global) -> Result<Language, LanguageFault>
        ensures { IfOk result (IsLanguageOf [] UNSPECIFIED_LEX_FLAGS (codes "%%\n")) }
    {
        read(alloc, "%%\n", UNSPECIFIED_LEX_FLAGS, Map::Pairs(&[]))
    }

    /// The definition that texts of the language are lexed by.
    pub fn definition(&self) -> &Definition
        ensures { result.now ≡ self.now.definition }
    {
        &self.definition
    }

    /// The rule text that it was read from.
    pub(crate) fn rules(&self) -> &str {
        &self.rules
    }

    /// Whether it was read from this rule text with these flags.
    pub(crate) fn is_of(&self, rules: &str, flags: LexFlags) -> bool {
        self.rules.as_str() == rules && self.flags == flags
    }

    /// The number of the token type that a piece is shown as; None where it is plain.
    pub fn kind_of(&self, piece: &Piece<'_, '_>) -> Option<u32>
        ensures { IsShownAs self.now piece.now result }
    {
        match self.shown.get(piece.rule) {
            Some(Shown::As(kind)) => Some(*kind),
            Some(Shown::Plain) => None,
            _ => guessed_kind(piece.name, piece.text),
        }
    }
}
