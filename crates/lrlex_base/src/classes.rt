ghost use Rattle.std.specs.Prelude.{◌≡◌};
ghost use Rattle.lrlex_base.specs.Classes.{is_blank, is_line_sep, is_white_space};

/// Whether the character is a blank: a space or a tab, as POSIX's `<blank>`.
pub fn is_blank(c: char) -> bool
    ensures { result ≡ is_blank c }
{
    c == ' ' || c == '\t'
}

/// Whether the character ends a line of a rule file: U+000A, U+000B, U+000D, U+2028 or U+2029.
/// Form feed and U+0085 are white space and end no line.
pub fn is_line_sep(c: char) -> bool
    ensures { result ≡ is_line_sep c }
{
    matches!(c, '\n' | '\u{b}' | '\r' | '\u{2028}' | '\u{2029}')
}

/// Whether the character is white space, by Unicode's property Pattern_White_Space.
pub fn is_white_space(c: char) -> bool
    ensures { result ≡ is_white_space c }
{
    matches!(
        c,
        '\u{9}'..='\u{d}' | ' ' | '\u{85}' | '\u{200e}' | '\u{200f}' | '\u{2028}' | '\u{2029}'
    )
}
