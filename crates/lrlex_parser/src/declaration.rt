ghost use Rattle.std.specs.Prelude.{◌≡◌};
ghost use Rattle.std.specs.List.{list_all};
ghost use Rattle.std.specs.Char.{is_ascii_alphanumeric};
ghost use Rattle.lrlex_parser.specs.Declaration.{declares_exclusive, is_state_name, is_state_name_char};

/// Whether these are ASCII letters and digits.
fn are_alphanumeric(bytes: &[u8]) -> bool
    ensures { result ≡ list_all is_ascii_alphanumeric bytes.now }
{
    bytes.iter().all(|b| b.is_ascii_alphanumeric())
}

/// Whether the word declares exclusive states, if it declares states.
pub(crate) fn declares_exclusive(word: &str) -> Option<bool>
    ensures { result ≡ declares_exclusive word.now }
{
    let bytes = word.as_bytes();
    let [b'%', letter, rest @ ..] = bytes else {
        return None;
    };
    if !are_alphanumeric(rest) {
        return None;
    }
    match *letter {
        b's' | b'S' => Some(false),
        b'x' | b'X' => Some(true),
        _ => None,
    }
}

/// Whether the byte can be part of a state's name.
fn is_state_name_byte(b: u8) -> bool
    ensures { result ≡ is_state_name_char b }
{
    b.is_ascii_alphanumeric() || b == b'_' || b == b'.'
}

/// Whether each of these can be part of a state's name.
fn are_state_name_bytes(bytes: &[u8]) -> bool
    ensures { result ≡ list_all is_state_name_char bytes.now }
{
    bytes.iter().all(|b| is_state_name_byte(*b))
}

/// Whether a text is a state's name.
pub(crate) fn is_state_name(name: &str) -> bool
    ensures { result ≡ is_state_name name.now }
{
    let bytes = name.as_bytes();
    let Some(first) = bytes.first() else {
        return false;
    };
    first.is_ascii_alphabetic() && are_state_name_bytes(bytes)
}
