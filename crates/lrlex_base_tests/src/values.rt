//! Classes of characters, spans, lexemes and ids.
use lrlex_base::{
    DefaultLexeme, Id, Lexeme, Numbered, Span, is_blank, is_line_sep, is_white_space,
};

/// A character, and whether it is white space, separates lines, and is a blank.
const CLASSES: &[(char, bool, bool, bool)] = &[
    ('\t', true, false, true),
    ('\n', true, true, false),
    ('\u{b}', true, true, false),
    ('\u{c}', true, false, false),
    ('\r', true, true, false),
    (' ', true, false, true),
    ('\u{85}', true, false, false),
    ('\u{200e}', true, false, false),
    ('\u{200f}', true, false, false),
    ('\u{2028}', true, true, false),
    ('\u{2029}', true, true, false),
    ('\u{8}', false, false, false),
    ('\u{a0}', false, false, false),
    ('\u{2002}', false, false, false),
    ('a', false, false, false),
    ('%', false, false, false),
];

#[test]
fn classes_of_the_eleven_and_their_neighbours(rt: HostRuntime) {
    for (c, white, sep, blank) in CLASSES {
        let same = is_white_space(*c) == *white
            && is_line_sep(*c) == *sep
            && is_blank(*c) == *blank;
        assert!(rt; same, "{c:?}");
    }
}

/// Whether the lexeme has the id 7, stands at 3..7, and is faulty or not.
fn is_as_made(lexeme: &DefaultLexeme<u32>, faulty: bool) -> bool {
    let span = lexeme.span();
    let is_placed = span.start() == 3 && span.end() == 7 && span.len() == 4;
    is_placed && span == Span::new(3, 7) && lexeme.tok_id() == 7 && lexeme.faulty() == faulty
}

#[test]
fn a_lexeme_gives_back_what_it_was_made_of(rt: HostRuntime) {
    let lexeme = DefaultLexeme::<u32>::new(7, 3, 4);
    let faulty = DefaultLexeme::<u32>::new_faulty(7, 3, 4);
    assert!(rt; is_as_made(&lexeme, false) && is_as_made(&faulty, true));
    assert!(rt; lexeme == DefaultLexeme::new(7, 3, 4) && lexeme != faulty);
    let shown = lexeme.to_string(rt.alloc()).expect(&rt, "memory");
    assert!(rt; shown.as_str() == "DefaultLexeme[3..7]");
}

#[test]
fn ids_end_at_their_greatest(rt: HostRuntime) {
    let small = u8::from_count(255) == Some(255) && u8::from_count(256).is_none();
    let numbered = u8::of_count(255) == Some(255) && u8::of_count(256).is_none();
    let short = u16::from_count(65_535) == Some(65_535) && u16::from_count(65_536).is_none();
    assert!(rt; small && short && numbered);
    let usual = u32::from_count(4_294_967_295) == Some(4_294_967_295);
    let past = u32::from_count(4_294_967_296).is_none();
    assert!(rt; usual && past);
    let long = u64::from_count(usize::MAX) == Some(u64::MAX);
    let wide = u128::from_count(usize::MAX) == Some(18_446_744_073_709_551_615);
    let own = usize::from_count(usize::MAX) == Some(usize::MAX);
    assert!(rt; long && wide && own);
}

#[test]
fn numbers_of_ids_are_told_apart_and_read_back(rt: HostRuntime) {
    let apart = 7u8.is(7) && !7u8.is(8);
    let counted = u8::MAX.as_count() == Some(255) && u64::MAX.as_count() == Some(usize::MAX);
    let none = u128::MAX.as_count().is_none();
    assert!(rt; apart && counted && none);
    let small = u8::MAX.to_count() == Some(255) && u16::MAX.to_count() == Some(65_535);
    let usual = u32::MAX.to_count() == Some(4_294_967_295) && 9usize.to_count() == Some(9);
    let most = 18_446_744_073_709_551_615u128.to_count() == Some(usize::MAX);
    let past = 18_446_744_073_709_551_616u128.to_count().is_none();
    assert!(rt; small && usual && most && past);
}
