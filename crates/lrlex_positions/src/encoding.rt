ghost use Rattle.std.specs.Prelude.{◌≡◌, count_by, length};
ghost use Rattle.std.specs.Str.{chars};
ghost use Rattle.lrlex_positions.specs.Columns.{is_wide, width, IsLastColumn};
ghost use Rattle.lrlex_positions.specs.declared.encoding.PositionEncoding.TheVariants.{Utf16};

/// What a column counts (`PositionEncodingKind` of the Language Server Protocol 3.17).
#[derive(Clone, Copy, Debug, PartialEq, Eq)]
pub enum PositionEncoding {
    /// Bytes of UTF-8.
    Utf8,
    /// Code units of UTF-16: two for a character beyond U+FFFF, and one for any other.
    Utf16,
}

/// How many characters of the text take two code units of UTF-16.
fn wide(text: &str) -> usize
    ensures { result ≡ count_by is_wide (chars text.now) }
{
    text.chars()
        .filter(
            |c: &char| -> bool
                ensures { result ≡ is_wide c.now }
            { *c as u32 >= 0x1_0000 },
        )
        .count()
}

/// How many columns the text takes.
pub(crate) fn width(text: &str, encoding: PositionEncoding) -> usize
    ensures { result ≡ width encoding text.now }
{
    match encoding {
        PositionEncoding::Utf8 => text.len(),
        PositionEncoding::Utf16 => text.chars().count() + wide(text),
    }
}

/// The last place between two characters of the line whose front takes at most this many code units of UTF-16.
fn utf16_place(line: &str, column: usize) -> usize
    ensures { IsLastColumn Utf16 line.now column result }
{
    let mut rest = line.chars();
    let mut at = 0usize;
    let mut left = column;
    while let Some(c) = rest.next() {
        let units = c.len_utf16();
        if left < units {
            return at;
        }
        left -= units;
        at += c.len_utf8();
    }
    at
}

/// The last place between two characters of the line whose front takes at most this many columns.
pub(crate) fn place_of_column(line: &str, column: usize, encoding: PositionEncoding) -> usize
    ensures { IsLastColumn encoding line.now column result }
{
    match encoding {
        PositionEncoding::Utf8 => line.floor_char_boundary(column),
        PositionEncoding::Utf16 => utf16_place(line, column),
    }
}
