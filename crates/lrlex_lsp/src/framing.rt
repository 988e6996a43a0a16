//! Messages as bytes: a head of lines, one of them `Content-Length: N`, an empty line, and N bytes.
ghost use Rattle.std.specs.Prelude.{◌≡◌, ℕ, List, IfOk, IfSome, IsTrue, length, string_bytes};
ghost use Rattle.std.specs.Io.KnownBytes.{Appends, Consumes};
ghost use Rattle.lrlex_lsp.specs.Framing.{IsFrameOf, IsHead, framed};

use std::alloc::{AllocError, Global};
use std::io::{Read, Write};
use std::{io, str};

/// The longest body that is taken, in bytes.
const MOST: usize = 268_435_456;

/// The longest head that is taken, in bytes.
const MOST_HEAD: u32 = 8192;

/// What was read.
#[derive(Drop)]
pub enum Frame {
    /// The body of a message.
    Body(Vec<u8>),
    /// A body of more than 256 MB was passed over.
    TooLong,
    /// A head has no length, isn't of a body in UTF-8 or has more than 8,192 bytes, so nothing after it can be read.
    Headless,
    /// The input ends, before a message or within one.
    End,
}

/// The number after `Content-Length:`, if the line has one. It has no sign.
fn length_in(line: &str) -> Option<usize> {
    let (name, value) = line.split_once(':')?;
    let value = value.trim();
    if name.trim().eq_ignore_ascii_case("content-length") && !value.starts_with('+') {
        value.parse::<usize>().ok()
    } else {
        None
    }
}

/// Whether a parameter of a type names a charset other than UTF-8, whose name is also taken without its hyphen.
fn is_other_charset(parameter: &str) -> bool {
    let Some((name, value)) = parameter.split_once('=') else {
        return false;
    };
    let charset = value.trim().trim_matches('"');
    name.trim().eq_ignore_ascii_case("charset")
        && !charset.eq_ignore_ascii_case("utf-8")
        && !charset.eq_ignore_ascii_case("utf8")
}

/// Whether the line is a `Content-Type:` of a body that isn't in UTF-8.
fn has_other_charset(line: &str) -> bool {
    let Some((name, value)) = line.split_once(':') else {
        return false;
    };
    if !name.trim().eq_ignore_ascii_case("content-type") {
        return false;
    }
    for parameter in value.split(';') {
        if is_other_charset(parameter) {
            return true;
        }
    }
    false
}

/// The length that a head tells, of a body in UTF-8. None where no empty line ends the head.
fn length_of(head: &[u8]) -> Option<usize>
    ensures { IfSome result (λ _. IsHead head.now) }
{
    if !head.ends_with(b"\r\n\r\n") {
        return None;
    }
    let text = str::from_utf8(head).ok()?;
    let mut length = None;
    for line in text.lines() {
        if has_other_charset(line) {
            return None;
        }
        length = length.or(length_in(line));
    }
    length
}

/// Reads up to the empty line, or as much as the longest head has. None where the input ends first.
fn read_head<R: Read>(alloc: Global, reader: &mut R) -> io::Result<Option<Vec<u8>>>
    ensures { IfOk result (λ read. IfSome read (λ head.
        Consumes (R.remaining reader.old) (R.remaining reader.new) head.items)) }
{
    let mut head = Vec::new(alloc);
    let mut byte = [0u8; 1];
    'head: for _ in 0..MOST_HEAD {
        if reader.read(&mut byte)? == 0 {
            return Ok(None);
        }
        head.push(byte[0])?;
        if head.as_slice().ends_with(b"\r\n\r\n") {
            return Ok(Some(head));
        }
    }
    Ok(Some(head))
}

/// Reads a body of this length. None where the input ends first.
fn read_body<R: Read>(alloc: Global, reader: &mut R, size: usize) -> io::Result<Option<Vec<u8>>>
    ensures { IfOk result (λ read. IfSome read (λ body. (length body.items ≡ size)
        × Consumes (R.remaining reader.old) (R.remaining reader.new) body.items)) }
{
    let mut body = Vec::new(alloc);
    let mut part = [0u8; 16384];
    'body: while body.len() < size {
        let most = (size - body.len()).min(part.len());
        let count = reader.read(&mut part[..most])?;
        if count == 0 {
            return Ok(None);
        }
        body.extend_from_slice(&part[..count])?;
    }
    Ok(Some(body))
}

/// Passes over a body of this length. Whether the input has it.
fn skip_body<R: Read>(reader: &mut R, size: usize) -> io::Result<bool>
    ensures { IfOk result (λ all. IsTrue all → (body : List ℕ) × (length body ≡ size)
        × Consumes (R.remaining reader.old) (R.remaining reader.new) body) }
{
    let mut part = [0u8; 16384];
    let mut left = size;
    while left > 0 {
        let most = left.min(part.len());
        let count = reader.read(&mut part[..most])?;
        if count == 0 {
            return Ok(false);
        }
        left -= count;
    }
    Ok(true)
}

/// Reads a message.
pub fn read_frame<R: Read>(alloc: Global, reader: &mut R) -> io::Result<Frame>
    ensures { IfOk result (IsFrameOf (R.remaining reader.old) (R.remaining reader.new)) }
{
    let Some(head) = read_head(alloc, reader)? else {
        return Ok(Frame::End);
    };
    match length_of(head.as_slice()) {
        None => Ok(Frame::Headless),
        Some(size) if size > MOST => {
            if skip_body(reader, size)? {
                Ok(Frame::TooLong)
            } else {
                Ok(Frame::End)
            }
        }
        Some(size) => match read_body(alloc, reader, size)? {
            Some(body) => Ok(Frame::Body(body)),
            None => Ok(Frame::End),
        },
    }
}

/// The text of a message with this body.
fn framed(alloc: Global, body: &str) -> Result<String, AllocError>
    ensures { IfOk result (λ s. string_bytes s ≡ framed body.now) }
{
    let length = body.len();
    let mut text = format!(in alloc; "Content-Length: {length}\r\n\r\n")?;
    text.push_str(body)?;
    Ok(text)
}

/// Writes a message: a head that says how many bytes its body has, and the body.
pub fn write_frame<W: Write>(alloc: Global, writer: &mut W, body: &str) -> io::Result<()>
    ensures { IfOk result (λ _. Appends (W.contents writer.old) (W.contents writer.new)
        (framed body.now)) }
{
    let text = framed(alloc, body)?;
    writer.write_all(text.as_bytes())?;
    writer.flush()
}
