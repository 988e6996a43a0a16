//! The names under which clients know files.
ghost use Rattle.std.specs.Prelude.{◌≡◌, ◌↔◌, ◌++◌, IfOk, IsTrue, OnOk, codes, option_copied, string_bytes, take};
ghost use Rattle.std.specs.List.{before_last};
ghost use Rattle.percent_encoding.specs.Percent as percent;
ghost use Rattle.lrlex_lsp.specs.Uris.{IsSameFile, behind, escaped, is_absolute, is_slash, led_to, local, named, path_of, plain};

use crate::guesses::is_alike;
use percent_encoding::{AsciiSet, NON_ALPHANUMERIC, ascii_set, percent_decode, percent_encode};
use std::alloc::{AllocError, Global};

/// What is escaped of a path: all but letters, digits and what stands in paths unescaped.
const ESCAPED: AsciiSet = ascii_set!(
    NON_ALPHANUMERIC
        .remove(b'/')
        .remove(b'-')
        .remove(b'.')
        .remove(b'_')
        .remove(b'~')
);

/// The bytes that a URI stands for, once its percent escapes are read.
fn decoded(alloc: Global, uri: &str) -> Result<Vec<u8>, AllocError>
    ensures { IfOk result (λ bytes. bytes.items ≡ percent.percent_decode uri.now) }
{
    let mut bytes = Vec::new(alloc);
    percent_decode(uri.as_bytes()).append_to(&mut bytes)?;
    Ok(bytes)
}

/// What is behind this beginning, in letters of either case. None where a text doesn't begin so.
fn behind<'t>(text: &'t [u8], beginning: &str) -> Option<&'t [u8]>
    ensures { option_copied result ≡ behind beginning.now text.now }
{
    let (front, rest) = text.split_at_checked(beginning.len())?;
    if is_alike(front, beginning) {
        Some(rest)
    } else {
        None
    }
}

/// The path behind `file:`: at once, or behind `//` and the name of this machine, which is `localhost` or nothing.
fn local(rest: &[u8]) -> &[u8]
    ensures { result.now ≡ local rest.now }
{
    match behind(rest, "//") {
        Some(host) => behind(host, "localhost").unwrap_or(host),
        None => rest,
    }
}

/// The path that a URI names on this machine.
fn path_of(uri: &[u8]) -> Option<&[u8]>
    ensures { option_copied result ≡ path_of uri.now }
{
    let path = local(behind(uri, "file:")?);
    if path.starts_with(b"/") {
        Some(path)
    } else {
        None
    }
}

/// Where the name of a path's folder ends.
fn folder_end(path: &[u8]) -> usize
    ensures { take result path.now ≡ before_last is_slash path.now }
{
    path.iter().rposition(|byte| *byte == b'/').unwrap_or(0)
}

/// Goes on by a part of a path: up for `..`, and nowhere for `.` and an empty one.
fn go(path: &mut Vec<u8>, part: &[u8]) -> Result<(), AllocError>
    ensures { OnOk result (path.new.items ≡ led_to path.old.items part.now) }
{
    match part {
        b"" | b"." => Ok(()),
        b".." => {
            path.truncate(folder_end(path));
            Ok(())
        }
        _ => {
            path.push(b'/')?;
            path.extend_from_slice(part)
        }
    }
}

/// An absolute path without `.`, `..` and empty parts: `/a//b/./c/../d` is `/a/b/d`.
fn plain(alloc: Global, path: &[u8]) -> Result<Vec<u8>, AllocError>
    ensures { IfOk result (λ path'. path'.items ≡ plain path.now) }
{
    let mut plain = Vec::new(alloc);
    for part in path.split(|byte| *byte == b'/') {
        go(&mut plain, part)?;
    }
    Ok(plain)
}

/// What a URI names: `file:` and the plain path of a file of this machine, or else its bytes once their percent escapes are read.
fn named(alloc: Global, uri: &str) -> Result<Vec<u8>, AllocError>
    ensures { IfOk result (λ bytes. bytes.items ≡ named uri.now) }
{
    let bytes = decoded(alloc, uri)?;
    let Some(path) = path_of(&bytes) else {
        return Ok(bytes);
    };
    let mut name = Vec::new(alloc);
    name.extend_from_slice(b"file:")?;
    name.extend_from_slice(&plain(alloc, path)?)?;
    Ok(name)
}

/// Whether two URIs name one file: they are the same once their percent escapes are read (RFC 3986, section 2.4), and their paths
/// made plain. `file:/a`, `file:///a` and `FILE://localhost/a` are one file (RFC 8089). A path is plain without `.`, `..` and empty
/// parts, and links aren't followed.
pub fn is_same_file(alloc: Global, one: &str, other: &str) -> Result<bool, AllocError>
    ensures { IfOk result (λ same. IsTrue same ↔ IsSameFile one.now other.now) }
{
    if one == other {
        return Ok(true);
    }
    let one = named(alloc, one)?;
    let other = named(alloc, other)?;
    Ok(one.as_slice() == other.as_slice())
}

/// The URI of a file at an absolute path (RFC 8089), with percent escapes for all but letters, digits and `/-._~`. It names that
/// path.
pub fn file_uri(alloc: Global, path: &str) -> Result<String, AllocError>
    ensures text { IfOk result (λ uri. string_bytes uri ≡ codes "file://" ++ escaped path.now) }
    ensures names { IfOk result (λ uri. IsTrue (is_absolute path.now)
        → named (string_bytes uri) ≡ codes "file:" ++ plain path.now) }
{
    let mut uri = String::from_str(alloc, "file://")?;
    percent_encode(path.as_bytes(), ESCAPED).append_to(&mut uri)?;
    Ok(uri)
}
