//! Writing without a second try.
ghost use Rattle.std.specs.Prelude.{◌≡◌, ◌++◌, [], true, false, OnOk};
ghost use Rattle.lrlex_cli.specs.Writing.{Writes, Passes};

use std::io;
use std::io::{ErrorKind, Write};

/// How many bytes wait at most until they are written.
pub(crate) const ROOM: usize = 65_536;

/// Writes the bytes. It stops at the first error of `write` and tries nothing again; a `write` that takes nothing is the error
/// `WriteZero`. On an error the beginning of the bytes was written, and not all of them.
pub(crate) fn write_bytes<W: Write>(out: &mut W, bytes: &[u8]) -> io::Result<()>
    ensures { Writes (W.contents out.old) (W.contents out.new) result bytes.now }
{
    let mut done = 0;
    while done < bytes.len() {
        let taken = out.write(&bytes[done..])?;
        if taken == 0 {
            return Err(io::Error::from(ErrorKind::WriteZero));
        }
        done += taken;
    }
    Ok(())
}

/// Writes the bytes that wait, and none wait then.
pub(crate) fn flush<W: Write>(out: &mut W, waiting: &mut Vec<u8>) -> io::Result<()>
    ensures written { Writes (W.contents out.old) (W.contents out.new) result waiting.old.items }
    ensures none { OnOk result (waiting.new.items ≡ []) }
{
    write_bytes(out, waiting.as_slice())?;
    waiting.clear();
    Ok(())
}

/// Whether there was room for the bytes behind those that wait, so that they wait too. No memory is asked for.
fn waits(waiting: &mut Vec<u8>, bytes: &[u8]) -> bool
    ensures added { result ≡ true → waiting.new.items ≡ waiting.old.items ++ bytes.now }
    ensures same { result ≡ false → waiting.new.items ≡ waiting.old.items }
{
    bytes.len() <= waiting.capacity() - waiting.len() && waiting.extend_from_slice(bytes).is_ok()
}

/// Passes the bytes on behind those that wait: they wait too, where there is room. No memory is asked for.
pub(crate) fn pass<W: Write>(out: &mut W, waiting: &mut Vec<u8>, bytes: &[u8]) -> io::Result<()>
    ensures { Passes (W.contents out.old) (W.contents out.new) result
        (waiting.old.items ++ bytes.now) waiting.new.items }
{
    if waits(waiting, bytes) {
        return Ok(());
    }
    flush(out, waiting)?;
    if waits(waiting, bytes) {
        return Ok(());
    }
    write_bytes(out, bytes)
}

/// Passes on first these bytes, then those.
pub(crate) fn pass_both<W: Write>(
    out: &mut W,
    waiting: &mut Vec<u8>,
    first: &[u8],
    second: &[u8],
) -> io::Result<()>
    ensures { Passes (W.contents out.old) (W.contents out.new) result
        (waiting.old.items ++ (first.now ++ second.now)) waiting.new.items }
{
    pass(out, waiting, first)?;
    pass(out, waiting, second)
}
