//! Scanners: texts whose tiles are pulled.
ghost use Rattle.std.specs.Prelude.{◌≡◌, ◌≢◌, pos, None, IsUtf8, MatchOption, ◌↔◌};
ghost use Rattle.lrlex.specs.Scanner.{IsAtFront};
ghost use Rattle.lrlex_handles.specs.Objects.{definition_in, scanner_in};
ghost use Rattle.lrlex_handles.specs.Scans.{WasScanned};

use lrlex_handles::handle::Handle;
use lrlex_handles::scanners::{making, stepping};
use lrlex_handles::structs::{Scanned, Tile};
use std::alloc::Global;

/// Makes a scanner of this text, at its front. The definition and the text may be freed before it. What `out` had before is freed.
#[unsafe(no_mangle)]
pub extern "C" fn lrlex_scanner_new(
    alloc: Global,
    definition: &mut Handle,
    out: &mut Handle,
    text: &[u8],
) -> i32
    ensures kept { definition.new.value ≡ definition.old.value }
    ensures done { result ≡ pos 0 → MatchOption (definition_in definition.old.value) ⊥
        (λ d. MatchOption (scanner_in out.new.value) ⊥ (IsAtFront d text.now)) }
    ensures failed { result ≢ pos 0 → out.new.value ≡ None }
    ensures unread { result ≡ pos 3 → ¬ (IsUtf8 text.now) }
{
    making::begin(alloc, definition, out, text)
}

/// The tiles that come next, as many as there is room for, and why no more come where an end is reached. If the call doesn't return 0,
/// the scanner is what it was.
#[unsafe(no_mangle)]
pub extern "C" fn lrlex_scanner_next(
    alloc: Global,
    handle: &mut Handle,
    tiles: &mut [Tile],
    out: &mut Scanned,
) -> i32
    ensures done { result ≡ pos 0 → WasScanned tiles.old tiles.new out.new
        (scanner_in handle.old.value) (scanner_in handle.new.value) }
    ensures kept { result ≢ pos 0 → scanner_in handle.new.value ≡ scanner_in handle.old.value }
    ensures misused { result ≡ pos 4 ↔ scanner_in handle.old.value ≡ None }
{
    stepping::next(alloc, handle, tiles, out)
}
