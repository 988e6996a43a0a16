//! The version of the library.
ghost use Rattle.std.specs.Prelude.{◌≡◌};

/// The version as a number: 10,000 times the first part, 100 times the second, and the third.
#[unsafe(no_mangle)]
pub extern "C" fn lrlex_version() -> u32
    ensures { result ≡ 100 }
{
    100
}
