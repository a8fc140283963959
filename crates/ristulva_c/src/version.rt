//! The version of the library.

ghost use Rattle.std.specs.Prelude.{◌≡◌};
ghost use Rattle.ristulva_c.specs.declared.version.TheConstants.{VERSION};

/// The version: 1,000,000 times the first number, plus 1,000 times the second, plus the third.
pub const VERSION: u32 = 4_000;

/// The version of the library, which should be that of the header.
#[unsafe(no_mangle)]
pub extern "C" fn ristulva_version() -> u32
    ensures { result ≡ VERSION }
{
    VERSION
}
