//! The version of the library.

ghost use Rattle.std.specs.Prelude.{◌≡◌};

/// The version as a number: 1,000,000 for each major one, 1,000 for each minor one, and 1 for each
/// patch. The header has the same.
const VERSION: u32 = 1_000;

/// Returns the version of the library.
#[unsafe(no_mangle)]
pub extern "C" fn psilt_version_number() -> u32
    ensures { result ≡ 1000 }
{
    VERSION
}
