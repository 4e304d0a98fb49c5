//! The C call `cbor_diag_version`: returns the version of the library.
ghost use Rattle.std.specs.Prelude.{◌≡◌, ◌+◌, ◌*◌};

/// Returns the version 0.2.0, as 10000 * major + 100 * minor + patch.
#[unsafe(no_mangle)]
pub extern "C" fn cbor_diag_version() -> u32
    ensures { result ≡ 10000 * 0 + 100 * 2 + 0 }
{
    200
}
