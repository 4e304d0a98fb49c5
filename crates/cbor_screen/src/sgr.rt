//! The escape sequences that begin and end the colour of a token, by its kind.
ghost use Rattle.std.specs.Prelude.{◌≡◌};
ghost use Rattle.cbor_screen.specs.Colored.{start_of, end_of};

use cbor_marks::Kind;

/// The sequence of SGR (ECMA-48, section 8.3.117) that goes before a token of this kind. A bracket
/// has no colour.
pub(crate) fn start(kind: Kind) -> &'static [u8]
    ensures { result.now ≡ start_of kind }
{
    match kind {
        // bold blue
        Kind::Key => b"\x1b[1;34m",
        // green
        Kind::Text => b"\x1b[32m",
        // yellow
        Kind::Bytes => b"\x1b[33m",
        // cyan
        Kind::Number => b"\x1b[36m",
        // magenta
        Kind::Tag => b"\x1b[35m",
        // grey
        Kind::Note => b"\x1b[90m",
        // bold red
        Kind::Fault => b"\x1b[1;31m",
        Kind::Opening | Kind::Closing => b"",
    }
}

/// The sequence that goes after it.
pub(crate) fn end(kind: Kind) -> &'static [u8]
    ensures { result.now ≡ end_of kind }
{
    match kind {
        Kind::Opening | Kind::Closing => b"",
        _ => b"\x1b[0m",
    }
}
