//! `HexStyle`: writes the hex digits of a line of a dump, for a head or for a piece of a string,
//! and counts them.
ghost use Rattle.std.specs.Prelude.{◌≡◌, ◌≤◌, ◌++◌, OnOk, length};
ghost use Rattle.std.specs.String.{string_bytes};
ghost use Rattle.cbor_dump.specs.Dump.{head_hex};
ghost use Rattle.cbor_dump.specs.mirror.ShownLines.{style_hex};

use cbor_notes::push_spaced_hex;
use cbor_tokens::push_hex;
use std::alloc::AllocError;

/// How the bytes of a line are shown in digits.
#[derive(Clone, Copy)]
pub enum HexStyle {
    /// A head: a blank follows the first byte, if it has others.
    Head,
    /// A piece of a string.
    Content,
}

impl HexStyle {
    /// Appends the digits to a text.
    pub(super) fn push(self, out: &mut String, bytes: &[u8]) -> Result<(), AllocError>
        requires { length bytes.now ≤ 24 }
        ensures { OnOk result (string_bytes out.new ≡ string_bytes out.old
            ++ style_hex self bytes.now) }
    {
        match self {
            HexStyle::Head => push_spaced_hex(out, bytes),
            HexStyle::Content => push_hex(out, bytes),
        }
    }

    /// How many digits and blanks `push` appends for these bytes.
    pub(super) fn count(self, bytes: &[u8]) -> usize
        requires { length bytes.now ≤ 24 }
        ensures { result ≡ length (style_hex self bytes.now) }
    {
        match self {
            HexStyle::Head => head_count(bytes),
            HexStyle::Content => 2 * bytes.len(),
        }
    }
}

/// How many digits and blanks a head takes.
fn head_count(bytes: &[u8]) -> usize
    requires { length bytes.now ≤ 24 }
    ensures { result ≡ length (head_hex bytes.now) }
{
    if bytes.len() > 1 {
        return 2 * bytes.len() + 1;
    }
    2 * bytes.len()
}
