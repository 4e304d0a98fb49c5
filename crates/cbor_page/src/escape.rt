//! Writes data into the HTML of a page: text with `&`, `<`, `>` and `"` escaped, and bytes in hex
//! with blanks between them.
ghost use Rattle.std.specs.Prelude.{◌≡◌, ◌++◌, OnOk};
ghost use Rattle.cbor_page.specs.Markup.{escaped, escaped_byte, next_digits, spaced};
ghost use Rattle.hex.specs.Hex.{encode_lower};
ghost use Rattle.std.specs.Prelude.{◌∷◌, []};

use hex::encode_to_slice;
use std::alloc::AllocError;

/// Appends data, in which `&`, `<`, `>` and `"` are escaped.
pub(crate) fn push_escaped(out: &mut Vec<u8>, text: &[u8]) -> Result<(), AllocError>
    ensures { OnOk result (out.new.items ≡ out.old.items ++ escaped text.now) }
{
    'bytes: for byte in text {
        push_escaped_byte(out, *byte)?;
    }
    Ok(())
}

/// Appends a byte of data.
fn push_escaped_byte(out: &mut Vec<u8>, byte: u8) -> Result<(), AllocError>
    ensures { OnOk result (out.new.items ≡ out.old.items ++ escaped_byte byte) }
{
    match byte {
        b'&' => out.extend_from_slice(b"&amp;"),
        b'<' => out.extend_from_slice(b"&lt;"),
        b'>' => out.extend_from_slice(b"&gt;"),
        b'"' => out.extend_from_slice(b"&quot;"),
        _ => out.extend_from_slice(&[byte]),
    }
}

/// Appends the digits of bytes, with a blank between two.
pub(crate) fn push_spaced(out: &mut Vec<u8>, bytes: &[u8]) -> Result<(), AllocError>
    ensures { OnOk result (out.new.items ≡ out.old.items ++ spaced bytes.now) }
{
    let [first, rest @ ..] = bytes else {
        return Ok(());
    };
    push_digits(out, *first)?;
    'bytes: for byte in rest {
        push_next_digits(out, *byte)?;
    }
    Ok(())
}

/// Appends a blank, and the digits of a byte.
fn push_next_digits(out: &mut Vec<u8>, byte: u8) -> Result<(), AllocError>
    ensures { OnOk result (out.new.items ≡ out.old.items ++ next_digits byte) }
{
    out.extend_from_slice(b" ")?;
    push_digits(out, byte)
}

/// Appends the digits of a byte.
fn push_digits(out: &mut Vec<u8>, byte: u8) -> Result<(), AllocError>
    ensures { OnOk result (out.new.items ≡ out.old.items ++ encode_lower (byte ∷ [])) }
{
    let mut digits = [0; 2];
    match encode_to_slice(&[byte], &mut digits) {
        Ok(()) => out.extend_from_slice(&digits),
        Err(_) => Err(AllocError),
    }
}
