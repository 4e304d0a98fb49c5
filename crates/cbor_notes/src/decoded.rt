//! Decodes a base 64 text and writes the bytes as lines for comments: hex digits, and the bytes
//! between quotes (`base64_lines`).
ghost use Rattle.std.specs.Prelude.{◌≡◌, ◌≢◌, ◌*◌, ◌≤◌, ℕ, List, length, map, option_map};
ghost use Rattle.std.specs.Prelude.{IfSome, IfNone, IfOk, IsSomeAnd};
ghost use Rattle.std.specs.String.{string_bytes};
ghost use Rattle.cbor_tokens.specs.AreBytes.{AreBytes};
ghost use Rattle.cbor_tokens.specs.Base64.{encoding};
ghost use Rattle.cbor_notes.specs.DecodedLines.{base64_lines, decoded_line, decoded_lines};

use crate::text::push_quoted_bytes;
use cbor_tokens::base64_text::decode;
use cbor_tokens::push_hex;
use std::alloc::{AllocError, Global};

/// Returns the lines that show what `text` decodes to. If `url` is set, `text` is in the URL-safe
/// alphabet without padding (RFC 4648, section 5), otherwise in the standard alphabet with padding
/// (section 4). Returns `None` if it is not exactly the encoding of some bytes.
///
/// There is a line for each sixteen decoded bytes: their hex digits, then ` # ` and the bytes as
/// [`quoted_bytes`] writes them. If there are several lines, the digits of the last one are filled
/// up with blanks to the width of the first one's. If no bytes are decoded, there are no lines. The
/// only error is out of memory.
///
/// ```rust
/// use cbor_notes::base64_lines;
///
/// let lines = base64_lines(alloc, "Zm9vYg==", false)?.unwrap_or(Vec::new(alloc));
/// let first = lines.first().map(|line| line.as_str());
/// assert_eq!(rt; first, Some("666f6f62 # \"foob\""));
/// ```
///
/// [`quoted_bytes`]: crate::quoted_bytes
pub fn base64_lines(alloc: Global, text: &str, url: bool) -> Result<Option<Vec<String>>, AllocError>
    ensures found { IfOk result (λ found. IfSome found (λ lines. (bytes : List ℕ) × AreBytes bytes
        × (text.now ≡ encoding url bytes) × (map string_bytes lines.items ≡ decoded_lines bytes))) }
    ensures none { IfOk result (λ found. IfNone found
        ((bytes : List ℕ) → AreBytes bytes → text.now ≢ encoding url bytes)) }
    ensures only { (bytes : List ℕ) → AreBytes bytes → text.now ≡ encoding url bytes
        → IfOk result (λ found. IsSomeAnd found
        (λ lines. map string_bytes lines.items ≡ decoded_lines bytes)) }
    // The same as a function of the text.
    ensures value { IfOk result
        (λ found. option_map (λ lines. map string_bytes lines.items) found
        ≡ base64_lines url text.now) }
{
    match decode(alloc, text.as_bytes(), url)? {
        Some(bytes) => Ok(Some(decoded_lines(alloc, &bytes)?)),
        None => Ok(None),
    }
}

/// The lines of decoded bytes.
fn decoded_lines(alloc: Global, bytes: &[u8]) -> Result<Vec<String>, AllocError>
    ensures { IfOk result (λ lines. map string_bytes lines.items ≡ decoded_lines bytes.now) }
{
    let width = 2 * bytes.len().min(16);
    let mut lines = Vec::with_capacity(alloc, bytes.len().div_ceil(16))?;
    for piece in bytes.chunks(16) {
        lines.push(decoded_line(alloc, piece, width)?)?;
    }
    Ok(lines)
}

/// The line of a piece of bytes, whose hex digits are filled up to a width.
fn decoded_line(alloc: Global, piece: &[u8], width: usize) -> Result<String, AllocError>
    requires piece { 2 * length piece.now ≤ width }
    requires width { width ≤ 32 }
    ensures { IfOk result (λ line. string_bytes line ≡ decoded_line width piece.now) }
{
    // Enough if each byte is written as it is.
    let mut line = String::with_capacity(alloc, width + piece.len() + 5)?;
    push_hex(&mut line, piece)?;
    'blanks: for _ in 2 * piece.len()..width {
        line.push(' ')?;
    }
    line.push_str(" # ")?;
    push_quoted_bytes(&mut line, piece)?;
    Ok(line)
}
