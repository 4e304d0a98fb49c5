//! Guesses what an input is that nothing reads: a data URL, PEM, a token of JSON, DER, a dump that
//! was cut. A message says so, and `cborcat` does not read such an input in another form.

use crate::printed::address_of;
use crate::text::{is_text, mark_len, unmarked};

/// What people paste that is not read.
#[derive(Clone, Copy, PartialEq, Eq, Debug)]
pub enum Pasted {
    /// A URL with its data: `data:application/cbor;base64,ogH5`.
    DataUrl,
    /// Base 64 between lines of dashes: `-----BEGIN CBOR-----`.
    Pem,
    /// A text in UTF-16: it begins with a byte order mark, or every other byte is zero.
    Utf16,
    /// Bytes behind a byte order mark of UTF-8.
    Mark,
    /// Hex with dashes or brackets: `82-01`, `82(01-02)`.
    Dashes,
    /// A JSON Web Token (RFC 7519), which has JSON: `eyJhbGciOiJFUzI1NiJ9.e30.c2ln`.
    Jwt,
    /// An EU health certificate, in base 45: `HC1:6BF..`.
    Hc1,
    /// A uniform resource of wallets, in bytewords: `ur:crypto-seed/oyad..`.
    Ur,
    /// The device engagement of a mobile driving licence (ISO/IEC 18013-5): `mdoc:owBj..`.
    Mdoc,
    /// Bytes that are packed by gzip (RFC 1952).
    Gzip,
    /// A sequence of ASN.1 in DER, such as a certificate.
    Der,
    /// A dump that has words in place of bytes, or whose first column does not count them.
    Dump,
    /// An array or a Buffer that Node.js cut: `... 36 more bytes>`.
    Elided,
}

/// Beginnings of texts that are not read.
static BEGINNINGS: [(&[u8], Pasted); 5] = [
    (b"data:", Pasted::DataUrl),
    (b"-----BEGIN ", Pasted::Pem),
    (b"HC1:", Pasted::Hc1),
    (b"ur:", Pasted::Ur),
    (b"mdoc:", Pasted::Mdoc),
];

/// What an input looks like that nothing reads, if that is known.
///
/// ```rust
/// use cbor_inputs::{Pasted, looks_like};
///
/// assert_eq!(rt; looks_like(b"82-01"), Some(Pasted::Dashes));
/// ```
pub fn looks_like(text: &[u8]) -> Option<Pasted> {
    let bytes = pasted_bytes(text);
    if bytes.is_some() {
        return bytes;
    }
    let text = unmarked(text).trim_ascii();
    for (beginning, pasted) in BEGINNINGS {
        if text.starts_with(beginning) {
            return Some(pasted);
        }
    }
    if is_jwt(text) {
        Some(Pasted::Jwt)
    } else if is_elided(text) {
        Some(Pasted::Elided)
    } else if begins_dump(text) {
        Some(Pasted::Dump)
    } else if is_dashes(text) {
        Some(Pasted::Dashes)
    } else {
        None
    }
}

/// What an input looks like that is not text, if that is known.
fn pasted_bytes(bytes: &[u8]) -> Option<Pasted> {
    if is_utf16(bytes) {
        Some(Pasted::Utf16)
    } else if bytes.starts_with(b"\x1f\x8b") {
        Some(Pasted::Gzip)
    } else if is_der(bytes) {
        Some(Pasted::Der)
    } else if mark_len(bytes) > 0 && !is_text(bytes) {
        Some(Pasted::Mark)
    } else {
        None
    }
}

/// Whether bytes are a sequence of ASN.1, whose length is that of what follows its head.
fn is_der(bytes: &[u8]) -> bool {
    match bytes {
        [0x30, 0x81, len, rest @ ..] => usize::from(*len) == rest.len(),
        [0x30, 0x82, high, low, rest @ ..] => {
            (usize::from(*high) << 8 | usize::from(*low)) == rest.len()
        }
        [0x30, len, rest @ ..] => *len < 0x80 && usize::from(*len) == rest.len() && rest.len() > 2,
        _ => false,
    }
}

/// Whether a text is a token of JSON: three parts in base64url with dots between them. The first
/// begins as `{"` does.
fn is_jwt(text: &[u8]) -> bool {
    let dots = text.iter().filter(|byte| **byte == b'.').count();
    let is_digit = |byte: u8| byte.is_ascii_alphanumeric() || matches!(byte, b'-' | b'_' | b'.');
    text.starts_with(b"eyJ") && dots == 2 && text.iter().all(|byte| is_digit(*byte))
}

/// Whether a text ends as Node.js ends a Buffer or an array that it cut.
fn is_elided(text: &[u8]) -> bool {
    let inner = text.strip_suffix(b">").or(text.strip_suffix(b"]"));
    let end = inner.unwrap_or(b"").trim_ascii_end();
    end.ends_with(b" more bytes") || end.ends_with(b" more items") || end.ends_with(b" more item")
}

/// Whether the first line begins with an address of a dump: one with a colon, or 0.
fn begins_dump(text: &[u8]) -> bool {
    let end = text.iter().position(|byte| *byte == b'\n');
    let line = text.get(..end.unwrap_or(text.len())).unwrap_or(b"");
    match address_of(line) {
        Some(address) => {
            let is_zero = address.digits.iter().all(|digit| *digit == b'0');
            address.len < line.len() && (address.style.has_colon || is_zero)
        }
        None => false,
    }
}

/// How many bytes show a text in UTF-16 without a byte order mark: four characters of ASCII.
const UTF16: usize = 8;

/// Whether bytes are a text in UTF-16.
fn is_utf16(text: &[u8]) -> bool {
    if text.starts_with(b"\xff\xfe") || text.starts_with(b"\xfe\xff") {
        return true;
    }
    let Some(front) = text.get(..UTF16) else {
        return false;
    };
    is_wide(front, true) || is_wide(front, false)
}

/// Whether the bytes at even places are characters of ASCII, or else those at odd places, and the
/// others zero.
fn is_wide(front: &[u8], even: bool) -> bool {
    for (at, byte) in front.iter().enumerate() {
        let is_ascii = byte.is_ascii_graphic() || byte.is_ascii_whitespace();
        let is_right = if (at % 2 == 0) == even {
            is_ascii
        } else {
            *byte == 0
        };
        if !is_right {
            return false;
        }
    }
    true
}

/// Whether a byte is in hex with dashes and brackets.
fn is_dashed(byte: u8) -> bool {
    byte.is_ascii_hexdigit() || is_dash(byte) || byte.is_ascii_whitespace()
}

/// Whether a byte is a dash or a bracket.
fn is_dash(byte: u8) -> bool {
    matches!(byte, b'-' | b'(' | b')')
}

/// Whether a text is hex with dashes or brackets.
fn is_dashes(text: &[u8]) -> bool {
    text.first().is_some_and(u8::is_ascii_hexdigit)
        && text.iter().all(|byte| is_dashed(*byte))
        && text.iter().any(|byte| is_dash(*byte))
}
