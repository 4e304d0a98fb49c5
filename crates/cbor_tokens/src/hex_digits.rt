//! Writes and reads hex digits, two for each byte (RFC 4648, section 8). It writes lower case and
//! reads either case.
//!
//! Converting digits takes most of the time that a long byte string takes. One table has both
//! digits of each byte, and two tables have the values of the digits, so a byte takes few
//! instructions and no branch. The contracts cite the definitions of the kit's crate `hex`.
ghost use Rattle.std.specs.Prelude.{◌≡◌, ◌≤◌, ◌<◌, ◌+◌, ◌*◌, ◌++◌, ℕ, List, length, Ok, option_map};
ghost use Rattle.std.specs.Prelude.{IfOk, IsTrue, OnOk, OnErr};
ghost use Rattle.std.specs.Bool.{IsFalse};
ghost use Rattle.std.specs.String.{string_bytes, string_capacity, string_len};
ghost use Rattle.hex.specs.Hex.{encode_lower, decode_pairs};
ghost use Rattle.cbor_tokens.specs.HexDigits.{base16_of, digits_value};

use std::alloc::{AllocError, Global};

/// The two digits of each byte, in the order of the bytes.
const PAIRS: [u8; 512] = *b"000102030405060708090a0b0c0d0e0f101112131415161718191a1b1c1d1e1f\
    202122232425262728292a2b2c2d2e2f303132333435363738393a3b3c3d3e3f\
    404142434445464748494a4b4c4d4e4f505152535455565758595a5b5c5d5e5f\
    606162636465666768696a6b6c6d6e6f707172737475767778797a7b7c7d7e7f\
    808182838485868788898a8b8c8d8e8f909192939495969798999a9b9c9d9e9f\
    a0a1a2a3a4a5a6a7a8a9aaabacadaeafb0b1b2b3b4b5b6b7b8b9babbbcbdbebf\
    c0c1c2c3c4c5c6c7c8c9cacbcccdcecfd0d1d2d3d4d5d6d7d8d9dadbdcdddedf\
    e0e1e2e3e4e5e6e7e8e9eaebecedeeeff0f1f2f3f4f5f6f7f8f9fafbfcfdfeff";

/// Writes the digits of `bytes`, in lower case, to `digits`, which has exactly their length.
fn write_hex(bytes: &[u8], digits: &mut [u8])
    requires { length digits.old ≡ 2 * length bytes.now }
    ensures { digits.new ≡ encode_lower bytes.now }
{
    'bytes: for i in 0..bytes.len() {
        let pair = 2 * usize::from(bytes[i]);
        digits[2 * i] = PAIRS[pair];
        digits[2 * i + 1] = PAIRS[pair + 1];
    }
}

/// Appends the hex digits of `bytes` to `text`: two for each byte, in lower case. The only error is
/// `AllocError`; `text` is unchanged after it.
///
/// ```rust
/// use cbor_notes::push_hex;
///
/// let mut text = String::from_str(alloc, "h'")?;
/// push_hex(&mut text, b"foo")?;
/// assert_eq!(rt; text.as_str(), "h'666f6f");
/// ```
pub fn push_hex(text: &mut String, bytes: &[u8]) -> Result<(), AllocError>
    ensures text { OnOk result (string_bytes text.new ≡ string_bytes text.old
        ++ encode_lower bytes.now) }
    ensures unchanged { OnErr result (string_bytes text.new ≡ string_bytes text.old) }
{
    if bytes.len() <= PIECE {
        return push_hex_piece(text, bytes);
    }
    // Reserved for all of them at once, so that no later append can fail.
    text.reserve(2 * bytes.len())?;
    let mut rest = bytes;
    'pieces: while !rest.is_empty() {
        let (piece, after) = rest.split_at(rest.len().min(PIECE));
        push_hex_piece(text, piece)?;
        rest = after;
    }
    Ok(())
}

/// How many bytes are converted to hex digits at once.
const PIECE: usize = 64;

/// Appends the hex digits of a few bytes to `text`, all at once: byte by byte takes longer.
fn push_hex_piece(text: &mut String, piece: &[u8]) -> Result<(), AllocError>
    requires { length piece.now ≤ PIECE }
    ensures text { OnOk result (string_bytes text.new ≡ string_bytes text.old
        ++ encode_lower piece.now) }
    ensures len { OnOk result (string_len text.new ≡ string_len text.old + 2 * length piece.now) }
    ensures capacity { string_capacity text.old ≤ string_capacity text.new }
    ensures full { OnErr result (string_capacity text.old < string_len text.old + 2 * length
        piece.now) }
    ensures unchanged { OnErr result (string_bytes text.new ≡ string_bytes text.old) }
{
    let mut buffer = [0; 2 * PIECE];
    let digits = &mut buffer[..2 * piece.len()];
    write_hex(piece, digits);
    // Hex digits are ASCII, so they need no test of UTF-8.
    text.push_str(unsafe { str::from_utf8_unchecked(digits) })
}

/// The value of each digit of either case as the first of a byte's two: 16 times the digit. Any
/// other byte has 256.
const FIRST_VALUES: [u16; 256] = [
    256, 256, 256, 256, 256, 256, 256, 256, 256, 256, 256, 256, 256, 256, 256, 256, 256, 256, 256,
    256, 256, 256, 256, 256, 256, 256, 256, 256, 256, 256, 256, 256, 256, 256, 256, 256, 256, 256,
    256, 256, 256, 256, 256, 256, 256, 256, 256, 256, 0, 16, 32, 48, 64, 80, 96, 112, 128, 144,
    256, 256, 256, 256, 256, 256, 256, 160, 176, 192, 208, 224, 240, 256, 256, 256, 256, 256, 256,
    256, 256, 256, 256, 256, 256, 256, 256, 256, 256, 256, 256, 256, 256, 256, 256, 256, 256, 256,
    256, 160, 176, 192, 208, 224, 240, 256, 256, 256, 256, 256, 256, 256, 256, 256, 256, 256, 256,
    256, 256, 256, 256, 256, 256, 256, 256, 256, 256, 256, 256, 256, 256, 256, 256, 256, 256, 256,
    256, 256, 256, 256, 256, 256, 256, 256, 256, 256, 256, 256, 256, 256, 256, 256, 256, 256, 256,
    256, 256, 256, 256, 256, 256, 256, 256, 256, 256, 256, 256, 256, 256, 256, 256, 256, 256, 256,
    256, 256, 256, 256, 256, 256, 256, 256, 256, 256, 256, 256, 256, 256, 256, 256, 256, 256, 256,
    256, 256, 256, 256, 256, 256, 256, 256, 256, 256, 256, 256, 256, 256, 256, 256, 256, 256, 256,
    256, 256, 256, 256, 256, 256, 256, 256, 256, 256, 256, 256, 256, 256, 256, 256, 256, 256, 256,
    256, 256, 256, 256, 256, 256, 256, 256, 256, 256, 256, 256, 256, 256, 256, 256, 256, 256, 256,
    256, 256, 256, 256, 256, 256, 256, 256,
];

/// The value of each digit of either case as the second of a byte's two. Any other byte has 256.
const SECOND_VALUES: [u16; 256] = [
    256, 256, 256, 256, 256, 256, 256, 256, 256, 256, 256, 256, 256, 256, 256, 256, 256, 256, 256,
    256, 256, 256, 256, 256, 256, 256, 256, 256, 256, 256, 256, 256, 256, 256, 256, 256, 256, 256,
    256, 256, 256, 256, 256, 256, 256, 256, 256, 256, 0, 1, 2, 3, 4, 5, 6, 7, 8, 9, 256, 256, 256,
    256, 256, 256, 256, 10, 11, 12, 13, 14, 15, 256, 256, 256, 256, 256, 256, 256, 256, 256, 256,
    256, 256, 256, 256, 256, 256, 256, 256, 256, 256, 256, 256, 256, 256, 256, 256, 10, 11, 12, 13,
    14, 15, 256, 256, 256, 256, 256, 256, 256, 256, 256, 256, 256, 256, 256, 256, 256, 256, 256,
    256, 256, 256, 256, 256, 256, 256, 256, 256, 256, 256, 256, 256, 256, 256, 256, 256, 256, 256,
    256, 256, 256, 256, 256, 256, 256, 256, 256, 256, 256, 256, 256, 256, 256, 256, 256, 256, 256,
    256, 256, 256, 256, 256, 256, 256, 256, 256, 256, 256, 256, 256, 256, 256, 256, 256, 256, 256,
    256, 256, 256, 256, 256, 256, 256, 256, 256, 256, 256, 256, 256, 256, 256, 256, 256, 256, 256,
    256, 256, 256, 256, 256, 256, 256, 256, 256, 256, 256, 256, 256, 256, 256, 256, 256, 256, 256,
    256, 256, 256, 256, 256, 256, 256, 256, 256, 256, 256, 256, 256, 256, 256, 256, 256, 256, 256,
    256, 256, 256, 256, 256, 256, 256, 256, 256, 256, 256, 256, 256, 256, 256, 256, 256, 256, 256,
    256, 256, 256,
];

/// The byte with these two digits, or a number above 255 if one of them is not a digit.
#[inline(always)]
fn value_of(first: u8, second: u8) -> u16
    ensures value { result ≡ digits_value first second }
    ensures small { result ≤ 512 }
{
    FIRST_VALUES[usize::from(first)] + SECOND_VALUES[usize::from(second)]
}

/// Reads `digits` into `bytes`, which has room for just these, and returns whether each is a digit.
/// It decides only at the end: a loop without a branch takes fewer instructions.
fn read_hex(digits: &[u8], bytes: &mut [u8]) -> bool
    requires { length digits.now ≡ 2 * length bytes.old }
    ensures read { IsTrue result → decode_pairs 0 digits.now ≡ Ok bytes.new }
    ensures refused { IsFalse result → (read : List ℕ) → ¬ (decode_pairs 0 digits.now ≡ Ok read) }
{
    let mut all = 0;
    'bytes: for i in 0..bytes.len() {
        let value = value_of(digits[2 * i], digits[2 * i + 1]);
        all |= value;
        bytes[i] = (value % 256) as u8;
    }
    all < 256
}

/// Returns the bytes that hex digits encode, two digits of either case for each byte. Returns
/// `None` if the number of digits is odd or if a byte is not a digit. The only error is
/// `AllocError`.
///
/// ```rust
/// use cbor_notes::decode_hex;
///
/// let bytes = decode_hex(alloc, b"82Ff")?;
/// assert_eq!(rt; bytes.as_deref(), Some(b"\x82\xff".as_slice()));
/// ```
pub fn decode_hex(alloc: Global, digits: &[u8]) -> Result<Option<Vec<u8>>, AllocError>
    ensures bytes { IfOk result (λ bytes. option_map (λ x. x.items) bytes ≡ base16_of digits.now) }
{
    if digits.len() % 2 != 0 {
        return Ok(None);
    }
    let mut bytes = vec![in alloc; 0u8; digits.len() / 2]?;
    if read_hex(digits, &mut bytes) {
        Ok(Some(bytes))
    } else {
        Ok(None)
    }
}
