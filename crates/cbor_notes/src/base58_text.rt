//! Writes sixteen bytes in base 58, with the alphabet of Bitcoin's addresses.

ghost use Rattle.std.specs.Prelude.{◌≡◌, ◌++◌, ℕ, List, map, replicate, slice_index, IfOk, OnOk};
ghost use Rattle.std.specs.String.{string_bytes};
ghost use Rattle.std.specs.Int.Digits.{AllBelowBase, digits_of, number_from_digits};
ghost use Rattle.cbor_notes.specs.Base58.{HasNoLeadingZero, base58_of, characters, leading_zeros};

use std::alloc::{AllocError, Global};

/// The characters for the digits 0 to 57: digits and letters except `0`, `I`, `O` and `l`.
const CHARACTERS: [u8; 58] = *b"123456789ABCDEFGHJKLMNPQRSTUVWXYZabcdefghijkmnopqrstuvwxyz";

/// Returns sixteen bytes in base 58, in Bitcoin's alphabet: a `1` for each leading zero byte, and
/// then the digits of the bytes as a big-endian number. The number zero has no digits.
///
/// The only error is out of memory.
///
/// ```rust
/// use cbor_notes::base58;
///
/// let text = base58(alloc, b"\0\0\0\0\0\0\0\0\0\0\0\0\0\0\0\x01")?;
/// assert_eq!(rt; text.as_str(), "1111111111111112");
/// ```
pub fn base58(alloc: Global, bytes: &[u8; 16]) -> Result<String, AllocError>
    ensures text { IfOk result (λ text. string_bytes text ≡ base58_of bytes.now) }
    // The digits are those whose value is the number, and which do not begin with a zero.
    ensures only { (digits : List ℕ) → AllBelowBase 58 digits → HasNoLeadingZero digits
        → number_from_digits 58 digits ≡ number_from_digits 256 bytes.now
        → IfOk result (λ text. string_bytes text
        ≡ replicate (leading_zeros bytes.now) 49 ++ map (slice_index characters) digits) }
{
    // No text is longer than that of sixteen bytes 255.
    let mut text = String::with_capacity(alloc, 22)?;
    push_base58(&mut text, bytes)?;
    Ok(text)
}

/// Appends the text of [`base58`] to `text`. After an error `text` may end with a part of it.
pub(crate) fn push_base58(text: &mut String, bytes: &[u8; 16]) -> Result<(), AllocError>
    ensures text { OnOk result
        (string_bytes text.new ≡ string_bytes text.old ++ base58_of bytes.now) }
{
    for _ in 0..leading_zeros(bytes) {
        text.push('1')?;
    }
    push_digits(text, u128::from_be_bytes(*bytes))
}

/// The number of leading zero bytes.
fn leading_zeros(bytes: &[u8]) -> usize
    ensures count { result ≡ leading_zeros bytes.now }
{
    bytes.iter().take_while(|byte| **byte == 0).count()
}

/// Appends the digits of a number, the highest first, and none for zero.
fn push_digits(text: &mut String, number: u128) -> Result<(), AllocError>
    ensures text { OnOk result (string_bytes text.new
        ≡ string_bytes text.old ++ map (slice_index characters) (digits_of 58 number)) }
{
    if number == 0 {
        return Ok(());
    }
    push_digits(text, number / 58)?;
    text.push(char::from(CHARACTERS[(number % 58) as usize]))
}
