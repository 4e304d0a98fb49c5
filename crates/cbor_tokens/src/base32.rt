//! Decodes base 32 and base 32 with the extended hex alphabet (RFC 4648, sections 6 and 7).

ghost use Rattle.std.specs.Prelude.{◌≡◌, ◌≢◌, ◌-◌, ◌*◌, ◌<◌, ◌≤◌, ◌^◌, ℕ, List, drop, length};
ghost use Rattle.std.specs.Prelude.{replicate, slice_index, Some, IfSome, IfNone, IfOk, IsSomeAnd};
ghost use Rattle.std.specs.Int.Digits.{number_from_digits};
ghost use Rattle.cbor_tokens.specs.AreBytes.{AreBytes};
ghost use Rattle.cbor_tokens.specs.Base32.{IsDigitCount, IsLastGroup, Writes, base32, base32hex};
ghost use Rattle.cbor_tokens.specs.Base32.{characters, encode, encode_group, forty_bits};
ghost use Rattle.cbor_tokens.specs.Views.{alphabet_view};

use std::alloc::{AllocError, Global};

/// The alphabets of base 32: a character for each value of five bits.
#[derive(Clone, Copy)]
enum Alphabet {
    /// `A` to `Z`, and then `2` to `7`: RFC 4648, section 6.
    Standard,
    /// `0` to `9`, and then `A` to `V`: RFC 4648, section 7.
    ExtendedHex,
}

/// Decodes base 32 (RFC 4648, section 6): upper case, with padding.
///
/// Returns `None` unless `digits` are exactly the encoding of some bytes: if a character is not in
/// the alphabet, if the length is not a multiple of eight, if padding is anywhere but at the end,
/// or if a bit that no byte uses is set. Empty input decodes to no bytes. The only error is
/// `AllocError`.
///
/// ```rust
/// use cbor_notes::base32_decode;
///
/// let bytes = base32_decode(alloc, b"MZXW6===")?;
/// assert_eq!(rt; bytes.as_deref(), Some(b"foo".as_slice()));
/// ```
pub fn base32_decode(alloc: Global, digits: &[u8]) -> Result<Option<Vec<u8>>, AllocError>
    ensures found { IfOk result
        (λ found. IfSome found (λ bytes. AreBytes bytes.items
        × (digits.now ≡ base32 bytes.items))) }
    ensures none { IfOk result (λ found. IfNone found
        ((bytes : List ℕ) → AreBytes bytes → digits.now ≢ base32 bytes)) }
    // No two lists of bytes have the same digits.
    ensures only { (bytes : List ℕ) → AreBytes bytes → digits.now ≡ base32 bytes
        → IfOk result (λ found. IsSomeAnd found (λ answer. answer.items ≡ bytes)) }
{
    decode(alloc, Alphabet::Standard, digits)
}

/// Decodes base 32 with the extended hex alphabet (RFC 4648, section 7), by the rules of
/// [`base32_decode`]. The only error is `AllocError`.
///
/// ```rust
/// use cbor_notes::base32hex_decode;
///
/// let bytes = base32hex_decode(alloc, b"CPNMU===")?;
/// assert_eq!(rt; bytes.as_deref(), Some(b"foo".as_slice()));
/// ```
pub fn base32hex_decode(alloc: Global, digits: &[u8]) -> Result<Option<Vec<u8>>, AllocError>
    ensures found { IfOk result
        (λ found. IfSome found (λ bytes. AreBytes bytes.items
        × (digits.now ≡ base32hex bytes.items))) }
    ensures none { IfOk result (λ found. IfNone found
        ((bytes : List ℕ) → AreBytes bytes → digits.now ≢ base32hex bytes)) }
    // No two lists of bytes have the same digits.
    ensures only { (bytes : List ℕ) → AreBytes bytes → digits.now ≡ base32hex bytes
        → IfOk result (λ found. IsSomeAnd found (λ answer. answer.items ≡ bytes)) }
{
    decode(alloc, Alphabet::ExtendedHex, digits)
}

fn decode(alloc: Global, alphabet: Alphabet, digits: &[u8]) -> Result<Option<Vec<u8>>, AllocError>
    ensures found { IfOk result
        (λ found. IfSome found (λ bytes. AreBytes bytes.items
        × (digits.now ≡ encode (alphabet_view alphabet) bytes.items))) }
    ensures only { (bytes : List ℕ) → AreBytes bytes
        → digits.now ≡ encode (alphabet_view alphabet) bytes
        → IfOk result (λ found. IsSomeAnd found (λ answer. answer.items ≡ bytes)) }
{
    if digits.len() % 8 != 0 {
        return Ok(None);
    }
    let mut bytes = Vec::with_capacity(alloc, digits.len() / 8 * 5)?;
    if digits.is_empty() {
        return Ok(Some(bytes));
    }
    // Only the last group may have padding.
    let last = digits.len() - 8;
    for i in 0..last / 8 {
        let Some(group) = alphabet.whole_group(&digits[8 * i..8 * i + 8]) else {
            return Ok(None);
        };
        bytes.extend_from_slice(&group)?;
    }
    let Some((number, count)) = alphabet.last_group(&digits[last..]) else {
        return Ok(None);
    };
    let group = five_bytes(number);
    bytes.extend_from_slice(&group[..count])?;
    Ok(Some(bytes))
}

impl Alphabet {
    /// The five bits of a digit.
    fn value(self, digit: u8) -> Option<u8>
        ensures found { IfSome result
            (λ value. (value < 32)
            × (slice_index (characters (alphabet_view self)) value ≡ digit)) }
        ensures only { (value : ℕ) → value < 32
            → slice_index (characters (alphabet_view self)) value ≡ digit
            → result ≡ Some value }
    {
        match self {
            Alphabet::Standard => match digit {
                b'A'..=b'Z' => Some(digit - b'A'),
                b'2'..=b'7' => Some(digit - b'2' + 26),
                _ => None,
            },
            Alphabet::ExtendedHex => match digit {
                b'0'..=b'9' => Some(digit - b'0'),
                b'A'..=b'V' => Some(digit - b'A' + 10),
                _ => None,
            },
        }
    }

    /// The number that at most eight digits encode, the first digit highest.
    fn number(self, digits: &[u8]) -> Option<u64>
        requires { length digits.now ≤ 8 }
        ensures found { IfSome result (λ number. Writes (alphabet_view self) digits.now number) }
        ensures only { (number : ℕ) → Writes (alphabet_view self) digits.now number
            → result ≡ Some number }
    {
        let mut number = 0;
        for digit in digits {
            number = number * 32 + u64::from(self.value(*digit)?);
        }
        Some(number)
    }

    /// The five bytes that eight digits encode.
    fn whole_group(self, digits: &[u8]) -> Option<[u8; 5]>
        requires { length digits.now ≡ 8 }
        ensures found { IfSome result
            (λ group. AreBytes group × (length group ≡ 5)
            × (digits.now ≡ encode_group (alphabet_view self) group)) }
        ensures only { (group : List ℕ) → AreBytes group → length group ≡ 5
            → digits.now ≡ encode_group (alphabet_view self) group → result ≡ Some group }
    {
        Some(five_bytes(self.number(digits)?))
    }

    /// The forty bits of the last group, and how many bytes it encodes.
    fn last_group(self, digits: &[u8]) -> Option<(u64, usize)>
        requires { length digits.now ≡ 8 }
        ensures found { IfSome result (λ answer. (group : List ℕ) × IsLastGroup group
            × (digits.now ≡ encode_group (alphabet_view self) group)
            × (answer.0 ≡ forty_bits group) × (answer.1 ≡ length group)) }
        ensures only { (group : List ℕ) → IsLastGroup group
            → digits.now ≡ encode_group (alphabet_view self) group
            → result ≡ Some (forty_bits group, length group) }
    {
        let digit_count = unpadded_len(digits);
        let number = self.number(&digits[..digit_count])?;
        let bits = 5 * digit_count;
        // The bits after the last whole byte are not used.
        if number % (1 << (bits % 8)) != 0 {
            return None;
        }
        Some((number << (40 - bits), bits / 8))
    }
}

/// How many digits of a group come before its padding: the smallest of 2, 4, 5, 7 and 8 after which
/// all digits are `=`.
fn unpadded_len(digits: &[u8]) -> usize
    requires { length digits.now ≡ 8 }
    ensures count { IsDigitCount result }
    ensures padding { drop result digits.now ≡ replicate (8 - result) 61 }
    ensures least { (count : ℕ) → IsDigitCount count
        → drop count digits.now ≡ replicate (8 - count) 61 → result ≤ count }
{
    if digits.ends_with(b"======") {
        2
    } else if digits.ends_with(b"====") {
        4
    } else if digits.ends_with(b"===") {
        5
    } else if digits.ends_with(b"=") {
        7
    } else {
        8
    }
}

/// A number of forty bits as five bytes, the highest first.
fn five_bytes(number: u64) -> [u8; 5]
    requires { number < 2 ^ 40 }
    ensures number { number_from_digits 256 result ≡ number }
    ensures five { length result ≡ 5 }
    ensures bytes { AreBytes result }
{
    let [_, _, _, a, b, c, d, e] = number.to_be_bytes();
    [a, b, c, d, e]
}
