//! Decodes base 64 (RFC 4648, sections 4 and 5): the standard alphabet with padding, the URL-safe
//! alphabet without padding, or either of the two.

ghost use Rattle.std.specs.Prelude.{◌≡◌, ◌≢◌, ◌⊎◌, ℕ, List, option_map};
ghost use Rattle.std.specs.Prelude.{IfSome, IfNone, IfOk, IsSomeAnd};
ghost use Rattle.std.specs.List.{list_any};
ghost use Rattle.base64.specs.GeneralPurpose.{IsStrict, decoded_of, encode_of};
ghost use Rattle.cbor_tokens.specs.AreBytes.{AreBytes};
ghost use Rattle.cbor_tokens.specs.Base64.{decoded, encoding, is_standard_only, standard, url_safe};

use base64::DecodeAllocError;
use base64::engine::general_purpose::{GeneralPurpose, STANDARD, URL_SAFE_NO_PAD};
use std::alloc::{AllocError, Global};

/// Decodes base 64 in either of two encodings: the URL-safe alphabet without padding (RFC 4648,
/// section 5), or the standard alphabet with padding (section 4).
///
/// Returns `None` unless `digits` are exactly an encoding of some bytes in one of them: if a
/// character is in neither alphabet, if both are mixed, if the length or the padding is wrong, or
/// if a bit that no byte uses is set. Digits that are an encoding in both decode to the same bytes.
/// The only error is `AllocError`.
///
/// ```rust
/// use cbor_notes::base64_any_decode;
///
/// let bytes = base64_any_decode(alloc, b"Zm9vYg==")?;
/// assert_eq!(rt; bytes.as_deref(), Some(b"foob".as_slice()));
/// ```
pub fn base64_any_decode(alloc: Global, digits: &[u8]) -> Result<Option<Vec<u8>>, AllocError>
    ensures found { IfOk result (λ found. IfSome found
        (λ bytes. AreBytes bytes.items
        × ((digits.now ≡ url_safe bytes.items) ⊎ (digits.now ≡ standard bytes.items)))) }
    ensures none { IfOk result (λ found. IfNone found ((bytes : List ℕ) → AreBytes bytes
        → (digits.now ≢ url_safe bytes) × (digits.now ≢ standard bytes))) }
    // No two lists of bytes have the same digits, not even one in each alphabet.
    ensures only_url_safe { (bytes : List ℕ) → AreBytes bytes → digits.now ≡ url_safe bytes
        → IfOk result (λ found. IsSomeAnd found (λ answer. answer.items ≡ bytes)) }
    ensures only_standard { (bytes : List ℕ) → AreBytes bytes → digits.now ≡ standard bytes
        → IfOk result (λ found. IsSomeAnd found (λ answer. answer.items ≡ bytes)) }
{
    decode(alloc, digits, !is_standard_only(digits))
}

/// Whether one of the digits is `+`, `/` or `=`, which only the standard encoding has. Digits
/// without these that encode bytes in the standard encoding encode the same bytes in the other.
fn is_standard_only(digits: &[u8]) -> bool
    ensures { result ≡ list_any is_standard_only digits.now }
{
    digits
        .iter()
        .any(|digit| *digit == b'+' || *digit == b'/' || *digit == b'=')
}

/// The bytes that `digits` encode in the URL-safe alphabet without padding if `url` is set,
/// otherwise in the standard alphabet with padding.
pub fn decode(alloc: Global, digits: &[u8], url: bool) -> Result<Option<Vec<u8>>, AllocError>
    ensures found { IfOk result (λ found. IfSome found
        (λ bytes. AreBytes bytes.items × (digits.now ≡ encoding url bytes.items))) }
    ensures only { (bytes : List ℕ) → AreBytes bytes → digits.now ≡ encoding url bytes
        → IfOk result (λ found. IsSomeAnd found (λ answer. answer.items ≡ bytes)) }
    ensures value { IfOk result
        (λ found. option_map (λ bytes. bytes.items) found ≡ decoded url digits.now) }
{
    if url {
        decode_with(&URL_SAFE_NO_PAD, alloc, digits)
    } else {
        decode_with(&STANDARD, alloc, digits)
    }
}

/// The bytes that `digits` encode under one engine.
fn decode_with(
    engine: &GeneralPurpose,
    alloc: Global,
    digits: &[u8],
) -> Result<Option<Vec<u8>>, AllocError>
    requires { IsStrict engine.now }
    ensures found { IfOk result (λ found. IfSome found
        (λ bytes. AreBytes bytes.items × (digits.now ≡ encode_of engine.now bytes.items))) }
    ensures only { (bytes : List ℕ) → AreBytes bytes → digits.now ≡ encode_of engine.now bytes
        → IfOk result (λ found. IsSomeAnd found (λ answer. answer.items ≡ bytes)) }
    ensures value { IfOk result
        (λ found. option_map (λ bytes. bytes.items) found ≡ decoded_of engine.now digits.now) }
{
    match engine.decode(alloc, digits) {
        Ok(bytes) => Ok(Some(bytes)),
        Err(DecodeAllocError::DecodeError(_)) => Ok(None),
        Err(DecodeAllocError::OutOfMemory) => Err(AllocError),
    }
}
