//! Decodes base 64 as people paste it: in either alphabet, with padding or without, with blanks and
//! line ends between the digits.
ghost use Rattle.std.specs.Prelude.{◌≡◌, IfOk, IfSome, IfNone, List, ℕ};
ghost use Rattle.cbor_edn_grammar.specs.Digits.{is_padded, to_standard, to_url_safe};
ghost use Rattle.cbor_inputs.specs.Base64.{is_blank, digits_of, in_one_alphabet, Encodes};
ghost use Rattle.cbor_inputs.specs.Texts.{unmarked};

use crate::text::unmarked;
use cbor_tokens::base64_text::decode;
use std::alloc::{AllocError, Global};

/// Whether a byte is a blank or ends a line.
pub(crate) fn is_blank(byte: u8) -> bool
    ensures { result ≡ is_blank byte }
{
    byte == b' ' || byte == b'\t' || byte == b'\r' || byte == b'\n'
}

/// The digits of a text: what is no blank and no line end.
fn digits_of(alloc: Global, text: &[u8]) -> Result<Vec<u8>, AllocError>
    ensures { IfOk result (λ digits. digits.items ≡ digits_of text.now) }
{
    text.iter()
        .copied()
        .filter(|byte| !is_blank(*byte))
        .collect(alloc)
}

/// Whether digits have padding.
fn is_padded(digits: &[u8]) -> bool
    ensures { result ≡ is_padded digits.now }
{
    digits.iter().any(|digit| *digit == b'=')
}

/// A digit as the standard alphabet has it.
fn to_standard(digit: u8) -> u8
    ensures { result ≡ to_standard digit }
{
    match digit {
        b'-' => b'+',
        b'_' => b'/',
        digit => digit,
    }
}

/// A digit as the alphabet for URLs has it.
fn to_url_safe(digit: u8) -> u8
    ensures { result ≡ to_url_safe digit }
{
    match digit {
        b'+' => b'-',
        b'/' => b'_',
        digit => digit,
    }
}

/// Each digit as the standard alphabet has it, or else as that for URLs.
fn in_one_alphabet(alloc: Global, digits: &[u8], is_standard: bool) -> Result<Vec<u8>, AllocError>
    ensures { IfOk result (λ v. v.items ≡ in_one_alphabet is_standard digits.now) }
{
    if is_standard {
        digits
            .iter()
            .map(|digit| to_standard(*digit))
            .collect(alloc)
    } else {
        digits
            .iter()
            .map(|digit| to_url_safe(*digit))
            .collect(alloc)
    }
}

/// The bytes of a text in base 64, which may have a byte order mark before it, or `None` if it is
/// none.
pub(crate) fn bytes_of_base64(alloc: Global, text: &[u8]) -> Result<Option<Vec<u8>>, AllocError>
    ensures found { IfOk result (λ found. IfSome found
        (λ bytes. Encodes (digits_of (unmarked text.now)) bytes.items)) }
    ensures one { IfOk result (λ found. IfSome found (λ bytes. (others : List ℕ)
        → Encodes (digits_of (unmarked text.now)) others → others ≡ bytes.items)) }
    ensures none { IfOk result (λ found. IfNone found ((bytes : List ℕ)
        → ¬ (Encodes (digits_of (unmarked text.now)) bytes))) }
{
    let digits = digits_of(alloc, unmarked(text))?;
    let padded = is_padded(&digits);
    let digits = in_one_alphabet(alloc, &digits, padded)?;
    decode(alloc, &digits, !padded)
}
