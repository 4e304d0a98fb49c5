//! Reads the digits between apostrophes in EDN, as in `h'..'` and `b64'..'`, and decodes them to
//! bytes. The digits are in base 16, 32 or 64, and may have blanks and comments between them.
ghost use Rattle.std.specs.Prelude.{◌≡◌, ◌<◌, ◌≤◌, ◌==◌, drop, true, length, option_map};
ghost use Rattle.std.specs.Prelude.{position, IfOk, IfErr, IfSome};
ghost use Rattle.cbor_tokens.specs.Base32.{standard, extended_hex};
ghost use Rattle.cbor_tokens.specs.HexDigits.{base16_of};
ghost use Rattle.cbor_notation.specs.mirror.NotationReading.{base32_of, base64_of};
ghost use Rattle.cbor_edn_grammar.specs.Reading.{Gives, TurnGives};
ghost use Rattle.cbor_edn_grammar.specs.Digits.{digit_turn, digits_of, is_padded, padded};
ghost use Rattle.cbor_edn_grammar.specs.Digits.{has_standard, has_url_safe, to_standard};
ghost use Rattle.cbor_edn_grammar.specs.Digits.{to_url_safe};
ghost use Rattle.cbor_edn_grammar.specs.Digits.{one_alphabet, decoded, decoded_front, read_digits};

use crate::blank::after_blank;
use crate::cursor::Cursor;
use crate::digit_fault::digit_fault;
use cbor_edn_grammar::error::{Expected, Stop};
use cbor_edn_grammar::opening::Base;
use cbor_notation::content::base16;
use memchr::memchr;
use std::alloc::{AllocError, Global};

/// Adds the next digit after a blank. Returns false at the end.
fn digit_turn(digits: &mut Vec<u8>, text: &mut Cursor<'_>, slashes: bool) -> Result<bool, Stop>
    ensures gives { TurnGives result digits.old.items digits.new.items text.new
        (digit_turn slashes text.old) }
    ensures within { length text.new ≤ length text.old }
    ensures shorter { IfOk result (λ more. more ≡ true → length text.new < length text.old) }
{
    match after_blank(text.rest(), slashes) {
        [first, rest @ ..] => {
            digits.push(*first)?;
            *text = Cursor::new(rest);
            Ok(true)
        }
        [] => {
            *text = Cursor::new(&[]);
            Ok(false)
        }
    }
}

/// The digits without the blanks before, between and after them.
fn digits_of(alloc: Global, content: &[u8], slashes: bool) -> Result<Vec<u8>, Stop>
    ensures { Gives (λ x. x.items) result (digits_of slashes content.now) }
{
    let mut digits = Vec::new(alloc);
    let mut text = Cursor::new(content);
    'digits: loop {
        let more = digit_turn(&mut digits, &mut text, slashes)?;
        if !more {
            return Ok(digits);
        }
    }
}

/// Whether digits have padding.
fn is_padded(digits: &[u8]) -> bool
    ensures { result ≡ is_padded digits.now }
{
    digits.iter().any(|digit| *digit == b'=')
}

/// Adds the padding of base 32 that was left out.
fn pad(digits: &mut Vec<u8>) -> Result<(), AllocError>
    ensures { IfOk result (λ _. digits.new.items ≡ padded digits.old.items) }
{
    if !is_padded(digits) {
        let missing = (8 - digits.len() % 8) % 8;
        digits.resize(digits.len() + missing, b'=')?;
    }
    Ok(())
}

/// Whether any digit is one of the two that only the standard alphabet of base 64 has.
fn has_standard(digits: &[u8]) -> bool
    ensures { result ≡ has_standard digits.now }
{
    digits.iter().any(|digit| *digit == b'+' || *digit == b'/')
}

/// Whether any digit is one of the two that only the URL-safe alphabet of base 64 has.
fn has_url_safe(digits: &[u8]) -> bool
    ensures { result ≡ has_url_safe digits.now }
{
    digits.iter().any(|digit| *digit == b'-' || *digit == b'_')
}

/// Translates a digit of base 64 to the standard alphabet.
fn to_standard(digit: u8) -> u8
    ensures { result ≡ to_standard digit }
{
    match digit {
        b'-' => b'+',
        b'_' => b'/',
        digit => digit,
    }
}

/// Translates a digit of base 64 to the URL-safe alphabet.
fn to_url_safe(digit: u8) -> u8
    ensures { result ≡ to_url_safe digit }
{
    match digit {
        b'+' => b'-',
        b'/' => b'_',
        digit => digit,
    }
}

/// Returns digits of base 64 in a form of RFC 4648: in the standard alphabet with padding, or in
/// the URL-safe alphabet without. A mix of both alphabets stays as it is.
fn one_alphabet(alloc: Global, digits: &[u8]) -> Result<Vec<u8>, AllocError>
    ensures { IfOk result (λ v. v.items ≡ one_alphabet digits.now) }
{
    if is_padded(digits) {
        if has_standard(digits) {
            return digits.to_vec(alloc);
        }
        digits
            .iter()
            .map(|digit| to_standard(*digit))
            .collect(alloc)
    } else {
        if has_url_safe(digits) {
            return digits.to_vec(alloc);
        }
        digits
            .iter()
            .map(|digit| to_url_safe(*digit))
            .collect(alloc)
    }
}

/// The bytes that hex digits encode.
fn decode_hex(alloc: Global, digits: &[u8]) -> Result<Option<Vec<u8>>, Stop>
    ensures gives { IfOk result (λ found. option_map (λ x. x.items) found ≡ base16_of digits.now) }
    ensures refused { IfErr result (λ e. e ≡ Stop.Memory) }
{
    match base16(alloc, digits) {
        Ok(found) => Ok(found),
        Err(_) => Err(Stop::Memory),
    }
}

/// The bytes that digits of base 64 encode, in the form of RFC 4648.
fn decode_base64(alloc: Global, digits: &[u8]) -> Result<Option<Vec<u8>>, AllocError>
    ensures { IfOk result (λ found. option_map (λ x. x.items) found ≡ base64_of digits.now) }
{
    cbor_tokens::base64_any_decode(alloc, digits)
}

/// The bytes that digits of base 32 encode, with padding.
fn decode_base32(alloc: Global, digits: &[u8]) -> Result<Option<Vec<u8>>, AllocError>
    ensures { IfOk result (λ found. option_map (λ x. x.items) found
        ≡ base32_of standard digits.now) }
{
    cbor_tokens::base32_decode(alloc, digits)
}

/// The bytes that digits of base 32 with the extended hex alphabet encode, with padding.
fn decode_base32hex(alloc: Global, digits: &[u8]) -> Result<Option<Vec<u8>>, AllocError>
    ensures { IfOk result (λ found. option_map (λ x. x.items) found
        ≡ base32_of extended_hex digits.now) }
{
    cbor_tokens::base32hex_decode(alloc, digits)
}

/// The bytes that the digits encode, or `None` if they do not encode bytes.
fn found(alloc: Global, base: Base, mut digits: Vec<u8>) -> Result<Option<Vec<u8>>, Stop>
    ensures gives { IfOk result (λ found. option_map (λ x. x.items) found
        ≡ decoded base digits.items) }
    ensures refused { IfErr result (λ e. e ≡ Stop.Memory) }
{
    match base {
        Base::Hex => decode_hex(alloc, &digits),
        Base::Base64 => {
            let digits = one_alphabet(alloc, &digits)?;
            Ok(decode_base64(alloc, &digits)?)
        }
        Base::Base32 => {
            pad(&mut digits)?;
            Ok(decode_base32(alloc, &digits)?)
        }
        Base::Base32Hex => {
            pad(&mut digits)?;
            Ok(decode_base32hex(alloc, &digits)?)
        }
    }
}

/// The bytes that the digits encode, or an error if they do not encode bytes.
fn decoded(alloc: Global, base: Base, digits: Vec<u8>) -> Result<Vec<u8>, Stop>
    ensures { Gives (λ x. x.items) result (decoded base digits.items) }
{
    match found(alloc, base, digits)? {
        Some(bytes) => Ok(bytes),
        None => Err(Stop::At(Expected::Digit)),
    }
}

/// The bytes that the first `end` characters encode in hex. Digits without blanks between them, the
/// usual case, are decoded in place. Others are gathered first.
fn hex_front(alloc: Global, text: &[u8], end: usize) -> Result<Vec<u8>, Stop>
    requires { end ≤ length text.now }
    ensures { Gives (λ x. x.items) result (decoded_front Base.Hex text.now end) }
{
    let content = &text[..end];
    if let Some(bytes) = decode_hex(alloc, content)? {
        return Ok(bytes);
    }
    let digits = digits_of(alloc, content, true)?;
    decoded(alloc, Base::Hex, digits)
}

/// The bytes that the first `end` characters encode.
fn decoded_front(alloc: Global, text: &[u8], base: Base, end: usize) -> Result<Vec<u8>, Stop>
    requires { end ≤ length text.now }
    ensures { Gives (λ x. x.items) result (decoded_front base text.now end) }
{
    if let Base::Hex = base {
        return hex_front(alloc, text, end);
    }
    let digits = digits_of(alloc, &text[..end], base.slashes())?;
    decoded(alloc, base, digits)
}

/// The index of the first apostrophe.
pub fn find_apostrophe(text: &[u8]) -> Option<usize>
    ensures at { result ≡ position (λ b. b == 39) text.now }
    ensures within { IfSome result (λ n. n < length text.now) }
{
    memchr(b'\'', text)
}

/// The bytes that the digits up to the next apostrophe encode, and the index after the apostrophe.
fn digits_front(alloc: Global, text: &[u8], base: Base) -> Result<(Vec<u8>, usize), Stop>
    ensures gives { Gives (λ x. (x.0.items, drop x.1 text.now)) result
        (read_digits base text.now) }
    ensures within { IfOk result (λ x. (0 < x.1) × (x.1 ≤ length text.now)) }
{
    match find_apostrophe(text) {
        Some(end) => {
            let bytes = decoded_front(alloc, text, base, end)?;
            Ok((bytes, end + 1))
        }
        None => Err(Stop::At(Expected::Quote)),
    }
}

/// Reads the digits up to the next apostrophe, and returns the bytes that they encode. An error is
/// at the first character that cannot be there.
pub fn read_digits(alloc: Global, text: &mut Cursor<'_>, base: Base) -> Result<Vec<u8>, Stop>
    ensures gives { Gives (λ x. (x.items, text.new)) result (read_digits base text.old) }
    ensures within { length text.new ≤ length text.old }
    ensures shorter { IfOk result (λ _. length text.new < length text.old) }
{
    let rest = text.rest();
    match digits_front(alloc, rest, base) {
        Ok((bytes, end)) => {
            *text = Cursor::new(&rest[end..]);
            Ok(bytes)
        }
        Err(Stop::Memory) => Err(Stop::Memory),
        Err(Stop::At(_)) => {
            let (at, expected) = digit_fault(rest, base);
            *text = Cursor::new(&rest[at..]);
            Err(Stop::At(expected))
        }
    }
}
