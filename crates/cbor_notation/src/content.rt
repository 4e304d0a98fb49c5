//! Reads strings of notation from a `Cursor`, after their opening: quoted text with escapes, and
//! the digits of `h'..'`, `h32'..'`, `b32'..'` and `b64'..'`, which it decodes to bytes.
ghost use Rattle.std.specs.Prelude.{◌≡◌, ◌⊎◌, ◌<◌, length, true, false, option_map, IfOk, IfErr};
ghost use Rattle.std.specs.Prelude.{IfSome, Some, None, Err, position};
ghost use Rattle.cbor_grammar.specs.Reading.{Gives};
ghost use Rattle.cbor_tokens.specs.Base32.{standard, extended_hex};
ghost use Rattle.cbor_tokens.specs.Token.{is_special};
ghost use Rattle.cbor_tokens.specs.TokenReading.{unquoted, digits_of};
ghost use Rattle.cbor_tokens.specs.HexDigits.{base16_of};
ghost use Rattle.cbor_notation.specs.mirror.NotationReading.{or_refused, base32_of};
ghost use Rattle.cbor_notation.specs.mirror.NotationReading.{base64_of, read_decoded};
ghost use Rattle.cbor_notation.specs.mirror.NotationReading.{h_notation, b_notation};

use crate::cursor::Cursor;
use crate::scan::after_byte;
use cbor_grammar::{Error, Result};
use memchr::memchr;
use std::alloc::Global;

/// The content up to the closing quote, without its escapes.
pub fn read_quoted(alloc: Global, text: &mut Cursor<'_>, quote: u8) -> Result<Vec<u8>>
    requires { (quote ≡ 34) ⊎ (quote ≡ 39) }
    ensures gives { Gives (λ x. (x.items, text.new)) result
        (or_refused (unquoted quote false text.old)) }
    ensures shorter { IfOk result (λ _. length text.new < length text.old) }
{
    let rest = text.rest();
    match cbor_tokens::quoted_front(alloc, rest, quote)? {
        Some((content, end)) => {
            *text = Cursor::new(&rest[end..]);
            Ok(content)
        }
        None => Err(Error::Notation),
    }
}

/// How many bytes come before the first double quote or backslash; `None` if neither is there.
fn plain_len(text: &[u8]) -> Option<usize>
    ensures { result ≡ position (is_special 34) text.now }
{
    text.iter().position(|byte| matches!(*byte, b'"' | b'\\'))
}

/// The content of a text after its opening quote, and the text after its closing quote. Returns
/// `None` if a backslash comes first, or if there is no closing quote.
pub fn read_plain(text: &[u8]) -> Option<(&[u8], &[u8])>
    ensures gives { IfSome result (λ x. unquoted 34 false text.now ≡ Some (x.0.now, x.1.now)) }
    ensures shorter { IfSome result (λ x. length x.1.now < length text.now) }
{
    let end = plain_len(text)?;
    let (content, rest) = text.split_at(end);
    let after = after_byte(rest, b'"')?;
    Some((content, after))
}

/// The digits up to the closing apostrophe, without the blanks between them.
fn read_digits(alloc: Global, text: &mut Cursor<'_>, comments: bool) -> Result<Vec<u8>>
    ensures gives { Gives (λ x. (x.items, text.new)) result
        (or_refused (digits_of comments text.old)) }
    ensures shorter { IfOk result (λ _. length text.new < length text.old) }
{
    let rest = text.rest();
    match cbor_tokens::digits_front(alloc, rest, comments)? {
        Some((digits, end)) => {
            *text = Cursor::new(&rest[end..]);
            Ok(digits)
        }
        None => Err(Error::Notation),
    }
}

/// The bytes that hex digits encode, two digits of either case for each byte. Returns `None` if the
/// digits are not of this form. The only error is `Memory`.
pub fn base16(alloc: Global, digits: &[u8]) -> Result<Option<Vec<u8>>>
    ensures gives { IfOk result (λ bytes. option_map (λ x. x.items) bytes ≡ base16_of digits.now) }
    ensures refused { IfErr result (λ e. e ≡ Error.Memory) }
{
    Ok(cbor_tokens::decode_hex(alloc, digits)?)
}

/// The bytes of hex digits up to the closing apostrophe. Digits without blanks between them, the
/// usual case, are decoded in place; others are gathered first.
fn read_base16(alloc: Global, text: &mut Cursor<'_>) -> Result<Vec<u8>>
    ensures gives { Gives (λ x. (x.items, text.new)) result
        (read_decoded true base16_of text.old) }
    ensures shorter { IfOk result (λ _. length text.new < length text.old) }
{
    let rest = text.rest();
    if let Some(end) = memchr(b'\'', rest) {
        // `None` here: blanks between them, other bytes, or an odd number of digits.
        if let Some(bytes) = base16(alloc, &rest[..end])? {
            *text = Cursor::new(&rest[end + 1..]);
            return Ok(bytes);
        }
    }
    let digits = read_digits(alloc, text, true)?;
    match base16(alloc, &digits)? {
        Some(bytes) => Ok(bytes),
        None => Err(Error::Notation),
    }
}

/// The bytes that base 32 digits encode.
fn base32(alloc: Global, digits: &[u8]) -> Result<Vec<u8>>
    ensures { Gives (λ x. x.items) result (or_refused (base32_of standard digits.now)) }
{
    let found = cbor_tokens::base32_decode(alloc, digits)?;
    found.ok_or(Error::Notation)
}

/// The bytes that digits of base 32 with the extended hex alphabet encode.
fn base32hex(alloc: Global, digits: &[u8]) -> Result<Vec<u8>>
    ensures { Gives (λ x. x.items) result (or_refused (base32_of extended_hex digits.now)) }
{
    let found = cbor_tokens::base32hex_decode(alloc, digits)?;
    found.ok_or(Error::Notation)
}

/// The bytes that base 64 digits encode: in the URL-safe alphabet without padding, or in the
/// standard alphabet with padding.
fn base64(alloc: Global, digits: &[u8]) -> Result<Vec<u8>>
    ensures { Gives (λ x. x.items) result (or_refused (base64_of digits.now)) }
{
    let found = cbor_tokens::base64_any_decode(alloc, digits)?;
    found.ok_or(Error::Notation)
}

/// The bytes of `h'..'` or `h32'..'` after the `h`.
pub fn h_notation(alloc: Global, text: &mut Cursor<'_>) -> Result<Vec<u8>>
    ensures gives { Gives (λ x. (x.items, text.new)) result (h_notation text.old) }
    ensures shorter { IfOk result (λ _. length text.new < length text.old) }
{
    if text.take_word(b"'") {
        read_base16(alloc, text)
    } else if text.take_word(b"32'") {
        let digits = read_digits(alloc, text, true)?;
        Ok(base32hex(alloc, &digits)?)
    } else {
        Err(Error::Notation)
    }
}

/// The bytes of `b32'..'` or `b64'..'` after the `b`. In base 64 a `/` is a digit, so there are no
/// comments.
pub fn b_notation(alloc: Global, text: &mut Cursor<'_>) -> Result<Vec<u8>>
    ensures gives { Gives (λ x. (x.items, text.new)) result (b_notation text.old) }
    ensures shorter { IfOk result (λ _. length text.new < length text.old) }
{
    if text.take_word(b"32'") {
        let digits = read_digits(alloc, text, true)?;
        Ok(base32(alloc, &digits)?)
    } else if text.take_word(b"64'") {
        let digits = read_digits(alloc, text, false)?;
        Ok(base64(alloc, &digits)?)
    } else {
        Err(Error::Notation)
    }
}
