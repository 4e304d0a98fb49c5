//! Reads the literals of CDDL: numbers as values, and strings as bytes. It decodes escapes, hex and
//! base 64.

use crate::fault::FaultKind;
use crate::lexer::{byte_at, digit_of};
use crate::schema::Value;
use cbor_floats::parse_number;
use cbor_tokens::base64_any_decode;
use std::alloc::{AllocError, Global};
use std::num::nearest_u64_to_f64;

/// The integer that these digits are, if it is below 2^128.
fn integer_of(digits: &[u8], base: u8) -> Option<u128> {
    let mut number = 0u128;
    for digit in digits {
        let value = digit_of(*digit);
        if value >= base {
            return None;
        }
        number = number
            .checked_mul(u128::from(base))?
            .checked_add(u128::from(value))?;
    }
    Some(number)
}

/// The integer without a sign that a token is.
fn size_of(text: &[u8]) -> Option<u128> {
    match text {
        [b'0', b'x', digits @ ..] if !digits.is_empty() => integer_of(digits, 16),
        [b'0', b'b', digits @ ..] if !digits.is_empty() => integer_of(digits, 2),
        [b'0', _, ..] | [] => None,
        _ => integer_of(text, 10),
    }
}

/// The integer without a sign that a token is, if it is below 2^64.
pub(crate) fn unsigned_of(text: &[u8]) -> Option<u64> {
    u64::try_from(size_of(text)?).ok()
}

/// The integer that a token is, if an item can be it.
fn signed_of(text: &[u8]) -> Option<i128> {
    match text {
        [b'-', digits @ ..] => {
            let below = size_of(digits)?.saturating_sub(1);
            let number = -1 - i128::from(u64::try_from(below).ok()?);
            Some(if size_of(digits)? == 0 { 0 } else { number })
        }
        _ => Some(i128::from(unsigned_of(text)?)),
    }
}

/// The decimal exponent that digits with a sign are; at most a few thousand.
fn exponent_of(text: &[u8]) -> i32 {
    let (digits, negative) = match text {
        [b'-', digits @ ..] => (digits, true),
        [b'+', digits @ ..] => (digits, false),
        _ => (text, false),
    };
    let size = integer_of(digits, 10).unwrap_or(5000).min(5000);
    let size = i32::try_from(size).unwrap_or(5000);
    if negative { -size } else { size }
}

/// A number times a power of two.
fn scaled(number: f64, exponent: i32) -> f64 {
    let factor = if exponent < 0 { 0.5 } else { 2.0 };
    let mut product = number;
    for _ in 0..exponent.unsigned_abs() {
        product = product * factor;
    }
    product
}

/// The float that a hexadecimal token with an exponent is.
fn hex_float(text: &[u8]) -> Option<f64> {
    let (digits, negative) = match text {
        [b'-', b'0', b'x', digits @ ..] => (digits, true),
        [b'0', b'x', digits @ ..] => (digits, false),
        _ => return None,
    };
    let mark = digits.iter().position(|byte| *byte | 0x20 == b'p')?;
    let mut number = 0.0;
    let mut places = 0i32;
    let mut in_fraction = false;
    for byte in digits.get(..mark)? {
        if *byte == b'.' {
            in_fraction = true;
            continue;
        }
        number = number * 16.0 + nearest_u64_to_f64(u64::from(digit_of(*byte)));
        if in_fraction {
            places = places.saturating_sub(4);
        }
    }
    let exponent = exponent_of(digits.get(mark.saturating_add(1)..)?);
    let value = scaled(number, exponent.saturating_add(places));
    Some(if negative { -value } else { value })
}

/// The value of a number.
pub(crate) fn number_value(text: &[u8]) -> Option<Value> {
    if let Some(number) = signed_of(text) {
        return Some(Value::Integer(number));
    }
    if let Some(number) = hex_float(text) {
        return Some(Value::Float(number));
    }
    match parse_number(text) {
        Ok(number) if number.is_finite() => Some(Value::Float(number)),
        _ => None,
    }
}

/// The number of these hex digits, if there are at most six and all are digits.
fn code_of(digits: &[u8]) -> Option<u32> {
    if digits.is_empty() || digits.len() > 6 {
        return None;
    }
    u32::try_from(integer_of(digits, 16)?).ok()
}

/// The number behind `\u`: four digits, or some in braces; and how many bytes these are.
fn code_at(text: &[u8], at: usize) -> Option<(u32, usize)> {
    if byte_at(text, at) == b'{' {
        let rest = text.get(at.saturating_add(1)..)?;
        let len = rest.iter().position(|byte| *byte == b'}')?;
        return Some((code_of(rest.get(..len)?)?, len.saturating_add(2)));
    }
    let digits = text.get(at..at.saturating_add(4))?;
    Some((code_of(digits)?, 4))
}

/// The character behind `\u` at `at`, also of a surrogate pair, and how many bytes it takes.
fn escaped_char(text: &[u8], at: usize) -> Option<(char, usize)> {
    let (high, len) = code_at(text, at)?;
    if !(0xd800..0xdc00).contains(&high) {
        return Some((char::from_u32(high)?, len));
    }
    let second = at.saturating_add(len);
    if byte_at(text, second) != b'\\' || byte_at(text, second.saturating_add(1)) != b'u' {
        return None;
    }
    let (low, low_len) = code_at(text, second.saturating_add(2))?;
    if !(0xdc00..0xe000).contains(&low) {
        return None;
    }
    let code = 0x10000u32
        .checked_add(high.checked_sub(0xd800)?.checked_mul(0x400)?)?
        .checked_add(low.checked_sub(0xdc00)?)?;
    let len = len.saturating_add(low_len).saturating_add(2);
    Some((char::from_u32(code)?, len))
}

/// The byte of an escape of one letter.
fn escaped_byte(letter: u8) -> Option<u8> {
    match letter {
        b'"' | b'\'' | b'\\' | b'/' => Some(letter),
        b'b' => Some(8),
        b'f' => Some(12),
        b'n' => Some(10),
        b'r' => Some(13),
        b't' => Some(9),
        _ => None,
    }
}

/// Appends the character behind the backslash before `at`, and returns how many bytes it takes, or
/// `None` if there is no such escape.
fn push_escape(out: &mut Vec<u8>, text: &[u8], at: usize) -> Result<Option<usize>, AllocError> {
    let letter = byte_at(text, at);
    if letter == b'u' {
        let Some((c, len)) = escaped_char(text, at.saturating_add(1)) else {
            return Ok(None);
        };
        let mut buffer = [0u8; 4];
        for byte in c.encode_utf8(&mut buffer).as_bytes() {
            out.push(*byte)?;
        }
        return Ok(Some(len.saturating_add(1)));
    }
    let Some(byte) = escaped_byte(letter) else {
        return Ok(None);
    };
    out.push(byte)?;
    Ok(Some(1))
}

/// The content of a string between its quotes, without escapes.
pub(crate) fn unescaped(alloc: Global, text: &[u8]) -> Result<Vec<u8>, FaultKind> {
    let mut out = Vec::new(alloc);
    let mut at = 0usize;
    for _ in 0..text.len() {
        if at >= text.len() {
            break;
        }
        let byte = byte_at(text, at);
        at = at.saturating_add(1);
        if byte != b'\\' {
            if out.push(byte).is_err() {
                return Err(FaultKind::Memory);
            }
            continue;
        }
        match push_escape(&mut out, text, at) {
            Ok(Some(len)) => at = at.saturating_add(len),
            Ok(None) => return Err(FaultKind::Escape),
            Err(_) => return Err(FaultKind::Memory),
        }
    }
    Ok(out)
}

/// The bytes that are no blanks.
fn without_blanks(alloc: Global, text: &[u8]) -> Result<Vec<u8>, FaultKind> {
    let mut out = Vec::new(alloc);
    for byte in text {
        if !byte.is_ascii_whitespace() && out.push(*byte).is_err() {
            return Err(FaultKind::Memory);
        }
    }
    Ok(out)
}

/// The bytes that hex digits with blanks between them stand for.
pub(crate) fn hex_bytes(alloc: Global, text: &[u8]) -> Result<Vec<u8>, FaultKind> {
    let digits = without_blanks(alloc, text)?;
    let mut out = Vec::new(alloc);
    let mut high = None;
    for digit in &digits {
        let value = digit_of(*digit);
        if value > 15 {
            return Err(FaultKind::Hex);
        }
        match high {
            None => high = Some(value),
            Some(first) => {
                high = None;
                if out.push((first & 15) << 4 | value).is_err() {
                    return Err(FaultKind::Memory);
                }
            }
        }
    }
    if high.is_some() {
        return Err(FaultKind::Hex);
    }
    Ok(out)
}

/// The bytes that base 64 with blanks in it stands for.
pub(crate) fn base64_bytes(alloc: Global, text: &[u8]) -> Result<Vec<u8>, FaultKind> {
    let digits = without_blanks(alloc, text)?;
    match base64_any_decode(alloc, &digits) {
        Ok(Some(bytes)) => Ok(bytes),
        Ok(None) => Err(FaultKind::Base64),
        Err(_) => Err(FaultKind::Memory),
    }
}
