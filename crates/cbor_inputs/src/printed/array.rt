//! Reads an array of bytes in code: numbers in brackets, with commas between them.

use super::code::take_rest;
use super::cursor::Code;
use super::sink::Sink;

/// Reads an array, which begins with a bracket, and what may follow it. Returns whether that is
/// all, and there is at least one byte.
pub(super) fn read_array(cursor: &mut Code, sink: &mut Sink) -> bool {
    let close: &[u8] = match cursor.peek() {
        b'{' => b"}",
        b'[' => b"]",
        _ => b")",
    };
    sink.clear();
    cursor.pass(1);
    for _ in 0..u64::MAX {
        cursor.skip_space();
        if cursor.take(close) {
            break;
        }
        if !read_number(cursor, sink) {
            return false;
        }
        cursor.skip_space();
        if !cursor.take(b",") && !cursor.rest().starts_with(close) {
            return false;
        }
    }
    sink.count > 0 && take_rest(cursor, sink.count)
}

/// Reads a number from -128 to 255, which may have a cast before it or a conversion behind it:
/// `0x82`, `(byte) 0x82`, `-126`, `130u8`, `0x82.toByte()`.
fn read_number(cursor: &mut Code, sink: &mut Sink) -> bool {
    if cursor.take(b"(") {
        let _ = cursor.word();
        if !cursor.take(b")") {
            return false;
        }
        cursor.skip_space();
    }
    let at = cursor.at;
    let is_negative = cursor.take(b"-");
    let Some(value) = value_of(cursor.word()) else {
        return false;
    };
    let _ = cursor.take(b".toByte()");
    if is_negative && value > 128 {
        return false;
    }
    sink.push(
        if is_negative {
            value.wrapping_neg()
        } else {
            value
        },
        at,
    );
    true
}

/// The value of a number, if it is a byte. Digits after a 0 are read so only if they are the same
/// in base 8 and 10: some languages have the one, and some the other.
fn value_of(word: &[u8]) -> Option<u8> {
    if let Some(digits) = after_prefix(word, b'x') {
        return value_in(digits, 16);
    }
    if let Some(digits) = after_prefix(word, b'b') {
        return value_in(digits, 2);
    }
    let value = value_in(word, 10)?;
    if word.starts_with(b"0") && value > 7 {
        return None;
    }
    Some(value)
}

/// What follows `0x` or `0X`, or another letter.
fn after_prefix(word: &[u8], letter: u8) -> Option<&[u8]> {
    let rest = word.strip_prefix(b"0")?;
    let first = rest.first()?;
    if first.to_ascii_lowercase() == letter {
        rest.get(1..)
    } else {
        None
    }
}

/// The value of digits in this base, which may have a type behind them, as in `130u8`, `0x82U` and
/// `0x82_u8`.
fn value_in(word: &[u8], radix: u16) -> Option<u8> {
    let mut value = 0u16;
    let mut count = 0usize;
    for digit in word {
        let Some(next) = digit_of(*digit, radix) else {
            break;
        };
        value = value.saturating_mul(radix).saturating_add(next);
        count = count.saturating_add(1);
    }
    let suffix = word.get(count..).unwrap_or(b"");
    let is_type = matches!(
        suffix,
        b"" | b"u" | b"U" | b"u8" | b"_u8" | b"i8" | b"UL" | b"L"
    );
    if count > 0 && is_type {
        u8::try_from(value).ok()
    } else {
        None
    }
}

/// The value of a digit in this base.
fn digit_of(digit: u8, radix: u16) -> Option<u16> {
    let value = super::line::value_of(digit)?;
    if u16::from(value) < radix {
        Some(u16::from(value))
    } else {
        None
    }
}
