//! Reads simple values and floats of notation into a `DataItem`.
ghost use Rattle.std.specs.Prelude.{◌≡◌, ◌<◌, ◌≤◌, ◌^◌, ◌==◌, ℕ, length, nat_lt, position, IfOk};
ghost use Rattle.std.specs.List.{list_all};
ghost use Rattle.std.specs.Char.{digit_value};
ghost use Rattle.cbor_diag.specs.View.{view};
ghost use Rattle.cbor_grammar.specs.WellFormed.{deepest, WellFormed, FitsFloat};
ghost use Rattle.cbor_grammar.specs.Reading.{Gives};
ghost use Rattle.cbor_notation.specs.mirror.NotationReading.{or_refused, numeral, named};
ghost use Rattle.cbor_notation.specs.mirror.NotationReading.{read_simple};
ghost use Rattle.cbor_notation.specs.mirror.NotationReading.{float_of, read_float, read_word};

use super::stop::{stop_after_blank, stop_before_last, stop_in_word};
use crate::syntax::DataItem;
use cbor_grammar::{Error, FloatWidth, Result, Simple};
use cbor_notation::cursor::Cursor;
use cbor_notation::number::read_number;

/// What simple values and floats begin with.
const WORDS: [&[u8]; 6] = [
    b"false",
    b"true",
    b"null",
    b"undefined",
    b"simple(",
    b"float'",
];

/// Whether all of the bytes are decimal digits.
fn are_decimal(digits: &[u8]) -> bool
    ensures { result ≡ list_all (λ c. nat_lt (digit_value c) 10) digits.now }
{
    digits.iter().all(|digit| char::from(*digit).is_digit(10))
}

/// A simple value after `simple(`: decimal digits of a value below 256, and `)`.
fn read_simple(text: &mut Cursor<'_>) -> Result<DataItem>
    ensures gives { Gives (λ x. (view x, text.new)) result
        (read_simple text.old) }
    ensures shorter { IfOk result (λ _. length text.new ≤ length text.old) }
    ensures well { IfOk result (λ x. (level : ℕ) → level ≤ deepest → WellFormed level (view x)) }
{
    let digits = text.rest();
    let (value, _) = read_number(text)?;
    if value > 255 || !are_decimal(&digits[..digits.len() - text.rest().len()]) {
        stop_before_last(digits, text);
        return Err(Error::Notation);
    }
    text.expect_byte(b')')?;
    Ok(DataItem::Simple(Simple(value as u8)))
}

/// The width of a float of `count` hex digits.
fn float_width(count: usize) -> Result<FloatWidth>
    ensures gives { Gives (λ w. w) result (or_refused (float_of count)) }
    ensures fits { IfOk result (λ w. (bits : ℕ) → bits < 16 ^ count → FitsFloat w bits) }
    ensures few { IfOk result (λ w. count ≤ 16) }
{
    match count {
        4 => Ok(FloatWidth::Sixteen),
        8 => Ok(FloatWidth::ThirtyTwo),
        16 => Ok(FloatWidth::SixtyFour),
        _ => Err(Error::Notation),
    }
}

/// The number that at most sixteen hex digits, of either case, encode.
fn hex_number(digits: &[u8]) -> Result<u64>
    requires { length digits.now ≤ 16 }
    ensures gives { Gives (λ n. n) result (or_refused (numeral 16 digits.now)) }
    ensures small { IfOk result (λ n. n < 16 ^ length digits.now) }
{
    if digits.is_empty() {
        return Err(Error::Notation);
    }
    let mut number = 0;
    'digits: for byte in digits {
        let Some(digit) = char::from(*byte).to_digit(16) else {
            return Err(Error::Notation);
        };
        number = number * 16 + u64::from(digit);
    }
    Ok(number)
}

/// The index of the first apostrophe.
fn find_apostrophe(text: &[u8]) -> Result<usize>
    ensures gives { Gives (λ n. n) result (or_refused (position (λ b. b == 39) text.now)) }
    ensures within { IfOk result (λ n. n < length text.now) }
{
    match text.iter().position(|byte| *byte == b'\'') {
        Some(place) => Ok(place),
        None => Err(Error::Notation),
    }
}

/// A float after `float'`: 4, 8 or 16 hex digits and `'`.
fn read_float(text: &mut Cursor<'_>) -> Result<DataItem>
    ensures gives { Gives (λ x. (view x, text.new)) result
        (read_float text.old) }
    ensures shorter { IfOk result (λ _. length text.new ≤ length text.old) }
    ensures well { IfOk result (λ x. (level : ℕ) → level ≤ deepest → WellFormed level (view x)) }
{
    let digits = text.rest();
    *text = Cursor::new(&[]);
    let count = find_apostrophe(digits)?;
    *text = Cursor::new(&digits[count..]);
    let bitwidth = float_width(count)?;
    let bits = hex_number(&digits[..count])?;
    *text = Cursor::new(&digits[count + 1..]);
    Ok(DataItem::Float { bits, bitwidth })
}

/// A simple value or a float at the front.
pub(super) fn read_word(text: &mut Cursor<'_>) -> Result<DataItem>
    ensures gives { Gives (λ x. (view x, text.new)) result
        (read_word text.old) }
    ensures shorter { IfOk result (λ _. length text.new ≤ length text.old) }
    ensures well { IfOk result (λ x. (level : ℕ) → level ≤ deepest → WellFormed level (view x)) }
{
    if text.take_word(b"false") {
        Ok(DataItem::Simple(Simple::FALSE))
    } else if text.take_word(b"true") {
        Ok(DataItem::Simple(Simple::TRUE))
    } else if text.take_word(b"null") {
        Ok(DataItem::Simple(Simple::NULL))
    } else if text.take_word(b"undefined") {
        Ok(DataItem::Simple(Simple::UNDEFINED))
    } else if text.take_word(b"simple(") {
        read_simple(text)
    } else if text.take_word(b"float'") {
        read_float(text)
    } else {
        stop_after_blank(text);
        stop_in_word(text, &WORDS);
        Err(Error::Notation)
    }
}
