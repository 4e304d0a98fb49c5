//! Reads a number of notation from a `Cursor`. `read_number` returns its value and its encoding
//! indicator. The other calls return the number in the head of an integer or a tag, and its width,
//! or an error if the number does not fit this width.
ghost use Rattle.std.specs.Prelude.{◌≡◌, ◌≢◌, ◌<◌, ℕ, length, IfOk, Ok, Err, MatchResult};
ghost use Rattle.cbor_tokens.specs.Token.{capped};
ghost use Rattle.cbor_grammar.specs.Head.{FitsWidth};
ghost use Rattle.cbor_grammar.specs.Reading.{Gives};
ghost use Rattle.cbor_notation.specs.mirror.NotationReading.{read_number, with_width};
ghost use Rattle.cbor_notation.specs.mirror.NotationReading.{read_unsigned_number};
ghost use Rattle.cbor_notation.specs.mirror.NotationReading.{read_negative_number};

use crate::cursor::Cursor;
use cbor_grammar::{Error, IntegerWidth, Result};

/// The longest number at the front: its value and its indicator. A value past 2^64 is 2^64 + 1.
pub fn read_number(text: &mut Cursor<'_>) -> Result<(u128, Option<u8>)>
    ensures gives { MatchResult result
        (λ x. (value : ℕ) × (read_number text.old ≡ Ok ((value, x.1), text.new))
        × (x.0 ≡ capped value))
        (λ e. (e ≡ Error.Notation) × (read_number text.old ≡ Err Error.Notation)) }
    ensures shorter { IfOk result (λ _. length text.new < length text.old) }
{
    let rest = text.rest();
    match cbor_tokens::number_front(rest) {
        Some((value, indicator, end)) => {
            *text = Cursor::new(&rest[end..]);
            Ok((value, indicator))
        }
        None => Err(Error::Notation),
    }
}

/// A number and its width: the stated one, or, without an indicator, `Zero` up to 23 and unstated
/// above. Returns an error if the number does not fit.
fn with_width(number: u128, indicator: Option<u8>) -> Result<(u64, IntegerWidth)>
    ensures gives { Gives (λ x. (x.0, x.1)) result (with_width number indicator) }
    ensures fits { IfOk result (λ x. FitsWidth x.1 x.0) }
    ensures memory { result ≢ Err Error.Memory }
{
    let (width, past) = match indicator {
        None if number < 24 => (IntegerWidth::Zero, 24),
        None => (IntegerWidth::Unknown, 1 << 64),
        Some(0) => (IntegerWidth::Eight, 1 << 8),
        Some(1) => (IntegerWidth::Sixteen, 1 << 16),
        Some(2) => (IntegerWidth::ThirtyTwo, 1 << 32),
        Some(_) => (IntegerWidth::SixtyFour, 1 << 64),
    };
    if number < past {
        Ok((number as u64, width))
    } else if indicator.is_none() {
        Err(Error::Notation)
    } else {
        Err(Error::PastWidth)
    }
}

/// The number of an unsigned integer or a tag at the front, and its width.
pub fn read_unsigned_number(text: &mut Cursor<'_>) -> Result<(u64, IntegerWidth)>
    ensures gives { Gives (λ x. ((x.0, x.1), text.new)) result (read_unsigned_number text.old) }
    ensures memory { result ≢ Err Error.Memory }
    ensures fits { IfOk result (λ x. FitsWidth x.1 x.0) }
    ensures shorter { IfOk result (λ _. length text.new < length text.old) }
{
    let (number, indicator) = read_number(text)?;
    Ok(with_width(number, indicator)?)
}

/// The number that encodes a negative integer: one less than the number after its `-`.
pub fn read_negative_number(text: &mut Cursor<'_>) -> Result<(u64, IntegerWidth)>
    ensures gives { Gives (λ x. ((x.0, x.1), text.new)) result (read_negative_number text.old) }
    ensures memory { result ≢ Err Error.Memory }
    ensures fits { IfOk result (λ x. FitsWidth x.1 x.0) }
    ensures shorter { IfOk result (λ _. length text.new < length text.old) }
{
    let (number, indicator) = read_number(text)?;
    if number == 0 {
        return Err(Error::Notation);
    }
    Ok(with_width(number - 1, indicator)?)
}
