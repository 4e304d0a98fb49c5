//! Reads floats from decimal texts and from `NaN`, `Infinity` and `-Infinity`, and writes them as
//! such texts. `NumberError` says why a text is not a float.
ghost use Rattle.std.specs.Prelude.{◌≡◌, ◌↔◌, ◌++◌, List, ℕ, string_bytes, IsTrue, IsFalse, OnOk};
ghost use Rattle.std.specs.Prelude.{MatchOption, MatchResult};
ghost use Rattle.std.specs.Float.{float_is_finite};
ghost use Rattle.std.specs.Float.Ieee.{Float, binary32, binary64};
ghost use Rattle.cbor_floats.specs.Decimal.{decimal_number, unsigned};
ghost use Rattle.cbor_floats.specs.Decimal.{is_negative as begins_with_minus};
ghost use Rattle.cbor_floats.specs.Decimal.{IsDecimal, IsNumber, IsReadAs, IsRefused, IsRefusedIn};
ghost use Rattle.cbor_floats.specs.Decimal.{IsTextOf, IsWordOf};
ghost use Rattle.cbor_floats.specs.Value.{IsEncodingOf, width_of};
ghost use Rattle.cbor_floats.specs.declared.decimal.NumberError.TheVariants.{TooLarge};
ghost use Rattle.cbor_floats.specs.declared.float.Width.TheVariants.{ThirtyTwo};

use crate::float::{EncodedFloat, Width};
use crate::nearest::half_of;
use crate::single::single_of;
use fast_float::Numeral;
use ryu::Buffer;
use std::alloc::AllocError;
use std::num::f32_to_bits_with_nan;

/// Why a text is not a float.
#[derive(Clone, Copy, PartialEq, Eq, Debug)]
pub enum NumberError {
    /// It is neither a decimal number with a point or an exponent, nor one of the words `NaN`,
    /// `Infinity` and `-Infinity`.
    NoNumber,
    /// The number is past the largest float of the width, by half of the last place or more.
    TooLarge,
    /// No float of 16 bits equals the number.
    NoHalf,
}

/// Returns the double that is nearest to the number in a text. A tie goes to the even double, and a
/// number too small for any other double gives zero. The text is `NaN`, `Infinity` or `-Infinity`,
/// or a decimal number with a point or an exponent, such as `1.5`, `1.`, `.5`, `-1e3` or
/// `+1.0E+300`.
///
/// Returns `NoNumber` for any other text, and `TooLarge` if the nearest double is not finite.
pub fn parse_number(text: &[u8]) -> Result<f64, NumberError>
    ensures { MatchResult result (λ x. IsNumber text.now x) (λ error. IsRefused error text.now) }
{
    if let Some(x) = word(text) {
        return Ok(x);
    }
    if !is_decimal(text) {
        return Err(NumberError::NoNumber);
    }
    let x = nearest_double(text);
    if x.is_finite() {
        Ok(x)
    } else {
        Err(NumberError::TooLarge)
    }
}

/// Returns the float of this width that a text means. In diagnostic notation the width follows the
/// text, as `_1`, `_2` or `_3`. The text is read as `parse_number` reads it, with the same errors.
///
/// In 32 bits, a number that no single equals gives the nearest single, or `TooLarge` if that is
/// not finite. In 16 bits, a number that no half equals gives `NoHalf`.
pub fn parse_in_width(text: &[u8], width: Width) -> Result<EncodedFloat, NumberError>
    ensures { MatchResult result (IsReadAs text.now width)
        (λ error. IsRefusedIn error text.now width) }
{
    let x = match parse_number(text) {
        Ok(x) => x,
        Err(error) => return Err(error),
    };
    match width {
        Width::Sixteen => match half_of(x) {
            Some(bits) => Ok(EncodedFloat::Half(bits)),
            None => Err(NumberError::NoHalf),
        },
        Width::ThirtyTwo => match single_of(x) {
            Some(bits) => Ok(EncodedFloat::Single(bits)),
            None => nearest_in_single(text),
        },
        Width::SixtyFour => Ok(EncodedFloat::double(x)),
    }
}

/// The single that is nearest to a decimal number, as CBOR encodes it.
fn nearest_in_single(text: &[u8]) -> Result<EncodedFloat, NumberError>
    ensures { MatchResult result
        (λ float. (width_of float ≡ ThirtyTwo)
        × IsEncodingOf float (decimal_number binary32 text.now)
        × IsTrue (float_is_finite (decimal_number binary32 text.now)))
        (λ error. (error ≡ TooLarge)
        × IsFalse (float_is_finite (decimal_number binary32 text.now))) }
{
    let nearest = nearest_single(text);
    if nearest.is_finite() {
        Ok(EncodedFloat::Single(f32_to_bits_with_nan(nearest)))
    } else {
        Err(NumberError::TooLarge)
    }
}

/// The number that a word stands for, or `None` for any other text.
fn word(text: &[u8]) -> Option<f64>
    ensures { MatchOption result ((x : Float) → ¬ (IsWordOf text.now x))
        (λ x. IsWordOf text.now x) }
{
    match text {
        b"NaN" => Some(f64::NAN),
        b"Infinity" => Some(f64::INFINITY),
        b"-Infinity" => Some(f64::NEG_INFINITY),
        _ => None,
    }
}

/// The text without the sign at its front, if it has one.
fn without_sign(text: &[u8]) -> &[u8]
    ensures { result.now ≡ unsigned text.now }
{
    match text {
        [b'-' | b'+', rest @ ..] => rest,
        _ => text,
    }
}

/// Whether the text begins with a minus.
fn is_negative(text: &[u8]) -> bool
    ensures { result ≡ begins_with_minus text.now }
{
    matches!(text, [b'-', ..])
}

/// Whether the text is a decimal number with a point or an exponent.
fn is_decimal(text: &[u8]) -> bool
    ensures { IsTrue result ↔ IsDecimal text.now }
{
    let unsigned = without_sign(text);
    let numeral = Numeral::scan(unsigned);
    numeral.len() == unsigned.len()
        && numeral.has_digits()
        && (numeral.has_point() || !numeral.exponent().is_empty())
}

/// The double that is nearest to a decimal number.
fn nearest_double(text: &[u8]) -> f64
    ensures { result ≡ decimal_number binary64 text.now }
{
    Numeral::scan(without_sign(text)).to_float(is_negative(text))
}

/// The single that is nearest to a decimal number.
fn nearest_single(text: &[u8]) -> f32
    ensures { result ≡ decimal_number binary32 text.now }
{
    Numeral::scan(without_sign(text)).to_float(is_negative(text))
}

/// Returns a text that reads back as this number: one of the three words, or decimal digits with a
/// point or an exponent, written to the buffer.
#[inline]
pub fn number_text(buffer: &mut Buffer, x: f64) -> &str
    ensures { IsTextOf result.now x }
{
    if x.is_nan() {
        "NaN"
    } else if x.is_finite() {
        buffer.format_finite(x)
    } else if x.is_sign_negative() {
        "-Infinity"
    } else {
        "Infinity"
    }
}

/// Appends a text of the number, as `number_text` returns it. The only error is `AllocError`; a
/// part of the text may be appended before it.
pub fn push_number(out: &mut String, x: f64) -> Result<(), AllocError>
    ensures { OnOk result ((text : List ℕ)
        × (string_bytes out.new ≡ string_bytes out.old ++ text) × IsTextOf text x) }
{
    out.push_str(number_text(&mut Buffer::new(), x))
}
