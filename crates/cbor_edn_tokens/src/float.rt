//! Recognizes which words of EDN are floats (decimal, hexadecimal, NaN and infinities), and reads
//! them: returns the bits and the width. Also reads a float from its bytes, as `float'..'` has
//! them.
ghost use Rattle.std.specs.Prelude.{◌≡◌, ◌<◌, ◌≤◌, ◌==◌, ◌||◌, true, false, length, position};
ghost use Rattle.std.specs.Prelude.{option_map, IfOk, IfSome};
ghost use Rattle.cbor_grammar.specs.Item.{float};
ghost use Rattle.cbor_grammar.specs.WellFormed.{FitsFloat};
ghost use Rattle.cbor_edn_grammar.specs.Reading.{Gives};
ghost use Rattle.cbor_edn_grammar.specs.Float.{number_of, half_of, shortest_of, double_of};
ghost use Rattle.cbor_edn_grammar.specs.Float.{single_in};
ghost use Rattle.cbor_edn_grammar.specs.Float.{float_atom, float_in, width_after, special};
ghost use Rattle.cbor_edn_grammar.specs.Float.{special_word};
ghost use Rattle.cbor_edn_grammar.specs.Float.{cut_at, name_and_width, digits_and_width};
ghost use Rattle.cbor_edn_grammar.specs.Float.{is_special, decimal_word, float_word};
ghost use Rattle.cbor_edn_grammar.specs.Float.{is_decimal, is_float, float_of_bytes};
ghost use Rattle.cbor_edn_grammar.specs.Float.{finite, hex_in_width, hex_in, is_hex_word, hex_word};
ghost use Rattle.std.specs.Option.{option_or};
ghost use Rattle.std.specs.Float.Ieee.{binary64};
ghost use Rattle.cbor_grammar.specs.declared.width.FloatWidth.TheVariants.{ThirtyTwo};
ghost use Rattle.cbor_edn_grammar.specs.HexFloat.{Dyadic, rounded};
ghost use Rattle.cbor_edn_tokens.specs.mirror.Front.{IsNumber, FitsNumber};

use crate::cursor::after_byte;
use crate::hex_float::{HexNumber, hex_number, is_hex, unsigned};
use cbor_edn_grammar::error::{Expected, Stop};
use cbor_edn_grammar::word::is_numeral;
use cbor_floats::{EncodedFloat, NumberError, Width, parse_in_width, parse_number};
use cbor_grammar::FloatWidth;
use fast_float::Numeral;
use std::num::f32_to_bits_with_nan;

/// The number that a text without a width indicator writes.
fn number_of(text: &[u8]) -> Result<f64, Stop>
    ensures { Gives (λ x. x) result (number_of text.now) }
{
    match parse_number(text) {
        Ok(x) => Ok(x),
        Err(NumberError::TooLarge) => Err(Stop::At(Expected::LargestDouble)),
        Err(_) => Err(Stop::At(Expected::Number)),
    }
}

/// The number as a 16-bit float, or an error if no such float represents it.
fn half_of(x: f64) -> Result<EncodedFloat, Stop>
    ensures { Gives (λ f. f) result (half_of x) }
{
    match cbor_floats::half_of(x) {
        Some(bits) => Ok(EncodedFloat::Half(bits)),
        None => Err(Stop::At(no_half(cbor_floats::nearest_half(x)))),
    }
}

/// The error for a number that no 16-bit float represents, by the bits of the nearest one.
fn no_half(nearest: u16) -> Expected {
    if nearest % 0x8000 < 0x7c00 {
        Expected::Half { nearest }
    } else {
        Expected::LargestHalf
    }
}

/// The 32-bit float that is nearest to the number that a text writes.
fn single_of(text: &[u8]) -> Result<EncodedFloat, Stop>
    ensures { Gives (λ f. f) result (single_in text.now) }
{
    match parse_in_width(text, Width::ThirtyTwo) {
        Ok(float) => Ok(float),
        Err(NumberError::TooLarge) => Err(Stop::At(Expected::LargestSingle)),
        Err(_) => Err(Stop::At(Expected::Number)),
    }
}

/// The number in the shortest width that represents it.
fn shortest_of(x: f64) -> EncodedFloat
    ensures { result ≡ shortest_of x }
{
    EncodedFloat::shortest(x)
}

/// The number as a 64-bit float.
fn double_of(x: f64) -> EncodedFloat
    ensures { result ≡ double_of x }
{
    EncodedFloat::double(x)
}

/// The bits of a float, and its width.
fn bits_and_width(found: EncodedFloat) -> (u64, FloatWidth)
    ensures is { float result.0 result.1 ≡ float_atom found }
    ensures fits { FitsFloat result.1 result.0 }
{
    match found {
        EncodedFloat::Half(bits) => (bits as u64, FloatWidth::Sixteen),
        EncodedFloat::Single(bits) => (bits as u64, FloatWidth::ThirtyTwo),
        EncodedFloat::Double(bits) => (bits, FloatWidth::SixtyFour),
    }
}

/// Reads a text as a float of this width. Returns the bits, and the width that they have.
#[tactic(auto, unfolding(cbor_edn_grammar::specs::Float::float_in))]
fn float_in(text: &[u8], width: FloatWidth) -> Result<(u64, FloatWidth), Stop>
    ensures gives { Gives (λ x. float x.0 x.1) result (float_in width text.now) }
    ensures fits { IfOk result (λ x. FitsFloat x.1 x.0) }
{
    let found = match width {
        FloatWidth::Unknown => shortest_of(number_of(text)?),
        FloatWidth::Sixteen => half_of(number_of(text)?)?,
        FloatWidth::ThirtyTwo => single_of(text)?,
        FloatWidth::SixtyFour => double_of(number_of(text)?),
    };
    Ok(bits_and_width(found))
}

/// The width that the suffix of a number states.
fn width_after(suffix: &[u8]) -> Option<FloatWidth>
    ensures { result ≡ width_after suffix.now }
{
    match suffix {
        b"" => Some(FloatWidth::Unknown),
        b"_1" | b"f16" => Some(FloatWidth::Sixteen),
        b"_2" | b"f" => Some(FloatWidth::ThirtyTwo),
        b"_3" => Some(FloatWidth::SixtyFour),
        _ => None,
    }
}

/// The word that RFC 8949 has for NaN or an infinity.
fn special(word: &[u8]) -> Option<&'static [u8]>
    ensures { option_map (λ x. x.now) result ≡ special word.now }
{
    if word == b"NaN".as_slice() || word == b"nan".as_slice() {
        Some(b"NaN")
    } else if word == b"Infinity".as_slice() || word == b"inf".as_slice() {
        Some(b"Infinity")
    } else if word == b"-Infinity".as_slice() || word == b"-inf".as_slice() {
        Some(b"-Infinity")
    } else {
        None
    }
}

/// The index of the first `_`.
fn underscore(word: &[u8]) -> Option<usize>
    ensures at { result ≡ position (λ b. b == 95) word.now }
    ensures within { IfSome result (λ n. n ≤ length word.now) }
{
    word.iter().position(|byte| *byte == b'_')
}

/// The index of the first `_` or `f`.
fn underscore_or_f(word: &[u8]) -> Option<usize>
    ensures at { result ≡ position (λ b. (b == 95) || (b == 102)) word.now }
    ensures within { IfSome result (λ n. n ≤ length word.now) }
{
    word.iter().position(|byte| *byte == b'_' || *byte == b'f')
}

/// Splits a word at this index, or at its end if there is none.
fn cut_at(word: &[u8], at: Option<usize>) -> (&[u8], &[u8])
    requires { IfSome at (λ n. n ≤ length word.now) }
    ensures { (result.0.now, result.1.now) ≡ cut_at word.now at }
{
    match at {
        Some(n) => (&word[..n], &word[n..]),
        None => (word, &[]),
    }
}

/// A word up to its `_`, and the width from there on.
fn name_and_width(word: &[u8]) -> (&[u8], &[u8])
    ensures { (result.0.now, result.1.now) ≡ name_and_width word.now }
{
    cut_at(word, underscore(word))
}

/// A word up to its `_` or `f`, and the width from there on.
fn digits_and_width(word: &[u8]) -> (&[u8], &[u8])
    ensures { (result.0.now, result.1.now) ≡ digits_and_width word.now }
{
    cut_at(word, underscore_or_f(word))
}

/// Whether a word is NaN or an infinity. A width, or anything in its place, may follow.
fn is_special(word: &[u8]) -> bool
    ensures { result ≡ is_special word.now }
{
    special(name_and_width(word).0).is_some()
}

/// Whether a text is a decimal number with a point or an exponent.
fn is_decimal(text: &[u8]) -> bool
    ensures { result ≡ is_decimal text.now }
{
    let unsigned = unsigned(text);
    let numeral = Numeral::scan(unsigned);
    numeral.len() == unsigned.len()
        && numeral.has_digits()
        && (numeral.has_point() || !numeral.exponent().is_empty())
}

/// Whether a word has the form of a decimal number with a point or an exponent.
fn is_decimal_word(word: &[u8]) -> bool
    ensures is { result ≡ is_decimal (digits_and_width word.now).0 }
    ensures some { result ≡ true → 0 < length word.now }
{
    is_decimal(digits_and_width(word).0)
}

/// Whether a word has the form of a hexadecimal number with an exponent.
fn is_hex_word(word: &[u8]) -> bool
    ensures is { result ≡ is_hex_word word.now }
    ensures some { result ≡ true → 0 < length word.now }
{
    is_hex(name_and_width(word).0)
}

/// Whether a word is digits, perhaps after a minus. Most numbers are, and then no form of a float
/// is looked for.
fn is_plain_integer(word: &[u8]) -> bool
    ensures { result ≡ true → is_float word.now ≡ false }
{
    match after_byte(word, b'-') {
        Some(digits) => is_numeral(digits),
        None => is_numeral(word),
    }
}

/// Whether a number has the form of a float: a word such as `NaN`, or a point or an exponent in it.
pub fn is_float(word: &[u8]) -> bool
    ensures is { result ≡ is_float word.now }
    ensures some { result ≡ true → 0 < length word.now }
{
    !is_plain_integer(word) && (is_special(word) || is_decimal_word(word) || is_hex_word(word))
}

/// Reads NaN or an infinity, with its width.
pub fn special_word(word: &[u8]) -> Result<(u64, FloatWidth), Stop>
    ensures gives { Gives (λ x. float x.0 x.1) result (special_word word.now) }
    ensures fits { IfOk result (λ x. FitsFloat x.1 x.0) }
{
    let (name, suffix) = name_and_width(word);
    let Some(text) = special(name) else {
        return Err(Stop::At(Expected::Item));
    };
    match width_after(suffix) {
        Some(width) => float_in(text, width),
        None => Err(Stop::At(Expected::FloatIndicator)),
    }
}

/// Reads a decimal number with a point or an exponent, with its width.
fn decimal_word(word: &[u8]) -> Result<(u64, FloatWidth), Stop>
    ensures gives { Gives (λ x. float x.0 x.1) result (decimal_word word.now) }
    ensures fits { IfOk result (λ x. FitsFloat x.1 x.0) }
{
    let (digits, suffix) = digits_and_width(word);
    let Some(width) = width_after(suffix) else {
        return Err(Stop::At(Expected::FloatIndicator));
    };
    float_in(digits, width)
}

/// The 64-bit float that is nearest to a hexadecimal number.
fn nearest_double(number: HexNumber) -> Result<f64, Stop>
    requires { FitsNumber number }
    ensures { (exact : Dyadic) → IsNumber number exact
        → Gives (λ x. x) result (finite (rounded binary64 exact)) }
{
    let nearest = number.to_f64();
    if nearest.is_finite() {
        Ok(nearest)
    } else {
        Err(Stop::At(Expected::LargestDouble))
    }
}

/// The 32-bit float that is nearest to a hexadecimal number.
fn nearest_single(number: HexNumber) -> Result<EncodedFloat, Stop>
    requires { FitsNumber number }
    ensures { (exact : Dyadic) → IsNumber number exact
        → Gives (λ f. f) result (hex_in_width ThirtyTwo exact) }
{
    let nearest = number.to_f32();
    if nearest.is_finite() {
        Ok(EncodedFloat::Single(f32_to_bits_with_nan(nearest)))
    } else {
        Err(Stop::At(Expected::LargestSingle))
    }
}

/// A hexadecimal number as a float of this width.
fn hex_in_width(number: HexNumber, width: FloatWidth) -> Result<EncodedFloat, Stop>
    requires { FitsNumber number }
    ensures { (exact : Dyadic) → IsNumber number exact
        → Gives (λ f. f) result (hex_in_width width exact) }
{
    match width {
        FloatWidth::Unknown => Ok(shortest_of(nearest_double(number)?)),
        FloatWidth::Sixteen => half_of(nearest_double(number)?),
        FloatWidth::ThirtyTwo => nearest_single(number),
        FloatWidth::SixtyFour => Ok(double_of(nearest_double(number)?)),
    }
}

/// Reads a hexadecimal text as a float of this width. Returns the bits, and the width that they
/// have.
#[tactic(auto, unfolding(cbor_edn_grammar::specs::Float::hex_in))]
fn hex_in(text: &[u8], width: FloatWidth) -> Result<(u64, FloatWidth), Stop>
    ensures gives { Gives (λ x. float x.0 x.1) result (hex_in width text.now) }
    ensures fits { IfOk result (λ x. FitsFloat x.1 x.0) }
{
    let number = hex_number(text)?;
    let found = hex_in_width(number, width)?;
    Ok(bits_and_width(found))
}

/// Reads a hexadecimal number with an exponent, with its width.
fn hex_word(word: &[u8]) -> Result<(u64, FloatWidth), Stop>
    ensures gives { Gives (λ x. float x.0 x.1) result (hex_word word.now) }
    ensures fits { IfOk result (λ x. FitsFloat x.1 x.0) }
{
    let (digits, suffix) = name_and_width(word);
    let Some(width) = width_after(suffix) else {
        return Err(Stop::At(Expected::FloatIndicator));
    };
    hex_in(digits, width)
}

/// Reads a number with a point or an exponent, in base 10 or else in base 16.
fn number_word(word: &[u8]) -> Result<(u64, FloatWidth), Stop>
    ensures gives { Gives (λ x. float x.0 x.1) result
        (option_or (decimal_word word.now) (hex_word word.now)) }
    ensures fits { IfOk result (λ x. FitsFloat x.1 x.0) }
{
    let stop = match decimal_word(word) {
        Ok(found) => return Ok(found),
        Err(stop) => stop,
    };
    match (stop, hex_word(word)) {
        (Stop::At(_), Err(Stop::At(expected))) if is_hex_word(word) => Err(Stop::At(expected)),
        (Stop::At(expected), Err(Stop::At(_))) => Err(Stop::At(expected)),
        (Stop::Memory, _) => Err(Stop::Memory),
        (_, found) => found,
    }
}

/// Reads a float from a word. Returns its bits and its width.
pub fn float_word(word: &[u8]) -> Result<(u64, FloatWidth), Stop>
    ensures gives { Gives (λ x. float x.0 x.1) result (float_word word.now) }
    ensures fits { IfOk result (λ x. FitsFloat x.1 x.0) }
{
    if is_special(word) {
        special_word(word)
    } else {
        number_word(word)
    }
}

/// The float whose bits are these bytes, with its width.
pub fn float_of_bytes(bytes: &[u8]) -> Result<(u64, FloatWidth), Stop>
    ensures gives { Gives (λ x. float x.0 x.1) result (float_of_bytes bytes.now) }
    ensures fits { IfOk result (λ x. FitsFloat x.1 x.0) }
{
    match bytes {
        [a, b] => Ok((u16::from_be_bytes([*a, *b]) as u64, FloatWidth::Sixteen)),
        [a, b, c, d] => {
            let bits = u32::from_be_bytes([*a, *b, *c, *d]);
            Ok((bits as u64, FloatWidth::ThirtyTwo))
        }
        [a, b, c, d, e, f, g, h] => {
            let bits = u64::from_be_bytes([*a, *b, *c, *d, *e, *f, *g, *h]);
            Ok((bits, FloatWidth::SixtyFour))
        }
        _ => Err(Stop::At(Expected::FloatBits)),
    }
}
