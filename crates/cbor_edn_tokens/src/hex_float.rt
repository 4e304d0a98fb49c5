//! Reads hexadecimal numbers of EDN, such as `0x1.8p3` (1.5 times 2^3), and rounds them to the
//! nearest 64-bit or 32-bit float.
mod nearest;

ghost use Rattle.std.specs.Prelude.{◌≡◌, ◌==◌, ◌||◌, ℕ, ◌+◌, ◌^◌, ◌<◌, ◌≤◌, length, position};
ghost use Rattle.std.specs.Prelude.{option_map, IfOk, IfSome};
ghost use Rattle.cbor_floats.specs.Decimal.{unsigned as unsigned_of};
ghost use Rattle.cbor_floats.specs.Decimal.{is_negative as begins_with_minus};
ghost use Rattle.cbor_edn_grammar.specs.Reading.{Gives};
ghost use Rattle.std.specs.Float.Ieee.{binary32, binary64};
ghost use Rattle.cbor_edn_grammar.specs.HexFloat.{Dyadic, hex_run, hex_digits, small_run, exponent};
ghost use Rattle.cbor_edn_grammar.specs.HexFloat.{rounded, with_exponent, after_hex, is_p};
ghost use Rattle.cbor_edn_grammar.specs.HexFloat.{hex_number};
ghost use Rattle.cbor_edn_grammar.specs.HexFloat.{is_hex};
ghost use Rattle.cbor_edn_tokens.specs.mirror.Front.{IsFront, FitsFront, Finds, FindsDigits};
ghost use Rattle.cbor_edn_tokens.specs.mirror.Front.{IsNumber, FitsNumber, FindsNumber};

use crate::cursor::after_bytes;
use crate::hex_float::nearest::{Format, Front, nearest};
use cbor_edn_grammar::error::{Expected, Stop};
use std::num::{f32_from_bits_with_nan, f64_from_bits_with_nan};

/// A hexadecimal number: its sign, and its magnitude, which is the digits times 2^up / 2^down.
#[derive(Clone, Copy)]
pub struct HexNumber {
    negative: bool,
    digits: Front,
    up: u128,
    down: u128,
}

impl HexNumber {
    /// The nearest 64-bit float.
    pub fn to_f64(self) -> f64
        requires { FitsNumber self }
        ensures { (number : Dyadic) → IsNumber self number → result ≡ rounded binary64 number }
    {
        let bits = nearest(self.digits, self.up, self.down, Format::Double);
        let size = f64_from_bits_with_nan(bits);
        if self.negative { -size } else { size }
    }

    /// The nearest 32-bit float.
    pub fn to_f32(self) -> f32
        requires { FitsNumber self }
        ensures { (number : Dyadic) → IsNumber self number → result ≡ rounded binary32 number }
    {
        let bits = nearest(self.digits, self.up, self.down, Format::Single);
        let size = f32_from_bits_with_nan(bits as u32);
        if self.negative { -size } else { size }
    }
}

/// Continues a number that begins with `start` by these hex digits.
fn hex_run(digits: &[u8], start: Front) -> Result<Front, Stop>
    requires fits { FitsFront start }
    requires room { start.behind + length digits.now < 2 ^ 64 }
    ensures finds { (n : ℕ) → IsFront start n → Finds result (hex_run n digits.now) }
    ensures fits { IfOk result FitsFront }
    ensures behind { IfOk result (λ front. front.behind ≤ start.behind + length digits.now) }
{
    let mut front = start;
    let mut rest = digits;
    'digits: while let [first, after @ ..] = rest {
        let Some(digit) = char::from(*first).to_digit(16) else {
            return Err(Stop::At(Expected::Number));
        };
        front = front.then(digit);
        rest = after;
    }
    Ok(front)
}

/// The index of the first point.
fn find_point(digits: &[u8]) -> Option<usize>
    ensures at { result ≡ position (λ b. b == 46) digits.now }
    ensures within { IfSome result (λ n. n < length digits.now) }
{
    digits.iter().position(|byte| *byte == b'.')
}

/// The number that hex digits write without their point, and how many digits are after the point.
fn hex_digits(digits: &[u8]) -> Result<(Front, usize), Stop>
    ensures finds { FindsDigits result (hex_digits digits.now) }
    ensures fits { IfOk result (λ x. FitsFront x.0) }
{
    if digits == b"".as_slice() || digits == b".".as_slice() {
        return Err(Stop::At(Expected::Number));
    }
    let Some(point) = find_point(digits) else {
        let number = hex_run(digits, Front::ZERO)?;
        return Ok((number, 0));
    };
    let whole = hex_run(&digits[..point], Front::ZERO)?;
    let fraction = &digits[point + 1..];
    let number = hex_run(fraction, whole)?;
    Ok((number, fraction.len()))
}

/// The text without the sign at its front, if it has one.
pub fn unsigned(text: &[u8]) -> &[u8]
    ensures { result.now ≡ unsigned_of text.now }
{
    match text {
        [b'-' | b'+', rest @ ..] => rest,
        _ => text,
    }
}

/// Whether a text begins with a minus.
fn is_negative(text: &[u8]) -> bool
    ensures { result ≡ begins_with_minus text.now }
{
    matches!(text, [b'-', ..])
}

/// Reads decimal digits of a number below 2^20.
fn small_run(digits: &[u8]) -> Result<u64, Stop>
    ensures gives { Gives (λ n. n) result (small_run 0 digits.now) }
    ensures less { IfOk result (λ n. n < 2 ^ 20) }
{
    let mut number = 0;
    let mut rest = digits;
    'digits: while let [first, after @ ..] = rest {
        let Some(digit) = char::from(*first).to_digit(10) else {
            return Err(Stop::At(Expected::Number));
        };
        let next = number * 10 + digit as u64;
        if next >= 1 << 20 {
            return Err(Stop::At(Expected::HexExponent));
        }
        number = next;
        rest = after;
    }
    Ok(number)
}

/// The magnitude of an exponent, without its sign.
fn exponent(text: &[u8]) -> Result<u64, Stop>
    ensures gives { Gives (λ n. n) result (exponent text.now) }
    ensures less { IfOk result (λ n. n < 2 ^ 20) }
{
    let digits = unsigned(text);
    if digits == b"".as_slice() {
        return Err(Stop::At(Expected::Number));
    }
    small_run(digits)
}

/// The number of these digits, as `hex_digits` returns them, times 2 to an exponent of this sign
/// and magnitude.
fn with_exponent(negative: bool, digits: (Front, usize), below: bool, size: u64) -> HexNumber
    requires fits { FitsFront digits.0 }
    requires size { size < 2 ^ 20 }
    ensures is { (n : ℕ) → IsFront digits.0 n
        → IsNumber result (with_exponent negative n digits.1 below size) }
    ensures fits { FitsNumber result }
{
    let (digits, places) = digits;
    let size = size as u128;
    let (up, down) = if below { (0, size) } else { (size, 0) };
    HexNumber {
        negative,
        digits,
        up,
        down: 4 * places as u128 + down,
    }
}

/// The text after `0x`, if it begins with that. A sign may precede it.
fn after_hex(text: &[u8]) -> Option<&[u8]>
    ensures { option_map (λ x. x.now) result ≡ after_hex text.now }
{
    after_bytes(unsigned(text), b"0x")
}

/// The index of the first `p` or `P`.
fn find_p(digits: &[u8]) -> Option<usize>
    ensures at { result ≡ position is_p digits.now }
    ensures within { IfSome result (λ n. n < length digits.now) }
{
    digits
        .iter()
        .position(|byte| *byte == b'p' || *byte == b'P')
}

/// Reads a hexadecimal number without a width indicator.
#[tactic(auto, unfolding(cbor_edn_grammar::specs::HexFloat::hex_number))]
pub fn hex_number(text: &[u8]) -> Result<HexNumber, Stop>
    ensures finds { FindsNumber result (hex_number text.now) }
    ensures fits { IfOk result FitsNumber }
{
    let Some(digits) = after_hex(text) else {
        return Err(Stop::At(Expected::Number));
    };
    let Some(end) = find_p(digits) else {
        return Err(Stop::At(Expected::Number));
    };
    let after = &digits[end + 1..];
    let found = hex_digits(&digits[..end])?;
    let size = exponent(after)?;
    Ok(with_exponent(is_negative(text), found, is_negative(after), size))
}

/// Whether a text has the form of a hexadecimal number.
#[tactic(auto, unfolding(cbor_edn_grammar::specs::HexFloat::is_hex))]
pub fn is_hex(text: &[u8]) -> bool
    ensures { result ≡ is_hex text.now }
{
    match after_hex(text) {
        Some(digits) => find_p(digits).is_some(),
        None => false,
    }
}
