//! Converts numbers to floats of 16 bits: `nearest_half` rounds, and `half_of` takes only numbers
//! that a float of 16 bits equals.
ghost use Rattle.std.specs.Prelude.{◌≡◌, ◌+◌, ◌*◌, ◌^◌, ◌<◌, ◌≤◌, ℕ, MatchOption};
ghost use Rattle.std.specs.Float.{is_sign_negative, NotNan};
ghost use Rattle.std.specs.Float.Ieee.Nearest.{closest};
ghost use Rattle.cbor_floats.specs.mirror.DoubleBits.{digits_of_bits, shift_of_bits};
ghost use Rattle.cbor_floats.specs.Value.{IsEncodingOf};
ghost use Rattle.cbor_floats.specs.declared.float.EncodedFloat.TheVariants.{Half};
ghost use Rattle.cbor_floats.specs.Nearest.{half_bits_of_units, nearest_half as nearest_half_of};
ghost use Rattle.cbor_floats.specs.Nearest.{with_half_sign};

use crate::half::{INFINITY, NAN, SIGN, half_value};
use crate::single::same_number;
use std::num::f64_to_bits_with_nan;

/// The weight of the exponent in the bits of a double. The leading digit, which the bits leave out,
/// has the same weight.
const HIDDEN: u64 = 0x10_0000_0000_0000;

/// The bits of the double 2^17, which is past every number that rounds to a finite half.
const FAR: u64 = 0x4100_0000_0000_0000;

/// The bits of the half that is nearest to the number; a tie goes to the even half. From 65520 on
/// the half is an infinity, and up to 2^-25 a zero. A NaN gives 7e00.
pub fn nearest_half(x: f64) -> u16
    ensures { result ≡ nearest_half_of x }
{
    if x.is_nan() {
        return NAN;
    }
    let size = nearest_size(x);
    if x.is_sign_negative() {
        SIGN + size
    } else {
        size
    }
}

/// The bits of the half that is nearest to the number, without its sign.
fn nearest_size(x: f64) -> u16
    requires { NotNan x }
    ensures same { nearest_half_of x ≡ with_half_sign (is_sign_negative x) result }
    ensures most { result ≤ 31744 }
{
    if x.is_infinite() {
        INFINITY
    } else {
        rounded_bits(f64_to_bits_with_nan(x.abs()))
    }
}

/// The bits of the half that equals the number, or `None` if none does. A NaN gives 7e00.
pub fn half_of(x: f64) -> Option<u16>
    ensures { MatchOption result ((bits : ℕ) → ¬ (IsEncodingOf (Half bits) x))
        (λ bits. IsEncodingOf (Half bits) x) }
{
    let bits = nearest_half(x);
    if same_number(half_value(bits), x) {
        Some(bits)
    } else {
        None
    }
}

/// The bits of the half that is nearest to the double with these bits, which is finite and has a
/// clear sign bit.
fn rounded_bits(bits: u64) -> u16
    ensures near { bits < 1040 * 2 ^ 52
        → result ≡ half_bits_of_units (digits_of_bits bits) (2 ^ shift_of_bits bits) }
    ensures far { 1040 * 2 ^ 52 ≤ bits → result ≡ 31744 }
    ensures most { result ≤ 31744 }
{
    if bits >= FAR {
        return INFINITY;
    }
    let digits = if bits < HIDDEN {
        bits
    } else {
        HIDDEN + bits % HIDDEN
    };
    let shift = (1051 - (bits / HIDDEN).max(1)).min(63);
    bits_of_shifted(digits, shift as u32)
}

/// The bits of the half that is nearest to digits * 2^-shift times 2^-24.
fn bits_of_shifted(digits: u64, shift: u32) -> u16
    requires { (digits < 2 ^ 53) × (12 ≤ shift) × (shift < 64) }
    ensures same { result ≡ half_bits_of_units digits (2 ^ shift) }
    ensures most { result ≤ 31744 }
{
    let units = digits / power_of_two(shift);
    let dropped = (64 - units.leading_zeros()).saturating_sub(11);
    let kept = rounded(digits, shift + dropped);
    (dropped as u64 * 1024 + kept).min(INFINITY as u64) as u16
}

/// The whole number closest to digits * 2^-cut; a tie goes to the even one.
fn rounded(digits: u64, cut: u32) -> u64
    requires { (digits < 2 ^ 53) × (cut < 64) }
    ensures same { result ≡ closest digits (2 ^ cut) }
    ensures few { result ≤ digits + 1 }
{
    let unit = power_of_two(cut);
    let kept = digits / unit;
    let rest = digits % unit;
    if rest * 2 < unit {
        kept
    } else if rest * 2 > unit {
        kept + 1
    } else {
        kept + kept % 2
    }
}

fn power_of_two(exponent: u32) -> u64
    requires { exponent < 64 }
    ensures same { result ≡ 2 ^ exponent }
    ensures above { 0 < result }
{
    1 << exponent
}
