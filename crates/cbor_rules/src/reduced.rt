//! Finds floats that dCBOR does not allow: floats with an integer value from -2^63 to 2^64 - 1, and
//! NaNs other than `f97e00`.
ghost use Rattle.std.specs.Prelude.{◌≡◌, ◌<◌, ◌^◌, from_bits};
ghost use Rattle.std.specs.Float.Ieee.{binary64};
ghost use Rattle.cbor_rules.specs.Reduced.{in_range, integer_of, reduced};
ghost use Rattle.cbor_rules.specs.FirstViolation.{is_usual_nan, nan_violation, integer_float};
ghost use Rattle.cbor_rules.specs.FirstViolation.{reduced_violation};
ghost use Rattle.cbor_rules.specs.mirror.DoubleSizes.{size_of_bits, signed};

use crate::kind::ViolationKind;
use cbor_floats::EncodedFloat;
use std::num::f64_from_bits_with_nan;

/// Whether CBOR has the integer of this sign and size in 64 bits, or, below zero, in 63.
fn in_range(negative: bool, size: u64) -> bool
    ensures { result ≡ in_range negative size }
{
    !negative || size <= 1 << 63
}

/// The double of these bits, which has no sign, if it is an integer of 64 bits.
fn size_of_bits(bits: u64) -> Option<u64>
    requires { bits < 2 ^ 63 }
    ensures { result ≡ size_of_bits bits }
{
    let exponent = bits / (1 << 52);
    let digits = (1 << 52) + bits % (1 << 52);
    if bits == 0 {
        Some(0)
    } else if exponent < 1023 {
        None
    } else if exponent < 1075 {
        let unit = 1u64 << (1075 - exponent);
        if digits % unit == 0 {
            Some(digits / unit)
        } else {
            None
        }
    } else if exponent < 1087 {
        Some(digits << (exponent - 1075))
    } else {
        None
    }
}

/// The integer of this sign and size, if it is in the range.
fn signed(negative: bool, size: Option<u64>) -> Option<(bool, u64)>
    ensures { result ≡ signed negative size }
{
    match size {
        Some(size) if in_range(negative, size) => Some((negative, size)),
        _ => None,
    }
}

/// The sign and the size of the double of these bits, if it is an integer in the range.
fn integer_of(bits: u64) -> Option<(bool, u64)>
    ensures { result ≡ integer_of (from_bits binary64 bits) }
{
    let size = size_of_bits(bits % (1 << 63));
    signed(bits >= 1 << 63, size)
}

/// Whether this is the NaN that dCBOR has.
fn is_usual_nan(float: EncodedFloat) -> bool
    ensures { result ≡ is_usual_nan float }
{
    match float {
        EncodedFloat::Half(bits) => bits == 0x7e00,
        _ => false,
    }
}

/// What is wrong with a float if it is a NaN.
fn nan_violation(float: EncodedFloat) -> Option<ViolationKind>
    ensures { result ≡ nan_violation float }
{
    let x = f64_from_bits_with_nan(float.widened());
    if x.is_nan() && !is_usual_nan(float) {
        Some(ViolationKind::OtherNan { float })
    } else {
        None
    }
}

/// What is wrong with a float where integers are not written as floats, and one NaN is: it is an
/// integer from -2^63 to 2^64 - 1 (`IntegerFloat`), or a NaN other than `f97e00` (`OtherNan`).
pub fn reduced_violation(float: EncodedFloat) -> Option<ViolationKind>
    ensures { result ≡ reduced_violation float }
{
    match integer_of(float.widened()) {
        Some((negative, size)) => Some(ViolationKind::IntegerFloat {
            float,
            negative,
            size,
        }),
        None => nan_violation(float),
    }
}
