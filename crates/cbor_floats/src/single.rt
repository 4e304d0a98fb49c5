//! Converts floats of 32 bits (IEEE 754 binary32) to and from numbers. `same_number` tests whether
//! two numbers are equal and have the same sign, or are both NaN.
ghost use Rattle.std.specs.Prelude.{◌≡◌, ◌↔◌, ℕ, IsTrue, MatchOption, from_bits};
ghost use Rattle.std.specs.Float.Ieee.{binary32};
ghost use Rattle.cbor_floats.specs.Value.{IsEncodingOf};
ghost use Rattle.cbor_floats.specs.declared.float.EncodedFloat.TheVariants.{Single};

use std::num::{
    f32_from_bits_with_nan, f32_to_bits_with_nan, f32_to_f64_with_nan, f64_to_bits_with_nan,
    nearest_f64_to_f32_with_nan,
};

/// The number of a single, as a double, without rounding.
pub fn single_value(bits: u32) -> f64
    ensures { result ≡ from_bits binary32 bits }
{
    f32_to_f64_with_nan(f32_from_bits_with_nan(bits))
}

/// Whether both are the same number with the same sign, or both are NaN.
pub fn same_number(x: f64, y: f64) -> bool
    ensures { IsTrue result ↔ (x ≡ y) }
{
    f64_to_bits_with_nan(x) == f64_to_bits_with_nan(y)
}

/// The bits of the single that equals the number, or `None` if none does. A NaN gives 7fc00000.
pub fn single_of(x: f64) -> Option<u32>
    ensures { MatchOption result ((bits : ℕ) → ¬ (IsEncodingOf (Single bits) x))
        (λ bits. IsEncodingOf (Single bits) x) }
{
    let nearest = nearest_f64_to_f32_with_nan(x);
    if same_number(f32_to_f64_with_nan(nearest), x) {
        Some(f32_to_bits_with_nan(nearest))
    } else {
        None
    }
}
