//! Converts a float to the shortest width that keeps its number, or the sign and the payload of a
//! NaN. RFC 8949 prefers this width (sections 4.1 and 4.2.2). `widened` converts a float to 64
//! bits.
ghost use Rattle.std.specs.Prelude.{◌≡◌, ◌<◌, ◌^◌, MatchOption};
ghost use Rattle.cbor_floats.specs.Preferred.{widened, shorter, double_of, double_nan, half_nan};
ghost use Rattle.cbor_floats.specs.Preferred.{single_nan};
ghost use Rattle.cbor_floats.specs.Preferred.{half_candidate, single_candidate, same_or};
ghost use Rattle.cbor_floats.specs.Preferred.{IsPreferred, IsPreferredOf};

use crate::float::EncodedFloat;
use crate::half::half_value;
use crate::nearest::nearest_half;
use crate::single::single_value;
use std::num::{
    f32_to_bits_with_nan, f64_from_bits_with_nan, f64_to_bits_with_nan, nearest_f64_to_f32_with_nan,
};

/// The bits of the double that is a NaN with this sign and this fraction.
fn double_nan(negative: bool, fraction: u64) -> u64
    requires { fraction < 2 ^ 52 }
    ensures { result ≡ double_nan negative fraction }
{
    if negative {
        0xfff0_0000_0000_0000 + fraction
    } else {
        0x7ff0_0000_0000_0000 + fraction
    }
}

/// The bits of the half that is a NaN with this sign and this fraction.
fn half_nan(negative: bool, fraction: u64) -> u16
    requires { fraction < 2 ^ 10 }
    ensures { result ≡ half_nan negative fraction }
{
    if negative {
        0xfc00 + fraction as u16
    } else {
        0x7c00 + fraction as u16
    }
}

/// The bits of the single that is a NaN with this sign and this fraction.
fn single_nan(negative: bool, fraction: u64) -> u32
    requires { fraction < 2 ^ 23 }
    ensures { result ≡ single_nan negative fraction }
{
    if negative {
        0xff80_0000 + fraction as u32
    } else {
        0x7f80_0000 + fraction as u32
    }
}

/// The bits of this number as a double; for a NaN, those with this sign and this fraction.
fn double_of(x: f64, negative: bool, fraction: u64) -> u64
    requires { fraction < 2 ^ 52 }
    ensures { result ≡ double_of x negative fraction }
{
    if x.is_nan() {
        double_nan(negative, fraction)
    } else {
        f64_to_bits_with_nan(x)
    }
}

/// The half that equals the double with these bits, if there is one.
#[tactic(auto, unfolding(crate::specs::Preferred::half_candidate))]
fn half_candidate(bits: u64) -> u16
    ensures { result ≡ half_candidate bits }
{
    let x = f64_from_bits_with_nan(bits);
    if x.is_nan() {
        half_nan(bits >= 1 << 63, bits % (1 << 52) / (1 << 42))
    } else {
        nearest_half(x)
    }
}

/// The single that equals the double with these bits, if there is one.
#[tactic(auto, unfolding(crate::specs::Preferred::single_candidate))]
fn single_candidate(bits: u64) -> u32
    ensures { result ≡ single_candidate bits }
{
    let x = f64_from_bits_with_nan(bits);
    if x.is_nan() {
        single_nan(bits >= 1 << 63, bits % (1 << 52) / (1 << 29))
    } else {
        f32_to_bits_with_nan(nearest_f64_to_f32_with_nan(x))
    }
}

impl EncodedFloat {
    /// The bits of the float as a double, which can hold each number and each NaN of a shorter
    /// width. The fraction of a NaN gets trailing zeros. So two floats with the same bits here are
    /// the same float: the same number with the same sign, or NaNs with the same sign and payload.
    #[tactic(auto, unfolding(crate::specs::Preferred::widened))]
    pub fn widened(self) -> u64
        ensures { result ≡ widened self }
    {
        match self {
            EncodedFloat::Half(bits) => {
                let fraction = bits % 1024;
                double_of(half_value(bits), bits >= 0x8000, (fraction as u64) << 42)
            }
            EncodedFloat::Single(bits) => {
                let fraction = bits % (1 << 23);
                double_of(single_value(bits), bits >= 1 << 31, (fraction as u64) << 29)
            }
            EncodedFloat::Double(bits) => bits,
        }
    }

    /// This float if it equals the double with these bits, otherwise the other one.
    fn same_or(self, bits: u64, other: Option<EncodedFloat>) -> Option<EncodedFloat>
        ensures { result ≡ same_or self bits other }
    {
        if self.widened() == bits {
            Some(self)
        } else {
            other
        }
    }

    /// The same float in the shortest width that can hold it, or `None` if no shorter width can. It
    /// keeps the number and its sign; for a NaN, it keeps the sign and the payload.
    pub fn shorter(self) -> Option<EncodedFloat>
        ensures is { result ≡ shorter self }
        ensures preferred { MatchOption result (IsPreferred self)
            (λ float. IsPreferredOf self float) }
    {
        let bits = self.widened();
        let half = EncodedFloat::Half(half_candidate(bits));
        match self {
            EncodedFloat::Half(_) => None,
            EncodedFloat::Single(_) => half.same_or(bits, None),
            EncodedFloat::Double(_) => {
                let single = EncodedFloat::Single(single_candidate(bits));
                half.same_or(bits, single.same_or(bits, None))
            }
        }
    }
}
