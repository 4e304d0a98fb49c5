//! `EncodedFloat`: a float as CBOR encodes it, by its bits in 16, 32 or 64 bits. It converts the
//! bits to a number, and a number to bits of a given width or of the shortest width. It also tests
//! whether its width is the shortest. `Width`: one of the three widths.
ghost use Rattle.std.specs.Prelude.{◌≡◌, ◌↔◌, IsTrue, MatchOption};
ghost use Rattle.cbor_floats.specs.Value.{value_of, width_of, IsEncodingOf, IsShortest};

use crate::half::half_value;
use crate::nearest::half_of;
use crate::single::{single_of, single_value};
use std::num::{f64_from_bits_with_nan, f64_to_bits_with_nan};

/// The width of a float: how many bits follow its first byte (RFC 8949 section 3.3).
#[derive(Clone, Copy, PartialEq, Eq, Debug)]
pub enum Width {
    /// IEEE 754 binary16, two bytes.
    Sixteen,
    /// IEEE 754 binary32, four bytes.
    ThirtyTwo,
    /// IEEE 754 binary64, eight bytes.
    SixtyFour,
}

/// A float as CBOR encodes it: its bits, in one of the three widths.
#[derive(Clone, Copy, PartialEq, Eq, Debug)]
pub enum EncodedFloat {
    /// The bits of a float of 16 bits.
    Half(u16),
    /// The bits of a float of 32 bits.
    Single(u32),
    /// The bits of a float of 64 bits.
    Double(u64),
}

impl EncodedFloat {
    /// The number that the bits stand for. Each half and each single is also a double, so nothing
    /// is rounded. The bits of a NaN give a NaN with no particular sign or payload.
    pub fn value(self) -> f64
        ensures { result ≡ value_of self }
    {
        match self {
            EncodedFloat::Half(bits) => half_value(bits),
            EncodedFloat::Single(bits) => single_value(bits),
            EncodedFloat::Double(bits) => f64_from_bits_with_nan(bits),
        }
    }

    /// Encodes the number in this width, or returns `None` if the width cannot hold it. A NaN gives
    /// the usual NaN of the width: 7e00, 7fc00000 or 7ff8000000000000.
    pub fn in_width(x: f64, width: Width) -> Option<EncodedFloat>
        ensures { MatchOption result
            ((float : EncodedFloat) → width_of float ≡ width → ¬ (IsEncodingOf float x))
            (λ float. (width_of float ≡ width) × IsEncodingOf float x) }
    {
        match width {
            Width::Sixteen => Some(EncodedFloat::Half(half_of(x)?)),
            Width::ThirtyTwo => Some(EncodedFloat::Single(single_of(x)?)),
            Width::SixtyFour => Some(EncodedFloat::double(x)),
        }
    }

    /// Encodes the number in 64 bits, which can hold every number.
    pub fn double(x: f64) -> EncodedFloat
        ensures encodes { IsEncodingOf result x }
        ensures width { width_of result ≡ Width.SixtyFour }
    {
        EncodedFloat::Double(f64_to_bits_with_nan(x))
    }

    /// Encodes the number in the shortest width that can hold it.
    pub fn shortest(x: f64) -> EncodedFloat
        ensures { IsShortest result x }
    {
        let Some(single) = single_of(x) else {
            return EncodedFloat::double(x);
        };
        match half_of(x) {
            Some(half) => EncodedFloat::Half(half),
            None => EncodedFloat::Single(single),
        }
    }

    /// Whether the number is encoded as these bits in this width. For a NaN, only the usual bits
    /// are: 7e00, 7fc00000 and 7ff8000000000000.
    pub fn is_usual(self) -> bool
        ensures { IsTrue result ↔ IsEncodingOf self (value_of self) }
    {
        match self {
            EncodedFloat::Half(bits) => bits == 0x7e00 || !half_value(bits).is_nan(),
            EncodedFloat::Single(bits) => bits == 0x7fc0_0000 || !single_value(bits).is_nan(),
            EncodedFloat::Double(bits) => {
                bits == 0x7ff8_0000_0000_0000 || !f64_from_bits_with_nan(bits).is_nan()
            }
        }
    }

    /// Whether the number is encoded as these bits in the shortest width that can hold it.
    pub fn is_shortest(self) -> bool
        ensures { IsTrue result ↔ IsShortest self (value_of self) }
    {
        self.is_usual()
            && match self {
                EncodedFloat::Half(_) => true,
                EncodedFloat::Single(_) => half_of(self.value()).is_none(),
                EncodedFloat::Double(_) => single_of(self.value()).is_none(),
            }
    }
}
