//! Converts the bits of a float of 16 bits (IEEE 754 binary16) to a number. The bits are a sign,
//! five bits of exponent and ten of fraction. `nearest.rt` converts numbers to such floats.
ghost use Rattle.std.specs.Prelude.{◌≡◌, ◌+◌, ◌*◌, ◌^◌, ◌<◌, false};
ghost use Rattle.std.specs.Float.Ieee.{round, binary64};
ghost use Rattle.cbor_floats.specs.Value.{half_value as half_value_of, half_units as units_of};
ghost use Rattle.cbor_floats.specs.Value.{half_of_fields};

/// The bits of positive infinity.
pub(crate) const INFINITY: u16 = 0x7c00;

/// The bits of the usual NaN (RFC 8949 section 4.2.2).
pub(crate) const NAN: u16 = 0x7e00;

/// The sign bit.
pub(crate) const SIGN: u16 = 0x8000;

/// The number of a half, as a double, without rounding.
pub fn half_value(bits: u16) -> f64
    ensures { result ≡ half_value_of bits }
{
    let size = value_of_fields(bits % SIGN / 1024, bits % 1024);
    if bits < SIGN { size } else { -size }
}

/// The number of a half with these fields and a clear sign bit.
fn value_of_fields(exponent: u16, fraction: u16) -> f64
    requires { (exponent < 32) × (fraction < 1024) }
    ensures { result ≡ half_of_fields false exponent fraction }
{
    if exponent < 31 {
        value_of_units(half_units(exponent, fraction))
    } else if fraction == 0 {
        f64::INFINITY
    } else {
        f64::NAN
    }
}

/// A finite half without its sign, as a multiple of 2^-24, the least half above zero.
fn half_units(exponent: u16, fraction: u16) -> u64
    requires { (exponent < 31) × (fraction < 1024) }
    ensures same { result ≡ units_of exponent fraction }
    ensures few { result < 2 ^ 41 }
{
    if exponent == 0 {
        fraction as u64
    } else {
        (1024 + fraction as u64) << (exponent as u32 - 1)
    }
}

/// This multiple of 2^-24.
fn value_of_units(units: u64) -> f64
    requires { units < 2 ^ 41 }
    ensures { result ≡ round binary64 false units (2 ^ 24) }
{
    units as f64 / 16_777_216.0
}
