//! Writes the words for violations of widths: heads and floats that are longer than they have to
//! be, and floats that are integers.

use cbor_floats::{EncodedFloat, push_number};
use cbor_grammar::IntegerWidth;
use cbor_grammar::major::Major;
use std::alloc::AllocError;
use std::fmt::Write;

/// The major type of the head at the front.
pub(crate) fn major_of(bytes: &[u8]) -> Major {
    bytes
        .first()
        .map_or(Major::Unsigned, |first| Major::of(*first))
}

/// How many bytes a head has that is this wide.
fn head_len(width: IntegerWidth) -> u8 {
    match width {
        IntegerWidth::Unknown | IntegerWidth::Zero => 1,
        IntegerWidth::Eight => 2,
        IntegerWidth::Sixteen => 3,
        IntegerWidth::ThirtyTwo => 5,
        IntegerWidth::SixtyFour => 9,
    }
}

/// Writes how many bytes are taken and how many are enough.
fn push_lens(out: &mut String, taken: u8, enough: u8) -> Result<(), AllocError> {
    let verb = if enough == 1 { "is" } else { "are" };
    write!(out, " takes {taken} bytes; {enough} {verb} enough")
}

/// Writes that the number of the head at the front is in a width too large.
pub(crate) fn push_long_head(
    out: &mut String,
    bytes: &[u8],
    number: u64,
    width: IntegerWidth,
) -> Result<(), AllocError> {
    match major_of(bytes) {
        Major::Unsigned => write!(out, "the number {number}")?,
        Major::Negative => write!(out, "the number -{}", u128::from(number) + 1)?,
        Major::Bytes | Major::Text => write!(out, "the length {number}")?,
        Major::Array | Major::Map => write!(out, "the count {number}")?,
        _ => write!(out, "the tag {number}")?,
    }
    push_lens(
        out,
        head_len(width),
        head_len(IntegerWidth::shortest(number)),
    )
}

/// How many bytes a float has after its first.
fn float_len(float: EncodedFloat) -> u8 {
    match float {
        EncodedFloat::Half(_) => 2,
        EncodedFloat::Single(_) => 4,
        EncodedFloat::Double(_) => 8,
    }
}

/// Writes that a float is in a width too large.
pub(crate) fn push_long_float(
    out: &mut String,
    float: EncodedFloat,
    shortest: EncodedFloat,
) -> Result<(), AllocError> {
    push_number(out, float.value())?;
    push_lens(out, float_len(float), float_len(shortest))
}

/// Writes that a float is an integer.
pub(crate) fn push_integer_float(
    out: &mut String,
    float: EncodedFloat,
    negative: bool,
    size: u64,
) -> Result<(), AllocError> {
    push_number(out, float.value())?;
    let sign = if negative && size > 0 { "-" } else { "" };
    write!(out, " is the integer {sign}{size} in dCBOR")
}
