//! Writes floats in EDN, and the width indicators after numbers and strings. Decides which widths
//! are shown.
#![tactic(auto, using(cbor_tokens::proofs::texts::Appending::appending_steps))]

ghost use Rattle.std.specs.Prelude.{◌≡◌};
ghost use Rattle.cbor_floats.specs.Decimal.{IsTextOf};
ghost use Rattle.cbor_grammar.specs.NotationText.{indicator};
ghost use Rattle.cbor_grammar.specs.WellFormed.{FitsFloat};
ghost use Rattle.cbor_notation_writer.specs.Dialect.{Writes};
ghost use Rattle.cbor_tokens.specs.Appends.{AppendsText};
ghost use Rattle.cbor_edn_writer.specs.EdnLeaves.{longer as longer_width, marked, length_mark};
ghost use Rattle.cbor_edn_writer.specs.EdnLeaves.{float_indicator};
ghost use Rattle.cbor_edn_writer.specs.EdnLeaves.{encoded_float as float_of, FloatText};

use cbor_floats::{EncodedFloat, number_text};
use cbor_grammar::{FloatWidth, IntegerWidth};
use cbor_notation_writer::scalars;
use ryu::Buffer;
use std::alloc::AllocError;

/// The width of a number if it is longer than the number needs, and otherwise `Unknown`.
#[inline(always)]
pub(super) fn longer(number: u64, width: IntegerWidth) -> IntegerWidth
    ensures { result ≡ longer_width number width }
{
    let is_longer = match width {
        IntegerWidth::Unknown | IntegerWidth::Zero => false,
        IntegerWidth::Eight => number < 24,
        IntegerWidth::Sixteen => number < 1 << 8,
        IntegerWidth::ThirtyTwo => number < 1 << 16,
        IntegerWidth::SixtyFour => number < 1 << 32,
    };
    if is_longer {
        width
    } else {
        IntegerWidth::Unknown
    }
}

/// The width to show beside a number: any width if `all` is set, and otherwise one that is longer
/// than the number needs.
#[inline(always)]
pub(super) fn shown_width(all: bool, number: u64, width: IntegerWidth) -> IntegerWidth
    ensures { result ≡ marked all number width }
{
    if all { width } else { longer(number, width) }
}

/// Writes an indicator.
pub(super) fn push_indicator(out: &mut String, width: IntegerWidth) -> Result<(), AllocError>
    ensures { AppendsText result out.old out.new (indicator width) }
{
    match width {
        IntegerWidth::Unknown | IntegerWidth::Zero => Ok(()),
        IntegerWidth::Eight => out.push_str("_0"),
        IntegerWidth::Sixteen => out.push_str("_1"),
        IntegerWidth::ThirtyTwo => out.push_str("_2"),
        IntegerWidth::SixtyFour => out.push_str("_3"),
    }
}

/// Writes the width after a string of this length, if it is longer than the length needs.
#[inline(always)]
pub(super) fn push_length_mark(
    out: &mut String,
    len: u64,
    width: IntegerWidth,
) -> Result<(), AllocError>
    ensures { AppendsText result out.old out.new (length_mark len width) }
{
    match longer(len, width) {
        IntegerWidth::Unknown => Ok(()),
        width => push_indicator(out, width),
    }
}

/// The float as it is encoded.
fn encoded_float(bits: u64, width: FloatWidth) -> EncodedFloat
    requires { FitsFloat width bits }
    ensures { result ≡ float_of bits width }
{
    match width {
        FloatWidth::Sixteen => EncodedFloat::Half(bits as u16),
        FloatWidth::ThirtyTwo => EncodedFloat::Single(bits as u32),
        FloatWidth::Unknown | FloatWidth::SixtyFour => EncodedFloat::Double(bits),
    }
}

/// Writes the indicator of a float's width.
fn push_float_indicator(out: &mut String, width: FloatWidth) -> Result<(), AllocError>
    ensures { AppendsText result out.old out.new (float_indicator width) }
{
    match width {
        FloatWidth::Sixteen => out.push_str("_1"),
        FloatWidth::ThirtyTwo => out.push_str("_2"),
        FloatWidth::Unknown | FloatWidth::SixtyFour => out.push_str("_3"),
    }
}

/// Writes a number in its shortest digits, or as its word. Unlike the function of `cbor_floats`,
/// its contract says what the text is after an error.
fn push_number(out: &mut String, x: f64) -> Result<(), AllocError>
    ensures { Writes result out.old out.new (λ t. IsTextOf t x) }
{
    out.push_str(number_text(&mut Buffer::new(), x))
}

/// Writes a float by its value, with its width if that is not the shortest for the value or if
/// `all` is set. A float whose value does not determine its bits, such as a NaN with a payload, is
/// written by its bits.
#[inline(never)]
pub(super) fn push_float(
    out: &mut String,
    bits: u64,
    width: FloatWidth,
    all: bool,
) -> Result<(), AllocError>
    requires { FitsFloat width bits }
    ensures { Writes result out.old out.new (FloatText all bits width) }
{
    let float = encoded_float(bits, width);
    if !float.is_usual() {
        return scalars::push_float(out, bits, width);
    }
    push_number(out, float.value())?;
    if all || !float.is_shortest() {
        return push_float_indicator(out, width);
    }
    Ok(())
}
