//! Writes floats in JSON: as a value, which is a number or `null`, or as EDN inside a key.
#![tactic(auto, using(cbor_tokens::proofs::texts::Appending::appending_steps))]

ghost use Rattle.std.specs.Prelude.{◌≡◌};
ghost use Rattle.cbor_floats.specs.Decimal.{IsTextOf};
ghost use Rattle.cbor_grammar.specs.NotationText.{float_text};
ghost use Rattle.cbor_grammar.specs.WellFormed.{FitsFloat};
ghost use Rattle.cbor_notation_writer.specs.Dialect.{Writes};
ghost use Rattle.cbor_floats.specs.Value.{value_of};
ghost use Rattle.cbor_json.specs.JsonLeaves.{encoded_float as float_of, NumberOrNull, EdnFloat};

use cbor_floats::{EncodedFloat, number_text};
use cbor_grammar::FloatWidth;
use cbor_notation_writer::scalars;
use ryu::Buffer;
use std::alloc::AllocError;

/// The float as it is encoded.
pub(crate) fn encoded_float(bits: u64, width: FloatWidth) -> EncodedFloat
    requires { FitsFloat width bits }
    ensures { result ≡ float_of bits width }
{
    match width {
        FloatWidth::Sixteen => EncodedFloat::Half(bits as u16),
        FloatWidth::ThirtyTwo => EncodedFloat::Single(bits as u32),
        FloatWidth::Unknown | FloatWidth::SixtyFour => EncodedFloat::Double(bits),
    }
}

/// Writes a number by its shortest digits, or by its word. Unlike the call of `cbor_floats`, it
/// says what the text is after an error.
fn push_number(out: &mut String, x: f64) -> Result<(), AllocError>
    ensures { Writes result out.old out.new (λ t. IsTextOf t x) }
{
    out.push_str(number_text(&mut Buffer::new(), x))
}

/// Writes a finite number, or `null`.
fn push_number_or_null(out: &mut String, x: f64) -> Result<(), AllocError>
    ensures { Writes result out.old out.new (NumberOrNull x) }
{
    if x.is_finite() {
        push_number(out, x)
    } else {
        out.push_str("null")
    }
}

/// Writes a float as a value.
pub(super) fn push_value_float(
    out: &mut String,
    bits: u64,
    width: FloatWidth,
) -> Result<(), AllocError>
    requires { FitsFloat width bits }
    ensures { Writes result out.old out.new (NumberOrNull (value_of (float_of bits width))) }
{
    push_number_or_null(out, encoded_float(bits, width).value())
}

/// Writes a float as EDN: by its number, or by its bits where these are not those of its number.
pub(super) fn push_edn_float(
    out: &mut String,
    bits: u64,
    width: FloatWidth,
) -> Result<(), AllocError>
    requires { FitsFloat width bits }
    ensures { Writes result out.old out.new
        (EdnFloat (float_of bits width) (float_text bits width)) }
{
    let float = encoded_float(bits, width);
    if float.is_usual() {
        push_number(out, float.value())
    } else {
        scalars::push_float(out, bits, width)
    }
}
