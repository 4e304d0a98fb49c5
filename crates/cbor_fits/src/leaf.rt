//! Checks whether a value fits a type that has no parts, and compares numbers.
ghost use Rattle.std.specs.Prelude.{◌≡◌, pos, negsuc, ℤ, int_le, ◌&&◌};
ghost use Rattle.cbor_fits.specs.View.{view};
ghost use Rattle.cbor_fits.specs.Value.{integer};
ghost use Rattle.cbor_fits.specs.Leaf.{major, argument, is_integer_within, is_float_within, holds};
ghost use Rattle.cbor_fits.specs.Leaf.{is_float_of, is_simple, is_text, is_bytes, fits_leaf};
ghost use Rattle.cbor_fits.specs.Leaf.{compares, compares_floats, compares_with, nearest};
ghost use Rattle.cbor_fits.specs.Tables.{rules_of};

use crate::tables::Tables;
use crate::value::Datum;
use cbor_cddl::{Comparison, Floats, Node, Value};
use cbor_floats::{Width, half_value, nearest_half};
use std::num::{f32_to_f64_with_nan, nearest_f64_to_f32_with_nan, nearest_u64_to_f64};

/// The major type of an item.
fn major_of(datum: &Datum) -> u8
    ensures { result ≡ major (view datum.now) }
{
    match datum {
        Datum::Unsigned(_) => 0,
        Datum::Negative(_) => 1,
        Datum::Bytes(_) => 2,
        Datum::Text(_) => 3,
        Datum::Array(_) => 4,
        Datum::Map(_) => 5,
        Datum::Tag(..) => 6,
        Datum::Float(_) | Datum::Simple(_) => 7,
    }
}

/// The argument of the head of an item, where lengths are definite.
fn argument_of(datum: &Datum) -> u64
    ensures { result ≡ argument (view datum.now) }
{
    match datum {
        Datum::Unsigned(number) | Datum::Negative(number) => *number,
        Datum::Bytes(content) => content.len() as u64,
        Datum::Text(content) => content.len() as u64,
        Datum::Array(members) => members.len() as u64,
        Datum::Map(pairs) => pairs.len() as u64,
        Datum::Tag(number, _) => *number,
        Datum::Float(_) => 0,
        Datum::Simple(number) => u64::from(*number),
    }
}

/// The integer `-1 - n`.
fn negative(number: u64) -> i128
    ensures { result ≡ negsuc number }
{
    -1 - i128::from(number)
}

/// Whether an integer is within bounds.
fn is_between(least: i128, number: i128, most: i128) -> bool
    ensures { result ≡ (int_le least number && int_le number most) }
{
    least <= number && number <= most
}

/// Whether an item is an integer within bounds.
fn is_integer_within(least: i128, most: i128, datum: &Datum) -> bool
    ensures { result ≡ is_integer_within least most (view datum.now) }
{
    match datum {
        Datum::Unsigned(number) => is_between(least, i128::from(*number), most),
        Datum::Negative(number) => is_between(least, negative(*number), most),
        _ => false,
    }
}

/// Whether an item is a float within bounds.
fn is_float_within(floats: Floats, datum: &Datum) -> bool
    ensures { result ≡ is_float_within floats (view datum.now) }
{
    let Datum::Float(number) = datum else {
        return false;
    };
    if floats.below {
        floats.least <= *number && *number < floats.most
    } else {
        floats.least <= *number && *number <= floats.most
    }
}

/// Whether floats of this width have the number.
fn holds(width: Width, number: f64) -> bool
    ensures { result ≡ holds width number }
{
    match width {
        Width::Sixteen => number.is_nan() || half_value(nearest_half(number)) == number,
        Width::ThirtyTwo => {
            number.is_nan() || f32_to_f64_with_nan(nearest_f64_to_f32_with_nan(number)) == number
        }
        Width::SixtyFour => true,
    }
}

/// Whether an item is a float that this width has.
fn is_float_of(width: Width, datum: &Datum) -> bool
    ensures { result ≡ is_float_of width (view datum.now) }
{
    match datum {
        Datum::Float(number) => holds(width, *number),
        _ => false,
    }
}

/// Whether an item is this simple value.
fn is_simple(wanted: u8, datum: &Datum) -> bool
    ensures { result ≡ is_simple wanted (view datum.now) }
{
    match datum {
        Datum::Simple(number) => wanted == *number,
        _ => false,
    }
}

/// Whether an item is this text.
fn is_text(wanted: &[u8], datum: &Datum) -> bool
    ensures { result ≡ is_text wanted.now (view datum.now) }
{
    match datum {
        Datum::Text(content) => wanted == content.as_bytes(),
        _ => false,
    }
}

/// Whether an item is this byte string.
fn is_bytes(wanted: &[u8], datum: &Datum) -> bool
    ensures { result ≡ is_bytes wanted.now (view datum.now) }
{
    match datum {
        Datum::Bytes(content) => wanted == content.as_slice(),
        _ => false,
    }
}

impl Tables<'_> {
    /// Whether an item fits a type that has no parts.
    pub(crate) fn fits_leaf(&self, node: Node, datum: &Datum) -> bool
        ensures { result ≡ fits_leaf (rules_of self.now) node (view datum.now) }
    {
        match node {
            Node::Any => true,
            Node::Major(major) => major_of(datum) == major,
            Node::Argument { major, argument } => {
                major_of(datum) == major && argument_of(datum) == argument
            }
            Node::Integers { least, most } => is_integer_within(least, most, datum),
            Node::Floats(floats) => is_float_within(floats, datum),
            Node::FloatsOf(width) => is_float_of(width, datum),
            Node::Simple(number) => is_simple(number, datum),
            Node::Text(span) => is_text(self.literal(span), datum),
            Node::Bytes(span) => is_bytes(self.literal(span), datum),
            _ => false,
        }
    }
}

/// Whether integers compare so.
fn compares(comparison: Comparison, number: i128, limit: i128) -> bool
    ensures { result ≡ compares comparison number limit }
{
    match comparison {
        Comparison::Less => number < limit,
        Comparison::LessOrEqual => number <= limit,
        Comparison::Greater => number > limit,
        Comparison::GreaterOrEqual => number >= limit,
    }
}

/// Whether floats compare so.
fn compares_floats(comparison: Comparison, number: f64, limit: f64) -> bool
    ensures { result ≡ compares_floats comparison number limit }
{
    match comparison {
        Comparison::Less => number < limit,
        Comparison::LessOrEqual => number <= limit,
        Comparison::Greater => number > limit,
        Comparison::GreaterOrEqual => number >= limit,
    }
}

/// The float nearest to an integer.
fn nearest_of(number: i128) -> f64
    ensures { result ≡ nearest number }
{
    let size = u64::try_from(number.unsigned_abs()).unwrap_or(u64::MAX);
    let float = nearest_u64_to_f64(size);
    if number < 0 { -float } else { float }
}

/// Whether an integer compares so with a limit.
fn integer_compares(comparison: Comparison, number: i128, limit: Value) -> bool
    ensures { result ≡ compares_with comparison limit (integer number) }
{
    match limit {
        Value::Integer(limit) => compares(comparison, number, limit),
        Value::Float(limit) => compares_floats(comparison, nearest_of(number), limit),
        _ => false,
    }
}

/// Whether an item compares so with a limit.
pub(crate) fn compares_with(comparison: Comparison, limit: Value, datum: &Datum) -> bool
    ensures { result ≡ compares_with comparison limit (view datum.now) }
{
    match datum {
        Datum::Unsigned(number) => integer_compares(comparison, i128::from(*number), limit),
        Datum::Negative(number) => integer_compares(comparison, negative(*number), limit),
        Datum::Float(number) => match limit {
            Value::Integer(limit) => compares_floats(comparison, *number, nearest_of(limit)),
            Value::Float(limit) => compares_floats(comparison, *number, limit),
            _ => false,
        },
        _ => false,
    }
}
