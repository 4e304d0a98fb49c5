//! Compares two items within a given number of parts. Each item in them is a part, and so are 64
//! bytes of a string. If the parts are not enough, the items count as different.

ghost use Rattle.std.specs.Prelude.{◌≡◌, true, map, length, Float};
ghost use Rattle.cbor_fits.specs.View.{view};
ghost use Rattle.cbor_fits.specs.Rests.{pair_view};

use crate::value::Datum;
use std::num::f64_to_bits_with_nan;

/// How many bytes of a string are a part.
const BYTES_IN_PART: usize = 64;

/// Takes the parts of a string, and says whether any are left.
fn take_parts(parts: &mut u32, bytes: usize) -> bool {
    match u32::try_from(bytes / BYTES_IN_PART) {
        Ok(count) => {
            *parts = parts.saturating_sub(count);
            *parts != 0
        }
        Err(_) => false,
    }
}

/// Whether two strings are the same.
fn same_bytes(first: &[u8], second: &[u8], parts: &mut u32) -> bool
    ensures { result ≡ true → first.now ≡ second.now }
{
    first.len() == second.len() && take_parts(parts, first.len()) && first == second
}

/// Whether two floats are the same. No bit of a NaN counts.
fn same_float(first: f64, second: f64) -> bool
    ensures { result ≡ true → first ≡ second }
{
    f64_to_bits_with_nan(first) == f64_to_bits_with_nan(second)
}

/// Whether two items are the same, and not too long to compare.
#[cycle(same)]
pub(crate) fn same(first: &Datum, second: &Datum, parts: &mut u32) -> bool
    ensures { result ≡ true → view first.now ≡ view second.now }
{
    if *parts == 0 {
        return false;
    }
    *parts -= 1;
    match first {
        Datum::Unsigned(a) => match second {
            Datum::Unsigned(b) => *a == *b,
            _ => false,
        },
        Datum::Negative(a) => match second {
            Datum::Negative(b) => *a == *b,
            _ => false,
        },
        Datum::Float(a) => match second {
            Datum::Float(b) => same_float(*a, *b),
            _ => false,
        },
        Datum::Simple(a) => match second {
            Datum::Simple(b) => *a == *b,
            _ => false,
        },
        Datum::Bytes(a) => match second {
            Datum::Bytes(b) => same_bytes(a, b, parts),
            _ => false,
        },
        Datum::Text(a) => match second {
            Datum::Text(b) => same_bytes(a.as_bytes(), b.as_bytes(), parts),
            _ => false,
        },
        Datum::Array(a) => match second {
            Datum::Array(b) => same_members(a, b, parts),
            _ => false,
        },
        Datum::Map(a) => match second {
            Datum::Map(b) => same_pairs(a, b, parts),
            _ => false,
        },
        Datum::Tag(m, a) => match second {
            Datum::Tag(n, b) => *m == *n && same(a, b, parts),
            _ => false,
        },
    }
}

/// Whether the members of two arrays are the same.
#[cycle(same)]
fn same_members(first: &Vec<Datum>, second: &[Datum], parts: &mut u32) -> bool
    ensures { result ≡ true → map view first.now.items ≡ map view second.now }
{
    if first.len() != second.len() {
        return false;
    }
    'members: for (index, member) in first.iter().enumerate() {
        if index >= second.len() || !same(member, &second[index], parts) {
            return false;
        }
    }
    true
}

/// Whether the pairs of two maps are the same.
#[cycle(same)]
fn same_pairs(first: &Vec<(Datum, Datum)>, second: &[(Datum, Datum)], parts: &mut u32) -> bool
    ensures { result ≡ true → map pair_view first.now.items ≡ map pair_view second.now }
{
    if first.len() != second.len() {
        return false;
    }
    'pairs: for (index, (key, value)) in first.iter().enumerate() {
        if index >= second.len() {
            return false;
        }
        let other = &second[index];
        if !same(key, &other.0, parts) || !same(value, &other.1, parts) {
            return false;
        }
    }
    true
}
