//! Writes the value of a decimal fraction or a bigfloat (RFC 8949, section 3.4.4) as a decimal
//! text.

use crate::scalar::{Scalar, scalar_at};
use cbor_bytes::head::read_head;
use cbor_grammar::argument::Argument;
use cbor_grammar::head::ItemHead;
use std::alloc::{AllocError, Global};

/// The most digits after the point, and the most zeros that are added before it.
const MOST: u64 = 38;

/// What the exponent is one of.
#[derive(Clone, Copy)]
enum Base {
    Ten,
    Two,
}

/// An integer times a power.
#[derive(Clone, Copy)]
pub(crate) struct Scaled<'b> {
    base: Base,
    exponent: i64,
    /// The bytes from the mantissa on.
    pub mantissa: &'b [u8],
    amount: u128,
    is_negative: bool,
}

/// A number in decimal, without its sign: the digits, and how many of them are after the point.
#[derive(Clone, Copy)]
struct Decimal {
    digits: u128,
    places: u64,
}

/// The integer at the front: whether it is negative, and its distance from 0.
fn amount_at(bytes: &[u8]) -> Option<(bool, u128)> {
    let Ok((head, _)) = read_head(bytes) else {
        return None;
    };
    match head {
        ItemHead::Integer(number, _) => Some((false, u128::from(number))),
        ItemHead::Negative(number, _) => Some((true, u128::from(number) + 1)),
        _ => None,
    }
}

/// A number times a power, if it is below 2^128.
fn times(number: u128, factor: u128, power: u64) -> Option<u128> {
    if power > 128 {
        return None;
    }
    let mut product = number;
    for _ in 0..power {
        product = product.checked_mul(factor)?;
    }
    Some(product)
}

impl<'b> Scaled<'b> {
    /// That of an array of two integers right below this tag, if it is one of a decimal fraction or
    /// a bigfloat.
    pub(crate) fn below(tag: u64, bytes: &'b [u8]) -> Option<Scaled<'b>> {
        let base = match tag {
            4 => Base::Ten,
            5 => Base::Two,
            _ => return None,
        };
        let Ok((ItemHead::Array(Argument::Number(2, _)), rest)) = read_head(bytes) else {
            return None;
        };
        let Some(Scalar::Integer(exponent)) = scalar_at(rest) else {
            return None;
        };
        let Ok((_, mantissa)) = read_head(rest) else {
            return None;
        };
        let (is_negative, amount) = amount_at(mantissa)?;
        Some(Scaled {
            base,
            exponent,
            mantissa,
            amount,
            is_negative,
        })
    }

    /// The number in decimal, if it has few enough digits.
    fn decimal(self) -> Option<Decimal> {
        if let Ok(power) = u64::try_from(self.exponent) {
            let factor = match self.base {
                Base::Ten => 10,
                Base::Two => 2,
            };
            let digits = times(self.amount, factor, power)?;
            return Some(Decimal { digits, places: 0 });
        }
        let places = self.exponent.unsigned_abs();
        if places > MOST {
            return None;
        }
        match self.base {
            Base::Ten => Some(Decimal {
                digits: self.amount,
                places,
            }),
            Base::Two => halved(self.amount, places),
        }
    }

    /// The text of the number.
    pub(crate) fn text(self, alloc: Global) -> Result<Option<String>, AllocError> {
        let Some(decimal) = self.decimal() else {
            return Ok(None);
        };
        let mut text = String::new(alloc);
        if self.is_negative {
            text.push('-')?;
        }
        decimal.push(alloc, &mut text)?;
        Ok(Some(text))
    }
}

/// A number divided by two this many times.
fn halved(number: u128, power: u64) -> Option<Decimal> {
    let mut odd = number;
    let mut places = power;
    for _ in 0..power {
        if odd % 2 == 0 {
            odd /= 2;
            places = places.saturating_sub(1);
        }
    }
    Some(Decimal {
        digits: times(odd, 5, places)?,
        places,
    })
}

impl Decimal {
    /// Appends the digits, with a point.
    fn push(self, alloc: Global, text: &mut String) -> Result<(), AllocError> {
        let unit = times(1, 10, self.places).unwrap_or(1);
        let whole = self.digits.checked_div(unit).unwrap_or(0);
        write!(text, "{whole}")?;
        if self.places == 0 {
            return Ok(());
        }
        let part = self.digits.checked_rem(unit).unwrap_or(0);
        let part = format!(in alloc; "{part}")?;
        text.push('.')?;
        for _ in part.len() as u64..self.places {
            text.push('0')?;
        }
        text.push_str(&part)
    }
}
