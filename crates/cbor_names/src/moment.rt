//! Converts a float of seconds since 1970, as in tag 1, to a date with a fraction of a second.

use cbor_floats::EncodedFloat;
use cbor_notes::datetime_of_epoch;
use std::alloc::{AllocError, Global};

/// The microseconds of a second.
const SECOND: i64 = 1_000_000;

/// How many bits of a double are its fraction.
const FRACTION: u64 = 52;

/// The exponent of a double, as its bits have it, from which on its fraction counts ones.
const WHOLE: u64 = 1075;

/// The microseconds that are nearest to this many seconds, if they are few enough to be a date's.
fn micros_of(bits: u64) -> Option<i64> {
    let exponent = (bits >> FRACTION) % 2048;
    let fraction = bits % (1 << FRACTION);
    if exponent == 0 {
        return Some(0);
    }
    let micros = (u128::from(fraction) + (1 << 52)) * 1_000_000;
    let amount = if exponent >= WHOLE {
        micros_above(micros, exponent - WHOLE)?
    } else {
        micros_below(micros, WHOLE - exponent)
    };
    let amount = i64::try_from(amount).ok()?;
    if bits >= 1 << 63 {
        Some(0i64.saturating_sub(amount))
    } else {
        Some(amount)
    }
}

/// The number times a power of two.
fn micros_above(number: u128, power: u64) -> Option<u128> {
    if power < 12 {
        Some(number << power)
    } else {
        None
    }
}

/// The number nearest to this one divided by a power of two.
fn micros_below(number: u128, power: u64) -> u128 {
    if power == 0 || power > 120 {
        return 0;
    }
    (number >> (power - 1)).saturating_add(1) >> 1
}

/// The moment this number of seconds after 1970-01-01T00:00:00Z, as `datetime_of_epoch` writes it.
/// A fraction of a second is rounded to six digits.
pub(crate) fn datetime_of_float(
    alloc: Global,
    seconds: EncodedFloat,
) -> Result<Option<String>, AllocError> {
    let Some(micros) = micros_of(seconds.widened()) else {
        return Ok(None);
    };
    let Some(mut text) = datetime_of_epoch(alloc, micros.div_euclid(SECOND))? else {
        return Ok(None);
    };
    let fraction = micros.rem_euclid(SECOND);
    if fraction > 0 {
        let digits = format!(in alloc; "{fraction:06}")?;
        // The zone is behind the fraction.
        text.pop();
        text.push('.')?;
        text.push_str(digits.trim_end_matches('0'))?;
        text.push('Z')?;
    }
    Ok(Some(text))
}
