//! Converts dates with a time of day between texts and seconds since 1970-01-01T00:00:00Z.

ghost use Rattle.std.specs.Prelude.{IsTrue, length, take_while, ◌≡◌, ◌↔◌, ◌++◌, ℕ, ◌+◌, ◌*◌, ◌/◌};
ghost use Rattle.std.specs.Prelude.{◌%◌, ◌<◌, ◌≤◌, pos, ◌+ℤ◌, ◌-ℤ◌, ◌*ℤ◌, ℤ, List, IsSome, IfSome};
ghost use Rattle.std.specs.Prelude.{IfOk, OnOk, IsSomeAnd, option_map};
ghost use Rattle.std.specs.Int.{int_div_euclid};
ghost use Rattle.std.specs.Char.{is_ascii_digit};
ghost use Rattle.std.specs.List.{list_all};
ghost use Rattle.std.specs.Str.{IsAscii};
ghost use Rattle.std.specs.String.{string_bytes};
ghost use Rattle.jiff.specs.Words.{IsEpochDay, epoch_day};
ghost use Rattle.cbor_notes.specs.Date as date;
ghost use Rattle.cbor_notes.specs.Date.{IsMomentText};
ghost use Rattle.cbor_notes.specs.DateTime as spec;
ghost use Rattle.cbor_notes.specs.DateTime.{IsDateTimeText, IsFraction, IsOffset, IsZone};

use crate::date::{date_of_day, day_of_date, push_date, push_two_digits, read_date, two_digits};
use jiff::civil::Date;
use std::alloc::{AllocError, Global};

/// The seconds of a day.
const DAY: i64 = 86_400;

/// Returns the moment that is `seconds` after 1970-01-01T00:00:00Z, in UTC and without leap
/// seconds, as in `2013-03-21T20:04:00Z`. A year before 0 has a `-` before its four digits.
///
/// Returns `None` for a moment before the year -9999 or after the year 9999. The only error is out
/// of memory.
///
/// ```rust
/// use cbor_notes::datetime_of_epoch;
///
/// let moment = datetime_of_epoch(alloc, 1_363_896_240)?;
/// assert_eq!(rt; moment.as_deref(), Some("2013-03-21T20:04:00Z"));
/// ```
pub fn datetime_of_epoch(alloc: Global, seconds: i64) -> Result<Option<String>, AllocError>
    ensures found { IfOk result
        (λ found. IfSome found (λ text. IsMomentText seconds (string_bytes text))) }
    ensures range { IfOk result
        (λ found. IsSome found ↔ IsEpochDay (int_div_euclid seconds (pos 86400))) }
    ensures value { IfOk result
        (λ found. option_map string_bytes found ≡ date.datetime_of_epoch seconds) }
    // There is one such text.
    ensures only { (text : List ℕ) → IsMomentText seconds text
        → IfOk result (λ found. IsSomeAnd found (λ answer. string_bytes answer ≡ text)) }
{
    let Some(date) = date_of_day(seconds.div_euclid(DAY)) else {
        return Ok(None);
    };
    let mut text = String::with_capacity(alloc, 21)?;
    push_date(&mut text, date)?;
    text.push('T')?;
    push_clock(&mut text, seconds.rem_euclid(DAY) as u32)?;
    text.push('Z')?;
    Ok(Some(text))
}

/// Returns the seconds from 1970-01-01T00:00:00Z to the moment that a text names: `1363896240` for
/// `2013-03-21T20:04:00Z`, and `1363896240.120` for `2013-03-21t21:34:00.12+01:30`.
///
/// The text is one of RFC 3339, section 5.6: a date in the calendar, `T` or `t`, hours, minutes and
/// seconds, an optional `.` with digits, and `Z`, `z` or a sign, hours and minutes. Hours are at
/// most 23, minutes 59, and seconds 60, at any time of day: second 60 counts as the next one.
/// Returns `None` for any other text.
///
/// The fraction is truncated to nine digits. It is written in 3, 6 or 9 digits, the fewest that
/// drop only zeros, and left out if it is zero. It counts forward from the seconds, also before
/// 1970. The only error is out of memory.
///
/// ```rust
/// use cbor_notes::epoch_of_datetime;
///
/// let seconds = epoch_of_datetime(alloc, "2013-03-21T20:04:00Z")?;
/// assert_eq!(rt; seconds.as_deref(), Some("1363896240"));
/// ```
pub fn epoch_of_datetime(alloc: Global, text: &str) -> Result<Option<String>, AllocError>
    ensures found { IfOk result (λ found. IfSome found
        (λ answer. (seconds : ℤ) × (digits : List ℕ) × IsDateTimeText text.now seconds digits
        × (string_bytes answer ≡ spec.epoch_text seconds digits))) }
    ensures value { IfOk result
        (λ found. option_map string_bytes found ≡ spec.epoch_of_datetime text.now) }
    // No text names two moments.
    ensures only { (seconds : ℤ) (digits : List ℕ) → IsDateTimeText text.now seconds digits
        → IfOk result (λ found. IsSomeAnd found
        (λ answer. string_bytes answer ≡ spec.epoch_text seconds digits)) }
{
    let Some((seconds, fraction)) = read_datetime(text.as_bytes()) else {
        return Ok(None);
    };
    // Eleven digits of seconds, and the sign, the dot and nine digits.
    let mut answer = String::with_capacity(alloc, 22)?;
    write!(answer, "{seconds}")?;
    push_fraction(&mut answer, fraction)?;
    Ok(Some(answer))
}

/// The seconds that a date with a time of day and an offset names, and the digits of its fraction.
fn read_datetime(text: &[u8]) -> Option<(i64, &[u8])>
    ensures found { IfSome result (λ answer. IsDateTimeText text.now answer.0 answer.1.now) }
    ensures only { (seconds : ℤ) (digits : List ℕ) → IsDateTimeText text.now seconds digits
        → IsSomeAnd result (λ answer. (answer.0 ≡ seconds) × (answer.1.now ≡ digits)) }
{
    let (date, rest) = text.split_first_chunk()?;
    let date = read_date(date)?;
    let (separator, rest) = rest.split_first()?;
    if *separator != b'T' && *separator != b't' {
        return None;
    }
    let (clock, rest) = rest.split_first_chunk()?;
    let clock = read_clock(clock)?;
    let (digits, zone) = split_fraction(rest)?;
    let offset = read_zone(zone)?;
    Some((moment_seconds(date, clock, offset), digits))
}

/// The seconds from 1970-01-01T00:00:00Z to `clock` seconds after the midnight of a date, on a
/// clock that is `offset` seconds ahead of UTC.
fn moment_seconds(date: Date, clock: u32, offset: i32) -> i64
    ensures { result ≡ (epoch_day date *ℤ pos 86400 +ℤ pos clock) -ℤ offset }
{
    i64::from(day_of_date(date)) * DAY + i64::from(clock) - i64::from(offset)
}

/// The seconds from midnight to a time of day, whose seconds may be 60.
fn read_clock(text: &[u8; 8]) -> Option<u32>
    ensures found { IfSome result (λ seconds. (hour minute second : ℕ)
        × (hour ≤ 23) × (minute ≤ 59) × (second ≤ 60)
        × (text.now ≡ date.clock_text hour minute second)
        × (seconds ≡ 3600 * hour + 60 * minute + second)) }
    ensures only { (hour minute second : ℕ) → hour ≤ 23 → minute ≤ 59 → second ≤ 60
        → text.now ≡ date.clock_text hour minute second
        → IsSomeAnd result (λ seconds. seconds ≡ 3600 * hour + 60 * minute + second) }
{
    let [a, b, first, c, d, last, e, f] = *text;
    if first != b':' || last != b':' {
        return None;
    }
    let hour = two_digits(a, b)?;
    let minute = two_digits(c, d)?;
    let second = two_digits(e, f)?;
    if hour > 23 || minute > 59 || second > 60 {
        return None;
    }
    Some(u32::from(hour) * 3600 + u32::from(minute) * 60 + u32::from(second))
}

/// The digits of a fraction of a second, if there is one, and the zone that follows it.
fn split_fraction(text: &[u8]) -> Option<(&[u8], &[u8])>
    ensures found { IfSome result (λ answer. (fraction : List ℕ) × IsFraction fraction answer.0.now
        × (text.now ≡ fraction ++ answer.1.now)) }
    ensures only { (fraction digits zone : List ℕ) (offset : ℤ)
        → IsFraction fraction digits → IsZone zone offset → text.now ≡ fraction ++ zone
        → IsSomeAnd result (λ answer. (answer.0.now ≡ digits) × (answer.1.now ≡ zone)) }
{
    if text.is_empty() || text[0] != b'.' {
        return Some((&[], text));
    }
    let rest = &text[1..];
    let count = leading_digits(rest);
    if count == 0 {
        return None;
    }
    Some((&rest[..count], &rest[count..]))
}

/// The number of leading decimal digits.
fn leading_digits(text: &[u8]) -> usize
    ensures count { result ≡ length (take_while is_ascii_digit text.now) }
{
    text.iter().take_while(|byte| byte.is_ascii_digit()).count()
}

/// The seconds that the clock of a zone is ahead of UTC.
fn read_zone(text: &[u8]) -> Option<i32>
    ensures found { IfSome result (λ offset. IsZone text.now offset) }
    ensures only { (offset : ℤ) → IsZone text.now offset
        → IsSomeAnd result (λ answer. answer ≡ offset) }
{
    match *text {
        [b'Z' | b'z'] => Some(0),
        _ => read_offset(text.as_array()?),
    }
}

/// The seconds of an offset: a sign, hours and minutes.
fn read_offset(text: &[u8; 6]) -> Option<i32>
    ensures found { IfSome result (λ offset. IsOffset text.now offset) }
    ensures only { (offset : ℤ) → IsOffset text.now offset
        → IsSomeAnd result (λ answer. answer ≡ offset) }
{
    let [sign, a, b, colon, c, d] = *text;
    if colon != b':' {
        return None;
    }
    let hour = two_digits(a, b)?;
    let minute = two_digits(c, d)?;
    if hour > 23 || minute > 59 {
        return None;
    }
    let offset = (u32::from(hour) * 3600 + u32::from(minute) * 60) as i32;
    match sign {
        b'+' => Some(offset),
        b'-' => Some(-offset),
        _ => None,
    }
}

/// Appends a time of day, given in seconds from midnight.
fn push_clock(text: &mut String, seconds: u32) -> Result<(), AllocError>
    requires { seconds < 86400 }
    ensures text { OnOk result (string_bytes text.new ≡ string_bytes text.old
        ++ date.clock_text (seconds / 3600) (seconds / 60 % 60) (seconds % 60)) }
{
    push_two_digits(text, (seconds / 3600) as u8)?;
    text.push(':')?;
    push_two_digits(text, (seconds / 60 % 60) as u8)?;
    text.push(':')?;
    push_two_digits(text, (seconds % 60) as u8)
}

/// Appends a fraction, truncated to nine digits: `.` and 3, 6 or 9 digits, or nothing if all are
/// zeros.
fn push_fraction(text: &mut String, digits: &[u8]) -> Result<(), AllocError>
    requires { IsTrue (list_all is_ascii_digit digits.now) }
    ensures text { OnOk result
        (string_bytes text.new ≡ string_bytes text.old ++ spec.fraction_text digits.now) }
{
    let nine = nine_digits(digits);
    let shown = shown_digits(&nine);
    if shown == 0 {
        return Ok(());
    }
    text.push('.')?;
    push_digits(text, &nine[..shown])
}

/// Appends ASCII characters. After an error `text` may end with some of them.
fn push_digits(text: &mut String, digits: &[u8]) -> Result<(), AllocError>
    requires { IsAscii digits.now }
    ensures text { OnOk result (string_bytes text.new ≡ string_bytes text.old ++ digits.now) }
{
    for digit in digits {
        text.push(char::from(*digit))?;
    }
    Ok(())
}

/// The first nine digits, filled up with zeros.
fn nine_digits(digits: &[u8]) -> [u8; 9]
    ensures { result ≡ spec.nine_digits digits.now }
{
    let mut nine = [b'0'; 9];
    let count = digits.len().min(9);
    nine[..count].copy_from_slice(&digits[..count]);
    nine
}

/// The fewest of 0, 3, 6 and 9 digits after which all are zeros.
fn shown_digits(nine: &[u8; 9]) -> usize
    ensures count { result ≡ spec.shown nine.now }
    ensures bound { result ≤ 9 }
{
    if nine.ends_with(b"000000000") {
        0
    } else if nine.ends_with(b"000000") {
        3
    } else if nine.ends_with(b"000") {
        6
    } else {
        9
    }
}
