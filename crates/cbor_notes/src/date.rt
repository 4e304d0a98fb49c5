//! Converts dates between texts and days since 1970-01-01.

ghost use Rattle.std.specs.Prelude.{◌≡◌, ◌↔◌, ◌++◌, ℕ, ◌<◌, [], ◌∷◌, pos, IsSome, IfSome, IfOk};
ghost use Rattle.std.specs.Prelude.{OnOk, IsSomeAnd, option_map};
ghost use Rattle.std.specs.String.{string_bytes};
ghost use Rattle.jiff.specs.Types.{Date as CivilDate};
ghost use Rattle.jiff.specs.Words.{IsDate, IsEpochDay, IsYear, IsYmd, epoch_day};
ghost use Rattle.cbor_notes.specs.Date as spec;
ghost use Rattle.cbor_notes.specs.Date.{IsDateText, IsDayText};

use crate::text::push_grouped;
use jiff::ToSpan;
use jiff::civil::Date;
use std::alloc::{AllocError, Global};

/// Returns the date of a day that is counted from 1970-01-01, as in `2013-03-21`. A year before 0
/// has a `-` before its four digits. The calendar is the Gregorian one, for all years.
///
/// Returns `None` for a day before -9999-01-01, which is -4371587, or after 9999-12-31, which is
/// 2932896. The only error is out of memory.
///
/// ```rust
/// use cbor_notes::date_of_epoch;
///
/// let date = date_of_epoch(alloc, -10_676)?;
/// assert_eq!(rt; date.as_deref(), Some("1940-10-09"));
/// ```
pub fn date_of_epoch(alloc: Global, day: i64) -> Result<Option<String>, AllocError>
    ensures found { IfOk result (λ found. IfSome found
        (λ text. IsDayText day (string_bytes text))) }
    ensures range { IfOk result (λ found. IsSome found ↔ IsEpochDay day) }
    ensures value { IfOk result
        (λ found. option_map string_bytes found ≡ spec.date_of_epoch day) }
    // There is one such text.
    ensures only { (date : CivilDate) → epoch_day date ≡ day
        → IfOk result (λ found. IsSomeAnd found (λ text. string_bytes text ≡ spec.date_text date)) }
{
    let Some(date) = date_of_day(day) else {
        return Ok(None);
    };
    let mut text = String::with_capacity(alloc, 11)?;
    push_date(&mut text, date)?;
    Ok(Some(text))
}

/// Returns the day of a date such as `1940-10-09`, counted from 1970-01-01, in groups of three
/// digits as [`grouped`] writes them.
///
/// A date is four digits, two and two, with `-` between them, and is in the calendar (RFC 8943,
/// section 1.1). Returns `None` for any other text. The only error is out of memory.
///
/// ```rust
/// use cbor_notes::epoch_of_date;
///
/// let day = epoch_of_date(alloc, "1940-10-09")?;
/// assert_eq!(rt; day.as_deref(), Some("-10,676"));
/// ```
///
/// [`grouped`]: crate::grouped
pub fn epoch_of_date(alloc: Global, text: &str) -> Result<Option<String>, AllocError>
    ensures found { IfOk result (λ found. IfSome found
        (λ day. (date : CivilDate) × IsDateText text.now date
        × (string_bytes day ≡ spec.grouped_signed (epoch_day date)))) }
    ensures value { IfOk result
        (λ found. option_map string_bytes found ≡ spec.epoch_of_date text.now) }
    // No text is that of two dates.
    ensures only { (date : CivilDate) → IsDateText text.now date
        → IfOk result (λ found. IsSomeAnd found
        (λ day. string_bytes day ≡ spec.grouped_signed (epoch_day date))) }
{
    let Some(date) = text_date(text) else {
        return Ok(None);
    };
    let day = day_of_date(date);
    let mut text = String::with_capacity(alloc, 10)?;
    push_grouped(&mut text, u128::from(day.unsigned_abs()), day < 0)?;
    Ok(Some(text))
}

/// The date of a day, counted from 1970-01-01, if the calendar of `jiff` has it.
pub(crate) fn date_of_day(day: i64) -> Option<Date>
    ensures found { IfSome result (λ date. epoch_day date ≡ day) }
    ensures range { IsSome result ↔ IsEpochDay day }
{
    if !(-4_371_587..=2_932_896).contains(&day) {
        return None;
    }
    jiff::civil::date(1970, 1, 1).checked_add(day.days()).ok()
}

/// The day of a date, counted from 1970-01-01.
pub(crate) fn day_of_date(date: Date) -> i32
    ensures value { result ≡ epoch_day date }
    ensures bound { IsEpochDay result }
{
    date.to_plain().to_unix_epoch_day()
}

/// The date that a text names, if the text is as long as a date.
fn text_date(text: &str) -> Option<Date>
    ensures found { IfSome result (λ date. IsDateText text.now date) }
    ensures only { (date : CivilDate) → IsDateText text.now date
        → IsSomeAnd result (λ answer. epoch_day answer ≡ epoch_day date) }
{
    read_date(text.as_bytes().as_array()?)
}

/// The date that ten bytes name: four digits, two and two, with `-` between them.
pub(crate) fn read_date(text: &[u8; 10]) -> Option<Date>
    ensures found { IfSome result (λ date. IsDateText text.now date) }
    ensures only { (date : CivilDate) → IsDateText text.now date
        → IsSomeAnd result (λ answer. epoch_day answer ≡ epoch_day date) }
{
    let [a, b, c, d, first, e, f, second, g, h] = *text;
    if first != b'-' || second != b'-' {
        return None;
    }
    let century = two_digits(a, b)?;
    let year = two_digits(c, d)?;
    let month = two_digits(e, f)?;
    let day = two_digits(g, h)?;
    calendar_date(u16::from(century) * 100 + u16::from(year), month, day)
}

/// The date with these parts, if the calendar of `jiff` has it.
fn calendar_date(year: u16, month: u8, day: u8) -> Option<Date>
    requires year { year < 10000 }
    requires month { month < 100 }
    requires day { day < 100 }
    ensures found { IfSome result (IsYmd (pos year) (pos month) (pos day)) }
    ensures some { IsDate (pos year) (pos month) (pos day) → IsSome result }
{
    Date::new(year as i16, month as i8, day as i8).ok()
}

/// The number of two decimal digits.
pub(crate) fn two_digits(tens: u8, ones: u8) -> Option<u8>
    ensures found { IfSome result (λ n. (n < 100) × (tens ∷ ones ∷ [] ≡ spec.two_digits n)) }
    ensures only { (n : ℕ) → n < 100 → tens ∷ ones ∷ [] ≡ spec.two_digits n
        → IsSomeAnd result (λ answer. answer ≡ n) }
{
    if tens.is_ascii_digit() && ones.is_ascii_digit() {
        Some((tens - b'0') * 10 + (ones - b'0'))
    } else {
        None
    }
}

/// Appends a date, as [`date_of_epoch`] writes it. After an error `text` may end with a part of it.
pub(crate) fn push_date(text: &mut String, date: Date) -> Result<(), AllocError>
    ensures text { OnOk result (string_bytes text.new ≡ string_bytes text.old
        ++ spec.date_text date) }
{
    push_year(text, date.year())?;
    text.push('-')?;
    push_two_digits(text, date.month() as u8)?;
    text.push('-')?;
    push_two_digits(text, date.day() as u8)
}

/// Appends a year of at most four digits, with a `-` before a negative one.
fn push_year(text: &mut String, year: i16) -> Result<(), AllocError>
    requires { IsYear year }
    ensures text { OnOk result (string_bytes text.new ≡ string_bytes text.old
        ++ spec.year_text year) }
{
    if year < 0 {
        text.push('-')?;
    }
    push_four_digits(text, year.unsigned_abs())
}

/// Appends a number below 10,000 in four digits. After an error `text` may end with some of them.
fn push_four_digits(text: &mut String, number: u16) -> Result<(), AllocError>
    requires { number < 10000 }
    ensures text { OnOk result
        (string_bytes text.new ≡ string_bytes text.old ++ spec.four_digits number) }
{
    push_two_digits(text, (number / 100) as u8)?;
    push_two_digits(text, (number % 100) as u8)
}

/// Appends a number below 100 in two digits. After an error `text` may end with one of them.
pub(crate) fn push_two_digits(text: &mut String, number: u8) -> Result<(), AllocError>
    requires { number < 100 }
    ensures text { OnOk result
        (string_bytes text.new ≡ string_bytes text.old ++ spec.two_digits number) }
{
    text.push(char::from(b'0' + number / 10))?;
    text.push(char::from(b'0' + number % 10))
}
