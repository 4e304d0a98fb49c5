//! Returns the notes of a dump on dates and times (RFC 7049 section 2.4.1 and RFC 8943). The note
//! on a text is its number of seconds or days, and the note on a number is its date.
ghost use Rattle.std.specs.Prelude.{◌≡◌, codes, option_map, IfOk};
ghost use Rattle.std.specs.String.{string_bytes};
ghost use Rattle.cbor_notes.specs.Date as dates;
ghost use Rattle.cbor_dump.specs.Notes as spec;
ghost use Rattle.cbor_dump.specs.mirror.NotesView.{value_view};

use super::in_brackets;
use super::value::{Atom, Value};
use cbor_notes::{date_of_epoch, datetime_of_epoch, epoch_of_date, epoch_of_datetime};
use std::alloc::{AllocError, Global};

/// The note on a date and time as text: the number of seconds from 1970 to it.
pub(super) fn datetime_note(alloc: Global, value: Value<'_>) -> Result<String, AllocError>
    ensures { IfOk result (λ note. string_bytes note
        ≡ spec.datetime_note (value_view value.entry)) }
{
    let Value::Atom(Atom::Text(text)) = value else {
        return String::from_str(alloc, "invalid type for datetime");
    };
    let seconds = epoch_of_datetime(alloc, text)?;
    word_or(alloc, "epoch", "error parsing datetime", seconds)
}

/// The note on seconds since 1970: their date and time.
pub(super) fn epoch_datetime_note(alloc: Global, value: Value<'_>) -> Result<String, AllocError>
    ensures { IfOk result (λ note. string_bytes note
        ≡ spec.epoch_datetime_note (value_view value.entry)) }
{
    match value {
        Value::Atom(Atom::Integer(value)) => moment_note(alloc, i128::from(value)),
        Value::Atom(Atom::Negative(value)) => moment_note(alloc, -1 - i128::from(value)),
        Value::Atom(Atom::Float) => {
            String::from_str(alloc, "epoch datetime of a float is not computed")
        }
        _ => String::from_str(alloc, "invalid type for epoch datetime"),
    }
}

/// The note on days since 1970-01-01: their date.
pub(super) fn epoch_date_note(alloc: Global, value: Value<'_>) -> Result<String, AllocError>
    ensures { IfOk result (λ note. string_bytes note
        ≡ spec.epoch_date_note (value_view value.entry)) }
{
    match value {
        Value::Atom(Atom::Integer(value)) => day_note(alloc, i128::from(value)),
        Value::Atom(Atom::Negative(value)) => day_note(alloc, -1 - i128::from(value)),
        _ => String::from_str(alloc, "invalid type for epoch date"),
    }
}

/// The note on a date as text: the number of days from 1970-01-01 to it.
pub(super) fn date_note(alloc: Global, value: Value<'_>) -> Result<String, AllocError>
    ensures { IfOk result (λ note. string_bytes note ≡ spec.date_note (value_view value.entry)) }
{
    let Value::Atom(Atom::Text(text)) = value else {
        return String::from_str(alloc, "invalid type for date");
    };
    let days = epoch_of_date(alloc, text)?;
    word_or(alloc, "epoch", "error parsing date", days)
}

/// The note on any number of seconds since 1970.
fn moment_note(alloc: Global, seconds: i128) -> Result<String, AllocError>
    ensures { IfOk result (λ note. string_bytes note
        ≡ spec.word_or (codes "datetime") (codes "offset is too large")
        (dates.datetime_of_epoch seconds)) }
{
    let text = moment_text(alloc, seconds)?;
    word_or(alloc, "datetime", "offset is too large", text)
}

/// The date and time of seconds since 1970, if the calendar has them.
fn moment_text(alloc: Global, seconds: i128) -> Result<Option<String>, AllocError>
    ensures { IfOk result (λ found. option_map string_bytes found ≡ dates.datetime_of_epoch
        seconds) }
{
    match i64::try_from(seconds) {
        Ok(seconds) => datetime_of_epoch(alloc, seconds),
        Err(_) => Ok(None),
    }
}

/// The note on any number of days since 1970-01-01.
fn day_note(alloc: Global, days: i128) -> Result<String, AllocError>
    ensures { IfOk result (λ note. string_bytes note
        ≡ spec.word_or (codes "date") (codes "date offset is too large for this tool")
        (dates.date_of_epoch days)) }
{
    let text = day_text(alloc, days)?;
    word_or(
        alloc,
        "date",
        "date offset is too large for this tool",
        text,
    )
}

/// The date of days since 1970-01-01, if the calendar has it.
fn day_text(alloc: Global, days: i128) -> Result<Option<String>, AllocError>
    ensures { IfOk result (λ found. option_map string_bytes found ≡ dates.date_of_epoch days) }
{
    match i64::try_from(days) {
        Ok(days) => date_of_epoch(alloc, days),
        Err(_) => Ok(None),
    }
}

/// A text between brackets after a word, or other words where there is no such text.
fn word_or(
    alloc: Global,
    word: &str,
    otherwise: &str,
    text: Option<String>,
) -> Result<String, AllocError>
    ensures { IfOk result (λ note. string_bytes note
        ≡ spec.word_or word.now otherwise.now (option_map string_bytes text)) }
{
    match text {
        Some(text) => in_brackets(alloc, word, &text),
        None => String::from_str(alloc, otherwise),
    }
}
