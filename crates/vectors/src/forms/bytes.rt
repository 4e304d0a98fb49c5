//! Runs the test rows about bytes, and returns each result as text. Other modules use its functions
//! for the text of an item, of bytes and of errors. The calls:
//!
//! - `parse_bytes` gives the fields of an item, or the name of the error. `parse_bytes_partial`
//!   first gives how many bytes the item takes, or `truncated`.
//! - `parse_bytes_counted` gives the turns and the number of bytes, without the fields.
//! - `bytes_to_bytes` gives the encoding.
//! - `extent` says whether bytes begin with an item, are truncated, or have an error. `feed N`
//!   gives what a `Scanner` reports after the last of the pieces of N bytes.
//! - `error_text` gives the name and the text of the error of a number.

use crate::row::Row;
use crate::texts::hex_text;
use cbor_diag::{
    DataItem, Error, Extent, Scanner, Turns, bytes_to_bytes, extent, parse_bytes,
    parse_bytes_counted, parse_bytes_partial,
};
use std::alloc::{AllocError, Global};

/// What the call of a row gives; none if it is no call of this subject.
pub fn answer(alloc: Global, row: &Row) -> Result<Option<String>, AllocError> {
    let bytes = row.bytes.as_slice();
    let found = match row.call {
        "parse_bytes" => item_text(alloc, parse_bytes(alloc, bytes)),
        "parse_bytes_partial" => front_text(alloc, parse_bytes_partial(alloc, bytes)),
        "parse_bytes_counted" => counted_text(alloc, bytes),
        "bytes_to_bytes" => {
            let bytes = Vec::from_slice(alloc, bytes)?;
            bytes_text(alloc, bytes_to_bytes(alloc, bytes))
        }
        "extent" => extent_text(alloc, extent(bytes)),
        "feed" => fed_text(alloc, bytes, row.argument),
        "error_text" => error_of_number(alloc, row.text()),
        _ => return Ok(None),
    };
    Ok(Some(found?))
}

/// A text that a call gives, or the name of the error.
pub fn shown_text(alloc: Global, shown: cbor_diag::Result<String>) -> Result<String, AllocError> {
    match shown {
        Ok(text) => Ok(text),
        Err(error) => format!(in alloc; "{error:?}"),
    }
}

/// Bytes that a call gives, in hex digits, or the name of the error.
pub fn bytes_text(alloc: Global, bytes: cbor_diag::Result<Vec<u8>>) -> Result<String, AllocError> {
    match bytes {
        Ok(bytes) => hex_text(alloc, &bytes),
        Err(error) => format!(in alloc; "{error:?}"),
    }
}

/// The fields of an item, or the name of the error.
pub fn item_text(alloc: Global, item: cbor_diag::Result<DataItem>) -> Result<String, AllocError> {
    match item {
        Ok(item) => format!(in alloc; "{item:?}"),
        Err(error) => format!(in alloc; "{error:?}"),
    }
}

/// The name of an error and its place, or `none`.
pub fn fault_text(alloc: Global, fault: Option<(Error, usize)>) -> Result<String, AllocError> {
    match fault {
        Some((error, place)) => format!(in alloc; "{error:?} {place}"),
        None => String::from_str(alloc, "none"),
    }
}

/// A place, or `none`.
pub fn place_text(alloc: Global, place: Option<usize>) -> Result<String, AllocError> {
    match place {
        Some(place) => format!(in alloc; "{place}"),
        None => String::from_str(alloc, "none"),
    }
}

/// How many bytes the item at the front takes, and its fields; `truncated`; or the error.
fn front_text(
    alloc: Global,
    front: cbor_diag::Result<Option<(DataItem, usize)>>,
) -> Result<String, AllocError> {
    match front {
        Ok(Some((item, used))) => format!(in alloc; "{used}: {item:?}"),
        Ok(None) => String::from_str(alloc, "truncated"),
        Err(error) => format!(in alloc; "{error:?}"),
    }
}

/// The number of turns, and how many bytes the item at the front takes, `truncated`, or the error.
fn counted_text(alloc: Global, bytes: &[u8]) -> Result<String, AllocError> {
    let mut turns = Turns::new();
    let front = parse_bytes_counted(alloc, bytes, &mut turns);
    let turns = turns.count();
    match front {
        Ok(Some((_, used))) => format!(in alloc; "{turns} turns, {used} bytes"),
        Ok(None) => format!(in alloc; "{turns} turns, truncated"),
        Err(error) => format!(in alloc; "{turns} turns, {error:?}"),
    }
}

/// How bytes begin: with an item of this many bytes, with a part of one, or with an error after
/// this many bytes.
fn extent_text(alloc: Global, extent: Extent) -> Result<String, AllocError> {
    match extent {
        Extent::Item(len) => format!(in alloc; "item {len}"),
        Extent::Cut => String::from_str(alloc, "truncated"),
        Extent::Fault { error, end } => format!(in alloc; "malformed {error:?} {end}"),
    }
}

/// What a scanner returns for the last of the pieces of this many bytes.
fn fed_text(alloc: Global, bytes: &[u8], count: &str) -> Result<String, AllocError> {
    let mut scanner = Scanner::new();
    let mut answer = Extent::Cut;
    for piece in bytes.chunks(count.parse::<usize>().unwrap_or(1).max(1)) {
        answer = scanner.feed(piece);
    }
    extent_text(alloc, answer)
}

const ERRORS: [Error; 10] = [
    Error::Memory,
    Error::CutShort,
    Error::Head,
    Error::Utf8,
    Error::TooDeep,
    Error::Remaining,
    Error::OddHex,
    Error::BadHex,
    Error::Notation,
    Error::PastWidth,
];

/// The name and the text of the error of a number; `Display` writes the same text.
fn error_of_number(alloc: Global, number: &str) -> Result<String, AllocError> {
    for error in ERRORS {
        let text = format!(in alloc; "{} {error:?}: {error}", error.number())?;
        match text.as_str().split_once(" ") {
            Some((its, rest)) if its == number && rest.ends_with(error.text()) => {
                return String::from_str(alloc, rest);
            }
            _ => (),
        }
    }
    String::from_str(alloc, "none")
}
