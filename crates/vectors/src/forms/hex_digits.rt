//! Runs the test rows about hex with comments, and returns each result as text. The calls:
//!
//! - `parse_hex` gives the fields of an item, `hex_to_bytes` its encoding, and `hex_bytes` the
//!   bytes that the digits stand for, or the name of the error.
//! - `hex_fault` gives an error and its place.
//! - `hex_place N` gives the place of the digits of byte N.
//! - `utf8_fault` gives the place where bytes stop being UTF-8.

use crate::forms::bytes::{bytes_text, fault_text, item_text, place_text};
use crate::row::Row;
use cbor_diag::{hex_bytes, hex_fault, hex_place, hex_to_bytes, parse_hex, utf8_fault};
use std::alloc::{AllocError, Global};

/// What the call of a row gives; none if it is no call of this subject.
pub fn answer(alloc: Global, row: &Row) -> Result<Option<String>, AllocError> {
    let (bytes, text) = (row.bytes.as_slice(), row.text());
    let found = match row.call {
        "parse_hex" => item_text(alloc, parse_hex(alloc, text)),
        "hex_to_bytes" => bytes_text(alloc, hex_to_bytes(alloc, text)),
        "hex_bytes" => bytes_text(alloc, hex_bytes(alloc, text)),
        "hex_fault" => fault_text(alloc, hex_fault(text)),
        "hex_place" => place_of_byte(alloc, text, row.argument),
        "utf8_fault" => place_text(alloc, utf8_fault(bytes)),
        _ => return Ok(None),
    };
    Ok(Some(found?))
}

/// Where the digits of a byte stand in hex.
fn place_of_byte(alloc: Global, text: &str, number: &str) -> Result<String, AllocError> {
    match number.parse::<usize>() {
        Ok(number) => place_text(alloc, hex_place(text, number)),
        Err(_) => String::from_str(alloc, "no number"),
    }
}
