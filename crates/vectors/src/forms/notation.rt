//! Runs the test rows about diagnostic notation, and returns each result as text. The calls:
//!
//! - `bytes_to_diag`, `hex_to_diag`, `diag_to_diag` and their like for pretty text give the text of
//!   an item, or the name of the error.
//! - `diag_to_bytes` gives the bytes of an item, and `parse_diag` its fields, or the name of the
//!   error.
//! - `diag_fault` gives an error and its place.
//! - `push_bytes_to_diag` and its like append to `before:`, and a line says what they return.

use crate::forms::bytes::{bytes_text, fault_text, item_text, shown_text};
use crate::row::Row;
use cbor_diag::{
    bytes_to_diag, bytes_to_diag_pretty, diag_fault, hex_to_diag, hex_to_diag_pretty, parse_diag,
    push_bytes_to_diag, push_bytes_to_diag_partial, push_bytes_to_diag_pretty,
    push_bytes_to_diag_pretty_partial,
};
use std::alloc::{AllocError, Global};

/// What the call of a row gives; none if it is no call of this subject.
pub fn answer(alloc: Global, row: &Row) -> Result<Option<String>, AllocError> {
    let (bytes, text) = (row.bytes.as_slice(), row.text());
    let found = match row.call {
        "bytes_to_diag" => shown_text(alloc, bytes_to_diag(alloc, bytes)),
        "bytes_to_diag_pretty" => shown_text(alloc, bytes_to_diag_pretty(alloc, bytes)),
        "hex_to_diag" => shown_text(alloc, hex_to_diag(alloc, text)),
        "hex_to_diag_pretty" => shown_text(alloc, hex_to_diag_pretty(alloc, text)),
        "diag_to_diag" => shown_text(alloc, diag_to_diag(alloc, text)),
        "diag_to_diag_pretty" => shown_text(alloc, diag_to_diag_pretty(alloc, text)),
        "diag_to_bytes" => bytes_text(alloc, diag_to_bytes(alloc, text)),
        "parse_diag" => item_text(alloc, parse_diag(alloc, text)),
        "diag_fault" => place_of_fault(alloc, text),
        "push_bytes_to_diag"
        | "push_bytes_to_diag_pretty"
        | "push_bytes_to_diag_partial"
        | "push_bytes_to_diag_pretty_partial" => appended(alloc, row.call, bytes),
        _ => return Ok(None),
    };
    Ok(Some(found?))
}

fn diag_to_diag(alloc: Global, text: &str) -> cbor_diag::Result<String> {
    let item = parse_diag(alloc, text)?;
    item.to_diag(alloc)
}

fn diag_to_diag_pretty(alloc: Global, text: &str) -> cbor_diag::Result<String> {
    let item = parse_diag(alloc, text)?;
    item.to_diag_pretty(alloc)
}

fn diag_to_bytes(alloc: Global, text: &str) -> cbor_diag::Result<Vec<u8>> {
    let item = parse_diag(alloc, text)?;
    item.to_bytes(alloc)
}

/// The error of a text, and its place.
fn place_of_fault(alloc: Global, text: &str) -> Result<String, AllocError> {
    match diag_fault(alloc, text) {
        Ok(fault) => fault_text(alloc, fault),
        Err(error) => format!(in alloc; "{error:?}"),
    }
}

/// What is appended to `before:`, and a line with what the call returned.
fn appended(alloc: Global, call: &str, bytes: &[u8]) -> Result<String, AllocError> {
    let mut out = String::from_str(alloc, "before:")?;
    let used = match call {
        "push_bytes_to_diag" => match push_bytes_to_diag(alloc, bytes, &mut out) {
            Ok(()) => Ok(Some(bytes.len())),
            Err(error) => Err(error),
        },
        "push_bytes_to_diag_pretty" => match push_bytes_to_diag_pretty(alloc, bytes, &mut out) {
            Ok(()) => Ok(Some(bytes.len())),
            Err(error) => Err(error),
        },
        "push_bytes_to_diag_partial" => push_bytes_to_diag_partial(alloc, bytes, &mut out),
        _ => push_bytes_to_diag_pretty_partial(alloc, bytes, &mut out),
    };
    match used {
        Ok(Some(used)) => format!(in alloc; "{out}\n{used} bytes"),
        Ok(None) => format!(in alloc; "{out}\ntruncated"),
        Err(error) => format!(in alloc; "{out}\n{error:?}"),
    }
}
