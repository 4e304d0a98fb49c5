//! Runs the test rows about conversions from one form to another, and returns each result as text.
//!
//! `convert FROM TO` converts an item. FROM is `bytes`, `hex` or `diag`, and TO is `bytes`, `hex`,
//! `diag` or `pretty`. An output in bytes is shown in hex digits.

use crate::row::Row;
use crate::texts::{hex_text, lines_text, refused_text, text_of};
use cbor_diag::{Source, To, convert};
use std::alloc::{AllocError, Global};

/// What the call of a row gives; none if it is no call of this subject.
pub fn answer(alloc: Global, row: &Row) -> Result<Option<String>, AllocError> {
    if row.call != "convert" {
        return Ok(None);
    }
    let (from, to) = row.argument.split_once(" ").unwrap_or((row.argument, ""));
    let (source, input) = match from {
        "bytes" => (Source::Bytes, &row.bytes),
        "hex" => (Source::Hex, &row.input),
        _ => (Source::Diag, &row.input),
    };
    Ok(Some(converted(alloc, source, to, input)?))
}

/// The output in a form.
fn converted(alloc: Global, from: Source, to: &str, input: &[u8]) -> Result<String, AllocError> {
    let target = match to {
        "bytes" => To::Bytes,
        "hex" => To::Hex,
        "diag" => To::Diag,
        _ => To::Pretty,
    };
    let output = match convert(alloc, from, target, input) {
        Ok(output) => output,
        Err(error) => return refused_text(alloc, error),
    };
    match target {
        To::Bytes => hex_text(alloc, &output),
        _ => lines_text(alloc, text_of(&output)),
    }
}
