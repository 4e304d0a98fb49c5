//! Runs the test rows about the forms of an item, and returns each result as text: bytes, hex with
//! comments, diagnostic notation, dumps and EDN. Each module makes the calls of one subject.

pub mod bytes;
mod conversions;
mod dump;
pub mod edn;
mod hex_digits;
mod notation;
mod tags;

use crate::row::Row;
use std::alloc::{AllocError, Global};

/// What the call of a row gives; none if no subject here knows the call.
pub fn answer(alloc: Global, row: &Row) -> Result<Option<String>, AllocError> {
    first_answer!(alloc, row;
        bytes
        conversions
        dump
        edn
        hex_digits
        notation
        tags
    )
}
