//! Finds where in a text a byte is that the text stands for.

use crate::base64_text::is_blank;
use crate::decode::Input;
use crate::loose::place_of_digit;
use crate::text::{mark_len, unmarked};
use cbor_edn_reader::place_of_byte;
use std::alloc::{AllocError, Global};

/// How many bits a digit of base 64 has.
const BITS: usize = 6;

/// The place of the first of the two digits of base 64 that have this byte, or the text's length.
fn place_of_sextet(text: &[u8], byte: usize) -> usize {
    let mut before = byte.saturating_mul(8) / BITS;
    let mut first = None;
    for (at, letter) in text.iter().enumerate().skip(mark_len(text)) {
        if is_blank(*letter) || *letter == b'=' {
            continue;
        }
        if let Some(place) = first {
            return place;
        }
        if before == 0 {
            first = Some(at);
        }
        before = before.saturating_sub(1);
    }
    text.len()
}

impl Input {
    /// Where in a text of this form the byte of this number is, of those that the text stands for:
    /// the place of its first digit, or in EDN of the innermost item that has it; the text's length
    /// if there is no such byte.
    ///
    /// ```rust
    /// use cbor_inputs::Input;
    ///
    /// assert_eq!(rt; Input::Diag.place_of(alloc, b"{1: [2, 30]}", 4)?, 8);
    /// ```
    pub fn place_of(self, alloc: Global, text: &[u8], byte: usize) -> Result<usize, AllocError> {
        match self {
            Input::Bytes => Ok(byte.min(text.len())),
            Input::Hex => Ok(place_of_digit(text, byte.saturating_mul(2))),
            Input::Base64 => Ok(place_of_sextet(text, byte)),
            Input::Diag => match str::from_utf8(unmarked(text)) {
                Ok(notation) => {
                    let place = place_of_byte(alloc, notation, byte)?;
                    Ok(mark_len(text).saturating_add(place))
                }
                Err(_) => Ok(text.len()),
            },
        }
    }
}
