//! Turns what a call returns into the text that a test row compares: bytes into hex, and errors
//! into `refused:` and what is wrong.

use cbor_diag::Error;
use std::alloc::{AllocError, Global};

/// Bytes in hex digits.
pub fn hex_text(alloc: Global, bytes: &[u8]) -> Result<String, AllocError> {
    hex::encode(alloc, bytes)
}

/// A text that has to end with a line feed, without it.
pub fn lines_text(alloc: Global, text: &str) -> Result<String, AllocError> {
    match text.strip_suffix("\n") {
        Some(lines) => String::from_str(alloc, lines),
        None => format!(in alloc; "{text} (without a line feed at its end)"),
    }
}

/// The text that bytes are.
pub fn text_of(bytes: &[u8]) -> &str {
    match std::str::from_utf8(bytes) {
        Ok(text) => text,
        Err(_) => "not UTF-8",
    }
}

/// An error, in the words of its text.
pub fn refused_text(alloc: Global, error: Error) -> Result<String, AllocError> {
    format!(in alloc; "refused: {}", error.text())
}
