//! Reads a `DataItem`: from bytes, from hex with comments, and from diagnostic notation.
mod binary;
mod hex_text;
mod notation;

pub use binary::{parse_bytes, parse_bytes_counted, parse_bytes_partial};
pub use hex_text::parse_hex;
pub use notation::{diag_fault, parse_diag};
