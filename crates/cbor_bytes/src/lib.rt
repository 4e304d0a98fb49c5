//! Reads and writes the heads of CBOR items (RFC 7049 section 2), reads strings, and finds where
//! items end without building them.
//!
//! [`extent`] reports whether bytes begin with an item, are truncated or have an error. [`Scanner`]
//! does so for bytes that arrive in pieces. `hex_text` decodes hex with comments, and `quoted`
//! writes a byte string in notation. [`utf8_fault`] finds where bytes stop being UTF-8. `strict`
//! finds simple values in a non-minimal encoding.
#![tactic(auto)]

pub mod borrowed;
pub mod head;
pub mod hex_text;
pub mod quoted;
pub mod skip;
pub mod strict;
pub mod strings;
pub mod turns;
pub mod utf8;
pub mod write;

pub use hex_text::{hex_bytes, hex_fault, hex_place};
pub use skip::{Extent, Scanner, extent};
pub use turns::Turns;
pub use utf8::utf8_fault;
