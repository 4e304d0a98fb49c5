//! Reads and writes CBOR data items (RFC 7049, which RFC 8949 replaced).
//!
//! An item is read from bytes, from hex with comments, or from diagnostic notation. It is written
//! as bytes, as a dump (hex with comments), or in diagnostic notation. An item keeps how it was
//! encoded: the width of each number and length, and whether a length is indefinite.
//!
//! ```rust
//! use cbor_diag::{Error, parse_hex};
//! use std::alloc::Global;
//!
//! /// The item of a dump in diagnostic notation.
//! fn notation(alloc: Global, dump: &str) -> Result<String, Error> {
//!     let item = parse_hex(alloc, dump)?;
//!     item.to_diag(alloc)
//! }
//! ```
//!
//! A call that allocates takes an allocator or the output that it appends to, and returns
//! `Error::Memory` if an allocation fails. Every other result depends on the input alone. In the
//! examples of this crate, `rt` is the `HostRuntime` of a test, and `alloc` is `rt.alloc()`.
#![tactic(auto)]

mod conversion;
mod encode;
mod parse;
mod rewrite;
mod syntax;

pub use cbor_bytes::{Extent, Scanner, Turns, extent, hex_bytes, hex_fault, hex_place, utf8_fault};
pub use cbor_dump::{bytes_to_hex, hex_to_hex, push_bytes_to_hex, push_bytes_to_hex_partial};
pub use cbor_grammar::{
    ByteString, Error, FloatWidth, IntegerWidth, Result, Simple, Tag, TextString,
};
pub use cbor_notation_writer::{
    bytes_to_diag, bytes_to_diag_pretty, hex_to_diag, hex_to_diag_pretty, push_bytes_to_diag,
    push_bytes_to_diag_partial, push_bytes_to_diag_pretty, push_bytes_to_diag_pretty_partial,
};
pub use conversion::{Source, To, convert, push_front, read_item, write_item};
pub use parse::{
    diag_fault, parse_bytes, parse_bytes_counted, parse_bytes_partial, parse_diag, parse_hex,
};
pub use rewrite::{bytes_to_bytes, hex_to_bytes, push_bytes_to_bytes_partial};
pub use syntax::DataItem;
