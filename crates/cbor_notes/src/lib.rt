//! Writes the texts of comments on CBOR data: numbers in groups, escaped bytes and texts, base 58,
//! addresses, UUIDs, dates, decoded base 64, the elements of typed arrays and the names of tags. It
//! tests whether a text is a URL, reads big endian numbers, and lays out the lines of dumps in
//! columns. A [`Note`] is a text of a caller beside an item. The crate re-exports calls of
//! `cbor_tokens`: base 32, base 64, hex digits, and the tokens of diagnostic notation.
//!
//! ```rust
//! use cbor_notes::grouped;
//!
//! let count = grouped(alloc, 1_000_000, false)?;
//! assert_eq!(rt; count.as_str(), "1,000,000");
//! ```
//!
//! A call that allocates takes an allocator or the text that it appends to, and returns
//! `AllocError` if an allocation fails. Every other result depends on its arguments alone. In the
//! examples of this crate, `rt` is the `HostRuntime` of a test, and `alloc` is `rt.alloc()`.
#![tactic(auto)]

mod address;
mod ascii_buffer;
mod base58_text;
mod date;
mod datetime;
mod decoded;
mod element;
mod examples;
mod identifier;
mod laws;
mod line;
mod note;
mod tags;
mod text;
mod url_text;

pub use address::{ipv4_text, ipv6_text, mac_text};
pub use base58_text::base58;
pub use cbor_tokens::{
    base32_decode, base32hex_decode, base64_any_decode, blank_end, blank_len, decode_hex,
    digits_at, digits_front, number_at, number_front, push_hex, quoted_at, quoted_front,
};
pub use date::{date_of_epoch, epoch_of_date};
pub use datetime::{datetime_of_epoch, epoch_of_datetime};
pub use decoded::base64_lines;
pub use element::{big_endian_number, element_size, element_text, push_element_text};
pub use identifier::uuid_lines;
pub use line::{Line, merge, push_blanks, push_gap, put_line};
pub use note::Note;
pub use tags::tag_name;
pub use text::{
    escaped_text, grouped, push_escaped_text, push_grouped, push_quoted_bytes, push_spaced_hex,
    quoted_bytes,
};
pub use url_text::url_verdict;
