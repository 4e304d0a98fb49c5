//! Reads the tokens of diagnostic notation, decodes base 32 and base 64, reads and writes hex
//! digits, and escapes quotes and hidden characters. It knows no CBOR items. `cbor_notes`
//! re-exports all calls except those for escapes.
//!
//! A call that allocates takes an allocator or the text that it appends to, and returns
//! `AllocError` if an allocation fails. Every other result depends on its arguments alone. In the
//! examples of this crate, `rt` is the `HostRuntime` of a test, and `alloc` is `rt.alloc()`.
#![tactic(auto)]

mod base32;
pub mod base64_text;
mod escapes;
mod examples;
mod hex_digits;
mod laws;
mod token;

pub use base32::{base32_decode, base32hex_decode};
pub use base64_text::base64_any_decode;
pub use escapes::{is_shown, push_escaped, push_shown};
pub use hex_digits::{decode_hex, push_hex};
pub use token::{
    blank_end, blank_len, digits_at, digits_front, number_at, number_front, quoted_at, quoted_front,
};
