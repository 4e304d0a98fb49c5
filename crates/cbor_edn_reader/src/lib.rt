//! Reads EDN, the extended diagnostic notation of CBOR that people write (RFC 8949 section 8, RFC
//! 8610 appendix G), straight to bytes. docs/EDN.md has the rules.
//!
//! Items are appended to one vector. For a head with a count, one byte is left free; the head
//! replaces it once the count is known.
#![tactic(auto, using(cbor_tokens::proofs::texts::Appending::appending_steps))]

pub mod big;
mod content;
pub mod date;
mod heads;
pub mod network;
mod read;
mod scalars;
pub mod strings;

pub use read::{edn_item_to_bytes, edn_to_bytes, place_of_byte};
