//! Writes EDN, the extended diagnostic notation of CBOR that people write (RFC 8949 section 8, RFC
//! 8610 appendix G), straight from bytes. docs/EDN.md has the rules.
//!
//! What is written is read back as the same bytes, unless a simple value is in a non-minimal
//! encoding (`f8 00` to `f8 1f`).
#![tactic(auto)]

mod laws;
mod part;
mod print;
mod style;
mod write;

pub use part::{PartPlace, push_note_before, push_part_to_edn};
pub use style::{EdnStyle, NotedStyle};
pub use write::{
    bytes_to_edn, bytes_to_edn_pretty, push_bytes_to_edn, push_bytes_to_edn_noted,
    push_bytes_to_edn_noted_partial, push_bytes_to_edn_partial,
};
