//! Reads EDN, the extended diagnostic notation of CBOR that people write (RFC 8949 section 8, RFC
//! 8610 appendix G), as a `DataItem`. Re-exports the calls that read EDN straight to bytes, and
//! those that write it. docs/EDN.md has the rules.
//!
//! Both readers keep each width that a text states.
#![tactic(auto)]

mod big;
mod date;
mod network;
mod read;
mod scalars;
mod strings;

pub use cbor_edn_grammar::close::Close;
pub use cbor_edn_grammar::error::{EdnError, Expected};
pub use cbor_edn_grammar::literal::Literal;
pub use cbor_edn_grammar::message::Message;
pub use cbor_edn_reader::{edn_item_to_bytes, edn_to_bytes};
pub use cbor_edn_writer::{
    EdnStyle, NotedStyle, bytes_to_edn, bytes_to_edn_pretty, push_bytes_to_edn,
    push_bytes_to_edn_noted, push_bytes_to_edn_noted_partial, push_bytes_to_edn_partial,
};
pub use cbor_notes::Note;
pub use read::parse_edn;
