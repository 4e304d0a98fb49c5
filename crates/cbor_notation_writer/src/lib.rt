//! Writes CBOR bytes as diagnostic notation (RFC 7049 section 6), in any dialect, without building
//! an item. The proofs show that a text in the dialect of `cbor_view` reads back as the normal form
//! of the item, which is what a text keeps of an item.
#![tactic(auto)]

pub mod ahead;
pub mod budget;
mod chunks;
pub mod context;
pub mod convert;
pub mod diag;
pub mod dialect;
pub mod from_bytes;
pub mod members;
pub mod outermost;
pub mod parts;
pub mod scalars;

pub use convert::{
    bytes_to_diag, bytes_to_diag_pretty, hex_to_diag, hex_to_diag_pretty, push_bytes_to_diag,
    push_bytes_to_diag_partial, push_bytes_to_diag_pretty, push_bytes_to_diag_pretty_partial,
};
