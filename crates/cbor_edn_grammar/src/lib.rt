//! Defines EDN, the extended diagnostic notation of CBOR that people write (RFC 8949 section 8, RFC
//! 8610 appendix G). `specs` says which texts are EDN, and which items and bytes they denote. The
//! crate also has lemmas and types that the readers and the writer of EDN share, and the errors of
//! reading.
#![tactic(auto)]

pub mod close;
pub mod error;
pub mod literal;
pub mod message;
pub mod opening;
mod reason;
pub mod word;
