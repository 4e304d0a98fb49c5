//! Takes the tokens of diagnostic notation (RFC 7049 section 6) from a text. Its proofs show that
//! reading notation agrees with the definition in `cbor_grammar`.
#![tactic(auto)]

pub mod content;
pub mod cursor;
mod examples;
mod laws;
pub mod number;
pub mod scan;
pub mod start;
