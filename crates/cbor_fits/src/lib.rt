//! Says whether CBOR items fit CDDL (RFC 8610), by the definition in `specs/Fits.antt`.
//!
//! The functions of `types.rt`, `groups.rt` and `controls.rt` call each other, up to once for each
//! level of a schema. They, and what they call, are not inlined, so that each call takes little
//! stack.
#![tactic(auto)]

mod controls;
mod groups;
mod laws;
mod leaf;
mod read;
mod rest;
mod same;
mod slot;
mod split;
mod tables;
mod types;
mod value;
mod verdict;
mod work;

pub use tables::Tables;
pub use verdict::DEEPEST;
