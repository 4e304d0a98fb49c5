//! Defines what CBOR items are (RFC 7049), and which bytes and texts encode them. The contracts of
//! the other crates cite these definitions.
//!
//! `specs/` has the definitions, and `proofs/` the lemmas and laws that follow from them alone.
//! `src/` has the types that the definitions name: heads, widths, tags, strings, layouts and
//! errors. The calls that read and write items are in `cbor_diag`.
#![tactic(auto)]

pub mod argument;
pub mod encoding;
pub mod error;
mod examples;
pub mod head;
mod laws;
pub mod layout;
pub mod level;
pub mod major;
pub mod strings;
pub mod tags;
pub mod width;

pub use error::{Error, Result};
pub use strings::{ByteString, TextString};
pub use tags::{Simple, Tag};
pub use width::{FloatWidth, IntegerWidth};
