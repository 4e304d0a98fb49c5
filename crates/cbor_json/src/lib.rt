//! Writes CBOR as JSON (RFC 8949 section 6.1), straight from bytes, with names as keys if the
//! caller has names. Also converts the bytes of big numbers to decimal digits ([`decimal`]).
//! docs/JSON.md has the rules.
#![tactic(auto)]

mod digits;
mod error;
mod judge;
mod loss;
mod named;
mod names;
mod print;
mod style;
mod walk;
mod write;

pub use digits::decimal;
pub use error::{Clash, JsonError, Loss, LossKind};
pub use named::{NamedJson, bytes_to_json_named};
pub use style::JsonStyle;
pub use write::{bytes_to_json, push_bytes_to_json, push_bytes_to_json_partial};
