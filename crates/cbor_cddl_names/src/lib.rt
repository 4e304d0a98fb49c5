//! Makes names from CDDL: [`with_schema`] adds the rules of a loaded schema to tables of
//! `cbor_names`, as types. [`KEPT`] has files of names. docs/NAMES.md says what has which name.
//!
//! ```rust
//! use cbor_cddl::Schema;
//! use cbor_cddl_names::with_schema;
//! use cbor_names::{Names, notes};
//!
//! let text = "token = #6.61({ ? iss => tstr })  iss = 1";
//! let schema = Schema::load(alloc, text, None)?;
//! let names = with_schema(alloc, Names::new(alloc), &schema)?;
//! // 61({1: "a"})
//! let found = notes(alloc, b"\xd8\x3d\xa1\x01\x61a", &names, None)?;
//! let around = found.names_at(alloc, 4)?;
//! assert_eq!(rt; around.as_slice(), ["token", "iss"].as_slice());
//! ```
#![tactic(auto)]

mod alternatives;
mod builder;
mod groups;
mod kept;
mod source;
mod types;

pub use builder::with_schema;
pub use kept::KEPT;
