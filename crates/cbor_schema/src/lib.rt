//! Matches CBOR items against CDDL: says whether an item fits a schema, and if it does not, where
//! and why.
//!
//! ```rust
//! use cbor_cddl::Schema;
//! use cbor_places::Piece;
//! use cbor_schema::Checker;
//!
//! let schema = Schema::load(alloc, "event = { at: uint, ? kind: \"open\" / \"close\" }", None)?;
//! let checker = Checker::new(alloc, schema)?;
//! // {"at": 1, "kind": 2}
//! let item = Piece {
//!     begins: 0,
//!     bytes: b"\xa2\x62at\x01\x64kind\x02",
//! };
//! let misfit = checker.misfit(alloc, item)?;
//! let Some(misfit) = misfit else { return Ok(()) };
//! assert_eq!(rt; misfit.place, 10);
//! assert_eq!(rt; misfit.path.as_str(), "kind");
//! assert_eq!(rt; misfit.expected.as_str(), "\"open\" / \"close\"");
//! assert_eq!(rt; misfit.found.as_str(), "2");
//! ```
#![tactic(auto)]

mod checker;
mod message;
mod misfit;
mod paths;
mod text;

pub use checker::Checker;
pub use message::{MessageParts, Misfit, Others};
