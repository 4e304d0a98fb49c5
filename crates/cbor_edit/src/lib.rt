//! Edits items: replaces, drops and adds parts.
//!
//! [`edited`] changes what the steps of a path lead to. All other bytes stay. A count, or the
//! length of a byte string around a change, keeps its width if the new number fits, and otherwise
//! takes the shortest width. Indefinite lengths stay. [`maps_without`] finds the maps that get a key.
//! [`replaced`], [`with_more`] and [`without`] make one change at a known place.
//!
//! ```rust
//! use cbor_edit::{Edit, edited};
//! use cbor_paths::{Picture, Step};
//!
//! // [1, 2] becomes [1, "a"], and its head keeps its two bytes.
//! let mut steps = Vec::new(alloc);
//! steps.push(Step::Key(Vec::from_slice(alloc, b"\x01")?))?;
//! let edit = Edit {
//!     steps: &steps,
//!     part: Some(b"\x61a"),
//!     keys: &[],
//! };
//! let found = edited(alloc, b"\x98\x02\x01\x02", edit, Picture::plain());
//! let bytes = found.unwrap_or(Vec::new(alloc));
//! assert_eq!(rt; bytes.as_slice(), b"\x98\x02\x01\x61a".as_slice());
//! ```
#![tactic(auto)]

mod container;
mod edit;
mod place;
mod replace;
mod target;
mod width;

pub use container::{with_more, without};
pub use edit::{Edit, EditError, NewKey, edited, maps_without};
pub use place::{Change, EnclosedSpan};
pub use replace::replaced;
