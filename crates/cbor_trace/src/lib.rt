//! Finds which containers are open at a byte of an item, and where an item is truncated or
//! malformed.
//!
//! [`part_at`] finds the child of a container that contains the byte, and [`innermost`] finds the
//! innermost item that contains it. [`head_at`] reads the head of an item, and [`end_at`] finds
//! where the item ends. [`place_of_fault`] finds the wrong byte in malformed bytes. None of them
//! allocates memory.
//!
//! The containers around a byte, the outermost first:
//!
//! ```rust
//! use cbor_trace::{Open, Spot, part_at};
//!
//! // [1, {"a": 2}], and the byte of the 2.
//! let bytes = b"\x82\x01\xa1\x61\x61\x02";
//! let mut spot = Spot::outermost();
//! for _ in 0..128 {
//!     let Some(part) = part_at(bytes, spot, 5) else {
//!         break;
//!     };
//!     match part.open {
//!         Open::Array { index, .. } => assert_eq!(rt; (spot.start, index), (0, 1)),
//!         Open::Value { index, key, .. } => assert_eq!(rt; (spot.start, index, key), (2, 0, 3)),
//!         _ => assert!(rt; false),
//!     }
//!     spot = spot.of_part(part);
//! }
//! assert_eq!(rt; (spot.start, spot.level), (5, 3));
//! ```
#![tactic(auto)]

pub mod heads;
mod item;
mod laws;
mod open;
mod part;
mod span;
mod walk;

pub use heads::place_of_fault;
pub use item::{end_at, head_at};
pub use open::Open;
pub use part::{Part, Spot, part_at};
pub use span::Span;
pub use walk::innermost;
