//! Finds where something is in CBOR data and says it in words: the path, the open containers, and
//! how much of a truncated or malformed item is there.
//!
//! [`Around`] has the path to a byte and its containers, and says what a truncated item lacks.
//! [`lines_at`] describes the item that contains a byte, and [`Leaves`] goes through the items that
//! hold no other, also in byte strings that are open. [`fault_of`] says why bytes are not an
//! item, and [`partial_edn`] shows a truncated or malformed item.
//!
//! ```rust
//! use cbor_places::{Around, ByteNumbers, Piece};
//!
//! // {"a": [1, 2, ..: the array is truncated; its head says that it has 4 items.
//! let piece = Piece {
//!     begins: 0,
//!     bytes: b"\xa1\x61a\x84\x01\x02",
//! };
//! let around = Around::of_end(alloc, piece)?;
//! assert_eq!(rt; around.path.as_str(), "a/2");
//! let said = around.cut_words(&ByteNumbers)?;
//! let wanted = "the array at a (byte 3) has 4 items, 2 are there";
//! assert_eq!(rt; said.as_str(), wanted);
//! ```
#![tactic(auto)]

mod around;
mod at;
mod cut;
mod fault;
mod leaves;
mod misplaced;
mod nouns;
mod partial;
mod path;
mod piece;

pub use around::{Around, item_with};
pub use at::lines_at;
pub use fault::{Fault, fault_of};
pub use leaves::Leaves;
pub use partial::{PartialText, partial_edn};
pub use path::Path;
pub use piece::{ByteNumbers, Piece, Places};
