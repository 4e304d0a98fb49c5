//! Compares two items and lists what differs: members of arrays are aligned by their longest common
//! part, and values of maps are compared by key, in any order. [`pairs`] aligns the items of two
//! sequences.
//!
//! ```rust
//! use cbor_diff::{Change, Comparison, differences};
//!
//! // {"a": 1, "b": 2} and {"b": 3, "a": 1_0}
//! let (old, new) = (b"\xa2\x61a\x01\x61b\x02", b"\xa2\x61b\x03\x61a\x18\x01");
//! let found = differences(alloc, old, new, Comparison::BY_VALUE)?;
//! assert_eq!(rt; found.len(), 1);
//! assert_eq!(rt; found[0].change, Change::Changed);
//! assert_eq!(rt; found[0].path.as_str(), "b");
//! ```
#![tactic(auto)]

mod align;
mod common;
mod compare;
mod keys;
mod level;
mod member;
mod same;

pub use compare::{Change, Comparison, Difference, differences, pairs};
pub use level::Side;
pub use member::{Match, Member};
