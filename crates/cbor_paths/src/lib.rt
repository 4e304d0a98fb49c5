//! Skips items one after the other, and finds parts of an item by a path.
//!
//! [`skip_items`] skips items, and its [`End`] says why it stopped. [`follow`] finds the parts of
//! an item that the steps of a path lead to, and [`lost_at`] finds where a path leads nowhere.
//! [`Members`] goes over the members of an array or a map, and [`is_key`] compares keys.
//!
//! ```rust
//! use cbor_paths::{End, skip_items};
//!
//! let shown = skip_items(b"\x01\x82\x02", false);
//! assert_eq!(rt; shown.used, 1);
//! assert_eq!(rt; shown.end, End::Cut);
//! ```
#![tactic(auto)]

mod end;
mod followed;
mod key;
mod members;
mod part;
mod picture;
mod skip;
mod step;

pub use end::{End, Shown};
pub use followed::{Found, Lost, follow, follow_from, lost_at, lost_from};
pub use key::is_key;
pub use members::{At, Members};
pub use picture::Picture;
pub use skip::{bytes_from, skip_items};
pub use step::Step;
