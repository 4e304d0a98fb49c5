//! Counts the values in items by their paths. For each path it finds how many values there are, how
//! many bytes they take, their kinds, and the least and greatest number and length.
//!
//! ```rust
//! use cbor_inside::Inside;
//! use cbor_places::Piece;
//! use cbor_stats::Stats;
//!
//! // [1, 20, "a"]
//! let items = Piece { begins: 0, bytes: b"\x83\x01\x14\x61a" };
//! let mut stats = Stats::new(alloc);
//! stats.add(items, Inside::TAGGED)?;
//! let mut text = String::new(alloc);
//! stats.push_text(&mut text)?;
//! assert!(rt; text.as_str().contains("*  integer 1 to 20, text of 1 byte"));
//! ```
#![tactic(auto)]

mod entry;
mod stats;

pub use stats::Stats;
