//! Decides which byte string is shown as the items in it. Notation, JSON, dumps, pages, paths, edits
//! and differences all ask this crate, so they agree on what is inside of what.
//!
//! Below tag 24 a byte string is shown as its item, and below tag 63 as its sequence of items. Below a
//! tag that says what the bytes are, such as that of a UUID, it never is. Any other byte string is
//! opened if [`Inside`] says so, by an option or by the names, and if it holds an array, a map or a
//! tagged item. In all cases the content has to be well formed, and to be written back as the same
//! bytes.
//!
//! ```rust
//! use cbor_grammar::layout::Content;
//! use cbor_inside::{ByteString, Inside};
//!
//! let all = Inside { embedded: true, named: &[] };
//! let plain = ByteString { start: 0, level: 1, tag: None };
//! let uuid = ByteString { start: 0, level: 1, tag: Some(37) };
//! let tagged = ByteString { start: 0, level: 1, tag: Some(24) };
//! assert!(rt; matches!(all.content(plain, b"\x81\x01"), Content::Item));
//! assert!(rt; matches!(all.content(uuid, b"\x81\x01"), Content::Bytes));
//! assert!(rt; matches!(Inside::TAGGED.content(plain, b"\x81\x01"), Content::Bytes));
//! assert!(rt; matches!(Inside::TAGGED.content(tagged, b"\x01"), Content::Item));
//! ```
#![tactic(auto)]

mod content;
mod inside;
mod items;
mod rule;
mod strict;

pub use content::content_after;
pub use inside::{ByteString, Inside};
pub use rule::{content_under, says_what_bytes_are};
