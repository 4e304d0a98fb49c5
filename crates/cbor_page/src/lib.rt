//! Writes an HTML page that shows CBOR data: each line of EDN, with names and notes, stands beside
//! its own bytes. The page is one file that loads nothing else.
//!
//! [`push_items`] writes the lines of whole items, [`push_partial`] the lines of a truncated or
//! malformed item, and [`push_data`] both. What writes the EDN marks its tokens, if the caller sets
//! [`Show::marks`](cbor_inspect::Show::marks): nothing reads the EDN again. [`push_page`] writes a
//! page with such lines, and with the style and the script of the folder `page`. [`weight`]
//! estimates how long a page will be.
//!
//! ```rust
//! use cbor_page::{Heading, push_page};
//!
//! let heading = Heading {
//!     name: "a.cbor",
//!     bytes: 1,
//!     items: 1,
//! };
//! let mut out = Vec::new(alloc);
//! push_page(&mut out, &heading, b"")?;
//! assert!(rt; out.as_slice().starts_with(b"<!doctype html>"));
//! ```
#![tactic(auto)]

mod escape;
mod heads;
mod lines;
mod mark;
mod open;
mod page;
mod plan;
mod script;
mod shown;
mod source;
mod style;
mod walk;

pub use page::{Heading, push_page, weight};
pub use shown::{PathStart, push_data, push_items, push_partial};
