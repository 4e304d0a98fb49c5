//! Where the tokens of a text are, and what they are. What writes a text marks its tokens as it
//! writes them, so that nobody has to read the text again to colour it, to cut its strings, or to
//! make a page of it.
//!
//! ```rust
//! use cbor_marks::{Kind, Marked, Marks};
//!
//! let marks = Marks::new(alloc);
//! marks.mark(Kind::Key, 1, 2);
//! marks.mark(Kind::Number, 4, 8);
//! let mut list = Vec::new(alloc);
//! marks.take(&mut list)?;
//! let mut text = Marked::new(b"{1: true}", &list);
//! assert_eq!(rt; text.next_piece(), Some((None, b"{".as_slice())));
//! assert_eq!(rt; text.next_piece(), Some((Some(Kind::Key), b"1".as_slice())));
//! ```
//!
//! In the examples of this crate, `rt` is the `HostRuntime` of a test, and `alloc` is `rt.alloc()`.
#![tactic(auto)]

mod kind;
mod marked;
mod marks;

pub use kind::Kind;
pub use marked::{Marked, MarkedText};
pub use marks::{Marks, Token};
