//! Changes how texts look on a screen: colours the tokens of EDN and dumps, cuts long strings, and
//! leaves out widths. Also writes dumps with names and with the items in byte strings.
//!
//! ```rust
//! use cbor_screen::push_colored_dump;
//!
//! let mut out = Vec::new(alloc);
//! push_colored_dump(&mut out, b"18 2a # unsigned(42)\n")?;
//! let wanted = b"\x1b[33m18 2a \x1b[0m\x1b[90m# unsigned(42)\x1b[0m\n";
//! assert_eq!(rt; out.as_slice(), wanted.as_slice());
//! ```
//!
//! A text here is bytes, mostly UTF-8. Of EDN and JSON it comes with the marks of its tokens, which
//! what writes it makes (`cbor_marks`). No call refuses a text or marks: what no mark says is a
//! token is passed as it is, and no token goes past a line's end.
//! In the examples of this crate, `rt` is the `HostRuntime` of a test, and `alloc` is `rt.alloc()`.
#![tactic(auto)]

mod color;
mod color_dump;
mod dump;
mod elide;
mod indicator;
mod sgr;
mod widths;

pub use color::{push_colored, push_in_color};
pub use color_dump::push_colored_dump;
pub use dump::{DumpStyle, push_dump, push_partial_dump};
pub use elide::push_elided;
pub use widths::push_without_widths;
