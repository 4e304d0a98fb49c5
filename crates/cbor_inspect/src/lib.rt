//! For viewers of CBOR: writes items as they arrive, or the parts that a path leads to, as EDN,
//! dump, hex or bytes. The EDN can have notes and names, and has no hidden characters, such as
//! control characters. Also finds the name of a part, the content of a string, and two-byte simple
//! values.
//!
//! ```rust
//! use cbor_inspect::{End, Form, Show, show_items};
//!
//! let mut out = Vec::new(alloc);
//! let shown = show_items(&Show::new(Form::Diag), b"\x82\x01\x02", &mut out);
//! assert_eq!(rt; shown.end, End::Done);
//! assert_eq!(rt; out.as_slice(), b"[1, 2]\n".as_slice());
//! ```
//!
//! Nothing here knows of arguments or files. In the examples of this crate, `rt` is the
//! `HostRuntime` of a test, and `alloc` is `rt.alloc()`.
#![tactic(auto)]

mod form;
mod items;
mod laws;
mod name;
mod naming;
mod notation;
mod part;
mod partial;
mod picture;
mod raw;
mod rfc8949;
mod steps;
mod stream;

pub use cbor_paths::{End, Found, Lost, Picture, Shown, Step, follow, lost_at, skip_items};
pub use form::{Form, Style};
pub use items::{Show, show_items};
pub use name::{NameError, name_at};
pub use naming::Naming;
pub use picture::{NamedPart, parts_of};
pub use raw::{RawError, raw_content};
pub use rfc8949::two_byte_simple;
pub use steps::steps_of;
pub use stream::Stream;
