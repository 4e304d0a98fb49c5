//! Writes messages as `cborcat` shows them: for a violation of rules, for what JSON does not keep,
//! and for a path that leads nowhere. Also writes the part of an input that a message shows.
//!
//! ```rust
//! use cbor_messages::first_violation;
//! use cbor_places::Piece;
//! use cbor_rules::RuleSet;
//!
//! // {"b": 2, "a": 1}: the keys are not in the order of their bytes.
//! let items = Piece {
//!     begins: 0,
//!     bytes: b"\xa2\x61b\x02\x61a\x01",
//! };
//! let core = RuleSet::named("core").expect(&rt, "core");
//! let message = first_violation(alloc, core, items)?.expect(&rt, "a violation");
//! assert_eq!(rt; message.place, 4);
//! let text = "not core deterministic: the key \"a\" comes after \"b\"";
//! assert_eq!(rt; message.text.as_str(), text);
//! ```
//!
//! Nothing here knows of arguments or files. In the examples of this crate, `rt` is the
//! `HostRuntime` of a test, and `alloc` is `rt.alloc()`.
#![tactic(auto)]

mod excerpt;
mod json;
mod kind;
mod lost;
mod violation;
mod way;
mod widths;
mod words;

pub use excerpt::{Excerpt, Position, position_of};
pub use json::not_json;
pub use kind::{kind_number, kind_text};
pub use lost::lost_words;
pub use violation::{first_violation, not_encoded};
pub use words::{Message, TWO_BYTES};
