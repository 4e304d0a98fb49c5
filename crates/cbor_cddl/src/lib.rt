//! Parses and loads CDDL (RFC 8610, with the changes of RFC 9682), the language that describes the
//! CBOR items of a protocol. The result is a [`Schema`], in which all names and parameters are
//! resolved.
//!
//! ```rust
//! use cbor_cddl::Schema;
//!
//! let schema = Schema::load(alloc, "event = { at: uint, ? kind: text }", None)?;
//! assert!(rt; schema.source.as_str().starts_with("event"));
//! ```
//!
//! A [`Fault`] says what is wrong with a text, and where. `Schema::to_flat` writes a schema as
//! bytes, and `Schema::from_flat` reads them back. Crates that match items compile its patterns
//! with `Schema::patterns`; a [`Stop`] says why they cannot match one.
#![tactic(auto)]

mod ast;
mod compiled;
mod compute;
mod control;
mod fault;
mod flat;
mod grammar;
mod kinds;
mod lexer;
mod literal;
mod load;
mod lower;
mod names;
mod near;
mod parser;
mod pattern;
mod prelude;
mod prune;
mod rank;
mod schema;
mod stop;
mod text;

pub use compiled::Pattern;
pub use compute::float_of;
pub use fault::{Fault, FaultKind, Position, SaidFault, position_of};
pub use flat::Unread;
pub use near::likeness;
pub use schema::{
    Comparison, Floats, Label, List, Node, Occurrence, Pending, Rule, Schema, Span, Value,
};
pub use stop::Stop;
pub use text::source_of;
