//! Writes CBOR items as dumps (hex with a comment on each line), straight from their bytes.
//! `specs/` defines the lines, comments and notes of a dump.
//!
//! A first recursion over the bytes finds the column of the comments. A second one writes each line
//! as soon as the bytes of the line are read.
//!
//! Lines, comments, columns and notes are public. `cbor_screen` uses them for the dumps of
//! `cborcat`, which also show names and the items in byte strings.
#![tactic(auto)]

pub mod addresses;
pub mod comment;
pub mod context;
pub mod convert;
mod examples;
pub mod hex_style;
pub mod lines;
pub mod note_lines;
pub mod notes;
pub mod walk;
pub mod width;
pub mod writer;

pub use convert::{bytes_to_hex, hex_to_hex, push_bytes_to_hex, push_bytes_to_hex_partial};
