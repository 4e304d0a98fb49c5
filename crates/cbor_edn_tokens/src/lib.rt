//! Reads the tokens of EDN: blanks, words, numbers, floats, quoted text, digits, network addresses,
//! the openings of strings, and the widths, separators and ends of lists. The crate builds no
//! items.
#![tactic(auto)]

pub mod address;
pub mod blank;
pub mod close;
pub mod cursor;
mod digit_fault;
pub mod digits;
pub mod float;
pub mod hex_float;
pub mod number;
pub mod opening;
pub mod quoted;
