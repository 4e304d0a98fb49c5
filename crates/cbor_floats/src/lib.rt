//! Converts floats of 16, 32 and 64 bits between numbers, decimal texts and the bits that CBOR
//! encodes them in (RFC 8949 section 3.3; IEEE 754 names the formats binary16, binary32 and
//! binary64).
//!
//! Each half and each single is a double, so one type, `f64`, holds the numbers of all widths.
//!
//! ```rust
//! use cbor_floats::{EncodedFloat, Width, parse_in_width, parse_number, push_number};
//!
//! let x = parse_number(b"0.5").unwrap_or(0.0);
//! assert_eq!(rt; EncodedFloat::shortest(x), EncodedFloat::Half(0x3800));
//! let mut text = String::new(alloc);
//! push_number(&mut text, EncodedFloat::Half(0x3800).value())?;
//! assert_eq!(rt; text.as_str(), "0.5");
//! let single = parse_in_width(b"0.1", Width::ThirtyTwo);
//! assert_eq!(rt; single, Ok(EncodedFloat::Single(0x3dcccccd)));
//! ```
#![tactic(auto)]

mod decimal;
mod float;
mod half;
mod laws;
mod nearest;
mod preferred;
mod single;

pub use decimal::{NumberError, number_text, parse_in_width, parse_number, push_number};
pub use float::{EncodedFloat, Width};
pub use half::half_value;
pub use nearest::{half_of, nearest_half};
pub use single::single_of;
