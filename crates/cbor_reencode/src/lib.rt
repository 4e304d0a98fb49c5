//! Re-encodes CBOR so that it keeps rules, such as those of deterministic encoding (RFC 8949
//! section 4.2).
//!
//! [`reencoded`] returns the same items in an encoding that keeps the given [`Rules`].
//! [`violation_of`] finds the first violation of rules, and compares keys by value: 1 and 1_0 are
//! equal keys.
//!
//! ```rust
//! use cbor_reencode::reencoded;
//! use cbor_rules::Rules;
//!
//! let core = reencoded(alloc, b"\xbf\x18\x02\x80\x01\x9f\xff\xff", Rules::CORE)?;
//! assert_eq!(rt; core.as_slice(), b"\xa2\x01\x80\x02\x80".as_slice());
//! ```
//!
//! [`Rules`]: cbor_rules::Rules
#![tactic(auto)]

mod encoder;
mod error;
mod items;
mod keys;
mod numbers;
mod pairs;
mod scalars;

pub use error::ReencodeError;
pub use keys::{reencoded, violation_of};
