//! Finds which form an input has (bytes, hex as people paste it, EDN or base 64), and which bytes
//! it stands for.
//!
//! [`recognize`] finds the form of an input, and [`Input::decode`] the bytes of one whose form is
//! known. [`printed_bytes`] reads the bytes of dumps and of code. [`is_text`] and [`text_fault`] tell
//! text from bytes, [`Input::place_of`] finds in a text where a byte is, and [`looks_like`] guesses
//! what an input is if nothing reads it.
//!
//! ```rust
//! use cbor_inputs::{Input, recognize};
//!
//! let found = recognize(alloc, b"0x82 01 02 # two numbers")?;
//! assert_eq!(rt; found.form, Input::Hex);
//! assert_eq!(rt; found.bytes.as_slice(), b"\x82\x01\x02".as_slice());
//! ```
#![tactic(auto)]

mod base64_text;
mod decode;
mod loose;
mod pasted;
mod place;
mod printed;
mod text;

pub use decode::{Input, Recognized, Refusal, recognize};
pub use loose::HexFault;
pub use pasted::{Pasted, looks_like};
pub use printed::{Printed, place_of_printed, printed_bytes};
pub use text::{is_text, text_fault};
