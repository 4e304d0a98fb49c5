//! The library for C programs. Each file has one or two calls, or what several calls use.
//! `bindings/c/cbor_diag.h` declares the calls, and says what a caller has to keep to.
//!
//! A call that fails returns minus the number of the error: 1 to 10 as `Error::number` has them, 11
//! for an unknown form, 12 for an unknown set of rules, 13 for items that have no encoding by the
//! rules, 14 for two keys of a map that become the same in JSON, 15 for what JSON does not keep, 16
//! for a path that leads to no part of an item, 17 for an unknown type, 18 for an input that has
//! none of the forms, 19 for a file of names with an error, 20 for a text of CDDL with an error, 21
//! for bytes that are no schema, and 22 for an item that takes too many steps to match. In C, with
//! the header:
//!
//! ```c
//! char text[256];
//! int64_t length = cbor_diag_convert(CBOR_DIAG_FORM_BYTES, CBOR_DIAG_FORM_DIAG,
//!                                    "\x82\x01\x02", 3, text, sizeof text);
//! ```
#![tactic(auto)]

mod answer;
mod conversion;
mod edn;
mod error;
mod extents;
mod faults;
mod form;
mod heads;
mod messages;
mod misfits;
mod names;
mod page;
mod parts;
mod recognized;
mod reencoding;
mod scanner;
mod schemas;
mod shown;
mod text;
mod values;
mod version;
mod violations;
mod words;
