//! `known_names`: makes the tables of names of COSE (RFC 9052 to 9054, 9360, 9596 and 9597), CWT
//! and EAT (RFC 8392, 8747, 9200 and 9711), SenML (RFC 8428) and CTAP 2.1. The files in `known`
//! have them, one name in a line.
//!
//! ```rust
//! use cbor_names::{known_names, notes};
//!
//! // 18([<<{1: -7}>>, {}, h'', h''])
//! let bytes = b"\xd2\x84\x43\xa1\x01\x26\xa0\x40\x40";
//! let names = known_names(alloc)?;
//! let notes = notes(alloc, bytes, &names, None)?;
//! let list = notes.list(alloc)?;
//! assert_eq!(rt; list.len(), 7);
//! assert_eq!(rt; list[0].before, "COSE_Sign1");
//! assert_eq!(rt; (list[1].before, list[1].encoded), ("protected", true));
//! assert_eq!(rt; (list[2].before, list[3].after), ("alg", "ES256"));
//! ```
mod algorithms;
mod cose;
mod ctap2;
mod cwt;
mod rows;
mod senml;

use crate::Names;
use std::alloc::{AllocError, Global};

/// Returns the tables of this module. [`Names::define`] adds further types.
pub fn known_names(alloc: Global) -> Result<Names, AllocError> {
    let mut names = Names::new(alloc);
    cose::add(&mut names)?;
    algorithms::add(&mut names)?;
    cwt::add(&mut names)?;
    senml::add(&mut names)?;
    ctap2::add(&mut names)?;
    names.merge()?;
    Ok(names)
}
