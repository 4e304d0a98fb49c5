//! Finds the names of members, keys, tags and values of CBOR data in tables. [`known_names`] has
//! the tables of COSE, CWT and similar standards, and [`with_file`] adds those of a file.
//! docs/NAMES.md has the rules.
//!
//! [`notes`] gives the names and meanings of the items in an item, each with its place. [`Way`]
//! finds what is known of a part of it, and [`notes_of`] gives the notes of the part.
//!
//! ```rust
//! use cbor_names::{Definition, Key, Names, Part, Shape, notes};
//!
//! let mut names = Names::new(alloc);
//! let reading = Definition::new("Reading", Shape::Map).tagged(1001);
//! names.add(reading, &[Part::new(Key::Integer(1), "sensor")])?;
//! // 1001({1: 7})
//! let notes = notes(alloc, b"\xd9\x03\xe9\xa1\x01\x07", &names, None)?;
//! let list = notes.list(alloc)?;
//! assert_eq!(rt; list.len(), 2);
//! assert_eq!(rt; (list[0].start, list[0].before), (0, "Reading"));
//! assert_eq!(rt; (list[1].start, list[1].before), (4, "sensor"));
//! ```
#![tactic(auto)]

mod authenticator;
mod decimal;
mod define;
mod expected;
mod file;
mod heads;
mod key;
mod known;
mod marks;
mod merge;
mod moment;
mod note;
mod pairs;
mod part;
mod scalar;
mod shape;
mod table;
mod walk;
mod way;

pub use file::{Fault, FileError, with_file};
pub use key::{NamedKey, OtherNames};
pub use known::known_names;
pub use marks::FirstMark;
pub use note::Notes;
pub use part::{Definition, Key, Kind, Part, Shape, What};
pub use table::{Names, Type};
pub use walk::{notes, notes_of};
pub use way::{Known, Way};
