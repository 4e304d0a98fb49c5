//! Adds the types of a file of names to other tables (`with_file`), and finds the line of an error.
//! The file is TOML, as docs/NAMES.md describes it.
//!
//! ```rust
//! use cbor_names::{Names, notes, with_file};
//!
//! let none = Names::new(alloc);
//! let names = with_file(alloc, none, "[Reading]\ntag = 1001\nmap.1 = 'sensor'")?;
//! // 1001({1: 7})
//! let found = notes(alloc, b"\xd9\x03\xe9\xa1\x01\x07", &names, None)?;
//! let around = found.names_at(alloc, 5)?;
//! assert_eq!(rt; around.as_slice(), ["Reading", "sensor"].as_slice());
//! ```

mod fault;
mod read;
mod statements;
mod types;

use crate::Names;
use crate::file::statements::statement_ends;
use crate::file::types::add_types;
pub use fault::{Fault, FileError};
use std::alloc::{AllocError, Global};
use toml::{Table, table_from_str};

/// How many lines a text has before the byte `at`, and the one that it is in.
fn line_at(text: &str, at: usize) -> usize {
    let mut line = 1usize;
    for byte in text.as_bytes().iter().take(at) {
        if *byte == b'\n' {
            line = line.saturating_add(1);
        }
    }
    line
}

/// What is wrong with a table; where there are `names`, each type that is named has to be one of
/// them.
fn fault_of(alloc: Global, table: &Table, names: Option<&Names>) -> Option<Fault> {
    let mut found = Names::new(alloc);
    if let Err(fault) = add_types(alloc, table, &mut found) {
        return Some(fault);
    }
    match names {
        Some(names) if found.lacks(names) => Some(Fault::NoType),
        _ => None,
    }
}

/// The same of a text up to a line end, if that is TOML.
fn fault_to(alloc: Global, text: &str, line_end: usize, names: Option<&Names>) -> Option<Fault> {
    let front = text.get(..line_end.saturating_add(1))?;
    match table_from_str(alloc, front) {
        Ok(table) => fault_of(alloc, &table, names),
        Err(error) if error.is_memory() => Some(Fault::OutOfMemory),
        Err(_) => None,
    }
}

/// What is wrong with a text, with its line: the first one to whose end the text has a fault. With
/// more lines it keeps that fault, so the line is searched for by halves.
fn placed(alloc: Global, text: &str, fault: Fault, names: Option<&Names>) -> FileError {
    let Ok(ends) = statement_ends(alloc, text) else {
        return FileError::from(AllocError);
    };
    let (mut low, mut high) = (0usize, ends.len());
    let mut first = (text.len(), fault);
    'halves: while low < high {
        let middle = low + (high - low) / 2;
        let end = ends[middle];
        match fault_to(alloc, text, end, names) {
            Some(Fault::OutOfMemory) => return FileError::from(AllocError),
            Some(fault) => {
                first = (end, fault);
                high = middle;
            }
            None => low = middle + 1,
        }
    }
    let (end, fault) = first;
    let line = line_at(text, end);
    FileError { line, fault }
}

/// How many bytes a file may have.
const LONGEST: usize = 1 << 16;

/// The table of a text.
fn table_of(alloc: Global, text: &str) -> Result<Table, FileError> {
    if text.len() > LONGEST {
        let fault = Fault::Long;
        return Err(FileError { line: 1, fault });
    }
    match table_from_str(alloc, text) {
        Ok(table) => Ok(table),
        Err(error) => Err(match error.span() {
            Some(span) => FileError {
                line: line_at(text, span.start),
                fault: Fault::Toml(error),
            },
            None => FileError::from(AllocError),
        }),
    }
}

/// Returns the tables with the types of a file, in TOML as docs/NAMES.md describes it. The names of
/// the file come before those of a type that has the same name or the same tag, and these stay where
/// the file has none.
///
/// Returns what is wrong with the text, and the line: it is no TOML, it has more than 65,536 bytes,
/// a table is no type, a name has a character that notes cannot have, or a type that is named is
/// neither in the file nor in `names`. The line is 0 if memory ran out.
pub fn with_file(alloc: Global, names: Names, text: &str) -> Result<Names, FileError> {
    let table = table_of(alloc, text)?;
    let mut names = names;
    match add_types(alloc, &table, &mut names) {
        Ok(()) => {}
        Err(Fault::OutOfMemory) => return Err(FileError::from(AllocError)),
        Err(fault) => return Err(placed(alloc, text, fault, None)),
    }
    if names.lacks(&names) {
        return Err(placed(alloc, text, Fault::NoType, Some(&names)));
    }
    names.merge()?;
    Ok(names)
}
