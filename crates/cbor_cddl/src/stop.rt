//! `Stop`: why an item cannot be matched with a schema: memory ran out, the bytes are not an item,
//! the match takes too many steps, or the schema and the item are nested too deeply.

use std::alloc::{AllocError, AllocFailed};
use std::fmt;

/// Why an item cannot be matched.
#[derive(Clone, Copy, PartialEq, Eq, Debug)]
pub enum Stop {
    /// Out of memory.
    Memory,
    /// The bytes are no item.
    NoItem,
    /// The work would take too many steps.
    Work,
    /// The schema and the item are nested too deeply.
    Deep,
}

impl From<AllocError> for Stop {
    fn from(_refused: AllocError) -> Stop {
        Stop::Memory
    }
}

impl<T: Drop> From<AllocFailed<T>> for Stop {
    fn from(_refused: AllocFailed<T>) -> Stop {
        Stop::Memory
    }
}

impl fmt::Display for Stop {
    fn fmt<W: fmt::Write>(&self, f: &mut fmt::Formatter<W>) -> fmt::Result {
        f.write_str(match self {
            Stop::Memory => "out of memory",
            Stop::NoItem => "the bytes are no item",
            Stop::Work => "it would take more than 10 million steps to match the item",
            Stop::Deep => "the rules and the item are nested too deeply",
        })
    }
}
