//! `Report`: prints each row of a file whose result differs from the expected one, and counts the
//! rows. `Tally`: how many rows there are, and how many are wrong.

use crate::row::Row;
use std::io;

/// How many rows there are, and how many of them are wrong.
#[derive(Clone, Copy)]
pub struct Tally {
    pub rows: usize,
    pub wrong: usize,
}

impl Tally {
    pub const NONE: Tally = Tally { rows: 0, wrong: 0 };

    /// Both.
    pub fn and(self, other: Tally) -> Tally {
        Tally {
            rows: self.rows.saturating_add(other.rows),
            wrong: self.wrong.saturating_add(other.wrong),
        }
    }
}

/// The report on a file.
#[derive(Drop)]
pub struct Report<'a> {
    name: &'a str,
    tally: Tally,
}

impl<'a> Report<'a> {
    /// A report on the file of this name.
    pub fn new(name: &'a str) -> Report<'a> {
        Report {
            name,
            tally: Tally::NONE,
        }
    }

    /// Takes a row and what its call gave, and prints both if they differ.
    pub fn row(&mut self, rt: &HostRuntime, row: &Row, found: Option<&str>) -> io::Result<()> {
        let right = found.is_some_and(|text| row.is_met(text));
        let wrong = if right { 0 } else { 1 };
        self.tally = self.tally.and(Tally { rows: 1, wrong });
        if right {
            return Ok(());
        }
        let found = found.unwrap_or("no subject knows this call");
        let (name, line, call) = (self.name, row.line, row.call);
        println!(rt; "{name}:{line}: {call} {}  {}", row.argument, row.text())?;
        println!(rt; "is\n{found}")
    }

    /// Prints how many rows the file has.
    pub fn end(self, rt: &HostRuntime) -> io::Result<Tally> {
        println!(rt; "{}: {} rows", self.name, self.tally.rows)?;
        Ok(self.tally)
    }
}
