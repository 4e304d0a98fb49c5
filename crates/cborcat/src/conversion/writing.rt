//! Writes what the arguments ask for of the items just passed: the items, their paths, statistics,
//! or the item at a byte (`--at`). Also writes the part of a truncated or malformed item that is
//! there (`--partial`).

use super::Conversion;
use crate::output::write;
use cbor_grammar::Error;
use cbor_inspect::End;
use cbor_places::{Around, Piece};
use cborcat_arguments::View;
use cborcat_messages::{Status, say_out_of_memory};
use cborcat_views::{Written, encoded_in, inside_of};

impl Conversion<'_> {
    /// Writes what was made of the items that were passed last.
    pub(super) fn write(&mut self) -> Result<Written, Error> {
        match self.job.view {
            View::Paths => self.write_paths(),
            View::Stats => self.count(),
            View::Check | View::Diff | View::Html(_) => Ok(Written::Whole),
            View::At(byte) => self.write_at(byte),
            View::Items | View::Encoded(_) | View::Index(_) | View::Json | View::Raw => {
                self.views.write(self.target, &self.out)
            }
        }
    }

    /// The items that were passed last.
    fn last(&self) -> Piece {
        Piece {
            begins: self.begins().saturating_sub(self.passed),
            bytes: self.stream.passed(self.passed),
        }
    }

    /// Writes a line for each item of these that holds no other.
    fn write_paths(&mut self) -> Result<Written, Error> {
        let items = Piece {
            begins: self.begins().saturating_sub(self.passed),
            bytes: self.stream.passed(self.passed),
        };
        let (end, number) = self.views.write_paths(self.target, items, self.number)?;
        self.number = number;
        Ok(end)
    }

    /// Writes which paths take the bytes of the input.
    pub(super) fn write_stats(&mut self) {
        let mut text = String::new(self.rt.alloc());
        let status = match self.stats.push_text(&mut text) {
            Ok(()) => match write(self.rt, self.target, text.as_bytes()) {
                Written::Failed => Status::Trouble,
                Written::Whole | Written::Closed => Status::Fine,
            },
            Err(_) => say_out_of_memory(self.rt, self.origin.name),
        };
        self.ended(status);
    }

    /// Counts the values of the items that were passed last.
    fn count(&mut self) -> Result<Written, Error> {
        let items = Piece {
            begins: self.begins().saturating_sub(self.passed),
            bytes: self.stream.passed(self.passed),
        };
        let encoded = encoded_in(self.rt.alloc(), self.tables, items)?;
        self.stats.add(items, inside_of(self.job, &encoded))?;
        Ok(Written::Whole)
    }

    /// Writes what is said of a byte of the data, if it is in the items that were passed last.
    fn write_at(&mut self, byte: usize) -> Result<Written, Error> {
        let (number, lines) = self.views.lines_in(self.last(), byte, self.number)?;
        let Some(lines) = lines else {
            self.number = number;
            return Ok(Written::Whole);
        };
        self.found = true;
        Ok(write(self.rt, self.target, lines.as_bytes()))
    }

    /// Writes the part of a truncated or malformed item that is there, with `--partial`.
    pub(super) fn write_left(&mut self, end: End) -> Result<Written, Error> {
        match self.job.view {
            View::At(byte) => self.write_at_left(byte),
            View::Items if self.job.partial => self.write_partial(end),
            View::Index(_) => self.write_last_piece(),
            View::Html(most) if self.job.partial => self.page_left(most),
            _ => Ok(Written::Whole),
        }
    }

    /// Writes the whole parts of an item that is cut or has a fault, and some of what remains.
    fn write_partial(&mut self, end: End) -> Result<Written, Error> {
        let alloc = self.rt.alloc();
        let said = match end {
            End::Fault { error, end } => {
                let around = Around::of_end(alloc, self.left().first(end))?;
                let words = around.fault_words(self.origin, error)?;
                format!(in alloc; "malformed: {words}")?
            }
            End::Cut => String::from_str(alloc, "truncated")?,
            _ => return Ok(Written::Whole),
        };
        let bytes = self.stream.rest();
        if bytes.is_empty() {
            return Ok(Written::Whole);
        }
        self.views.write_partial(self.target, bytes, &said)
    }

    /// Writes what is said of a byte of an item that is not whole.
    fn write_at_left(&mut self, byte: usize) -> Result<Written, Error> {
        let begins = self.begins();
        if byte < begins || byte >= self.came {
            return Ok(Written::Whole);
        }
        let lines = self.views.lines_at((self.number, self.left()), byte)?;
        Ok(write(self.rt, self.target, lines.as_bytes()))
    }
}
