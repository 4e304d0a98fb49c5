//! `-t index=SIZE`: divides the input into pieces of whole items, each of at least SIZE bytes but
//! for the last, and writes a line for each piece.

use super::Conversion;
use crate::output::write;
use cbor_grammar::Error;
use cbor_inspect::End;
use cborcat_views::Written;
use std::alloc::AllocError;

/// How many bytes of lines are made before they are written.
const BLOCK: usize = 64 * 1024;

impl Conversion<'_> {
    /// Passes items, and makes a line of each piece of them that has at least this many bytes.
    /// Tells what follows.
    pub(super) fn index_items(&mut self, size: usize) -> End {
        for _ in 0..u64::MAX {
            let end = self.stream.skip(true);
            if end != End::Full {
                return end;
            }
            self.piece = self.piece.with(self.begins());
            if self.piece.size() >= size && self.push_piece().is_err() {
                return End::Memory;
            }
            if self.out.len() >= BLOCK {
                break;
            }
        }
        End::Full
    }

    /// Appends the line of the piece, and begins the next one.
    fn push_piece(&mut self) -> Result<(), AllocError> {
        self.piece = self.piece.push_line(&mut self.out)?;
        Ok(())
    }

    /// Writes the line of the last piece.
    pub(super) fn write_last_piece(&mut self) -> Result<Written, Error> {
        self.out.clear();
        self.push_piece()?;
        Ok(write(self.rt, self.target, &self.out))
    }
}
