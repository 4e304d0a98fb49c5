//! `Piece`: some bytes of the data, with how many bytes come before them. `Places`: the trait that
//! writes how a message names a byte of the data. `ByteNumbers` implements it as "byte 3".

use std::alloc::AllocError;
use std::fmt::Write;

/// Bytes of the data, and how many bytes of it are before them.
#[derive(Clone, Copy)]
pub struct Piece<'a> {
    /// Where they begin in the data.
    pub begins: usize,
    /// The bytes.
    pub bytes: &'a [u8],
}

impl<'a> Piece<'a> {
    /// The bytes between two places of the piece, as far as they are in it.
    pub fn between(self, from: usize, to: usize) -> &'a [u8] {
        self.bytes.get(from..to).unwrap_or(b"")
    }

    /// Its first bytes: as many, or all.
    pub fn first(self, count: usize) -> Piece<'a> {
        let (bytes, _) = self.bytes.split_at(count.min(self.bytes.len()));
        Piece { bytes, ..self }
    }

    /// The number of a byte of the piece, counted in the data.
    pub fn number(self, place: usize) -> usize {
        self.begins.saturating_add(place)
    }
}

/// How a message names a byte of the data.
pub trait Places {
    /// Appends the name of the byte with this number.
    fn push_byte(&self, out: &mut String, byte: usize) -> Result<(), AllocError>;

    /// How many bytes of a string were dropped, whose content begins with the byte with this
    /// number.
    fn dropped(&self, _byte: usize) -> usize {
        0
    }
}

/// Bytes are named by their numbers, as in `byte 3`.
#[derive(Clone, Copy)]
pub struct ByteNumbers;

impl Places for ByteNumbers {
    fn push_byte(&self, out: &mut String, byte: usize) -> Result<(), AllocError> {
        write!(out, "byte {byte}")
    }
}
