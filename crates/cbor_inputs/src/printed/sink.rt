//! `Sink` takes the bytes that a text stands for, one after the other.

use std::alloc::{AllocError, Global};

/// Takes the bytes that a text stands for, one after the other: it keeps them, or finds the place
/// of one of them.
#[derive(Drop)]
pub(super) struct Sink {
    /// The bytes, if they are kept.
    kept: Option<Vec<u8>>,
    /// How many came.
    pub count: usize,
    /// The number of the byte whose place is wanted.
    wanted: usize,
    /// Its place in the text, once it came.
    pub place: Option<usize>,
    /// Whether memory ran out.
    failed: bool,
}

impl Sink {
    /// A sink that keeps no byte, but the place of this one.
    pub fn counting(wanted: usize) -> Sink {
        Sink {
            kept: None,
            count: 0,
            wanted,
            place: None,
            failed: false,
        }
    }

    /// A sink that keeps the bytes.
    pub fn keeping(alloc: Global) -> Sink {
        Sink {
            kept: Some(Vec::new(alloc)),
            ..Sink::counting(0)
        }
    }

    /// Forgets what came.
    pub fn clear(&mut self) {
        self.count = 0;
        self.place = None;
        if let Some(bytes) = &mut self.kept {
            bytes.clear();
        }
    }

    /// Takes the next byte, which is at this place of the text.
    pub fn push(&mut self, byte: u8, at: usize) {
        if self.count == self.wanted {
            self.place = Some(at);
        }
        self.count = self.count.saturating_add(1);
        if let Some(bytes) = &mut self.kept {
            self.failed |= bytes.push(byte).is_err();
        }
    }

    /// The bytes that came.
    pub fn bytes(self) -> Result<Vec<u8>, AllocError> {
        match self.kept {
            Some(bytes) if !self.failed => Ok(bytes),
            _ => Err(AllocError),
        }
    }
}
