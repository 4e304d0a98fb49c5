//! `Span`: a range of the bytes of an input.

/// A range of the bytes of an input: those from `start` on, before `end`.
#[derive(Clone, Copy, PartialEq, Eq, Debug)]
pub struct Span {
    /// The offset of the first byte.
    pub start: usize,
    /// The offset after the last byte.
    pub end: usize,
}

impl Span {
    /// Returns the bytes of the input in this span, or no bytes if the span is not within the
    /// input.
    pub fn bytes(self, input: &[u8]) -> &[u8] {
        match input.get(self.start..self.end) {
            Some(bytes) => bytes,
            None => b"",
        }
    }

    /// Returns how many bytes the span has.
    pub fn len(self) -> usize {
        self.end.saturating_sub(self.start)
    }
}
