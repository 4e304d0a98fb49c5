//! `Next`: what comes after a part of a run: the rest of the input, the next input, or nothing.

/// What comes after a part of a run.
#[derive(Clone, Copy, PartialEq, Eq)]
pub enum Next {
    /// The rest of this input.
    More,
    /// The next input.
    NextInput,
    /// Nothing: nobody reads the output any more, or it cannot be written.
    Nothing,
}
