//! `Output`: what takes the bytes that are shown, such as a file. `Written`: how a write went.

/// How a write went.
#[derive(Clone, Copy, PartialEq, Eq)]
pub enum Written {
    /// Whole.
    Whole,
    /// Nobody reads the output any more.
    Closed,
    /// It failed, and a message said so.
    Failed,
}

/// What takes the bytes that are shown.
pub trait Output {
    /// Writes bytes, all of them.
    fn write(&mut self, rt: &HostRuntime, bytes: &[u8]) -> Written;
}
