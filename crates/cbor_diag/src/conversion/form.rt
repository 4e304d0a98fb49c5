//! `Source` and `To`: the forms in which `convert` reads and writes an item: bytes, hex with
//! comments, and diagnostic notation.

/// The form in which an item is read.
#[derive(Clone, Copy, PartialEq, Eq, Debug)]
pub enum Source {
    /// The bytes of the item.
    Bytes,
    /// The bytes of the item in hex, with comments.
    Hex,
    /// The item in diagnostic notation.
    Diag,
}

/// The form in which an item is written.
#[derive(Clone, Copy, PartialEq, Eq, Debug)]
pub enum To {
    /// The bytes of the item.
    Bytes,
    /// The bytes of the item in hex, each line with a comment.
    Hex,
    /// Diagnostic notation on one line, ended by a line feed. A line feed in a text is kept.
    Diag,
    /// Diagnostic notation, over several lines if it is long, ended by a line feed.
    Pretty,
}
