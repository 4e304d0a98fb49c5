//! `End`: why reading a sequence of items stopped, such as at the end or at a truncated or
//! malformed item. `Shown`: how many bytes were passed, and the `End`.

use cbor_grammar::Error;

/// Why no further item is written or passed.
#[derive(Clone, Copy, PartialEq, Eq, Debug)]
pub enum End {
    /// The call stopped without a look at what remains, which may be nothing: a block of output was
    /// appended, or one item was to be written or skipped, and was. At least one byte was passed,
    /// so a loop over such calls ends. Write the output, and go on.
    Full,
    /// No bytes remain.
    Done,
    /// An item begins, and is not whole.
    Cut,
    /// What remains is no item: its first `end` bytes have this error, and fewer are cut.
    Fault { error: Error, end: usize },
    /// The input was to be one item, and more bytes follow it. No call of a library returns this.
    Remaining,
    /// The item that follows, of this many bytes, has no part where the path leads.
    Lost { len: usize },
    /// The item that follows is none by RFC 8949: at its byte `at` is a simple value below 32 in
    /// two bytes. Only `Stream::check` of `cbor_inspect` returns this.
    TwoByteSimple { at: usize },
    /// Memory ran out, and nothing was made of what remains. A call that takes no memory never
    /// returns this.
    Memory,
}

/// How far items were written or passed.
#[derive(Clone, Copy, PartialEq, Eq, Debug)]
pub struct Shown {
    /// How many bytes these items take.
    pub used: usize,
    /// Why there is no further one.
    pub end: End,
}
