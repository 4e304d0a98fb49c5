//! `Extent`: the answer of `extent` and of a `Scanner`. The bytes begin with an item of some
//! length, are truncated, or have an error.
use cbor_grammar::Error;

/// How bytes begin, as [`extent`] reports it.
///
/// [`extent`]: crate::extent
#[derive(Clone, Copy, PartialEq, Eq, Debug)]
pub enum Extent {
    /// An item comes first, and has this many bytes.
    Item(usize),
    /// The bytes end before the item does, and before any error.
    Cut,
    /// There is an error. The first `end` bytes have it, and any fewer are truncated.
    Fault { error: Error, end: usize },
}
