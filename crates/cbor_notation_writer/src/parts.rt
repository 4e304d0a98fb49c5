//! Types for what a dialect of notation writes. `Front`: the head of an item, the bytes from the
//! item on, and the bytes after the head. `Leaf`: a number, a float or a simple value. `Container`:
//! an item that has members.

use cbor_grammar::argument::Argument;
use cbor_grammar::head::ItemHead;
use cbor_grammar::strings::StringKind;
use cbor_grammar::{FloatWidth, IntegerWidth};

/// The front of bytes, where an item begins.
#[derive(Clone, Copy)]
pub struct Front<'a> {
    /// The head of the item.
    pub head: ItemHead,
    /// The bytes, from the first byte of the item on.
    pub bytes: &'a [u8],
    /// The bytes after the head.
    pub rest: &'a [u8],
}

/// An item without members: a number, a float or a simple value, but no string.
#[derive(Clone, Copy)]
pub enum Leaf {
    /// An integer, and the width that its number was written in.
    Integer(u64, IntegerWidth),
    /// A negative integer, by the encoded number `n`; the integer is `-1 - n`.
    Negative(u64, IntegerWidth),
    /// A float by its bits, which fit this width.
    Float(u64, FloatWidth),
    /// A simple value, and whether it has a two-byte encoding (`f8`).
    Simple(u8, bool),
}

/// An item that has members.
#[derive(Clone, Copy)]
pub enum Container {
    /// An array, with its count of items.
    Array(Argument),
    /// A map, with its count of pairs.
    Map(Argument),
    /// A string of indefinite length that has chunks.
    Chunks(StringKind),
    /// A byte string of this length that is shown as the items in it.
    Embedded(Argument),
}
