//! `ItemHead`: what the head of an item says (RFC 7049 section 2.1). It is an integer, a float or a
//! simple value, or it opens a string, an array, a map or a tag.
use crate::argument::Argument;
use crate::strings::StringKind;
use crate::width::{FloatWidth, IntegerWidth};

/// What a head opens.
#[derive(Clone, Copy)]
pub enum ItemHead {
    /// An unsigned integer.
    Integer(u64, IntegerWidth),
    /// A negative integer: -1 minus this number.
    Negative(u64, IntegerWidth),
    /// A string of this many bytes, or one in chunks.
    String(StringKind, Argument),
    /// An array of this many items, or one that ends at a break.
    Array(Argument),
    /// A map of this many pairs, or one that ends at a break.
    Map(Argument),
    /// A tag, before its item.
    Tag(u64, IntegerWidth),
    /// A float, by its bits.
    Float(u64, FloatWidth),
    /// A simple value.
    Simple(u8),
}
