//! `DataItem`: an item that keeps how it was encoded: the widths of its numbers, and whether its
//! lengths are definite.
mod clone;
mod equal;
mod well_formed;

use cbor_grammar::{ByteString, FloatWidth, IntegerWidth, Simple, Tag, TextString};

/// A CBOR data item. Two items are equal if all their fields are, widths included.
///
/// The outermost item is at level 1. The items in a container or below a tag are one level deeper
/// than it. The chunks of a string have no level. An item is well formed if each number fits its
/// width and no item in it is deeper than level 128. [`DataItem::is_well_formed`] checks this.
#[derive(Debug, Drop)]
pub enum DataItem {
    /// An unsigned integer (RFC 7049 section 2.1, major type 0).
    Integer {
        /// The integer.
        value: u64,
        /// The width of the integer.
        bitwidth: IntegerWidth,
    },
    /// A negative integer (RFC 7049 section 2.1, major type 1).
    Negative {
        /// The number that is encoded, `n`; the integer is `-1 - n`.
        value: u64,
        /// The width of the encoded number.
        bitwidth: IntegerWidth,
    },
    /// A byte string of definite length.
    ByteString(ByteString),
    /// A text string of definite length.
    TextString(TextString),
    /// A byte string of indefinite length: its chunks, which a break ends (RFC 7049 section 2.2.2).
    IndefiniteByteString(Vec<ByteString>),
    /// A text string of indefinite length: its chunks, which a break ends. Each chunk is UTF-8 by
    /// itself (RFC 7049 section 2.2.2).
    IndefiniteTextString(Vec<TextString>),
    /// An array of items (RFC 7049 section 2.1, major type 4).
    Array {
        /// The items, in order.
        content: Vec<DataItem>,
        /// The width of the count, or `None` for an indefinite length, which a break ends (RFC 7049
        /// section 2.2.1).
        bitwidth: Option<IntegerWidth>,
    },
    /// A map (RFC 7049 section 2.1, major type 5). Keys may be in any order and may be repeated.
    Map {
        /// The keys with their values, in order.
        content: Vec<(DataItem, DataItem)>,
        /// The width of the count of pairs, or `None` for an indefinite length, which a break ends
        /// (RFC 7049 section 2.2.1).
        bitwidth: Option<IntegerWidth>,
    },
    /// A tag and the item below it (RFC 7049 section 2.4, major type 6).
    Tag {
        /// The tag.
        tag: Tag,
        /// The width of the tag's number.
        bitwidth: IntegerWidth,
        /// The item below the tag.
        value: Box<DataItem>,
    },
    /// A float, as its bits (RFC 7049 section 2.3, major type 7).
    Float {
        /// The bits in IEEE 754, in the format of that width.
        bits: u64,
        /// The width of the float.
        bitwidth: FloatWidth,
    },
    /// A simple value (RFC 7049 section 2.3, major type 7).
    Simple(Simple),
}
