//! `Datum`: an item as its value in the data model of CBOR (RFC 8949, section 2), however it is
//! encoded.

/// An item as its value. Widths and indefinite lengths are not there any more, and a float has no
/// width.
#[derive(Drop)]
pub enum Datum {
    /// An unsigned integer.
    Unsigned(u64),
    /// The negative integer `-1 - n`.
    Negative(u64),
    /// A float of any width.
    Float(f64),
    /// A simple value.
    Simple(u8),
    /// The content of a byte string.
    Bytes(Vec<u8>),
    /// The content of a text string.
    Text(String),
    /// The members of an array.
    Array(Vec<Datum>),
    /// The keys and values of a map, in the order in which groups take them.
    Map(Vec<(Datum, Datum)>),
    /// The number of a tag, and what is below it.
    Tag(u64, Box<Datum>),
}
