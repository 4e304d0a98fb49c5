//! `JsonStyle`: whether byte strings are written as the item in them, and whether it is an error if
//! JSON does not keep something.

/// How JSON is written.
#[derive(Clone, Copy, PartialEq, Eq, Debug)]
pub struct JsonStyle {
    /// A byte string that is an array, a map or a tagged item is written as that item.
    pub embedded: bool,
    /// What JSON does not keep of an item is an error.
    pub strict: bool,
}

impl JsonStyle {
    /// Byte strings are written as digits, and what JSON does not keep is lost.
    pub const PLAIN: JsonStyle = JsonStyle {
        embedded: false,
        strict: false,
    };

    /// Items in byte strings are shown, and what JSON does not keep is lost.
    pub const EMBEDDED: JsonStyle = JsonStyle {
        embedded: true,
        strict: false,
    };

    /// Nothing is lost: what JSON does not keep is an error.
    pub const STRICT: JsonStyle = JsonStyle {
        embedded: false,
        strict: true,
    };
}
