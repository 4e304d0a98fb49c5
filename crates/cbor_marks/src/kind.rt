//! `Kind`: what a token of a text is, such as a key or a comment.

/// What a token is. A string and a number are tokens with the indicators of their widths.
#[derive(Clone, Copy, PartialEq, Eq, Debug)]
pub enum Kind {
    /// A key of a map that is a number or a string.
    Key,
    /// A text, with its quotes.
    Text,
    /// A byte string, with its quotes, or the digits of a dump.
    Bytes,
    /// A number, or a word such as `true`.
    Number,
    /// The number of a tag, without the parenthesis after it.
    Tag,
    /// A comment.
    Note,
    /// What is before the members of an item: `[`, `{_`, `<<` or `(_`.
    Opening,
    /// What is after the members of an item, or after the item below a tag.
    Closing,
    /// What is at fault, and a comment that says what is wrong with an item.
    Fault,
}

impl Kind {
    /// Whether a token of this kind is an item without members, which may be a key.
    pub(crate) fn may_be_key(self) -> bool {
        matches!(self, Kind::Text | Kind::Bytes | Kind::Number)
    }
}
