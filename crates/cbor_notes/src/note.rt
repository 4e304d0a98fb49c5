//! `Note`: what is written before and after an item, with the place of the item, and whether a byte
//! string is shown as the item in it.

/// What is written beside an item: its name before it, what it means after it.
///
/// The notes of an item and of the items in it are in the order in which these begin.
#[derive(Clone, Copy, PartialEq, Eq, Debug)]
pub struct Note<'a> {
    /// Where the item begins in the outermost bytes. An item in a byte string has its place in
    /// these, too.
    pub start: usize,
    /// What is written before the item. An empty text writes nothing.
    pub before: &'a str,
    /// What is written after the item. An empty text writes nothing.
    pub after: &'a str,
    /// Whether it is a byte string that is shown as the array, the map or the tagged item in it.
    pub encoded: bool,
}
