//! `Step`: one step of a path. It leads to the member at an index, to the value of a key, to each
//! member or value (`*`), or into a byte string (`@`).

/// A step of a path. Tags need no step.
#[derive(Drop)]
pub enum Step {
    /// To the item that a byte string of definite length is; below tag 63, to the first item in it.
    Inside,
    /// To the item that begins at this byte of a byte string of definite length, whatever bytes
    /// follow that item.
    InsideAt(usize),
    /// To each member of an array, or to the value of each key of a map, in order.
    Each,
    /// To the member of an array at this index, or to the value of this key in a map: of the first
    /// key that is the same but for the width of a number or of the length of a string. The bytes
    /// are those of the index or the key.
    Key(Vec<u8>),
}
