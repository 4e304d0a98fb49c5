//! `DEEPEST`: the deepest level that an item may have, 128. The outermost item is at level 1.

/// The deepest level of an item; the outermost is at level 1.
pub const DEEPEST: u8 = 128;
