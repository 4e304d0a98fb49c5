//! `Open`: an item that is open while its parts are written to a page. Its call `step` returns the
//! step of a path that leads to the next part.

use crate::mark::Mark;

/// An item that others are in, whose closing token has not come.
#[derive(Clone, Copy)]
pub(crate) struct Open {
    /// Where its head is in the bytes.
    pub(crate) start: usize,
    pub(crate) kind: Mark,
    /// What closes it in the text.
    pub(crate) closer: &'static str,
    /// Whether a break closes it in the bytes.
    pub(crate) has_break: bool,
    /// How many members or pairs it has, if it is an array or a map.
    pub(crate) count: Option<u64>,
    /// What the next part is.
    pub(crate) next: Next,
}

/// What the next part of an open item is.
#[derive(Clone, Copy)]
pub(crate) enum Next {
    /// The member of an array with this index.
    Member(usize),
    /// A key of a map.
    Key,
    /// The value of the key that begins at this place.
    Value { key: usize },
    /// The item in a byte string, which is all of it.
    Inside,
    /// An item of several in a byte string, whose content begins at this place.
    OneInside { content: usize },
    /// A part without a step: the item below a tag, or a chunk.
    Plain,
}

/// The step to an item.
#[derive(Clone, Copy)]
pub(crate) enum Step {
    /// The path to a part, for the part itself.
    Given,
    /// To the outermost item with this number.
    Number(usize),
    Index(usize),
    /// To the value of the key between these places.
    Key { from: usize, to: usize },
    Inside,
    /// To the item at this byte of the content of a byte string.
    At(usize),
    /// It is a key itself.
    IsKey,
    /// None.
    Plain,
}

impl Open {
    /// The step to the next part, which begins at a place; the part after it is next then.
    pub(crate) fn step(&mut self, start: usize) -> Step {
        match self.next {
            Next::Member(index) => {
                self.next = Next::Member(index.saturating_add(1));
                Step::Index(index)
            }
            Next::Key => {
                self.next = Next::Value { key: start };
                Step::IsKey
            }
            Next::Value { key } => {
                self.next = Next::Key;
                Step::Key {
                    from: key,
                    to: start,
                }
            }
            Next::Inside => Step::Inside,
            Next::OneInside { content } => Step::At(start.saturating_sub(content)),
            Next::Plain => Step::Plain,
        }
    }
}
