//! `Way`: goes from an item to parts of it, one after the other, and finds what the tables know of
//! each. `Known`: what the tables know of an item before it is read.

ghost use Rattle.std.specs.Prelude.{◌<◌};

use crate::expected::{Expected, Keys};
use crate::note::Found;
use crate::pairs::{Pair, Pairs, after_item};
use crate::table::{Inside, Names, Type, WhatRow};
use cbor_bytes::head::read_head;
use cbor_bytes::strings::split_at;
use cbor_grammar::argument::Argument;
use cbor_grammar::head::ItemHead;
use cbor_grammar::level::DEEPEST;
use cbor_grammar::strings::StringKind;
use std::alloc::{AllocError, Global};

/// From one part to the next the way leaves an item or enters one at most this often.
const MOST: usize = 2 * DEEPEST as usize + 2;

/// What the tables know of an item before it is read.
#[derive(Clone, Copy)]
pub struct Known {
    /// The type whose name the item has if it has the shape.
    pub(crate) named: Option<Type>,
    pub(crate) what: WhatRow,
    /// The tag before it.
    pub(crate) tag: Option<u64>,
    /// The tag around that of the item, or of the array that it is a member of.
    pub(crate) around: Option<u64>,
    /// Whether a map in a byte string that may hold an item of a type is one: it was before a
    /// change.
    pub(crate) holds: bool,
}

impl Known {
    /// Returns that an item is of this type, whose name it has.
    pub fn of(outer: Type) -> Known {
        Known {
            named: Some(outer),
            ..Known::by_tables(outer.what())
        }
    }

    /// That an item is this, and nothing else is known.
    pub(crate) fn by_tables(what: WhatRow) -> Known {
        Known {
            named: None,
            what,
            tag: None,
            around: None,
            holds: false,
        }
    }

    /// Whether nothing is known.
    pub(crate) fn is_nothing(self) -> bool {
        self.named.is_none() && matches!(self.what, WhatRow::Any) && !self.holds
    }
}

/// The bytes of the item from a place on, up to another one.
#[derive(Clone, Copy)]
struct Front<'b> {
    bytes: &'b [u8],
    /// The place in the item where they end.
    limit: usize,
}

impl<'b> Front<'b> {
    /// The place in the item where they begin.
    fn start(self) -> usize {
        self.limit.saturating_sub(self.bytes.len())
    }

    /// Those at their end.
    fn at_end(self, rest: &'b [u8]) -> Front<'b> {
        Front {
            bytes: rest,
            ..self
        }
    }
}

/// An array's members from that at `index` on.
#[derive(Clone, Copy)]
struct Members<'b> {
    count: Argument,
    index: usize,
    front: Front<'b>,
}

impl<'b> Members<'b> {
    /// The members from that on in which a part is, and where it ends.
    fn toward(self, part: usize) -> Option<(Members<'b>, usize)> {
        let mut members = self;
        for _ in 0..self.front.bytes.len() {
            let bytes = members.front.bytes;
            if members.count.after_end(members.index, bytes).is_some() {
                return None;
            }
            let next = members.front.at_end(after_item(bytes)?);
            if part < next.start() {
                return Some((members, next.start()));
            }
            members = Members {
                index: members.index.saturating_add(1),
                front: next,
                ..members
            };
        }
        None
    }
}

/// The pairs from that on in which a part is, this pair, and where it ends. The pairs are in bytes
/// up to this limit.
fn pair_toward(
    pairs: Pairs<'_>,
    limit: usize,
    part: usize,
) -> Option<(Pairs<'_>, Pair<'_>, usize)> {
    let mut pairs = pairs;
    for _ in 0..limit {
        let mut next = pairs;
        let pair = next.next()?;
        let end = limit.saturating_sub(next.rest.len());
        if part < end {
            return Some((pairs, pair, end));
        }
        pairs = next;
    }
    None
}

/// The items right in an item.
#[derive(Clone, Copy)]
enum Inner<'a, 'b> {
    Nothing,
    /// The item of a tag, or that in a byte string.
    One(Expected<'a>, Front<'b>),
    Members(Inside<'a>, Members<'b>),
    /// Pairs in bytes up to this limit.
    Pairs(Keys<'a, 'b>, Pairs<'b>, usize),
}

impl<'a, 'b> Inner<'a, 'b> {
    /// Those in the item at the front.
    fn new(names: &'a Names, expected: &Expected<'a>, front: Front<'b>) -> Inner<'a, 'b> {
        if expected.left == 0 {
            return Inner::Nothing;
        }
        let Ok((head, rest)) = read_head(front.bytes) else {
            return Inner::Nothing;
        };
        let inner = front.at_end(rest);
        match head {
            ItemHead::Tag(tag, _) => {
                let (_, what) = names.below(tag, Found::new(0, ""), expected.what, rest);
                Inner::One(expected.below(tag, what), inner)
            }
            ItemHead::Array(count) => {
                let members = Members {
                    count,
                    index: 0,
                    front: inner,
                };
                Inner::Members(names.inside_array(expected.what, rest), members)
            }
            ItemHead::Map(count) => {
                let keys = names.keys(expected.what, count, rest);
                Inner::Pairs(keys, Pairs::new(count, rest), front.limit)
            }
            ItemHead::String(StringKind::Bytes, Argument::Number(len, _)) => {
                Inner::encoded(names, expected, inner, len)
            }
            _ => Inner::Nothing,
        }
    }

    /// The item that the content of a byte string holds. The content has this length and is at the
    /// front.
    fn encoded(
        names: &'a Names,
        expected: &Expected<'a>,
        front: Front<'b>,
        len: u64,
    ) -> Inner<'a, 'b>
        requires { 0 < expected.now.left }
    {
        let Ok((content, rest)) = split_at(front.bytes, len) else {
            return Inner::Nothing;
        };
        let what = match names.held(expected, content) {
            Some(what) => what,
            None if after_item(content) == Some(b"") => WhatRow::Any,
            None => return Inner::Nothing,
        };
        let inside = Expected {
            what,
            ..expected.unknown()
        };
        let limit = front.at_end(rest).start();
        Inner::One(
            inside,
            Front {
                bytes: content,
                limit,
            },
        )
    }
}

/// An item on the way.
#[derive(Clone, Copy)]
struct Around<'a, 'b> {
    expected: Expected<'a>,
    front: Front<'b>,
    /// Where it ends.
    end: usize,
    /// The items in it that are not passed yet, once the way has entered it.
    inner: Option<Inner<'a, 'b>>,
}

impl<'a, 'b> Around<'a, 'b> {
    /// What is known of it, if anything is.
    fn known(&self) -> Option<Known> {
        let known = Known {
            tag: self.expected.tag,
            around: self.expected.around,
            holds: self.expected.holds,
            ..Known::by_tables(self.expected.what)
        };
        if known.is_nothing() {
            None
        } else {
            Some(known)
        }
    }

    /// The item right in this one in which a part is, or which it is. Those before it are passed.
    fn toward(&mut self, names: &'a Names, part: usize) -> Option<Around<'a, 'b>> {
        if self.expected.left == 0 {
            return None;
        }
        let inner = match self.inner {
            Some(inner) => inner,
            None => Inner::new(names, &self.expected, self.front),
        };
        self.inner = Some(inner);
        let (expected, front, end) = match inner {
            Inner::Nothing => return None,
            Inner::One(expected, front) => (expected, front, self.end),
            Inner::Members(inside, members) => {
                let (members, end) = members.toward(part)?;
                self.inner = Some(Inner::Members(inside, members));
                let expected = self.expected.member(names, inside, members.index);
                (expected, members.front, end)
            }
            Inner::Pairs(keys, pairs, limit) => {
                let (pairs, pair, end) = pair_toward(pairs, limit, part)?;
                self.inner = Some(Inner::Pairs(keys, pairs, limit));
                let key = names.part_at(keys.parts, keys.chosen, pair.key);
                let expected = self.expected.value(key, keys.each);
                let bytes = pair.value;
                (expected, Front { bytes, limit }, end)
            }
        };
        Some(Around {
            expected,
            front,
            end,
            inner: None,
        })
    }
}

/// The way from an item to parts of it. It goes to one part after the other, in their order, and
/// keeps what the tables know of the items around the last one. So it does not begin anew for each.
#[derive(Drop)]
pub struct Way<'a, 'b> {
    names: &'a Names,
    /// The items around the last part, the outermost first.
    around: Vec<Around<'a, 'b>>,
}

impl<'a, 'b> Way<'a, 'b> {
    /// Returns the way from the item at the front. The only error is out of memory.
    pub fn new(
        alloc: Global,
        names: &'a Names,
        bytes: &'b [u8],
    ) -> Result<Way<'a, 'b>, AllocError> {
        Way::of(alloc, names, bytes, names.known_at(bytes))
    }

    /// Returns the way from the item at the front, if this is known of it. The only error is out of
    /// memory.
    pub fn of(
        alloc: Global,
        names: &'a Names,
        bytes: &'b [u8],
        known: Known,
    ) -> Result<Way<'a, 'b>, AllocError> {
        let limit = bytes.len();
        let outermost = Around {
            expected: Expected::outermost("", known),
            front: Front { bytes, limit },
            end: limit,
            inner: None,
        };
        let mut around = Vec::new(alloc);
        around.push(outermost)?;
        Ok(Way { names, around })
    }

    /// Returns what the tables know of the part that begins at this place: by the tags around it,
    /// by the keys and the indices that lead to it, and by the type of the item in a byte string.
    /// `None` if they know nothing, if no item begins there, or if it is before the last part. The
    /// only error is out of memory.
    ///
    /// ```rust
    /// use cbor_names::{Way, known_names, notes_of};
    ///
    /// let names = known_names(alloc)?;
    /// // 18([<<{1: -7}>>, {}, h'', h'']), whose part at 3 is {1: -7}
    /// let bytes = b"\xd2\x84\x43\xa1\x01\x26\xa0\x40\x40";
    /// let mut way = Way::new(alloc, &names, bytes)?;
    /// let notes = notes_of(alloc, &bytes[3..6], &names, way.known_at(3)?)?;
    /// let list = notes.list(alloc)?;
    /// assert_eq!(rt; list.len(), 2);
    /// assert_eq!(rt; (list[0].start, list[0].before), (1, "alg"));
    /// assert_eq!(rt; (list[1].start, list[1].after), (2, "ES256"));
    /// ```
    pub fn known_at(&mut self, part: usize) -> Result<Option<Known>, AllocError> {
        for _ in 0..MOST {
            let Some(top) = self.around.last_mut() else {
                return Ok(None);
            };
            if top.front.start() == part {
                return Ok(top.known());
            }
            if top.end <= part {
                self.around.pop();
                continue;
            }
            match top.toward(self.names, part) {
                Some(next) => self.around.push(next)?,
                None => return Ok(None),
            }
        }
        Ok(None)
    }
}
