//! `Expected`: what is known of an item before it is read: its name, its type, the tag around it
//! and the levels left. `Keys`: what is known of the keys of a map. Makes the `Expected` of a tag's
//! item, of a member or of the value of a key, and finds the type of the item in a byte string.

ghost use Rattle.std.specs.Prelude.{◌≡◌, ◌+◌, ◌<◌};

use crate::pairs::{Pairs, after_item};
use crate::scalar::Scalar;
use crate::table::{Inside, Names, PartRow, WhatRow};
use crate::way::Known;
use cbor_grammar::argument::Argument;
use cbor_grammar::level::DEEPEST;

/// What is known of an item before it is read.
#[derive(Clone, Copy)]
pub(crate) struct Expected<'a> {
    /// How many levels are left for it and the items in it.
    pub left: u8,
    /// How many bytes follow those that are read, up to the end of the outermost item's.
    pub behind: usize,
    /// Its name; empty for none.
    pub name: &'a str,
    pub what: WhatRow,
    /// The tag before it.
    pub tag: Option<u64>,
    /// The tag around that of the item, or of the array that it is a member of.
    pub around: Option<u64>,
    /// Whether a map in a byte string that may hold an item of a type is one.
    pub holds: bool,
}

/// The keys of a map, and the value of the one that some depend on.
#[derive(Clone, Copy)]
pub(crate) struct Keys<'a, 'b> {
    pub parts: &'a [PartRow],
    pub chosen: Option<Scalar<'b>>,
    /// What is known of the values of all other keys.
    pub each: WhatRow,
}

impl Names {
    /// The keys of a map, if this is known about it and its head is read already.
    pub(crate) fn keys<'a, 'b>(
        &'a self,
        what: WhatRow,
        count: Argument,
        bytes: &'b [u8],
    ) -> Keys<'a, 'b> {
        match self.inside(what) {
            Inside::Keys(parts, by) => Keys {
                parts,
                chosen: match by {
                    Some(key) => Pairs::new(count, bytes).value_of(self, key),
                    None => None,
                },
                each: WhatRow::Any,
            },
            Inside::EachValue(what) => Keys {
                parts: &[],
                chosen: None,
                each: what,
            },
            _ => Keys {
                parts: &[],
                chosen: None,
                each: WhatRow::Any,
            },
        }
    }

    /// What is known of the item that a byte string of this content holds.
    pub(crate) fn held(&self, expected: &Expected<'_>, content: &[u8]) -> Option<WhatRow> {
        match expected.what {
            WhatRow::Encoded(index) | WhatRow::Nested(index) if !content.is_empty() => {
                Some(WhatRow::Of(index))
            }
            WhatRow::Payload(index) => {
                let held = self.types.get(index)?;
                let below = held.tag.is_some() && held.tag == expected.around;
                let was_held = expected.holds && is_map(content);
                if below || was_held || self.has_signs(held, content) {
                    Some(WhatRow::Of(index))
                } else if self.says(content) && after_item(content) == Some(b"") {
                    Some(WhatRow::Any)
                } else {
                    None
                }
            }
            _ => None,
        }
    }
}

/// Whether bytes are a map.
fn is_map(bytes: &[u8]) -> bool {
    matches!(bytes, [0xa0..=0xbf, ..]) && after_item(bytes) == Some(b"")
}

impl<'a> Expected<'a> {
    /// That of an item that no other is around, or whose place is not looked at: it has this name,
    /// and this is known of it.
    pub(crate) fn outermost(name: &'a str, known: Known) -> Expected<'a>
        ensures { result.behind ≡ 0 }
    {
        Expected {
            left: DEEPEST,
            behind: 0,
            name,
            what: known.what,
            tag: known.tag,
            around: known.around,
            holds: known.holds,
        }
    }

    /// Whether an item without parts has no note there.
    #[inline(always)]
    pub(crate) fn says_nothing(&self) -> bool {
        self.name.is_empty() && matches!(self.what, WhatRow::Any)
    }

    /// That of an item in this one, if nothing is known about it.
    pub(crate) fn unknown(&self) -> Expected<'a>
        requires { 0 < self.now.left }
        ensures left { result.left + 1 ≡ self.now.left }
        ensures behind { result.behind ≡ self.now.behind }
    {
        Expected {
            left: self.left - 1,
            behind: self.behind,
            name: "",
            what: WhatRow::Any,
            tag: None,
            around: None,
            holds: self.holds,
        }
    }

    /// That of the item of a tag, if this is known about it.
    pub(crate) fn below(&self, tag: u64, what: WhatRow) -> Expected<'a>
        requires { 0 < self.now.left }
        ensures left { result.left + 1 ≡ self.now.left }
        ensures behind { result.behind ≡ self.now.behind }
    {
        Expected {
            what,
            tag: Some(tag),
            around: self.tag,
            ..self.unknown()
        }
    }

    /// That of the member at this index.
    pub(crate) fn member(&self, names: &'a Names, inside: Inside<'_>, index: usize) -> Expected<'a>
        requires { 0 < self.now.left }
        ensures left { result.left + 1 ≡ self.now.left }
        ensures behind { result.behind ≡ self.now.behind }
    {
        let (name, what) = match inside {
            Inside::Members(parts) => match parts.get(index) {
                Some(part) => (names.text(part.name), part.what),
                None => ("", WhatRow::Any),
            },
            Inside::Each(index) => ("", WhatRow::Of(index)),
            _ => ("", WhatRow::Any),
        };
        Expected {
            name,
            what,
            around: self.around,
            ..self.unknown()
        }
    }

    /// That of the value of a key; without a part, this is known about it.
    pub(crate) fn value(&self, part: Option<&PartRow>, otherwise: WhatRow) -> Expected<'a>
        requires { 0 < self.now.left }
        ensures left { result.left + 1 ≡ self.now.left }
        ensures behind { result.behind ≡ self.now.behind }
    {
        let what = match part {
            Some(part) => part.what,
            None => otherwise,
        };
        Expected {
            what,
            ..self.unknown()
        }
    }
}
