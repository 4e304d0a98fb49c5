//! `Naming`: the tables that give items their names in a viewer, and what is known of the outermost
//! item. It returns the names of an item as notes, finds what is known of its parts, and finds
//! quickly whether items can have names at all.

use crate::picture::NamedPart;
use cbor_names::{Known, Names, Notes, Type, Way, notes_of};
use cbor_paths::{Found, bytes_from};
use std::alloc::{AllocError, Global};

/// The names that are shown in pretty EDN, if it has notes.
///
/// ```rust
/// use cbor_inspect::{Form, Naming, Show, show_items};
/// use cbor_names::{Definition, Key, Names, Part, Shape};
///
/// let mut names = Names::new(alloc);
/// let reading = Definition::new("Reading", Shape::Map);
/// names.add(reading, &[Part::new(Key::Integer(1), "sensor")])?;
/// let mut show = Show::new(Form::Pretty);
/// show.names = Some(Naming::new(&names, names.of("Reading")));
/// let mut out = Vec::new(alloc);
/// show_items(&show, b"\xa1\x01\x07", &mut out);
/// assert_eq!(rt; out.as_slice(), b"/Reading/ {/sensor/ 1: 7}\n".as_slice());
/// ```
#[derive(Clone, Copy)]
pub struct Naming<'a> {
    /// The tables.
    pub names: &'a Names,
    /// What is known of what is shown, the whole item or its part. `None`: its tags tell.
    pub known: Option<Known>,
    /// What was known of the whole item before it was changed, if nothing else is known of it.
    pub before: Option<Known>,
}

/// How many bytes are looked through at once.
const BLOCK: usize = 64 * 1024;

/// An item with a mark at most this far from its first byte is looked through for names before it
/// is written, and another one after it was.
const NEAR: usize = 128;

impl<'a> Naming<'a> {
    /// The names of these tables; `outer` is the type of what is shown, the whole item or its part,
    /// if it is known.
    pub fn new(names: &'a Names, outer: Option<Type>) -> Naming<'a> {
        Naming {
            names,
            known: outer.map(Known::of),
            before: None,
        }
    }

    /// Returns the names of the same tables for a part that [`parts_of`](crate::parts_of) found: it
    /// has those that it has in its item, unless the type of what is shown was given.
    ///
    /// ```rust
    /// use cbor_inspect::{Form, Naming, Show, parts_of, show_items, steps_of};
    /// use cbor_names::known_names;
    ///
    /// let names = known_names(alloc)?;
    /// // 18([<<{1: -7}>>, {}, h'', h''])
    /// let item = b"\xd2\x84\x43\xa1\x01\x26\xa0\x40\x40";
    /// let steps = steps_of(alloc, "0/@")?;
    /// let mut show = Show::new(Form::Pretty);
    /// show.names = Some(Naming::new(&names, None));
    /// show.steps = &steps;
    /// let parts = parts_of(alloc, &show, item)?;
    /// let mut out = Vec::new(alloc);
    /// for part in &parts {
    ///     show_items(&show.of_part(part), part.span.bytes(item), &mut out);
    /// }
    /// assert_eq!(rt; out.as_slice(), b"{/alg/ 1: -7 /ES256/}\n".as_slice());
    /// ```
    pub fn of_part(self, part: &NamedPart) -> Naming<'a> {
        match self.known {
            Some(_) => self,
            None => Naming {
                known: part.known,
                before: None,
                ..self
            },
        }
    }

    /// The parts that were found in an item, in order, each with what is known of it.
    pub(crate) fn parts(
        self,
        alloc: Global,
        item: &[u8],
        found: &[Found],
    ) -> Result<Vec<NamedPart>, AllocError> {
        let is_known = self.is_known(item);
        let mut parts = Vec::with_capacity(alloc, found.len())?;
        let mut start = 0;
        let mut way = match self.before {
            Some(known) => Way::of(alloc, self.names, item, known)?,
            None => Way::new(alloc, self.names, item)?,
        };
        for part in found {
            let mut known = None;
            if let Some(around) = self.first_around(part, is_known) {
                if around != start {
                    start = around;
                    way = Way::new(alloc, self.names, bytes_from(item, start))?;
                }
                known = way.known_at(part.span.start.saturating_sub(start))?;
            }
            parts.push(NamedPart {
                span: part.span,
                known,
            })?;
        }
        Ok(parts)
    }

    /// Whether an item is known without a tag.
    fn is_known(self, bytes: &[u8]) -> bool {
        self.before.is_some() || self.names.knows(bytes)
    }

    /// Where what is around a part begins to tell what the part is, if anything does: at the item
    /// that is known, or else at a tag.
    fn first_around(self, part: &Found, is_known: bool) -> Option<usize> {
        match self.known {
            Some(_) => None,
            None if is_known => Some(0),
            None => part.tag,
        }
    }

    /// Whether items of these bytes may have names: their type is known, or they have a tag that
    /// gives some.
    pub fn may_name(self, bytes: &[u8]) -> bool {
        self.known.is_some() || self.is_known(bytes) || self.is_marked(bytes)
    }

    /// How many bytes of items there are before the first mark, as far as they are looked through.
    pub(crate) fn clear(self, bytes: &[u8]) -> usize {
        self.names.first_mark(bytes, BLOCK).at
    }

    /// Whether there is a mark in items.
    pub(crate) fn is_marked(self, bytes: &[u8]) -> bool {
        self.names.first_mark(bytes, bytes.len()).is_there
    }

    /// Whether an item is looked through before it is written, where the first `clear` bytes of it
    /// have no mark.
    pub(crate) fn is_near(self, bytes: &[u8], clear: usize) -> bool {
        self.known.is_some() || clear < NEAR || self.is_known(bytes)
    }

    /// Returns the notes of the item at the front.
    pub fn notes(self, alloc: Global, bytes: &[u8]) -> Result<Notes<'a>, AllocError> {
        notes_of(alloc, bytes, self.names, self.known.or(self.before))
    }
}
