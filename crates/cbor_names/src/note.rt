//! `Notes`: the notes of an item, in order. A note is the name before an item in it and the meaning
//! after it, with its place. Finds the name before an item, and the names of the tags, members and
//! keys around a byte.

ghost use Rattle.std.specs.Prelude.{◌≡◌, ◌≤◌, ℕ, IfOk};
ghost use Rattle.cbor_names.specs.Order.{AreInOrder, RiseTo, len_of};

use crate::way::Known;
use cbor_notes::Note;
use std::alloc::{AllocError, Global};

/// The notes of an item, in the order of the items in it: each is at an item that begins behind the
/// one before.
#[derive(Drop)]
pub struct Notes<'a> {
    len: usize,
    /// What is known of the item.
    known: Known,
    found: Vec<Found<'a>>,
    /// The meanings that no table has, one after the other.
    made: String,
}

/// A note that was found.
#[derive(Clone, Copy)]
pub(crate) struct Found<'a> {
    /// How many bytes remain from the item on.
    at: usize,
    /// How many bytes remain after what has the name; of a key, that is its value, too.
    until: usize,
    before: &'a str,
    after: After<'a>,
    encoded: bool,
}

/// A meaning.
#[derive(Clone, Copy)]
enum After<'a> {
    /// That of a table; empty for none.
    Text(&'a str),
    /// The part of `made` between these places.
    Made(usize, usize),
}

impl<'a> Found<'a> {
    /// A note of an item's name.
    pub(crate) fn new(at: usize, before: &'a str) -> Found<'a> {
        Found {
            at,
            until: 0,
            before,
            after: After::Text(""),
            encoded: false,
        }
    }

    /// With a meaning.
    pub(crate) fn meaning(self, text: &'a str) -> Found<'a> {
        Found {
            after: After::Text(text),
            ..self
        }
    }

    /// Of a byte string that may hold an item.
    pub(crate) fn encoded(self, encoded: bool) -> Found<'a> {
        Found { encoded, ..self }
    }

    /// Whether it says nothing.
    #[inline(always)]
    fn is_empty(&self) -> bool {
        match self.after {
            After::Text(text) => self.before.is_empty() && text.is_empty() && !self.encoded,
            After::Made(..) => false,
        }
    }

    /// With a name if it has none.
    pub(crate) fn or_name(self, name: &'a str) -> Found<'a> {
        if self.before.is_empty() {
            Found {
                before: name,
                ..self
            }
        } else {
            self
        }
    }
}

/// Appends a note that is behind those before it, and returns the first place that the next one may
/// have.
fn push_next<'a>(list: &mut Vec<Note<'a>>, from: usize, note: Note<'a>) -> Result<usize, AllocError>
    ensures { (len first : ℕ) → note.entry.start ≤ len → RiseTo len first list.old.items from
        → IfOk result (λ next. RiseTo len first list.new.items next) }
{
    if note.start < from || note.start == usize::MAX {
        return Ok(from);
    }
    list.push(note)?;
    Ok(note.start + 1)
}

impl<'a> Notes<'a> {
    /// No notes of no bytes. This is known of the item.
    pub(crate) fn new(alloc: Global, known: Known) -> Notes<'a> {
        Notes {
            len: 0,
            known,
            found: Vec::new(alloc),
            made: String::new(alloc),
        }
    }

    /// The same of that many bytes.
    pub(crate) fn within(self, len: usize) -> Notes<'a>
        ensures { len_of result ≡ len }
    {
        Notes { len, ..self }
    }

    /// Records that a byte string holds an item of the type that it may hold.
    pub(crate) fn holds(&mut self) {
        self.known.holds = true;
    }

    /// Returns what is known of the item, as what is in it tells, if anything is. It still has
    /// these names after a change of what told it.
    pub fn known(&self) -> Option<Known> {
        if self.known.is_nothing() {
            None
        } else {
            Some(self.known)
        }
    }

    /// How many there are.
    pub fn len(&self) -> usize {
        self.found.len()
    }

    /// Whether there are none.
    pub fn is_empty(&self) -> bool {
        self.found.is_empty()
    }

    /// The last one, if it says something.
    #[inline(always)]
    pub(crate) fn push(&mut self, found: Found<'a>) -> Result<(), AllocError> {
        if !found.is_empty() {
            self.found.push(found)?;
        }
        Ok(())
    }

    /// What has the name of the note at `index` ends here, if that is the note of the item at `at`.
    pub(crate) fn end(&mut self, index: usize, at: usize, until: usize) {
        if let Some(found) = self.found.get_mut(index) {
            if found.at == at {
                found.until = until;
            }
        }
    }

    /// The note with this as its meaning, if it is some.
    pub(crate) fn meaning(
        &mut self,
        found: Found<'a>,
        text: &Option<String>,
    ) -> Result<Found<'a>, AllocError> {
        let Some(text) = text else {
            return Ok(found);
        };
        let start = self.made.len();
        self.made.push_str(text)?;
        let after = After::Made(start, self.made.len());
        Ok(Found { after, ..found })
    }

    /// The text of a meaning.
    fn text(&self, after: After<'a>) -> &str {
        match after {
            After::Text(text) => text,
            After::Made(start, end) => self.made.as_str().get(start..end).unwrap_or(""),
        }
    }

    /// The notes, as a writer takes them. A note that is not behind the one before it would be left
    /// out; there is none.
    pub fn list(&self, alloc: Global) -> Result<Vec<Note<'_>>, AllocError>
        ensures in_order { IfOk result (λ v. AreInOrder (len_of self.now) v.items) }
    {
        let mut list = Vec::with_capacity(alloc, self.found.len())?;
        let mut from = 0;
        for found in &self.found {
            from = push_next(&mut list, from, self.note(found))?;
        }
        Ok(list)
    }

    /// What is written of a note that was found.
    fn note(&self, found: &Found<'a>) -> Note<'_>
        ensures { result.start ≤ len_of self.now }
    {
        Note {
            start: self.len.saturating_sub(found.at),
            before: found.before,
            after: self.text(found.after),
            encoded: found.encoded,
        }
    }

    /// The name before the item that begins with the byte at `place`, if it has one.
    pub fn name_before(&self, place: usize) -> Option<&'a str> {
        let at = self.len.saturating_sub(place);
        for found in &self.found {
            if found.at == at && !found.before.is_empty() {
                return Some(found.before);
            }
        }
        None
    }

    /// The names of all that the byte at `place` belongs to, the outermost first: the tags, members
    /// and keys from the outermost item to it.
    pub fn names_at(&self, alloc: Global, place: usize) -> Result<Vec<&'a str>, AllocError> {
        let at = self.len.saturating_sub(place);
        let mut names = Vec::new(alloc);
        for found in &self.found {
            if at <= found.at && found.until < at && !found.before.is_empty() {
                names.push(found.before)?;
            }
        }
        Ok(names)
    }
}
