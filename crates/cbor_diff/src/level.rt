//! `Level`: two containers that are compared with each other, as far as they were. `Side`: what is
//! known of the old or of the new item besides its bytes, and the step of a path to a member.

use crate::member::{Match, Member};
use cbor_bytes::write::push_head;
use cbor_grammar::IntegerWidth;
use cbor_grammar::head::ItemHead;
use cbor_grammar::layout::Content;
use cbor_grammar::major::Major;
use cbor_inside::{ByteString, Inside, content_after};
use cbor_notes::Note;
use cbor_paths::{Members, Picture, is_key};
use cbor_places::Path;
use cbor_trace::Span;
use std::alloc::AllocError;

/// What is known of an item besides its bytes.
#[derive(Clone, Copy)]
pub struct Side<'a> {
    /// The byte strings that are compared by the item in them.
    pub opened: Inside<'a>,
    /// The names of its parts, in the order of their places.
    pub notes: &'a [Note<'a>],
}

/// What two containers are.
#[derive(Clone, Copy, PartialEq, Eq)]
pub(crate) enum Kind {
    /// Two arrays.
    Arrays,
    /// Two maps, whose values are matched by their keys.
    Maps,
    /// Two byte strings, each with an item.
    Strings,
}

/// Two containers, as far as they were compared.
#[derive(Drop)]
pub(crate) struct Level {
    pub kind: Kind,
    /// Which of their members are compared.
    pub members: Vec<Match>,
    /// Where each is, with its tags.
    pub spans: (Span, Span),
    /// Where the head of each begins, below its tags.
    pub starts: (usize, usize),
    /// How many members were passed.
    pub passed: usize,
    /// How long the paths to both are.
    pub path_lens: (usize, usize),
    /// How many differences were found before it.
    pub found: usize,
    /// The level of the items in it.
    pub depth: u8,
}

impl Level {
    /// What comes next, if anything does.
    pub(crate) fn next(&mut self) -> Option<Match> {
        let next = self.members.get(self.passed).copied();
        self.passed = self.passed.saturating_add(1);
        next
    }
}

/// In a container of more members no name is a step: it takes too long to see that it is alone.
const MOST_NAMED: usize = 256;

impl Side<'_> {
    /// Only the byte strings below tag 24 are open, and there are no names.
    pub const PLAIN: Side<'static> = Side {
        opened: Inside::TAGGED,
        notes: &[],
    };

    /// Where the item begins that a byte string holds, if it is compared by that. What is given is
    /// its head, with the places where that begins and ends, the tag right above it, and its level.
    pub(crate) fn item_in(
        self,
        bytes: &[u8],
        head: (ItemHead, usize, usize),
        around: (Option<u64>, u8),
    ) -> Option<usize> {
        let (head, start, begins) = head;
        let (tag, level) = around;
        let content = content_after(head, bytes.get(begins..)?)?;
        match self
            .opened
            .content(ByteString { start, level, tag }, content)
        {
            Content::Item => Some(begins),
            _ => None,
        }
    }

    /// Whether a byte string is open because its name says so. Its path needs no `@` then.
    pub(crate) fn is_named_item(self, start: usize) -> bool {
        let found = self.notes.binary_search_by(|note| note.start.cmp(&start));
        match found {
            Ok(index) => self.notes.get(index).is_some_and(|note| note.encoded),
            Err(_) => false,
        }
    }

    /// The name before what begins at a place; empty for none.
    fn name_at(&self, place: usize) -> &str {
        let picture = Picture {
            notes: self.notes,
            ..Picture::plain()
        };
        picture.name_at(place)
    }

    /// Appends the step to a member of the container that begins at a place, and returns whether
    /// that is its name.
    pub(crate) fn push_step(
        self,
        path: &mut Path,
        bytes: &[u8],
        container: (Kind, usize),
        member: Member,
    ) -> Result<bool, AllocError> {
        let (kind, start) = container;
        let name = self.name_at(member.named);
        if kind != Kind::Strings && !name.is_empty() {
            let mut key = Vec::new(path.allocator());
            let len = name.len() as u64;
            push_head(&mut key, Major::Text, len, IntegerWidth::Unknown)?;
            key.extend_from_slice(name.as_bytes())?;
            if self.leads(bytes, start, member, (name, &key)) {
                path.push_key(&key, member.named)?;
                return Ok(true);
            }
        }
        match kind {
            Kind::Arrays => path.push_index(member.index)?,
            Kind::Maps => path.push_key(member.key(bytes), member.named)?,
            Kind::Strings => path.push_inside(None)?,
        }
        Ok(false)
    }

    /// Whether a name leads to a member of the container that begins at a place: no other member
    /// has it, neither as its name nor as its key.
    fn leads(self, bytes: &[u8], start: usize, member: Member, word: (&str, &[u8])) -> bool {
        let (name, text) = word;
        let Some(mut members) = Members::of(bytes, start) else {
            return false;
        };
        for _ in 0..MOST_NAMED {
            let Some(at) = members.next(bytes) else {
                return true;
            };
            let key = bytes.get(at.named..at.start).unwrap_or(b"");
            let is_other = at.named != member.named && self.name_at(at.named) == name;
            if is_other || is_key(text, key) {
                return false;
            }
        }
        false
    }
}
