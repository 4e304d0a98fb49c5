//! `Compared`: the items of an input that `--diff` compares, or the parts of them that the path
//! leads to. `Noted`: one of them with its names.

use crate::encoded::inside_of;
use crate::part::PartOf;
use cbor_diff::{Member, Side};
use cbor_inspect::Naming;
use cbor_names::Notes;
use cbor_notes::Note;
use cborcat_arguments::Job;
use std::alloc::{AllocError, Global};

/// A part of an item that is compared.
#[derive(Drop)]
struct ComparedPart<'a> {
    /// How many items of the input come before its item.
    number: usize,
    /// The path to it.
    path: String,
    naming: Option<Naming<'a>>,
}

/// What is compared of an input.
#[derive(Drop)]
pub struct Compared<'a> {
    /// The items, or the parts one after the other.
    pub bytes: Vec<u8>,
    /// The parts; empty if whole items are compared.
    parts: Vec<ComparedPart<'a>>,
    /// The names of whole items, if names are shown.
    tables: Option<Naming<'a>>,
}

impl<'a> Compared<'a> {
    /// All of these items, with these names if names are shown.
    pub fn new(bytes: Vec<u8>, job: &Job<'_>, tables: Option<Naming<'a>>) -> Compared<'a> {
        let alloc = *bytes.allocator();
        let is_named = job.shows_names();
        Compared {
            bytes,
            parts: Vec::new(alloc),
            tables: if is_named { tables } else { None },
        }
    }

    /// Adds a part of the item with a number.
    pub fn push(
        &mut self,
        part: PartOf<'a, '_>,
        number: usize,
        path: String,
    ) -> Result<(), AllocError> {
        self.bytes.extend_from_slice(part.piece().bytes)?;
        let naming = match self.tables {
            Some(_) => part.naming,
            None => None,
        };
        self.parts.push(ComparedPart {
            number,
            path,
            naming,
        })?;
        Ok(())
    }

    /// The notes of a part, if it may have some.
    pub(crate) fn notes_of(
        &self,
        alloc: Global,
        member: Option<Member>,
    ) -> Result<Option<Notes<'a>>, AllocError> {
        let Some(member) = member else {
            return Ok(None);
        };
        let naming = match self.parts.get(member.index) {
            Some(part) => part.naming,
            None => self.tables,
        };
        let bytes = member.span.bytes(&self.bytes);
        match naming {
            Some(naming) if naming.may_name(bytes) => Ok(Some(naming.notes(alloc, bytes)?)),
            _ => Ok(None),
        }
    }

    /// A part with these notes, if it has some; no bytes if there is no part.
    pub(crate) fn noted<'b>(
        &'b self,
        member: Option<Member>,
        found: &'b Option<Notes<'_>>,
    ) -> Result<Noted<'b>, AllocError> {
        let alloc = *self.bytes.allocator();
        let notes = match found {
            Some(notes) => notes.list(alloc)?,
            None => Vec::new(alloc),
        };
        let mut encoded = Vec::new(alloc);
        for note in &notes {
            if note.encoded {
                encoded.push(note.start)?;
            }
        }
        let (number, path) = match member {
            Some(member) => self.place_of(member),
            None => (0, ""),
        };
        Ok(Noted {
            bytes: member.map_or(b"", |member| member.span.bytes(&self.bytes)),
            number,
            path,
            notes,
            encoded,
        })
    }

    /// How many items of the input come before a part, and the path to it.
    fn place_of(&self, member: Member) -> (usize, &str) {
        match self.parts.get(member.index) {
            Some(part) => (part.number, part.path.as_str()),
            None => (member.index, ""),
        }
    }
}

/// An item that is compared, or a part of one, with its names.
#[derive(Drop)]
pub(crate) struct Noted<'b> {
    pub(crate) bytes: &'b [u8],
    /// How many items of the input come before its item.
    pub(crate) number: usize,
    /// The path to it in its item.
    pub(crate) path: &'b str,
    /// The names and meanings of all in it.
    pub(crate) notes: Vec<Note<'b>>,
    /// Where the byte strings begin that hold an item by their names.
    encoded: Vec<usize>,
}

impl Noted<'_> {
    /// What is known of it, to compare it.
    pub(crate) fn side(&self, job: &Job<'_>) -> Side<'_> {
        Side {
            opened: inside_of(job, &self.encoded),
            notes: &self.notes,
        }
    }
}
