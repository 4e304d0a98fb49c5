//! Says where a path leads nowhere in an item: that of `-p`, or that of a change. Says which items
//! do not get a change, and why.

use crate::lines::label;
use crate::origin::Origin;
use crate::status::Status;
use cbor_cddl::likeness;
use cbor_edit::EditError;
use cbor_grammar::Error;
use cbor_inspect::{Naming, Picture, Step};
use cbor_messages::lost_words;
use cbor_names::OtherNames;
use cborcat_arguments::{Change, Job, show_of};
use std::alloc::{AllocError, Global};
use std::fmt::Write;

/// What is said of an item in which a path leads nowhere, by what is shown of it.
fn words_of_lost(
    alloc: Global,
    asked: (&Job, Option<Naming<'_>>),
    path: (&str, &[Step]),
    bytes: &[u8],
) -> Result<String, Error> {
    let (job, tables) = asked;
    let plain = show_of(job, tables).picture();
    let naming = match tables {
        Some(naming) if naming.may_name(bytes) => naming,
        _ => return lost_words(alloc, path, bytes, plain),
    };
    let names = naming.notes(alloc, bytes)?;
    let notes = names.list(alloc)?;
    let picture = Picture {
        notes: &notes,
        ..plain
    };
    lost_words(alloc, path, bytes, picture)
}

/// Says where the path of an item leads nowhere, and what is there.
pub fn report_lost(
    rt: &HostRuntime,
    asked: (&Job, Option<Naming<'_>>),
    origin: &Origin,
    bytes: &[u8],
) -> Status {
    let (job, _) = asked;
    let name = label(origin.name);
    let path = (job.path, job.show.steps.as_slice());
    match words_of_lost(rt.alloc(), asked, path, bytes) {
        Ok(words) => {
            let _ = eprintln!(rt; "cborcat: {name}: {words}");
            Status::Bad
        }
        Err(error) => {
            let _ = eprintln!(rt; "cborcat: {name}: {error}");
            Status::Trouble
        }
    }
}

/// Why an item does not get a change.
#[derive(Drop)]
pub enum Refused<'a> {
    /// Its path leads nowhere, or the item would be nested too deep.
    Edit(EditError),
    /// Its path ends with a word that is no name of the map there, which has others.
    Unnamed(OtherNames<'a>),
}

impl Refused<'_> {
    /// Whether the item has no such part.
    pub fn is_lost(&self) -> bool {
        matches!(self, Refused::Edit(EditError::Lost))
    }

    /// What is said of the item.
    pub fn words(
        &self,
        alloc: Global,
        asked: (&Job, Option<Naming<'_>>),
        change: &Change,
        item: &[u8],
    ) -> Result<String, Error> {
        let path = (change.path, change.steps.as_slice());
        match self {
            Refused::Edit(EditError::Lost) => words_of_lost(alloc, asked, path, item),
            Refused::Edit(EditError::Memory) => Err(Error::Memory),
            Refused::Edit(EditError::NoItem) => {
                Ok(format!(in alloc; "{}: {}", change.path, Error::TooDeep)?)
            }
            Refused::Unnamed(others) => Ok(words_of_unnamed(alloc, change, others)?),
        }
    }
}

/// What is said of a word that is no key and no name of the map there.
fn words_of_unnamed(
    alloc: Global,
    change: &Change,
    others: &OtherNames,
) -> Result<String, AllocError> {
    let word = change.word.unwrap_or("");
    let mut said = format!(in alloc; "{}: no key and no name of {}; ", change.path, others.of)?;
    let mut least = usize::MAX;
    let mut nearest = None;
    for name in &others.names {
        if let Some(changed) = likeness(name.as_bytes(), word.as_bytes())
            && changed < least
        {
            least = changed;
            nearest = Some(*name);
        }
    }
    if let Some(name) = nearest {
        write!(said, "{name} is one; ")?;
    }
    write!(said, "\"{word}\" in quotes adds the text")?;
    Ok(said)
}

/// Says why an item of this number does not get a change, and that it stays as it is.
pub fn report_unchanged(
    rt: &HostRuntime,
    origin: &Origin,
    index: usize,
    said: Result<String, Error>,
) -> Status {
    let name = label(origin.name);
    match said {
        Ok(words) => {
            let _ = eprintln!(rt; "cborcat: {name}: {words}; item {index} stays as it is");
            Status::Bad
        }
        Err(error) => {
            let _ = eprintln!(rt; "cborcat: {name}: {error}");
            Status::Trouble
        }
    }
}

/// Says that no item had the part that was to be deleted: why, if that is one item.
pub fn report_undeleted(
    rt: &HostRuntime,
    origin: &Origin,
    path: &str,
    without: (usize, &str),
) -> Status {
    let name = label(origin.name);
    let (count, words) = without;
    if count == 1 {
        let _ = eprintln!(rt; "cborcat: {name}: {words}; nothing is deleted");
    } else {
        let _ = eprintln!(rt;
            "cborcat: {name}: {path}: none of the {count} items has such a part; nothing is deleted"
        );
    }
    Status::Bad
}
