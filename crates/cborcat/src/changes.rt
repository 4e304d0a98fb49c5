//! `Changes`: makes the changes of `--set` and `--delete` in the items of an input as they arrive,
//! before the items are shown or checked. An item in which a change cannot be made stays as it is,
//! and a message says why.

use cbor_edit::{Edit, EditError, NewKey, edited, maps_without};
use cbor_inspect::{End, Naming, Picture, Stream};
use cbor_names::{Known, NamedKey, OtherNames, Way};
use cborcat_arguments::{Change, Job, show_of};
use cborcat_messages::{Origin, Refused, Status, report_unchanged, report_undeleted};
use std::alloc::{AllocError, Global};

/// What changes items.
#[derive(Drop)]
pub struct Changes<'a> {
    rt: &'a HostRuntime,
    job: &'a Job<'a>,
    origin: &'a Origin<'a>,
    /// The names that the paths may have.
    tables: Option<Naming<'a>>,
    /// The bytes that came, but for those of the items that were changed.
    stream: Stream,
    /// How many items came.
    pub count: usize,
    /// How it went so far.
    pub status: Status,
    /// Whether no more items are changed, because no item follows.
    ended: bool,
    /// How each change went, in their order.
    tallies: Vec<Tally>,
    /// What was known of each item that is left, before it was changed.
    known: Vec<Option<Known>>,
}

/// How a change went in the items so far.
#[derive(Drop)]
struct Tally {
    /// Whether it was made in an item, or failed in one that has the part.
    is_met: bool,
    /// How many items have no such part.
    without: usize,
    /// What is said of the first of these.
    words: String,
}

impl<'a> Changes<'a> {
    /// What changes the items of an input, if the arguments ask for it.
    pub fn new(
        rt: &'a HostRuntime,
        job: &'a Job<'a>,
        origin: &'a Origin<'a>,
        tables: Option<Naming<'a>>,
    ) -> Changes<'a> {
        Changes {
            rt,
            job,
            origin,
            tables,
            stream: Stream::new(Vec::new(rt.alloc())),
            count: 0,
            status: Status::Fine,
            ended: false,
            tallies: Vec::new(rt.alloc()),
            known: Vec::new(rt.alloc()),
        }
    }

    /// Whether changes are asked for.
    pub fn are_asked(&self) -> bool {
        !self.job.changes.is_empty()
    }

    /// Takes the next bytes, and returns the changed ones of the items that are whole, and at the
    /// end of the input those that are left. After bytes that are no item, or one that is longer
    /// than is allowed, all bytes are the same.
    pub fn take(&mut self, bytes: &[u8], at_end: bool) -> Result<Vec<u8>, AllocError> {
        let alloc = self.rt.alloc();
        let mut out = Vec::new(alloc);
        if self.ended {
            out.extend_from_slice(bytes)?;
            return Ok(out);
        }
        self.stream.push(alloc, bytes)?;
        for _ in 0..u64::MAX {
            let before = self.stream.rest().len();
            let end = self.stream.skip(true);
            if end != End::Full {
                let is_cut = matches!(end, End::Done | End::Cut);
                let is_long = self.stream.rest().len() > self.job.limit;
                self.ended = !is_cut || is_long || at_end;
                break;
            }
            let len = before.saturating_sub(self.stream.rest().len());
            let item = Vec::from_slice(alloc, self.stream.passed(len))?;
            out.extend_from_slice(&self.changed(item)?)?;
            self.count = self.count.saturating_add(1);
        }
        if self.ended {
            out.extend_from_slice(self.stream.rest())?;
        }
        Ok(out)
    }

    /// The next item with each change that can be made in it; nothing is left of one that is deleted.
    fn changed(&mut self, item: Vec<u8>) -> Result<Vec<u8>, AllocError> {
        let mut bytes = item;
        let job = self.job;
        let naming = self.naming_before(&bytes)?;
        for (index, change) in job.changes.iter().enumerate() {
            if change.item.is_some() && change.item != Some(self.count) || bytes.is_empty() {
                continue;
            }
            match self.with((change, naming), &bytes)? {
                Ok(next) => {
                    self.tally(index)?.is_met = true;
                    bytes = next;
                }
                Err(refused) => self.note_refused((index, change), &bytes, &refused)?,
            }
        }
        if !bytes.is_empty() {
            let known = match naming {
                Some(naming) => naming.before,
                None => None,
            };
            self.known.push(known)?;
        }
        Ok(bytes)
    }

    /// The names, with what is known of an item before it is changed: it still has these names when
    /// a change took away what it was known by.
    fn naming_before(&self, item: &[u8]) -> Result<Option<Naming<'a>>, AllocError> {
        match self.tables {
            Some(naming) if naming.known.is_none() && naming.may_name(item) => {
                let before = naming.notes(self.rt.alloc(), item)?.known();
                Ok(Some(Naming { before, ..naming }))
            }
            tables => Ok(tables),
        }
    }

    /// The names of the changed item of this number.
    pub fn naming_of(&self, index: usize) -> Option<Naming<'a>> {
        let naming = self.tables?;
        let before = match self.known.get(index) {
            Some(known) => *known,
            None => None,
        };
        Some(Naming { before, ..naming })
    }

    /// How the change of this number went so far.
    fn tally(&mut self, index: usize) -> Result<&mut Tally, AllocError> {
        let alloc = self.rt.alloc();
        for _ in self.tallies.len()..=index {
            self.tallies.push(Tally {
                is_met: false,
                without: 0,
                words: String::new(alloc),
            })?;
        }
        self.tallies.get_mut(index).ok_or(AllocError)
    }

    /// Records that an item does not get a change. Says why, unless it lacks what is deleted: other
    /// items may have that.
    fn note_refused(
        &mut self,
        change: (usize, &Change),
        item: &[u8],
        refused: &Refused,
    ) -> Result<(), AllocError> {
        let (index, change) = change;
        let alloc = self.rt.alloc();
        let asked = (self.job, self.tables);
        let is_deleted = change.part.is_none() && refused.is_lost();
        let tally = self.tally(index)?;
        if is_deleted {
            tally.without = tally.without.saturating_add(1);
            if tally.is_met || tally.without > 1 {
                return Ok(());
            }
        }
        let words = refused.words(alloc, asked, change, item);
        if is_deleted && let Ok(words) = words {
            self.tally(index)?.words = words;
            return Ok(());
        }
        self.tally(index)?.is_met = true;
        let status = report_unchanged(self.rt, self.origin, self.count, words);
        self.status = self.status.or(status);
        Ok(())
    }

    /// Says which parts were to be deleted that no item had.
    pub fn report(&self) -> Status {
        let mut status = self.status;
        for (change, tally) in self.job.changes.iter().zip(self.tallies.iter()) {
            if !tally.is_met && tally.without > 0 {
                let without = (tally.without, tally.words.as_str());
                let said = report_undeleted(self.rt, self.origin, change.path, without);
                status = status.or(said);
            }
        }
        status
    }

    /// An item with a change, or why it does not get it.
    fn with(
        &self,
        change: (&Change, Option<Naming<'a>>),
        item: &[u8],
    ) -> Result<Result<Vec<u8>, Refused<'a>>, AllocError> {
        let (change, tables) = change;
        let alloc = self.rt.alloc();
        let part = change.part.as_deref();
        if change.steps.is_empty() {
            return Ok(Ok(Vec::from_slice(alloc, part.unwrap_or(b""))?));
        }
        let plain = show_of(self.job, tables).picture();
        let edit = Edit {
            steps: &change.steps,
            part,
            keys: &[],
        };
        match tables {
            Some(naming) if naming.may_name(item) => {
                let names = naming.notes(alloc, item)?;
                let notes = names.list(alloc)?;
                let named = Picture {
                    notes: &notes,
                    ..plain
                };
                match self.new_keys(naming, change, (item, named))? {
                    Ok(keys) => with_edit(
                        alloc,
                        item,
                        Edit {
                            keys: &keys,
                            ..edit
                        },
                        named,
                    ),
                    Err(others) => Ok(Err(Refused::Unnamed(others))),
                }
            }
            _ => with_edit(alloc, item, edit, plain),
        }
    }

    /// The keys that the last word of a path stands for in the maps that get one; or the names of
    /// such a map, if it has no such name.
    fn new_keys(
        &self,
        naming: Naming<'a>,
        change: &Change,
        shown: (&[u8], Picture),
    ) -> Result<Result<Vec<NewKey>, OtherNames<'a>>, AllocError> {
        let alloc = self.rt.alloc();
        let (item, picture) = shown;
        let mut keys = Vec::new(alloc);
        let (Some(word), Some(_)) = (change.word, &change.part) else {
            return Ok(Ok(keys));
        };
        let mut way = match naming.known.or(naming.before) {
            Some(known) => Way::of(alloc, naming.names, item, known)?,
            None => Way::new(alloc, naming.names, item)?,
        };
        // Beside -p, the type of --as may be that of a part, and not that of the item.
        let is_sure = naming.known.is_none() || self.job.path.is_empty();
        for map in &maps_without(alloc, item, &change.steps, picture)? {
            let known = way.known_at(*map)?;
            let bytes = item.get(*map..).unwrap_or(b"");
            match naming.names.key_of(alloc, known, bytes, word)? {
                NamedKey::Unknown => {}
                NamedKey::Key(key) => keys.push(NewKey { map: *map, key })?,
                NamedKey::Other(others) => {
                    if is_sure {
                        return Ok(Err(others));
                    }
                }
            }
        }
        Ok(Ok(keys))
    }
}

/// An item that was edited, or why it is not.
fn with_edit<'a>(
    alloc: Global,
    item: &[u8],
    edit: Edit,
    picture: Picture,
) -> Result<Result<Vec<u8>, Refused<'a>>, AllocError> {
    match edited(alloc, item, edit, picture) {
        Ok(bytes) => Ok(Ok(bytes)),
        Err(EditError::Memory) => Err(AllocError),
        Err(error) => Ok(Err(Refused::Edit(error))),
    }
}
