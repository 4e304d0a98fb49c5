//! `--encode`: re-encodes each item, or the parts that a path leads to, by rules before they are
//! shown, or says why one has no such encoding.

use crate::dumps::Dumps;
use crate::item::{NotShown, ShowsItem};
use crate::part::parts_in;
use cbor_grammar::Error;
use cbor_inspect::{End, Form, Naming, show_items};
use cbor_marks::Marks;
use cbor_messages::not_encoded;
use cbor_places::Piece;
use cbor_reencode::reencoded;
use cbor_rules::RuleSet;
use cborcat_arguments::{Job, show_of};

/// How the items of an input are encoded again.
#[derive(Clone, Copy)]
pub struct Encoding<'a> {
    pub(crate) rt: &'a HostRuntime,
    pub(crate) job: &'a Job<'a>,
    /// The rules that the items are to keep.
    pub(crate) set: RuleSet,
    /// The names that are shown.
    pub(crate) tables: Option<Naming<'a>>,
    /// Where the tokens of EDN are marked, if they are to be.
    pub(crate) marks: Option<&'a Marks>,
}

impl ShowsItem for Encoding<'_> {
    /// Encodes an item, or the parts of it that the path leads to, again and shows them.
    fn show_one(
        &self,
        item: Piece,
        out: &mut Vec<u8>,
        not_shown: &mut Vec<NotShown>,
    ) -> Result<(), Error> {
        let alloc = self.rt.alloc();
        let parts = parts_in(alloc, (self.job, self.tables), item)?;
        if parts.is_empty() {
            not_shown.push(NotShown::Lost)?;
        }
        for part in &parts {
            match reencoded(alloc, part.piece().bytes, self.set.rules) {
                Ok(again) => self.write(&again, part.naming, out)?,
                Err(error) => {
                    let message = not_encoded(alloc, self.set, part.piece(), error)?;
                    not_shown.push(part.refused(message))?;
                }
            }
        }
        Ok(())
    }
}

impl<'a> Encoding<'a> {
    /// Writes an item that was encoded again, and may have these names.
    fn write(self, item: &[u8], names: Option<Naming<'a>>, out: &mut Vec<u8>) -> Result<(), Error> {
        if self.job.show.style.form == Form::Hex {
            return Dumps::new(self.rt, self.job, self.tables).write(item, names, out);
        }
        let mut show = show_of(self.job, names);
        show.steps = &[];
        show.marks = self.marks;
        match show_items(&show, item, out).end {
            End::Memory => Err(Error::Memory),
            _ => Ok(()),
        }
    }
}
