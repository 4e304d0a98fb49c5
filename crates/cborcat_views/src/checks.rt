//! `Checks`: checks the parts of an item that a path leads to, by RFC 8949 and by the rules of
//! `--check`.

use crate::item::{NotShown, ShowsItem};
use crate::part::parts_in;
use cbor_grammar::Error;
use cbor_inspect::{Naming, two_byte_simple};
use cbor_messages::{Message, TWO_BYTES, first_violation};
use cbor_places::Piece;
use cborcat_arguments::Job;

/// How the parts of the items of an input are checked.
#[derive(Clone, Copy)]
pub struct Checks<'a> {
    pub(crate) rt: &'a HostRuntime,
    pub(crate) job: &'a Job<'a>,
    /// The names that the path may have.
    pub(crate) tables: Option<Naming<'a>>,
}

impl ShowsItem for Checks<'_> {
    /// Writes nothing. What a part breaks first is why it is not shown.
    fn show_one(
        &self,
        item: Piece,
        _out: &mut Vec<u8>,
        not_shown: &mut Vec<NotShown>,
    ) -> Result<(), Error> {
        let parts = parts_in(self.rt.alloc(), (self.job, self.tables), item)?;
        if parts.is_empty() {
            not_shown.push(NotShown::Lost)?;
        }
        for part in &parts {
            if let Some(message) = self.fault_in(part.piece())? {
                not_shown.push(part.refused(message))?;
                break;
            }
        }
        Ok(())
    }
}

impl Checks<'_> {
    /// What is wrong with a part first, if anything is.
    fn fault_in(self, part: Piece) -> Result<Option<Message>, Error> {
        let alloc = self.rt.alloc();
        if let Some(at) = two_byte_simple(part.bytes) {
            let text = String::from_str(alloc, TWO_BYTES)?;
            return Ok(Some(Message::new(alloc, at.saturating_add(1), text)));
        }
        match self.job.rules {
            Some(set) => first_violation(alloc, set, part),
            None => Ok(None),
        }
    }
}
