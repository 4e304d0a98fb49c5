//! `Each`: shows the items of a stream one by one, and says which of them, or of their parts, are
//! not shown, and why.

use cbor_grammar::Error;
use cbor_inspect::{End, Naming, Stream};
use cbor_places::Piece;
use cborcat_arguments::Job;
use cborcat_messages::{Origin, Status, report_byte, report_lost, report_message};
use cborcat_views::{NotShown, ShowsItem};

/// How many bytes are made before they are written.
const BLOCK: usize = 64 * 1024;

/// What is said of a content that no terminal is given.
const NO_TERMINAL: &str =
    "only a text without hidden characters is written to a terminal; use -o FILE or a pipe";

/// How items are shown one by one.
#[derive(Clone, Copy)]
pub struct Each<'a> {
    pub rt: &'a HostRuntime,
    pub job: &'a Job<'a>,
    pub origin: &'a Origin<'a>,
    /// The names that the path may have.
    pub tables: Option<Naming<'a>>,
    /// How many bytes of the data came. The bytes of the stream are the last of these.
    pub came: usize,
    /// Whether to stop after an item.
    pub one: bool,
}

impl Each<'_> {
    /// Shows the next items, and tells what follows them, and how it went.
    pub fn show<S: ShowsItem>(
        self,
        shows: &S,
        stream: &mut Stream,
        out: &mut Vec<u8>,
    ) -> (End, Status) {
        let mut status = Status::Fine;
        for _ in 0..u64::MAX {
            let before = stream.rest().len();
            let end = stream.skip(true);
            if end != End::Full {
                return (end, status);
            }
            let item = Piece {
                bytes: stream.passed(before.saturating_sub(stream.rest().len())),
                begins: self.came.saturating_sub(before),
            };
            match self.show_one(shows, item, out) {
                Ok(how) => status = status.or(how),
                Err(_) => return (End::Memory, status),
            }
            if self.one || out.len() >= BLOCK {
                break;
            }
        }
        (End::Full, status)
    }

    /// Shows an item, or says why it or a part of it is not shown.
    fn show_one<S: ShowsItem>(
        self,
        shows: &S,
        item: Piece,
        out: &mut Vec<u8>,
    ) -> Result<Status, Error> {
        let mut not_shown = Vec::new(self.rt.alloc());
        let shown = shows.show_one(item, out, &mut not_shown);
        let mut status = Status::Fine;
        for why in &not_shown {
            status = status.or(self.report(item, why)?);
        }
        shown?;
        Ok(status)
    }

    /// Says why an item, or a part of it, is not shown.
    fn report(self, item: Piece, why: &NotShown) -> Result<Status, Error> {
        let asked = (self.job, self.tables);
        match why {
            NotShown::Lost => Ok(report_lost(self.rt, asked, self.origin, item.bytes)),
            NotShown::Refused(message) => {
                report_message(self.rt, self.origin, item, message)?;
                Ok(Status::Bad)
            }
            NotShown::NoTerminal(place) => {
                report_byte(self.rt, self.origin, item, (*place, NO_TERMINAL))?;
                Ok(Status::Trouble)
            }
        }
    }
}
