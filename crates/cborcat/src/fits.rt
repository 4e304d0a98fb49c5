//! Checks items by CDDL, or the parts of them that a path leads to, and says what is wrong with the
//! first that does not fit.

use crate::cddl::Cddl;
use cbor_bytes::{Extent, extent};
use cbor_cddl::Stop;
use cbor_grammar::Error;
use cbor_inspect::{Naming, Step, parts_of};
use cbor_places::Piece;
use cbor_schema::Misfit;
use cborcat_arguments::{Job, show_of};
use cborcat_messages::{Origin, Status, label, path_to, push_steps, report_lost, say_byte};
use std::alloc::AllocError;
use std::fmt::Write;

/// How the items of an input, or parts of them, are checked.
#[derive(Clone, Copy)]
pub struct Fits<'a> {
    pub rt: &'a HostRuntime,
    pub job: &'a Job<'a>,
    pub origin: &'a Origin<'a>,
    /// The names that the path may have.
    pub tables: Option<Naming<'a>>,
    /// What the items have to fit.
    pub cddl: &'a Cddl<'a>,
}

/// How the check of some items went.
#[derive(Clone, Copy)]
pub struct Checked {
    pub status: Status,
    /// How many items were checked.
    pub count: usize,
    /// Whether one did not fit, so that no other is checked.
    pub is_over: bool,
}

/// A part of an item that does not fit.
#[derive(Drop)]
struct Part {
    /// Where it begins in the item.
    start: usize,
    misfit: Misfit,
}

/// How an item fits.
#[derive(Drop)]
enum Answer {
    Fits,
    Misfit(Part),
    /// The path leads nowhere.
    Lost,
}

/// An item among others.
#[derive(Clone, Copy)]
struct Nth<'b> {
    /// All items that are checked.
    items: Piece<'b>,
    item: Piece<'b>,
    /// How many items of the data come before it.
    number: usize,
}

impl Fits<'_> {
    /// Checks whole items up to the first that does not fit. This many items of the data come
    /// before them.
    pub fn check(self, items: Piece, number: usize) -> Result<Checked, Error> {
        let mut checked = Checked {
            status: Status::Fine,
            count: 0,
            is_over: false,
        };
        let mut at = 0usize;
        for _ in 0..items.bytes.len() {
            let rest = items.bytes.get(at..).unwrap_or(b"");
            let Extent::Item(len) = extent(rest) else {
                break;
            };
            let nth = Nth {
                items,
                item: Piece {
                    begins: items.number(at),
                    bytes: rest.get(..len).unwrap_or(b""),
                },
                number: number.saturating_add(checked.count),
            };
            checked.count = checked.count.saturating_add(1);
            let (status, is_over) = self.check_item(nth)?;
            checked.status = checked.status.or(status);
            checked.is_over = is_over;
            if is_over {
                break;
            }
            at = at.saturating_add(len);
        }
        Ok(checked)
    }

    /// Checks an item, and says why it does not fit. Also returns whether no other is checked.
    fn check_item(self, nth: Nth<'_>) -> Result<(Status, bool), Error> {
        match self.answer(nth.item) {
            Ok(Answer::Fits) => Ok((Status::Fine, false)),
            Ok(Answer::Lost) => {
                let asked = (self.job, self.tables);
                let status = report_lost(self.rt, asked, self.origin, nth.item.bytes);
                Ok((status, false))
            }
            Ok(Answer::Misfit(part)) => {
                self.say(nth, &part)?;
                Ok((Status::Bad, true))
            }
            Err(Stop::Memory) => Err(Error::Memory),
            Err(stop) => {
                let name = label(self.origin.name);
                let _ = eprintln!(self.rt; "cborcat: {name}: --cddl: {stop}");
                Ok((Status::Trouble, true))
            }
        }
    }

    /// How an item fits, or each part of it that the path leads to.
    fn answer(self, item: Piece) -> Result<Answer, Stop> {
        let alloc = self.rt.alloc();
        let checker = &self.cddl.checker;
        if self.job.show.steps.is_empty() {
            return match checker.misfit(alloc, item)? {
                Some(misfit) => Ok(Answer::Misfit(Part { start: 0, misfit })),
                None => Ok(Answer::Fits),
            };
        }
        let show = show_of(self.job, self.tables);
        let parts = parts_of(alloc, &show, item.bytes)?;
        if parts.is_empty() {
            return Ok(Answer::Lost);
        }
        for part in &parts {
            let start = part.span.start;
            let piece = Piece {
                begins: item.number(start),
                bytes: part.span.bytes(item.bytes),
            };
            if let Some(misfit) = checker.misfit(alloc, piece)? {
                return Ok(Answer::Misfit(Part { start, misfit }));
            }
        }
        Ok(Answer::Fits)
    }

    /// Says why a part of an item does not fit.
    fn say(self, nth: Nth<'_>, part: &Part) -> Result<(), AllocError> {
        let alloc = self.rt.alloc();
        let misfit = &part.misfit;
        let mut text = String::new(alloc);
        let line = self.cddl.files.line(alloc, misfit.name_place)?;
        misfit.push_message(&mut text, &line)?;
        let mut in_item = String::new(alloc);
        let path = self.path(nth, part)?;
        if !path.is_empty() {
            write!(in_item, "at {path}")?;
        }
        if let Some(others) = &misfit.others {
            if !in_item.is_empty() {
                in_item.push_str("; ")?;
            }
            let line = self.cddl.files.line(alloc, others.name_place)?;
            others.push_message(&mut in_item, &line)?;
        }
        let begins = nth.item.number(part.start).saturating_add(misfit.place);
        let at = begins.saturating_sub(nth.items.begins);
        say_byte(self.rt, self.origin, nth.items, at, (&text, &in_item))
    }

    /// The path to what does not fit, as `-p` takes it: with the number of the item before it,
    /// unless that is the first; empty for the whole of the first item.
    fn path(self, nth: Nth<'_>, part: &Part) -> Result<String, AllocError> {
        let alloc = self.rt.alloc();
        let mut path = if self.has_each() {
            path_to(alloc, nth.item, part.start)?
        } else {
            String::from_str(alloc, self.job.path.trim_matches('/'))?
        };
        push_steps(&mut path, part.misfit.path.as_str())?;
        if nth.number == 0 {
            return Ok(path);
        }
        let steps = if path.is_empty() { "/" } else { path.as_str() };
        format!(in alloc; "{}:{steps}", nth.number)
    }

    /// Whether the path leads to each member of something.
    fn has_each(self) -> bool {
        let mut steps = self.job.show.steps.iter();
        steps.any(|step| matches!(step, Step::Each))
    }
}
