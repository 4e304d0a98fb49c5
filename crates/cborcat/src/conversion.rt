//! `Conversion`: converts one input as its bytes arrive. It shows, checks or skips the items, as
//! the arguments ask, and says why it stops.
mod checks;
mod ends;
mod fronts;
mod index;
mod long;
mod page;
mod shapes;
mod writing;

use self::fronts::{drop_front, first_bytes, short_items};
use self::long::MANY;
use self::shapes::Shapes;
use crate::cddl::Cddl;
use crate::changes::Changes;
use crate::each::Each;
use crate::input::{MORE, block_len, read_into};
use crate::next::Next;
use crate::output::Target;
use crate::run::Runner;
use cbor_inspect::{End, Form, Naming, Stream};
use cbor_places::Piece;
use cbor_stats::Stats;
use cborcat_arguments::{Job, View, show_of};
use cborcat_messages::{Hole, Origin, Status, report_long, report_lost, say, say_shape};
use cborcat_views::{Indexed, Page, ShowsItem, Views, Written};
use std::alloc::AllocError;
use std::io;
use std::io::{IsTerminal, Read};

/// The conversion of the items of one input.
#[derive(Drop)]
pub struct Conversion<'a> {
    rt: &'a HostRuntime,
    job: &'a Job<'a>,
    target: &'a mut Target,
    origin: &'a Origin<'a>,
    /// The names that are shown.
    tables: Option<Naming<'a>>,
    /// The CDDL that items have to fit.
    cddl: Option<&'a Cddl<'a>>,
    /// How it went so far.
    pub status: Status,
    /// The bytes that came, but for those that are skipped or converted.
    stream: Stream,
    /// The changes of `--set` and `--delete`, which come before everything else.
    changes: Changes<'a>,
    /// How many bytes came.
    came: usize,
    /// How many of the bytes that come next are skipped.
    skip: usize,
    /// Where in the data the items end that are known not to be longer than is allowed.
    within: usize,
    /// How many bytes are to be left before one looks at their end again.
    look_from: usize,
    /// The parts of strings that were dropped of the item that the bytes begin with.
    holes: Vec<Hole>,
    /// Whether the item is longer than is allowed that follows the bytes that are left.
    long: bool,
    /// Whether an item was converted.
    any: bool,
    /// Whether the last item is a line feed behind others, in a file that is named as bytes.
    ends_line: bool,
    /// How many items were passed, if the number of one is asked for.
    index: usize,
    /// Whether a simple value below 32 in two bytes was reported.
    noted: bool,
    /// Whether a rule that the check names is broken.
    broken: bool,
    /// Whether the answer to `--at` was written.
    found: bool,
    /// Whether what was shown has the shape of the type of `--as`.
    shapes: Shapes,
    /// How many bytes were passed last.
    passed: usize,
    /// How many items were before these, as far as paths are asked for.
    number: usize,
    /// The piece of items that is not written yet, for `-t index`.
    piece: Indexed,
    /// The values of the items by their paths, for `-t stats`.
    stats: Stats,
    /// The page of the items, for `-t html`.
    page: Page,
    /// How the items are shown.
    views: Views<'a>,
    /// What is written next.
    out: Vec<u8>,
}

impl<'a> Conversion<'a> {
    /// A conversion of an input that begins with these bytes.
    pub fn new(run: &'a mut Runner<'_>, origin: &'a Origin<'a>, first: Vec<u8>) -> Conversion<'a> {
        let (rt, job, tables, cddl) = (run.rt, run.job, run.tables, run.cddl);
        let views = Views::new(rt, job, tables, run.marks);
        let came = first.len();
        let mut first = first;
        let skipped = job.offset.min(came);
        drop_front(&mut first, skipped);
        Conversion {
            rt,
            job,
            target: run.target,
            stats: Stats::new(rt.alloc()),
            piece: Indexed::from(job.offset),
            page: Page::new(rt.alloc()),
            origin,
            tables,
            cddl,
            status: Status::Fine,
            stream: Stream::new(first),
            changes: Changes::new(rt, job, origin, tables),
            came,
            skip: job.offset - skipped,
            within: 0,
            look_from: MANY,
            holes: Vec::new(rt.alloc()),
            long: false,
            any: false,
            ends_line: false,
            index: 0,
            noted: false,
            broken: false,
            found: false,
            shapes: Shapes::none(),
            passed: 0,
            number: 0,
            views,
            out: Vec::new(rt.alloc()),
        }
    }

    /// Records the status of a part.
    fn ended(&mut self, status: Status) {
        self.status = self.status.or(status);
    }

    /// Whether an item came, even if it is too long, or deleted.
    pub fn has_some(&self) -> bool {
        self.any || self.long || self.changes.count > 0
    }

    /// Converts the items of all that the input has, as it arrives.
    pub fn all<R: Read>(&mut self, input: &mut R) -> Next {
        let mut block = Vec::new(self.rt.alloc());
        let mut next = match self.change_first() {
            Ok(()) => self.items(false),
            Err(_) => self.stop(End::Memory),
        };
        for _ in 0..u64::MAX {
            if next != Next::More {
                break;
            }
            next = match self.take_block(input, &mut block) {
                Ok(count) => self.items(count == 0),
                Err(error) => {
                    say(self.rt, self.origin.name, &error);
                    self.ended(Status::Trouble);
                    Next::NextInput
                }
            };
        }
        match self.job.view {
            View::Stats => self.write_stats(),
            View::Html(_) => self.write_page(),
            _ => {}
        }
        next
    }

    /// Takes what the input has, up to a block; returns how many bytes came, 0 at the end.
    fn take_block<R: Read>(&mut self, input: &mut R, block: &mut Vec<u8>) -> io::Result<usize> {
        if block.is_empty() {
            block.resize(block_len(self.rt, self.origin.name).min(MORE), 0)?;
        }
        let count = read_into(input, block.as_mut_slice())?.min(block.len());
        let skipped = self.skip.min(count);
        self.skip -= skipped;
        if !self.changes.are_asked() {
            self.came = self.came.saturating_add(skipped);
        }
        self.take(&block[skipped..count], count == 0)?;
        Ok(count)
    }

    /// Changes the bytes that came first, for `--set` and `--delete`.
    fn change_first(&mut self) -> Result<(), AllocError> {
        if !self.changes.are_asked() {
            return Ok(());
        }
        let alloc = self.rt.alloc();
        let first = Vec::from_slice(alloc, self.stream.rest())?;
        self.stream = Stream::new(Vec::new(alloc));
        self.came = 0;
        self.take(&first, false)
    }

    /// Takes the next bytes, or what becomes of them by the changes that are asked for.
    fn take(&mut self, bytes: &[u8], at_end: bool) -> Result<(), AllocError> {
        let alloc = self.rt.alloc();
        if !self.changes.are_asked() {
            self.came = self.came.saturating_add(bytes.len());
            return self.stream.push(alloc, bytes);
        }
        let changed = self.changes.take(bytes, at_end)?;
        self.ended(self.changes.status);
        self.came = self.came.saturating_add(changed.len());
        self.stream.push(alloc, &changed)
    }

    /// Where the bytes that are left begin in the data.
    fn begins(&self) -> usize {
        self.came.saturating_sub(self.stream.rest().len())
    }

    /// The bytes that are left.
    fn left(&self) -> Piece {
        Piece {
            begins: self.begins(),
            bytes: self.stream.rest(),
        }
    }

    /// Converts the items that are whole, and says what follows them if that is the end of the
    /// input, or no item.
    fn items(&mut self, at_end: bool) -> Next {
        if self.leave_long().is_err() {
            return self.stop(End::Memory);
        }
        for _ in 0..u64::MAX {
            let end = self.some_items();
            match self.write() {
                Ok(Written::Whole) => self.out.clear(),
                Ok(Written::Closed) => return Next::Nothing,
                Ok(Written::Failed) => {
                    self.ended(Status::Trouble);
                    return Next::Nothing;
                }
                Err(_) => return self.stop(End::Memory),
            }
            match end {
                _ if self.found || self.page.is_over => {
                    let status = self.changes.report();
                    self.ended(status);
                    return Next::NextInput;
                }
                End::Full => {}
                End::Done if self.long => return self.stop_long(),
                End::Done | End::Cut if !at_end => return self.wait(),
                End::Done => return self.done(),
                End::Lost { len } => self.pass_lost(len),
                End::Cut
                | End::Fault { .. }
                | End::TwoByteSimple { .. }
                | End::Remaining
                | End::Memory => {
                    return self.stop(end);
                }
            }
        }
        Next::More
    }

    /// Waits for more bytes, unless the item is longer than is allowed that those which are left
    /// begin with.
    fn wait(&mut self) -> Next {
        match self.look_at_end() {
            Ok(false) => Next::More,
            Ok(true) => self.stop_long(),
            Err(_) => self.stop(End::Memory),
        }
    }

    /// Converts some items, and tells what follows them.
    fn some_items(&mut self) -> End {
        let one = self.job.show.one;
        let before = self.stream.rest().len();
        if one && self.any && before > 0 {
            return End::Remaining;
        }
        let (end, is_shown) = match self.job.item {
            Some(item) if item != self.index => (self.skip_to(item), false),
            _ => (self.show_next(one), true),
        };
        let passed = before - self.stream.rest().len().min(before);
        self.passed = passed;
        if passed > 0 {
            self.holes.clear();
            self.look_from = MANY;
        }
        if !self.any && passed > 0 && self.job.item.is_none() {
            self.note_shape(passed);
        }
        self.note_line_feed(passed);
        self.any |= passed > 0;
        self.note_simple(passed);
        if is_shown && (self.note_misfit(passed).is_err() || self.note_violation(passed).is_err()) {
            return End::Memory;
        }
        if is_shown && self.note_type(passed).is_err() {
            return End::Memory;
        }
        end
    }

    /// Passes items up to that of the number before the path, or all of them after it, and returns
    /// what follows them.
    fn skip_to(&mut self, item: usize) -> End {
        for _ in 0..u64::MAX {
            let end = self.stream.skip(true);
            if end != End::Full {
                return end;
            }
            self.index = self.index.saturating_add(1);
            if self.index == item {
                break;
            }
        }
        End::Full
    }

    /// Takes the names of the next item, if it may have been changed.
    fn take_names(&mut self) {
        if self.changes.are_asked() {
            self.tables = self.changes.naming_of(self.index);
            self.views = self.views.with(self.tables);
        }
    }

    /// Converts the items that have arrived, or only the next one.
    fn show_next(&mut self, one: bool) -> End {
        self.take_names();
        let before = self.stream.rest().len();
        let one = one || self.changes.are_asked();
        let is_one = one || self.job.item.is_some();
        let end = match self.job.view {
            View::Items => self.show_some(is_one),
            View::Encoded(set) => self.show_each(&self.views.encoding(set), is_one),
            View::Check if self.checks_parts() => self.check_parts(is_one),
            View::Check => self.stream.check(is_one),
            View::Json | View::Raw => self.show_each(&self.views.plain(), is_one),
            View::Paths | View::At(_) | View::Diff | View::Stats => self.stream.skip(one),
            View::Index(size) => self.index_items(size),
            View::Html(most) => self.page_items(most, one),
        };
        if self.stream.rest().len() < before {
            self.index = self.index.saturating_add(1);
        }
        end
    }

    /// Shows some items, and tells what follows them.
    fn show_some(&mut self, is_one: bool) -> End {
        if self.job.show.style.form == Form::Hex {
            return self.show_each(&self.views.dumps(), is_one);
        }
        let mut show = show_of(self.job, self.tables);
        show.one = is_one;
        show.marks = self.views.screen.edn_marks();
        self.stream.show(&show, &mut self.out)
    }

    /// Shows some items one by one, or only the next, and tells what follows them.
    fn show_each<S: ShowsItem>(&mut self, shows: &S, one: bool) -> End {
        let each = Each {
            rt: self.rt,
            job: self.job,
            origin: self.origin,
            tables: self.tables,
            came: self.came,
            one,
        };
        let (end, status) = each.show(shows, &mut self.stream, &mut self.out);
        self.broken |= self.job.is_check() && status != Status::Fine;
        self.ended(status);
        end
    }

    /// Notes whether the items that were shown have the shape of the type of `--as`.
    fn note_type(&mut self, passed: usize) -> Result<(), AllocError> {
        if self.job.outer.is_some() {
            let items = self.stream.passed(passed);
            let alloc = self.rt.alloc();
            self.shapes = self.shapes.with(alloc, self.job, self.tables, items)?;
        }
        Ok(())
    }

    /// Says in a terminal which type the first item looks like, if names are shown and no type is
    /// given.
    fn note_shape(&self, passed: usize) {
        let Some(Naming { known: None, .. }) = self.tables else {
            return;
        };
        if !self.job.path.is_empty() || !self.rt.stderr().is_terminal() {
            return;
        }
        say_shape(self.rt, self.origin, self.stream.passed(passed));
    }

    /// Says that the item of that length at the front does not have the part, and goes past it.
    fn pass_lost(&mut self, len: usize) {
        let rest = self.stream.rest();
        let item = &rest[..len.min(rest.len())];
        let asked = (self.job, self.tables);
        let status = report_lost(self.rt, asked, self.origin, item);
        self.ended(status);
        let _ = self.stream.skip(true);
        self.any = true;
        self.index = self.index.saturating_add(1);
    }

    /// Leaves out the first item that is longer than is allowed, and what follows it. It looks at
    /// no item if fewer bytes are left than are allowed.
    fn leave_long(&mut self) -> Result<(), AllocError> {
        let begins = self.begins();
        let from = self.within.saturating_sub(begins);
        let limits = (
            self.job.limit.saturating_sub(self.dropped()),
            self.job.limit,
        );
        let (at, long) = short_items(self.stream.rest(), from, limits);
        self.within = begins.saturating_add(at);
        if long {
            let before = first_bytes(self.rt.alloc(), self.stream.rest(), at)?;
            self.stream = Stream::new(before);
            self.came = self.within;
            self.long = true;
        }
        Ok(())
    }

    /// Says that the next item is longer than is allowed.
    fn stop_long(&mut self) -> Next {
        let origin = self.told();
        report_long(self.rt, &origin, self.begins(), self.job.limit);
        self.ended(Status::Bad);
        Next::NextInput
    }
}
