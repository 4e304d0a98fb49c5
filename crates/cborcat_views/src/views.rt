//! `Views`: how items are shown, by the arguments. Writes EDN, JSON, dumps, lines of paths, and the
//! part of a truncated or malformed item that is there.

use crate::checks::Checks;
use crate::dumps::Dumps;
use crate::encode::Encoding;
use crate::encoded::{encoded_in, inside_of};
use crate::output::{Output, Written};
use crate::plain::Plain;
use crate::screen::Screen;
use cbor_bytes::{Extent, extent};
use cbor_grammar::Error;
use cbor_inspect::{Form, Naming};
use cbor_marks::Marks;
use cbor_places::{Leaves, Piece, item_with, lines_at};
use cbor_rules::RuleSet;
use cborcat_arguments::{Job, View, show_of};

/// How items are shown.
#[derive(Clone, Copy)]
pub struct Views<'a> {
    pub(crate) rt: &'a HostRuntime,
    pub(crate) job: &'a Job<'a>,
    /// The names that are shown, and that a path may have.
    pub(crate) tables: Option<Naming<'a>>,
    /// How the output is shown.
    pub screen: Screen<'a>,
}

impl<'a> Views<'a> {
    /// How the arguments ask for items to be shown, with these names, and with these marks of their
    /// tokens.
    pub fn new(
        rt: &'a HostRuntime,
        job: &'a Job<'a>,
        tables: Option<Naming<'a>>,
        marks: &'a Marks,
    ) -> Views<'a> {
        Views {
            rt,
            job,
            tables,
            screen: Screen::new(rt, job, marks),
        }
    }

    /// The same with other names.
    pub fn with(self, tables: Option<Naming<'a>>) -> Views<'a> {
        Views { tables, ..self }
    }

    /// The dumps of items.
    pub fn dumps(self) -> Dumps<'a> {
        Dumps::new(self.rt, self.job, self.tables)
    }

    /// Items encoded again by these rules.
    pub fn encoding(self, set: RuleSet) -> Encoding<'a> {
        Encoding {
            rt: self.rt,
            job: self.job,
            set,
            tables: self.tables,
            marks: self.screen.edn_marks(),
        }
    }

    /// Checks of parts of items.
    pub fn checks(self) -> Checks<'a> {
        Checks {
            rt: self.rt,
            job: self.job,
            tables: self.tables,
        }
    }

    /// Items as JSON, or their content.
    pub fn plain(self) -> Plain<'a> {
        Plain {
            rt: self.rt,
            job: self.job,
            tables: self.tables,
            marks: self.screen.edn_marks(),
        }
    }

    /// Writes what was made of items, as it is shown.
    pub fn write<O: Output>(self, target: &mut O, made: &[u8]) -> Result<Written, Error> {
        match (self.job.view, self.job.show.style.form) {
            (View::Json, _) | (View::Items | View::Encoded(_), Form::Pretty | Form::Diag) => {
                Ok(self.screen.write_edn(target, made)?)
            }
            (View::Items | View::Encoded(_), Form::Hex) => {
                Ok(self.screen.write_dump(target, made)?)
            }
            _ => Ok(target.write(self.rt, made)),
        }
    }

    /// Writes a line for each item of these that holds no other. This many items of the data come
    /// before them. Also returns how many come before the next ones.
    pub fn write_paths<O: Output>(
        self,
        target: &mut O,
        items: Piece,
        number: usize,
    ) -> Result<(Written, usize), Error> {
        let alloc = self.rt.alloc();
        let encoded = encoded_in(alloc, self.tables, items)?;
        let inside = inside_of(self.job, &encoded);
        let mut leaves = Leaves::new(alloc, items, self.job.show.style.edn(), inside)
            .numbered_from(number)
            .with_places(self.job.places);
        let mut lines = Vec::new(alloc);
        for _ in 0..u64::MAX {
            lines.clear();
            self.screen.push_leaves(&mut lines, &mut leaves)?;
            if lines.is_empty() {
                break;
            }
            match target.write(self.rt, &lines) {
                Written::Whole => {}
                end => return Ok((end, number)),
            }
        }
        Ok((Written::Whole, leaves.number()))
    }

    /// The lines of a byte, if it is in these items, and how many items are before it. This many
    /// items of the data come before these.
    pub fn lines_in(
        self,
        items: Piece,
        byte: usize,
        number: usize,
    ) -> Result<(usize, Option<String>), Error> {
        let (before, item) = item_with(items, byte);
        let number = number.saturating_add(before);
        if byte < items.begins || byte >= items.number(items.bytes.len()) {
            return Ok((number, None));
        }
        let lines = self.lines_at((number, item), byte)?;
        Ok((number, Some(lines)))
    }

    /// The lines of a byte in the item at the front. This many items of the data come before it.
    pub fn lines_at(self, nth_item: (usize, Piece), byte: usize) -> Result<String, Error> {
        let alloc = self.rt.alloc();
        let (number, items) = nth_item;
        let item = match extent(items.bytes) {
            Extent::Item(len) => items.first(len),
            _ => items,
        };
        let encoded = encoded_in(alloc, self.tables, item)?;
        Ok(lines_at(alloc, (number, item), byte, inside_of(self.job, &encoded))?)
    }

    /// Writes the whole parts of an item that is truncated or malformed, and some of what remains,
    /// with what is said of the item.
    pub fn write_partial<O: Output>(
        self,
        target: &mut O,
        bytes: &[u8],
        said: &str,
    ) -> Result<Written, Error> {
        match self.job.show.style.form {
            Form::Pretty | Form::Diag => {
                let mut show = show_of(self.job, self.tables);
                show.marks = self.screen.edn_marks();
                let partial = show.partial(self.rt.alloc(), bytes, said)?;
                Ok(self.screen.write_edn(target, partial.text.as_bytes())?)
            }
            Form::Hex => {
                let partial = self.dumps().partial(bytes, said)?;
                Ok(self.screen.write_partial_dump(target, &partial)?)
            }
            Form::Digits | Form::Bytes => Ok(Written::Whole),
        }
    }
}
