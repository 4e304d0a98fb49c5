//! `Dumps`: writes dumps of items, or of the parts that a path leads to, as the arguments ask: with
//! names, with long strings cut, with the items in byte strings. Also dumps a truncated or
//! malformed item.

use crate::item::{NotShown, ShowsItem};
use crate::part::parts_in;
use cbor_grammar::Error;
use cbor_inspect::Naming;
use cbor_places::{PartialText, Piece};
use cbor_screen::{DumpStyle, push_dump, push_partial_dump};
use cborcat_arguments::Job;

/// How the dumps of items, or of their parts, are written.
#[derive(Clone, Copy)]
pub struct Dumps<'a> {
    rt: &'a HostRuntime,
    job: &'a Job<'a>,
    /// How they are shown, but for names.
    style: DumpStyle<'a>,
    /// The names that items, and the steps of the path, may have.
    tables: Option<Naming<'a>>,
}

/// A dump has about this many bytes for each byte of the item.
const DUMP_OF_BYTE: usize = 16;

/// At most this much memory is asked for before a dump is made.
const BLOCK: usize = 64 * 1024;

impl<'a> Dumps<'a> {
    /// The dumps that the arguments ask for, with these names.
    pub fn new(rt: &'a HostRuntime, job: &'a Job<'a>, tables: Option<Naming<'a>>) -> Dumps<'a> {
        let style = DumpStyle {
            embedded: job.show.style.embedded,
            elide: job.elide,
            ..DumpStyle::PLAIN
        };
        Dumps {
            rt,
            job,
            style,
            tables,
        }
    }

    /// How an item is shown that may have these names: without names if it has none.
    fn style_of(&self, item: &[u8], names: Option<Naming<'a>>) -> DumpStyle<'a> {
        match names {
            Some(naming) if self.job.shows_names() && naming.may_name(item) => DumpStyle {
                names: Some(naming.names),
                known: naming.known,
                ..self.style
            },
            _ => self.style,
        }
    }

    /// Writes the dump of an item that may have these names.
    pub(crate) fn write(
        &self,
        item: &[u8],
        names: Option<Naming<'a>>,
        out: &mut Vec<u8>,
    ) -> Result<(), Error> {
        let guess = item.len().saturating_mul(DUMP_OF_BYTE).min(BLOCK);
        let mut text = String::with_capacity(self.rt.alloc(), guess)?;
        push_dump(&mut text, item, &self.style_of(item, names))?;
        if out.is_empty() {
            *out = text.into_bytes();
        } else {
            out.extend_from_slice(text.as_bytes())?;
        }
        Ok(())
    }

    /// What is shown of bytes that begin with no whole item, with what is said of that item.
    pub fn partial(&self, bytes: &[u8], said: &str) -> Result<PartialText, Error> {
        let mut text = String::new(self.rt.alloc());
        let said = push_partial_dump(&mut text, bytes, &self.style_of(bytes, self.tables), said)?;
        Ok(PartialText { text, said })
    }
}

impl ShowsItem for Dumps<'_> {
    /// Writes the dump of an item, or of the parts of it that the path leads to.
    fn show_one(
        &self,
        item: Piece,
        out: &mut Vec<u8>,
        not_shown: &mut Vec<NotShown>,
    ) -> Result<(), Error> {
        let parts = parts_in(self.rt.alloc(), (self.job, self.tables), item)?;
        if parts.is_empty() {
            not_shown.push(NotShown::Lost)?;
        }
        for part in &parts {
            self.write(part.piece().bytes, part.naming, out)?;
        }
        Ok(())
    }
}
