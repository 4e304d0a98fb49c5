//! `Screen`: writes the output as the arguments ask, with colours, without widths, or with long
//! strings cut. It escapes hidden characters in dumps.

use crate::output::{Output, Written};
use cbor_grammar::Error;
use cbor_marks::{Kind, Marked, MarkedText, Marks};
use cbor_places::{Leaves, PartialText};
use cbor_screen::{
    push_colored, push_colored_dump, push_elided, push_in_color, push_without_widths,
};
use cbor_tokens::{is_shown, push_shown};
use cborcat_arguments::Job;
use std::alloc::AllocError;
use std::io::IsTerminal;

/// How texts are shown.
#[derive(Clone, Copy)]
pub struct Screen<'a> {
    rt: &'a HostRuntime,
    /// Whether tokens have colours.
    colors: bool,
    /// Whether widths are left out of EDN.
    widthless: bool,
    /// The length of the longest strings of EDN that are not cut, if others are.
    most: Option<usize>,
    /// Where the tokens are marked of a text that is to be shown.
    pub marks: &'a Marks,
}

impl<'a> Screen<'a> {
    /// How the arguments ask for the output to be shown.
    pub fn new(rt: &'a HostRuntime, job: &Job, marks: &'a Marks) -> Screen<'a> {
        let terminal = job.is_on_screen() && rt.stdout().is_terminal();
        Screen {
            rt,
            colors: !job.in_place && job.color.is_used(rt, terminal),
            widthless: job.widthless,
            most: job.elide,
            marks,
        }
    }

    /// Where the tokens of EDN and JSON are marked, if they are shown in another way than they are
    /// written.
    pub fn edn_marks(self) -> Option<&'a Marks> {
        if self.colors || self.widthless || self.most.is_some() {
            Some(self.marks)
        } else {
            None
        }
    }

    /// Writes a text of EDN or JSON. Its tokens are marked, if they are to be.
    pub fn write_edn<O: Output>(self, target: &mut O, text: &[u8]) -> Result<Written, AllocError> {
        if self.edn_marks().is_none() {
            return Ok(target.write(self.rt, text));
        }
        let mut marks = Vec::new(self.rt.alloc());
        self.marks.take(&mut marks)?;
        let mut rest = Marked::new(text, &marks);
        for _ in 0..u64::MAX {
            if rest.rest().is_empty() {
                break;
            }
            let mut shown = Vec::new(self.rt.alloc());
            self.push_marked(&mut shown, rest.take_lines(BLOCK))?;
            match target.write(self.rt, &shown) {
                Written::Whole => {}
                end => return Ok(end),
            }
        }
        Ok(Written::Whole)
    }

    /// Writes a text of dumps.
    pub fn write_dump<O: Output>(self, target: &mut O, text: &[u8]) -> Result<Written, AllocError> {
        let mut rest = text;
        for _ in 0..u64::MAX {
            if rest.is_empty() {
                break;
            }
            let (lines, after) = rest.split_at(lines_len(rest).min(rest.len()));
            rest = after;
            let mut shown = Vec::new(self.rt.alloc());
            self.push_dump(&mut shown, lines)?;
            match target.write(self.rt, &shown) {
                Written::Whole => {}
                end => return Ok(end),
            }
        }
        Ok(Written::Whole)
    }

    /// Appends a text of EDN as it is shown. Its tokens are marked, if they are to be.
    pub fn push_edn(self, out: &mut Vec<u8>, text: &[u8]) -> Result<(), AllocError> {
        if self.edn_marks().is_none() {
            return out.extend_from_slice(text);
        }
        let mut marks = Vec::new(self.rt.alloc());
        self.marks.take(&mut marks)?;
        self.push_marked(out, Marked::new(text, &marks))
    }

    /// The same of a text with its marks.
    fn push_marked(self, out: &mut Vec<u8>, text: Marked<'_>) -> Result<(), AllocError> {
        let alloc = self.rt.alloc();
        let (mut widthless, mut elided) = (MarkedText::new(alloc), MarkedText::new(alloc));
        let mut shown = text;
        if self.widthless {
            push_without_widths(&mut widthless, shown)?;
            shown = widthless.marked();
        }
        if let Some(most) = self.most {
            push_elided(&mut elided, shown, most)?;
            shown = elided.marked();
        }
        if self.colors {
            push_colored(out, shown)
        } else {
            out.extend_from_slice(shown.rest())
        }
    }

    /// Appends some lines of a dump as they are shown. In its comments, which are all that has such
    /// characters, what no terminal and no log is given as it is is escaped.
    fn push_dump(self, out: &mut Vec<u8>, lines: &[u8]) -> Result<(), AllocError> {
        let mut escaped = String::new(self.rt.alloc());
        let mut shown = lines;
        if !is_shown(true, shown)
            && let Ok(text) = str::from_utf8(lines)
        {
            push_shown(&mut escaped, text)?;
            shown = escaped.as_bytes();
        }
        if self.colors {
            push_colored_dump(out, shown)
        } else {
            out.extend_from_slice(shown)
        }
    }

    /// Writes the dump of an item that is not whole. What it says is wrong has the colour of
    /// faults.
    pub fn write_partial_dump<O: Output>(
        self,
        target: &mut O,
        partial: &PartialText,
    ) -> Result<Written, AllocError> {
        let (text, said) = (partial.text.as_bytes(), partial.said);
        let mut shown = Vec::new(self.rt.alloc());
        self.push_dump(&mut shown, text.get(..said.start).unwrap_or(text))?;
        self.push_kind(&mut shown, Kind::Fault, said.bytes(text))?;
        self.push_dump(&mut shown, text.get(said.end..).unwrap_or(b""))?;
        Ok(target.write(self.rt, &shown))
    }

    /// Appends the lines of the items that come next, about a block of them.
    pub fn push_leaves(self, lines: &mut Vec<u8>, leaves: &mut Leaves) -> Result<(), Error> {
        let mut text = String::new(self.rt.alloc());
        self.marks.begin(0);
        for _ in 0..u64::MAX {
            if lines.len() >= BLOCK {
                break;
            }
            let Some(leaf) = leaves.next_leaf()? else {
                break;
            };
            text.clear();
            leaves.push_path(&mut text, leaf)?;
            self.push_path(lines, &text)?;
            text.clear();
            leaves.push_item(&mut text, leaf, self.edn_marks())?;
            self.push_edn(lines, text.as_bytes())?;
            lines.push(b'\n')?;
        }
        Ok(())
    }

    /// Appends what a line of a path has before its item.
    pub fn push_path(self, out: &mut Vec<u8>, path: &str) -> Result<(), AllocError> {
        self.push_kind(out, Kind::Key, path.as_bytes())
    }

    /// Appends a text as a token of this kind.
    pub(crate) fn push_kind(
        self,
        out: &mut Vec<u8>,
        kind: Kind,
        text: &[u8],
    ) -> Result<(), AllocError> {
        if self.colors {
            push_in_color(out, kind, text)
        } else {
            out.extend_from_slice(text)
        }
    }
}

/// How many bytes of a text are looked at or written together, at least.
const BLOCK: usize = 64 * 1024;

/// How many bytes the first lines of a text take, which are a block or all of it.
fn lines_len(text: &[u8]) -> usize {
    for (index, byte) in text.iter().enumerate().skip(BLOCK) {
        if *byte == b'\n' {
            return index.saturating_add(1);
        }
    }
    text.len()
}
