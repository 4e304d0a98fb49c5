//! `Walk`: goes over the bytes of an item and hands the lines of its dump, in order, to a `Lines`:
//! heads, the content of strings, breaks, and notes on the values of tags.
ghost use Rattle.std.specs.Prelude.{◌≤◌, ◌+◌, IsTrue};
ghost use Rattle.cbor_dump.specs.mirror.Dumped.{IsContext};
ghost use Rattle.cbor_grammar.specs.WellFormed.{deepest};

use crate::dump::DumpStyle;
use crate::dump::cut::push_cut;
use crate::dump::embedded::{Embedded, embedded_in};
use crate::dump::lines::Lines;
use cbor_bytes::borrowed::{next_chunk, read_borrowed};
use cbor_bytes::head::{no_level_left, read_head};
use cbor_dump::context::DumpContext;
use cbor_dump::walk::shared_below;
use cbor_dump::width::dump_width;
use cbor_grammar::argument::Argument;
use cbor_grammar::head::ItemHead;
use cbor_grammar::layout::Content;
use cbor_grammar::level::DEEPEST;
use cbor_grammar::strings::{StringContent, StringKind};
use cbor_grammar::{Error, Tag};
use cbor_inside::{ByteString, Inside};
use std::alloc::{AllocError, Global};

/// Every byte string is opened that may be, by the rule.
const ALL: Inside<'static> = Inside {
    embedded: true,
    named: &[],
};

/// Whether an item, or a chunk of a string, may be here.
pub(super) fn is_context(context: &DumpContext) -> bool
    ensures { IsTrue result → IsContext context.now }
{
    context.level <= DEEPEST + 1 && context.depth < usize::from(context.level)
}

/// Whether an item here may hold others.
pub(super) fn has_level_left(context: &DumpContext) -> bool
    ensures context { IsTrue result → IsContext context.now }
    ensures level { IsTrue result → context.now.level ≤ deepest }
{
    context.level <= DEEPEST && is_context(context)
}

/// What holds items.
#[derive(Clone, Copy)]
enum Holder<'a> {
    /// An array with this count of items.
    Array(Argument),
    /// A map with this count of pairs.
    Map(Argument),
    /// A tag, and the bytes from its value on.
    Tag(Tag, &'a [u8]),
    /// A byte string whose item is shown, and the number of values that were shared before it.
    Bytes(u64),
}

/// What is open.
#[derive(Clone, Copy)]
struct Open<'a> {
    /// Where its items are.
    inner: DumpContext,
    /// What holds them.
    holder: Holder<'a>,
    /// How many of them began.
    held: usize,
}

impl<'a> Open<'a> {
    /// The bytes after it, if it ends here.
    fn after(&self, rest: &'a [u8]) -> Option<&'a [u8]> {
        match self.holder {
            Holder::Array(count) => count.after_end(self.held, rest),
            Holder::Map(count) if self.held % 2 == 0 => count.after_end(self.held / 2, rest),
            Holder::Tag(..) | Holder::Bytes(_) if self.held > 0 => Some(rest),
            Holder::Map(_) | Holder::Tag(..) | Holder::Bytes(_) => None,
        }
    }
}

/// A walk over the bytes of an item. It ends before the first item that is not whole.
#[derive(Drop)]
pub(super) struct Walk<'a> {
    /// The bytes that remain.
    rest: &'a [u8],
    /// The level of the item.
    level: u8,
    /// The byte string whose items are to be shown in a note, before the walk goes on.
    note: Option<Embedded<'a>>,
    /// The depth of the item that was read last, or that is not whole.
    depth: usize,
    /// What is open, the outermost first.
    open: Vec<Open<'a>>,
    /// The number of values that were shared so far.
    shared: u64,
    /// Whether byte strings are opened.
    embedded: bool,
    /// The length of the longest string that is not cut, if others are.
    elide: Option<usize>,
}

/// The content of the string of definite length whose head is at the front, and the bytes after it;
/// `None` of any other item. The second bytes are those after the head. It fails if a string is not
/// whole.
fn whole_content<'a>(
    head: ItemHead,
    bytes: &'a [u8],
    rest: &'a [u8],
    level: u8,
) -> Result<Option<(StringContent<'a>, &'a [u8])>, Error>
    requires from { 1 ≤ level }
    requires to { level ≤ deepest + 1 }
{
    match head {
        ItemHead::String(kind, Argument::Number(count, _)) => {
            Ok(Some(read_borrowed(kind, count, rest)?))
        }
        ItemHead::String(_, Argument::Indefinite) => {
            let _ = dump_width(bytes, level)?;
            Ok(None)
        }
        _ => Ok(None),
    }
}

impl<'a> Walk<'a> {
    /// A walk over the item at the front, in this style.
    pub(super) fn new(alloc: Global, bytes: &'a [u8], style: &DumpStyle<'_>) -> Walk<'a> {
        Walk {
            rest: bytes,
            level: 1,
            note: None,
            depth: 0,
            open: Vec::new(alloc),
            shared: 0,
            embedded: style.embedded,
            elide: style.elide,
        }
    }

    /// A walk over the item at the front, which is at this level in a note.
    pub(super) fn in_note(alloc: Global, bytes: &'a [u8], level: u8) -> Walk<'a> {
        let mut walk = Walk::new(alloc, bytes, &DumpStyle::PLAIN);
        walk.level = level;
        walk
    }

    /// The bytes that remain.
    pub(super) fn rest(&self) -> &'a [u8] {
        self.rest
    }

    /// The depth of the item that was read last. After an error that is the one that is not whole,
    /// and the bytes that remain begin with it.
    pub(super) fn depth(&self) -> usize {
        self.depth
    }

    /// Takes the byte string whose items are to be shown in a note, if the walk waits for one.
    pub(super) fn take_note(&mut self) -> Option<Embedded<'a>> {
        self.note.take()
    }

    /// Has the walk wait until the items of a byte string are shown in a note.
    pub(super) fn wait_for(&mut self, note: Embedded<'a>) {
        self.note = Some(note);
    }

    /// Passes the item, and gives its lines, up to the next note that shows items.
    pub(super) fn item<L: Lines>(&mut self, lines: &mut L) -> Result<(), Error> {
        self.front(lines, &DumpContext::top(self.level))?;
        self.go_on(lines)
    }

    /// Passes the rest of the item in the same way.
    pub(super) fn go_on<L: Lines>(&mut self, lines: &mut L) -> Result<(), Error> {
        for _ in 0..u64::MAX {
            if self.open.is_empty() || self.note.is_some() {
                break;
            }
            self.next(lines)?;
        }
        Ok(())
    }

    /// Passes the next head in what is open, or its end.
    fn next<L: Lines>(&mut self, lines: &mut L) -> Result<(), Error> {
        let Some(open) = self.open.last_mut() else {
            return Ok(());
        };
        match open.after(self.rest) {
            Some(after) => {
                self.rest = after;
                Ok(self.close(lines)?)
            }
            None => {
                open.held = open.held.saturating_add(1);
                let inner = open.inner;
                self.front(lines, &inner)
            }
        }
    }

    /// Closes what was opened last.
    fn close<L: Lines>(&mut self, lines: &mut L) -> Result<(), AllocError> {
        let Some(open) = self.open.pop() else {
            return Ok(());
        };
        match open.holder {
            Holder::Array(Argument::Indefinite) | Holder::Map(Argument::Indefinite) => {
                lines.end(open.inner.depth)
            }
            Holder::Array(_) | Holder::Map(_) => Ok(()),
            Holder::Tag(tag, value) => self.notes(lines, &open.inner, tag, value),
            Holder::Bytes(shared) => {
                self.shared = shared;
                Ok(())
            }
        }
    }

    /// Gives the notes on the value of a tag, or waits until the items in it are shown.
    fn notes<L: Lines>(
        &mut self,
        lines: &mut L,
        context: &DumpContext,
        tag: Tag,
        value: &'a [u8],
    ) -> Result<(), AllocError> {
        if L::SHOWS_NOTES {
            self.note = embedded_in(context, tag, value);
        }
        match self.note {
            Some(_) => Ok(()),
            None => lines.notes(context, tag, value),
        }
    }

    /// Passes the head at the front, and the content of a string.
    fn front<L: Lines>(&mut self, lines: &mut L, context: &DumpContext) -> Result<(), Error> {
        let bytes = self.rest;
        self.depth = context.depth;
        if !has_level_left(context) {
            return Err(no_level_left(bytes));
        }
        let (head, rest) = read_head(bytes)?;
        let content = whole_content(head, bytes, rest, context.level)?;
        let taken = bytes.len().saturating_sub(rest.len());
        let digits = bytes.get(..taken).unwrap_or(b"");
        lines.head(context.depth, (head, digits), bytes.len())?;
        self.rest = rest;
        if let Some(content) = content {
            return Ok(self.string(lines, context, content)?);
        }
        match head {
            ItemHead::String(kind, _) => self.chunks(lines, &context.inside(), kind),
            ItemHead::Array(count) => Ok(self.begin(context.inside(), Holder::Array(count))?),
            ItemHead::Map(count) => Ok(self.begin(context.inside(), Holder::Map(count))?),
            ItemHead::Tag(number, _) => {
                let tag = Tag(number);
                let inner = context.below(tag, self.shared);
                self.shared = shared_below(self.shared, tag)?;
                Ok(self.begin(inner, Holder::Tag(tag, rest))?)
            }
            _ => Ok(()),
        }
    }

    /// Opens what holds the items that come next.
    fn begin(&mut self, inner: DumpContext, holder: Holder<'a>) -> Result<(), AllocError> {
        self.open.push(Open {
            inner,
            holder,
            held: 0,
        })?;
        Ok(())
    }

    /// Passes the content of a string, which other bytes follow, or opens it.
    fn string<L: Lines>(
        &mut self,
        lines: &mut L,
        context: &DumpContext,
        content: (StringContent<'a>, &'a [u8]),
    ) -> Result<(), AllocError>
        requires context { IsContext context.now }
        requires level { context.now.level ≤ deepest }
    {
        let (content, after) = content;
        let inner = DumpContext {
            encoding: None,
            ..context.inside()
        };
        if self.opens(context, content) {
            // The item is all of the content, so `after` follows it.
            self.begin(inner, Holder::Bytes(self.shared))?;
            self.shared = 0;
            return Ok(());
        }
        self.content(lines, context, content)?;
        self.rest = after;
        Ok(())
    }

    /// Gives the lines of the content of a string, which may be cut.
    fn content<L: Lines>(
        &self,
        lines: &mut L,
        context: &DumpContext,
        content: StringContent<'_>,
    ) -> Result<(), AllocError> {
        match self.elide {
            Some(most) if content.as_bytes().len() > most => {
                push_cut(lines, context, content, most)
            }
            _ => lines.content(context, content),
        }
    }

    /// Whether a string there is opened. The item below tag 24 has a note, as have the items below
    /// tag 63.
    fn opens(&self, context: &DumpContext, content: StringContent<'_>) -> bool {
        let StringContent::Bytes(bytes) = content else {
            return false;
        };
        let tag = match context.tag {
            Some(tag) if tag == Tag::ENCODED_CBOR => return false,
            Some(Tag(number)) => Some(number),
            None => None,
        };
        let string = ByteString {
            start: 0,
            level: context.level,
            tag,
        };
        self.embedded && matches!(ALL.content(string, bytes), Content::Item)
    }

    /// Passes the chunks of a string of a kind, and its break.
    fn chunks<L: Lines>(
        &mut self,
        lines: &mut L,
        inner: &DumpContext,
        kind: StringKind,
    ) -> Result<(), Error> {
        for _ in 0..u64::MAX {
            let bytes = self.rest;
            let (chunk, after) = next_chunk(kind, bytes)?;
            self.rest = after;
            let Some((content, width)) = chunk else {
                break;
            };
            let len = content.as_bytes().len();
            let head = ItemHead::String(kind, Argument::Number(len as u64, width));
            let behind = len.saturating_add(after.len());
            let taken = bytes.len().saturating_sub(behind);
            let digits = bytes.get(..taken).unwrap_or(b"");
            lines.head(inner.depth, (head, digits), bytes.len())?;
            self.content(lines, inner, content)?;
        }
        Ok(lines.end(inner.depth)?)
    }
}
