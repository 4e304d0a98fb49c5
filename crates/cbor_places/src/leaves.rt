//! `Leaves` goes through the items that hold no other item, with the path to each. It also writes a
//! line for each: the path, and the item in EDN.

use crate::path::{Path, push_number};
use crate::piece::Piece;
use cbor_bytes::{Extent, extent};
use cbor_edn_writer::{EdnStyle, NotedStyle, push_bytes_to_edn_noted};
use cbor_grammar::Error;
use cbor_grammar::argument::Argument;
use cbor_grammar::head::ItemHead;
use cbor_grammar::layout::Content;
use cbor_inside::{ByteString, Inside, content_after};
use cbor_marks::Marks;
use cbor_trace::{Span, head_at};
use std::alloc::{AllocError, Global};
use std::fmt::Write;

/// Lines are gathered until they are at least this long.
const BLOCK: usize = 64 * 1024;

/// A longer key is named by its place.
const LONGEST: usize = 1024;

/// What holds the items that come next.
#[derive(Clone, Copy)]
enum Holder {
    /// An array of that count.
    Array(Argument),
    /// A map of that count.
    Map(Argument),
    /// A byte string that is an item.
    Item,
    /// A byte string that is items, with this content.
    Items(Span),
}

/// What holds items, as far as it was passed.
#[derive(Clone, Copy)]
struct Level {
    holder: Holder,
    /// How many items or pairs of it were passed.
    index: usize,
    /// How long the path to it is.
    path_len: usize,
    /// The level of the items in it.
    level: u8,
    /// Whether it is an array whose members have a meaning each by their index: a short one that
    /// has a tag.
    is_record: bool,
}

/// The head of the item that comes next, below its tags.
#[derive(Clone, Copy)]
struct Next {
    head: ItemHead,
    /// Where the head ends.
    end: usize,
    /// The tag right above it.
    tag: Option<u64>,
    level: u8,
}

/// Whole items, as lines.
#[derive(Drop)]
pub struct Leaves<'a> {
    items: Piece<'a>,
    style: EdnStyle,
    inside: Inside<'a>,
    /// How many items of the data begin before what comes next.
    number: usize,
    /// Whether each line has the place before the path.
    places: bool,
    /// Whether the step to each member of an array is `*`.
    any_index: bool,
    /// What comes next.
    at: usize,
    /// What is around that, the outermost first.
    levels: Vec<Level>,
    path: Path,
}

impl<'a> Leaves<'a> {
    /// The lines of these items: the path of each that holds no other, and the item in EDN on one
    /// line without notes, with the widths of this style.
    pub fn new(alloc: Global, items: Piece<'a>, style: EdnStyle, inside: Inside<'a>) -> Leaves<'a> {
        Leaves {
            items,
            style: EdnStyle {
                embedded: inside.embedded,
                widths: style.widths,
                ..EdnStyle::LINE
            },
            inside,
            number: 0,
            places: false,
            any_index: false,
            at: 0,
            levels: Vec::new(alloc),
            path: Path::new(alloc, LONGEST),
        }
    }

    /// The same lines, if this many items of the data come before. Then the lines of each item
    /// but the first of the data begin with its number and a colon.
    pub fn numbered_from(self, number: usize) -> Leaves<'a> {
        Leaves { number, ..self }
    }

    /// The same lines, if asked with the place before each path at which the item begins.
    pub fn with_places(self, places: bool) -> Leaves<'a> {
        Leaves { places, ..self }
    }

    /// The same items, with one path for all members of an array: its step to each is `*`. A tagged
    /// array of at most 16 members, such as a COSE message, keeps its indices.
    pub fn with_any_index(self) -> Leaves<'a> {
        Leaves {
            any_index: true,
            ..self
        }
    }

    /// Returns where the next item is that holds no other, with its tags; `None` after the last.
    /// Then [`path`](Leaves::path) is the path to it.
    pub fn next_leaf(&mut self) -> Result<Option<Span>, AllocError> {
        for _ in 0..u64::MAX {
            if self.is_done() {
                break;
            }
            if !self.ends()
                && let Some(leaf) = self.next_item()?
            {
                return Ok(Some(leaf));
            }
        }
        Ok(None)
    }

    /// The path to the item that [`next_leaf`](Leaves::next_leaf) returned last.
    pub fn path(&self) -> &str {
        self.path.as_str()
    }

    /// How many items of the data begin before what comes next.
    pub fn number(&self) -> usize {
        self.number
    }

    /// Whether all lines were written.
    pub fn is_done(&self) -> bool {
        self.at >= self.items.bytes.len()
    }

    /// Appends the next lines, about a block of them.
    pub fn push_block(&mut self, out: &mut String) -> Result<(), Error> {
        for _ in 0..u64::MAX {
            if self.is_done() || out.len() >= BLOCK {
                break;
            }
            if !self.ends()
                && let Some(leaf) = self.next_item()?
            {
                self.push_line(out, leaf)?;
            }
        }
        Ok(())
    }

    /// The bytes that come next.
    fn rest(&self) -> &'a [u8] {
        self.items.bytes.get(self.at..).unwrap_or(b"")
    }

    /// Goes past bytes, at least one.
    fn pass(&mut self, len: usize) {
        self.at = self.at.saturating_add(len.max(1));
    }

    /// Takes the path back to what is around the next item. If that ends here, goes past its end,
    /// and returns true.
    fn ends(&mut self) -> bool {
        let Some(level) = self.levels.last().copied() else {
            self.path.cut(0);
            return false;
        };
        self.path.cut(level.path_len);
        if !self.is_end_of(level) {
            return false;
        }
        let _ = self.levels.pop();
        if let Holder::Array(Argument::Indefinite)
        | Holder::Map(Argument::Indefinite) = level.holder
        {
            self.pass(1);
        }
        true
    }

    /// Whether no item of a level comes next.
    fn is_end_of(&self, level: Level) -> bool {
        match level.holder {
            Holder::Array(Argument::Indefinite) | Holder::Map(Argument::Indefinite) => {
                self.rest().first() == Some(&0xff)
            }
            Holder::Array(Argument::Number(count, _)) | Holder::Map(Argument::Number(count, _)) => {
                level.index as u64 >= count
            }
            Holder::Item => level.index > 0,
            Holder::Items(content) => self.at >= content.end,
        }
    }

    /// Goes past the next item, which holds no other, and returns where it is; or goes into it.
    fn next_item(&mut self) -> Result<Option<Span>, AllocError> {
        if self.levels.is_empty() {
            self.number = self.number.saturating_add(1);
        }
        self.push_step()?;
        let start = self.at;
        if let Some(next) = self.pass_tags()
            && let Some(holder) = self.holder_of(next)
        {
            self.enter(next, holder)?;
            return Ok(None);
        }
        let len = len_of(self.rest());
        self.pass(len);
        Ok(Some(Span {
            start,
            end: self.at,
        }))
    }

    /// Appends the step to what comes next, after its key if it has one.
    fn push_step(&mut self) -> Result<(), AllocError> {
        let Some(level) = self.levels.last_mut() else {
            return Ok(());
        };
        let (holder, index) = (level.holder, level.index);
        let any_index = self.any_index && !level.is_record;
        level.index = index.saturating_add(1);
        match holder {
            Holder::Array(_) | Holder::Items(_) if any_index => self.path.push_each(),
            Holder::Array(_) => self.path.push_index(index),
            Holder::Map(_) => self.push_key(),
            Holder::Item => self.path.push_inside(None),
            Holder::Items(content) => {
                let byte = self.at.saturating_sub(content.start);
                self.path.push_inside(Some(byte))
            }
        }
    }

    /// Appends the step to the value of the key that comes next, and goes past that.
    fn push_key(&mut self) -> Result<(), AllocError> {
        let rest = self.rest();
        let len = len_of(rest);
        let byte = self.items.number(self.at);
        self.path.push_key(rest.get(..len).unwrap_or(b""), byte)?;
        self.pass(len);
        Ok(())
    }

    /// Goes past the tags of the next item, and returns what is below them.
    fn pass_tags(&mut self) -> Option<Next> {
        let mut level = self.levels.last().map_or(1, |around| around.level);
        let mut tag = None;
        for _ in 0..=u8::MAX {
            let (head, end) = head_at(self.items.bytes, self.at)?;
            let ItemHead::Tag(number, _) = head else {
                return Some(Next {
                    head,
                    end,
                    tag,
                    level,
                });
            };
            self.at = end;
            tag = Some(number);
            level = level.saturating_add(1);
        }
        None
    }

    /// What the next item is, if it has parts, which then have lines in place of it.
    fn holder_of(&self, next: Next) -> Option<Holder> {
        match next.head {
            ItemHead::Array(count) if has_parts(self.items.bytes, count, next.end) => {
                Some(Holder::Array(count))
            }
            ItemHead::Map(count) if has_parts(self.items.bytes, count, next.end) => {
                Some(Holder::Map(count))
            }
            ItemHead::String(..) => self.holder_of_string(next),
            _ => None,
        }
    }

    /// The same of a string: a byte string that is open.
    fn holder_of_string(&self, next: Next) -> Option<Holder> {
        let rest = self.items.bytes.get(next.end..)?;
        let content = content_after(next.head, rest)?;
        let string = ByteString {
            start: self.items.number(self.at),
            level: next.level,
            tag: next.tag,
        };
        match self.inside.content(string, content) {
            Content::Item => Some(Holder::Item),
            Content::Sequence if !content.is_empty() => Some(Holder::Items(Span {
                start: next.end,
                end: next.end.saturating_add(content.len()),
            })),
            _ => None,
        }
    }

    /// Goes into the next item.
    fn enter(&mut self, next: Next, holder: Holder) -> Result<(), AllocError> {
        self.at = next.end;
        self.levels.push(Level {
            holder,
            index: 0,
            path_len: self.path.len(),
            level: next.level.saturating_add(1),
            is_record: next.tag.is_some() && is_short(holder),
        })?;
        Ok(())
    }

    /// Appends what a line has before the item that [`next_leaf`](Leaves::next_leaf) returned last:
    /// its place, if asked, its path and two blanks.
    pub fn push_path(&self, out: &mut String, leaf: Span) -> Result<(), AllocError> {
        if self.places {
            let byte = self.items.number(leaf.start);
            write!(out, "0x{byte:x}  ")?;
        }
        push_number(out, self.number.saturating_sub(1))?;
        out.push_str(self.path.as_str())?;
        out.push_str("  ")
    }

    /// Appends that item in EDN, and marks its tokens if asked.
    pub fn push_item(
        &self,
        out: &mut String,
        leaf: Span,
        marks: Option<&Marks>,
    ) -> Result<(), Error> {
        let noted = NotedStyle {
            style: self.style,
            notes: &[],
            marks,
        };
        let item = leaf.bytes(self.items.bytes);
        push_bytes_to_edn_noted(*out.allocator(), item, noted, out)
    }

    /// Appends the line of an item.
    fn push_line(&self, out: &mut String, leaf: Span) -> Result<(), Error> {
        self.push_path(out, leaf)?;
        self.push_item(out, leaf, None)?;
        out.push('\n')?;
        Ok(())
    }
}

/// The most members that an array has whose indices stay apart in a path for all members.
const SHORT: u64 = 16;

/// Whether this is an array of few members.
fn is_short(holder: Holder) -> bool {
    matches!(holder, Holder::Array(Argument::Number(count, _)) if count <= SHORT)
}

/// Whether a container has a part, whose head ends at that place.
fn has_parts(bytes: &[u8], count: Argument, end: usize) -> bool {
    match count {
        Argument::Number(count, _) => count > 0,
        Argument::Indefinite => bytes.get(end) != Some(&0xff),
    }
}

/// How long the item at the front is.
fn len_of(bytes: &[u8]) -> usize {
    match extent(bytes) {
        Extent::Item(len) => len,
        _ => bytes.len(),
    }
}
