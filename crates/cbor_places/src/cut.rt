//! Writes the message for a truncated item: what its head states and how much is there, such as
//! "the array at a (byte 3) has 4 items, 2 are there".

use crate::around::{Around, Container, Named};
use crate::nouns::{
    count_of, noun_of_kind, noun_of_open, plural_of, push_number_there, push_there,
};
use crate::piece::Places;
use cbor_grammar::argument::Argument;
use cbor_grammar::head::ItemHead;
use cbor_grammar::strings::StringKind;
use cbor_trace::{Open, head_at};
use std::alloc::AllocError;
use std::fmt::Write;

impl Around<'_> {
    /// What is said of bytes that are cut, whose end this is around: which item is not whole, and
    /// how much of it is there.
    pub fn cut_words<P: Places>(&self, places: &P) -> Result<String, AllocError> {
        let mut out = String::new(self.path.allocator());
        if self.spot.start < self.piece.bytes.len() {
            self.push_cut_item(&mut out, places)?;
        } else if let Some(inside) = self.last {
            self.push_cut_container(&mut out, places, inside)?;
        } else {
            out.push_str("no item is at ")?;
            places.push_byte(&mut out, self.piece.begins)?;
        }
        Ok(out)
    }

    /// Appends a noun, and where that item is.
    fn push_subject<P: Places>(
        &self,
        out: &mut String,
        places: &P,
        subject: (&str, Named),
    ) -> Result<(), AllocError> {
        let (noun, item) = subject;
        write!(out, "the {noun}")?;
        let path = self.path.first(item.path_len);
        if item.in_key {
            out.push_str(" in a key")?;
        }
        if !path.is_empty() {
            write!(out, " at {path}")?;
        }
        let named = item.in_key || !path.is_empty();
        out.push_str(if named { " (" } else { " at " })?;
        places.push_byte(out, item.start)?;
        out.push_str(if named { ") has " } else { " has " })
    }

    /// Appends the part of the container that is there. Its next child is missing.
    fn push_cut_container<P: Places>(
        &self,
        out: &mut String,
        places: &P,
        inside: Container,
    ) -> Result<(), AllocError> {
        let noun = noun_of_open(inside.open);
        if let Open::Tag { number, .. } = inside.open {
            let noun = format!(in *out.allocator(); "tag {number}")?;
            self.push_subject(out, places, (&noun, inside.item))?;
            return out.push_str("no item");
        }
        match count_of(inside.open) {
            Some(Argument::Number(count, _)) => {
                self.push_subject(out, places, (noun, inside.item))?;
                let what = plural_of(inside.open, count);
                write!(out, "{count} {what}, ")?;
            }
            _ => {
                let noun = format!(in *out.allocator(); "{noun} of indefinite length")?;
                self.push_subject(out, places, (&noun, inside.item))?;
                out.push_str("no end, ")?;
            }
        }
        push_there(out, inside.open)
    }

    /// Appends the part of the innermost item that is there: its head or content is truncated.
    fn push_cut_item<P: Places>(&self, out: &mut String, places: &P) -> Result<(), AllocError> {
        let start = self.spot.start;
        match head_at(self.piece.bytes, start) {
            Some((ItemHead::String(kind, length), content)) => {
                self.push_cut_string(out, places, (kind, length, content))
            }
            _ => {
                self.push_subject(out, places, ("head", self.named()))?;
                let count = head_len(self.piece.bytes.get(start).map_or(0, |byte| *byte));
                write!(out, "{count} bytes, ")?;
                let there = self.piece.bytes.len().saturating_sub(start);
                push_number_there(out, there as u64, "")
            }
        }
    }

    /// Appends the part of the innermost item that is there, for a string: its kind, its length,
    /// and where its content begins.
    fn push_cut_string<P: Places>(
        &self,
        out: &mut String,
        places: &P,
        string: (StringKind, Argument, usize),
    ) -> Result<(), AllocError> {
        let (kind, length, content) = string;
        let noun = noun_of_kind(kind);
        let bytes = self.piece.bytes;
        if let Argument::Number(count, _) = length {
            self.push_subject(out, places, (noun, self.named()))?;
            let dropped = places.dropped(self.piece.number(content));
            let count = count.saturating_add(dropped as u64);
            let there = bytes.len().saturating_sub(content).saturating_add(dropped);
            let what = if count == 1 { "byte" } else { "bytes" };
            write!(out, "{count} {what}, ")?;
            return push_number_there(out, there as u64, "");
        }
        let noun = format!(in *out.allocator(); "{noun} of indefinite length")?;
        self.push_subject(out, places, (&noun, self.named()))?;
        let chunks = whole_chunks(bytes, content);
        let what = if chunks < 2 { " chunk" } else { " chunks" };
        out.push_str("no end, ")?;
        push_number_there(out, chunks as u64, what)
    }
}

/// How many chunks of a truncated string are whole. The first begins at this place.
fn whole_chunks(bytes: &[u8], first: usize) -> usize {
    let mut at = first;
    let mut count = 0usize;
    for _ in 0..bytes.len() {
        let Some((ItemHead::String(_, Argument::Number(len, _)), content)) = head_at(bytes, at)
        else {
            break;
        };
        at = content.saturating_add(usize::try_from(len).unwrap_or(usize::MAX));
        if at > bytes.len() {
            break;
        }
        count = count.saturating_add(1);
    }
    count
}

/// How many bytes a head has, by its first.
fn head_len(first: u8) -> usize {
    match first & 31 {
        24 => 2,
        25 => 3,
        26 => 5,
        27 => 9,
        _ => 1,
    }
}
