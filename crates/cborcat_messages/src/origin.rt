//! `Origin`: the name, form and text of an input. Messages use them to name its bytes.

use crate::lines::{label, say_at};
use cbor_inputs::{Input, place_of_printed};
use cbor_messages::{Position, position_of};
use cbor_places::Places;
use cborcat_arguments::Color;
use std::alloc::{AllocError, Global};
use std::fmt::{Display, Write};

/// Bytes of a string that were dropped when they had come.
#[derive(Clone, Copy)]
pub struct Hole {
    /// The number of the byte after them.
    pub end: usize,
    /// How many they are.
    pub len: usize,
}

/// Where the data of an input comes from.
#[derive(Clone, Copy)]
pub struct Origin<'a> {
    /// The name of the input.
    pub name: &'a str,
    /// The form that it was read in.
    pub form: Input,
    /// Whether its text is a dump or code that has the bytes.
    pub is_printed: bool,
    /// What it is in that form, if it is not bytes.
    pub text: &'a [u8],
    /// Whether messages of it have colours.
    pub color: Color,
    /// Whether its items are changed before they are looked at.
    pub changed: bool,
    /// Which of its bytes were dropped. Without these, the others are numbered from the last one
    /// that came, so the numbers before a hole are too great.
    pub holes: &'a [Hole],
}

impl Origin<'_> {
    /// Where a byte of the data is in the text, if the data is that of a text.
    pub(crate) fn place(&self, alloc: Global, byte: usize) -> Result<Option<usize>, AllocError> {
        match self.form {
            _ if self.changed => Ok(None),
            Input::Bytes => Ok(None),
            Input::Hex if self.is_printed => Ok(Some(place_of_printed(self.text, byte))),
            form => Ok(Some(form.place_of(alloc, self.text, byte)?)),
        }
    }

    /// The number in the data of a byte of this number.
    pub(crate) fn number(&self, byte: usize) -> usize {
        let mut number = byte;
        for hole in self.holes {
            if byte < hole.end {
                number = number.saturating_sub(hole.len);
            }
        }
        number
    }

    /// The mark below a byte of the text: the two digits of hex, or the character.
    pub(crate) fn mark(&self) -> &'static str {
        match self.form {
            Input::Hex => "^^",
            _ => "^",
        }
    }

    /// Says what is wrong at a byte of the data.
    pub fn say_at_byte<T: Display + Drop>(&self, rt: &HostRuntime, byte: usize, what: T) {
        match self.place(rt.alloc(), byte) {
            Ok(Some(at)) => say_at(rt, (self.name, self.text), at, what),
            _ => {
                let (name, byte) = (label(self.name), self.number(byte));
                let _ = eprintln!(rt; "cborcat: {name}: byte {byte}{}: {what}", self.within());
            }
        }
    }

    /// What its bytes are counted in, if that is not the input.
    pub(crate) fn within(&self) -> &'static str {
        if self.changed {
            " of the changed bytes"
        } else {
            ""
        }
    }
}

impl Places for Origin<'_> {
    fn push_byte(&self, out: &mut String, byte: usize) -> Result<(), AllocError> {
        match self.place(*out.allocator(), byte)? {
            Some(at) => {
                let Position { line, column, .. } = position_of(self.text, at);
                write!(out, "{line}:{column}")
            }
            None => write!(out, "byte {}", self.number(byte)),
        }
    }

    fn dropped(&self, byte: usize) -> usize {
        for hole in self.holes {
            if hole.end == byte {
                return hole.len;
            }
        }
        0
    }
}
