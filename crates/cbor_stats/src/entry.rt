//! `Entry`: counts the values at one path: how many there are, their bytes and kinds, and the least
//! and greatest number and length. Also writes the kinds with these bounds.

use cbor_floats::{EncodedFloat, push_number};
use cbor_grammar::argument::Argument;
use cbor_grammar::head::ItemHead;
use cbor_grammar::strings::StringKind;
use cbor_grammar::width::FloatWidth;
use cbor_trace::head_at;
use std::alloc::{AllocError, Global};

/// The kinds of a value, each with its bit.
const KINDS: [&str; 9] = [
    "integer",
    "float",
    "text",
    "byte string",
    "boolean",
    "null",
    "undefined",
    "simple value",
    "empty container",
];

/// The places of these in the list.
const INTEGER: usize = 0;

const FLOAT: usize = 1;

const TEXT: usize = 2;

const BYTES: usize = 3;

/// The bounds of numbers.
#[derive(Clone, Copy)]
struct Bounds<T> {
    least: T,
    most: T,
}

/// The values at a path.
#[derive(Drop)]
pub(crate) struct Entry {
    pub path: String,
    /// How many there are.
    pub count: u64,
    /// How many bytes they take.
    pub bytes: u64,
    /// How many are of each kind.
    kinds: [u64; 9],
    integers: Option<Bounds<i128>>,
    floats: Option<Bounds<f64>>,
    /// The lengths of texts and of byte strings.
    texts: Option<Bounds<u64>>,
    strings: Option<Bounds<u64>>,
    /// Whether some have tags.
    tagged: bool,
}

/// The bounds, with one more number between them.
fn with<T: PartialOrd + Copy>(bounds: Option<Bounds<T>>, number: T) -> Option<Bounds<T>> {
    let Some(bounds) = bounds else {
        return Some(Bounds {
            least: number,
            most: number,
        });
    };
    Some(Bounds {
        least: if number < bounds.least {
            number
        } else {
            bounds.least
        },
        most: if number > bounds.most {
            number
        } else {
            bounds.most
        },
    })
}

/// The number of a float, by its bits.
fn float_of(bits: u64, width: FloatWidth) -> f64 {
    match width {
        FloatWidth::Sixteen => EncodedFloat::Half(u16::try_from(bits).unwrap_or(0)).value(),
        FloatWidth::ThirtyTwo => EncodedFloat::Single(u32::try_from(bits).unwrap_or(0)).value(),
        FloatWidth::SixtyFour | FloatWidth::Unknown => EncodedFloat::Double(bits).value(),
    }
}

impl Entry {
    /// No values yet.
    pub(crate) fn new(alloc: Global, path: &str) -> Result<Entry, AllocError> {
        Ok(Entry {
            path: String::from_str(alloc, path)?,
            count: 0,
            bytes: 0,
            kinds: [0; 9],
            integers: None,
            floats: None,
            texts: None,
            strings: None,
            tagged: false,
        })
    }

    /// Counts a value.
    pub(crate) fn add(&mut self, item: &[u8]) {
        self.count = self.count.saturating_add(1);
        self.bytes = self.bytes.saturating_add(item.len() as u64);
        let mut at = 0;
        for _ in 0..=u8::MAX {
            let Some((head, end)) = head_at(item, at) else {
                return;
            };
            let ItemHead::Tag(..) = head else {
                self.add_head(head, item.len().saturating_sub(end) as u64);
                return;
            };
            self.tagged = true;
            at = end;
        }
    }

    /// Counts a value by its head, and the number of bytes behind that.
    fn add_head(&mut self, head: ItemHead, rest: u64) {
        let kind = match head {
            ItemHead::Integer(number, _) => {
                self.integers = with(self.integers, i128::from(number));
                INTEGER
            }
            ItemHead::Negative(number, _) => {
                self.integers = with(self.integers, -1 - i128::from(number));
                INTEGER
            }
            ItemHead::Float(bits, width) => {
                self.floats = with(self.floats, float_of(bits, width));
                FLOAT
            }
            ItemHead::String(kind, length) => self.add_string(kind, length, rest),
            ItemHead::Simple(20 | 21) => 4,
            ItemHead::Simple(22) => 5,
            ItemHead::Simple(23) => 6,
            ItemHead::Simple(_) => 7,
            ItemHead::Array(_) | ItemHead::Map(_) | ItemHead::Tag(..) => 8,
        };
        if let Some(count) = self.kinds.get_mut(kind) {
            *count = count.saturating_add(1);
        }
    }

    /// Counts a string. The length of one in chunks is that of the chunks with their heads.
    fn add_string(&mut self, kind: StringKind, length: Argument, rest: u64) -> usize {
        let len = match length {
            Argument::Number(len, _) => len,
            Argument::Indefinite => rest.saturating_sub(1),
        };
        match kind {
            StringKind::Text => {
                self.texts = with(self.texts, len);
                TEXT
            }
            StringKind::Bytes => {
                self.strings = with(self.strings, len);
                BYTES
            }
        }
    }

    /// Appends the kinds of the values, with their bounds.
    pub(crate) fn push_kinds(&self, out: &mut String) -> Result<(), AllocError> {
        let mut between = "";
        for (kind, count) in self.kinds.iter().enumerate() {
            if *count == 0 {
                continue;
            }
            out.push_str(between)?;
            out.push_str(KINDS[kind])?;
            self.push_bounds(out, kind)?;
            between = ", ";
        }
        if self.tagged {
            out.push_str("; tagged")?;
        }
        Ok(())
    }

    /// Appends the bounds of the values of a kind.
    fn push_bounds(&self, out: &mut String, kind: usize) -> Result<(), AllocError> {
        match kind {
            INTEGER => push_integers(out, self.integers),
            FLOAT => push_floats(out, self.floats),
            TEXT => push_lengths(out, self.texts),
            BYTES => push_lengths(out, self.strings),
            _ => Ok(()),
        }
    }
}

/// Appends the bounds of integers.
fn push_integers(out: &mut String, bounds: Option<Bounds<i128>>) -> Result<(), AllocError> {
    match bounds {
        Some(bounds) if bounds.least < bounds.most => {
            write!(out, " {} to {}", bounds.least, bounds.most)
        }
        Some(bounds) => write!(out, " {}", bounds.least),
        None => Ok(()),
    }
}

/// Appends the bounds of floats.
fn push_floats(out: &mut String, bounds: Option<Bounds<f64>>) -> Result<(), AllocError> {
    let Some(bounds) = bounds else {
        return Ok(());
    };
    out.push(' ')?;
    push_number(out, bounds.least)?;
    if bounds.least < bounds.most {
        out.push_str(" to ")?;
        push_number(out, bounds.most)?;
    }
    Ok(())
}

/// Appends the bounds of lengths.
fn push_lengths(out: &mut String, bounds: Option<Bounds<u64>>) -> Result<(), AllocError> {
    match bounds {
        Some(bounds) if bounds.least < bounds.most => {
            write!(out, " of {} to {} bytes", bounds.least, bounds.most)
        }
        Some(Bounds { least: 1, .. }) => out.push_str(" of 1 byte"),
        Some(bounds) => write!(out, " of {} bytes", bounds.least),
        None => Ok(()),
    }
}
