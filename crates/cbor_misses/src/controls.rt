//! Checks whether an item fits a type with a control, such as `.size` or `.cbor`.

use crate::blame::{Found, Want};
use crate::items::{Item, Kind};
use crate::run::{Inner, Run};
use cbor_cddl::{Comparison, Node, Span, Stop, Value, float_of};

/// How many bytes a number takes.
fn bytes_of(number: i128) -> i128 {
    let mut rest = number;
    for count in 0..16u8 {
        if rest <= 0 {
            return i128::from(count);
        }
        rest = rest >> 8;
    }
    16
}

/// Whether two numbers compare so.
fn compares<T: PartialOrd + Copy>(number: T, comparison: Comparison, limit: T) -> bool {
    match comparison {
        Comparison::Less => number < limit,
        Comparison::LessOrEqual => number <= limit,
        Comparison::Greater => number > limit,
        Comparison::GreaterOrEqual => number >= limit,
    }
}

/// Whether an item compares so with a limit.
fn item_compares(kind: Kind, comparison: Comparison, limit: Value) -> bool {
    match (kind, limit) {
        (Kind::Integer(number), Value::Integer(limit)) => compares(number, comparison, limit),
        (Kind::Integer(number), Value::Float(limit)) => {
            compares(float_of(number), comparison, limit)
        }
        (Kind::Float(number), Value::Integer(limit)) => {
            compares(number, comparison, float_of(limit))
        }
        (Kind::Float(number), Value::Float(limit)) => compares(number, comparison, limit),
        _ => false,
    }
}

/// The length of a span.
fn span_len(span: Span) -> usize {
    span.end.saturating_sub(span.start)
}

impl<'a> Run<'a> {
    /// Whether an item fits a node that is a control of this target.
    #[cycle(fits)]
    pub(crate) fn fits_control(
        &mut self,
        target: usize,
        node: usize,
        index: usize,
        depth: u32,
    ) -> Result<bool, Stop> {
        if !self.fits_muted(target, index, depth)? {
            return self.miss_item(node, index);
        }
        let item = self.items.item(index);
        match self.schema.node(node) {
            Node::Size { sizes, .. } => self.fits_size(sizes, node, index, depth),
            Node::Bits { bits, .. } => self.fits_bits(bits, node, index, depth),
            Node::Encoded { item: inner, .. } => self.fits_encoded(inner, node, index, depth),
            Node::EncodedSequence { array, .. } => self.fits_encoded(array, node, index, depth),
            Node::Pattern { .. } => {
                if self.fits_pattern(node, item) {
                    return Ok(true);
                }
                self.miss_item(node, index)
            }
            Node::Compared {
                comparison,
                limit,
                ..
            } => {
                if item_compares(item.kind, comparison, limit) {
                    return Ok(true);
                }
                self.miss_item(node, index)
            }
            Node::Unequal { other, .. } => {
                if !self.fits_muted(other, index, depth)? {
                    return Ok(true);
                }
                self.miss_item(node, index)
            }
            _ => Ok(true),
        }
    }

    /// `.size`
    fn fits_size(
        &mut self,
        sizes: usize,
        node: usize,
        index: usize,
        depth: u32,
    ) -> Result<bool, Stop> {
        let item = self.items.item(index);
        let (fits, found) = match item.kind {
            Kind::Text(span) | Kind::Bytes(span) => {
                let len = span_len(span);
                let fits = self.fits_number(sizes, i128::from(len as u64), depth)?;
                (fits, Found::Sized)
            }
            Kind::Integer(number) if number >= 0 => {
                let fits = self.has_number(sizes, bytes_of(number), i128::MAX, depth)?;
                (fits, Found::Item)
            }
            _ => (false, Found::Item),
        };
        if !fits {
            self.miss(Want::Type(node), index, found)?;
        }
        Ok(fits)
    }

    /// `.bits`
    fn fits_bits(
        &mut self,
        bits: usize,
        node: usize,
        index: usize,
        depth: u32,
    ) -> Result<bool, Stop> {
        let item = self.items.item(index);
        let other = match item.kind {
            Kind::Bytes(span) => self.other_bit(bits, span, depth)?,
            Kind::Integer(number) => match u64::try_from(number) {
                Ok(number) => self.other_bit_of(bits, number, 0, depth)?,
                Err(_) => return self.miss_item(node, index),
            },
            _ => return self.miss_item(node, index),
        };
        let Some(bit) = other else {
            return Ok(true);
        };
        self.miss(Want::Type(node), index, Found::Bit(bit))?;
        Ok(false)
    }

    /// The first bit of a byte string that is set and not one of these.
    fn other_bit(&mut self, bits: usize, span: Span, depth: u32) -> Result<Option<u64>, Stop> {
        for at in 0..span_len(span) {
            let byte = self.items.bytes(span).get(at).copied().unwrap_or(0);
            let first = (at as u64).saturating_mul(8);
            let found = self.other_bit_of(bits, u64::from(byte), first, depth)?;
            if found.is_some() {
                return Ok(found);
            }
        }
        Ok(None)
    }

    /// The first bit of a number that is set and not one of these. Its lowest bit has the number
    /// `first`.
    fn other_bit_of(
        &mut self,
        bits: usize,
        number: u64,
        first: u64,
        depth: u32,
    ) -> Result<Option<u64>, Stop> {
        for bit in 0..64u64 {
            let name = first.saturating_add(bit);
            let is_set = (number >> (bit as u32)) & 1 == 1;
            if is_set && !self.fits_number(bits, i128::from(name), depth)? {
                return Ok(Some(name));
            }
        }
        Ok(None)
    }

    /// `.regexp`, `.pcre`
    fn fits_pattern(&mut self, node: usize, item: Item) -> bool {
        let Kind::Text(span) = item.kind else {
            return false;
        };
        let Ok(text) = str::from_utf8(self.items.bytes(span)) else {
            return false;
        };
        let Ok(place) = self
            .patterns
            .binary_search_by_key(&node, |pattern| pattern.node)
        else {
            return false;
        };
        match self.matchers.get_mut(place) {
            Some(matcher) => matcher.is_match(text),
            None => false,
        }
    }

    /// The item or the items that a byte string holds.
    fn inner_item(&mut self, index: usize, is_sequence: bool) -> Result<Inner, Stop> {
        if let Some(known) = self.inner.get(&(index, is_sequence)) {
            return Ok(*known);
        }
        let item = self.items.item(index);
        let Kind::Bytes(content) = item.kind else {
            return Ok(Inner::Nothing);
        };
        let alloc = self.alloc;
        let found = if is_sequence {
            self.items.read_sequence(content, index, alloc)?
        } else {
            self.items.read(content, Some(index))?
        };
        let inner = match (found, self.items.second_key) {
            (None, _) => Inner::Nothing,
            (Some(_), Some(key)) => Inner::KeyTwice(key),
            (Some(item), None) => Inner::Item(item),
        };
        self.inner.insert((index, is_sequence), inner)?;
        Ok(inner)
    }

    /// `.cbor`, `.cborseq`
    #[cycle(fits)]
    fn fits_encoded(
        &mut self,
        wanted: usize,
        node: usize,
        index: usize,
        depth: u32,
    ) -> Result<bool, Stop> {
        let is_sequence = matches!(self.schema.node(node), Node::EncodedSequence { .. });
        let inner = self.inner_item(index, is_sequence)?;
        let gained = self.gained;
        // An array of several items has the head of the string itself.
        if !(is_sequence && matches!(inner, Inner::Item(_))) {
            self.gained = gained.saturating_add(self.items.item(index).head);
        }
        let fits = match inner {
            Inner::Item(inner) => self.fits(wanted, inner, depth)?,
            Inner::Nothing => {
                self.miss(Want::Type(node), index, Found::NoCbor)?;
                false
            }
            Inner::KeyTwice(key) => self.miss_second_key(key)?,
        };
        self.gained = gained;
        Ok(fits)
    }
}
