//! Sorts the pairs of a map by the core deterministic encodings of their keys (RFC 8949, section
//! 4.2.1), whatever encodings the keys have. But keys that are arrays or maps are sorted by their
//! own bytes, and tags by their numbers, then by their bytes. Also finds a key that the map has
//! twice.

use crate::items::{Items, Kind};
use cbor_floats::EncodedFloat;
use std::alloc::AllocError;

/// Where a key stands among others.
#[derive(Clone, Copy, PartialEq, Eq, PartialOrd, Ord)]
struct KeyOrder<'b> {
    major: u8,
    /// Of a float, which width is the shortest.
    width: u8,
    /// The number of an integer or a simple value, the length of a string, the bits of a float.
    argument: u64,
    content: &'b [u8],
    /// Which pair of the map it is.
    pair: usize,
}

/// The shortest width of a float, and its bits.
fn float_order(number: f64) -> (u8, u64) {
    match EncodedFloat::shortest(number) {
        EncodedFloat::Half(bits) => (1, u64::from(bits)),
        EncodedFloat::Single(bits) => (2, u64::from(bits)),
        EncodedFloat::Double(bits) => (3, bits),
    }
}

/// The major type and the argument of an integer.
fn integer_order(number: i128) -> (u8, u64) {
    match u64::try_from(number) {
        Ok(number) => (0, number),
        Err(_) => (
            1,
            u64::try_from((-1i128).saturating_sub(number)).unwrap_or(0),
        ),
    }
}

impl KeyOrder<'_> {
    /// Whether the next one in the order is the same key.
    fn is_key_of(self, next: KeyOrder<'_>) -> bool {
        (self.major, self.width, self.argument) == (next.major, next.width, next.argument)
            && self.content == next.content
    }
}

/// The keys and values of a map, in the order of the keys.
#[derive(Drop)]
struct SortedParts {
    parts: Vec<usize>,
    /// The first key in the bytes that the map has had before.
    second_key: Option<usize>,
}

impl Items<'_> {
    /// Where a key stands among others, which is that of a pair.
    fn order_of(&self, key: usize, pair: usize) -> KeyOrder<'_> {
        let item = self.item(key);
        let none = b"".as_slice();
        let (major, width, argument, content) = match item.kind {
            Kind::Integer(number) => {
                let (major, argument) = integer_order(number);
                (major, 0, argument, none)
            }
            Kind::Bytes(span) => (2, 0, self.bytes(span).len() as u64, self.bytes(span)),
            Kind::Text(span) => (3, 0, self.bytes(span).len() as u64, self.bytes(span)),
            Kind::Array => (4, 0, 0, self.bytes(item.span)),
            Kind::Map => (5, 0, 0, self.bytes(item.span)),
            Kind::Tag(number) => (6, 0, number, self.bytes(item.span)),
            Kind::Simple(number) => (7, 0, u64::from(number), none),
            Kind::Float(number) => {
                let (width, bits) = float_order(number);
                (7, width, bits, none)
            }
        };
        KeyOrder {
            major,
            width,
            argument,
            content,
            pair,
        }
    }

    /// The first key in the bytes that stands twice, of sorted ones. Equal keys are in the order of
    /// the bytes. The parts of the map begin at `first`.
    fn second_key(&self, keys: &[KeyOrder<'_>], first: usize) -> Option<usize> {
        let mut found = None;
        let mut least = usize::MAX;
        for place in 1..keys.len() {
            let (Some(one), Some(next)) = (keys.get(place - 1), keys.get(place)) else {
                break;
            };
            if one.is_key_of(*next) && next.pair < least {
                least = next.pair;
                found = self
                    .parts
                    .get(first.saturating_add(least.saturating_mul(2)))
                    .copied();
            }
        }
        found
    }

    /// The keys and values of a map, whose parts begin at `first`, in the order of the keys.
    fn sorted_parts(&self, first: usize, count: usize) -> Result<SortedParts, AllocError> {
        let alloc = *self.parts.allocator();
        let mut keys = Vec::new(alloc);
        for pair in 0..count / 2 {
            let place = first.saturating_add(pair.saturating_mul(2));
            let key = self.parts.get(place).copied().unwrap_or(0);
            keys.push(self.order_of(key, pair))?;
        }
        keys.as_mut_slice().sort_unstable();
        let mut parts = Vec::new(alloc);
        for key in &keys {
            let place = first.saturating_add(key.pair.saturating_mul(2));
            for part in self
                .parts
                .get(place..place.saturating_add(2))
                .unwrap_or(&[])
            {
                parts.push(*part)?;
            }
        }
        let second_key = self.second_key(&keys, first);
        Ok(SortedParts { parts, second_key })
    }

    /// Puts the parts of a map in the order of its keys, and takes note of a key that stands twice.
    pub(crate) fn sort(&mut self, first: usize, count: usize) -> Result<(), AllocError> {
        let sorted = self.sorted_parts(first, count)?;
        for (place, part) in sorted.parts.iter().enumerate() {
            if let Some(slot) = self.parts.get_mut(first.saturating_add(place)) {
                *slot = *part;
            }
        }
        if let Some(key) = sorted.second_key {
            let known = self.second_key.unwrap_or(usize::MAX);
            self.second_key = Some(known.min(key));
        }
        Ok(())
    }
}
