//! Chooses the slot of a question in the table of answers that `work.rt` keeps. A question is
//! whether an item fits a type. The slot is a hash of the type and of the first parts of the item.
//! The number of levels that are left does not count, since an answer stays the same with more
//! levels.

use crate::value::Datum;
use crate::work::Question;
use std::num::f64_to_bits_with_nan;

/// How many parts of an item are hashed.
const MOST_PARTS: u32 = 256;

/// How many bytes of a string are hashed.
const MOST_BYTES: usize = 16;

/// Each part is multiplied by this odd number, whose ones and zeros are in no order.
const FACTOR: u64 = 0x517c_c1b7_2722_0a95;

/// The slot of a question.
pub(crate) fn slot_of(question: Question) -> usize {
    let mut hash = Hash {
        state: 0,
        parts: MOST_PARTS,
    };
    hash.add(question.index as u64);
    hash.add_datum(question.datum);
    (hash.state >> 52) as usize
}

/// The hash of what is added.
#[derive(Drop)]
struct Hash {
    /// The hash so far.
    state: u64,
    /// How many more parts are added.
    parts: u32,
}

impl Hash {
    /// Adds a number.
    fn add(&mut self, number: u64) {
        self.state = (self.state.rotate_left(5) ^ number).wrapping_mul(FACTOR);
    }

    /// Adds the length of a string, and its first bytes.
    fn add_bytes(&mut self, bytes: &[u8]) {
        self.add(bytes.len() as u64);
        for byte in &bytes[..bytes.len().min(MOST_BYTES)] {
            self.add(u64::from(*byte));
        }
    }

    /// Adds an item, unless enough parts are added.
    #[cycle(hash)]
    fn add_datum(&mut self, datum: &Datum) {
        if self.parts == 0 {
            return;
        }
        self.parts -= 1;
        match datum {
            Datum::Unsigned(number) => self.add_part(0, *number),
            Datum::Negative(number) => self.add_part(1, *number),
            Datum::Bytes(content) => {
                self.add(2);
                self.add_bytes(content);
            }
            Datum::Text(content) => {
                self.add(3);
                self.add_bytes(content.as_bytes());
            }
            Datum::Array(members) => self.add_members(members),
            Datum::Map(pairs) => self.add_pairs(pairs),
            Datum::Tag(number, content) => {
                self.add_part(6, *number);
                self.add_datum(content);
            }
            Datum::Float(number) => self.add_part(7, f64_to_bits_with_nan(*number)),
            Datum::Simple(number) => self.add_part(8, u64::from(*number)),
        }
    }

    /// Adds a kind of item, and its number.
    fn add_part(&mut self, kind: u64, number: u64) {
        self.add(kind);
        self.add(number);
    }

    /// Adds the members of an array.
    #[cycle(hash)]
    fn add_members(&mut self, members: &Vec<Datum>) {
        self.add_part(4, members.len() as u64);
        for member in members {
            if self.parts == 0 {
                return;
            }
            self.add_datum(member);
        }
    }

    /// Adds the pairs of a map.
    #[cycle(hash)]
    fn add_pairs(&mut self, pairs: &Vec<(Datum, Datum)>) {
        self.add_part(5, pairs.len() as u64);
        for (key, value) in pairs {
            if self.parts == 0 {
                return;
            }
            self.add_datum(key);
            self.add_datum(value);
        }
    }
}
