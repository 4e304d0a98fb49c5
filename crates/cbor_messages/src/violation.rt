//! Writes the message for the first violation of a set of rules, and the message for items that
//! cannot be re-encoded in a way that keeps the set.

use crate::kind::{kind_number, kind_text};
use crate::widths::{major_of, push_integer_float, push_long_float, push_long_head};
use crate::words::{Message, TWO_BYTES, Words};
use cbor_grammar::Error;
use cbor_grammar::major::Major;
use cbor_places::Piece;
use cbor_reencode::{ReencodeError, violation_of};
use cbor_rules::{RuleSet, Violation, ViolationKind};
use std::alloc::Global;
use std::fmt::Write;

/// What is said of the first violation of the set in whole items; `None` if they keep it. The only
/// error is `Memory`.
pub fn first_violation(
    alloc: Global,
    set: RuleSet,
    items: Piece,
) -> Result<Option<Message>, Error> {
    let Some(violation) = violation_of(alloc, items.bytes, set.rules)? else {
        return Ok(None);
    };
    Ok(Some(message_on(alloc, set, items, violation)?))
}

/// What is said of whole items that cannot be encoded so that they keep the set: the error is that
/// of `reencoded`. The only error is `Memory`.
pub fn not_encoded(
    alloc: Global,
    set: RuleSet,
    items: Piece,
    error: ReencodeError,
) -> Result<Message, Error> {
    let violation = match error {
        ReencodeError::Memory => return Err(Error::Memory),
        ReencodeError::Violation(violation) => violation,
        ReencodeError::KeyTwice { first, second } => Violation {
            place: second,
            kind: ViolationKind::KeyTwice { first },
        },
        ReencodeError::Written(_) => {
            let mut words = Words::new(alloc, items);
            words.push(set.not)?;
            words.push("a text in chunks is not in NFC once they are joined")?;
            return Ok(words.at(0));
        }
    };
    message_on(alloc, set, items, violation)
}

/// What is said of a violation of the set.
fn message_on(
    alloc: Global,
    set: RuleSet,
    items: Piece,
    violation: Violation,
) -> Result<Message, Error> {
    let mut words = Words::new(alloc, items);
    words.push(set.not)?;
    words.push_violation(violation)?;
    Ok(words.at(violation.place))
}

/// What a head opens.
fn noun_of(bytes: &[u8]) -> &'static str {
    match major_of(bytes) {
        Major::Bytes => "a byte string",
        Major::Text => "a text",
        Major::Array => "an array",
        _ => "a map",
    }
}

impl Words<'_> {
    /// Writes what is wrong at a place.
    fn push_violation(&mut self, violation: Violation) -> Result<(), Error> {
        let Violation { place, kind } = violation;
        let rest = self.from(place);
        match kind {
            ViolationKind::NoItem(error) => self.push(error.text())?,
            ViolationKind::LongSimple => self.push(TWO_BYTES)?,
            ViolationKind::LongHead { number, width } => push_long_head(
                &mut self.out,
                rest,
                number,
                width,
            )?,
            ViolationKind::LongFloat { float, shortest } => push_long_float(
                &mut self.out,
                float,
                shortest,
            )?,
            ViolationKind::IntegerFloat {
                float,
                negative,
                size,
            } => push_integer_float(&mut self.out, float, negative, size)?,
            ViolationKind::OtherNan { .. } => self.push("the only NaN of dCBOR is f97e00")?,
            ViolationKind::OtherSimple(value) => {
                write!(
                    self.out,
                    "dCBOR has no simple({value}), only false, true and null"
                )?;
            }
            ViolationKind::NotNfc => self.push_not_nfc(place)?,
            ViolationKind::Indefinite => write!(
                self.out,
                "{} of indefinite length",
                noun_of(rest)
            )?,
            ViolationKind::Tag => self.push("CTAP2 has no tags")?,
            ViolationKind::LeadingZero | ViolationKind::SmallBigNumber => {
                self.push(kind_text(kind_number(kind)))?;
            }
            ViolationKind::TooDeep => self.push("CTAP2 has at most 4 levels of arrays and maps")?,
            ViolationKind::KeyOrder { .. } | ViolationKind::KeyTwice { .. } => {
                self.push_key_violation(place, kind)?;
            }
        }
        Ok(())
    }

    /// Writes that the text at a place is not in NFC.
    fn push_not_nfc(&mut self, place: usize) -> Result<(), Error> {
        if !self.push_short(place)? {
            self.push("a text")?;
        }
        Ok(self.push(" is not in NFC")?)
    }

    /// Writes what is wrong with a key.
    fn push_key_violation(&mut self, place: usize, kind: ViolationKind) -> Result<(), Error> {
        self.push("the key ")?;
        self.push_key(place)?;
        match kind {
            ViolationKind::KeyOrder { previous } => {
                self.push(" comes after ")?;
                self.push_key(previous)?;
            }
            ViolationKind::KeyTwice { first } => {
                self.push(" was ")?;
                self.push_byte(first)?;
                self.push_other(place, first)?;
            }
            _ => {}
        }
        Ok(())
    }

    /// Writes the first of two keys that are one, if it is short and its bytes differ from those of
    /// the one at a place.
    fn push_other(&mut self, place: usize, first: usize) -> Result<(), Error> {
        if self.item(place) == self.item(first) {
            return Ok(());
        }
        if let Some(text) = self.short(first)? {
            self.push(" as ")?;
            self.push(&text)?;
        }
        Ok(())
    }
}
