//! Reads an integer, a text or a float at the front of bytes, and finds the row of the tables for
//! an integer or a text. `Kind::is_at`: whether the item there is of a kind.

use crate::part::Kind;
use crate::shape::EPOCH;
use crate::table::{KeyRow, Names, PartRow};
use cbor_bytes::head::read_head;
use cbor_floats::EncodedFloat;
use cbor_grammar::FloatWidth;
use cbor_grammar::argument::Argument;
use cbor_grammar::head::ItemHead;
use cbor_grammar::strings::StringKind;

/// An integer of 64 bits, or a text of definite length.
#[derive(Clone, Copy)]
pub(crate) enum Scalar<'b> {
    Integer(i64),
    Text(&'b [u8]),
}

impl Names {
    /// Whether the integer or text is this one.
    fn is(&self, key: KeyRow, scalar: Scalar<'_>) -> bool {
        match (key, scalar) {
            (KeyRow::Integer(key), Scalar::Integer(value)) => key == value,
            (KeyRow::Text(key), Scalar::Text(text)) => self.text(key).as_bytes() == text,
            _ => false,
        }
    }

    /// Whether it is at the front.
    pub(crate) fn is_at(&self, key: KeyRow, bytes: &[u8]) -> bool {
        match scalar_at(bytes) {
            Some(scalar) => self.is(key, scalar),
            None => false,
        }
    }

    /// Whether a part is of this key, in a map in which the key that it may depend on has this
    /// value.
    fn fits(&self, part: &PartRow, key: Scalar<'_>, chosen: Option<Scalar<'_>>) -> bool {
        self.is(part.key, key) && self.applies(part, chosen)
    }

    /// Whether a part is one of a map in which the key that it may depend on has this value.
    pub(crate) fn applies(&self, part: &PartRow, chosen: Option<Scalar<'_>>) -> bool {
        match (part.when, chosen) {
            (None, _) => true,
            (Some(when), Some(value)) => self.is(when, value),
            (Some(_), None) => false,
        }
    }

    /// What is said of the key at the front, or of the value there.
    pub(crate) fn part_at<'p>(
        &self,
        parts: &'p [PartRow],
        chosen: Option<Scalar<'_>>,
        bytes: &[u8],
    ) -> Option<&'p PartRow> {
        if parts.is_empty() {
            return None;
        }
        let key = scalar_at(bytes)?;
        for part in parts {
            if self.fits(part, key, chosen) {
                return Some(part);
            }
        }
        None
    }
}

/// The integer or text at the front.
pub(crate) fn scalar_at(bytes: &[u8]) -> Option<Scalar<'_>> {
    let Ok((head, rest)) = read_head(bytes) else {
        return None;
    };
    match head {
        ItemHead::Integer(number, _) => Some(Scalar::Integer(i64::try_from(number).ok()?)),
        ItemHead::Negative(number, _) => Some(Scalar::Integer(-1 - i64::try_from(number).ok()?)),
        ItemHead::String(StringKind::Text, Argument::Number(len, _)) => {
            if (rest.len() as u64) < len {
                return None;
            }
            let (text, _) = rest.split_at(len as usize);
            Some(Scalar::Text(text))
        }
        _ => None,
    }
}

/// The float at the front.
pub(crate) fn float_at(bytes: &[u8]) -> Option<EncodedFloat> {
    let Ok((ItemHead::Float(bits, width), _)) = read_head(bytes) else {
        return None;
    };
    match width {
        FloatWidth::Sixteen => Some(EncodedFloat::Half(u16::try_from(bits).ok()?)),
        FloatWidth::ThirtyTwo => Some(EncodedFloat::Single(u32::try_from(bits).ok()?)),
        FloatWidth::Unknown | FloatWidth::SixtyFour => Some(EncodedFloat::Double(bits)),
    }
}

impl Kind {
    /// Whether the item at the front is of this kind.
    pub(crate) fn is_at(self, bytes: &[u8]) -> bool {
        let Ok((head, rest)) = read_head(bytes) else {
            return false;
        };
        match (self, head) {
            (Kind::Number, ItemHead::Tag(EPOCH, _)) => self.is_first(rest),
            (Kind::Texts | Kind::ByteStrings, ItemHead::Array(_)) => self.is_first(rest),
            (Kind::Array, ItemHead::Array(_)) | (Kind::Map, ItemHead::Map(_)) => true,
            (_, head) => self.is_scalar(head),
        }
    }

    /// The same of a number or a string.
    fn is_first(self, bytes: &[u8]) -> bool {
        match read_head(bytes) {
            Ok((head, _)) => self.is_scalar(head),
            Err(_) => false,
        }
    }

    /// The same of the number or the string with this head.
    fn is_scalar(self, head: ItemHead) -> bool {
        match head {
            ItemHead::Integer(..) | ItemHead::Negative(..) | ItemHead::Float(..) => {
                self == Kind::Number
            }
            ItemHead::String(StringKind::Text, _) => {
                matches!(self, Kind::Text | Kind::Texts | Kind::TextOrBytes)
            }
            ItemHead::String(StringKind::Bytes, _) => {
                matches!(self, Kind::Bytes | Kind::ByteStrings | Kind::TextOrBytes)
            }
            _ => false,
        }
    }
}
