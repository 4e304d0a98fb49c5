//! `Violation`: the place where an encoding breaks a rule. `ViolationKind`: what is wrong there.
use cbor_floats::EncodedFloat;
use cbor_grammar::{Error, IntegerWidth};

/// The first place at which bytes break a rule.
#[derive(Clone, Copy, PartialEq, Eq, Debug)]
pub struct Violation {
    /// How many bytes come before the head, or before the key, that breaks it.
    pub place: usize,
    /// What is wrong there.
    pub kind: ViolationKind,
}

/// What is wrong with a head or with a key.
#[derive(Clone, Copy, PartialEq, Eq, Debug)]
pub enum ViolationKind {
    /// No item begins there, or a string's content is cut or is not UTF-8. `CutShort` if the bytes
    /// end before the item does.
    NoItem(Error),
    /// A simple value below 32 in two bytes, which RFC 8949 does not allow (section 3.3).
    LongSimple,
    /// The number of the head, as a value, a length, a count or a tag, fits a shorter width.
    LongHead {
        number: u64,
        width: IntegerWidth,
    },
    /// A text, or a chunk of one, is not in the normal form NFC.
    NotNfc,
    /// A shorter width has the float.
    LongFloat {
        float: EncodedFloat,
        shortest: EncodedFloat,
    },
    /// The float is the integer of this size, which is below zero if `negative` is set. -0.0 is the
    /// integer 0, of size 0.
    IntegerFloat {
        float: EncodedFloat,
        negative: bool,
        size: u64,
    },
    /// A NaN other than that of the bytes f97e00.
    OtherNan {
        float: EncodedFloat,
    },
    /// A simple value other than false, true and null.
    OtherSimple(u8),
    /// A string, an array or a map of indefinite length.
    Indefinite,
    /// A tag.
    Tag,
    /// A big number (tags 2 and 3) whose content begins with a zero byte.
    LeadingZero,
    /// A big number (tags 2 and 3) that an integer can have, by the length of its content.
    SmallBigNumber,
    /// An array or a map below the deepest level.
    TooDeep,
    /// The key comes before the key at this place in the order of keys.
    KeyOrder {
        previous: usize,
    },
    /// The key is the one at this place again.
    KeyTwice {
        first: usize,
    },
}
