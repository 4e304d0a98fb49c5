//! Returns the number of a kind of violation (`kind_number`) and, for such a number, a short text
//! (`kind_text`).
ghost use Rattle.std.specs.Prelude.{◌≡◌};
ghost use Rattle.cbor_messages.specs.Kinds.{kind_number, kind_text};

use cbor_rules::ViolationKind;

/// The number of a kind, from 1 to 15.
pub fn kind_number(kind: ViolationKind) -> u32
    ensures { result ≡ kind_number kind }
{
    match kind {
        ViolationKind::NoItem(_) => 1,
        ViolationKind::LongSimple => 2,
        ViolationKind::LongHead { .. } => 3,
        ViolationKind::NotNfc => 4,
        ViolationKind::LongFloat { .. } => 5,
        ViolationKind::IntegerFloat { .. } => 6,
        ViolationKind::OtherNan { .. } => 7,
        ViolationKind::OtherSimple(_) => 8,
        ViolationKind::Indefinite => 9,
        ViolationKind::Tag => 10,
        ViolationKind::LeadingZero => 11,
        ViolationKind::SmallBigNumber => 12,
        ViolationKind::TooDeep => 13,
        ViolationKind::KeyOrder { .. } => 14,
        ViolationKind::KeyTwice { .. } => 15,
    }
}

/// What is said of the kind with this number, in ASCII and without a full stop; `no such violation`
/// for another number.
pub fn kind_text(number: u32) -> &'static str
    ensures { result.now ≡ kind_text number }
{
    match number {
        1 => "no item",
        2 => "a simple value below 32 in two bytes",
        3 => "a head that is not the shortest",
        4 => "a text that is not in NFC",
        5 => "a float that is not the shortest",
        6 => "a float that is an integer",
        7 => "a NaN other than f97e00",
        8 => "a simple value other than false, true and null",
        9 => "an indefinite length",
        10 => "a tag",
        11 => "a big number that begins with a zero byte",
        12 => "a big number that fits an integer",
        13 => "nested deeper than the rules allow",
        14 => "a key that is out of order",
        15 => "a key that stands twice",
        _ => "no such violation",
    }
}
