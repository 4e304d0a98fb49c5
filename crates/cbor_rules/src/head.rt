//! Finds what is wrong with one head by the rules: its width, its float, its simple value, its
//! indefinite length, its level, its tag, or the big number below the tag. `float_of`: the float
//! with given bits.
ghost use Rattle.std.specs.Prelude.{◌≡◌, ℕ, List, None, true};
ghost use Rattle.cbor_floats.specs.Preferred.{FitsWidth};
ghost use Rattle.cbor_grammar.specs.Reading.{read_head};
ghost use Rattle.cbor_grammar.specs.WellFormed.{FitsFloat};
ghost use Rattle.cbor_rules.specs.FirstViolation.{is_long, two_byte_violation, content_violation};
ghost use Rattle.cbor_rules.specs.FirstViolation.{big_violation, tag_violation, head_violation};
ghost use Rattle.cbor_rules.specs.FirstViolation.{number_violation, float_violation};
ghost use Rattle.cbor_rules.specs.FirstViolation.{simple_violation};
ghost use Rattle.cbor_rules.specs.FirstViolation.{argument_violation, container_violation};
ghost use Rattle.cbor_rules.specs.mirror.Opened.{FloatFits};
ghost use Rattle.cbor_rules.specs.Keeps.{float_of};

use crate::kind::ViolationKind;
use crate::reduced::reduced_violation;
use crate::rules::Rules;
use cbor_bytes::head::read_head;
use cbor_floats::EncodedFloat;
use cbor_grammar::argument::Argument;
use cbor_grammar::head::ItemHead;
use cbor_grammar::strings::StringKind;
use cbor_grammar::{FloatWidth, IntegerWidth};

/// Whether a shorter width would hold the number.
#[inline(always)]
pub fn is_long(width: IntegerWidth, number: u64) -> bool
    ensures { result ≡ is_long width number }
{
    match width {
        IntegerWidth::Unknown | IntegerWidth::Zero => false,
        IntegerWidth::Eight => number < 24,
        IntegerWidth::Sixteen => number < 0x100,
        IntegerWidth::ThirtyTwo => number < 0x1_0000,
        IntegerWidth::SixtyFour => number < 0x1_0000_0000,
    }
}

/// The float of these bits.
pub fn float_of(bits: u64, width: FloatWidth) -> EncodedFloat
    requires { FitsFloat width bits }
    ensures is { result ≡ float_of bits width }
    ensures fits { FitsWidth result }
{
    match width {
        FloatWidth::Sixteen => EncodedFloat::Half(bits as u16),
        FloatWidth::ThirtyTwo => EncodedFloat::Single(bits as u32),
        FloatWidth::SixtyFour | FloatWidth::Unknown => EncodedFloat::Double(bits),
    }
}

/// What is wrong with a simple value at the front, if it takes two bytes and is below 32.
#[inline(always)]
pub fn two_byte_violation(bytes: &[u8]) -> Option<ViolationKind>
    ensures { result ≡ two_byte_violation bytes.now }
{
    match bytes {
        [first, value, ..] if *first == 0xf8 && *value < 32 => Some(ViolationKind::LongSimple),
        _ => None,
    }
}

/// What is wrong with the content of a big number, of that length, which begins with these bytes.
pub fn content_violation(count: u64, bytes: &[u8]) -> Option<ViolationKind>
    ensures { result ≡ content_violation count bytes.now }
{
    match bytes {
        _ if count < 9 => Some(ViolationKind::SmallBigNumber),
        [0, ..] => Some(ViolationKind::LeadingZero),
        _ => None,
    }
}

/// What is wrong with the item of a tag for big numbers, by its head.
pub fn big_violation(bytes: &[u8]) -> Option<ViolationKind>
    ensures { result ≡ big_violation (read_head bytes.now) }
{
    match read_head(bytes) {
        Ok((ItemHead::String(StringKind::Bytes, Argument::Number(count, _)), rest)) => {
            content_violation(count, rest)
        }
        _ => None,
    }
}

impl Rules {
    /// What is wrong with the number of a head.
    #[inline(always)]
    pub(crate) fn number_violation(self, number: u64, width: IntegerWidth) -> Option<ViolationKind>
        ensures { result ≡ number_violation self number width }
    {
        if self.shortest_heads && is_long(width, number) {
            Some(ViolationKind::LongHead { number, width })
        } else {
            None
        }
    }

    /// What is wrong with a float.
    pub(crate) fn float_violation(self, float: EncodedFloat) -> Option<ViolationKind>
        ensures { result ≡ float_violation self float }
    {
        if self.reduced_floats {
            if let Some(kind) = reduced_violation(float) {
                return Some(kind);
            }
        }
        if !self.shortest_floats {
            return None;
        }
        let shortest = float.shorter()?;
        Some(ViolationKind::LongFloat { float, shortest })
    }

    /// What is wrong with a simple value at the front of these bytes.
    #[inline(always)]
    pub(crate) fn simple_violation(self, value: u8, bytes: &[u8]) -> Option<ViolationKind>
        ensures { result ≡ simple_violation self value bytes.now }
    {
        if let Some(kind) = two_byte_violation(bytes) {
            return Some(kind);
        }
        if self.other_simple || matches!(value, 20..=22) {
            None
        } else {
            Some(ViolationKind::OtherSimple(value))
        }
    }

    /// What is wrong with a length or a count.
    #[inline(always)]
    pub(crate) fn argument_violation(self, argument: Argument) -> Option<ViolationKind>
        ensures { result ≡ argument_violation self argument }
    {
        match argument {
            Argument::Number(number, width) => self.number_violation(number, width),
            Argument::Indefinite if self.definite_lengths => Some(ViolationKind::Indefinite),
            Argument::Indefinite => None,
        }
    }

    /// What is wrong with the head of an array or a map at this level.
    #[inline(always)]
    pub(crate) fn container_violation(self, level: u8, count: Argument) -> Option<ViolationKind>
        ensures { result ≡ container_violation self level count }
    {
        if level > self.deepest {
            Some(ViolationKind::TooDeep)
        } else {
            self.argument_violation(count)
        }
    }

    /// What is wrong with a tag before these bytes.
    pub(crate) fn tag_violation(self, tag: u64, rest: &[u8]) -> Option<ViolationKind>
        ensures { result ≡ tag_violation self tag rest.now }
    {
        if self.big_numbers && (tag == 2 || tag == 3) {
            big_violation(rest)
        } else {
            None
        }
    }

    /// What is wrong with the head at the front of these bytes, after which `rest` comes.
    pub(crate) fn head_violation(
        self,
        level: u8,
        bytes: &[u8],
        head: ItemHead,
        rest: &[u8],
    ) -> Option<ViolationKind>
        requires { FloatFits head }
        ensures { result ≡ head_violation self level bytes.now head rest.now }
    {
        match head {
            ItemHead::Integer(number, width) | ItemHead::Negative(number, width) => {
                self.number_violation(number, width)
            }
            ItemHead::String(_, length) => self.argument_violation(length),
            ItemHead::Array(count) | ItemHead::Map(count) => self.container_violation(level, count),
            ItemHead::Tag(..) if !self.tags => Some(ViolationKind::Tag),
            ItemHead::Tag(number, width) => match self.number_violation(number, width) {
                Some(kind) => Some(kind),
                None => self.tag_violation(number, rest),
            },
            ItemHead::Float(bits, width) => self.float_violation(float_of(bits, width)),
            ItemHead::Simple(value) => self.simple_violation(value, bytes),
        }
    }

    /// Whether nothing is wrong with these bits of a float. Not inlined, so that what tells the
    /// same of an integer is short.
    #[inline(never)]
    fn allow_float(self, bits: u64, width: FloatWidth) -> bool
        requires { FitsFloat width bits }
        ensures { result ≡ true → float_violation self (float_of bits width) ≡ None }
    {
        self.float_violation(float_of(bits, width)).is_none()
    }

    /// Whether it is clear that nothing is wrong with the head at the front of these bytes: of all
    /// heads but those of big numbers, in few steps. Inlined into the loops over items.
    #[inline(always)]
    pub(crate) fn are_clearly_kept(self, level: u8, bytes: &[u8], head: ItemHead) -> bool
        requires { FloatFits head }
        ensures { result ≡ true
            → (rest : List ℕ) → head_violation self level bytes.now head rest ≡ None }
    {
        match head {
            ItemHead::Integer(number, width) | ItemHead::Negative(number, width) => {
                self.number_violation(number, width).is_none()
            }
            ItemHead::String(_, length) => self.argument_violation(length).is_none(),
            ItemHead::Array(count) | ItemHead::Map(count) => {
                self.container_violation(level, count).is_none()
            }
            ItemHead::Tag(2 | 3, _) => false,
            ItemHead::Tag(number, width) => self.tags
                && self.number_violation(number, width).is_none(),
            ItemHead::Float(bits, width) => self.allow_float(bits, width),
            ItemHead::Simple(value) => self.simple_violation(value, bytes).is_none(),
        }
    }
}
