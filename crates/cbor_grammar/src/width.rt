//! `IntegerWidth` and `FloatWidth`: the widths of the number in a head and of a float. They say
//! which numbers fit in a width; `IntegerWidth` also finds the shortest width of a number.
ghost use Rattle.std.specs.Prelude.{◌≡◌, ◌↔◌, IsTrue};
ghost use Rattle.cbor_grammar.specs.Head.{FitsWidth, FitsStated, shortest, stated};
ghost use Rattle.cbor_grammar.specs.WellFormed.{FitsFloat, FitsCount};

/// The width of the number in a head: how many bits follow the first byte to hold a value, a
/// length, a count or a tag (RFC 7049 section 2).
#[derive(Clone, Copy, PartialEq, Eq, Debug)]
pub enum IntegerWidth {
    /// Unstated, as in diagnostic notation without an encoding indicator. The number is written in
    /// the shortest width that fits it.
    Unknown,
    /// No bits: a number from 0 to 23, in the first byte itself.
    Zero,
    /// One byte, for a number from 0 to 255.
    Eight,
    /// Two bytes, for a number from 0 to 65535.
    Sixteen,
    /// Four bytes, for a number from 0 to 4294967295.
    ThirtyTwo,
    /// Eight bytes, for a number below 2^64.
    SixtyFour,
}

/// The width of a float: how many bits follow its first byte (RFC 7049 section 2.3).
#[derive(Clone, Copy, PartialEq, Eq, Debug)]
pub enum FloatWidth {
    /// Unstated. The float is written in 64 bits.
    Unknown,
    /// IEEE 754 half precision, two bytes.
    Sixteen,
    /// IEEE 754 single precision, four bytes.
    ThirtyTwo,
    /// IEEE 754 double precision, eight bytes.
    SixtyFour,
}

impl IntegerWidth {
    /// Whether the number fits in this width; every number fits in an unstated width.
    pub fn fits(self, number: u64) -> bool
        ensures { IsTrue result ↔ FitsWidth self number }
    {
        match self {
            IntegerWidth::Zero => number < 24,
            IntegerWidth::Eight => number <= 0xff,
            IntegerWidth::Sixteen => number <= 0xffff,
            IntegerWidth::ThirtyTwo => number <= 0xffff_ffff,
            IntegerWidth::Unknown | IntegerWidth::SixtyFour => true,
        }
    }

    /// The shortest width that the number fits in.
    pub fn shortest(number: u64) -> IntegerWidth
        ensures same { result ≡ shortest number }
        ensures fits { FitsStated result number }
    {
        match number {
            0..=23 => IntegerWidth::Zero,
            24..=0xff => IntegerWidth::Eight,
            0x100..=0xffff => IntegerWidth::Sixteen,
            0x1_0000..=0xffff_ffff => IntegerWidth::ThirtyTwo,
            _ => IntegerWidth::SixtyFour,
        }
    }

    /// The width that the number is written in: this one, or the shortest if this one is unstated.
    pub fn stated(self, number: u64) -> IntegerWidth
        requires { FitsWidth self number }
        ensures same { result ≡ stated self number }
        ensures fits { FitsStated result number }
    {
        match self {
            IntegerWidth::Unknown => IntegerWidth::shortest(number),
            width => width,
        }
    }
}

impl FloatWidth {
    /// Whether the bits of a float fit in this width; an unstated width takes 64 bits.
    pub fn fits(self, bits: u64) -> bool
        ensures { IsTrue result ↔ FitsFloat self bits }
    {
        match self {
            FloatWidth::Sixteen => bits <= 0xffff,
            FloatWidth::ThirtyTwo => bits <= 0xffff_ffff,
            FloatWidth::Unknown | FloatWidth::SixtyFour => true,
        }
    }
}

/// Whether a count fits in its width; true for an indefinite length.
pub fn count_fits(width: Option<IntegerWidth>, count: usize) -> bool
    ensures { IsTrue result ↔ FitsCount width count }
{
    match width {
        Some(width) => width.fits(count as u64),
        None => true,
    }
}
