//! `Major`: the major types of CBOR heads (RFC 7049 section 2.1).
ghost use Rattle.std.specs.Prelude.{◌≡◌, ◌≤◌, ◌*◌, ◌/◌};
ghost use Rattle.cbor_grammar.specs.mirror.MajorNumber.{major_number};

/// The major type of a head: the three high bits of its first byte (RFC 7049 section 2.1).
#[derive(Clone, Copy)]
pub enum Major {
    /// Major type 0: an unsigned integer.
    Unsigned,
    /// Major type 1: a negative integer.
    Negative,
    /// Major type 2: a byte string.
    Bytes,
    /// Major type 3: a text string.
    Text,
    /// Major type 4: an array.
    Array,
    /// Major type 5: a map.
    Map,
    /// Major type 6: a tag.
    Tag,
    /// Major type 7: a float, a simple value or a break.
    Special,
}

impl Major {
    /// The number of the major type, from 0 to 7.
    pub fn number(self) -> u8
        ensures { result ≡ major_number self }
    {
        match self {
            Major::Unsigned => 0,
            Major::Negative => 1,
            Major::Bytes => 2,
            Major::Text => 3,
            Major::Array => 4,
            Major::Map => 5,
            Major::Tag => 6,
            Major::Special => 7,
        }
    }

    /// The first byte of a head of this major type whose five low bits are 0.
    pub fn high_bits(self) -> u8
        ensures bits { result ≡ 32 * major_number self }
        ensures most { result ≤ 224 }
    {
        match self {
            Major::Unsigned => 0x00,
            Major::Negative => 0x20,
            Major::Bytes => 0x40,
            Major::Text => 0x60,
            Major::Array => 0x80,
            Major::Map => 0xa0,
            Major::Tag => 0xc0,
            Major::Special => 0xe0,
        }
    }

    /// The major type of the head with this first byte.
    pub fn of(first: u8) -> Major
        ensures { major_number result ≡ first / 32 }
    {
        match first / 32 {
            0 => Major::Unsigned,
            1 => Major::Negative,
            2 => Major::Bytes,
            3 => Major::Text,
            4 => Major::Array,
            5 => Major::Map,
            6 => Major::Tag,
            _ => Major::Special,
        }
    }
}
