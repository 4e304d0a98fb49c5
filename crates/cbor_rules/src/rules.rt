//! `Rules`: the rules that an encoding may keep (switches, an order of keys, a deepest level), with
//! constants such as `Rules::DCBOR`. `KeyOrder`: an order of the keys of a map; it compares two
//! keys.
ghost use Rattle.std.specs.Prelude.{◌≡◌};
ghost use Rattle.cbor_rules.specs.KeyOrder.{key_cmp, major_type};
ghost use Rattle.cbor_rules.specs.Keeps.{without_memory};
ghost use Rattle.cbor_rules.specs.declared.rules.KeyOrder.{KeyOrder};

use cbor_grammar::level::DEEPEST;
use std::cmp::Ordering;

/// In which order the keys of a map stand, by their encodings. An order other than `Any` also says
/// that no key stands twice.
#[derive(Clone, Copy, PartialEq, Eq, Debug)]
pub enum KeyOrder {
    /// In any order.
    Any,
    /// By their bytes (RFC 8949 section 4.2.1).
    Bytes,
    /// The shorter one first; those of one length by their bytes (RFC 8949 section 4.2.3).
    Length,
    /// The lower major type first; then as `Length` (CTAP2's canonical CBOR).
    MajorType,
}

/// Rules that an encoding may keep. All of them include that the bytes are a sequence of items of
/// RFC 8949, none deeper than level 128.
#[derive(Clone, Copy, PartialEq, Eq, Debug)]
pub struct Rules {
    /// The number of each head is in the shortest width that it fits: values, lengths, also those
    /// of chunks, counts and tags (RFC 8949 section 4.2.1).
    pub shortest_heads: bool,
    /// Each float is in the shortest width that has it: the number with its sign, and of a NaN the
    /// sign and the payload (RFC 8949 sections 4.1 and 4.2.2).
    pub shortest_floats: bool,
    /// No float is an integer from -2^63 to 2^64 - 1, which is written as that integer instead,
    /// -0.0 as 0; and no NaN stands but that of the bytes f97e00 (dCBOR).
    pub reduced_floats: bool,
    /// There may be simple values other than false, true and null.
    pub other_simple: bool,
    /// No string, array or map is of indefinite length (RFC 8949 section 4.2.1).
    pub definite_lengths: bool,
    /// A big number (tags 2 and 3) whose content is a byte string of definite length has no zero
    /// byte in front and is not one that an integer can have (RFC 8949 section 3.4.3).
    pub big_numbers: bool,
    /// Each text, and each chunk of a text of indefinite length, is in the normal form NFC (Unicode
    /// Standard Annex 15). Checking this takes memory.
    pub nfc: bool,
    /// The order of the keys in each map.
    pub key_order: KeyOrder,
    /// No key stands twice in a map, by its bytes; for `violation_of` of `cbor_reencode`, by its
    /// core encoding. Checking this takes memory; where keys have an order, none stands twice.
    pub distinct_keys: bool,
    /// There may be tags.
    pub tags: bool,
    /// The deepest level that an array or a map may have. The outermost item is at level 1; the
    /// members of a container, its keys and values and the item of a tag are one level below it.
    pub deepest: u8,
}

impl Rules {
    /// The grammar of RFC 8949 alone: of RFC 7049's items, those without a simple value below 32 in
    /// two bytes.
    pub const RFC_8949: Rules = Rules {
        shortest_heads: false,
        shortest_floats: false,
        reduced_floats: false,
        other_simple: true,
        definite_lengths: false,
        big_numbers: false,
        nfc: false,
        key_order: KeyOrder::Any,
        distinct_keys: false,
        tags: true,
        deepest: DEEPEST,
    };

    /// Basic validity (RFC 8949 section 5.3.1): no key stands twice in a map. Texts are UTF-8 in
    /// each set.
    pub const VALID: Rules = Rules {
        distinct_keys: true,
        ..Rules::RFC_8949
    };

    /// Preferred serialization (RFC 8949 section 4.1): shortest heads and floats, and big numbers
    /// that no integer can have. Lengths may be indefinite.
    pub const PREFERRED: Rules = Rules {
        shortest_heads: true,
        shortest_floats: true,
        big_numbers: true,
        ..Rules::RFC_8949
    };

    /// Core deterministic encoding (RFC 8949 section 4.2.1): preferred serialization, definite
    /// lengths, and keys in the order of their bytes.
    pub const CORE: Rules = Rules {
        definite_lengths: true,
        key_order: KeyOrder::Bytes,
        ..Rules::PREFERRED
    };

    /// Length-first deterministic encoding (RFC 8949 section 4.2.3), which RFC 7049 called
    /// canonical: as core, but the shorter key comes first.
    pub const LENGTH_FIRST: Rules = Rules {
        key_order: KeyOrder::Length,
        ..Rules::CORE
    };

    /// dCBOR: as core, and no integer is written as a float, the only NaN is f97e00, the only
    /// simple values are false, true and null, and texts are in NFC.
    pub const DCBOR: Rules = Rules {
        reduced_floats: true,
        other_simple: false,
        nfc: true,
        ..Rules::CORE
    };

    /// CTAP2 canonical CBOR (CTAP 2.1 section 8): shortest heads, definite lengths, keys in the
    /// order of their major types, then lengths, then bytes, no tags, and at most 4 levels of
    /// arrays and maps. Floats keep the width that they have.
    pub const CTAP2: Rules = Rules {
        shortest_floats: false,
        key_order: KeyOrder::MajorType,
        tags: false,
        deepest: 4,
        ..Rules::CORE
    };

    /// The rules without those whose check takes memory.
    pub fn without_memory(self) -> Rules
        ensures { result ≡ without_memory self }
    {
        Rules {
            nfc: false,
            distinct_keys: false,
            ..self
        }
    }
}

/// The major type of the head at the front; 0 of no bytes.
fn major_type(bytes: &[u8]) -> u8
    ensures { result ≡ major_type bytes.now }
{
    match bytes {
        [] => 0,
        [first, ..] => *first / 32,
    }
}

/// How two keys compare by their lengths, and those of one length by their bytes.
fn compare_by_length(first: &[u8], second: &[u8]) -> Ordering
    ensures { result ≡ key_cmp KeyOrder.Length first.now second.now }
{
    let lengths = first.len().cmp(&second.len());
    lengths.then(first.cmp(second))
}

impl KeyOrder {
    /// How two encoded keys compare. Under `Any` the first comes before the second.
    pub fn compare(self, first: &[u8], second: &[u8]) -> Ordering
        ensures { result ≡ key_cmp self first.now second.now }
    {
        match self {
            KeyOrder::Any => Ordering::Less,
            KeyOrder::Bytes => first.cmp(second),
            KeyOrder::Length => compare_by_length(first, second),
            KeyOrder::MajorType => {
                let major_types = major_type(first).cmp(&major_type(second));
                major_types.then(compare_by_length(first, second))
            }
        }
    }
}
