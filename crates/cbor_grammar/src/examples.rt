//! Checks the definitions on a few inputs: items as bytes, truncated and malformed bytes, hex with
//! comments, embedded items, normal forms, pretty text and turns. The checker computes each example
//! or shows it by a witness, so a wrong definition does not pass. No code calls these functions.
ghost use Rattle.std.specs.Prelude.{◌≡◌, [], ◌∷◌, ◌++◌, codes, Some, None};
ghost use Rattle.cbor_grammar.specs.declared.error.Error.TheVariants.{Head, Utf8, TooDeep};
ghost use Rattle.cbor_grammar.specs.declared.width.IntegerWidth.TheVariants.{Unknown, Zero, Eight};
ghost use Rattle.cbor_grammar.specs.declared.width.IntegerWidth.TheVariants.{Sixteen};
ghost use Rattle.cbor_grammar.specs.declared.strings.StringKind.TheVariants.{Bytes};
ghost use Rattle.cbor_grammar.specs.Item.{atom, array, simple, integer, chunked_string, item};
ghost use Rattle.cbor_grammar.specs.Item.{no_items};
ghost use Rattle.cbor_grammar.specs.Item.{tagged};
ghost use Rattle.cbor_grammar.specs.WellFormed.{WellFormed};
ghost use Rattle.cbor_grammar.specs.Written.{encoded, encoded_open, resolve};
ghost use Rattle.cbor_grammar.specs.Bytes.{any, strict, Spells};
ghost use Rattle.cbor_grammar.specs.Refused.{Cut, Fault};
ghost use Rattle.cbor_grammar.specs.declared.encoding.Encoding.TheVariants.{Base16};
ghost use Rattle.cbor_grammar.specs.Embedded.{embedded, sequence};
ghost use Rattle.cbor_grammar.specs.Compact.{compact};
ghost use Rattle.cbor_grammar.specs.Estimate.{estimated_length};
ghost use Rattle.cbor_grammar.specs.Normal.{normal};
ghost use Rattle.cbor_grammar.specs.Pretty.{pretty};
ghost use Rattle.cbor_tokens.specs.Uncommented.{uncommented};
ghost use Rattle.cbor_grammar.specs.Examples.{small, uri, uri_bytes, three, open_map, open_count};
ghost use Rattle.cbor_grammar.specs.Examples.{resolved_count, over_bytes, nested_tag, encodings};
ghost use Rattle.cbor_grammar.specs.Examples.{ones};
ghost use Rattle.cbor_grammar.specs.Examples.{two_chunks, nested, nested_bytes, bytes};
ghost use Rattle.cbor_grammar.specs.Turns.{item_turns, cut_spent, fault_spent};

/// Items as bytes. A count of 255 takes one byte, and a simple value below 24 takes no second byte.
pub(crate) fn written()
    ensures tagged { encoded uri ≡ uri_bytes }
    ensures counted { encoded three ≡ 0x98 ∷ 3 ∷ 1 ∷ 2 ∷ 3 ∷ [] }
    ensures broken { encoded open_map ≡ 0xbf ∷ 1 ∷ 2 ∷ 0xff ∷ [] }
    ensures shortest { encoded_open 4 255 (Some Unknown) ≡ 0x98 ∷ 0xff ∷ [] }
    ensures one_byte { encoded (atom (simple 20)) ≡ 0xf4 ∷ [] }
    ensures two_bytes { encoded (atom (simple 24)) ≡ 0xf8 ∷ 24 ∷ [] }
    ensures resolved { resolve open_count ≡ resolved_count }
{}

/// Bytes that encode an item, and a non-minimal encoding of `false` (`f8 14`), which is not strict.
pub(crate) fn spelled()
    ensures tagged { Spells strict 1 uri_bytes uri }
    ensures broken { Spells any 1 (0xbf ∷ 1 ∷ 2 ∷ 0xff ∷ []) open_map }
    ensures second { Spells any 1 (0xf8 ∷ 20 ∷ []) (atom (simple 20)) }
    ensures not_strict { ¬ (Spells strict 1 (0xf8 ∷ 20 ∷ []) (atom (simple 20))) }
    ensures too_deep { ¬ (Spells any 129 (1 ∷ []) (small 1)) }
{}

/// Truncated bytes: they end in the head of a chunk, in a string, and where a value is needed.
pub(crate) fn cut()
    ensures head { Cut 1 (0x5f ∷ 0x58 ∷ []) }
    ensures content { Cut 1 (0x63 ∷ 0xff ∷ []) }
    ensures value { Cut 1 (0xa1 ∷ 1 ∷ []) }
{}

/// Malformed bytes: a break in no container, a break in place of a value, a text that is not UTF-8,
/// a text among the chunks of a byte string, and anything below the deepest level.
pub(crate) fn faults()
    ensures stray { Fault 1 (0xff ∷ []) Head }
    ensures value { Fault 1 (0xbf ∷ 1 ∷ 2 ∷ 3 ∷ 0xff ∷ []) Head }
    ensures text { Fault 1 (0x61 ∷ 0xff ∷ []) Utf8 }
    ensures chunk { Fault 1 (0x5f ∷ 0x41 ∷ 1 ∷ 0x61 ∷ []) Head }
    ensures deep { Fault 129 (1 ∷ []) TooDeep }
{}

/// An item with a number that does not fit its width has no encoding.
pub(crate) fn well_formed()
    ensures fits { WellFormed 1 (atom (integer 300 Sixteen)) }
    ensures past { ¬ (WellFormed 1 (atom (integer 300 Eight))) }
    ensures deepest { WellFormed 128 (small 1) }
    ensures deeper { ¬ (WellFormed 129 (small 1)) }
{}

/// What is kept of texts with comments, with both kinds of line ends, with carriage returns that
/// end no line, with a tab and with spaces.
pub(crate) fn hex_text()
    ensures comment { uncommented (codes "01 # 02 # 03") ≡ codes "01" }
    ensures lines { uncommented (codes "82 # two items" ++ 10 ∷ codes "01" ++ 10 ∷ 10
        ∷ codes "# the second"
        ++ 10 ∷ codes "02" ++ 10 ∷ []) ≡ codes "820102" }
    ensures carriage_return_and_line_feed { uncommented (codes "01" ++ 13 ∷ 10 ∷ codes "02"
        ++ 13 ∷ 10 ∷ []) ≡ codes "0102" }
    ensures one_carriage_return_of_two { uncommented (codes "01" ++ 13 ∷ 13 ∷ 10 ∷ codes "02")
        ≡ codes "01" ++ 13 ∷ codes "02" }
    ensures carriage_return_at_the_end { uncommented (codes "01" ++ 13 ∷ [])
        ≡ codes "01" ++ 13 ∷ [] }
    ensures carriage_return_in_a_comment { uncommented (codes "01 #" ++ 13 ∷ codes "02")
        ≡ codes "01" }
    ensures tab { uncommented (codes "01" ++ 9 ∷ codes "02") ≡ codes "01" ++ 9 ∷ codes "02" }
    ensures spaces { uncommented (codes "  0 1  02 ") ≡ codes "0102" }
    ensures nothing { uncommented [] ≡ [] }
{}

/// Items embedded in bytes: one item, an item with a byte after it, and a sequence with a rest.
pub(crate) fn embedded_items()
    ensures whole { embedded 128 (1 ∷ []) ≡ Some (small 1) }
    ensures too_long { embedded 128 (1 ∷ 2 ∷ []) ≡ None }
    ensures too_deep { embedded 129 (1 ∷ []) ≡ None }
    ensures in_sequence { sequence 3 (1 ∷ 2 ∷ 255 ∷ [])
        ≡ (item (small 1) (item (small 2) no_items), 255 ∷ []) }
{}

/// Embedded items in texts: one inside another, a sequence with a rest, and bytes that encode an
/// item at level 128 but not at level 129. The encoding that a tag states holds inside an embedded
/// item, too, up to the next tag that states one.
pub(crate) fn embedded_text()
    ensures nested { compact Base16 1 nested_tag ≡ codes "24_0(<<24_0(<<false>>)>>)" }
    ensures rest { compact Base16 1 (over_bytes 63 (1 ∷ 255 ∷ [])) ≡ codes "63_0(<<1>>h'ff')" }
    ensures pretty_rest { pretty Base16 1 0 (over_bytes 63 (1 ∷ 255 ∷ []))
        ≡ codes "63_0(<<1>> h'ff')" }
    ensures nothing { compact Base16 1 (over_bytes 24 []) ≡ codes "24_0(<<>>)" }
    ensures no_items { compact Base16 1 (over_bytes 63 []) ≡ codes "63_0(<<>>)" }
    ensures deepest { compact Base16 126 (over_bytes 24 (1 ∷ [])) ≡ codes "24_0(<<1>>)" }
    ensures deeper { compact Base16 127 (over_bytes 24 (1 ∷ [])) ≡ codes "24_0(h'01')" }
    ensures base64 { compact Base16 1 (tagged 22 Zero (bytes (255 ∷ 255 ∷ 255 ∷ [])))
        ≡ codes "22(b64'////')" }
    ensures encoding { compact Base16 1 encodings
        ≡ codes "21([b64'_w',24_0(<<b64'_w'>>),23(h'ff')])" }
{}

/// Normal forms: embedded items are encoded anew, and bytes that embed no item stay.
pub(crate) fn normal_form()
    ensures nested { encoded (normal 1 nested_tag)
        ≡ 0xd8 ∷ 0x18 ∷ 0x44 ∷ 0xd8 ∷ 0x18 ∷ 0x41 ∷ 0xf4 ∷ [] }
    ensures rest { encoded (normal 1 (over_bytes 63 (0x81 ∷ 1 ∷ 255 ∷ [])))
        ≡ 0xd8 ∷ 0x3f ∷ 0x43 ∷ 0x81 ∷ 1 ∷ 255 ∷ [] }
    ensures length { normal 1 three ≡ array
        (item (small 1) (item (small 2) (item (small 3) no_items))) (Some Unknown) }
    ensures open { normal 1 (atom (integer 23 Unknown)) ≡ small 23 }
    ensures past { normal 1 (atom (integer 24 Unknown)) ≡ atom (integer 24 Unknown) }
{}

/// Pretty text: an item of length 59 is on one line, and a longer one has a line for each member.
pub(crate) fn pretty_text()
    ensures estimate { estimated_length (ones 11) ≡ 59 }
    ensures row { pretty Base16 1 0 (ones 11) ≡ codes "[1, 1, 1, 1, 1, 1, 1, 1, 1, 1, 1]" }
    ensures lines { pretty Base16 1 0 (array (item (ones 12) no_items) (Some Zero))
        ≡ codes "[\n    [\n        1,\n        1,\n        1,\n        1,\n        1,\n        1,\n"
        ++ codes "        1,\n        1,\n        1,\n        1,\n        1,\n        1,\n"
        ++ codes "    ],\n]" }
    ensures open { pretty Base16 1 0 open_map ≡ codes "{_ 1: 2}" }
    ensures empty { pretty Base16 1 0 (atom (chunked_string Bytes [])) ≡ codes "''_" }
{}

/// The turns of items, and of the complete parts before the bytes end or an error comes.
pub(crate) fn turns_taken()
    ensures tagged { item_turns uri ≡ 3 }
    ensures empty { item_turns (array no_items (Some Zero)) ≡ 2 }
    ensures members { item_turns three ≡ 5 }
    ensures chunks { item_turns two_chunks ≡ 4 }
    ensures deepest { item_turns (nested 127) ≡ 255 }
    ensures nothing { (c : Cut 1 []) × (cut_spent c ≡ 0) }
    ensures member { (c : Cut 1 (0x82 ∷ 0x81 ∷ 1 ∷ [])) × (cut_spent c ≡ 4) }
    ensures too_deep { (f : Fault 1 (nested_bytes 128) TooDeep) × (fault_spent f ≡ 128) }
{}
