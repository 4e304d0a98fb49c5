//! Checks the definition of notation on a few texts, some that encode an item and some that encode
//! none. The checker computes each example or shows it by a witness, so a wrong definition does not
//! pass. No code calls these functions.
ghost use Rattle.std.specs.Prelude.{[], ◌∷◌, codes, Some};
ghost use Rattle.std.specs.List.{AllByRecursion};
ghost use Rattle.cbor_grammar.specs.declared.width.IntegerWidth.TheVariants.{Unknown, Zero, Eight};
ghost use Rattle.cbor_grammar.specs.declared.width.IntegerWidth.TheVariants.{Sixteen};
ghost use Rattle.cbor_grammar.specs.declared.strings.StringKind.TheVariants.{Bytes, Text};
ghost use Rattle.cbor_grammar.specs.Item.{atom, array, simple, integer, chunked_string, item};
ghost use Rattle.cbor_grammar.specs.Item.{no_items};
ghost use Rattle.cbor_grammar.specs.Item.{Item, tagged, negative, float};
ghost use Rattle.cbor_grammar.specs.Embedded.{embedded};
ghost use Rattle.cbor_grammar.specs.Examples.{small, open_map};
ghost use Rattle.cbor_grammar.specs.Examples.{bytes};
ghost use Rattle.cbor_grammar.specs.Examples.{no_items_in_notation, open_bytes};
ghost use Rattle.cbor_grammar.specs.Notation.{ReadsUnder};
ghost use Rattle.cbor_grammar.specs.declared.width.FloatWidth.TheVariants as float_width;

/// Texts that encode an item in diagnostic notation: numbers in each base, with leading zeros and
/// indicators, blanks around them, tags, and trailing commas.
pub(crate) fn notation_items()
    ensures blanks { ReadsUnder 1 (codes "/x/ 1 //") (small 1) }
    ensures hex { ReadsUnder 1 (codes "0x18") (atom (integer 24 Unknown)) }
    ensures octal { ReadsUnder 1 (codes "0o30") (atom (integer 24 Unknown)) }
    ensures binary { ReadsUnder 1 (codes "0b11_1") (atom (integer 3 Sixteen)) }
    ensures zeros { ReadsUnder 1 (codes "001_00") (atom (integer 1 Eight)) }
    ensures negative { ReadsUnder 1 (codes "-0x18") (atom (negative 23 Zero)) }
    ensures least { ReadsUnder 1 (codes "-256_0") (atom (negative 255 Eight)) }
    ensures tag { ReadsUnder 2 (codes "32( 1 )") (tagged 32 Unknown (small 1)) }
    ensures last_comma { ReadsUnder 2 (codes "[1, ]")
        (array (item (small 1) no_items) (Some Unknown)) }
    ensures no_member { ReadsUnder 1 (codes "[/x/, ]") (array no_items (Some Unknown)) }
    ensures open_map { ReadsUnder 2 (codes "{_ 1: 2}") open_map }
    ensures simple { ReadsUnder 1 (codes "simple(032)") (atom (simple 32)) }
    ensures float { ReadsUnder 1 (codes "float'3C00'") (atom (float 15360 float_width.Sixteen)) }
{}

/// Strings in diagnostic notation: each notation of bytes, and indefinite-length strings without
/// chunks.
pub(crate) fn notation_strings()
    ensures spaced { ReadsUnder 1 (codes "h'/x/0 1'") (open_bytes (1 ∷ [])) }
    ensures base32 { ReadsUnder 1 (codes "b32'MZXW6==='") (open_bytes (codes "foo")) }
    ensures base32hex { ReadsUnder 1 (codes "h32'CPNMU==='") (open_bytes (codes "foo")) }
    ensures base64 { ReadsUnder 1 (codes "b64'/x/0'") (open_bytes (255 ∷ 31 ∷ 244 ∷ [])) }
    ensures escaped { ReadsUnder 1 (codes "'it\\'s'") (open_bytes (codes "it's")) }
    ensures embedded { ReadsUnder 2 (codes "<<1, >>") (open_bytes (1 ∷ [])) }
    ensures no_chunks { ReadsUnder 1 (codes "(_ )") (atom (chunked_string Bytes [])) }
    ensures no_bytes { ReadsUnder 1 (codes "''_") (atom (chunked_string Bytes [])) }
    ensures no_texts { ReadsUnder 1 (codes "\"\"_") (atom (chunked_string Text [])) }
{}

/// Texts that encode no item: an indicator past 3, a value past its width, a trailing comma without
/// whitespace after it, a blank before the parenthesis of a tag, digits that encode nothing, a
/// needless escape, and others.
pub(crate) fn notation_refused()
    ensures { AllByRecursion (λ text. (i : Item) → ¬ (ReadsUnder 128 text i)) no_items_in_notation }
{}
