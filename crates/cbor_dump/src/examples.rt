//! Checks the definitions of dumps in `specs/` on a few inputs. The checker computes each example
//! or shows it by a witness. No code calls these functions.
ghost use Rattle.std.specs.Prelude.{◌≡◌, [], ◌∷◌, ◌++◌, codes, length, map, replicate};
ghost use Rattle.cbor_grammar.specs.declared.strings.StringKind.TheVariants.{Bytes};
ghost use Rattle.cbor_grammar.specs.Item.{atom, chunked_string};
ghost use Rattle.cbor_dump.specs.Dump.{dump, lines};
ghost use Rattle.cbor_dump.specs.Pieces.{text_pieces};
ghost use Rattle.cbor_grammar.specs.Examples.{over_bytes};
ghost use Rattle.cbor_grammar.specs.Examples.{bytes};
ghost use Rattle.cbor_grammar.specs.Examples.{shared_values};
ghost use Rattle.cbor_grammar.specs.Examples.{zero_chunk};

/// Dumps: the one column of digits, a break, strings without content, the pieces of a text,
/// elements, a sequence with a rest, and shared values, a key before its value.
pub(crate) fn dumps()
    ensures chunks { dump (atom (chunked_string Bytes (zero_chunk (1 ∷ []) ∷ [])))
        ≡ codes "5f       # bytes(*)\n   41    #   bytes(1)\n"
        ++ codes "      01 #     \"\\x01\"\n   ff    #   break\n" }
    ensures nothing { dump (bytes []) ≡ codes "40 # bytes(0)\n   #   \"\"\n" }
    ensures pieces { map length (text_pieces (replicate 15 97 ++ 0xc3 ∷ 0xa9 ∷ replicate 8 98)) ≡ 15
        ∷ 10 ∷ [] }
    ensures elements { dump (over_bytes 72 (0xff ∷ 1 ∷ []))
        ≡ codes "d8 48    # typed array of i8, tag(72)\n   42    #   bytes(2)\n"
        ++ codes "      ff #     signed(-1)\n      01 #     signed(1)\n" }
    ensures sequence { dump (over_bytes 63 (1 ∷ 255 ∷ []))
        ≡ codes "d8 3f      # encoded cbor sequence, tag(63)\n   42      #   bytes(2)\n"
        ++ codes "      01ff #     \"\\x01\\xff\"\n           #   encoded cbor data item\n"
        ++ codes "           #     01 # unsigned(1)\n"
        ++ codes "           #   failed to parse remaining encoded cbor sequence\n"
        ++ codes "           #     no item can have this head\n" }
    ensures shared { map (λ line. line.comment) (lines shared_values) ≡ codes "map(1)"
        ∷ codes "shareable value, tag(28)" ∷ codes "unsigned(1)" ∷ codes "reference(0)"
        ∷ codes "shareable value, tag(28)" ∷ codes "reference to shared value, tag(29)"
        ∷ codes "unsigned(0)"
        ∷ codes "reference-to(0)" ∷ codes "reference(1)" ∷ [] }
{}
