//! States laws of reading diagnostic notation. If the definition `notation_of` reads an item from a
//! text, the text encodes this item. If it gives an error, a reader may give this error for the
//! text. A text encodes at most one item. No code calls these functions.
ghost use Rattle.std.specs.Prelude.{◌≡◌, ℕ, List};
ghost use Rattle.cbor_grammar.specs.Item.{Item};
ghost use Rattle.cbor_notation.specs.mirror.NotationReading.{notation_of};
ghost use Rattle.cbor_grammar.specs.NotationRefused.{IsAnswered};
ghost use Rattle.cbor_grammar.specs.Notation.{ReadsUnder};

/// What the definition reads from a text is true of the text, under any limit on levels.
pub(crate) fn notation_read()
    ensures { (limit : ℕ) (text : List ℕ) → IsAnswered limit text (notation_of limit text) }
{}

/// A text in diagnostic notation encodes at most one item, under any limit on levels.
pub(crate) fn one_reading()
    ensures { (limit other : ℕ) (text : List ℕ) (i j : Item) → ReadsUnder limit text i
        → ReadsUnder other text j → i ≡ j }
{}
