//! Finds the word at the front of an EDN text, recognizes digits and the beginnings of numbers, and
//! reads width indicators such as `_1`.
ghost use Rattle.std.specs.Prelude.{◌≡◌, ◌≤◌, length, true, option_map};
ghost use Rattle.std.specs.List.{list_all};
ghost use Rattle.std.specs.Str.Parse.{IsNumeral};
ghost use Rattle.cbor_edn_grammar.specs.Word.{is_letter, is_word_byte, is_sign, is_exponent};
ghost use Rattle.cbor_edn_grammar.specs.Word.{begins_number, word_len};
ghost use Rattle.cbor_edn_grammar.specs.Word.{width_by, width_of, is_digit};
ghost use Rattle.cbor_edn_grammar.specs.Strings.{stated_by};

use cbor_grammar::IntegerWidth;

/// Whether a byte is a digit.
pub fn is_digit(byte: u8) -> bool
    ensures { result ≡ is_digit byte }
{
    byte >= b'0' && byte <= b'9'
}

/// Whether a byte is a letter.
fn is_letter(byte: u8) -> bool
    ensures { result ≡ is_letter byte }
{
    byte >= b'A' && byte <= b'Z' || byte >= b'a' && byte <= b'z'
}

/// Whether a byte is a letter, a digit, `_` or `.`.
fn is_word_byte(byte: u8) -> bool
    ensures { result ≡ is_word_byte byte }
{
    // Most words are digits.
    is_digit(byte) || is_letter(byte) || byte == b'_' || byte == b'.'
}

/// Whether a byte is `+` or `-`.
fn is_sign(byte: u8) -> bool
    ensures { result ≡ is_sign byte }
{
    byte == b'+' || byte == b'-'
}

/// Whether a byte is `e`, `E`, `p` or `P`.
fn is_exponent(byte: u8) -> bool
    ensures { result ≡ is_exponent byte }
{
    byte == b'e' || byte == b'E' || byte == b'p' || byte == b'P'
}

/// Whether all bytes are digits.
fn are_digits(word: &[u8]) -> bool
    ensures { result ≡ list_all is_digit word.now }
{
    word.iter().all(|byte| is_digit(*byte))
}

/// Whether a word is digits alone, and is not empty.
#[tactic(auto, using(crate::proofs::Digits::digits_alone))]
pub fn is_numeral(word: &[u8]) -> bool
    ensures { result ≡ true → IsNumeral 10 word.now }
{
    !word.is_empty() && are_digits(word)
}

/// Whether a text begins as a number does: with a digit, a sign or a point.
pub fn begins_number(text: &[u8]) -> bool
    ensures { result ≡ begins_number text.now }
{
    match text {
        [first, ..] => is_digit(*first) || is_sign(*first) || *first == b'.',
        [] => false,
    }
}

/// The length in bytes of the word at the front.
#[tactic(auto, unfolding(crate::specs::Word::word_len))]
pub fn word_len(text: &[u8]) -> usize
    ensures same { result ≡ word_len text.now }
    ensures within { result ≤ length text.now }
{
    let number = begins_number(text);
    let mut signed = number;
    let mut len = 0;
    let mut rest = text;
    'word: while let [first, after @ ..] = rest {
        if !is_word_byte(*first) && !(signed && is_sign(*first)) {
            return len;
        }
        signed = number && is_exponent(*first);
        len += 1;
        rest = after;
    }
    len
}

/// The width that the byte after a `_` states.
fn width_by(byte: u8) -> Option<IntegerWidth>
    ensures { result ≡ width_by byte }
{
    match byte {
        b'i' => Some(IntegerWidth::Zero),
        b'0' => Some(IntegerWidth::Eight),
        b'1' => Some(IntegerWidth::Sixteen),
        b'2' => Some(IntegerWidth::ThirtyTwo),
        b'3' => Some(IntegerWidth::SixtyFour),
        _ => None,
    }
}

/// The width that `_i`, `_0`, `_1`, `_2` or `_3` states.
pub fn width_of(word: &[u8]) -> Option<IntegerWidth>
    ensures { result ≡ width_of word.now }
{
    match word {
        [b'_', byte] => width_by(*byte),
        _ => None,
    }
}

/// The width that an indicator states. It is `Some(None)` for `_` alone, and `None` for other
/// words.
pub fn stated_by(word: &[u8]) -> Option<Option<IntegerWidth>>
    ensures { result ≡ stated_by word.now }
{
    match word {
        [b'_'] => Some(None),
        _ => width_of(word).map(Some),
    }
}
