//! Reads integers and tag numbers of EDN, with the widths that they state, as in `10_1`.
ghost use Rattle.std.specs.Prelude.{◌≡◌, ◌==◌, ◌<◌, ◌≤◌, ℕ, length, position, IfSome, IfNone, IfOk};
ghost use Rattle.std.specs.Prelude.{Some, None};
ghost use Rattle.cbor_tokens.specs.Token.{capped};
ghost use Rattle.cbor_grammar.specs.Head.{FitsWidth};
ghost use Rattle.cbor_edn_grammar.specs.Number.{parted, number_from, magnitude, fitting, unsigned};
ghost use Rattle.cbor_edn_grammar.specs.Number.{negated};
ghost use Rattle.cbor_edn_grammar.specs.Number.{tag_number, past, capped_magnitude};
ghost use Rattle.cbor_edn_grammar.specs.Reading.{Gives};

use cbor_edn_grammar::error::{Expected, Stop};
use cbor_edn_grammar::word::{is_digit, width_of};
use cbor_grammar::IntegerWidth;

/// The index of the first `_`.
fn underscore(word: &[u8]) -> Option<usize>
    ensures at { result ≡ position (λ b. b == 95) word.now }
    ensures within { IfSome result (λ n. n < length word.now) }
{
    word.iter().position(|byte| *byte == b'_')
}

/// A word up to its `_`, and the width that is stated from there on.
#[tactic(auto, using(cbor_edn_grammar::proofs::Numbers::parted_laws))]
pub fn parted(word: &[u8]) -> Result<(&[u8], IntegerWidth), Stop>
    ensures gives { Gives (λ x. (x.0.now, x.1)) result (parted word.now) }
    ensures within { IfOk result (λ x. length x.0.now ≤ length word.now) }
{
    match underscore(word) {
        Some(end) => match width_of(&word[end..]) {
            Some(width) => Ok((&word[..end], width)),
            None => Err(Stop::At(Expected::Indicator)),
        },
        None => Ok((word, IntegerWidth::Unknown)),
    }
}

/// The number that all of these digits write, or 2^64 + 1 if it is past 2^64.
#[tactic(auto, using(cbor_edn_grammar::proofs::Numbers::whole_none))]
pub fn number_from(digits: &[u8]) -> Option<u128>
    ensures found { IfSome result (λ n. (value : ℕ) × (n ≡ capped value)
        × (number_from digits.now ≡ Some value)) }
    ensures some { IfSome result (λ _. 0 < length digits.now) }
    ensures none { IfNone result (number_from digits.now ≡ None) }
{
    let (value, _, end) = cbor_tokens::number_front(digits)?;
    if end == digits.len() {
        Some(value)
    } else {
        None
    }
}

/// One more than the greatest number of this width.
fn past(width: IntegerWidth) -> u128
    ensures { result ≡ past width }
{
    match width {
        IntegerWidth::Zero => 24,
        IntegerWidth::Eight => 1 << 8,
        IntegerWidth::Sixteen => 1 << 16,
        IntegerWidth::ThirtyTwo => 1 << 32,
        IntegerWidth::Unknown | IntegerWidth::SixtyFour => 1 << 64,
    }
}

/// The number, if it fits its width.
fn fitting(number: u128, width: IntegerWidth) -> Result<(u64, IntegerWidth), Stop>
    ensures gives { Gives (λ x. (x.0, x.1)) result (fitting number width) }
    ensures fits { IfOk result (λ x. FitsWidth x.1 x.0) }
{
    if number < past(width) {
        Ok((number as u64, width))
    } else {
        Err(Stop::At(Expected::FittingWidth))
    }
}

/// Reads a word without a sign. Returns its number, or 2^64 + 1 if it is past 2^64, and its width.
fn magnitude(word: &[u8]) -> Result<(u128, IntegerWidth), Stop>
    ensures gives { Gives (λ x. (x.0, x.1)) result (capped_magnitude word.now) }
    ensures some { IfOk result (λ _. 0 < length word.now) }
{
    let (digits, width) = parted(word)?;
    match number_from(digits) {
        Some(number) => Ok((number, width)),
        None => Err(Stop::At(Expected::Number)),
    }
}

/// Reads a word without a sign. Returns its number, which has to fit its width, and the width.
pub fn unsigned(word: &[u8]) -> Result<(u64, IntegerWidth), Stop>
    ensures gives { Gives (λ x. (x.0, x.1)) result (unsigned word.now) }
    ensures some { IfOk result (λ _. 0 < length word.now) }
    ensures fits { IfOk result (λ x. FitsWidth x.1 x.0) }
{
    let (number, width) = magnitude(word)?;
    Ok(fitting(number, width)?)
}

/// Reads the word after a `-`. Returns the number that encodes the negative integer, which is one
/// less than the word's number, and its width. 0 is an error.
pub fn negated(word: &[u8]) -> Result<(u64, IntegerWidth), Stop>
    ensures gives { Gives (λ x. (x.0, x.1)) result (negated word.now) }
    ensures some { IfOk result (λ _. 0 < length word.now) }
    ensures fits { IfOk result (λ x. FitsWidth x.1 x.0) }
{
    let (number, width) = magnitude(word)?;
    if number == 0 {
        return Err(Stop::At(Expected::Number));
    }
    Ok(fitting(number - 1, width)?)
}

/// Reads the number and the width of a tag from a word that begins with a digit.
pub fn tag_number(word: &[u8]) -> Result<(u64, IntegerWidth), Stop>
    ensures gives { Gives (λ x. (x.0, x.1)) result (tag_number word.now) }
    ensures some { IfOk result (λ _. 0 < length word.now) }
    ensures fits { IfOk result (λ x. FitsWidth x.1 x.0) }
{
    match word {
        [first, ..] if is_digit(*first) => match unsigned(word) {
            Ok(number) => Ok(number),
            Err(Stop::Memory) => Err(Stop::Memory),
            Err(Stop::At(expected)) => Err(Stop::At(no_tag(word, expected))),
        },
        _ => Err(Stop::At(Expected::TagNumber)),
    }
}

/// The error for a word that is not a tag number. `expected` is its error as an integer.
fn no_tag(word: &[u8], expected: Expected) -> Expected {
    if expected == Expected::FittingWidth && !word.contains(&b'_') {
        Expected::LargestTag
    } else {
        expected
    }
}
