//! Reads numbers and simple values of EDN, and words with a prefix (`float'`, `dt'`, `DT'`, `ip'`,
//! `IP'`), as `DataItem`s. `date.rt` and `network.rt` read what follows `dt'` and `ip'`.
ghost use Rattle.std.specs.Prelude.{◌≡◌, ◌-◌, ◌<◌, ◌≤◌, ℕ, length, option_map, IfOk, IfSome};
ghost use Rattle.cbor_diag.specs.View.{view};
ghost use Rattle.cbor_grammar.specs.WellFormed.{deepest, levels_left, WellFormed};
ghost use Rattle.cbor_grammar.specs.Item.{integer};
ghost use Rattle.cbor_grammar.specs.Head.{FitsWidth};
ghost use Rattle.cbor_edn_grammar.specs.Reading.{Gives};
ghost use Rattle.cbor_edn_grammar.specs.Number.{zero_of};
ghost use Rattle.cbor_edn_grammar.specs.Items.{is_string, integer_item, number_item, named};
ghost use Rattle.cbor_edn_grammar.specs.Items.{read_simple};
ghost use Rattle.cbor_edn_grammar.specs.Items.{read_float, name_item, is_prefix, read_prefixed};
ghost use Rattle.cbor_edn_grammar.specs.Items.{read_name};

use crate::big::big_item;
use crate::date::{read_date, read_tagged_date};
use crate::network::{read_ip, read_tagged_ip};
use cbor_diag::DataItem;
use cbor_edn_grammar::error::{Expected, Stop};
use cbor_edn_grammar::opening::Base;
use cbor_edn_tokens::cursor::Cursor;
use cbor_edn_tokens::digits::read_digits;
use cbor_edn_tokens::float::{float_of_bytes, float_word, is_float, special_word};
use cbor_edn_tokens::number::{negated, unsigned};
use cbor_grammar::{IntegerWidth, Simple};
use std::alloc::Global;

/// Whether an item is a definite-length string.
pub(crate) fn is_string(item: &DataItem) -> bool
    ensures { result ≡ is_string (view item.now) }
{
    matches!(item, DataItem::ByteString(_) | DataItem::TextString(_))
}

/// Reads the 0 after a `-`, and its width: -0 is no negative integer. Any other number is an error.
fn zero(word: &[u8]) -> Result<(u64, IntegerWidth), Stop>
    ensures gives { Gives (λ x. integer x.0 x.1) result (zero_of word.now) }
    ensures some { IfOk result (λ _. 0 < length word.now) }
    ensures fits { IfOk result (λ x. FitsWidth x.1 x.0) }
{
    let (value, bitwidth) = unsigned(word)?;
    if value != 0 {
        return Err(Stop::At(Expected::Number));
    }
    Ok((value, bitwidth))
}

/// Reads an integer from a word.
fn integer_item(word: &[u8]) -> Result<DataItem, Stop>
    ensures gives { Gives view result (integer_item word.now) }
    ensures some { IfOk result (λ _. 0 < length word.now) }
    ensures well { IfOk result (λ x. (level : ℕ) → level ≤ deepest → WellFormed level (view x)) }
{
    match word {
        [b'-', digits @ ..] => match negated(digits) {
            Ok((value, bitwidth)) => Ok(DataItem::Negative { value, bitwidth }),
            Err(Stop::Memory) => Err(Stop::Memory),
            Err(Stop::At(_)) => {
                let (value, bitwidth) = zero(digits)?;
                Ok(DataItem::Integer { value, bitwidth })
            }
        },
        [b'+', digits @ ..] => {
            let (value, bitwidth) = unsigned(digits)?;
            Ok(DataItem::Integer { value, bitwidth })
        }
        [_, ..] => {
            let (value, bitwidth) = unsigned(word)?;
            Ok(DataItem::Integer { value, bitwidth })
        }
        [] => Err(Stop::At(Expected::Number)),
    }
}

/// The error for a word that is not a number. `expected` is its error as an integer, and `as_big`
/// is its error as a big number.
fn no_number(word: &[u8], expected: Expected, as_big: Expected) -> Expected {
    if word.starts_with(b"...") {
        Expected::NoEllipsis
    } else if expected == Expected::FittingWidth && !word.contains(&b'_') {
        as_big
    } else {
        expected
    }
}

/// Reads a number from a word: a float or an integer, by the form of the word.
pub(crate) fn number_item(alloc: Global, word: &[u8], inner: u8) -> Result<DataItem, Stop>
    requires low { 2 ≤ inner }
    requires high { inner ≤ 129 }
    ensures gives { Gives view result (number_item (levels_left inner) word.now) }
    ensures some { IfOk result (λ _. 0 < length word.now) }
    ensures well { IfOk result (λ x. WellFormed (inner - 1) (view x)) }
{
    if is_float(word) {
        let (bits, bitwidth) = float_word(word)?;
        return Ok(DataItem::Float { bits, bitwidth });
    }
    let stop = match integer_item(word) {
        Ok(item) => return Ok(item),
        Err(stop) => stop,
    };
    match (stop, big_item(alloc, word, inner)) {
        (Stop::At(expected), Err(Stop::At(as_big))) => {
            Err(Stop::At(no_number(word, expected, as_big)))
        }
        (Stop::Memory, _) => Err(Stop::Memory),
        (_, found) => found,
    }
}

/// The simple value that has this name.
fn named(word: &[u8]) -> Option<Simple>
    ensures gives { option_map (λ x. x.0) result ≡ named word.now }
    ensures some { IfSome result (λ _. 0 < length word.now) }
{
    if word == b"false".as_slice() {
        Some(Simple::FALSE)
    } else if word == b"true".as_slice() {
        Some(Simple::TRUE)
    } else if word == b"null".as_slice() {
        Some(Simple::NULL)
    } else if word == b"undefined".as_slice() {
        Some(Simple::UNDEFINED)
    } else {
        None
    }
}

/// A simple value after `simple(` and a blank.
fn read_simple(text: &mut Cursor<'_>) -> Result<DataItem, Stop>
    ensures gives { Gives (λ x. (view x, text.new)) result (read_simple text.old) }
    ensures within { length text.new ≤ length text.old }
    ensures well { IfOk result (λ x. (level : ℕ) → level ≤ deepest → WellFormed level (view x)) }
{
    let (number, width) = match unsigned(text.word()) {
        Ok(found) => found,
        Err(Stop::Memory) => return Err(Stop::Memory),
        Err(Stop::At(_)) => return Err(Stop::At(Expected::SimpleNumber)),
    };
    let IntegerWidth::Unknown = width else {
        return Err(Stop::At(Expected::SimpleNumber));
    };
    if number > 255 || (24 <= number && number < 32) {
        return Err(Stop::At(Expected::SimpleNumber));
    }
    text.skip_word();
    text.skip_blank();
    text.expect_byte(b')', Expected::Parenthesis)?;
    Ok(DataItem::Simple(Simple(number as u8)))
}

/// The bits of a float, after `float'`.
fn read_float(alloc: Global, text: &mut Cursor<'_>) -> Result<DataItem, Stop>
    ensures gives { Gives (λ x. (view x, text.new)) result (read_float text.old) }
    ensures within { length text.new ≤ length text.old }
    ensures well { IfOk result (λ x. (level : ℕ) → level ≤ deepest → WellFormed level (view x)) }
{
    let begun = text.rest();
    let bytes = read_digits(alloc, text, Base::Hex)?;
    match float_of_bytes(&bytes) {
        Ok((bits, bitwidth)) => Ok(DataItem::Float { bits, bitwidth }),
        Err(stop) => {
            *text = Cursor::new(begun);
            Err(stop)
        }
    }
}

/// The item that a word is: a simple value, NaN or an infinity.
fn name_item(word: &[u8]) -> Result<DataItem, Stop>
    ensures gives { Gives view result (name_item word.now) }
    ensures some { IfOk result (λ _. 0 < length word.now) }
    ensures well { IfOk result (λ x. (level : ℕ) → level ≤ deepest → WellFormed level (view x)) }
{
    match named(word) {
        Some(simple) => Ok(DataItem::Simple(simple)),
        None => {
            let (bits, bitwidth) = special_word(word)?;
            Ok(DataItem::Float { bits, bitwidth })
        }
    }
}

/// Whether a word is a prefix that is read here, such as `dt` in `dt'1970-01-01T00:00:00Z'`.
fn is_prefix(word: &[u8]) -> bool
    ensures { result ≡ is_prefix word.now }
{
    word == b"float".as_slice()
        || word == b"dt".as_slice()
        || word == b"DT".as_slice()
        || word == b"ip".as_slice()
        || word == b"IP".as_slice()
}

/// What follows a word and an apostrophe.
fn read_prefixed(
    alloc: Global,
    text: &mut Cursor<'_>,
    word: &[u8],
    inner: u8,
) -> Result<DataItem, Stop>
    requires low { 2 ≤ inner }
    requires high { inner ≤ 129 }
    ensures gives { Gives (λ x. (view x, text.new)) result
        (read_prefixed (levels_left inner) word.now text.old) }
    ensures within { length text.new ≤ length text.old }
    ensures well { IfOk result (λ x. WellFormed (inner - 1) (view x)) }
{
    if word == b"float".as_slice() {
        read_float(alloc, text)
    } else if word == b"dt".as_slice() {
        read_date(alloc, text, inner)
    } else if word == b"DT".as_slice() {
        read_tagged_date(alloc, text, inner)
    } else if word == b"ip".as_slice() {
        read_ip(alloc, text, inner)
    } else if word == b"IP".as_slice() {
        read_tagged_ip(alloc, text, inner)
    } else {
        Err(Stop::At(Expected::Prefix))
    }
}

/// An item that begins with a word.
pub(crate) fn read_name(alloc: Global, text: &mut Cursor<'_>, inner: u8) -> Result<DataItem, Stop>
    requires low { 2 ≤ inner }
    requires high { inner ≤ 129 }
    ensures gives { Gives (λ x. (view x, text.new)) result
        (read_name (levels_left inner) text.old) }
    ensures within { length text.new ≤ length text.old }
    ensures shorter { IfOk result (λ _. length text.new < length text.old) }
    ensures well { IfOk result (λ x. WellFormed (inner - 1) (view x)) }
{
    let word = text.word();
    if word == b"simple".as_slice() {
        text.skip_word();
        text.expect_byte(b'(', Expected::SimpleParenthesis)?;
        text.skip_blank();
        return read_simple(text);
    }
    let mut after = Cursor::new(text.rest());
    after.skip_word();
    if after.take_byte(b'\'') {
        if !is_prefix(word) {
            return Err(Stop::At(Expected::Prefix));
        }
        *text = after;
        return read_prefixed(alloc, text, word, inner);
    }
    let item = name_item(word)?;
    *text = after;
    Ok(item)
}
