//! Reads numbers and simple values of EDN, and words with a prefix (`float'`, `dt'`, `DT'`, `ip'`,
//! `IP'`), and appends the bytes of each item. `date.rt` and `network.rt` read what follows `dt'`
//! and `ip'`.
ghost use Rattle.std.specs.Prelude.{◌≡◌, ◌<◌, ◌≤◌, length, option_map, IfOk, IfSome};
ghost use Rattle.cbor_grammar.specs.WellFormed.{levels_left};
ghost use Rattle.std.specs.Prelude.{Some};
ghost use Rattle.cbor_grammar.specs.Item.{atom, integer};
ghost use Rattle.cbor_grammar.specs.Head.{FitsWidth};
ghost use Rattle.cbor_edn_grammar.specs.Reading.{Gives};
ghost use Rattle.cbor_edn_grammar.specs.Number.{zero_of, integer_of};
ghost use Rattle.cbor_edn_grammar.specs.Items.{number_item, named};
ghost use Rattle.cbor_edn_grammar.specs.Items.{simple_number, read_simple};
ghost use Rattle.cbor_edn_grammar.specs.Items.{read_float, name_item, is_prefix, read_prefixed};
ghost use Rattle.cbor_edn_grammar.specs.Items.{read_name};
ghost use Rattle.cbor_edn_reader.specs.Adds.{AddsItem, ReadsItem, integer_atom};

use crate::big::big_item;
use crate::date::{read_date, read_tagged_date};
use crate::network::{read_ip, read_tagged_ip};
use cbor_bytes::write::{push_float, push_head, push_simple};
use cbor_edn_grammar::error::{Expected, Stop};
use cbor_edn_grammar::opening::Base;
use cbor_edn_tokens::cursor::Cursor;
use cbor_edn_tokens::digits::read_digits;
use cbor_edn_tokens::float::{float_of_bytes, float_word, is_float, special_word};
use cbor_edn_tokens::number::{negated, unsigned};
use cbor_grammar::major::Major;
use cbor_grammar::{IntegerWidth, Simple};

/// An integer: whether it is negative, the number that is encoded, and its width.
#[derive(Clone, Copy)]
struct Integer {
    negative: bool,
    number: u64,
    width: IntegerWidth,
}

/// Reads the 0 after a `-`, and its width: -0 is no negative integer. Any other number is an error.
fn zero(word: &[u8]) -> Result<(u64, IntegerWidth), Stop>
    ensures gives { Gives (λ x. integer x.0 x.1) result (zero_of word.now) }
    ensures some { IfOk result (λ _. 0 < length word.now) }
    ensures fits { IfOk result (λ x. FitsWidth x.1 x.0) }
{
    let (value, bitwidth) = unsigned(word)?;
    if value != 0 {
        return Err(Stop::At(Expected::Number));
    }
    Ok((value, bitwidth))
}

/// Reads an integer from a word.
fn integer_of(word: &[u8]) -> Result<Integer, Stop>
    ensures gives { Gives integer_atom result (integer_of word.now) }
    ensures some { IfOk result (λ _. 0 < length word.now) }
    ensures fits { IfOk result (λ x. FitsWidth x.width x.number) }
{
    let (negative, (number, width)) = match word {
        [b'-', digits @ ..] => match negated(digits) {
            Ok(found) => (true, found),
            Err(Stop::Memory) => return Err(Stop::Memory),
            Err(Stop::At(_)) => (false, zero(digits)?),
        },
        [b'+', digits @ ..] => (false, unsigned(digits)?),
        [_, ..] => (false, unsigned(word)?),
        [] => return Err(Stop::At(Expected::Number)),
    };
    Ok(Integer {
        negative,
        number,
        width,
    })
}

/// Appends an integer.
fn push_integer(out: &mut Vec<u8>, integer: Integer) -> Result<bool, Stop>
    requires { FitsWidth integer.width integer.number }
    ensures { AddsItem result out.old.items out.new.items (Some (atom (integer_atom integer))) }
{
    let major = if integer.negative {
        Major::Negative
    } else {
        Major::Unsigned
    };
    push_head(out, major, integer.number, integer.width)?;
    Ok(false)
}

/// The error for a word that is not a number. `expected` is its error as an integer, and `as_big`
/// is its error as a big number.
fn no_number(word: &[u8], expected: Expected, as_big: Expected) -> Expected {
    if word.starts_with(b"...") {
        Expected::NoEllipsis
    } else if expected == Expected::FittingWidth && !word.contains(&b'_') {
        as_big
    } else {
        expected
    }
}

/// Appends the number of a word: a float or an integer, by the form of the word.
pub(crate) fn number_item(out: &mut Vec<u8>, word: &[u8], inner: u8) -> Result<bool, Stop>
    requires low { 2 ≤ inner }
    requires high { inner ≤ 129 }
    ensures adds { AddsItem result out.old.items out.new.items
        (number_item (levels_left inner) word.now) }
    ensures some { IfOk result (λ _. 0 < length word.now) }
{
    if is_float(word) {
        let (bits, width) = float_word(word)?;
        push_float(out, bits, width)?;
        return Ok(false);
    }
    let stop = match integer_of(word) {
        Ok(integer) => return push_integer(out, integer),
        Err(stop) => stop,
    };
    match (stop, big_item(out, word, inner)) {
        (Stop::At(expected), Err(Stop::At(as_big))) => {
            Err(Stop::At(no_number(word, expected, as_big)))
        }
        (Stop::Memory, _) => Err(Stop::Memory),
        (_, found) => found,
    }
}

/// The simple value that has this name.
fn named(word: &[u8]) -> Option<Simple>
    ensures gives { option_map (λ x. x.0) result ≡ named word.now }
    ensures some { IfSome result (λ _. 0 < length word.now) }
{
    if word == b"false".as_slice() {
        Some(Simple::FALSE)
    } else if word == b"true".as_slice() {
        Some(Simple::TRUE)
    } else if word == b"null".as_slice() {
        Some(Simple::NULL)
    } else if word == b"undefined".as_slice() {
        Some(Simple::UNDEFINED)
    } else {
        None
    }
}

/// The simple value of this number, for which no width is stated.
fn simple_number(number: u64, width: IntegerWidth) -> Result<u8, Stop>
    ensures { Gives (λ n. n) result (simple_number number width) }
{
    let IntegerWidth::Unknown = width else {
        return Err(Stop::At(Expected::SimpleNumber));
    };
    if number > 255 || (24 <= number && number < 32) {
        return Err(Stop::At(Expected::SimpleNumber));
    }
    Ok(number as u8)
}

/// Appends a simple value after `simple(` and a blank.
fn read_simple(out: &mut Vec<u8>, text: &mut Cursor<'_>) -> Result<bool, Stop>
    ensures reads { ReadsItem result out.old.items out.new.items text.new (read_simple text.old) }
    ensures within { length text.new ≤ length text.old }
{
    let (number, width) = match unsigned(text.word()) {
        Ok(found) => found,
        Err(Stop::Memory) => return Err(Stop::Memory),
        Err(Stop::At(_)) => return Err(Stop::At(Expected::SimpleNumber)),
    };
    let number = simple_number(number, width)?;
    text.skip_word();
    text.skip_blank();
    text.expect_byte(b')', Expected::Parenthesis)?;
    push_simple(out, number)?;
    Ok(false)
}

/// Appends the float with the bits after `float'`.
fn read_float(out: &mut Vec<u8>, text: &mut Cursor<'_>) -> Result<bool, Stop>
    ensures reads { ReadsItem result out.old.items out.new.items text.new (read_float text.old) }
    ensures within { length text.new ≤ length text.old }
{
    let begun = text.rest();
    let bytes = read_digits(*out.allocator(), text, Base::Hex)?;
    match float_of_bytes(&bytes) {
        Ok((bits, width)) => {
            push_float(out, bits, width)?;
            Ok(false)
        }
        Err(stop) => {
            *text = Cursor::new(begun);
            Err(stop)
        }
    }
}

/// Appends the item that a word is: a simple value, NaN or an infinity.
fn name_item(out: &mut Vec<u8>, word: &[u8]) -> Result<bool, Stop>
    ensures adds { AddsItem result out.old.items out.new.items (name_item word.now) }
    ensures some { IfOk result (λ _. 0 < length word.now) }
{
    match named(word) {
        Some(simple) => push_simple(out, simple.0)?,
        None => {
            let (bits, width) = special_word(word)?;
            push_float(out, bits, width)?;
        }
    }
    Ok(false)
}

/// Whether a word is a known prefix of content between apostrophes.
fn is_prefix(word: &[u8]) -> bool
    ensures { result ≡ is_prefix word.now }
{
    word == b"float".as_slice()
        || word == b"dt".as_slice()
        || word == b"DT".as_slice()
        || word == b"ip".as_slice()
        || word == b"IP".as_slice()
}

/// Appends what follows a word and an apostrophe.
fn read_prefixed(
    out: &mut Vec<u8>,
    text: &mut Cursor<'_>,
    word: &[u8],
    inner: u8,
) -> Result<bool, Stop>
    requires low { 2 ≤ inner }
    requires high { inner ≤ 129 }
    ensures reads { ReadsItem result out.old.items out.new.items text.new
        (read_prefixed (levels_left inner) word.now text.old) }
    ensures within { length text.new ≤ length text.old }
{
    if word == b"float".as_slice() {
        read_float(out, text)
    } else if word == b"dt".as_slice() {
        read_date(out, text, inner)
    } else if word == b"DT".as_slice() {
        read_tagged_date(out, text, inner)
    } else if word == b"ip".as_slice() {
        read_ip(out, text, inner)
    } else if word == b"IP".as_slice() {
        read_tagged_ip(out, text, inner)
    } else {
        Err(Stop::At(Expected::Prefix))
    }
}

/// Appends an item that begins with a word.
pub(crate) fn read_name(out: &mut Vec<u8>, text: &mut Cursor<'_>, inner: u8) -> Result<bool, Stop>
    requires low { 2 ≤ inner }
    requires high { inner ≤ 129 }
    ensures reads { ReadsItem result out.old.items out.new.items text.new
        (read_name (levels_left inner) text.old) }
    ensures within { length text.new ≤ length text.old }
    ensures shorter { IfOk result (λ _. length text.new < length text.old) }
{
    let word = text.word();
    if word == b"simple".as_slice() {
        text.skip_word();
        text.expect_byte(b'(', Expected::SimpleParenthesis)?;
        text.skip_blank();
        return read_simple(out, text);
    }
    let mut after = Cursor::new(text.rest());
    after.skip_word();
    if after.take_byte(b'\'') {
        if !is_prefix(word) {
            return Err(Stop::At(Expected::Prefix));
        }
        *text = after;
        return read_prefixed(out, text, word, inner);
    }
    let string = name_item(out, word)?;
    *text = after;
    Ok(string)
}
