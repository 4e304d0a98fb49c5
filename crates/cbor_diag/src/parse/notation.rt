//! Reads a `DataItem` from diagnostic notation (RFC 7049 section 6), by recursion over the levels
//! of nesting. `diag_fault`, in `fault.rt`, finds the place of an error.
//!
//! Each private function reads at a cursor over the text, as bytes of UTF-8. It returns a value and
//! moves the cursor past it, or returns the first error from the left. After an error the cursor is
//! at the place of the error, as `stop.rt` says. The next byte decides what is read, except in
//! two places that need a look further ahead: the empty strings `''_` and `""_`, and a comma in a
//! list, because whitespace and the closing byte may follow it. The text is read once, except that
//! the first piece of a string is read again if the fast path of `strings` does not apply.
//!
//! `read_item` and the loops over members are inlined, so a member goes from `read_core` into its
//! list without a move in between.
mod fault;
mod stop;
mod strings;
mod word;

ghost use Rattle.std.specs.Prelude.{◌≡◌, ◌-◌, ◌≤◌, ℕ, suc, length, map, true, IfOk};
ghost use Rattle.cbor_diag.specs.ItemAnswer.{GaveItem};
ghost use Rattle.cbor_grammar.specs.Answer.{RefusedSo};
ghost use Rattle.cbor_diag.specs.View.{view, items_view, pairs_view};
ghost use Rattle.cbor_grammar.specs.WellFormed.{deepest, levels_left, WellFormed, WellFormedItems};
ghost use Rattle.cbor_grammar.specs.WellFormed.{WellFormedPairs};
ghost use Rattle.cbor_grammar.specs.Facts.{IsWellFormed};
ghost use Rattle.cbor_grammar.specs.Head.{FitsWidth};
ghost use Rattle.cbor_grammar.specs.Item.{Item};
ghost use Rattle.cbor_grammar.specs.Notation.{IsNotation, ReadsUnder};
ghost use Rattle.cbor_grammar.specs.NotationRefused.{IsNoNotation};
ghost use Rattle.cbor_diag.specs.ItemAnswer.{GaveOrTooDeep};
ghost use Rattle.cbor_grammar.specs.Reading.{Gives};
ghost use Rattle.cbor_notation.specs.mirror.NotationReading.{read_core, read_integer, read_item};
ghost use Rattle.cbor_notation.specs.mirror.NotationReading.{read_tagged};
ghost use Rattle.cbor_notation.specs.mirror.NotationReading.{members_from, notation_of, read_pair};
ghost use Rattle.cbor_notation.specs.mirror.NotationReading.{read_members, skip_blank};

use crate::syntax::DataItem;
use cbor_grammar::level::DEEPEST;
use cbor_grammar::{Error, IntegerWidth, Result, Tag};
use cbor_notation::cursor::Cursor;
use cbor_notation::start::Start;
pub use fault::diag_fault;
use std::alloc::Global;
use stop::{
    expect_after_item, negative_number, stop_after_blank, stop_after_item, stop_in_list,
    take_comma, unsigned_number,
};
use strings::{read_byte_item, read_chunks, read_text_item};
use word::read_word;

/// The item at the front, which is at `level`, from 1 to 129, with the blanks around it. Level 129
/// allows no item.
#[cycle(diag)]
#[inline(always)]
fn read_item(alloc: Global, text: &mut Cursor<'_>, level: u8) -> Result<DataItem>
    requires { level ≤ 129 }
    ensures gives { Gives (λ x. (view x, text.new)) result
        (read_item (levels_left level) text.old) }
    ensures shorter { IfOk result (λ _. length text.new ≤ length text.old) }
    ensures well { IfOk result (λ x. WellFormed level (view x)) }
{
    if level > DEEPEST {
        stop_after_blank(text);
        return Err(Error::TooDeep);
    }
    text.skip_blank();
    let item = read_core(alloc, text, level + 1)?;
    text.skip_blank();
    Ok(item)
}

/// The item at the front, without the blanks around it. The items in it are at `inner`, from 2 to
/// 129.
#[cycle(diag)]
#[inline(never)]
#[tactic(auto, using(crate::proofs::notation::Cores::core_by_start))]
fn read_core(alloc: Global, text: &mut Cursor<'_>, inner: u8) -> Result<DataItem>
    requires low { 1 ≤ inner }
    requires high { inner ≤ 129 }
    ensures gives { Gives (λ x. (view x, text.new)) result
        (read_core (read_item (levels_left inner)) text.old) }
    ensures shorter { IfOk result (λ _. length text.new ≤ length text.old) }
    ensures well { IfOk result (λ x. WellFormed (inner - 1) (view x)) }
{
    match text.start() {
        Start::Digit => integer_or_tag(alloc, text, inner),
        Start::Minus => {
            text.skip_byte();
            let (value, bitwidth) = negative_number(text)?;
            Ok(DataItem::Negative { value, bitwidth })
        }
        Start::Bracket => {
            text.skip_byte();
            let bitwidth = text.take_length();
            let content = read_items(alloc, b']', text, inner)?;
            Ok(DataItem::Array { content, bitwidth })
        }
        Start::Brace => {
            text.skip_byte();
            let bitwidth = text.take_length();
            let content = read_pairs(alloc, text, inner)?;
            Ok(DataItem::Map { content, bitwidth })
        }
        Start::Parenthesis => {
            text.skip_byte();
            read_chunks(alloc, text, inner)
        }
        Start::Apostrophe | Start::Angle | Start::LetterB | Start::LetterH => {
            read_byte_item(alloc, text, inner)
        }
        Start::Quote => read_text_item(alloc, text, inner),
        Start::Other => read_word(text),
    }
}

/// An integer, or a tag if a parenthesis follows its number.
#[cycle(diag)]
fn integer_or_tag(alloc: Global, text: &mut Cursor<'_>, inner: u8) -> Result<DataItem>
    requires low { 1 ≤ inner }
    requires high { inner ≤ 129 }
    ensures gives { Gives (λ x. (view x, text.new)) result
        (read_integer (read_item (levels_left inner)) text.old) }
    ensures shorter { IfOk result (λ _. length text.new ≤ length text.old) }
    ensures well { IfOk result (λ x. WellFormed (inner - 1) (view x)) }
{
    let (value, bitwidth) = unsigned_number(text)?;
    if text.take_byte(b'(') {
        read_tagged(alloc, (value, bitwidth), text, inner)
    } else {
        Ok(DataItem::Integer { value, bitwidth })
    }
}

/// A tag of this number and width, after its opening parenthesis. It is not inlined, so that an
/// integer needs no space for it.
#[cycle(diag)]
#[inline(never)]
fn read_tagged(
    alloc: Global,
    number: (u64, IntegerWidth),
    text: &mut Cursor<'_>,
    inner: u8,
) -> Result<DataItem>
    requires low { 1 ≤ inner }
    requires high { inner ≤ 129 }
    requires fits { FitsWidth number.1 number.0 }
    ensures gives { Gives (λ x. (view x, text.new)) result
        (read_tagged (read_item (levels_left inner)) number.0 number.1 text.old) }
    ensures shorter { IfOk result (λ _. length text.new ≤ length text.old) }
    ensures well { IfOk result (λ x. WellFormed (inner - 1) (view x)) }
{
    let item = read_item(alloc, text, inner)?;
    expect_after_item(text, b')')?;
    let (tag, value) = (Tag(number.0), Box::new(alloc, item)?);
    Ok(DataItem::Tag {
        tag,
        bitwidth: number.1,
        value,
    })
}

/// The items of a list after its opening byte, up to its closing byte.
#[cycle(diag)]
#[tactic(auto, using(crate::proofs::notation::Loops::members_opened))]
fn read_items(alloc: Global, close: u8, text: &mut Cursor<'_>, level: u8) -> Result<Vec<DataItem>>
    requires { level ≤ 129 }
    ensures gives { Gives (λ x. (map view x.items, text.new)) result
        (read_members (read_item (levels_left level)) close text.old) }
    ensures shorter { IfOk result (λ _. length text.new ≤ length text.old) }
    ensures well { IfOk result (λ x. WellFormedItems level (items_view x.items)) }
{
    text.skip_blank();
    if text.take_end(close) {
        return Ok(Vec::new(alloc));
    }
    let first = text.rest();
    match some_items(alloc, close, text, level) {
        Ok(items) => Ok(items),
        Err(error) => {
            stop_in_list(first, text);
            Err(error)
        }
    }
}

/// The items of a list from the first one on, up to its closing byte. Memory is reserved for two
/// items at first, since many lists are no longer.
#[cycle(diag)]
#[inline(always)]
#[tactic(auto, using(crate::proofs::shared::Views::items_push))]
fn some_items(alloc: Global, close: u8, text: &mut Cursor<'_>, level: u8) -> Result<Vec<DataItem>>
    requires { level ≤ 129 }
    ensures gives { Gives (λ x. (map view x.items, text.new)) result
        (members_from (read_item (levels_left level)) close (suc (length text.old)) text.old) }
    ensures shorter { IfOk result (λ _. length text.new ≤ length text.old) }
    ensures well { IfOk result (λ x. WellFormedItems level (items_view x.items)) }
{
    let mut items = Vec::with_capacity(alloc, 2)?;
    'items: loop {
        let item = read_item(alloc, text, level)?;
        let more = take_comma(text, close)?;
        items.push(item)?;
        if !more {
            return Ok(items);
        }
    }
}

/// The pairs of a map after its opening byte, up to its closing byte.
#[cycle(diag)]
#[tactic(auto, using(crate::proofs::notation::Loops::members_opened))]
fn read_pairs(alloc: Global, text: &mut Cursor<'_>, level: u8) -> Result<Vec<(DataItem, DataItem)>>
    requires { level ≤ 129 }
    ensures gives { Gives (λ x. (map (λ p. (view p.0, view p.1)) x.items, text.new)) result
        (read_members (read_pair (read_item (levels_left level))) 125 text.old) }
    ensures shorter { IfOk result (λ _. length text.new ≤ length text.old) }
    ensures well { IfOk result (λ x. WellFormedPairs level (pairs_view x.items)) }
{
    text.skip_blank();
    if text.take_end(b'}') {
        return Ok(Vec::new(alloc));
    }
    let first = text.rest();
    match some_pairs(alloc, text, level) {
        Ok(pairs) => Ok(pairs),
        Err(error) => {
            stop_in_list(first, text);
            Err(error)
        }
    }
}

/// The pairs of a map from the first one on, up to its closing byte. Memory is reserved for one
/// pair at first.
#[cycle(diag)]
#[inline(always)]
#[tactic(auto, using(crate::proofs::shared::Views::pairs_push))]
fn some_pairs(alloc: Global, text: &mut Cursor<'_>, level: u8) -> Result<Vec<(DataItem, DataItem)>>
    requires { level ≤ 129 }
    ensures gives { Gives (λ x. (map (λ p. (view p.0, view p.1)) x.items, text.new)) result
        (members_from (read_pair (read_item (levels_left level))) 125 (suc (length text.old))
        text.old) }
    ensures shorter { IfOk result (λ _. length text.new ≤ length text.old) }
    ensures well { IfOk result (λ x. WellFormedPairs level (pairs_view x.items)) }
{
    let mut pairs = Vec::with_capacity(alloc, 1)?;
    'pairs: loop {
        let key = read_item(alloc, text, level)?;
        expect_after_item(text, b':')?;
        let value = read_item(alloc, text, level)?;
        let more = take_comma(text, b'}')?;
        pairs.push((key, value))?;
        if !more {
            return Ok(pairs);
        }
    }
}

/// The item of a text, all of it.
fn whole_text(alloc: Global, text: &mut Cursor<'_>) -> Result<DataItem>
    ensures gives { Gives view result (notation_of deepest text.old) }
    ensures well_formed { IfOk result (λ i. IsWellFormed (view i)) }
{
    let item = read_item(alloc, text, 1)?;
    if !text.is_empty() {
        stop_after_item(text);
        return Err(Error::Notation);
    }
    Ok(item)
}

/// Reads one item from diagnostic notation (RFC 7049 section 6), from all of the text.
/// docs/NOTATION.md has the rules.
///
/// If the text would be an item without the limit of 128 levels, returns `TooDeep`. If it is not an
/// item under any limit, returns `Notation` or one of three other errors: `PastWidth` only if a
/// number does not fit the width that its indicator states, `Utf8` only if a text string is not
/// UTF-8, and `TooDeep` only if the text has 128 of `[`, `{`, `(` and `<`. Returns `Memory` if an
/// allocation fails.
///
/// ```rust
/// use cbor_diag::parse_diag;
///
/// let item = parse_diag(alloc, r#"{"a": 1, "b": [2, 3]}"#)?;
/// let bytes = item.to_bytes(alloc)?;
/// assert_eq!(rt;
///     bytes.as_slice(),
///     b"\xa2\x61a\x01\x61b\x82\x02\x03".as_slice()
/// );
/// ```
pub fn parse_diag(alloc: Global, text: &str) -> Result<DataItem>
    // The item of the text, if and only if the text is an item with no item below level 128.
    ensures ok { IfOk result (λ i. IsNotation text.now (view i)) }
    ensures every_item { (i : Item) → IsNotation text.now i → GaveItem result i }

    // If a larger limit of levels reads it, that item or `TooDeep` is returned.
    ensures larger_limit { (limit : ℕ) (i : Item) → deepest ≤ limit → ReadsUnder limit text.now i
        → GaveOrTooDeep deepest text.now result i }

    // No limit reads the text as another item.
    ensures one_item { IfOk result (λ i.
        (limit : ℕ) (other : Item) → ReadsUnder limit text.now other → other ≡ view i) }

    // Otherwise the text is not an item, and the error holds for it.
    ensures refused { RefusedSo result (IsNoNotation text.now) }

    // The item has an encoding.
    ensures well_formed { IfOk result (λ i. IsWellFormed (view i)) }
{
    whole_text(alloc, &mut Cursor::new(text.as_bytes()))
}
