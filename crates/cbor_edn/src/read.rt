//! Reads the one item of an EDN text as a `DataItem` (`parse_edn`), by recursion over the levels of
//! nesting.
//!
//! Each private function reads at a cursor. It returns a value and moves the cursor past it. After
//! an error, the cursor is at the place where the text cannot go on.
mod pieces;

ghost use Rattle.std.specs.Prelude.{◌≡◌, ◌-◌, ◌<◌, ◌≤◌, length, map, IfOk};
ghost use Rattle.std.specs.List.{AllByRecursion};
ghost use Rattle.cbor_diag.specs.View.{view, items_view, pairs_view};
ghost use Rattle.cbor_grammar.specs.Head.{FitsWidth};
ghost use Rattle.cbor_grammar.specs.WellFormed.{levels_left, WellFormed, WellFormedItems};
ghost use Rattle.cbor_grammar.specs.WellFormed.{WellFormedPairs, IsChunk};
ghost use Rattle.cbor_edn_grammar.specs.Reading.{Gives, TurnGives};
ghost use Rattle.cbor_edn_grammar.specs.Strings.{read_content, read_string};
ghost use Rattle.cbor_edn_grammar.specs.Lists.{read_members};
ghost use Rattle.cbor_edn.specs.Chunks.{chunk_list, list_kind};
ghost use Rattle.cbor_edn_grammar.specs.Items.{item_turn, pair_turn, chunk_turn};
ghost use Rattle.cbor_edn_grammar.specs.Items.{first_kind, read_array, read_map, read_chunks};
ghost use Rattle.cbor_edn_grammar.specs.Items.{read_tagged};
ghost use Rattle.cbor_edn_grammar.specs.Items.{read_number, other_item, read_item};
ghost use Rattle.cbor_edn_grammar.specs.Edn.{items_of_edn, item_of_edn, Answers};
ghost use Rattle.cbor_edn_grammar.specs.Edn.{IsErrorAt};
ghost use Rattle.cbor_grammar.specs.Facts.{IsWellFormed};

use crate::scalars::{is_string, number_item, read_name};
use crate::strings::Chunks;
use cbor_diag::DataItem;
use cbor_edn_grammar::close::Close;
use cbor_edn_grammar::error::{EdnError, Expected, Stop};
use cbor_edn_grammar::word::begins_number;
use cbor_edn_tokens::close::{take_close, take_length, take_separator};
use cbor_edn_tokens::cursor::Cursor;
use cbor_edn_tokens::number::tag_number;
use cbor_edn_tokens::opening::{begins_string, opening_at};
use cbor_grammar::level::DEEPEST;
use cbor_grammar::strings::StringKind;
use cbor_grammar::width::count_fits;
use cbor_grammar::{IntegerWidth, Tag};
use pieces::{read_content, read_string};
use std::alloc::Global;

/// Adds the next member of a list. Returns whether another one follows.
#[cycle(edn)]
fn item_turn(
    alloc: Global,
    items: &mut Vec<DataItem>,
    text: &mut Cursor<'_>,
    close: Close,
    level: u8,
) -> Result<bool, Stop>
    requires low { 1 ≤ level }
    requires high { level ≤ 129 }
    ensures gives { TurnGives result (map view items.old.items) (map view items.new.items) text.new
        (item_turn (read_item (levels_left level)) close text.old) }
    ensures within { length text.new ≤ length text.old }
    ensures shorter { IfOk result (λ _. length text.new < length text.old) }
    ensures well { IfOk result (λ _. WellFormedItems level (items_view items.old.items)
        → WellFormedItems level (items_view items.new.items)) }
{
    let item = read_item(alloc, text, level)?;
    let string = is_string(&item);
    items.push(item)?;
    take_separator(text, close, string)
}

/// The items of a list after its opening, up to what closes it.
#[cycle(edn)]
fn read_items(
    alloc: Global,
    text: &mut Cursor<'_>,
    close: Close,
    level: u8,
) -> Result<Vec<DataItem>, Stop>
    requires low { 1 ≤ level }
    requires high { level ≤ 129 }
    ensures gives { Gives (λ x. (map view x.items, text.new)) result
        (read_members (item_turn (read_item (levels_left level)) close) close text.old) }
    ensures within { length text.new ≤ length text.old }
    ensures well { IfOk result (λ x. WellFormedItems level (items_view x.items)) }
{
    text.skip_blank();
    if take_close(text, close) {
        return Ok(Vec::new(alloc));
    }
    let mut items = Vec::new(alloc);
    'items: loop {
        let more = item_turn(alloc, &mut items, text, close, level)?;
        if !more {
            return Ok(items);
        }
    }
}

/// Adds a key and its value. Returns whether another key follows.
#[cycle(edn)]
fn pair_turn(
    alloc: Global,
    pairs: &mut Vec<(DataItem, DataItem)>,
    text: &mut Cursor<'_>,
    level: u8,
) -> Result<bool, Stop>
    requires low { 1 ≤ level }
    requires high { level ≤ 129 }
    ensures gives { TurnGives result (map (λ p. (view p.0, view p.1)) pairs.old.items)
        (map (λ p. (view p.0, view p.1)) pairs.new.items) text.new
        (pair_turn (read_item (levels_left level)) text.old) }
    ensures within { length text.new ≤ length text.old }
    ensures shorter { IfOk result (λ _. length text.new < length text.old) }
    ensures well { IfOk result (λ _. WellFormedPairs level (pairs_view pairs.old.items)
        → WellFormedPairs level (pairs_view pairs.new.items)) }
{
    let key = read_item(alloc, text, level)?;
    text.skip_blank();
    text.expect_byte(b':', Expected::Colon)?;
    text.skip_blank();
    let value = read_item(alloc, text, level)?;
    let string = is_string(&value);
    pairs.push((key, value))?;
    take_separator(text, Close::Brace, string)
}

/// The pairs of a map after its opening, up to what closes it.
#[cycle(edn)]
fn read_pairs(
    alloc: Global,
    text: &mut Cursor<'_>,
    level: u8,
) -> Result<Vec<(DataItem, DataItem)>, Stop>
    requires low { 1 ≤ level }
    requires high { level ≤ 129 }
    ensures gives { Gives (λ x. (map (λ p. (view p.0, view p.1)) x.items, text.new)) result
        (read_members (pair_turn (read_item (levels_left level))) Close.Brace text.old) }
    ensures within { length text.new ≤ length text.old }
    ensures well { IfOk result (λ x. WellFormedPairs level (pairs_view x.items)) }
{
    text.skip_blank();
    if take_close(text, Close::Brace) {
        return Ok(Vec::new(alloc));
    }
    let mut pairs = Vec::new(alloc);
    'pairs: loop {
        let more = pair_turn(alloc, &mut pairs, text, level)?;
        if !more {
            return Ok(pairs);
        }
    }
}

/// Adds a chunk. Returns whether another one follows.
#[cycle(edn)]
fn chunk_turn(
    alloc: Global,
    chunks: &mut Chunks,
    text: &mut Cursor<'_>,
    inner: u8,
) -> Result<bool, Stop>
    requires low { 1 ≤ inner }
    requires high { inner ≤ 129 }
    ensures gives { TurnGives result (chunk_list chunks.old) (chunk_list chunks.new) text.new
        (chunk_turn (read_item (levels_left inner)) (list_kind chunks.old) text.old) }
    ensures within { length text.new ≤ length text.old }
    ensures shorter { IfOk result (λ _. length text.new < length text.old) }
    ensures kind { IfOk result (λ _. list_kind chunks.new ≡ list_kind chunks.old) }
    ensures well { IfOk result (λ _.
        AllByRecursion (IsChunk (list_kind chunks.old)) (chunk_list chunks.old)
        → AllByRecursion (IsChunk (list_kind chunks.old)) (chunk_list chunks.new)) }
{
    let (kind, bytes, width) = read_content(alloc, text, inner)?;
    chunks.push(kind, bytes, width)?;
    take_separator(text, Close::Parenthesis, true)
}

/// The chunks of a string of this kind after `(_`, up to `)`.
#[cycle(edn)]
fn read_chunk_list(
    alloc: Global,
    text: &mut Cursor<'_>,
    kind: StringKind,
    inner: u8,
) -> Result<Chunks, Stop>
    requires low { 1 ≤ inner }
    requires high { inner ≤ 129 }
    ensures gives { Gives (λ x. (chunk_list x, text.new)) result
        (read_members (chunk_turn (read_item (levels_left inner)) kind) Close.Parenthesis
        text.old) }
    ensures within { length text.new ≤ length text.old }
    ensures kind { IfOk result (λ x. list_kind x ≡ kind) }
    ensures well { IfOk result (λ x. AllByRecursion (IsChunk kind) (chunk_list x)) }
{
    let mut chunks = Chunks::new(alloc, kind);
    text.skip_blank();
    if take_close(text, Close::Parenthesis) {
        return Ok(chunks);
    }
    'chunks: loop {
        let more = chunk_turn(alloc, &mut chunks, text, inner)?;
        if !more {
            return Ok(chunks);
        }
    }
}

/// The kind of the first of the chunks that begin here. Without chunks it is bytes.
fn first_kind(text: &Cursor<'_>) -> StringKind
    ensures { result ≡ first_kind text.now }
{
    let mut chunks = Cursor::new(text.rest());
    chunks.skip_blank();
    match opening_at(chunks.rest()) {
        Some((opening, _)) => opening.kind(),
        None => StringKind::Bytes,
    }
}

/// A string in chunks, after its `(`.
#[cycle(edn)]
fn read_chunks(alloc: Global, text: &mut Cursor<'_>, inner: u8) -> Result<DataItem, Stop>
    requires low { 2 ≤ inner }
    requires high { inner ≤ 129 }
    ensures gives { Gives (λ x. (view x, text.new)) result
        (read_chunks (read_item (levels_left inner)) text.old) }
    ensures within { length text.new ≤ length text.old }
    ensures well { IfOk result (λ x. WellFormed (inner - 1) (view x)) }
{
    if take_length(text, Close::Parenthesis)?.is_some() {
        return Err(Stop::At(Expected::Underscore));
    }
    let kind = first_kind(text);
    let chunks = read_chunk_list(alloc, text, kind, inner)?;
    Ok(chunks.into_item())
}

/// An array after its `[`.
#[cycle(edn)]
fn read_array(alloc: Global, text: &mut Cursor<'_>, inner: u8) -> Result<DataItem, Stop>
    requires low { 2 ≤ inner }
    requires high { inner ≤ 129 }
    ensures gives { Gives (λ x. (view x, text.new)) result
        (read_array (read_item (levels_left inner)) text.old) }
    ensures within { length text.new ≤ length text.old }
    ensures well { IfOk result (λ x. WellFormed (inner - 1) (view x)) }
{
    let bitwidth = take_length(text, Close::Bracket)?;
    let content = read_items(alloc, text, Close::Bracket, inner)?;
    if !count_fits(bitwidth, content.len()) {
        return Err(Stop::At(Expected::FittingWidth));
    }
    Ok(DataItem::Array { content, bitwidth })
}

/// A map after its `{`.
#[cycle(edn)]
fn read_map(alloc: Global, text: &mut Cursor<'_>, inner: u8) -> Result<DataItem, Stop>
    requires low { 2 ≤ inner }
    requires high { inner ≤ 129 }
    ensures gives { Gives (λ x. (view x, text.new)) result
        (read_map (read_item (levels_left inner)) text.old) }
    ensures within { length text.new ≤ length text.old }
    ensures well { IfOk result (λ x. WellFormed (inner - 1) (view x)) }
{
    let bitwidth = take_length(text, Close::Brace)?;
    let content = read_pairs(alloc, text, inner)?;
    if !count_fits(bitwidth, content.len()) {
        return Err(Stop::At(Expected::FittingWidth));
    }
    Ok(DataItem::Map { content, bitwidth })
}

/// A tag of this number and width, after its `(`.
#[cycle(edn)]
fn read_tagged(
    alloc: Global,
    text: &mut Cursor<'_>,
    number: (u64, IntegerWidth),
    inner: u8,
) -> Result<DataItem, Stop>
    requires low { 2 ≤ inner }
    requires high { inner ≤ 129 }
    requires fits { FitsWidth number.1 number.0 }
    ensures gives { Gives (λ x. (view x, text.new)) result
        (read_tagged (read_item (levels_left inner)) number.0 number.1 text.old) }
    ensures within { length text.new ≤ length text.old }
    ensures well { IfOk result (λ x. WellFormed (inner - 1) (view x)) }
{
    text.skip_blank();
    let item = read_item(alloc, text, inner)?;
    text.skip_blank();
    text.expect_byte(b')', Expected::Parenthesis)?;
    let (tag, value) = (Tag(number.0), Box::new(alloc, item)?);
    Ok(DataItem::Tag {
        tag,
        bitwidth: number.1,
        value,
    })
}

/// A number, or a tag if a parenthesis follows it.
#[cycle(edn)]
fn read_number(alloc: Global, text: &mut Cursor<'_>, inner: u8) -> Result<DataItem, Stop>
    requires low { 2 ≤ inner }
    requires high { inner ≤ 129 }
    ensures gives { Gives (λ x. (view x, text.new)) result
        (read_number (levels_left inner) (read_item (levels_left inner)) text.old) }
    ensures within { length text.new ≤ length text.old }
    ensures shorter { IfOk result (λ _. length text.new < length text.old) }
    ensures well { IfOk result (λ x. WellFormed (inner - 1) (view x)) }
{
    let (word, mut after) = text.split_word();
    if after.take_byte(b'(') {
        let number = tag_number(word)?;
        *text = after;
        read_tagged(alloc, text, number, inner)
    } else {
        let item = number_item(alloc, word, inner)?;
        *text = after;
        Ok(item)
    }
}

/// An item other than a string, by its first byte.
#[cycle(edn)]
fn other_item(alloc: Global, text: &mut Cursor<'_>, inner: u8) -> Result<DataItem, Stop>
    requires low { 2 ≤ inner }
    requires high { inner ≤ 129 }
    ensures gives { Gives (λ x. (view x, text.new)) result
        (other_item (levels_left inner) (read_item (levels_left inner)) text.old) }
    ensures within { length text.new ≤ length text.old }
    ensures shorter { IfOk result (λ _. length text.new < length text.old) }
    ensures well { IfOk result (λ x. WellFormed (inner - 1) (view x)) }
{
    match text.rest() {
        [b'[', rest @ ..] => {
            *text = Cursor::new(rest);
            read_array(alloc, text, inner)
        }
        [b'{', rest @ ..] => {
            *text = Cursor::new(rest);
            read_map(alloc, text, inner)
        }
        [b'(', rest @ ..] => {
            *text = Cursor::new(rest);
            read_chunks(alloc, text, inner)
        }
        [] => Err(Stop::At(Expected::Item)),
        rest if begins_number(rest) => read_number(alloc, text, inner),
        _ => read_name(alloc, text, inner),
    }
}

/// The item at the front, which is at `level`, from 1 to 129. No item is allowed at level 129.
#[cycle(edn)]
fn read_item(alloc: Global, text: &mut Cursor<'_>, level: u8) -> Result<DataItem, Stop>
    requires low { 1 ≤ level }
    requires high { level ≤ 129 }
    ensures gives { Gives (λ x. (view x, text.new)) result
        (read_item (levels_left level) text.old) }
    ensures within { length text.new ≤ length text.old }
    ensures shorter { IfOk result (λ _. length text.new < length text.old) }
    ensures well { IfOk result (λ x. WellFormed level (view x)) }
{
    if level > DEEPEST {
        return Err(Stop::At(Expected::Levels));
    }
    if begins_string(text.rest()) {
        read_string(alloc, text, level + 1)
    } else {
        other_item(alloc, text, level + 1)
    }
}

/// The error for this text, where reading stopped with `left` bytes left.
fn error_at(stop: Stop, text: &str, left: usize) -> EdnError
    requires { left ≤ length text.now }
    ensures { IsErrorAt stop (length text.now - left) result }
{
    match stop {
        Stop::Memory => EdnError::Memory,
        Stop::At(expected) => {
            let place = text.len() - left;
            let (before, rest) = text.as_bytes().split_at(place);
            EdnError::Wrong {
                place,
                expected: expected.between(before, rest),
            }
        }
    }
}

/// The items of a whole text.
fn items_of(alloc: Global, text: &str) -> Result<Vec<DataItem>, EdnError>
    ensures gives { Answers (λ x. map view x.items) text.now (items_of_edn text.now) result }
    ensures well { IfOk result (λ x. WellFormedItems 1 (items_view x.items)) }
{
    let mut rest = Cursor::new(text.as_bytes());
    match read_items(alloc, &mut rest, Close::End, 1) {
        Ok(items) => Ok(items),
        Err(stop) => Err(error_at(stop, text, rest.rest().len())),
    }
}

/// Reads one item from EDN, and returns it.
///
/// Returns `Wrong`, with the byte offset of the error, if the text is not exactly one item. Returns
/// `Memory` if an allocation fails.
pub fn parse_edn(alloc: Global, text: &str) -> Result<DataItem, EdnError>
    // The item that the text denotes, and an error only for a text that denotes no item.
    ensures gives { Answers view text.now (item_of_edn text.now) result }

    // The item has an encoding.
    ensures well_formed { IfOk result (λ i. IsWellFormed (view i)) }
{
    let mut items = items_of(alloc, text)?;
    match items.pop() {
        Some(item) if items.is_empty() => Ok(item),
        Some(_) => Err(EdnError::Wrong {
            place: text.len(),
            expected: Expected::OneItem,
        }),
        None => Err(EdnError::Wrong {
            place: text.len(),
            expected: Expected::Item,
        }),
    }
}
