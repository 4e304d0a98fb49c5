//! Reads the items of an EDN text straight to bytes, by recursion over the levels of nesting.
//! `edn_to_bytes` reads any number of items, and `edn_item_to_bytes` exactly one. `place_of_byte`
//! finds where in a text the item of a byte begins.
//!
//! Each private function reads at a cursor. It appends the encoding of what it reads, and moves the
//! cursor past that. After an error, the cursor is at the place where the text cannot go on, and
//! part of an encoding may have been appended.
mod pieces;
mod place;

ghost use Rattle.std.specs.Prelude.{◌≡◌, ◌+◌, ◌-◌, ◌<◌, ◌≤◌, length, IfOk, IfErr};
ghost use Rattle.cbor_grammar.specs.Head.{FitsWidth};
ghost use Rattle.cbor_grammar.specs.WellFormed.{levels_left};
ghost use Rattle.cbor_edn_grammar.specs.declared.error.Stop.TheVariants.{Memory};
ghost use Rattle.cbor_edn_grammar.specs.Strings.{read_string};
ghost use Rattle.cbor_edn_grammar.specs.Lists.{read_members};
ghost use Rattle.cbor_edn_grammar.specs.Items.{item_turn, pair_turn, chunk_turn};
ghost use Rattle.cbor_edn_grammar.specs.Items.{first_kind, read_array, read_map, read_chunks};
ghost use Rattle.cbor_edn_grammar.specs.Items.{read_tagged};
ghost use Rattle.cbor_edn_grammar.specs.Items.{read_number, other_item, read_item};
ghost use Rattle.cbor_edn_grammar.specs.Edn.{bytes_of_edn, Answers, IsErrorAt};
ghost use Rattle.cbor_edn_reader.specs.Adds.{ReadsItem, TurnAdds, ReadsMembers, items_bytes};
ghost use Rattle.cbor_edn_reader.specs.Adds.{pairs_bytes, chunks_bytes, item_bytes_of_edn};

use crate::heads::put_open;
use crate::scalars::{number_item, read_name};
use crate::strings::end_chunk_of;
use cbor_bytes::write::{push_close, push_head, push_open};
use cbor_edn_grammar::close::Close;
use cbor_edn_grammar::error::{EdnError, Expected, Stop};
use cbor_edn_grammar::word::begins_number;
use cbor_edn_tokens::close::{take_close, take_length, take_separator};
use cbor_edn_tokens::cursor::Cursor;
use cbor_edn_tokens::number::tag_number;
use cbor_edn_tokens::opening::{begins_string, opening_at};
use cbor_grammar::IntegerWidth;
use cbor_grammar::level::DEEPEST;
use cbor_grammar::major::Major;
use cbor_grammar::strings::StringKind;
use cbor_grammar::width::count_fits;
use pieces::{read_content, read_string};
pub use place::place_of_byte;
use std::alloc::Global;

/// One more than a count. A text never has enough members that this does not fit.
fn one_more(count: usize) -> Result<usize, Stop>
    ensures more { IfOk result (λ n. n ≡ count + 1) }
    ensures memory { IfErr result (λ e. e ≡ Memory) }
{
    match count.checked_add(1) {
        Some(more) => Ok(more),
        None => Err(Stop::Memory),
    }
}

/// Appends the next member of a list. Returns whether another one follows.
#[cycle(edn)]
fn item_turn(
    out: &mut Vec<u8>,
    text: &mut Cursor<'_>,
    close: Close,
    level: u8,
) -> Result<bool, Stop>
    requires low { 1 ≤ level }
    requires high { level ≤ 129 }
    ensures adds { TurnAdds items_bytes result out.old.items out.new.items text.new
        (item_turn (read_item (levels_left level)) close text.old) }
    ensures within { length text.new ≤ length text.old }
    ensures shorter { IfOk result (λ _. length text.new < length text.old) }
{
    let string = read_item(out, text, level)?;
    take_separator(text, close, string)
}

/// Appends the items of a list after its opening, up to what closes it. Returns their count.
#[cycle(edn)]
fn read_items(
    out: &mut Vec<u8>,
    text: &mut Cursor<'_>,
    close: Close,
    level: u8,
) -> Result<usize, Stop>
    requires low { 1 ≤ level }
    requires high { level ≤ 129 }
    ensures reads { ReadsMembers items_bytes result out.old.items out.new.items text.new
        (read_members (item_turn (read_item (levels_left level)) close) close text.old) }
    ensures within { length text.new ≤ length text.old }
{
    text.skip_blank();
    if take_close(text, close) {
        return Ok(0);
    }
    let mut count = 0;
    'items: loop {
        let more = item_turn(out, text, close, level)?;
        count = one_more(count)?;
        if !more {
            return Ok(count);
        }
    }
}

/// Appends a key and its value. Returns whether another key follows.
#[cycle(edn)]
fn pair_turn(out: &mut Vec<u8>, text: &mut Cursor<'_>, level: u8) -> Result<bool, Stop>
    requires low { 1 ≤ level }
    requires high { level ≤ 129 }
    ensures adds { TurnAdds pairs_bytes result out.old.items out.new.items text.new
        (pair_turn (read_item (levels_left level)) text.old) }
    ensures within { length text.new ≤ length text.old }
    ensures shorter { IfOk result (λ _. length text.new < length text.old) }
{
    read_item(out, text, level)?;
    text.skip_blank();
    text.expect_byte(b':', Expected::Colon)?;
    text.skip_blank();
    let string = read_item(out, text, level)?;
    take_separator(text, Close::Brace, string)
}

/// Appends the pairs of a map after its opening, up to what closes it. Returns their count.
#[cycle(edn)]
fn read_pairs(out: &mut Vec<u8>, text: &mut Cursor<'_>, level: u8) -> Result<usize, Stop>
    requires low { 1 ≤ level }
    requires high { level ≤ 129 }
    ensures reads { ReadsMembers pairs_bytes result out.old.items out.new.items text.new
        (read_members (pair_turn (read_item (levels_left level))) Close.Brace text.old) }
    ensures within { length text.new ≤ length text.old }
{
    text.skip_blank();
    if take_close(text, Close::Brace) {
        return Ok(0);
    }
    let mut count = 0;
    'pairs: loop {
        let more = pair_turn(out, text, level)?;
        count = one_more(count)?;
        if !more {
            return Ok(count);
        }
    }
}

/// Appends a chunk. Returns whether another one follows.
#[cycle(edn)]
fn chunk_turn(
    out: &mut Vec<u8>,
    text: &mut Cursor<'_>,
    kind: StringKind,
    inner: u8,
) -> Result<bool, Stop>
    requires low { 1 ≤ inner }
    requires high { inner ≤ 129 }
    ensures adds { TurnAdds (chunks_bytes kind) result out.old.items out.new.items text.new
        (chunk_turn (read_item (levels_left inner)) kind text.old) }
    ensures within { length text.new ≤ length text.old }
    ensures shorter { IfOk result (λ _. length text.new < length text.old) }
{
    let place = out.len();
    out.push(0)?;
    let found = read_content(out, text, inner)?;
    end_chunk_of(out, place, kind, found)?;
    take_separator(text, Close::Parenthesis, true)
}

/// Appends the chunks of a string of this kind after `(_`, up to `)`. Returns their count.
#[cycle(edn)]
fn read_chunk_list(
    out: &mut Vec<u8>,
    text: &mut Cursor<'_>,
    kind: StringKind,
    inner: u8,
) -> Result<usize, Stop>
    requires low { 1 ≤ inner }
    requires high { inner ≤ 129 }
    ensures reads { ReadsMembers (chunks_bytes kind) result out.old.items out.new.items text.new
        (read_members (chunk_turn (read_item (levels_left inner)) kind) Close.Parenthesis
        text.old) }
    ensures within { length text.new ≤ length text.old }
{
    text.skip_blank();
    if take_close(text, Close::Parenthesis) {
        return Ok(0);
    }
    let mut count = 0;
    'chunks: loop {
        let more = chunk_turn(out, text, kind, inner)?;
        count = one_more(count)?;
        if !more {
            return Ok(count);
        }
    }
}

/// The kind of the first of the chunks that begin here. Without chunks it is bytes.
fn first_kind(text: &Cursor<'_>) -> StringKind
    ensures { result ≡ first_kind text.now }
{
    let mut chunks = Cursor::new(text.rest());
    chunks.skip_blank();
    match opening_at(chunks.rest()) {
        Some((opening, _)) => opening.kind(),
        None => StringKind::Bytes,
    }
}

/// Appends a string in chunks, after its `(`.
#[cycle(edn)]
fn read_chunks(out: &mut Vec<u8>, text: &mut Cursor<'_>, inner: u8) -> Result<bool, Stop>
    requires low { 2 ≤ inner }
    requires high { inner ≤ 129 }
    ensures reads { ReadsItem result out.old.items out.new.items text.new
        (read_chunks (read_item (levels_left inner)) text.old) }
    ensures within { length text.new ≤ length text.old }
{
    if take_length(text, Close::Parenthesis)?.is_some() {
        return Err(Stop::At(Expected::Underscore));
    }
    let kind = first_kind(text);
    push_open(out, kind.major(), 0, None)?;
    read_chunk_list(out, text, kind, inner)?;
    push_close(out, None)?;
    Ok(false)
}

/// Appends an array after its `[`.
#[cycle(edn)]
fn read_array(out: &mut Vec<u8>, text: &mut Cursor<'_>, inner: u8) -> Result<bool, Stop>
    requires low { 2 ≤ inner }
    requires high { inner ≤ 129 }
    ensures reads { ReadsItem result out.old.items out.new.items text.new
        (read_array (read_item (levels_left inner)) text.old) }
    ensures within { length text.new ≤ length text.old }
{
    let width = take_length(text, Close::Bracket)?;
    let place = out.len();
    out.push(0)?;
    let count = read_items(out, text, Close::Bracket, inner)?;
    if !count_fits(width, count) {
        return Err(Stop::At(Expected::FittingWidth));
    }
    put_open(out, place, Major::Array, (count, width))?;
    push_close(out, width)?;
    Ok(false)
}

/// Appends a map after its `{`.
#[cycle(edn)]
fn read_map(out: &mut Vec<u8>, text: &mut Cursor<'_>, inner: u8) -> Result<bool, Stop>
    requires low { 2 ≤ inner }
    requires high { inner ≤ 129 }
    ensures reads { ReadsItem result out.old.items out.new.items text.new
        (read_map (read_item (levels_left inner)) text.old) }
    ensures within { length text.new ≤ length text.old }
{
    let width = take_length(text, Close::Brace)?;
    let place = out.len();
    out.push(0)?;
    let count = read_pairs(out, text, inner)?;
    if !count_fits(width, count) {
        return Err(Stop::At(Expected::FittingWidth));
    }
    put_open(out, place, Major::Map, (count, width))?;
    push_close(out, width)?;
    Ok(false)
}

/// Appends a tag of this number and width, after its `(`.
#[cycle(edn)]
fn read_tagged(
    out: &mut Vec<u8>,
    text: &mut Cursor<'_>,
    number: (u64, IntegerWidth),
    inner: u8,
) -> Result<bool, Stop>
    requires low { 2 ≤ inner }
    requires high { inner ≤ 129 }
    requires fits { FitsWidth number.1 number.0 }
    ensures reads { ReadsItem result out.old.items out.new.items text.new
        (read_tagged (read_item (levels_left inner)) number.0 number.1 text.old) }
    ensures within { length text.new ≤ length text.old }
{
    push_head(out, Major::Tag, number.0, number.1)?;
    text.skip_blank();
    read_item(out, text, inner)?;
    text.skip_blank();
    text.expect_byte(b')', Expected::Parenthesis)?;
    Ok(false)
}

/// Appends a number, or a tag if a parenthesis follows it.
#[cycle(edn)]
fn read_number(out: &mut Vec<u8>, text: &mut Cursor<'_>, inner: u8) -> Result<bool, Stop>
    requires low { 2 ≤ inner }
    requires high { inner ≤ 129 }
    ensures reads { ReadsItem result out.old.items out.new.items text.new
        (read_number (levels_left inner) (read_item (levels_left inner)) text.old) }
    ensures within { length text.new ≤ length text.old }
    ensures shorter { IfOk result (λ _. length text.new < length text.old) }
{
    let (word, mut after) = text.split_word();
    if after.take_byte(b'(') {
        let number = tag_number(word)?;
        *text = after;
        read_tagged(out, text, number, inner)
    } else {
        let string = number_item(out, word, inner)?;
        *text = after;
        Ok(string)
    }
}

/// Appends an item other than a string, by its first byte.
#[cycle(edn)]
fn other_item(out: &mut Vec<u8>, text: &mut Cursor<'_>, inner: u8) -> Result<bool, Stop>
    requires low { 2 ≤ inner }
    requires high { inner ≤ 129 }
    ensures reads { ReadsItem result out.old.items out.new.items text.new
        (other_item (levels_left inner) (read_item (levels_left inner)) text.old) }
    ensures within { length text.new ≤ length text.old }
    ensures shorter { IfOk result (λ _. length text.new < length text.old) }
{
    match text.rest() {
        [b'[', rest @ ..] => {
            *text = Cursor::new(rest);
            read_array(out, text, inner)
        }
        [b'{', rest @ ..] => {
            *text = Cursor::new(rest);
            read_map(out, text, inner)
        }
        [b'(', rest @ ..] => {
            *text = Cursor::new(rest);
            read_chunks(out, text, inner)
        }
        [] => Err(Stop::At(Expected::Item)),
        rest if begins_number(rest) => read_number(out, text, inner),
        _ => read_name(out, text, inner),
    }
}

/// Appends the item at the front, which is at `level`, from 1 to 129. No item is allowed at level
/// 129. Returns whether it is a string of definite length.
#[cycle(edn)]
fn read_item(out: &mut Vec<u8>, text: &mut Cursor<'_>, level: u8) -> Result<bool, Stop>
    requires low { 1 ≤ level }
    requires high { level ≤ 129 }
    ensures reads { ReadsItem result out.old.items out.new.items text.new
        (read_item (levels_left level) text.old) }
    ensures within { length text.new ≤ length text.old }
    ensures shorter { IfOk result (λ _. length text.new < length text.old) }
{
    if level > DEEPEST {
        return Err(Stop::At(Expected::Levels));
    }
    if begins_string(text.rest()) {
        read_string(out, text, level + 1)
    } else {
        other_item(out, text, level + 1)
    }
}

/// The error for this text, where reading stopped with `left` bytes left.
fn error_at(stop: Stop, text: &str, left: usize) -> EdnError
    requires { left ≤ length text.now }
    ensures { IsErrorAt stop (length text.now - left) result }
{
    match stop {
        Stop::Memory => EdnError::Memory,
        Stop::At(expected) => {
            let place = text.len() - left;
            let (before, rest) = text.as_bytes().split_at(place);
            EdnError::Wrong {
                place,
                expected: expected.between(before, rest),
            }
        }
    }
}

/// Reads zero or more items from EDN, and returns their concatenated encodings.
///
/// Returns `Wrong`, with the byte offset of the error, if the text is not EDN. Returns `Memory` if
/// an allocation fails.
pub fn edn_to_bytes(alloc: Global, text: &str) -> Result<Vec<u8>, EdnError>
    // The bytes of the items that the text denotes, and an error only for a text that is not EDN.
    ensures gives { Answers (λ x. x.items) text.now (bytes_of_edn text.now) result }
{
    let mut out = Vec::new(alloc);
    let mut rest = Cursor::new(text.as_bytes());
    match read_items(&mut out, &mut rest, Close::End, 1) {
        Ok(_) => Ok(out),
        Err(stop) => Err(error_at(stop, text, rest.rest().len())),
    }
}

/// Reads one item from EDN, and returns its encoding.
///
/// Returns `Wrong`, with the byte offset of the error, if the text is not exactly one item. Returns
/// `Memory` if an allocation fails.
pub fn edn_item_to_bytes(alloc: Global, text: &str) -> Result<Vec<u8>, EdnError>
    // The bytes of the item that the text denotes, and an error only for a text that denotes none.
    ensures gives { Answers (λ x. x.items) text.now (item_bytes_of_edn text.now) result }
{
    let mut out = Vec::new(alloc);
    let mut rest = Cursor::new(text.as_bytes());
    let count = match read_items(&mut out, &mut rest, Close::End, 1) {
        Ok(count) => count,
        Err(stop) => return Err(error_at(stop, text, rest.rest().len())),
    };
    if count == 1 {
        return Ok(out);
    }
    let expected = if count == 0 {
        Expected::Item
    } else {
        Expected::OneItem
    };
    Err(EdnError::Wrong {
        place: text.len(),
        expected,
    })
}
