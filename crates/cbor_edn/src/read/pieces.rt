//! Reads strings of EDN as `DataItem`s. A string is one piece or several, joined by `+`. A piece is
//! quoted text, digits, or items between `<<` and `>>`.
ghost use Rattle.std.specs.Prelude.{◌≡◌, ◌-◌, ◌<◌, ◌≤◌, ◌++◌, ℕ, length, IfOk, OnOk};
ghost use Rattle.cbor_diag.specs.View.{view, items_view};
ghost use Rattle.cbor_grammar.specs.WellFormed.{levels_left, WellFormed, WellFormedItems};
ghost use Rattle.cbor_grammar.specs.Written.{encoded_items};
ghost use Rattle.cbor_edn_grammar.specs.Reading.{Gives, TurnGives, repeated};
ghost use Rattle.cbor_edn_grammar.specs.Strings.{piece_of, piece_turn, read_content, read_string};
ghost use Rattle.cbor_edn_grammar.specs.Items.{read_embedded};
ghost use Rattle.cbor_edn_grammar.specs.Items.{read_item};

use super::read_items;
use crate::strings::string_item;
use cbor_diag::DataItem;
use cbor_edn_grammar::close::Close;
use cbor_edn_grammar::error::{Expected, Stop};
use cbor_edn_grammar::opening::Opening;
use cbor_edn_reader::strings::{take_plus, width_after};
use cbor_edn_tokens::cursor::Cursor;
use cbor_edn_tokens::digits::read_digits;
use cbor_edn_tokens::opening::opening_at;
use cbor_edn_tokens::quoted::read_quoted;
use cbor_grammar::IntegerWidth;
use cbor_grammar::strings::StringKind;
use std::alloc::{AllocError, Global};

/// Appends bytes to some content, which is often empty.
fn append(content: &mut Vec<u8>, bytes: Vec<u8>) -> Result<(), AllocError>
    ensures { OnOk result (content.new.items ≡ content.old.items ++ bytes.items) }
{
    if content.is_empty() {
        *content = bytes;
    } else {
        content.extend_from_slice(&bytes)?;
    }
    Ok(())
}

/// The concatenated encodings of items.
fn encoded(alloc: Global, items: &Vec<DataItem>) -> Result<Vec<u8>, AllocError>
    requires { (level : ℕ) × (1 ≤ level) × WellFormedItems level (items_view items.now.items) }
    ensures { IfOk result (λ bytes. bytes.items ≡ encoded_items (items_view items.now.items)) }
{
    let mut bytes = Vec::new(alloc);
    'items: for item in items {
        let Ok(()) = item.push_bytes(&mut bytes) else {
            return Err(AllocError);
        };
    }
    Ok(bytes)
}

/// Reads the items after `<<`, up to `>>`, and returns the bytes that encode them.
#[cycle(edn)]
fn read_embedded(alloc: Global, text: &mut Cursor<'_>, inner: u8) -> Result<Vec<u8>, Stop>
    requires low { 1 ≤ inner }
    requires high { inner ≤ 129 }
    ensures gives { Gives (λ x. (x.items, text.new)) result
        (read_embedded (read_item (levels_left inner)) text.old) }
    ensures within { length text.new ≤ length text.old }
{
    let items = read_items(alloc, text, Close::Angles, inner)?;
    Ok(encoded(alloc, &items)?)
}

/// The bytes of a piece of a string after its opening.
#[cycle(edn)]
pub(super) fn read_piece(
    alloc: Global,
    text: &mut Cursor<'_>,
    opening: Opening,
    inner: u8,
) -> Result<Vec<u8>, Stop>
    requires low { 1 ≤ inner }
    requires high { inner ≤ 129 }
    ensures gives { Gives (λ x. (x.items, text.new)) result
        (piece_of (read_embedded (read_item (levels_left inner))) opening text.old) }
    ensures within { length text.new ≤ length text.old }
{
    match opening {
        Opening::Quote => read_quoted(alloc, text, b'"'),
        Opening::Apostrophe => read_quoted(alloc, text, b'\''),
        Opening::Angles => read_embedded(alloc, text, inner),
        Opening::Digits(base) => read_digits(alloc, text, base),
    }
}

/// Adds the bytes of a piece. Returns whether another one is joined to it.
#[cycle(edn)]
fn piece_turn(
    alloc: Global,
    bytes: &mut Vec<u8>,
    text: &mut Cursor<'_>,
    inner: u8,
) -> Result<bool, Stop>
    requires low { 1 ≤ inner }
    requires high { inner ≤ 129 }
    ensures gives { TurnGives result bytes.old.items bytes.new.items text.new
        (piece_turn (read_embedded (read_item (levels_left inner))) text.old) }
    ensures within { length text.new ≤ length text.old }
    ensures shorter { IfOk result (λ _. length text.new < length text.old) }
{
    let Some((opening, rest)) = opening_at(text.rest()) else {
        return Err(Stop::At(Expected::String));
    };
    *text = Cursor::new(rest);
    let piece = read_piece(alloc, text, opening, inner)?;
    append(bytes, piece)?;
    Ok(take_plus(text))
}

/// The bytes of the pieces of a string.
#[cycle(edn)]
fn read_pieces(alloc: Global, text: &mut Cursor<'_>, inner: u8) -> Result<Vec<u8>, Stop>
    requires low { 1 ≤ inner }
    requires high { inner ≤ 129 }
    ensures gives { Gives (λ x. (x.items, text.new)) result
        (repeated (piece_turn (read_embedded (read_item (levels_left inner)))) text.old) }
    ensures within { length text.new ≤ length text.old }
    ensures shorter { IfOk result (λ _. length text.new < length text.old) }
{
    let mut bytes = Vec::new(alloc);
    'pieces: loop {
        let more = piece_turn(alloc, &mut bytes, text, inner)?;
        if !more {
            return Ok(bytes);
        }
    }
}

/// The kind of a string, its bytes, and the width of its length, if it has one.
#[cycle(edn)]
#[tactic(auto, unfolding(cbor_edn_grammar::specs::Strings::read_content))]
pub(super) fn read_content(
    alloc: Global,
    text: &mut Cursor<'_>,
    inner: u8,
) -> Result<(StringKind, Vec<u8>, Option<IntegerWidth>), Stop>
    requires low { 1 ≤ inner }
    requires high { inner ≤ 129 }
    ensures gives { Gives (λ x. ((x.0, x.1.items, x.2), text.new)) result
        (read_content (read_embedded (read_item (levels_left inner))) text.old) }
    ensures within { length text.new ≤ length text.old }
    ensures shorter { IfOk result (λ _. length text.new < length text.old) }
{
    let Some((opening, _)) = opening_at(text.rest()) else {
        return Err(Stop::At(Expected::String));
    };
    let bytes = read_pieces(alloc, text, inner)?;
    let width = width_after(text)?;
    Ok((opening.kind(), bytes, width))
}

/// A string of definite length, or an empty one of indefinite length.
#[cycle(edn)]
pub(super) fn read_string(alloc: Global, text: &mut Cursor<'_>, inner: u8) -> Result<DataItem, Stop>
    requires low { 2 ≤ inner }
    requires high { inner ≤ 129 }
    ensures gives { Gives (λ x. (view x, text.new)) result
        (read_string (read_embedded (read_item (levels_left inner))) text.old) }
    ensures within { length text.new ≤ length text.old }
    ensures shorter { IfOk result (λ _. length text.new < length text.old) }
    ensures well { IfOk result (λ x. WellFormed (inner - 1) (view x)) }
{
    let (kind, bytes, width) = read_content(alloc, text, inner)?;
    string_item(alloc, kind, bytes, width)
}
