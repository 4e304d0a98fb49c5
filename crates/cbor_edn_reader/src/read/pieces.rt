//! Reads strings of EDN to bytes. A string is one piece or several, joined by `+`. A piece is
//! quoted text, digits, or items between `<<` and `>>`.
ghost use Rattle.std.specs.Prelude.{◌≡◌, ◌<◌, ◌≤◌, ◌++◌, length, IfOk, OnOk};
ghost use Rattle.cbor_grammar.specs.WellFormed.{levels_left};
ghost use Rattle.cbor_edn_grammar.specs.Reading.{TurnGives, repeated};
ghost use Rattle.cbor_edn_grammar.specs.Strings.{piece_of, piece_turn, read_content, read_string};
ghost use Rattle.cbor_edn_grammar.specs.Items.{read_embedded};
ghost use Rattle.cbor_edn_grammar.specs.Items.{read_item};
ghost use Rattle.cbor_edn_reader.specs.Adds.{Pushes};
ghost use Rattle.cbor_edn_reader.specs.Adds.{ReadsContent, ReadsItem};

use super::read_items;
use crate::content::{push_digits, push_quoted};
use crate::strings::{end_string, take_plus, width_after};
use cbor_edn_grammar::close::Close;
use cbor_edn_grammar::error::{Expected, Stop};
use cbor_edn_grammar::opening::Opening;
use cbor_edn_tokens::cursor::Cursor;
use cbor_edn_tokens::opening::opening_at;
use cbor_grammar::IntegerWidth;
use cbor_grammar::strings::StringKind;

/// Appends the items after `<<`, up to `>>`.
#[cycle(edn)]
fn read_embedded(out: &mut Vec<u8>, text: &mut Cursor<'_>, inner: u8) -> Result<(), Stop>
    requires low { 1 ≤ inner }
    requires high { inner ≤ 129 }
    ensures reads { Pushes result out.old.items out.new.items text.new
        (read_embedded (read_item (levels_left inner)) text.old) }
    ensures within { length text.new ≤ length text.old }
{
    read_items(out, text, Close::Angles, inner)?;
    Ok(())
}

/// Appends the bytes of a piece of a string after its opening.
#[cycle(edn)]
fn read_piece(
    out: &mut Vec<u8>,
    text: &mut Cursor<'_>,
    opening: Opening,
    inner: u8,
) -> Result<(), Stop>
    requires low { 1 ≤ inner }
    requires high { inner ≤ 129 }
    ensures reads { Pushes result out.old.items out.new.items text.new
        (piece_of (read_embedded (read_item (levels_left inner))) opening text.old) }
    ensures within { length text.new ≤ length text.old }
{
    match opening {
        Opening::Quote => push_quoted(out, text, b'"'),
        Opening::Apostrophe => push_quoted(out, text, b'\''),
        Opening::Angles => read_embedded(out, text, inner),
        Opening::Digits(base) => push_digits(out, text, base),
    }
}

/// Appends the bytes of a piece. Returns whether another one is joined to it.
#[cycle(edn)]
fn piece_turn(out: &mut Vec<u8>, text: &mut Cursor<'_>, inner: u8) -> Result<bool, Stop>
    requires low { 1 ≤ inner }
    requires high { inner ≤ 129 }
    ensures gives { TurnGives result out.old.items out.new.items text.new
        (piece_turn (read_embedded (read_item (levels_left inner))) text.old) }
    ensures within { length text.new ≤ length text.old }
    ensures shorter { IfOk result (λ _. length text.new < length text.old) }
{
    let Some((opening, rest)) = opening_at(text.rest()) else {
        return Err(Stop::At(Expected::String));
    };
    *text = Cursor::new(rest);
    read_piece(out, text, opening, inner)?;
    Ok(take_plus(text))
}

/// Appends the bytes of the pieces of a string.
#[cycle(edn)]
fn read_pieces(out: &mut Vec<u8>, text: &mut Cursor<'_>, inner: u8) -> Result<(), Stop>
    requires low { 1 ≤ inner }
    requires high { inner ≤ 129 }
    ensures reads { Pushes result out.old.items out.new.items text.new
        (repeated (piece_turn (read_embedded (read_item (levels_left inner)))) text.old) }
    ensures within { length text.new ≤ length text.old }
    ensures shorter { IfOk result (λ _. length text.new < length text.old) }
{
    'pieces: loop {
        let more = piece_turn(out, text, inner)?;
        if !more {
            return Ok(());
        }
    }
}

/// Appends the bytes of a string. Returns its kind, and the width of its length, if it has one.
#[cycle(edn)]
#[tactic(auto, unfolding(cbor_edn_grammar::specs::Strings::read_content))]
pub(super) fn read_content(
    out: &mut Vec<u8>,
    text: &mut Cursor<'_>,
    inner: u8,
) -> Result<(StringKind, Option<IntegerWidth>), Stop>
    requires low { 1 ≤ inner }
    requires high { inner ≤ 129 }
    ensures reads { ReadsContent result out.old.items out.new.items
        text.new (read_content (read_embedded (read_item (levels_left inner))) text.old) }
    ensures within { length text.new ≤ length text.old }
    ensures shorter { IfOk result (λ _. length text.new < length text.old) }
{
    let Some((opening, _)) = opening_at(text.rest()) else {
        return Err(Stop::At(Expected::String));
    };
    read_pieces(out, text, inner)?;
    let width = width_after(text)?;
    Ok((opening.kind(), width))
}

/// Appends a string of definite length, or an empty one of indefinite length.
#[cycle(edn)]
pub(super) fn read_string(out: &mut Vec<u8>, text: &mut Cursor<'_>, inner: u8) -> Result<bool, Stop>
    requires low { 2 ≤ inner }
    requires high { inner ≤ 129 }
    ensures reads { ReadsItem result out.old.items out.new.items text.new
        (read_string (read_embedded (read_item (levels_left inner))) text.old) }
    ensures within { length text.new ≤ length text.old }
    ensures shorter { IfOk result (λ _. length text.new < length text.old) }
{
    let place = out.len();
    out.push(0)?;
    let (kind, width) = read_content(out, text, inner)?;
    end_string(out, place, kind, width)
}
