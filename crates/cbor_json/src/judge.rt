//! Writes an item as JSON, or finds out why it is not written: two keys of a map become the same,
//! or, in a strict style, JSON does not keep something.
#![tactic(auto, using(cbor_tokens::proofs::texts::Appending::appending_steps))]

ghost use Rattle.std.specs.Prelude.{◌≡◌, ◌↔◌, ℕ, List, [], IfOk, IfErr, IfSome, IfNone};
ghost use Rattle.std.specs.Prelude.{IsTrue, Some, Ok};
ghost use Rattle.std.specs.String.{string_bytes};
ghost use Rattle.cbor_grammar.specs.Answer.{RefusedSo};
ghost use Rattle.cbor_grammar.specs.Facts.{IsItem, IsNoItem};
ghost use Rattle.cbor_grammar.specs.Item.{Item};
ghost use Rattle.cbor_grammar.specs.Reading.{Fails, read_item};
ghost use Rattle.cbor_grammar.specs.WellFormed.{deepest};
ghost use Rattle.json.specs.Json.{Json, document};
ghost use Rattle.json.specs.Strict.{HasUniqueKeys};
ghost use Rattle.cbor_notation_writer.specs.mirror.Straight.{Written};
ghost use Rattle.cbor_json.specs.Kept.{IsKept, IsLoss};
ghost use Rattle.cbor_json.specs.Written.{IsJsonOf, IsNotKept, Judges, Tells};
ghost use Rattle.cbor_json.specs.mirror.Walking.{IsUnique};

use crate::error::{Clash, Loss};
use crate::loss::first_loss;
use crate::names::SameNames;
use crate::print;
use crate::print::place::JsonPlace;
use crate::style::JsonStyle;
use crate::walk::{NotWritten, first_capacity, push_item};
use cbor_bytes::skip::{Extent, extent};
use cbor_grammar::Error;
use cbor_marks::Marks;
use cbor_notation_writer::outermost::push_outermost;
use json::{Scratch, Value};
use std::alloc::{AllocError, Global};

/// What became of an item.
#[derive(Drop)]
pub(crate) enum Judged {
    /// Its text.
    Text(String),
    /// The style is strict, and JSON does not keep this.
    NotKept(Loss),
    /// Two keys of a map became the same.
    SameKeys(Clash),
}

/// Whether no object of the text, which is JSON, has a key twice.
fn has_unique_keys(text: &str, alloc: Global) -> Result<bool, AllocError>
    ensures { IfOk result (λ unique. (j : Json) → document text.now ≡ Some j
        → (IsTrue unique ↔ HasUniqueKeys j)) }
{
    let mut scratch = Scratch::new(alloc);
    match Value::parse_strict(alloc, text, &mut scratch) {
        Ok(_) => Ok(true),
        Err(error) => match error {
            json::Error::DuplicateKey => Ok(false),
            // The text is JSON, so this is out of memory.
            _ => Err(AllocError),
        },
    }
}

/// Writes the item at the front, and returns its text and the bytes after it.
fn front_text<'a>(
    bytes: &'a [u8],
    style: JsonStyle,
    alloc: Global,
) -> cbor_grammar::Result<(String, &'a [u8])>
    ensures written { IfOk result (λ found. Written (IsJsonOf style)
        (read_item deepest bytes.now) found.1.now [] (string_bytes found.0)) }
    ensures refused { IfErr result (λ e. Fails e (read_item deepest bytes.now)) }
{
    let mut text = String::with_capacity(alloc, first_capacity(bytes.len()))?;
    let place = JsonPlace::new(alloc, style, None);
    let rest = push_outermost::<print::Json<'_>>(&mut text, bytes, &place)?;
    Ok((text, rest))
}

/// In a strict style, the first thing that JSON does not keep of the item at the front.
fn loss_if_strict(bytes: &[u8], style: JsonStyle) -> Option<Loss>
    ensures loss { IfSome result (IsLoss bytes.now) }
    ensures lost { (i : Item) (rest : List ℕ) → read_item deepest bytes.now ≡ Ok (i, rest)
        → IfSome result (λ _. IsNotKept style i) }
    ensures kept { (i : Item) (rest : List ℕ) → read_item deepest bytes.now ≡ Ok (i, rest)
        → IfNone result (IsTrue style.strict → IsKept i) }
{
    if style.strict {
        first_loss(bytes)
    } else {
        None
    }
}

/// The result for a text in which no object has a name twice.
fn judged_text(text: String, bytes: &[u8], style: JsonStyle) -> Judged
    ensures judged { (i : Item) (rest : List ℕ) → read_item deepest bytes.now ≡ Ok (i, rest)
        → IsJsonOf style i (string_bytes text) → IsUnique (string_bytes text)
        → Judges style result i }
    ensures tells { Tells bytes.now result }
{
    match loss_if_strict(bytes, style) {
        Some(loss) => Judged::NotKept(loss),
        None => Judged::Text(text),
    }
}

/// Writes the item at the front, and returns its text and the bytes after it, if no two names of an
/// object are equal.
fn distinct_text<'a>(
    bytes: &'a [u8],
    style: JsonStyle,
    alloc: Global,
    marks: Option<&Marks>,
) -> Result<(String, &'a [u8]), NotWritten>
    ensures { IfOk result (λ found. (i : Item)
        × (read_item deepest bytes.now ≡ Ok (i, found.1.now))
        × IsJsonOf style i (string_bytes found.0) × IsUnique (string_bytes found.0)) }
{
    let mut text = String::with_capacity(alloc, first_capacity(bytes.len()))?;
    let mut names = Vec::new(alloc);
    let place = JsonPlace::new(alloc, style, marks);
    let rest = push_item(&mut text, &mut names, bytes, &place)?;
    Ok((text, rest))
}

/// Why no item at the front is written: the error of the bytes, or out of memory.
fn front_error(bytes: &[u8]) -> Error
    ensures { Fails result (read_item deepest bytes.now) }
{
    match extent(bytes) {
        Extent::Cut => Error::CutShort,
        Extent::Fault { error, .. } => error,
        Extent::Item(_) => Error::Memory,
    }
}

/// Writes the item at the front, and reads its text, in which these two names are equal. It returns
/// what became of the item and the bytes after it.
fn judge_again<'a>(
    bytes: &'a [u8],
    style: JsonStyle,
    alloc: Global,
    names: SameNames,
) -> cbor_grammar::Result<(Judged, &'a [u8])>
    ensures judged { IfOk result (λ found. (i : Item)
        × (read_item deepest bytes.now ≡ Ok (i, found.1.now)) × Judges style found.0 i) }
    ensures tells { IfOk result (λ found. Tells bytes.now found.0) }
    ensures refused { IfErr result (λ e. Fails e (read_item deepest bytes.now)) }
{
    let (text, rest) = front_text(bytes, style, alloc)?;
    if let Some(loss) = loss_if_strict(bytes, style) {
        return Ok((Judged::NotKept(loss), rest));
    }
    if has_unique_keys(text.as_str(), alloc)? {
        return Ok((Judged::Text(text), rest));
    }
    let clash = Clash {
        first: bytes.len().saturating_sub(names.first),
        second: bytes.len().saturating_sub(names.second),
    };
    Ok((Judged::SameKeys(clash), rest))
}

/// Writes the item at the front, with its tokens marked if asked, and returns what became of it
/// and the bytes after it.
pub(crate) fn judge_front<'a>(
    bytes: &'a [u8],
    style: JsonStyle,
    alloc: Global,
    marks: Option<&Marks>,
) -> cbor_grammar::Result<(Judged, &'a [u8])>
    ensures judged { IfOk result (λ found. (i : Item)
        × (read_item deepest bytes.now ≡ Ok (i, found.1.now)) × Judges style found.0 i) }
    ensures tells { IfOk result (λ found. Tells bytes.now found.0) }
    ensures refused { IfErr result (λ e. Fails e (read_item deepest bytes.now)) }
{
    match distinct_text(bytes, style, alloc, marks) {
        Ok((text, rest)) => Ok((judged_text(text, bytes, style), rest)),
        Err(NotWritten::SameNames(names)) => judge_again(bytes, style, alloc, names),
        Err(NotWritten::Failed) => Err(front_error(bytes)),
    }
}

/// The same of the one item that the bytes are, all of them.
pub(crate) fn judge(
    bytes: &[u8],
    style: JsonStyle,
    alloc: Global,
    marks: Option<&Marks>,
) -> cbor_grammar::Result<Judged>
    ensures judged { IfOk result (λ found. (i : Item) × IsItem bytes.now i
        × Judges style found i) }
    ensures tells { IfOk result (λ found. Tells bytes.now found) }
    ensures refused { RefusedSo result (IsNoItem bytes.now) }
{
    let (judged, rest) = judge_front(bytes, style, alloc, marks)?;
    if rest.is_empty() {
        Ok(judged)
    } else {
        Err(Error::Remaining)
    }
}
