//! Writes an outermost item as notation, straight from bytes or hex. `push_outermost` writes it in
//! any dialect. The other functions write the notation of `cbor_view` in any layout; the public
//! calls of `convert.rt` call them.
#![tactic(auto, using(cbor_tokens::proofs::texts::Appending::appending_steps))]

ghost use Rattle.std.specs.Prelude.{◌≡◌, ◌≤◌, ◌++◌, IfOk, IfErr, IfSome, OnOk, OnErr};
ghost use Rattle.std.specs.Prelude.{MatchResult, None, Ok};
ghost use Rattle.std.specs.String.{string_bytes};
ghost use Rattle.cbor_grammar.specs.Answer.{Outcome, GaveText, GaveRefusal, RefusedSo};
ghost use Rattle.cbor_grammar.specs.Facts.{IsItem, BeginsWithItem, IsCut, HasFault, IsNoItem};
ghost use Rattle.cbor_grammar.specs.Facts.{BeginsSo, BeginsInOneWay, normal_of};
ghost use Rattle.cbor_grammar.specs.HexText.{IsHexOf, IsHexRefused};
ghost use Rattle.cbor_grammar.specs.Item.{Item};
ghost use Rattle.cbor_grammar.specs.Notation.{IsNotation};
ghost use Rattle.cbor_grammar.specs.NotationText.{indent_of};
ghost use Rattle.cbor_grammar.specs.Reading.{Fails, read_item};
ghost use Rattle.cbor_grammar.specs.WellFormed.{deepest};
ghost use Rattle.cbor_notation_writer.specs.Dialect.{TextsAt, located};
ghost use Rattle.cbor_notation_writer.specs.mirror.Straight.{Printed, Written, IsLaidOut, text_in};

use crate::context::NotationContext;
use crate::diag::Diag;
use crate::dialect::Dialect;
use crate::from_bytes::push_front;
use cbor_bytes::hex_text::{decode, uncommented};
use cbor_grammar::Error;
use cbor_grammar::layout::Layout;
use std::alloc::Global;

/// Writes the item at the front in any dialect, as the outermost item, and returns the bytes after
/// it. After an error the text is unchanged.
pub fn push_outermost<'a, D: Dialect>(
    out: &mut String,
    bytes: &'a [u8],
    place: &D::Place,
) -> cbor_grammar::Result<&'a [u8]>
    requires level { D.leaves.level place.now ≡ 1 }
    requires indent { IsLaidOut D.leaves place.now }
    ensures written { IfOk result (λ rest. Written (TextsAt (located D.leaves D.becomes)
        (place.now, bytes.now))
        (read_item deepest bytes.now) rest.now (string_bytes out.old) (string_bytes out.new)) }
    ensures refused { IfErr result (λ e. Fails e (read_item deepest bytes.now)) }
    ensures unchanged { OnErr result (string_bytes out.new ≡ string_bytes out.old) }
{
    let start = out.len();
    match push_front::<D>(out, bytes, place) {
        Ok(rest) => Ok(rest),
        Err(error) => {
            out.truncate(start);
            Err(error)
        }
    }
}

/// Writes the item at the front in the notation of `cbor_view`, in this layout.
fn push_outermost_front<'a>(
    out: &mut String,
    bytes: &'a [u8],
    layout: Layout,
) -> cbor_grammar::Result<&'a [u8]>
    requires { indent_of layout ≤ 4 }
    ensures printed { IfOk result (λ rest. Printed (text_in layout) (read_item deepest bytes.now)
        rest.now (string_bytes out.old) (string_bytes out.new)) }
    ensures refused { IfErr result (λ e. Fails e (read_item deepest bytes.now)) }
    ensures unchanged { OnErr result (string_bytes out.new ≡ string_bytes out.old) }
{
    push_outermost::<Diag>(out, bytes, &NotationContext::new(layout))
}

/// Writes the one item that the bytes encode, all of them. After an error the text is unchanged.
fn push_only(out: &mut String, bytes: &[u8], layout: Layout) -> cbor_grammar::Result<()>
    requires { indent_of layout ≤ 4 }
    ensures ok { OnOk result ((i : Item) × IsItem bytes.now i
        × (string_bytes out.new ≡ string_bytes out.old ++ text_in layout i)) }
    ensures refused { RefusedSo result (IsNoItem bytes.now) }
    ensures unchanged { OnErr result (string_bytes out.new ≡ string_bytes out.old) }
{
    let start = out.len();
    let rest = push_outermost_front(out, bytes, layout)?;
    if rest.is_empty() {
        return Ok(());
    }
    out.truncate(start);
    Err(Error::Remaining)
}

/// As `push_only`, with a contract for every item that the bytes encode and every error that they
/// have.
pub(super) fn push_whole(out: &mut String, bytes: &[u8], layout: Layout) -> cbor_grammar::Result<()>
    requires { indent_of layout ≤ 4 }
    ensures ok { OnOk result ((i : Item) × IsItem bytes.now i
        × (string_bytes out.new ≡ string_bytes out.old ++ text_in layout i)) }
    ensures every_item { (i : Item) → IsItem bytes.now i → MatchResult result
        (λ _. string_bytes out.new ≡ string_bytes out.old ++ text_in layout i)
        (λ e. e ≡ Error.Memory) }
    ensures refused { RefusedSo result (IsNoItem bytes.now) }
    ensures every_refusal { (e : Error) → IsNoItem bytes.now e → GaveRefusal result e }
    ensures unchanged { OnErr result (string_bytes out.new ≡ string_bytes out.old) }
{
    push_only(out, bytes, layout)
}

/// Writes the item at the front, and returns how many bytes it takes, or `None` if it is truncated.
pub(super) fn push_part(
    out: &mut String,
    bytes: &[u8],
    layout: Layout,
) -> cbor_grammar::Result<Option<usize>>
    requires { indent_of layout ≤ 4 }
    ensures found { IfOk result (λ o. IfSome o (λ n. (i : Item) × BeginsWithItem bytes.now i n
        × (string_bytes out.new ≡ string_bytes out.old ++ text_in layout i))) }
    ensures cut { result ≡ Ok None → IsCut bytes.now }
    ensures fault { RefusedSo result (HasFault bytes.now) }
    ensures exact { (o : Outcome) → BeginsSo bytes.now o
        → GaveText (text_in layout) result (string_bytes out.old) (string_bytes out.new) o }
    ensures one_of_three { BeginsInOneWay bytes.now }
    ensures cut_unchanged { result ≡ Ok None → string_bytes out.new ≡ string_bytes out.old }
    ensures unchanged { OnErr result (string_bytes out.new ≡ string_bytes out.old) }
{
    match push_outermost_front(out, bytes, layout) {
        Ok(rest) => Ok(Some(bytes.len() - rest.len())),
        Err(error) => match error {
            Error::CutShort => Ok(None),
            _ => Err(error),
        },
    }
}

/// The most bytes of an input for which memory is reserved before its text is written.
const MOST: usize = 1 << 19;

/// The initial capacity of the text for that many bytes. Most texts are at most twice as long.
/// Called from C, a message of 98 bytes takes a quarter less time than with a text that grows step
/// by step.
fn first_capacity(len: usize) -> usize {
    2 * len.min(MOST) + 32
}

/// Returns the text of the one item that the bytes encode.
pub(super) fn whole_text(
    alloc: Global,
    bytes: &[u8],
    layout: Layout,
) -> cbor_grammar::Result<String>
    requires { indent_of layout ≤ 4 }
    ensures ok { IfOk result (λ s. (i : Item) × IsItem bytes.now i
        × (string_bytes s ≡ text_in layout i)) }
    ensures every_item { (i : Item) → IsItem bytes.now i
        → MatchResult result (λ s. string_bytes s ≡ text_in layout i) (λ e. e ≡ Error.Memory) }
    ensures refused { RefusedSo result (IsNoItem bytes.now) }
    ensures every_refusal { (e : Error) → IsNoItem bytes.now e → GaveRefusal result e }
    ensures read_back { IfOk result (λ s. (i : Item) × IsItem bytes.now i
        × IsNotation (string_bytes s) (normal_of i)) }
{
    let mut out = String::with_capacity(alloc, first_capacity(bytes.len()))?;
    push_whole(&mut out, bytes, layout)?;
    Ok(out)
}

/// Returns the text of the item of hex with comments.
pub(super) fn hex_text(alloc: Global, hex: &str, layout: Layout) -> cbor_grammar::Result<String>
    requires { indent_of layout ≤ 4 }
    ensures ok { IfOk result (λ s. (i : Item) × IsHexOf hex.now i
        × (string_bytes s ≡ text_in layout i)) }
    ensures every_item { (i : Item) → IsHexOf hex.now i
        → MatchResult result (λ s. string_bytes s ≡ text_in layout i) (λ e. e ≡ Error.Memory) }
    ensures refused { RefusedSo result (IsHexRefused hex.now) }
    ensures every_refusal { (e : Error) → IsHexRefused hex.now e → GaveRefusal result e }
{
    let digits = uncommented(alloc, hex)?;
    let bytes = decode(alloc, digits)?;
    whole_text(alloc, &bytes, layout)
}
