//! Reads a `DataItem` from bytes (RFC 7049 section 2), by a loop with a stack of the open
//! containers. `parse_bytes_counted` also counts the turns of the loop.
//!
//! `read_atom`, `turn` and `read_item` take the remaining bytes. They return a value with the bytes
//! after it, or the first error from the left, which is `CutShort` if the bytes end. Claimed
//! lengths and counts are not trusted: memory is reserved only for bytes and members that are
//! there, and for a few members in advance.
mod frame;
mod stack;

ghost use Rattle.std.specs.Prelude.{◌≡◌, ◌≢◌, ℕ, ◌+◌, ◌-◌, ◌*◌, ◌^◌, ◌<◌, ◌≤◌, List, ◌++◌, length};
ghost use Rattle.std.specs.Prelude.{take, ◌↔◌, IfOk, IfErr, IfSome, OnOk, option_map};
ghost use Rattle.cbor_grammar.specs.Item.{Item};
ghost use Rattle.cbor_diag.specs.View.{view};
ghost use Rattle.cbor_grammar.specs.WellFormed.{deepest, levels_left};
ghost use Rattle.cbor_grammar.specs.Written.{encoded};
ghost use Rattle.cbor_grammar.specs.Answer.{Outcome, spelled};
ghost use Rattle.cbor_diag.specs.ItemAnswer.{Gave, GaveItem};
ghost use Rattle.cbor_grammar.specs.Answer.{GaveRefusal, RefusedSo, MayWantMemory, size};
ghost use Rattle.cbor_diag.specs.mirror.BytesAnswer.{WholeAnswer, FrontAnswer, FrontTurns};
ghost use Rattle.cbor_grammar.specs.Turns.{item_turns, cut_spent, fault_spent};
ghost use Rattle.cbor_grammar.specs.Facts.{IsItem, IsStrictItem, BeginsWithItem, IsCut, HasFault};
ghost use Rattle.cbor_grammar.specs.Facts.{IsNoItem, BeginsSo, BeginsInOneWay, IsWellFormed};
ghost use Rattle.cbor_grammar.specs.Reading.{later, read_atom, counted_item};
ghost use Rattle.cbor_grammar.specs.mirror.Counting.{HoldsContent, GivesIn, FailsIn};
ghost use Rattle.cbor_grammar.specs.mirror.Counting.{resume, resume_with};
ghost use Rattle.cbor_diag.specs.mirror.Stack.{frames};

use crate::syntax::DataItem;
use cbor_bytes::Turns;
use cbor_bytes::head::read_item_head;
use cbor_bytes::strings::{read_chunks, read_string};
use cbor_grammar::argument::Argument;
use cbor_grammar::head::ItemHead;
use cbor_grammar::level::DEEPEST;
use cbor_grammar::strings::StringKind;
use cbor_grammar::{ByteString, Error, Result, Simple, TextString};
use frame::Frame;
use stack::Stack;
use std::alloc::Global;

/// An item that holds no other, after its head. `Frame::new` handles the heads of containers
/// before.
fn read_atom<'a>(
    alloc: Global,
    head: ItemHead,
    bytes: &'a [u8],
    turns: &mut Turns,
) -> Result<(DataItem, &'a [u8])>
    requires { turns.old + 2 * length bytes.now < 2 ^ 126 }
    ensures gives { GivesIn (λ x. (view x.0, x.1.now)) turns.old turns.new result
        (read_atom head bytes.now) }
    ensures falls { IfOk result (λ x.
        turns.new + 2 * length x.1.now ≤ turns.old + 2 * length bytes.now) }
    ensures few { turns.new ≤ turns.old + 2 * length bytes.now + 1 }
    ensures rises { turns.old ≤ turns.new }
    ensures memory { result ≡ Err Error.Memory → HoldsContent head }
{
    match head {
        ItemHead::Integer(value, bitwidth) => Ok((DataItem::Integer { value, bitwidth }, bytes)),
        ItemHead::Negative(value, bitwidth) => Ok((DataItem::Negative { value, bitwidth }, bytes)),
        ItemHead::Float(bits, bitwidth) => Ok((DataItem::Float { bits, bitwidth }, bytes)),
        ItemHead::Simple(value) => Ok((DataItem::Simple(Simple(value)), bytes)),
        ItemHead::String(StringKind::Bytes, Argument::Number(count, bitwidth)) => {
            let (string, rest) = read_string(alloc, count, bitwidth, bytes)?;
            Ok((DataItem::ByteString(string), rest))
        }
        ItemHead::String(StringKind::Text, Argument::Number(count, bitwidth)) => {
            let (string, rest) = read_string(alloc, count, bitwidth, bytes)?;
            Ok((DataItem::TextString(string), rest))
        }
        ItemHead::String(StringKind::Bytes, Argument::Indefinite) => {
            let (chunks, rest) = read_chunks(alloc, bytes, turns)?;
            Ok((DataItem::IndefiniteByteString(chunks), rest))
        }
        ItemHead::String(StringKind::Text, Argument::Indefinite) => {
            let (chunks, rest) = read_chunks(alloc, bytes, turns)?;
            Ok((DataItem::IndefiniteTextString(chunks), rest))
        }
        ItemHead::Array(_) | ItemHead::Map(_) | ItemHead::Tag(..) => Err(Error::Head),
    }
}

/// One turn of the loop. If the innermost container ends here, closes it. Otherwise reads the next
/// head, with the content of a string. Returns the item that this completes, if any, and the
/// remaining bytes. The outermost item is at `level`. Each turn takes bytes or closes what an
/// earlier one opened, so there are at most two for each byte.
fn turn<'a>(
    stack: &mut Stack,
    bytes: &'a [u8],
    level: u8,
    turns: &mut Turns,
) -> Result<(Option<DataItem>, &'a [u8])>
    requires level { level + length stack.old ≤ deepest + 1 }
    requires bounded { turns.old + 2 * length bytes.now < 2 ^ 126 }
    ensures gives { IfOk result (λ x.
        later turns.old (resume (levels_left level) (frames stack.old) bytes.now) ≡ later turns.new
        (resume_with (levels_left level) (frames stack.new) (option_map view x.0) x.1.now)) }
    ensures stops { IfErr result (λ e. FailsIn e turns.new
        (later turns.old (resume (levels_left level) (frames stack.old) bytes.now))) }
    ensures level { IfOk result (λ x. level + length stack.new ≤ deepest + 1) }
    ensures falls { IfOk result (λ x. turns.new + 2 * length x.1.now + length stack.new
        ≤ turns.old + 2 * length bytes.now + length stack.old) }
    ensures few { turns.new ≤ turns.old + 2 * length bytes.now + 1 }
    ensures rises { turns.old < turns.new }
    ensures memory { result ≡ Err Error.Memory → length stack.old ≡ 0 → MayWantMemory bytes.now }
    ensures opens { IfOk result
        (λ x. 0 < length stack.new → length stack.old ≡ 0 → MayWantMemory bytes.now) }
    ensures held { IfOk result (λ x. x.0 ≡ None → 0 < length stack.new) }
{
    turns.rise();
    if let Some(rest) = stack.after_end(bytes) {
        return Ok((Some(stack.close()?), rest));
    }
    let levels = usize::from(DEEPEST) + 1 - usize::from(level) - stack.depth();
    let (head, rest) = read_item_head(bytes, levels)?;
    match Frame::new(stack.alloc(), head, rest.len())? {
        Some(container) => {
            stack.open(container)?;
            Ok((None, rest))
        }
        None => {
            let (item, rest) = read_atom(stack.alloc(), head, rest, turns)?;
            Ok((Some(item), rest))
        }
    }
}

/// The item at the front, which is at `level`, from 1 to 129.
fn read_item<'a>(
    alloc: Global,
    bytes: &'a [u8],
    level: u8,
    turns: &mut Turns,
) -> Result<(DataItem, &'a [u8])>
    requires level { level ≤ deepest + 1 }
    requires bounded { turns.old + 2 * length bytes.now < 2 ^ 126 }
    ensures gives { GivesIn (λ x. (view x.0, x.1.now)) turns.old turns.new result
        (counted_item (levels_left level) bytes.now) }
    ensures few { turns.new ≤ turns.old + 2 * length bytes.now + 1 }
    ensures rises { turns.old < turns.new }
    ensures memory { result ≡ Err Error.Memory → MayWantMemory bytes.now }
{
    let mut stack = Stack::new(alloc);
    let mut rest = bytes;
    'turns: loop {
        let (whole, after) = turn(&mut stack, rest, level, turns)?;
        rest = after;
        if let Some(item) = whole {
            if let Some(outermost) = stack.put(item)? {
                return Ok((outermost, rest));
            }
        }
    }
}

/// Reads an item from the front of the bytes, and returns it with its length, or `None` if the
/// bytes end before the item does.
fn read_front(alloc: Global, bytes: &[u8], turns: &mut Turns) -> Result<Option<(DataItem, usize)>>
    requires { turns.old ≤ 2 ^ 64 }
    ensures answer { FrontAnswer bytes.now result }
    ensures turns { FrontTurns bytes.now turns.old turns.new result }
    ensures few { turns.new ≤ turns.old + 2 * length bytes.now + 1 }
    ensures rises { turns.old < turns.new }
    ensures memory { result ≡ Err Error.Memory → MayWantMemory bytes.now }
{
    match read_item(alloc, bytes, 1, turns) {
        Ok((item, rest)) => Ok(Some((item, bytes.len() - rest.len()))),
        Err(error) => match error {
            Error::CutShort => Ok(None),
            _ => Err(error),
        },
    }
}

/// The one item that the bytes encode, all of them.
fn read_whole(alloc: Global, bytes: &[u8]) -> Result<DataItem>
    ensures answer { WholeAnswer bytes.now result }
    ensures memory { result ≡ Err Error.Memory → MayWantMemory bytes.now }
{
    let (item, rest) = read_item(alloc, bytes, 1, &mut Turns::new())?;
    if rest.is_empty() {
        Ok(item)
    } else {
        Err(Error::Remaining)
    }
}

/// Reads one item from all of the bytes (RFC 7049 section 2), and keeps how it was encoded.
///
/// If the bytes end before the item does, returns `CutShort`. If more bytes follow the item,
/// returns `Remaining`. Otherwise returns the first error from the left: `Head`, `Utf8` or
/// `TooDeep`. Returns `Memory` if an allocation fails.
///
/// A length that is only claimed allocates nothing. A claimed count allocates at most the memory of
/// a few members, and only if as many bytes follow. If the input is empty or its first byte has
/// major type 0, 1 or 7, nothing is allocated.
///
/// ```rust
/// use cbor_diag::parse_bytes;
///
/// let item = parse_bytes(alloc, b"\x83\x01\x02\x03")?;
/// assert_eq!(rt; item.to_diag(alloc)?.as_str(), "[1,2,3]");
/// ```
pub fn parse_bytes(alloc: Global, bytes: &[u8]) -> Result<DataItem>
    // The item that the bytes encode, if and only if they encode one.
    ensures ok { IfOk result (λ i. IsItem bytes.now (view i)) }
    ensures every_item { (i : Item) → IsItem bytes.now i → GaveItem result i }

    // Each error, if and only if it holds for the input.
    ensures refused { RefusedSo result (IsNoItem bytes.now) }
    ensures every_refusal { (e : Error) → IsNoItem bytes.now e → GaveRefusal result e }

    // `Memory`, only if the first byte begins an item that needs memory.
    ensures memory { result ≡ Err Error.Memory → MayWantMemory bytes.now }

    // What else is known of an item that was read.
    ensures well_formed { IfOk result (λ i. IsWellFormed (view i)) }
    ensures written_again { IfOk result (λ i.
        (encoded (view i) ≡ bytes.now) ↔ IsStrictItem bytes.now (view i)) }
    ensures items_bounded { IfOk result (λ i. size (view i) ≤ length bytes.now) }
    ensures fronts_cut { OnOk result ((n : ℕ) → n < length bytes.now → IsCut (take n bytes.now)) }
{
    read_whole(alloc, bytes)
}

/// Reads one item from the front of the bytes, and returns it with the number of bytes that it
/// takes. More bytes may follow.
///
/// If the bytes end before the item does and before any error, returns `Ok(None)`: further bytes
/// may complete the item or bring an error. If there is an error, returns the first one from the
/// left: `Head`, `Utf8` or `TooDeep`. Returns `Memory` if an allocation fails. It allocates no more
/// than [`parse_bytes`].
///
/// ```rust
/// use cbor_diag::parse_bytes_partial;
///
/// // The integer 100, and after it an integer that is cut.
/// let used = parse_bytes_partial(alloc, b"\x18\x64\x19\x03")?.map(|(_, used)| used);
/// assert_eq!(rt; used, Some(2));
/// assert!(rt; parse_bytes_partial(alloc, b"\x19\x03")?.is_none());
/// ```
pub fn parse_bytes_partial(alloc: Global, bytes: &[u8]) -> Result<Option<(DataItem, usize)>>
    // Each of the three results, only if it holds for the input.
    ensures found { IfOk result (λ o. IfSome o (λ x.
        BeginsWithItem bytes.now (view x.0) x.1)) }
    ensures cut { result ≡ Ok None → IsCut bytes.now }
    ensures fault { RefusedSo result (HasFault bytes.now) }

    // Bytes begin in exactly one of the three ways, and the result is that one.
    ensures exact { (o : Outcome) → BeginsSo bytes.now o → Gave result o }
    ensures one_of_three { BeginsInOneWay bytes.now }

    // Further bytes change no item and no error.
    ensures found_stays { IfOk result (λ o. IfSome o (λ x.
        (more : List ℕ) → BeginsSo (bytes.now ++ more) (spelled (view x.0) x.1))) }
    ensures fault_stays { RefusedSo result (λ e.
        (more : List ℕ) → HasFault (bytes.now ++ more) e) }

    // The item has an encoding, and memory is needed as by `parse_bytes`.
    ensures well_formed { IfOk result (λ o. IfSome o (λ x. IsWellFormed (view x.0))) }
    ensures memory { result ≡ Err Error.Memory → MayWantMemory bytes.now }
{
    read_front(alloc, bytes, &mut Turns::new())
}

/// Reads as [`parse_bytes_partial`] does, with the same results, and adds the number of its turns
/// to `turns`, which may already have counted up to 2^64.
///
/// A turn reads a head, with the content of a string, reads a chunk or a break, or closes a
/// complete container. The turn that meets the end of the bytes or an error counts, too. There are
/// at most two turns for each byte, and one more. So the length of the input bounds the work,
/// whatever the input claims.
pub fn parse_bytes_counted(
    alloc: Global,
    bytes: &[u8],
    turns: &mut Turns,
) -> Result<Option<(DataItem, usize)>>
    requires { turns.old ≤ 2 ^ 64 }
    // Each of the three results, only if it holds for the input.
    ensures found { IfOk result (λ o. IfSome o (λ x.
        BeginsWithItem bytes.now (view x.0) x.1)) }
    ensures cut { result ≡ Ok None → IsCut bytes.now }
    ensures fault { RefusedSo result (HasFault bytes.now) }

    // Bytes begin in exactly one of the three ways, and the result is that one.
    ensures exact { (o : Outcome) → BeginsSo bytes.now o → Gave result o }
    ensures one_of_three { BeginsInOneWay bytes.now }

    // Further bytes change no item and no error.
    ensures found_stays { IfOk result (λ o. IfSome o (λ x.
        (more : List ℕ) → BeginsSo (bytes.now ++ more) (spelled (view x.0) x.1))) }
    ensures fault_stays { RefusedSo result (λ e.
        (more : List ℕ) → HasFault (bytes.now ++ more) e) }

    // The item has an encoding, and memory is needed as by `parse_bytes`.
    ensures well_formed { IfOk result (λ o. IfSome o (λ x. IsWellFormed (view x.0))) }
    ensures memory { result ≡ Err Error.Memory → MayWantMemory bytes.now }

    // An item takes its own turns, at most two for each of its bytes.
    ensures turns_of_item { IfOk result (λ o. IfSome o (λ x.
        turns.new ≡ turns.old + item_turns (view x.0))) }
    ensures twice_its_bytes { IfOk result (λ o. IfSome o (λ x. item_turns (view x.0) ≤ 2 * x.1)) }

    // Truncated or malformed bytes take the turns of what is complete before, and the failing one.
    ensures turns_of_cut { result ≡ Ok None
        → (c : IsCut bytes.now) → turns.new ≡ turns.old + (cut_spent c + 1) }
    ensures turns_of_fault { RefusedSo result (λ e.
        (f : HasFault bytes.now e) → turns.new ≡ turns.old + (fault_spent f + 1)) }

    // Every call takes at least one turn, and at most two for each byte and one more.
    ensures rises { turns.old < turns.new }
    ensures turns_bounded { turns.new ≤ turns.old + 2 * length bytes.now + 1 }

    // If memory runs out, there are no more turns than the item or the error takes otherwise.
    ensures within_item { (i : Item) → (n : ℕ) →
        BeginsWithItem bytes.now i n → turns.new ≤ turns.old + item_turns i }
    ensures within_cut { (c : IsCut bytes.now) → turns.new ≤ turns.old + (cut_spent c + 1) }
    ensures within_fault { (e : Error) → (f : HasFault bytes.now e) →
        turns.new ≤ turns.old + (fault_spent f + 1) }
{
    read_front(alloc, bytes, turns)
}
