//! Converts bytes, or hex with comments, to the encoding of the item in them. The result is the
//! same bytes, except that a simple value below 24 in a non-minimal encoding (`f8 00`) becomes one
//! byte.
ghost use Rattle.std.specs.Prelude.{◌≡◌, ◌<◌, ◌++◌, ℕ, slice_index, None, Ok, IfSome, IsTrue};
ghost use Rattle.std.specs.Prelude.{IfOk, IfErr, OnOk, OnErr, MatchResult};
ghost use Rattle.cbor_grammar.specs.Item.{Item};
ghost use Rattle.cbor_grammar.specs.Answer.{Outcome, GaveText, GaveRefusal, RefusedSo};
ghost use Rattle.cbor_grammar.specs.Facts.{IsItem, IsNoItem, BeginsWithItem, IsCut, HasFault};
ghost use Rattle.cbor_grammar.specs.Facts.{BeginsSo, BeginsInOneWay};
ghost use Rattle.cbor_grammar.specs.HexText.{IsHexOf, IsHexRefused};
ghost use Rattle.cbor_grammar.specs.Written.{encoded};

use crate::parse::parse_bytes;
use cbor_bytes::hex_text::{decode, uncommented};
use cbor_bytes::strict::is_strict;
use cbor_bytes::{Extent, extent};
use cbor_grammar::{Error, Result};
use std::alloc::Global;

/// Whether the bytes are known to be the encoding of their item. If they do not encode one item,
/// returns the errors of [`parse_bytes`], except `Memory`.
fn is_encoding(bytes: &[u8]) -> Result<bool>
    ensures known { IfOk result (λ yes. IsTrue yes
        → (i : Item) × IsItem bytes.now i × (bytes.now ≡ encoded i)) }
    ensures refused { IfErr result (IsNoItem bytes.now) }
    ensures bytes { (i : ℕ) → slice_index bytes.now i < 256 }
{
    match extent(bytes) {
        Extent::Item(len) => {
            if len < bytes.len() {
                return Err(Error::Remaining);
            }
            Ok(is_strict(bytes))
        }
        Extent::Cut => Err(Error::CutShort),
        Extent::Fault { error, .. } => Err(error),
    }
}

/// Reads the item that the bytes encode, and returns its encoding.
fn encoding_of(alloc: Global, bytes: Vec<u8>) -> Result<Vec<u8>>
    ensures ok { IfOk result (λ out.
        (i : Item) × IsItem bytes.items i × (out.items ≡ encoded i)) }
    ensures refused { RefusedSo result (IsNoItem bytes.items) }
    ensures bytes { (i : ℕ) → slice_index bytes.items i < 256 }
{
    if is_encoding(&bytes)? {
        Ok(bytes)
    } else {
        parse_bytes(alloc, &bytes)?.to_bytes(alloc)
    }
}

/// Reads one item from all of the bytes, and returns its encoding. The result is that of
/// [`parse_bytes`] followed by [`DataItem::to_bytes`], including the errors of [`parse_bytes`].
///
/// The result is the same bytes, except that a simple value below 24 in a non-minimal encoding
/// (`f8 00`) becomes one byte. Without such a value no item is built, and the result is in the
/// memory of `bytes`. No clause states this.
///
/// ```rust
/// use cbor_diag::bytes_to_bytes;
///
/// let bytes = bytes_to_bytes(alloc, Vec::from_slice(alloc, b"\x82\xf8\x14\x19\x00\x05")?)?;
/// assert_eq!(rt; bytes.as_slice(), b"\x82\xf4\x19\x00\x05".as_slice());
/// ```
///
/// [`DataItem::to_bytes`]: crate::DataItem::to_bytes
pub fn bytes_to_bytes(alloc: Global, bytes: Vec<u8>) -> Result<Vec<u8>>
    // The encoding of the item that the bytes encode, if and only if they encode one.
    ensures ok { IfOk result (λ out.
        (i : Item) × IsItem bytes.items i × (out.items ≡ encoded i)) }
    ensures every_item { (i : Item) → IsItem bytes.items i
        → MatchResult result (λ out. out.items ≡ encoded i) (λ e. e ≡ Error.Memory) }

    // Each error, if and only if it holds for the input.
    ensures refused { RefusedSo result (IsNoItem bytes.items) }
    ensures every_refusal { (e : Error) → IsNoItem bytes.items e → GaveRefusal result e }
{
    encoding_of(alloc, bytes)
}

/// Appends the encoding of the item at the front of the bytes to `out`, and returns the number of
/// bytes that the item takes. More bytes may follow.
///
/// The encoding is that of [`parse_bytes_partial`] followed by [`DataItem::push_bytes`]. If the
/// bytes end before the item does and before any error, returns `Ok(None)`. If there is an error,
/// returns the first one from the left. In both cases, and if an allocation fails, `out` is
/// unchanged. An item is built only where [`bytes_to_bytes`] builds one.
///
/// ```rust
/// use cbor_diag::push_bytes_to_bytes_partial;
///
/// // A simple value that takes a byte too many, and after it an integer that is cut.
/// let mut out = Vec::new(alloc);
/// let used = push_bytes_to_bytes_partial(alloc, b"\xf8\x14\x19", &mut out)?;
/// assert_eq!(rt; used, Some(2));
/// let cut = push_bytes_to_bytes_partial(alloc, b"\x19", &mut out)?;
/// assert_eq!(rt; cut, None);
/// assert_eq!(rt; out.as_slice(), b"\xf4".as_slice());
/// ```
///
/// [`parse_bytes_partial`]: crate::parse_bytes_partial
/// [`DataItem::push_bytes`]: crate::DataItem::push_bytes
pub fn push_bytes_to_bytes_partial(
    alloc: Global,
    bytes: &[u8],
    out: &mut Vec<u8>,
) -> Result<Option<usize>>
    // Each of the three results, only if it holds for the input.
    ensures found { IfOk result (λ o. IfSome o (λ n. (i : Item) × BeginsWithItem bytes.now i n
        × (out.new.items ≡ out.old.items ++ encoded i))) }
    ensures cut { result ≡ Ok None → IsCut bytes.now }
    ensures fault { RefusedSo result (HasFault bytes.now) }

    // Bytes begin in exactly one of the three ways, and the result is that one.
    ensures exact { (o : Outcome) → BeginsSo bytes.now o
        → GaveText encoded result out.old.items out.new.items o }
    ensures one_of_three { BeginsInOneWay bytes.now }

    // Nothing is appended without an item.
    ensures cut_unchanged { result ≡ Ok None → out.new.items ≡ out.old.items }
    ensures unchanged { OnErr result (out.new.items ≡ out.old.items) }
{
    match extent(bytes) {
        Extent::Item(len) => {
            push_encoding(alloc, &bytes[..len], out)?;
            Ok(Some(len))
        }
        Extent::Cut => Ok(None),
        Extent::Fault { error, .. } => Err(error),
    }
}

/// Appends the encoding of the item that the bytes encode.
fn push_encoding(alloc: Global, bytes: &[u8], out: &mut Vec<u8>) -> Result<()>
    ensures bytes { (i : Item) → IsItem bytes.now i
        → OnOk result (out.new.items ≡ out.old.items ++ encoded i) }
    ensures unchanged { OnErr result (out.new.items ≡ out.old.items) }
    ensures memory { (i : Item) → IsItem bytes.now i → IfErr result (λ e. e ≡ Error.Memory) }
{
    if is_strict(bytes) {
        out.extend_from_slice(bytes)?;
        Ok(())
    } else {
        parse_bytes(alloc, bytes)?.push_bytes(out)
    }
}

/// Reads one item from hex with comments, and returns its encoding. The result is that of
/// [`parse_hex`] followed by [`DataItem::to_bytes`], including the errors of [`parse_hex`]. An item
/// is built only where [`bytes_to_bytes`] builds one.
///
/// ```rust
/// use cbor_diag::hex_to_bytes;
///
/// let bytes = hex_to_bytes(alloc, "82 # array(2)\n f8 14 19 00 05")?;
/// assert_eq!(rt; bytes.as_slice(), b"\x82\xf4\x19\x00\x05".as_slice());
/// ```
///
/// [`parse_hex`]: crate::parse_hex
/// [`DataItem::to_bytes`]: crate::DataItem::to_bytes
pub fn hex_to_bytes(alloc: Global, hex: &str) -> Result<Vec<u8>>
    // The encoding of the item that the hex encodes, if and only if it encodes one.
    ensures ok { IfOk result (λ out.
        (i : Item) × IsHexOf hex.now i × (out.items ≡ encoded i)) }
    ensures every_item { (i : Item) → IsHexOf hex.now i
        → MatchResult result (λ out. out.items ≡ encoded i) (λ e. e ≡ Error.Memory) }

    // Each error, if and only if it holds for the input.
    ensures refused { RefusedSo result (IsHexRefused hex.now) }
    ensures every_refusal { (e : Error) → IsHexRefused hex.now e → GaveRefusal result e }
{
    let digits = uncommented(alloc, hex)?;
    let bytes = decode(alloc, digits)?;
    bytes_to_bytes(alloc, bytes)
}
