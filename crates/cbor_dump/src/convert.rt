//! Converts bytes, and hex with comments, to dumps. No item is built.
ghost use Rattle.std.specs.Prelude.{◌≡◌, ℕ, ◌+◌, ◌++◌, IfOk, IfErr, IfSome, OnOk, OnErr};
ghost use Rattle.std.specs.Prelude.{MatchResult};
ghost use Rattle.std.specs.Prelude.{None, Ok};
ghost use Rattle.std.specs.List.{AllByRecursion};
ghost use Rattle.std.specs.String.{string_bytes};
ghost use Rattle.hex.specs.Hex.{encode_lower};
ghost use Rattle.cbor_tokens.specs.Ascii.{line_feed};
ghost use Rattle.cbor_notes.specs.Columns.{IsColumn};
ghost use Rattle.cbor_tokens.specs.Uncommented.{Lacks, uncommented};
ghost use Rattle.cbor_notes.specs.Layout.{width_of};
ghost use Rattle.cbor_grammar.specs.Answer.{Outcome, GaveRefusal, RefusedSo, GaveText};
ghost use Rattle.cbor_dump.specs.Dump as spec;
ghost use Rattle.cbor_grammar.specs.Embedded.{EmbedsExactly, RejectsExactly};
ghost use Rattle.cbor_grammar.specs.Facts.{IsItem, BeginsWithItem, IsCut, HasFault, IsNoItem};
ghost use Rattle.cbor_grammar.specs.Facts.{BeginsSo, BeginsInOneWay};
ghost use Rattle.cbor_grammar.specs.HexText.{IsHexOf, IsHexRefused};
ghost use Rattle.cbor_grammar.specs.Item.{Item};
ghost use Rattle.cbor_grammar.specs.Written.{encoded};

use crate::walk::dump;
use cbor_bytes::hex_text::{decode, uncommented};
use cbor_grammar::Error;
use std::alloc::Global;

/// The dump of the one item that the bytes encode, all of them.
fn dump_whole(alloc: Global, bytes: &[u8]) -> cbor_grammar::Result<String>
    ensures ok { IfOk result (λ s. (i : Item) × IsItem bytes.now i
        × (string_bytes s ≡ spec.dump i)) }
    ensures refused { RefusedSo result (IsNoItem bytes.now) }
{
    let (text, rest) = dump(alloc, bytes, 1)?;
    if rest.is_empty() {
        Ok(text)
    } else {
        Err(Error::Remaining)
    }
}

/// Converts the one item that the bytes encode to a dump: their hex digits, each line with a
/// comment.
///
/// The result is that of [`parse_bytes`] followed by [`DataItem::to_hex`], including the errors of
/// [`parse_bytes`]. It builds no item, so it takes less time and less memory.
///
/// ```rust
/// use cbor_diag::{Error, bytes_to_hex};
///
/// let dump = bytes_to_hex(alloc, b"\x81\x18\x64")?;
/// let lines = "81       # array(1)\n   18 64 #   unsigned(100)\n";
/// assert_eq!(rt; dump.as_str(), lines);
/// let cut = bytes_to_hex(alloc, b"\x82\x01");
/// assert_eq!(rt; cut.err(), Some(Error::CutShort));
/// ```
///
/// [`parse_bytes`]: cbor_diag::parse_bytes
/// [`DataItem::to_hex`]: cbor_diag::DataItem::to_hex
pub fn bytes_to_hex(alloc: Global, bytes: &[u8]) -> cbor_grammar::Result<String>
    // The dump of the item that the bytes encode, if and only if they encode one.
    ensures ok { IfOk result (λ s. (i : Item) × IsItem bytes.now i
        × (string_bytes s ≡ spec.dump i)) }
    ensures every_item { (i : Item) → IsItem bytes.now i
        → MatchResult result (λ s. string_bytes s ≡ spec.dump i) (λ e. e ≡ Error.Memory) }

    // Each error, if and only if it holds for the input.
    ensures refused { RefusedSo result (IsNoItem bytes.now) }
    ensures every_refusal { (e : Error) → IsNoItem bytes.now e → GaveRefusal result e }

    // Without its comments the dump is that item's encoding in hex, and it is read back as the
    // item.
    ensures digits { IfOk result (λ s. (i : Item) × IsItem bytes.now i
        × (uncommented (string_bytes s) ≡ encode_lower (encoded i))) }
    ensures read_back { IfOk result (λ s. (i : Item) × IsItem bytes.now i
        × IsHexOf (string_bytes s) i) }

    // No comment has a line feed, and the first `#` of every line is in one column.
    ensures one_line { (i : Item) → IsItem bytes.now i
        → AllByRecursion (λ line. Lacks line_feed line.comment) (spec.lines i) }
    ensures one_column { IfOk result (λ s. (i : Item) × IsItem bytes.now i
        × IsColumn (width_of (spec.lines i) + 1) (string_bytes s)) }

    // What is dumped as embedded items is exactly what the bytes encode. Otherwise the note says
    // why not.
    ensures embedded { EmbedsExactly }
    ensures not_embedded { RejectsExactly }
{
    dump_whole(alloc, bytes)
}

/// Appends the dump of [`bytes_to_hex`] to `out`. The errors are the same, and after one `out` is
/// unchanged.
pub fn push_bytes_to_hex(alloc: Global, bytes: &[u8], out: &mut String) -> cbor_grammar::Result<()>
    // The dump of the item that the bytes encode, if and only if they encode one.
    ensures ok { OnOk result ((i : Item) × IsItem bytes.now i
        × (string_bytes out.new ≡ string_bytes out.old ++ spec.dump i)) }
    ensures every_item { (i : Item) → IsItem bytes.now i → MatchResult result
        (λ _. string_bytes out.new ≡ string_bytes out.old ++ spec.dump i) (λ e. e ≡ Error.Memory) }

    // Each error, if and only if it holds for the input.
    ensures refused { RefusedSo result (IsNoItem bytes.now) }
    ensures every_refusal { (e : Error) → IsNoItem bytes.now e → GaveRefusal result e }
    ensures unchanged { OnErr result (string_bytes out.new ≡ string_bytes out.old) }
{
    push_whole(alloc, bytes, out)
}

/// Appends the dump of the one item that the bytes encode.
fn push_whole(alloc: Global, bytes: &[u8], out: &mut String) -> cbor_grammar::Result<()>
    ensures ok { OnOk result ((i : Item) × IsItem bytes.now i
        × (string_bytes out.new ≡ string_bytes out.old ++ spec.dump i)) }
    ensures refused { RefusedSo result (IsNoItem bytes.now) }
    ensures unchanged { OnErr result (string_bytes out.new ≡ string_bytes out.old) }
{
    let text = dump_whole(alloc, bytes)?;
    out.push_str(&text)?;
    Ok(())
}

/// Appends the dump of the item at the front of the bytes to `out`, and returns the number of bytes
/// that the item takes. More bytes may follow.
///
/// The text is that of [`parse_bytes_partial`] followed by [`DataItem::to_hex`]. If the bytes end
/// before the item does and before any error, returns `Ok(None)`. If there is an error, returns the
/// first one from the left. In both cases, and if an allocation fails, `out` is unchanged.
///
/// ```rust
/// use cbor_diag::push_bytes_to_hex_partial;
///
/// // An integer, and after it one that is cut.
/// let mut out = String::new(alloc);
/// let used = push_bytes_to_hex_partial(alloc, b"\x01\x19", &mut out)?;
/// assert_eq!(rt; used, Some(1));
/// assert_eq!(rt; push_bytes_to_hex_partial(alloc, b"\x19", &mut out)?, None);
/// assert_eq!(rt; out.as_str(), "01 # unsigned(1)\n");
/// ```
///
/// [`parse_bytes_partial`]: cbor_diag::parse_bytes_partial
/// [`DataItem::to_hex`]: cbor_diag::DataItem::to_hex
pub fn push_bytes_to_hex_partial(
    alloc: Global,
    bytes: &[u8],
    out: &mut String,
) -> cbor_grammar::Result<Option<usize>>
    // Each of the three results, only if it holds for the input.
    ensures found { IfOk result (λ o. IfSome o (λ n. (i : Item) × BeginsWithItem bytes.now i n
        × (string_bytes out.new ≡ string_bytes out.old ++ spec.dump i))) }
    ensures cut { result ≡ Ok None → IsCut bytes.now }
    ensures fault { RefusedSo result (HasFault bytes.now) }

    // Bytes begin in exactly one of the three ways, and the result is that one.
    ensures exact { (o : Outcome) → BeginsSo bytes.now o
        → GaveText spec.dump result (string_bytes out.old) (string_bytes out.new) o }
    ensures one_of_three { BeginsInOneWay bytes.now }

    // Nothing is appended without an item.
    ensures cut_unchanged { result ≡ Ok None → string_bytes out.new ≡ string_bytes out.old }
    ensures unchanged { OnErr result (string_bytes out.new ≡ string_bytes out.old) }
{
    match dump(alloc, bytes, 1) {
        Ok((text, rest)) => {
            out.push_str(&text)?;
            Ok(Some(bytes.len() - rest.len()))
        }
        Err(error) => match error {
            Error::CutShort => Ok(None),
            _ => Err(error),
        },
    }
}

/// Reads one item from hex with comments, and returns it as a dump.
///
/// The result is that of [`parse_hex`] followed by [`DataItem::to_hex`], including the errors of
/// [`parse_hex`]. It builds no item, so it takes less time and less memory.
///
/// ```rust
/// use cbor_diag::hex_to_hex;
///
/// let dump = hex_to_hex(alloc, "81 01")?;
/// let lines = "81    # array(1)\n   01 #   unsigned(1)\n";
/// assert_eq!(rt; dump.as_str(), lines);
/// ```
///
/// [`parse_hex`]: cbor_diag::parse_hex
/// [`DataItem::to_hex`]: cbor_diag::DataItem::to_hex
pub fn hex_to_hex(alloc: Global, hex: &str) -> cbor_grammar::Result<String>
    ensures ok { IfOk result (λ s. (i : Item) × IsHexOf hex.now i
        × (string_bytes s ≡ spec.dump i)) }
    ensures every_item { (i : Item) → IsHexOf hex.now i
        → MatchResult result (λ s. string_bytes s ≡ spec.dump i) (λ e. e ≡ Error.Memory) }
    ensures refused { RefusedSo result (IsHexRefused hex.now) }
    ensures every_refusal { (e : Error) → IsHexRefused hex.now e → GaveRefusal result e }
{
    let digits = uncommented(alloc, hex)?;
    let bytes = decode(alloc, digits)?;
    bytes_to_hex(alloc, &bytes)
}
