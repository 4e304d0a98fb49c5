//! Converts bytes, and hex with comments, to diagnostic notation, on one line or pretty. No item is
//! built.

ghost use Rattle.std.specs.Prelude.{◌≡◌, ℕ, ◌+◌, ◌<◌, ◌≤◌, ◌++◌, IfOk, IfSome, OnOk, OnErr};
ghost use Rattle.std.specs.Prelude.{MatchResult, None, Ok};
ghost use Rattle.std.specs.String.{string_bytes};
ghost use Rattle.cbor_grammar.specs.declared.width.IntegerWidth.{IntegerWidth};
ghost use Rattle.cbor_grammar.specs.Answer.{Outcome, GaveText, GaveRefusal, RefusedSo};
ghost use Rattle.cbor_grammar.specs.Embedded.{sequence, EmbedsExactly};
ghost use Rattle.cbor_grammar.specs.declared.encoding.Encoding.{Encoding};
ghost use Rattle.cbor_grammar.specs.Estimate.{estimated_length, one_line_limit};
ghost use Rattle.cbor_grammar.specs.Facts.{IsItem, BeginsWithItem, IsCut, HasFault, IsNoItem};
ghost use Rattle.cbor_grammar.specs.Facts.{BeginsSo, BeginsInOneWay, diag_of, pretty_of, normal_of};
ghost use Rattle.cbor_grammar.specs.HexText.{IsHexOf, IsHexRefused};
ghost use Rattle.cbor_grammar.specs.Item.{Chunk, Item};
ghost use Rattle.cbor_grammar.specs.Notation.{IsNotation};
ghost use Rattle.cbor_grammar.specs.NotationText.{sequence_size};
ghost use Rattle.cbor_grammar.specs.Pretty.{pretty, in_one_line, in_lines, encoded_sequence};
ghost use Rattle.cbor_grammar.specs.Pretty.{sequence_in_one_line, sequence_in_lines};
ghost use Rattle.cbor_grammar.specs.WellFormed.{deepest};

use crate::outermost::{hex_text, push_part, push_whole, whole_text};
use cbor_grammar::Error;
use cbor_grammar::layout::Layout;
use std::alloc::Global;

/// Pretty text begins at the left.
const PRETTY: Layout = Layout::Pretty { indent: 0 };

/// Converts the one item that the bytes encode to diagnostic notation (RFC 7049 section 6), on one
/// line and without blanks.
///
/// The result is that of [`parse_bytes`] followed by [`DataItem::to_diag`], including the errors of
/// [`parse_bytes`]. It builds no item, so it takes less time and less memory.
///
/// ```rust
/// use cbor_diag::{Error, bytes_to_diag};
///
/// let text = bytes_to_diag(alloc, b"\x82\x01\x61a")?;
/// assert_eq!(rt; text.as_str(), "[1,\"a\"]");
/// let cut = bytes_to_diag(alloc, b"\x82\x01");
/// assert_eq!(rt; cut.err(), Some(Error::CutShort));
/// ```
///
/// [`parse_bytes`]: cbor_diag::parse_bytes
/// [`DataItem::to_diag`]: cbor_diag::DataItem::to_diag
pub fn bytes_to_diag(alloc: Global, bytes: &[u8]) -> cbor_grammar::Result<String>
    // The text of the item that the bytes encode, if and only if they encode one.
    ensures ok { IfOk result (λ s. (i : Item) × IsItem bytes.now i × (string_bytes s ≡ diag_of i)) }
    ensures every_item { (i : Item) → IsItem bytes.now i
        → MatchResult result (λ s. string_bytes s ≡ diag_of i) (λ e. e ≡ Error.Memory) }

    // Each error, if and only if it holds for the input.
    ensures refused { RefusedSo result (IsNoItem bytes.now) }
    ensures every_refusal { (e : Error) → IsNoItem bytes.now e → GaveRefusal result e }

    // It is read back as the normal form of that item.
    ensures read_back { IfOk result (λ s. (i : Item) × IsItem bytes.now i
        × IsNotation (string_bytes s) (normal_of i)) }
    // What is shown as embedded items is exactly what the bytes encode.
    ensures embedded { EmbedsExactly }
{
    whole_text(alloc, bytes, Layout::Compact)
}

/// Appends the text of [`bytes_to_diag`] to `out`, to reuse its memory. The errors are the same,
/// and after one `out` is unchanged.
pub fn push_bytes_to_diag(alloc: Global, bytes: &[u8], out: &mut String) -> cbor_grammar::Result<()>
    // The text of the item that the bytes encode, if and only if they encode one.
    ensures ok { OnOk result ((i : Item) × IsItem bytes.now i
        × (string_bytes out.new ≡ string_bytes out.old ++ diag_of i)) }
    ensures every_item { (i : Item) → IsItem bytes.now i → MatchResult result
        (λ _. string_bytes out.new ≡ string_bytes out.old ++ diag_of i) (λ e. e ≡ Error.Memory) }

    // Each error, if and only if it holds for the input.
    ensures refused { RefusedSo result (IsNoItem bytes.now) }
    ensures every_refusal { (e : Error) → IsNoItem bytes.now e → GaveRefusal result e }
    ensures unchanged { OnErr result (string_bytes out.new ≡ string_bytes out.old) }
{
    push_whole(out, bytes, Layout::Compact)
}

/// Appends the text of the item at the front of the bytes to `out`, and returns the number of bytes
/// that the item takes. More bytes may follow.
///
/// The text is that of [`parse_bytes_partial`] followed by [`DataItem::push_diag`]. If the bytes
/// end before the item does and before any error, returns `Ok(None)`. If there is an error, returns
/// the first one from the left. In both cases, and if an allocation fails, `out` is unchanged.
///
/// ```rust
/// use cbor_diag::push_bytes_to_diag_partial;
///
/// // An array, and after it an integer that is cut.
/// let mut out = String::new(alloc);
/// let used = push_bytes_to_diag_partial(alloc, b"\x81\x01\x19", &mut out)?;
/// assert_eq!(rt; used, Some(2));
/// assert_eq!(rt; push_bytes_to_diag_partial(alloc, b"\x19", &mut out)?, None);
/// assert_eq!(rt; out.as_str(), "[1]");
/// ```
///
/// [`parse_bytes_partial`]: cbor_diag::parse_bytes_partial
/// [`DataItem::push_diag`]: cbor_diag::DataItem::push_diag
pub fn push_bytes_to_diag_partial(
    alloc: Global,
    bytes: &[u8],
    out: &mut String,
) -> cbor_grammar::Result<Option<usize>>
    // Each of the three results, only if it holds for the input.
    ensures found { IfOk result (λ o. IfSome o (λ n. (i : Item) × BeginsWithItem bytes.now i n
        × (string_bytes out.new ≡ string_bytes out.old ++ diag_of i))) }
    ensures cut { result ≡ Ok None → IsCut bytes.now }
    ensures fault { RefusedSo result (HasFault bytes.now) }

    // Bytes begin in exactly one of the three ways, and the result is that one.
    ensures exact { (o : Outcome) → BeginsSo bytes.now o
        → GaveText diag_of result (string_bytes out.old) (string_bytes out.new) o }
    ensures one_of_three { BeginsInOneWay bytes.now }

    // Nothing is appended without an item.
    ensures cut_unchanged { result ≡ Ok None → string_bytes out.new ≡ string_bytes out.old }
    ensures unchanged { OnErr result (string_bytes out.new ≡ string_bytes out.old) }
{
    push_part(out, bytes, Layout::Compact)
}

/// Reads one item from hex with comments, and returns it in diagnostic notation (RFC 7049 section
/// 6), on one line and without blanks.
///
/// The result is that of [`parse_hex`] followed by [`DataItem::to_diag`], including the errors of
/// [`parse_hex`]. It builds no item, so it takes less time and less memory.
///
/// ```rust
/// use cbor_diag::hex_to_diag;
///
/// let text = hex_to_diag(alloc, "83       # array(3)\n   01 02 03\n")?;
/// assert_eq!(rt; text.as_str(), "[1,2,3]");
/// ```
///
/// [`parse_hex`]: cbor_diag::parse_hex
/// [`DataItem::to_diag`]: cbor_diag::DataItem::to_diag
pub fn hex_to_diag(alloc: Global, hex: &str) -> cbor_grammar::Result<String>
    ensures ok { IfOk result (λ s. (i : Item) × IsHexOf hex.now i × (string_bytes s ≡ diag_of i)) }
    ensures every_item { (i : Item) → IsHexOf hex.now i
        → MatchResult result (λ s. string_bytes s ≡ diag_of i) (λ e. e ≡ Error.Memory) }
    ensures refused { RefusedSo result (IsHexRefused hex.now) }
    ensures every_refusal { (e : Error) → IsHexRefused hex.now e → GaveRefusal result e }
{
    hex_text(alloc, hex, Layout::Compact)
}

/// Converts the one item that the bytes encode to diagnostic notation (RFC 7049 section 6) with
/// blanks, over several lines if it is long.
///
/// The result is that of [`parse_bytes`] followed by [`DataItem::to_diag_pretty`], including the
/// errors of [`parse_bytes`]. It builds no item, so it takes less time and less memory.
///
/// ```rust
/// use cbor_diag::bytes_to_diag_pretty;
///
/// let text = bytes_to_diag_pretty(alloc, b"\x9f\x01\x82\x02\x03\xff")?;
/// assert_eq!(rt; text.as_str(), "[_ 1, [2, 3]]");
/// ```
///
/// [`parse_bytes`]: cbor_diag::parse_bytes
/// [`DataItem::to_diag_pretty`]: cbor_diag::DataItem::to_diag_pretty
#[tactic(auto, using(cbor_grammar::proofs::text::Forms::pretty_laws))]
pub fn bytes_to_diag_pretty(alloc: Global, bytes: &[u8]) -> cbor_grammar::Result<String>
    // The text of the item that the bytes encode, if and only if they encode one.
    ensures ok { IfOk result (λ s. (i : Item) × IsItem bytes.now i
        × (string_bytes s ≡ pretty_of i)) }
    ensures every_item { (i : Item) → IsItem bytes.now i
        → MatchResult result (λ s. string_bytes s ≡ pretty_of i) (λ e. e ≡ Error.Memory) }

    // Each error, if and only if it holds for the input.
    ensures refused { RefusedSo result (IsNoItem bytes.now) }
    ensures every_refusal { (e : Error) → IsNoItem bytes.now e → GaveRefusal result e }

    // It is read back as the normal form of that item.
    ensures read_back { IfOk result (λ s. (i : Item) × IsItem bytes.now i
        × IsNotation (string_bytes s) (normal_of i)) }
    // A container is on one line if and only if its whole estimate is below 60, at
    // any level and indent.
    ensures one_line { (level indent : ℕ) (e : Encoding) (i : Item) → level ≤ deepest
        → estimated_length i < one_line_limit
        → pretty e level indent i ≡ in_one_line e level indent i }
    ensures lines { (level indent : ℕ) (e : Encoding) (i : Item) → level ≤ deepest
        → one_line_limit ≤ estimated_length i
        → pretty e level indent i ≡ in_lines e level indent i }
    // So are the items of a byte string right below tag 63, by the estimate of an
    // array of them.
    ensures sequence_one_line { (level indent : ℕ) (e : Encoding) (w : IntegerWidth) (b : Chunk)
        → level < deepest → sequence_size (sequence (level + 2) b.bytes) < one_line_limit
        → pretty e level indent (encoded_sequence w b)
        ≡ sequence_in_one_line e level indent w b.bytes }
    ensures sequence_lines { (level indent : ℕ) (e : Encoding) (w : IntegerWidth) (b : Chunk)
        → level < deepest → one_line_limit ≤ sequence_size (sequence (level + 2) b.bytes)
        → pretty e level indent (encoded_sequence w b)
        ≡ sequence_in_lines e level indent w b.bytes }
    // What is shown as embedded items is exactly what the bytes encode.
    ensures embedded { EmbedsExactly }
{
    whole_text(alloc, bytes, PRETTY)
}

/// Appends the text of [`bytes_to_diag_pretty`] to `out`, to reuse its memory. The errors are the
/// same, and after one `out` is unchanged.
pub fn push_bytes_to_diag_pretty(
    alloc: Global,
    bytes: &[u8],
    out: &mut String,
) -> cbor_grammar::Result<()>
    // The text of the item that the bytes encode, if and only if they encode one.
    ensures ok { OnOk result ((i : Item) × IsItem bytes.now i
        × (string_bytes out.new ≡ string_bytes out.old ++ pretty_of i)) }
    ensures every_item { (i : Item) → IsItem bytes.now i → MatchResult result
        (λ _. string_bytes out.new ≡ string_bytes out.old ++ pretty_of i) (λ e. e ≡ Error.Memory) }

    // Each error, if and only if it holds for the input.
    ensures refused { RefusedSo result (IsNoItem bytes.now) }
    ensures every_refusal { (e : Error) → IsNoItem bytes.now e → GaveRefusal result e }
    ensures unchanged { OnErr result (string_bytes out.new ≡ string_bytes out.old) }
{
    push_whole(out, bytes, PRETTY)
}

/// Appends the text of the item at the front of the bytes to `out`, and returns the number of bytes
/// that the item takes. More bytes may follow.
///
/// The text is that of [`parse_bytes_partial`] followed by [`DataItem::push_diag_pretty`]. If the
/// bytes end before the item does and before any error, returns `Ok(None)`. If there is an error,
/// returns the first one from the left. In both cases, and if an allocation fails, `out` is
/// unchanged.
///
/// ```rust
/// use cbor_diag::push_bytes_to_diag_pretty_partial;
///
/// // An array, and after it an integer that is cut.
/// let mut out = String::new(alloc);
/// let bytes = b"\x82\x01\x02\x19";
/// let used = push_bytes_to_diag_pretty_partial(alloc, bytes, &mut out)?;
/// assert_eq!(rt; used, Some(3));
/// assert_eq!(rt; out.as_str(), "[1, 2]");
/// ```
///
/// [`parse_bytes_partial`]: cbor_diag::parse_bytes_partial
/// [`DataItem::push_diag_pretty`]: cbor_diag::DataItem::push_diag_pretty
pub fn push_bytes_to_diag_pretty_partial(
    alloc: Global,
    bytes: &[u8],
    out: &mut String,
) -> cbor_grammar::Result<Option<usize>>
    // Each of the three results, only if it holds for the input.
    ensures found { IfOk result (λ o. IfSome o (λ n. (i : Item) × BeginsWithItem bytes.now i n
        × (string_bytes out.new ≡ string_bytes out.old ++ pretty_of i))) }
    ensures cut { result ≡ Ok None → IsCut bytes.now }
    ensures fault { RefusedSo result (HasFault bytes.now) }

    // Bytes begin in exactly one of the three ways, and the result is that one.
    ensures exact { (o : Outcome) → BeginsSo bytes.now o
        → GaveText pretty_of result (string_bytes out.old) (string_bytes out.new) o }
    ensures one_of_three { BeginsInOneWay bytes.now }

    // Nothing is appended without an item.
    ensures cut_unchanged { result ≡ Ok None → string_bytes out.new ≡ string_bytes out.old }
    ensures unchanged { OnErr result (string_bytes out.new ≡ string_bytes out.old) }
{
    push_part(out, bytes, PRETTY)
}

/// Reads one item from hex with comments, and returns it in diagnostic notation (RFC 7049 section
/// 6) with blanks, over several lines if it is long.
///
/// The result is that of [`parse_hex`] followed by [`DataItem::to_diag_pretty`], including the
/// errors of [`parse_hex`]. It builds no item, so it takes less time and less memory.
///
/// ```rust
/// use cbor_diag::hex_to_diag_pretty;
///
/// let text = hex_to_diag_pretty(alloc, "83       # array(3)\n   01 02 03\n")?;
/// assert_eq!(rt; text.as_str(), "[1, 2, 3]");
/// ```
///
/// [`parse_hex`]: cbor_diag::parse_hex
/// [`DataItem::to_diag_pretty`]: cbor_diag::DataItem::to_diag_pretty
pub fn hex_to_diag_pretty(alloc: Global, hex: &str) -> cbor_grammar::Result<String>
    ensures ok { IfOk result (λ s. (i : Item) × IsHexOf hex.now i
        × (string_bytes s ≡ pretty_of i)) }
    ensures every_item { (i : Item) → IsHexOf hex.now i
        → MatchResult result (λ s. string_bytes s ≡ pretty_of i) (λ e. e ≡ Error.Memory) }
    ensures refused { RefusedSo result (IsHexRefused hex.now) }
    ensures every_refusal { (e : Error) → IsHexRefused hex.now e → GaveRefusal result e }
{
    hex_text(alloc, hex, PRETTY)
}
