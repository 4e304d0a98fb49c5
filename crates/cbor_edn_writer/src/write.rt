//! Writes items as EDN straight from bytes, without building a `DataItem`: the one item that all of
//! the bytes encode, or the item at their front. The styles and the notes of a caller are
//! arguments.

ghost use Rattle.std.specs.Prelude.{◌≡◌, IfOk, IfErr, IfSome, OnOk, OnErr, MatchResult};
ghost use Rattle.std.specs.Prelude.{None, Some, Ok};
ghost use Rattle.std.specs.String.{string_bytes};
ghost use Rattle.cbor_grammar.specs.Answer.{Outcome, GaveRefusal, RefusedSo};
ghost use Rattle.cbor_grammar.specs.Facts.{IsItem, BeginsWithItem, IsCut, HasFault};
ghost use Rattle.cbor_grammar.specs.Facts.{IsNoItem, BeginsSo, BeginsInOneWay};
ghost use Rattle.cbor_grammar.specs.Item.{Item};
ghost use Rattle.cbor_grammar.specs.Reading.{Fails, read_item};
ghost use Rattle.cbor_grammar.specs.WellFormed.{deepest};
ghost use Rattle.cbor_notation_writer.specs.mirror.Straight.{Written};
ghost use Rattle.cbor_edn_grammar.specs.Edn.{bytes_of_edn};
ghost use Rattle.cbor_edn_grammar.specs.Reserved.{IsItem8949};
ghost use Rattle.cbor_edn_writer.specs.Written.{IsEdnText, AppendsEdn, GaveEdn, line_style};
ghost use Rattle.cbor_edn_writer.specs.Written.{pretty_style};
ghost use Rattle.cbor_edn_writer.specs.Written.{IsNotedFrom, AppendsNoted, GaveNoted};

use crate::print::Edn;
use crate::print::noted::NotedEdn;
use crate::print::place::EdnPlace;
use crate::style::{EdnStyle, NotedStyle};
use cbor_grammar::Error;
use cbor_notation_writer::outermost::push_outermost;
use std::alloc::Global;

/// Returns the EDN text of the one item that the bytes encode, on one line and without notes.
///
/// An encoding indicator stands wherever a head is longer than it has to be, or a float is wider
/// than its value needs, and nowhere else. So [`edn_to_bytes`] returns the same bytes. The
/// exception is a simple value below 32 in two bytes (`f8 00` to `f8 1f`), which RFC 8949 does not
/// allow: below 24 it is read back in one byte, and from 24 on it is an error.
///
/// ```rust
/// use cbor_edn::bytes_to_edn;
///
/// let text = bytes_to_edn(alloc, b"\x82\x18\x01\xf9\x3e\x00")?;
/// assert_eq!(rt; text.as_str(), "[1_0, 1.5]");
/// ```
///
/// [`edn_to_bytes`]: crate::edn_to_bytes
pub fn bytes_to_edn(alloc: Global, bytes: &[u8]) -> cbor_grammar::Result<String>
    // The text of the item that the bytes encode, if and only if they encode one.
    ensures ok { IfOk result (λ s. (i : Item) × IsItem bytes.now i
        × IsEdnText line_style i (string_bytes s)) }
    ensures every_item { (i : Item) → IsItem bytes.now i → MatchResult result
        (λ s. IsEdnText line_style i (string_bytes s)) (λ e. e ≡ Error.Memory) }

    // The same bytes are read back, if no simple value is in a non-minimal encoding (f8 00).
    ensures lossless { (i : Item) → IsItem8949 bytes.now i
        → IfOk result (λ s. bytes_of_edn (string_bytes s) ≡ Some bytes.now) }

    // Each error, if and only if the bytes have it.
    ensures refused { RefusedSo result (IsNoItem bytes.now) }
    ensures every_refusal { (e : Error) → IsNoItem bytes.now e → GaveRefusal result e }
{
    whole_text(alloc, bytes, EdnStyle::LINE)
}

/// Returns the EDN text of the one item that the bytes encode, with notes. A long item takes
/// several lines.
///
/// Without the notes and the line ends it is the text of [`bytes_to_edn`]. Both texts are read back
/// as the same bytes.
///
/// ```rust
/// use cbor_edn::bytes_to_edn_pretty;
///
/// let text = bytes_to_edn_pretty(alloc, b"\xc1\x1a\x65\x53\xf1\x00")?;
/// assert_eq!(rt; text.as_str(), "1(1700000000 /2023-11-14T22:13:20Z/)");
/// ```
pub fn bytes_to_edn_pretty(alloc: Global, bytes: &[u8]) -> cbor_grammar::Result<String>
    // The text of the item that the bytes encode, if and only if they encode one.
    ensures ok { IfOk result (λ s. (i : Item) × IsItem bytes.now i
        × IsEdnText pretty_style i (string_bytes s)) }
    ensures every_item { (i : Item) → IsItem bytes.now i → MatchResult result
        (λ s. IsEdnText pretty_style i (string_bytes s)) (λ e. e ≡ Error.Memory) }

    // The same bytes are read back, if no simple value is in a non-minimal encoding (f8 00).
    ensures lossless { (i : Item) → IsItem8949 bytes.now i
        → IfOk result (λ s. bytes_of_edn (string_bytes s) ≡ Some bytes.now) }

    // Each error, if and only if the bytes have it.
    ensures refused { RefusedSo result (IsNoItem bytes.now) }
    ensures every_refusal { (e : Error) → IsNoItem bytes.now e → GaveRefusal result e }
{
    whole_text(alloc, bytes, EdnStyle::PRETTY)
}

/// Appends to `out` the text of the one item that the bytes encode, in this style. The errors are
/// those of [`bytes_to_edn`]. After an error `out` is unchanged.
pub fn push_bytes_to_edn(
    alloc: Global,
    bytes: &[u8],
    style: EdnStyle,
    out: &mut String,
) -> cbor_grammar::Result<()>
    // The text of the item that the bytes encode, if and only if they encode one.
    ensures ok { OnOk result ((i : Item) × IsItem bytes.now i
        × AppendsEdn bytes.now style i (string_bytes out.old) (string_bytes out.new)) }
    ensures every_item { (i : Item) → IsItem bytes.now i → MatchResult result
        (λ _. AppendsEdn bytes.now style i (string_bytes out.old) (string_bytes out.new))
        (λ e. e ≡ Error.Memory) }

    // Each error, if and only if the bytes have it.
    ensures refused { RefusedSo result (IsNoItem bytes.now) }
    ensures every_refusal { (e : Error) → IsNoItem bytes.now e → GaveRefusal result e }
    ensures unchanged { OnErr result (string_bytes out.new ≡ string_bytes out.old) }
{
    let noted = NotedStyle {
        style,
        notes: &[],
        marks: None,
    };
    push_only(out, bytes, noted, alloc)
}

/// Appends to `out` the text of the one item that the bytes encode, with notes on it and on items
/// in it. The errors are those of [`bytes_to_edn`]. After an error `out` is unchanged.
///
/// The same bytes are read back, whatever the notes are. A note is a comment, and what cannot be in
/// one is left out: a text that begins with `*`, or that has a slash, a control character or a
/// character beyond ASCII. The text after an item is written if the item is an integer, a float, a
/// simple value or a definite-length string.
///
/// ```rust
/// use cbor_edn::{EdnStyle, Note, NotedStyle, push_bytes_to_edn_noted};
///
/// // The key and the value of a map.
/// let notes = [
///     Note {
///         start: 1,
///         before: "alg",
///         after: "",
///         encoded: false,
///     },
///     Note {
///         start: 2,
///         before: "",
///         after: "ES256",
///         encoded: false,
///     },
/// ];
/// let noted = NotedStyle {
///     style: EdnStyle::PRETTY,
///     notes: &notes,
///     marks: None,
/// };
/// let mut out = String::new(alloc);
/// push_bytes_to_edn_noted(alloc, b"\xa1\x01\x26", noted, &mut out)?;
/// assert_eq!(rt; out.as_str(), "{/alg/ 1: -7 /ES256/}");
/// ```
pub fn push_bytes_to_edn_noted(
    alloc: Global,
    bytes: &[u8],
    noted: NotedStyle<'_>,
    out: &mut String,
) -> cbor_grammar::Result<()>
    // The text of the item that the bytes encode, if and only if they encode one.
    ensures ok { OnOk result ((i : Item) × IsItem bytes.now i
        × AppendsNoted bytes.now noted.entry.style noted.entry.notes.now i
        (string_bytes out.old) (string_bytes out.new)) }
    ensures every_item { (i : Item) → IsItem bytes.now i → MatchResult result
        (λ _. AppendsNoted bytes.now noted.entry.style noted.entry.notes.now i
        (string_bytes out.old) (string_bytes out.new))
        (λ e. e ≡ Error.Memory) }

    // Each error, if and only if the bytes have it.
    ensures refused { RefusedSo result (IsNoItem bytes.now) }
    ensures every_refusal { (e : Error) → IsNoItem bytes.now e → GaveRefusal result e }
    ensures unchanged { OnErr result (string_bytes out.new ≡ string_bytes out.old) }
{
    push_only(out, bytes, noted, alloc)
}

/// Appends to `out` the text of the item at the front of the bytes, in this style. Returns the
/// number of bytes that the item takes. More bytes may follow it.
///
/// Returns `Ok(None)` if the bytes end before the item does, and before any error. Otherwise the
/// error is the first one from the left. In both cases, and if an allocation fails, `out` is
/// unchanged.
///
/// ```rust
/// use cbor_edn::{EdnStyle, push_bytes_to_edn_partial};
///
/// // An array, and after it an integer that is cut.
/// let mut out = String::new(alloc);
/// let used = push_bytes_to_edn_partial(alloc, b"\x81\x01\x19", EdnStyle::LINE, &mut out)?;
/// assert_eq!(rt; used, Some(2));
/// assert_eq!(rt; push_bytes_to_edn_partial(alloc, b"\x19", EdnStyle::LINE, &mut out)?, None);
/// assert_eq!(rt; out.as_str(), "[1]");
/// ```
pub fn push_bytes_to_edn_partial(
    alloc: Global,
    bytes: &[u8],
    style: EdnStyle,
    out: &mut String,
) -> cbor_grammar::Result<Option<usize>>
    // Each of the three results, only if it is true.
    ensures found { IfOk result (λ o. IfSome o (λ n. (i : Item) × BeginsWithItem bytes.now i n
        × AppendsEdn bytes.now style i (string_bytes out.old) (string_bytes out.new))) }
    ensures cut { result ≡ Ok None → IsCut bytes.now }
    ensures fault { RefusedSo result (HasFault bytes.now) }

    // Bytes begin in exactly one of the three ways, and that one is returned.
    ensures exact { (o : Outcome) → BeginsSo bytes.now o
        → GaveEdn bytes.now style result (string_bytes out.old) (string_bytes out.new) o }
    ensures one_of_three { BeginsInOneWay bytes.now }

    // Nothing is appended without an item.
    ensures cut_unchanged { result ≡ Ok None → string_bytes out.new ≡ string_bytes out.old }
    ensures unchanged { OnErr result (string_bytes out.new ≡ string_bytes out.old) }
{
    let noted = NotedStyle {
        style,
        notes: &[],
        marks: None,
    };
    push_bytes_to_edn_noted_partial(alloc, bytes, noted, out)
}

/// Appends to `out` the text of the item at the front of the bytes, with notes on it and on items
/// in it. Returns what [`push_bytes_to_edn_partial`] returns.
pub fn push_bytes_to_edn_noted_partial(
    alloc: Global,
    bytes: &[u8],
    noted: NotedStyle<'_>,
    out: &mut String,
) -> cbor_grammar::Result<Option<usize>>
    // Each of the three results, only if it is true.
    ensures found { IfOk result (λ o. IfSome o (λ n. (i : Item) × BeginsWithItem bytes.now i n
        × AppendsNoted bytes.now noted.entry.style noted.entry.notes.now i
        (string_bytes out.old) (string_bytes out.new))) }
    ensures cut { result ≡ Ok None → IsCut bytes.now }
    ensures fault { RefusedSo result (HasFault bytes.now) }

    // Bytes begin in exactly one of the three ways, and that one is returned.
    ensures exact { (o : Outcome) → BeginsSo bytes.now o
        → GaveNoted bytes.now noted.entry.style noted.entry.notes.now result
        (string_bytes out.old) (string_bytes out.new) o }
    ensures one_of_three { BeginsInOneWay bytes.now }

    // Nothing is appended without an item.
    ensures cut_unchanged { result ≡ Ok None → string_bytes out.new ≡ string_bytes out.old }
    ensures unchanged { OnErr result (string_bytes out.new ≡ string_bytes out.old) }
{
    match push_front(out, bytes, noted, alloc) {
        Ok(rest) => Ok(Some(bytes.len() - rest.len())),
        Err(error) => match error {
            Error::CutShort => Ok(None),
            _ => Err(error),
        },
    }
}

/// Writes the item at the front, and returns the bytes after it. After an error the text is
/// unchanged.
fn push_front<'a>(
    out: &mut String,
    bytes: &'a [u8],
    noted: NotedStyle<'_>,
    alloc: Global,
) -> cbor_grammar::Result<&'a [u8]>
    ensures written { IfOk result (λ rest.
        Written (IsNotedFrom bytes.now noted.entry.style noted.entry.notes.now)
        (read_item deepest bytes.now) rest.now (string_bytes out.old) (string_bytes out.new)) }
    ensures refused { IfErr result (λ e. Fails e (read_item deepest bytes.now)) }
    ensures unchanged { OnErr result (string_bytes out.new ≡ string_bytes out.old) }
{
    let place = EdnPlace::new(alloc, noted, bytes.len());
    if noted.notes.is_empty() {
        push_outermost::<Edn<'_>>(out, bytes, &place)
    } else {
        push_outermost::<NotedEdn<'_>>(out, bytes, &place)
    }
}

/// Writes the one item that all of the bytes encode. After an error the text is unchanged.
fn push_only(
    out: &mut String,
    bytes: &[u8],
    noted: NotedStyle<'_>,
    alloc: Global,
) -> cbor_grammar::Result<()>
    ensures ok { OnOk result ((i : Item) × IsItem bytes.now i
        × AppendsNoted bytes.now noted.entry.style noted.entry.notes.now i
        (string_bytes out.old) (string_bytes out.new)) }
    ensures refused { RefusedSo result (IsNoItem bytes.now) }
    ensures unchanged { OnErr result (string_bytes out.new ≡ string_bytes out.old) }
{
    let start = out.len();
    let rest = push_front(out, bytes, noted, alloc)?;
    if rest.is_empty() {
        return Ok(());
    }
    out.truncate(start);
    Err(Error::Remaining)
}

/// The most bytes of input that memory is taken for before the text is written.
const MOST: usize = 1 << 19;

/// The capacity that the text of `len` bytes begins with. Most texts are up to twice as long.
fn first_capacity(len: usize) -> usize {
    2 * len.min(MOST) + 32
}

/// Returns the text of the one item that the bytes encode, in this style.
fn whole_text(alloc: Global, bytes: &[u8], style: EdnStyle) -> cbor_grammar::Result<String>
    ensures ok { IfOk result (λ s. (i : Item) × IsItem bytes.now i
        × IsEdnText style i (string_bytes s)) }
    ensures every_item { (i : Item) → IsItem bytes.now i → MatchResult result
        (λ s. IsEdnText style i (string_bytes s)) (λ e. e ≡ Error.Memory) }
    ensures refused { RefusedSo result (IsNoItem bytes.now) }
    ensures every_refusal { (e : Error) → IsNoItem bytes.now e → GaveRefusal result e }
{
    let mut out = String::with_capacity(alloc, first_capacity(bytes.len()))?;
    push_bytes_to_edn(alloc, bytes, style, &mut out)?;
    Ok(out)
}
