//! Writes bytes as JSON: the one item that all of the bytes encode, or the item at their front. No
//! `DataItem` is built.

ghost use Rattle.std.specs.Prelude.{◌≡◌, IfOk, IfErr, IfSome, OnOk, OnErr, MatchResult};
ghost use Rattle.std.specs.Prelude.{None, Ok};
ghost use Rattle.std.specs.String.{string_bytes};
ghost use Rattle.cbor_grammar.specs.Answer.{Outcome};
ghost use Rattle.cbor_grammar.specs.Facts.{IsItem, BeginsWithItem, IsCut, IsNoItem};
ghost use Rattle.cbor_grammar.specs.Facts.{BeginsSo, BeginsInOneWay};
ghost use Rattle.cbor_grammar.specs.Item.{Item};
ghost use Rattle.cbor_json.specs.Written.{IsJsonText, AppendsJson, IsNoJson, IsErrorOf, IsErrorOr};
ghost use Rattle.cbor_json.specs.Written.{GaveJson, IsPlaced};

use crate::error::JsonError;
use crate::judge::{Judged, judge, judge_front};
use crate::style::JsonStyle;
use cbor_grammar::Error;
use cbor_marks::Marks;
use std::alloc::Global;

/// Returns the one item that the bytes are as JSON on one line (RFC 8949 section 6.1).
///
/// Returns the errors of `extent`, and `Remaining` if bytes follow the item; in a strict style
/// `NotKept` with the first thing from the left that JSON does not keep; and `SameKeys` if two keys
/// of a map become the same, with the places of two such keys.
///
/// ```rust
/// use cbor_json::{JsonStyle, bytes_to_json};
///
/// let text = bytes_to_json(alloc, b"\xa1\x01\x82\x18\x01\xf9\x3e\x00", JsonStyle::PLAIN)?;
/// assert_eq!(rt; text.as_str(), "{\"1\": [1, 1.5]}");
/// ```
pub fn bytes_to_json(alloc: Global, bytes: &[u8], style: JsonStyle) -> Result<String, JsonError>
    // The text of the item that the bytes encode.
    ensures ok { IfOk result (λ s. (i : Item) × IsItem bytes.now i
        × IsJsonText style i (string_bytes s)) }
    ensures every_item { (i : Item) → IsItem bytes.now i → MatchResult result
        (λ s. IsJsonText style i (string_bytes s)) (IsErrorOf style i) }

    // Each error, if and only if it holds for the item.
    ensures refused { IfErr result (IsNoJson style bytes.now) }
    ensures every_refusal { (e : Error) → IsNoItem bytes.now e → MatchResult result (λ _. ⊥)
        (IsErrorOr e) }
{
    marked_json(alloc, bytes, style, None)
}

/// The same, with the tokens of the text marked if asked.
pub(crate) fn marked_json(
    alloc: Global,
    bytes: &[u8],
    style: JsonStyle,
    marks: Option<&Marks>,
) -> Result<String, JsonError>
    ensures ok { IfOk result (λ s. (i : Item) × IsItem bytes.now i
        × IsJsonText style i (string_bytes s)) }
    ensures every_item { (i : Item) → IsItem bytes.now i → MatchResult result
        (λ s. IsJsonText style i (string_bytes s)) (IsErrorOf style i) }
    ensures refused { IfErr result (IsNoJson style bytes.now) }
    ensures every_refusal { (e : Error) → IsNoItem bytes.now e → MatchResult result (λ _. ⊥)
        (IsErrorOr e) }
{
    match judge(bytes, style, alloc, marks)? {
        Judged::Text(text) => Ok(text),
        Judged::NotKept(loss) => Err(JsonError::NotKept(loss)),
        Judged::SameKeys(clash) => Err(JsonError::SameKeys(clash)),
    }
}

/// Appends the text of the one item that the bytes are to `out`. The errors are those of
/// [`bytes_to_json`], and after one `out` is unchanged.
pub fn push_bytes_to_json(
    alloc: Global,
    bytes: &[u8],
    style: JsonStyle,
    out: &mut String,
) -> Result<(), JsonError>
    // The text of the item that the bytes encode.
    ensures ok { OnOk result ((i : Item) × IsItem bytes.now i
        × AppendsJson style i (string_bytes out.old) (string_bytes out.new)) }
    ensures every_item { (i : Item) → IsItem bytes.now i → MatchResult result
        (λ _. AppendsJson style i (string_bytes out.old) (string_bytes out.new))
        (IsErrorOf style i) }

    // Each error, if and only if it holds for the item.
    ensures refused { IfErr result (IsNoJson style bytes.now) }
    ensures every_refusal { (e : Error) → IsNoItem bytes.now e → MatchResult result (λ _. ⊥)
        (IsErrorOr e) }
    ensures unchanged { OnErr result (string_bytes out.new ≡ string_bytes out.old) }
{
    let text = bytes_to_json(alloc, bytes, style)?;
    out.push_str(text.as_str())?;
    Ok(())
}

/// Appends the text of the item at the front of the bytes to `out`, and returns the number of bytes
/// that it takes. More bytes may follow.
///
/// Returns `Ok(None)` if the bytes end before the item does and before any error, and otherwise the
/// first error from the left, or why the item is not written: `NotKept` or `SameKeys`. In all these
/// cases, and if an allocation fails, `out` is unchanged.
pub fn push_bytes_to_json_partial(
    alloc: Global,
    bytes: &[u8],
    style: JsonStyle,
    out: &mut String,
) -> Result<Option<usize>, JsonError>
    // Each of the results, only if it is true.
    ensures found { IfOk result (λ o. IfSome o (λ n. (i : Item) × BeginsWithItem bytes.now i n
        × AppendsJson style i (string_bytes out.old) (string_bytes out.new))) }
    ensures cut { result ≡ Ok None → IsCut bytes.now }

    // Bytes begin in exactly one of three ways, and that one is returned.
    ensures exact { (o : Outcome) → BeginsSo bytes.now o
        → GaveJson style result (string_bytes out.old) (string_bytes out.new) o }
    ensures one_of_three { BeginsInOneWay bytes.now }
    ensures places { IfErr result (IsPlaced style bytes.now) }

    // Nothing is appended without an item.
    ensures cut_unchanged { result ≡ Ok None → string_bytes out.new ≡ string_bytes out.old }
    ensures unchanged { OnErr result (string_bytes out.new ≡ string_bytes out.old) }
{
    let (judged, rest) = match judge_front(bytes, style, alloc, None) {
        Ok(found) => found,
        Err(error) => match error {
            Error::CutShort => return Ok(None),
            _ => return Err(JsonError::Cbor(error)),
        },
    };
    match judged {
        Judged::Text(text) => {
            out.push_str(text.as_str())?;
            Ok(Some(bytes.len() - rest.len()))
        }
        Judged::NotKept(loss) => Err(JsonError::NotKept(loss)),
        Judged::SameKeys(clash) => Err(JsonError::SameKeys(clash)),
    }
}
