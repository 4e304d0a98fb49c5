//! Reads a `DataItem` from hex with comments.
ghost use Rattle.std.specs.Prelude.{◌<◌};
ghost use Rattle.std.specs.Prelude.{IfOk};
ghost use Rattle.cbor_grammar.specs.Item.{Item};
ghost use Rattle.cbor_diag.specs.View.{view};
ghost use Rattle.cbor_grammar.specs.Facts.{IsWellFormed};
ghost use Rattle.cbor_diag.specs.ItemAnswer.{GaveItem};
ghost use Rattle.cbor_grammar.specs.Answer.{GaveRefusal, RefusedSo};
ghost use Rattle.cbor_tokens.specs.Uncommented.{uncommented};
ghost use Rattle.cbor_grammar.specs.HexText.{IsHexOf, IsHexRefused};

use super::binary::parse_bytes;
use crate::syntax::DataItem;
use cbor_bytes::hex_text::{decode, uncommented};
use cbor_grammar::Error;
use std::alloc::Global;

/// Reads one item from hex with comments: two digits, of either case, for each byte of the item.
///
/// A line ends at a line feed, and one carriage return right before it belongs to the end. In each
/// line, the text before the first `#` is kept, without its spaces (U+0020). A tab is kept.
///
/// If the number of kept bytes is odd, returns `OddHex`. Otherwise, if one of them is not a hex
/// digit, returns `BadHex`. Otherwise returns the errors of [`parse_bytes`]. Returns `Memory` if an
/// allocation fails.
///
/// ```rust
/// use cbor_diag::{Error, parse_hex};
///
/// let item = parse_hex(alloc, "83       # array(3)\n   01 02 03\n")?;
/// assert_eq!(rt; item.to_diag(alloc)?.as_str(), "[1,2,3]");
/// assert_eq!(rt; parse_hex(alloc, "8").err(), Some(Error::OddHex));
/// ```
pub fn parse_hex(alloc: Global, hex: &str) -> cbor_grammar::Result<DataItem>
    // The item that the hex encodes, if and only if it encodes one.
    ensures ok { IfOk result (λ i. IsHexOf hex.now (view i)) }
    ensures every_item { (i : Item) → IsHexOf hex.now i → GaveItem result i }

    // Each error, if and only if it holds for the input.
    ensures refused { RefusedSo result (IsHexRefused hex.now) }
    ensures every_refusal { (e : Error) → IsHexRefused hex.now e → GaveRefusal result e }

    // The item has an encoding.
    ensures well_formed { IfOk result (λ i. IsWellFormed (view i)) }
{
    let digits = uncommented(alloc, hex)?;
    let bytes = decode(alloc, digits)?;
    parse_bytes(alloc, &bytes)
}
