//! `push_front` converts the item at the front of bytes to any form: bytes, a dump, or notation.
//! More bytes may follow the item.
ghost use Rattle.std.specs.Prelude.{◌≡◌, ◌≢◌, [], ◌∷◌, ◌++◌, Ok, None};
ghost use Rattle.std.specs.Prelude.{IfOk, IfErr, IfSome, OnErr};
ghost use Rattle.std.specs.String.{string_bytes};
ghost use Rattle.cbor_grammar.specs.Item.{Item};
ghost use Rattle.cbor_grammar.specs.Answer.{RefusedSo};
ghost use Rattle.cbor_grammar.specs.Facts.{BeginsWithItem, IsCut, HasFault};
ghost use Rattle.cbor_diag.specs.Output.{output_of};

use crate::conversion::form::To;
use crate::rewrite::push_bytes_to_bytes_partial;
use cbor_dump::push_bytes_to_hex_partial;
use cbor_grammar::Error;
use cbor_notation_writer::{push_bytes_to_diag_partial, push_bytes_to_diag_pretty_partial};
use std::alloc::Global;

/// Appends the item at the front of the bytes in the form `to`, and returns the number of bytes
/// that the item takes. More bytes may follow. No item is built, unless the output is bytes and the
/// item has a simple value below 24 in a non-minimal encoding (`f8 00`).
///
/// If the bytes end before the item does and before any error, returns `Ok(None)`. If there is an
/// error, returns the first one from the left. In both cases, and if an allocation fails, `out` is
/// unchanged.
///
/// ```rust
/// use cbor_diag::{To, push_front};
///
/// let mut out = Vec::new(alloc);
/// let used = push_front(alloc, To::Diag, b"\x81\x01\x19", &mut out)?;
/// assert_eq!(rt; used, Some(2));
/// assert_eq!(rt; push_front(alloc, To::Diag, b"\x19", &mut out)?, None);
/// assert_eq!(rt; out.as_slice(), b"[1]\n".as_slice());
/// ```
pub fn push_front(
    alloc: Global,
    to: To,
    bytes: &[u8],
    out: &mut Vec<u8>,
) -> Result<Option<usize>, Error>
    // Each of the three results, only if it holds for the input.
    ensures found { IfOk result (λ o. IfSome o (λ n. (i : Item) × BeginsWithItem bytes.now i n
        × (out.new.items ≡ out.old.items ++ output_of to i))) }
    ensures cut { result ≡ Ok None → IsCut bytes.now }
    ensures fault { RefusedSo result (HasFault bytes.now) }

    // Nothing is appended without an item.
    ensures cut_unchanged { result ≡ Ok None → out.new.items ≡ out.old.items }
    ensures unchanged { OnErr result (out.new.items ≡ out.old.items) }
{
    if let To::Bytes = to {
        return push_bytes_to_bytes_partial(alloc, bytes, out);
    }
    let mut text = String::new(alloc);
    match push_text(alloc, to, bytes, &mut text)? {
        Some(used) => {
            out.extend_from_slice(text.as_bytes())?;
            Ok(Some(used))
        }
        None => Ok(None),
    }
}

/// Appends the text of the item at the front of the bytes in that form, with its line feed. Returns
/// the number of bytes that the item takes, as [`push_front`] does.
fn push_text(alloc: Global, to: To, bytes: &[u8], text: &mut String) -> Result<Option<usize>, Error>
    requires { to ≢ To.Bytes }
    ensures found { IfOk result (λ o. IfSome o (λ n. (i : Item) × BeginsWithItem bytes.now i n
        × (string_bytes text.new ≡ string_bytes text.old ++ output_of to i))) }
    ensures cut { result ≡ Ok None → IsCut bytes.now }
    ensures fault { RefusedSo result (HasFault bytes.now) }
{
    match to {
        To::Bytes => unreachable!(),
        To::Hex => push_bytes_to_hex_partial(alloc, bytes, text),
        To::Diag => end_line(push_bytes_to_diag_partial(alloc, bytes, text)?, text),
        To::Pretty => end_line(push_bytes_to_diag_pretty_partial(alloc, bytes, text)?, text),
    }
}

/// Ends the line of an item that takes `used` bytes, if there is such an item.
fn end_line(used: Option<usize>, text: &mut String) -> Result<Option<usize>, Error>
    ensures used { IfOk result (λ o. o ≡ used) }
    ensures line { IfOk result (λ o. IfSome o (λ n.
        string_bytes text.new ≡ string_bytes text.old ++ 10 ∷ [])) }
    ensures memory { IfErr result (λ e. e ≡ Error.Memory) }
{
    match used {
        Some(count) => {
            text.push('\n')?;
            Ok(Some(count))
        }
        None => Ok(None),
    }
}
