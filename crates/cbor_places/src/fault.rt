//! `fault_of` returns why bytes are not an item: the error, the byte that shows it, the path to the
//! truncated or malformed item, and a message.
ghost use Rattle.std.specs.Prelude.{◌≡◌, ◌≢◌, ◌-◌, ◌<◌, ◌≤◌, length};
ghost use Rattle.std.specs.Prelude.{IfOk, IfErr, IfSome, None};
ghost use Rattle.cbor_grammar.specs.Item.{Item};
ghost use Rattle.cbor_grammar.specs.Facts.{IsItem, IsNoItem};
ghost use Rattle.cbor_places.specs.Fault.{IsFaultPlace};

use crate::around::Around;
use crate::piece::{ByteNumbers, Piece};
use cbor_bytes::{Extent, extent};
use cbor_grammar::Error;
use cbor_trace::place_of_fault;
use std::alloc::Global;
use std::fmt::Write;

/// Why bytes are no item.
#[derive(Drop)]
pub struct Fault {
    /// The error.
    pub error: Error,
    /// How many bytes are before the fault.
    ///
    /// - `CutShort`: all bytes. The fault is at their end.
    /// - `Remaining`: the bytes of the item at the front.
    /// - `Utf8`: the bytes before the first one that UTF-8 cannot have there, as [`place_of_fault`]
    ///   finds it. It is before the end of the text.
    /// - Any other error: the bytes before the wrong one. They are truncated, and with the wrong
    ///   byte they have the error.
    pub place: usize,
    /// The path to the item that is cut or has the fault, as `cborcat -p` reads it; `/` for the
    /// outermost item, and nothing where bytes remain after an item.
    pub path: String,
    /// What is wrong, and where in the item: one line in ASCII, but for keys of paths.
    pub message: String,
}

/// Returns why bytes are no item and where their fault is, or `None` if they are one. The place is
/// the end of truncated bytes, the end of an item that bytes follow, or the wrong byte. The only
/// error is `Memory`.
///
/// ```rust
/// use cbor_places::fault_of;
///
/// // [1, ..: the second member begins with a byte that no head has.
/// if let Some(fault) = fault_of(alloc, b"\x82\x01\x1f")? {
///     assert_eq!(rt; fault.path.as_str(), "1");
///     let message = "1f: this major type has no indefinite length, \
///         at 1, in the array of 2 at byte 0, of which 1 is there";
///     assert_eq!(rt; fault.message.as_str(), message);
/// }
/// ```
pub fn fault_of(alloc: Global, bytes: &[u8]) -> Result<Option<Fault>, Error>
    // `None` only for an item, and otherwise an error that holds for the bytes.
    ensures none { IfOk result (λ f. f ≡ None → (i : Item) × IsItem bytes.now i) }
    ensures refused { IfOk result (λ f. IfSome f (λ x. IsNoItem bytes.now x.error)) }
    // The place is the end of the bytes or of the item, or the last byte that shows the error. In a
    // text that is not UTF-8, it is before the end of the text.
    ensures place { IfOk result (λ f. IfSome f (λ x. IsFaultPlace bytes.now x.error x.place)) }
    ensures memory { IfErr result (λ e. e ≡ Error.Memory) }
{
    match extent(bytes) {
        Extent::Item(len) if len == bytes.len() => Ok(None),
        Extent::Item(len) => Ok(Some(Fault {
            error: Error::Remaining,
            place: len,
            path: String::new(alloc),
            message: String::from_str(alloc, Error::Remaining.text())?,
        })),
        Extent::Cut => Ok(Some(cut(alloc, bytes)?)),
        Extent::Fault { error, end } => Ok(Some(wrong(alloc, bytes, error, end)?)),
    }
}

/// What is said of bytes that are cut.
fn cut(alloc: Global, bytes: &[u8]) -> Result<Fault, Error>
    ensures error { IfOk result (λ x. x.error ≡ Error.CutShort) }
    ensures place { IfOk result (λ x. x.place ≡ length bytes.now) }
    ensures memory { IfErr result (λ e. e ≡ Error.Memory) }
{
    let around = Around::of_end(alloc, Piece { begins: 0, bytes })?;
    let words = around.cut_words(&ByteNumbers)?;
    Ok(Fault {
        error: Error::CutShort,
        place: bytes.len(),
        path: String::from_str(alloc, around.path.as_str())?,
        message: format!(in alloc; "truncated: {words}")?,
    })
}

/// What is said of bytes whose first `end` show this error, and fewer are truncated.
fn wrong(alloc: Global, bytes: &[u8], error: Error, end: usize) -> Result<Fault, Error>
    ensures error { IfOk result (λ x. x.error ≡ error) }
    ensures last { IfOk result (λ x. error ≢ Error.Utf8 → x.place ≡ end - 1) }
    ensures within { IfOk result (λ x. 1 ≤ end → x.place < end) }
    ensures memory { IfErr result (λ e. e ≡ Error.Memory) }
{
    let around = Around::of_end(alloc, Piece { begins: 0, bytes }.first(end))?;
    let mut message = around.fault_words(&ByteNumbers, error)?;
    let words = around.words(&ByteNumbers, false)?;
    if !words.is_empty() {
        write!(message, ", {words}")?;
    }
    Ok(Fault {
        error,
        place: place_of_fault(bytes, error, end),
        path: String::from_str(alloc, around.path.as_str())?,
        message,
    })
}
