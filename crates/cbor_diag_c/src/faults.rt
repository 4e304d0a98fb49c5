//! The C call `cbor_diag_fault`: returns the error of an input that is not an item, in any form,
//! and its place.
ghost use Rattle.std.specs.Prelude.{◌≡◌, ◌≢◌, negsuc, None, IfSome, IfOk, IfErr};
ghost use Rattle.cbor_grammar.specs.Item.{Item};
ghost use Rattle.cbor_grammar.specs.Facts.{IsItem, IsNoItem};
ghost use Rattle.cbor_grammar.specs.HexText.{IsHexOf, IsHexRefused};
ghost use Rattle.cbor_diag.specs.Output.{Reads, Refuses};
ghost use Rattle.cbor_diag_c.specs.Forms.{form_number, IsEdn, IsNoEdn, IsNoForm, IsRefusedIn};
ghost use Rattle.cbor_diag_c.specs.Forms.{ReadsIn};
ghost use Rattle.cbor_diag_c.specs.Answers.{IfLength, IfError};
ghost use Rattle.cbor_diag_c.specs.Places.{no_place, IsBytesPlace, IsDigitsPlace, IsHexPlace};
ghost use Rattle.cbor_diag_c.specs.Places.{IsTextPlace, IsPlainPlace, IsPlace, IsItemIn};
ghost use Rattle.cbor_diag_c.specs.Places.{IsFaultIn};

use crate::answer::refused;
use crate::edn::edn_error;
use crate::form::{Form, NO_FORM, read_as};
use cbor_bytes::{Extent, extent, hex_bytes, hex_fault, hex_place};
use cbor_diag::{Source, diag_fault};
use cbor_edn_grammar::error::EdnError;
use cbor_grammar::Error;
use std::alloc::Global;

/// Why an input is no item, and how many of its bytes come before the fault; `None` if it is one.
type Fault = Option<(Error, usize)>;

/// The place where there is none.
pub(crate) const NO_PLACE: usize = usize::MAX;

/// The fault of bytes.
#[tactic(auto, using(crate::proofs::Refusals::refused, crate::proofs::Refusals::fault_place))]
pub(crate) fn in_bytes(bytes: &[u8]) -> Fault
    ensures none { result ≡ None → (i : Item) × IsItem bytes.now i }
    ensures refused { IfSome result (λ x. IsNoItem bytes.now x.0) }
    ensures place { IfSome result (λ x. IsBytesPlace bytes.now x.0 x.1) }
{
    match extent(bytes) {
        Extent::Item(length) => {
            if length < bytes.len() {
                return Some((Error::Remaining, length));
            }
            None
        }
        Extent::Cut => Some((Error::CutShort, bytes.len())),
        Extent::Fault { error, end } => Some((error, end - 1)),
    }
}

/// The place of the digits of byte `n`, or the end of the text.
fn digits_place(text: &str, n: usize) -> usize
    ensures { IsDigitsPlace text.now n result }
{
    match hex_place(text, n) {
        Some(place) => place,
        None => text.len(),
    }
}

/// The fault of hex. The only error is `Memory`.
#[tactic(auto, using(crate::proofs::Refusals::hex_refused))]
fn in_hex(alloc: Global, text: &str) -> Result<Fault, Error>
    ensures none { IfOk result (λ f. f ≡ None → (i : Item) × IsHexOf text.now i) }
    ensures refused { IfOk result (λ f. IfSome f (λ x. IsHexRefused text.now x.0)) }
    ensures place { IfOk result (λ f. IfSome f (λ x. IsHexPlace text.now x.0 x.1)) }
    ensures memory { IfErr result (λ e. e ≡ Error.Memory) }
{
    if let Some(fault) = hex_fault(text) {
        return Ok(Some(fault));
    }
    // The digits are right.
    let Ok(bytes) = hex_bytes(alloc, text) else {
        return Err(Error::Memory);
    };
    match in_bytes(&bytes) {
        None => Ok(None),
        Some((error, n)) => Ok(Some((error, digits_place(text, n)))),
    }
}

/// The fault of EDN. The only error is `Memory`.
fn in_edn(alloc: Global, input: &[u8]) -> Result<Fault, Error>
    ensures none { IfOk result (λ f. f ≡ None → (i : Item) × IsEdn input.now i) }
    ensures refused { IfOk result (λ f. IfSome f (λ x. IsNoEdn input.now x.0)) }
    ensures place { IfOk result (λ f. IfSome f (λ x. IsTextPlace input.now x.1)) }
    ensures memory { IfErr result (λ e. e ≡ Error.Memory) }
{
    let text = match str::from_utf8(input) {
        Ok(text) => text,
        Err(error) => return Ok(Some((Error::Utf8, error.valid_up_to()))),
    };
    match edn_error(alloc, text) {
        None => Ok(None),
        Some(EdnError::Memory) => Err(Error::Memory),
        Some(EdnError::Wrong { place, .. }) => Ok(Some((Error::Notation, place))),
    }
}

/// The fault of an input in a plain form. The only error is `Memory`, and bytes have none.
fn in_plain(alloc: Global, from: Source, input: &[u8]) -> Result<Fault, Error>
    ensures none { IfOk result (λ f. f ≡ None → (i : Item) × Reads from input.now i) }
    ensures refused { IfOk result (λ f. IfSome f (λ x. Refuses from input.now x.0)) }
    ensures place { IfOk result (λ f. IfSome f (λ x. IsPlainPlace from input.now x.0 x.1)) }
    ensures memory { IfErr result (λ e. (e ≡ Error.Memory) × (from ≢ Source.Bytes)) }
{
    match from {
        Source::Bytes => Ok(in_bytes(input)),
        Source::Hex => match str::from_utf8(input) {
            Ok(text) => in_hex(alloc, text),
            Err(error) => Ok(Some((Error::Utf8, error.valid_up_to()))),
        },
        Source::Diag => match str::from_utf8(input) {
            Ok(text) => diag_fault(alloc, text),
            Err(error) => Ok(Some((Error::Utf8, error.valid_up_to()))),
        },
    }
}

/// The fault of an input in this form. The only error is `Memory`, and bytes have none.
#[tactic(auto, using(crate::proofs::FormNumbers::other_number))]
pub(crate) fn fault(alloc: Global, from: Form, input: &[u8]) -> Result<Fault, Error>
    ensures none { IfOk result (λ f. f ≡ None → (i : Item) × ReadsIn from input.now i) }
    ensures refused { IfOk result (λ f. IfSome f (λ x. IsRefusedIn from input.now x.0)) }
    ensures place { IfOk result (λ f. IfSome f (λ x. IsPlace from input.now x.0 x.1)) }
    ensures memory { IfErr result (λ e. (e ≡ Error.Memory) × (form_number from ≢ 0)) }
{
    match from {
        Form::Plain(plain) => in_plain(alloc, read_as(plain), input),
        Form::Text(_) => in_edn(alloc, input),
    }
}

/// Reports why and where an input is no item in this form.
///
/// Returns 0 if it is one, and otherwise minus the number of an error that is true of it: that of
/// `cbor_diag_convert`, but where notation has several. Sets `place` to how many bytes of the input
/// come before the fault, and to 2^64 - 1 where there is no place: without an error, out of memory,
/// and for no form.
///
/// In bytes it is the last of the first bytes that have the error, as `cbor_diag_extent` counts
/// them; their end if they are cut; or the end of the item if more follow. In hex it is the first
/// digit of that byte; or the digit that is wrong, which is the last one of an odd number. In
/// notation and EDN it is where the reader stops: before the first byte with which the text cannot
/// go on, or at the end of a text that is only truncated. The clause says that it is in the text or
/// at its end. In a text that is not UTF-8 it is the end of the longest front that is.
#[unsafe(no_mangle)]
#[tactic(auto, using(crate::proofs::FormNumbers::number_laws))]
pub extern "C" fn cbor_diag_fault(alloc: Global, from: u32, input: &[u8], place: &mut usize) -> i64
    ensures none { IfLength result (λ n. (n ≡ 0) × IsItemIn from input.now
        × (place.new ≡ no_place)) }
    ensures error { IfError result (λ n. n ≢ 1 → IsFaultIn from input.now n place.new) }
    ensures no_place { IfError result (λ n. n ≡ 1 → place.new ≡ no_place) }
    ensures unknown_form { IsNoForm from → result ≡ negsuc 10 }

    // Bytes need no memory.
    ensures no_memory { IfError result (λ n. from ≡ 0 → n ≢ 1) }
{
    *place = NO_PLACE;
    let Some(from) = Form::of(from) else {
        return NO_FORM;
    };
    match fault(alloc, from, input) {
        Ok(None) => 0,
        Ok(Some((error, at))) => {
            *place = at;
            refused(error)
        }
        Err(error) => refused(error),
    }
}
