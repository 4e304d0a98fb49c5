//! The C calls `cbor_diag_fault_path`, which writes the path to the item in which an input is
//! truncated or malformed, and `cbor_diag_fault_message`, which writes what is wrong there, as
//! `cborcat` does.
ghost use Rattle.std.specs.Prelude.{◌≡◌, ℕ, List, negsuc, length, IfOk, IfErr, IfSome};
ghost use Rattle.cbor_diag_c.specs.Forms.{IsNoForm, IsRefusedIn};
ghost use Rattle.cbor_diag_c.specs.Answers.{IfLength, IfError, written};
ghost use Rattle.cbor_diag_c.specs.Messages.{IsFaultMessage, IsFaultPath, IsMemoryOrNoForm};
ghost use Rattle.cbor_grammar.specs.HexText.{IsHexRefused};

use crate::answer::{refused, write};
use crate::form::{Form, NO_FORM};
use crate::words::words;
use cbor_bytes::hex_bytes;
use cbor_diag::To;
use cbor_grammar::Error;
use cbor_places::{Fault, fault_of};
use std::alloc::Global;

/// The fault of the bytes that hex stands for, if its digits are right. The only error is `Memory`.
#[tactic(auto, using(crate::proofs::Refusals::hex_refused))]
fn in_hex(alloc: Global, text: &str) -> Result<Option<Fault>, Error>
    ensures refused { IfOk result (λ f. IfSome f (λ x. IsHexRefused text.now x.error)) }
    ensures memory { IfErr result (λ e. e ≡ Error.Memory) }
{
    match hex_bytes(alloc, text) {
        Ok(bytes) => fault_of(alloc, &bytes),
        Err(Error::Memory) => Err(Error::Memory),
        Err(_) => Ok(None),
    }
}

/// The fault of the bytes of an input in this form; `None` for an item, and for an input that has
/// no bytes of its own: notation and wrong hex. The only error is `Memory`.
fn fault_in(alloc: Global, from: Form, input: &[u8]) -> Result<Option<Fault>, Error>
    ensures refused { IfOk result (λ f. IfSome f (λ x. IsRefusedIn from input.now x.error)) }
    ensures memory { IfErr result (λ e. e ≡ Error.Memory) }
{
    match from {
        Form::Plain(To::Bytes) => fault_of(alloc, input),
        Form::Plain(To::Hex) => match str::from_utf8(input) {
            Ok(text) => in_hex(alloc, text),
            Err(_) => Ok(None),
        },
        _ => Ok(None),
    }
}

/// Writes the path to the item that is cut or has the fault, in an input that is no item: steps
/// joined by `/`, as `cborcat -p` reads them, in UTF-8; `/` for the outermost item.
///
/// Returns the length of the path, and writes as much of it as fits into `output`; 0 if there is
/// none: for an item, for bytes after an item, and for notation and hex that is not right.
/// Otherwise minus the number of the error: `Memory`, or 11 for no form.
#[unsafe(no_mangle)]
pub extern "C" fn cbor_diag_fault_path(
    alloc: Global,
    from: u32,
    input: &[u8],
    output: &mut [u8],
) -> i64
    ensures path { IfLength result (λ n. (path : List ℕ) × IsFaultPath from input.now path
        × (n ≡ length path) × (output.new ≡ written path output.old)) }
    ensures error { IfError result (IsMemoryOrNoForm from) }
    ensures unchanged { IfError result (λ n. output.new ≡ output.old) }
    ensures unknown_form { IsNoForm from → result ≡ negsuc 10 }
{
    let Some(from) = Form::of(from) else {
        return NO_FORM;
    };
    match fault_in(alloc, from, input) {
        Ok(Some(fault)) => write(fault.path.as_bytes(), output),
        Ok(None) => write(b"", output),
        Err(error) => refused(error),
    }
}

/// Writes what is wrong with an input that is no item, and where in the item, as `cborcat` says it,
/// in UTF-8. Bytes are named by their numbers in the item. For notation, and for hex that is not
/// right, it is the text of `cbor_diag_fault_text`.
///
/// Returns the length of the message, and writes as much of it as fits; 0 for an item.
/// Otherwise minus the number of the error: `Memory`, or 11 for no form.
#[unsafe(no_mangle)]
pub extern "C" fn cbor_diag_fault_message(
    alloc: Global,
    from: u32,
    input: &[u8],
    output: &mut [u8],
) -> i64
    ensures message { IfLength result (λ n. (message : List ℕ)
        × IsFaultMessage from input.now message
        × (n ≡ length message) × (output.new ≡ written message output.old)) }
    ensures error { IfError result (IsMemoryOrNoForm from) }
    ensures unchanged { IfError result (λ n. output.new ≡ output.old) }
    ensures unknown_form { IsNoForm from → result ≡ negsuc 10 }
{
    let Some(form) = Form::of(from) else {
        return NO_FORM;
    };
    match fault_in(alloc, form, input) {
        Ok(Some(fault)) => write(fault.message.as_bytes(), output),
        Ok(None) => write(words(alloc, form, input).as_bytes(), output),
        Err(error) => refused(error),
    }
}
