//! The C call `cbor_diag_recognize`: finds which form an input has, and writes the bytes that it
//! stands for. `cbor_diag_place_in_text` finds where in the input one of these bytes is.
ghost use Rattle.std.specs.Prelude.{◌≡◌, ◌⊎◌, ◌≤◌, length};
ghost use Rattle.cbor_diag_c.specs.Answers.{IfLength, IfError, IsMinus, no_form};
ghost use Rattle.cbor_diag_c.specs.Recognized.{input_number, refusal_number};
ghost use Rattle.cbor_diag_c.specs.Recognized.{IsRecognized, IsNotRecognized};

use crate::answer::{refused, write};
use crate::form::NO_FORM;
use cbor_grammar::Error;
use cbor_inputs::{Input, Refusal, recognize};
use std::alloc::Global;

/// What is returned for an input that has none of the forms.
const NOT_RECOGNIZED: i64 = -18;

/// The number of a form of an input.
fn input_number(form: Input) -> u32
    ensures { result ≡ input_number form }
{
    match form {
        Input::Bytes => 0,
        Input::Hex => 1,
        Input::Diag => 2,
        Input::Base64 => 3,
    }
}

/// Returns minus the number of the error for which an input has no form.
fn not_recognized(refusal: Refusal) -> i64
    ensures { IsMinus (refusal_number refusal) result }
{
    match refusal {
        Refusal::Memory => refused(Error::Memory),
        Refusal::Hex(_)
        | Refusal::Utf8 { .. }
        | Refusal::Diag { .. }
        | Refusal::Base64
        | Refusal::Items { .. } => NOT_RECOGNIZED,
    }
}

/// Finds the form of an input, as `cborcat` does: hex as people paste it, EDN, base 64, or bytes;
/// and the bytes that it stands for. Unless it is hex, these are items, one after the other. No
/// text is taken for bytes.
///
/// Returns how many bytes these are, writes as many of them as fit `output`, and sets `form`.
/// Otherwise returns minus the number of the error, and both are unchanged: `Memory`, or 18 for an
/// input that has none of the forms.
#[unsafe(no_mangle)]
pub extern "C" fn cbor_diag_recognize(
    alloc: Global,
    input: &[u8],
    form: &mut u32,
    output: &mut [u8],
) -> i64
    ensures recognized { IfLength result
        (IsRecognized input.now form.new output.old output.new) }
    ensures refused { IfError result (IsNotRecognized input.now) }
    ensures unchanged { IfError result (λ n. output.new ≡ output.old) }
    ensures same_form { IfError result (λ n. form.new ≡ form.old) }
{
    match recognize(alloc, input) {
        Ok(found) => {
            *form = input_number(found.form);
            write(&found.bytes, output)
        }
        Err(refusal) => not_recognized(refusal),
    }
}

/// Finds where in a text a byte is that the text stands for, as `cborcat` shows what is wrong with
/// its items: the place of its first digit, or in EDN of the innermost item that has it; the end of
/// the text if there is no such byte. `form` is one that `cbor_diag_recognize` finds.
///
/// Returns how many bytes of the text come before that place, or minus the number of the error:
/// `Memory`, or 11 for another form.
#[unsafe(no_mangle)]
pub extern "C" fn cbor_diag_place_in_text(alloc: Global, form: u32, text: &[u8], byte: usize) -> i64
    ensures place { IfLength result (λ n. n ≤ length text.now) }
    ensures error { IfError result (λ n. (n ≡ 1) ⊎ (n ≡ no_form)) }
{
    let form = match form {
        0 => Input::Bytes,
        1 => Input::Hex,
        2 => Input::Diag,
        3 => Input::Base64,
        _ => return NO_FORM,
    };
    match form.place_of(alloc, text, byte) {
        Ok(place) => place.min(text.len()) as i64,
        Err(_) => refused(Error::Memory),
    }
}
