//! The C calls `cbor_diag_convert`, which converts an input from one form to another, and
//! `cbor_diag_output_fault`, which says why an input cannot be converted.
ghost use Rattle.std.specs.Prelude.{◌≡◌, ◌≢◌, ◌⊎◌, ◌<◌, negsuc, IfOk};
ghost use Rattle.cbor_diag_c.specs.declared.form.Text.{Text as Texts};
ghost use Rattle.cbor_diag_c.specs.Forms.{IsNoForm, IsOutputIn};
ghost use Rattle.cbor_diag_c.specs.Outputs.{RefusedAs, IsNoOutput, error_number, loss_number};
ghost use Rattle.cbor_diag_c.specs.Outputs.{IsTold};
ghost use Rattle.cbor_diag_c.specs.Answers.{IfLength, IfError, IsMinus, no_form};
ghost use Rattle.cbor_diag_c.specs.Conversions.{IsWhole, IsWhy, IsOutputFault, IsConverted};
ghost use Rattle.cbor_diag_c.specs.Places.{no_place};

use crate::answer::{refused, write};
use crate::edn::read_edn;
use crate::faults::NO_PLACE;
use crate::form::{Form, NO_FORM, Text, read_as};
use crate::text::{item_line, text_line};
use cbor_bytes::hex_bytes;
use cbor_diag::{Source, To, convert, read_item, write_item};
use cbor_grammar::Error;
use cbor_json::{JsonError, LossKind};
use std::alloc::Global;

/// Returns an input in one of the plain forms in EDN or JSON, or as lines of a page. No item is
/// built of bytes and of hex.
#[tactic(auto, using(crate::proofs::NoOutput::plain_laws))]
fn plain_to_text(alloc: Global, from: To, text: Text, input: &[u8]) -> Result<Vec<u8>, JsonError>
    ensures ok { IfOk result (λ output.
        IsOutputIn (Form.Plain from) (Form.Text text) input.now output.items) }
    ensures refused { RefusedAs result (IsNoOutput (Form.Plain from) (Form.Text text) input.now) }
{
    match from {
        To::Bytes => text_line(alloc, input, text),
        To::Hex => hex_to_text(alloc, text, input),
        To::Diag | To::Pretty => {
            let item = read_item(alloc, Source::Diag, input)?;
            item_line(alloc, &item, text)
        }
    }
}

/// Returns an input in hex in EDN or JSON, or as lines of a page.
#[tactic(auto, using(crate::proofs::NoOutput::hex_laws))]
fn hex_to_text(alloc: Global, text: Text, input: &[u8]) -> Result<Vec<u8>, JsonError>
    ensures ok { IfOk result (λ output.
        IsOutputIn (Form.Plain To.Hex) (Form.Text text) input.now output.items) }
    ensures refused { RefusedAs result (IsNoOutput (Form.Plain To.Hex) (Form.Text text) input.now) }
{
    let Ok(hex) = str::from_utf8(input) else {
        return Err(JsonError::Cbor(Error::Utf8));
    };
    let bytes = hex_bytes(alloc, hex)?;
    text_line(alloc, &bytes, text)
}

/// Returns an input in EDN in another form, or in EDN as it is written.
#[tactic(auto, using(crate::proofs::NoOutput::edn_laws))]
fn edn_to(alloc: Global, to: Form, input: &[u8]) -> Result<Vec<u8>, JsonError>
    ensures ok { (t : Texts) → IfOk result (λ output.
        IsOutputIn (Form.Text t) to input.now output.items) }
    ensures refused { (t : Texts) → RefusedAs result (IsNoOutput (Form.Text t) to input.now) }
{
    let item = read_edn(alloc, input)?;
    match to {
        Form::Plain(plain) => Ok(write_item(alloc, plain, &item, Vec::new(alloc))?),
        Form::Text(text) => item_line(alloc, &item, text),
    }
}

/// Returns the output for an input.
fn converted(alloc: Global, from: Form, to: Form, input: &[u8]) -> Result<Vec<u8>, JsonError>
    ensures ok { IfOk result (λ output. IsOutputIn from to input.now output.items) }
    ensures refused { RefusedAs result (IsNoOutput from to input.now) }
{
    match from {
        Form::Plain(plain) => match to {
            Form::Plain(to) => Ok(convert(alloc, read_as(plain), to, input)?),
            Form::Text(text) => plain_to_text(alloc, plain, text, input),
        },
        Form::Text(_) => edn_to(alloc, to, input),
    }
}

/// What is returned for two keys of a map that become the same in JSON.
const SAME_KEYS: i64 = -14;

/// What is returned for what JSON does not keep.
const NOT_KEPT: i64 = -15;

/// Returns minus the number of the error for which there is no output.
fn no_output(error: JsonError) -> i64
    ensures { IsMinus (error_number error) result }
{
    match error {
        JsonError::Cbor(error) => refused(error),
        JsonError::SameKeys(_) => SAME_KEYS,
        JsonError::NotKept(_) => NOT_KEPT,
    }
}

/// Converts an input from one form to another.
///
/// Returns the length of the whole output, and writes as much of it as fits into `output`; or minus
/// the number of the error, and then nothing is written.
#[unsafe(no_mangle)]
#[tactic(auto, using(crate::proofs::FormNumbers::known))]
pub extern "C" fn cbor_diag_convert(
    alloc: Global,
    from: u32,
    to: u32,
    input: &[u8],
    output: &mut [u8],
) -> i64
    ensures whole { IfLength result (IsWhole from to input.now output.old output.new) }
    ensures why { IfError result (λ n. n ≢ 1 → IsWhy from to input.now n) }
    ensures unchanged { IfError result (λ n. output.new ≡ output.old) }
    ensures unknown_form { IsNoForm from ⊎ IsNoForm to → result ≡ negsuc 10 }
{
    let Some(from) = Form::of(from) else {
        return NO_FORM;
    };
    let Some(to) = Form::of(to) else {
        return NO_FORM;
    };
    match converted(alloc, from, to, input) {
        Ok(whole) => write(&whole, output),
        Err(error) => no_output(error),
    }
}

/// The number of what JSON does not keep.
fn loss_number(kind: LossKind) -> usize
    ensures { result ≡ loss_number kind }
{
    match kind {
        LossKind::Tag => 1,
        LossKind::NotFinite => 2,
        LossKind::Simple => 3,
        LossKind::Bytes => 4,
        LossKind::Key => 5,
    }
}

/// Returns minus the number of the error, and sets its place and detail.
fn told(error: JsonError, place: &mut usize, detail: &mut usize) -> i64
    ensures error { IfError result (λ n. IsTold error n place.new detail.new) }
    ensures no_length { IfLength result (λ n. ⊥) }
{
    match error {
        JsonError::Cbor(_) => {
            *place = NO_PLACE;
            *detail = NO_PLACE;
        }
        JsonError::SameKeys(clash) => {
            *place = clash.second;
            *detail = clash.first;
        }
        JsonError::NotKept(loss) => {
            *place = loss.place;
            *detail = loss_number(loss.kind);
        }
    }
    no_output(error)
}

/// Reports why `cbor_diag_convert` has no output for an input, and where in the bytes of the item.
///
/// Returns 0 if it has one, and otherwise minus the number of its error. Sets `place` and `detail`
/// for an item that has no JSON: to the places of the second and the first of two keys that become
/// the same; or to the place of what JSON does not keep and the number of its kind. These places
/// are in the bytes that an input in bytes or hex has, and for one in notation or EDN in those that
/// it is encoded to. Otherwise both are 2^64 - 1.
#[unsafe(no_mangle)]
#[tactic(auto, using(crate::proofs::FormNumbers::known))]
pub extern "C" fn cbor_diag_output_fault(
    alloc: Global,
    from: u32,
    to: u32,
    input: &[u8],
    place: &mut usize,
    detail: &mut usize,
) -> i64
    ensures none { IfLength result (λ n. (n ≡ 0) × IsConverted from to input.now
        × (place.new ≡ no_place) × (detail.new ≡ no_place)) }
    ensures fault { IfError result (λ n. n ≢ 1
        → IsOutputFault from to input.now n place.new detail.new) }
    ensures unknown_form { IsNoForm from ⊎ IsNoForm to → result ≡ negsuc 10 }
{
    *place = NO_PLACE;
    *detail = NO_PLACE;
    let Some(from) = Form::of(from) else {
        return NO_FORM;
    };
    let Some(to) = Form::of(to) else {
        return NO_FORM;
    };
    match converted(alloc, from, to, input) {
        Ok(_) => 0,
        Err(error) => told(error, place, detail),
    }
}
