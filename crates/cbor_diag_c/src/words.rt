//! The C call `cbor_diag_fault_text`: writes in words why an input is not an item.
ghost use Rattle.std.specs.Prelude.{◌≡◌, ℕ, List, length};
ghost use Rattle.cbor_diag_c.specs.Answers.{IfLength, IfError, written};
ghost use Rattle.cbor_diag_c.specs.Words.{IsEdnWords, IsOrMemory, IsWordsIn, IsWords};

use crate::answer::write;
use crate::edn::edn_error;
use crate::faults::fault;
use crate::form::Form;
use cbor_edn_grammar::error::EdnError;
use cbor_grammar::Error;
use std::alloc::Global;

/// What an input in EDN is wrong in.
fn edn_words(alloc: Global, input: &[u8]) -> &'static str
    ensures { IsOrMemory (IsEdnWords input.now) result.now }
{
    let Ok(text) = str::from_utf8(input) else {
        return Error::Utf8.text();
    };
    match edn_error(alloc, text) {
        None => "",
        Some(EdnError::Memory) => Error::Memory.text(),
        Some(EdnError::Wrong { expected, .. }) => expected.text(),
    }
}

/// What an input in this form is wrong in.
pub(crate) fn words(alloc: Global, from: Form, input: &[u8]) -> &'static str
    ensures { IsOrMemory (IsWordsIn from input.now) result.now }
{
    if let Form::Text(_) = from {
        return edn_words(alloc, input);
    }
    match fault(alloc, from, input) {
        Ok(None) => "",
        Ok(Some((error, _))) | Err(error) => error.text(),
    }
}

/// Writes in words why an input is no item in this form, in ASCII and without a full stop: for EDN
/// what has to be at the place, and in other forms the text of the error.
///
/// Returns the length of the text, and writes as much of it as fits into `output`; 0 if the input
/// is an item.
#[unsafe(no_mangle)]
pub extern "C" fn cbor_diag_fault_text(
    alloc: Global,
    from: u32,
    input: &[u8],
    output: &mut [u8],
) -> i64
    ensures text { IfLength result (λ n. (text : List ℕ) × IsWords from input.now text
        × (n ≡ length text) × (output.new ≡ written text output.old)) }
    ensures no_error { IfError result (λ n. ⊥) }
{
    match Form::of(from) {
        Some(from) => write(words(alloc, from, input).as_bytes(), output),
        None => write("no such form".as_bytes(), output),
    }
}
