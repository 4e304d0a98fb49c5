//! The C call `cbor_diag_error_text`: writes the text of an error, by the number of the error.
ghost use Rattle.std.specs.Prelude.{◌≡◌, ◌⊎◌, ◌<◌, ℕ, List, length, None, IfSome};
ghost use Rattle.cbor_grammar.specs.Refusals.{number_of};
ghost use Rattle.cbor_diag_c.specs.Answers.{IfLength, IfError, no_form, no_rules, IsTextOf};
ghost use Rattle.cbor_diag_c.specs.Answers.{written};

use crate::answer::write;
use cbor_grammar::Error;

/// Returns the error with this number.
fn error(number: u32) -> Option<Error>
    ensures named { IfSome result (λ error. number ≡ number_of error) }
    ensures none { result ≡ None → (number ≡ 0) ⊎ (10 < number) }
{
    match number {
        1 => Some(Error::Memory),
        2 => Some(Error::CutShort),
        3 => Some(Error::Head),
        4 => Some(Error::Utf8),
        5 => Some(Error::TooDeep),
        6 => Some(Error::Remaining),
        7 => Some(Error::OddHex),
        8 => Some(Error::BadHex),
        9 => Some(Error::Notation),
        10 => Some(Error::PastWidth),
        _ => None,
    }
}

/// Returns the text of the error with this number.
fn text(number: u32) -> &'static str
    ensures { IsTextOf number result.now }
{
    match error(number) {
        Some(error) => error.text(),
        None if number == 11 => "no such form",
        None if number == 12 => "no such rules",
        None if number == 13 => "no encoding of the items keeps the rules",
        None if number == 14 => "two keys of a map become the same in JSON",
        None if number == 15 => "JSON does not keep all of the item",
        None if number == 16 => "the path leads to no part of the item",
        None if number == 17 => "no such type",
        None if number == 18 => "neither hex, EDN, base 64 nor bytes of items",
        None if number == 19 => "the file of names has an error",
        None if number == 20 => "the CDDL has an error",
        None if number == 21 => "the bytes are no schema",
        None if number == 22 => "matching takes too many steps, or is nested too deeply",
        None => "no such error",
    }
}

/// Writes the text of the error with this number, in ASCII and without a full stop.
///
/// Returns the length of the text, and writes as much of it as fits into `output`.
#[unsafe(no_mangle)]
pub extern "C" fn cbor_diag_error_text(number: u32, output: &mut [u8]) -> i64
    ensures text { IfLength result (λ n. (text : List ℕ) × IsTextOf number text
        × (n ≡ length text) × (output.new ≡ written text output.old)) }
    ensures no_error { IfError result (λ n. ⊥) }
{
    write(text(number).as_bytes(), output)
}
