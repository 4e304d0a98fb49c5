//! Copies as much of a text as fits the output of a C call, and returns the length of the whole
//! text (`write`). For an error, returns minus its number (`refused`).
ghost use Rattle.std.specs.Prelude.{◌≡◌, pos, length};
ghost use Rattle.cbor_grammar.specs.Refusals.{number_of};
ghost use Rattle.cbor_diag_c.specs.Answers.{IsMinus, written};

use cbor_grammar::Error;

/// Writes as much of a text as fits the output, and returns the length of the whole text.
pub(crate) fn write(text: &[u8], output: &mut [u8]) -> i64
    ensures length { result ≡ pos (length text.now) }
    ensures written { output.new ≡ written text.now output.old }
{
    let room = text.len().min(output.len());
    output[..room].copy_from_slice(&text[..room]);
    text.len() as i64
}

/// Returns minus the number of an error.
pub(crate) fn refused(error: Error) -> i64
    ensures { IsMinus (number_of error) result }
{
    -i64::from(error.number())
}
