//! Converts one CBOR data item (RFC 7049, which RFC 8949 replaced): `cbor_view FROM TO` reads it
//! from standard input in the form FROM, and writes it to standard output in the form TO.
//!
//! ```text
//! $ cbor_view hex diag < examples/uri.hex
//! 32_0("https://example.com")
//! ```
//!
//! FROM is `bytes` (the bytes of the item), `hex` (its bytes in hex with comments) or `diag`
//! (diagnostic notation). TO is `bytes`, `hex`, `diag` (diagnostic notation on one line) or
//! `pretty` (the same over several lines). Both `diag` and `pretty` write a line feed in a text as
//! it is. If FROM is `seq`, the input is a CBOR sequence (RFC 8742): each of its items is written
//! in the form TO, in order. The outputs are written in blocks.
//!
//! The exit status is 0 if the output was written. It is 1 if the input is not valid or cannot be
//! read, if the output cannot be written, or if memory runs out. Invalid input produces no output;
//! in a sequence, the items before the first error are written. The status is 2, and nothing is
//! read, for wrong arguments. Standard error then says why.
#![tactic(auto)]

mod convert;
mod counted;
mod error;
mod laws;
mod run;
mod run_seq;
mod words;

use crate::counted::Counted;
use crate::error::ViewError;
use crate::words::{Source, To, from_word, to_word};
use std::env;
use std::io::{Read, Write};
use std::process::ExitCode;
use std::rt::Env;
use thiserror::Error;

/// Why the program ends with a status other than 0.
#[derive(Debug, Drop, Error)]
enum Failure {
    #[error("usage: cbor_view FROM TO")]
    Usage,
    #[error("{}", .0.text())]
    View(ViewError),
}

impl Failure {
    fn status(&self) -> ExitCode {
        match self {
            Failure::Usage => ExitCode::from(2u8),
            Failure::View(_) => ExitCode::FAILURE,
        }
    }
}

/// What the arguments ask for.
enum Job {
    /// One item, from one form to another.
    One(Source, To),
    /// A sequence of items, each to this form.
    Sequence(To),
}

/// Returns what the two arguments ask for.
fn asked(rt: &(impl Env + Alloc)) -> Result<Job, Failure> {
    let mut arguments = env::args(rt).map_err(|_| Failure::Usage)?;
    let _program = arguments.next();
    let (Some(from), Some(to), None) = (arguments.next(), arguments.next(), arguments.next()) else {
        return Err(Failure::Usage);
    };
    match (
        from.as_str(),
        from_word(from.as_str()),
        to_word(to.as_str()),
    ) {
        ("seq", _, Some(to)) => Ok(Job::Sequence(to)),
        (_, Some(from), Some(to)) => Ok(Job::One(from, to)),
        _ => Err(Failure::Usage),
    }
}

/// Checks the arguments, and only then reads. The output of a sequence is flushed before its error
/// is reported. If the flush fails, that is reported instead.
fn view(
    rt: &(impl Env + AllocGlobal),
    input: impl Read + Drop,
    output: impl Write + Drop,
) -> Result<(), Failure> {
    let job = asked(rt)?;
    let mut input = Counted::new(input);
    let mut output = Counted::new(output);
    match job {
        Job::One(from, to) => {
            run::run(rt.alloc(), from, to, &mut input, &mut output).map_err(Failure::View)?;
            flush(&mut output)
        }
        Job::Sequence(to) => {
            let end = run_seq::run_seq(rt.alloc(), to, &mut input, &mut output);
            if let Ok(()) | Err(ViewError::Item(_)) = end {
                flush(&mut output)?;
            }
            end.map_err(Failure::View)
        }
    }
}

fn flush(output: &mut Counted<impl Write>) -> Result<(), Failure> {
    output.flush().map_err(|_| Failure::View(ViewError::Write))
}

fn main(rt: HostRuntime) -> ExitCode {
    match view(&rt, rt.stdin(), rt.stdout()) {
        Ok(()) => ExitCode::SUCCESS,
        Err(failure) => {
            // If standard error itself fails, there is nowhere to report it.
            let _ = eprintln!(rt; "cbor_view: {failure}");
            failure.status()
        }
    }
}
