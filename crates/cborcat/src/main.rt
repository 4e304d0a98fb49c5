//! Shows CBOR data (RFC 8949) as text, or converts it: `cborcat FILE`.
//!
//! This crate reads and writes files and standard output. `cborcat_arguments` reads the arguments,
//! `cborcat_views` shows items as these ask, and `cborcat_messages` writes on standard error what
//! is wrong with an input.
#![tactic(auto)]

mod cddl;
mod changes;
mod conversion;
mod diff;
mod each;
mod fits;
mod input;
mod naming;
mod next;
mod output;
mod recognized;
mod run;

use crate::run::run;
use cborcat_arguments::{Asked, read_words};
use std::env;
use std::io::ErrorKind;
use std::process::ExitCode;

fn main(rt: HostRuntime) -> ExitCode {
    let alloc = rt.alloc();
    let words: Vec<String> = match env::args(&rt) {
        Ok(words) => match words.collect(alloc) {
            Ok(words) => words,
            Err(_) => return trouble(&rt, "out of memory"),
        },
        Err(error) if error.kind() == ErrorKind::OutOfMemory => {
            return trouble(&rt, "out of memory");
        }
        Err(_) => {
            return trouble(
                &rt,
                "an argument is not UTF-8; for such a file use cborcat < FILE",
            );
        }
    };
    match read_words(&rt, &words) {
        Asked::Job(job) => ExitCode::from(run(&rt, &job)),
        Asked::Ended(status) => ExitCode::from(status),
    }
}

/// Reports what keeps the program from running.
fn trouble(rt: &HostRuntime, text: &str) -> ExitCode {
    let _ = eprintln!(rt; "cborcat: {text}");
    ExitCode::from(2u8)
}
