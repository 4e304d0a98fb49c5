//! Runs tests that are rows of text files: `vectors FILE..` makes the call of each row of these
//! files, prints each row whose result differs, and says how many rows each file has.
//!
//! docs/VECTORS.md explains the form of the files, and [`row`] reads it. [`subjects`] makes the
//! calls, and writes the results as text. The crates are proved, so a row tests whether a
//! definition says what a standard says.
//!
//! The gate builds this program with the subjects of [`forms`] alone. The program that has all
//! subjects is not proved: it has the files of `tests/rows` in place of [`subjects`].
//!
//! The exit status is 0 if each row gives what it has to, and 1 if not, or if a file cannot be
//! read.
#![tactic(auto)]

/// What the first of these subjects gives that knows the call.
macro_rules! first_answer {
    ($alloc:expr, $row:expr; $($subject:ident)*) => {{
        $(if let Some(text) = $subject::answer($alloc, $row)? {
            return Ok(Some(text));
        })*
        Ok(None)
    }};
}

mod forms;
mod report;
mod row;
mod subjects;
mod texts;

use crate::report::{Report, Tally};
use crate::row::rows_of;
use std::process::ExitCode;
use std::{env, fs, io};

/// Runs the rows of a file.
fn run_file(rt: &HostRuntime, name: &str) -> io::Result<Tally> {
    let alloc = rt.alloc();
    let text = fs::read_to_string(rt, name)?;
    let rows = rows_of(alloc, text.as_str())?;
    let mut report = Report::new(name);
    for row in rows.iter() {
        let found = subjects::answer(alloc, row)?;
        report.row(rt, row, found.as_deref())?;
    }
    report.end(rt)
}

/// Runs the files that the arguments name; returns whether each row gave what it has to.
fn run(rt: &HostRuntime) -> io::Result<bool> {
    let mut all = Tally::NONE;
    for name in env::args(rt)?.skip(1) {
        all = all.and(run_file(rt, name.as_str())?);
    }
    println!(rt; "{} rows, {} of them wrong", all.rows, all.wrong)?;
    Ok(all.wrong == 0 && all.rows > 0)
}

fn main(rt: HostRuntime) -> ExitCode {
    match run(&rt) {
        Ok(true) => ExitCode::SUCCESS,
        Ok(false) => ExitCode::FAILURE,
        Err(error) => {
            let _ = eprintln!(rt; "vectors: {error}");
            ExitCode::FAILURE
        }
    }
}
