//! Reads the files of CDDL: those of `--cddl`, which are read as one text, and that of `--names`.
//! Loads that text.

use cbor_cddl::{Fault, Schema};
use cbor_cddl_names::with_schema;
use cbor_names::Names;
use cbor_schema::Checker;
use cborcat_arguments::Job;
use cborcat_messages::{Files, Status, say, say_no_memory};
use std::alloc::Global;
use std::fs;

/// What items have to fit.
#[derive(Drop)]
pub struct Cddl<'a> {
    /// The files of the text.
    pub files: Files<'a>,
    /// The rules, which are ready to be matched.
    pub checker: Checker,
}

/// Reads the files of `--cddl`.
fn files_of<'a>(rt: &HostRuntime, job: &'a Job<'_>) -> Result<Files<'a>, Status> {
    let alloc = rt.alloc();
    let mut files = Files::new(alloc);
    for name in &job.schemas {
        let text = match fs::read_to_string(rt, name) {
            Ok(text) => text,
            Err(error) => {
                say(rt, name, &error);
                return Err(Status::Trouble);
            }
        };
        if files.add(name, &text).is_err() {
            return Err(say_no_memory(rt));
        }
    }
    Ok(files)
}

/// What items have to fit, if `--cddl` says so. Says what is wrong with the text.
pub fn cddl_of<'a>(rt: &HostRuntime, job: &'a Job<'_>) -> Result<Option<Cddl<'a>>, Status> {
    if job.schemas.is_empty() {
        return Ok(None);
    }
    let files = files_of(rt, job)?;
    match checker_of(rt.alloc(), files.text(), job.rule) {
        Ok(checker) => Ok(Some(Cddl { files, checker })),
        Err(fault) => Err(files.say_fault(rt, fault, job.rule)),
    }
}

/// Loads a text.
fn checker_of(alloc: Global, text: &str, rule: Option<&str>) -> Result<Checker, Fault> {
    let schema = Schema::load(alloc, text, rule)?;
    Checker::new(alloc, schema)
}

/// A rule of the prelude, so that a text needs no rule that is a type.
const ANY: Option<&str> = Some("any");

/// The tables with the types of a file of CDDL. Says what is wrong with its text.
pub fn with_cddl(rt: &HostRuntime, names: Names, file: &str, text: &str) -> Result<Names, Status> {
    let alloc = rt.alloc();
    let mut files = Files::new(alloc);
    if files.add(file, text).is_err() {
        return Err(say_no_memory(rt));
    }
    let checker = match checker_of(alloc, files.text(), ANY) {
        Ok(checker) => checker,
        Err(fault) => return Err(files.say_fault(rt, fault, None)),
    };
    match with_schema(alloc, names, checker.schema()) {
        Ok(names) => Ok(names),
        Err(_) => Err(say_no_memory(rt)),
    }
}
