//! Loads the names that the program uses: those of `cbor_names`, those of the file of `--names`,
//! which is TOML or CDDL, and those of the files that come with the program. `shown_of` returns them
//! with the type that `--as` gives, if any.

use crate::cddl::with_cddl;
use cbor_cddl_names::KEPT;
use cbor_inspect::Naming;
use cbor_names::{Names, known_names, with_file};
use cbor_tokens::is_shown;
use cborcat_arguments::Job;
use cborcat_messages::{Status, label, say, say_no_memory};
use std::fs;

/// The tables. Says what is wrong with a file of them.
pub fn tables_of(rt: &HostRuntime, job: &Job) -> Result<Names, Status> {
    let alloc = rt.alloc();
    if !job.has_names() {
        return Ok(Names::new(alloc));
    }
    let Ok(known) = known_names(alloc) else {
        return Err(say_no_memory(rt));
    };
    match job.tables {
        Some(path) => with_tables(rt, known, path),
        None => with_type(rt, known, job.outer),
    }
}

/// The tables with those of a file, or of a file that comes with the program.
fn with_tables(rt: &HostRuntime, known: Names, path: &str) -> Result<Names, Status> {
    for (name, text) in &KEPT {
        if *name == path {
            return with_cddl(rt, known, path, *text);
        }
    }
    let text = match fs::read_to_string(rt, path) {
        Ok(text) => text,
        Err(error) => {
            say(rt, path, &error);
            return Err(Status::Trouble);
        }
    };
    if path.ends_with(".cddl") {
        return with_cddl(rt, known, path, &text);
    }
    match with_file(rt.alloc(), known, text.as_str()) {
        Ok(names) => Ok(names),
        Err(error) => {
            let _ = eprintln!(rt; "cborcat: {}: {error}", label(path));
            Err(Status::Trouble)
        }
    }
}

/// The tables with those of the first file that comes with the program and has the type of `--as`,
/// if they do not have it.
fn with_type(rt: &HostRuntime, known: Names, outer: Option<&str>) -> Result<Names, Status> {
    let Some(word) = outer else {
        return Ok(known);
    };
    if known.find(word).is_some() {
        return Ok(known);
    }
    for (name, text) in &KEPT {
        let Ok(tables) = known_names(rt.alloc()) else {
            return Err(say_no_memory(rt));
        };
        let names = with_cddl(rt, tables, *name, *text)?;
        if names.find(word).is_some() {
            return Ok(names);
        }
    }
    Ok(known)
}

/// The names by these tables, if they are shown. Lists the types if that of `--as` is none of
/// them.
pub fn shown_of<'a>(
    rt: &HostRuntime,
    job: &Job,
    names: &'a Names,
) -> Result<Option<Naming<'a>>, Status> {
    if !job.has_names() {
        return Ok(None);
    }
    let Some(word) = job.outer else {
        return Ok(Some(Naming::new(names, None)));
    };
    let outer = names.find(word);
    if outer.is_some() {
        return Ok(Some(Naming::new(names, outer)));
    }
    let Ok(list) = names.list(rt.alloc()) else {
        return Err(say_no_memory(rt));
    };
    let word = if is_shown(false, word.as_bytes()) {
        word
    } else {
        "of that name"
    };
    let _ = eprintln!(rt; "cborcat: there is no type {word}; the types are {list}");
    Err(Status::Trouble)
}
