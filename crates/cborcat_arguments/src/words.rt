//! `read_words` reads the arguments of `cborcat`. It returns the job that they ask for, or prints
//! the help, the version or what is wrong with them.

use crate::changes::{Wrong, changes_of};
use crate::command::command;
use crate::job::{Color, Job, View, Wanted};
use crate::mistakes::{mistake_in, refusal_of};
use crate::outputs::{
    AT, BYTES, CDDL, CHECK, DIAG, DIFF, DIGITS, HEX, HTML, INDEX, JSON, Outputs, PATHS, RAW, STATS,
    output_of,
};
use crate::values::{columns_of, index_size, number_of};
use cbor_inputs::Input;
use cbor_inspect::{Form, Style, steps_of};
use cbor_rules::RuleSet;
use clap::error::ErrorKind;
use clap::{ArgMatches, Error};
use std::alloc::{AllocError, Global};

/// What becomes of the arguments.
#[derive(Drop)]
pub enum Asked<'a> {
    /// A run.
    Job(Job<'a>),
    /// Nothing more, with this status: help or the version was printed, or the arguments are wrong.
    Ended(u8),
}

/// Reads the arguments.
pub fn read_words<'a>(rt: &HostRuntime, words: &'a [String]) -> Asked<'a> {
    let Ok(command) = command(rt.alloc()) else {
        return out_of_memory(rt);
    };
    let matches = match command.try_get_matches_from(words) {
        Ok(matches) => matches,
        Err(error) => return refused(rt, &error),
    };
    match mistake_in(rt.alloc(), &matches) {
        Ok(Some(said)) => wrong(rt, said.as_str()),
        Ok(None) => job_of(rt, &matches),
        Err(AllocError) => out_of_memory(rt),
    }
}

/// Prints the help, the version, or why `clap` refused the arguments.
fn refused<'a>(rt: &HostRuntime, error: &Error) -> Asked<'a> {
    let kind = error.kind();
    if kind == ErrorKind::DisplayHelp || kind == ErrorKind::DisplayVersion {
        let _ = error.print(rt);
        return Asked::Ended(0);
    }
    match refusal_of(rt.alloc(), error) {
        Ok(said) => wrong(rt, said.as_str()),
        Err(AllocError) => out_of_memory(rt),
    }
}

/// Prints what is wrong with the arguments.
fn wrong<'a>(rt: &HostRuntime, said: &str) -> Asked<'a> {
    let _ = eprintln!(rt; "cborcat: {said}");
    Asked::Ended(2)
}

fn out_of_memory<'a>(rt: &HostRuntime) -> Asked<'a> {
    wrong(rt, "out of memory")
}

/// The form of an input that a word names.
fn input_of(word: &str) -> Option<Input> {
    match word {
        "bytes" | "cbor" => Some(Input::Bytes),
        "hex" => Some(Input::Hex),
        "diag" | "edn" | "json" => Some(Input::Diag),
        "base64" => Some(Input::Base64),
        _ => None,
    }
}

/// The form in which items are written for an output.
fn form_of(output: Outputs) -> Form {
    match output {
        DIAG | PATHS | STATS => Form::Diag,
        HEX => Form::Hex,
        DIGITS => Form::Digits,
        // JSON and contents are made of the bytes of a part.
        BYTES | JSON | RAW => Form::Bytes,
        _ => Form::Pretty,
    }
}

/// The columns of pretty notation, unless the arguments say so.
const COLUMNS: u16 = 80;

/// How the arguments ask for items to be written.
fn style_of(matches: &ArgMatches) -> Style {
    Style {
        form: form_of(output_of(matches)),
        embedded: matches.get_flag("embedded"),
        notes: !matches.get_flag("no-notes"),
        widths: matches.get_flag("widths"),
        columns: matches
            .get_str("width")
            .and_then(columns_of)
            .unwrap_or(COLUMNS),
    }
}

/// The number that the value of an option says, if the option is given.
fn number_in(matches: &ArgMatches, option: &str) -> Option<usize> {
    matches.get_str(option).and_then(number_of)
}

/// What the arguments ask to look for.
fn view_of(matches: &ArgMatches) -> View {
    match output_of(matches) {
        DIFF => View::Diff,
        AT => View::At(number_in(matches, "at").unwrap_or(0)),
        CHECK | CDDL => View::Check,
        JSON => View::Json,
        RAW => View::Raw,
        PATHS => View::Paths,
        HTML => View::Html(number_in(matches, "limit").unwrap_or(MOST_ON_PAGE)),
        STATS => View::Stats,
        INDEX => View::Index(matches.get_str("to").and_then(index_size).unwrap_or(1)),
        _ => match matches.get_str("encode").and_then(RuleSet::named) {
            Some(set) => View::Encoded(set),
            None => View::Items,
        },
    }
}

/// How many bytes of data a page shows, unless more are asked for: a browser takes some seconds to
/// open what is made of them.
const MOST_ON_PAGE: usize = 256 * 1024;

/// Why `--in-place` can replace no file, if it is given.
fn refused_in_place(job: &Job) -> Option<&'static str> {
    if !job.in_place {
        None
    } else if job.changes.is_empty() && !matches!(job.view, View::Encoded(_)) {
        Some("--in-place is for --set, --delete and --encode: add one of them")
    } else if job.files.is_empty() || job.files.contains(&"-") {
        Some("--in-place changes files, and not standard input: name a FILE")
    } else {
        None
    }
}

/// Why the files that the arguments name are too many or too few, if they are.
fn refusal(job: &Job) -> Option<&'static str> {
    match job.view {
        _ if job.in_place => refused_in_place(job),
        View::Html(_) if job.files.len() > 1 => Some("-t html makes one page, of one input"),
        View::Diff if job.files.len() != 2 => Some("--diff compares two files"),
        _ => None,
    }
}

/// The files that the arguments name, or those of an option.
fn files_of<'a>(
    alloc: Global,
    matches: &ArgMatches<'a>,
    option: &str,
) -> Result<Vec<&'a str>, AllocError> {
    let mut files = Vec::new(alloc);
    if let Some(names) = matches.get_strs(option) {
        files.extend_from_slice(names)?;
    }
    Ok(files)
}

/// How long an item may be, unless the arguments say so.
const LIMIT: usize = 256 * 1024 * 1024;

/// The number of the item that a path begins with, before a colon, and the path in it.
pub(crate) fn item_of(path: &str) -> (Option<usize>, &str) {
    let Some((number, rest)) = path.split_once(":") else {
        return (None, path);
    };
    if number.is_empty() || !number.bytes().all(|byte| byte.is_ascii_digit()) {
        return (None, path);
    }
    (Some(number.parse::<usize>().unwrap_or(usize::MAX)), rest)
}

/// What the arguments ask for.
fn job_of<'a>(rt: &HostRuntime, matches: &ArgMatches<'a>) -> Asked<'a> {
    let alloc = rt.alloc();
    let (item, path) = item_of(matches.get_str("path").unwrap_or(""));
    let (Ok(steps), Ok(files)) = (steps_of(alloc, path), files_of(alloc, matches, "file")) else {
        return out_of_memory(rt);
    };
    let Ok(schemas) = files_of(alloc, matches, "cddl") else {
        return out_of_memory(rt);
    };
    let changes = match changes_of(rt, matches) {
        Ok(changes) => changes,
        Err(Wrong::Memory) => return out_of_memory(rt),
        Err(Wrong::Said) => return Asked::Ended(2),
    };
    let check = matches.get_str("check");
    let show = Wanted {
        style: style_of(matches),
        steps,
        one: matches.get_flag("one"),
    };
    let job = Job {
        from: matches.get_str("from").and_then(input_of),
        text: matches.get_str("text"),
        offset: number_in(matches, "offset").unwrap_or(0),
        limit: number_in(matches, "limit").unwrap_or(LIMIT),
        view: view_of(matches),
        color: Color::named(matches.get_str("color")),
        widthless: matches.get_flag("no-widths"),
        elide: number_in(matches, "elide"),
        show,
        names: !matches.get_flag("no-names"),
        outer: matches.get_str("as"),
        tables: matches.get_str("names"),
        names_as_keys: matches.get_flag("names-as-keys"),
        item,
        path,
        changes,
        places: matches.get_flag("places"),
        exact: matches.get_flag("exact"),
        partial: matches.get_flag("partial"),
        strict: matches.get_flag("strict"),
        output: matches.get_str("output"),
        in_place: matches.get_flag("in-place"),
        is_form_named: matches.get_str("to").is_some(),
        schemas,
        rule: matches.get_str("rule"),
        rules: check.and_then(RuleSet::named),
        files,
    };
    if let Some(why) = refusal(&job) {
        return wrong(rt, why);
    }
    Asked::Job(job)
}
