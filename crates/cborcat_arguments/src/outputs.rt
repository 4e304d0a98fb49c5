//! What is written of an input, by the arguments: `outputs_of`. Each output is a bit, so that the
//! table of the options says with which outputs an option goes.

use crate::values::index_size;
use clap::ArgMatches;

/// A set of outputs, a bit for each.
pub(crate) type Outputs = u32;

pub(crate) const PRETTY: Outputs = 1;

pub(crate) const DIAG: Outputs = 2;

pub(crate) const HEX: Outputs = 4;

pub(crate) const HTML: Outputs = 8;

pub(crate) const DIGITS: Outputs = 0x10;

pub(crate) const BYTES: Outputs = 0x20;

pub(crate) const JSON: Outputs = 0x40;

pub(crate) const RAW: Outputs = 0x80;

pub(crate) const PATHS: Outputs = 0x100;

pub(crate) const STATS: Outputs = 0x200;

pub(crate) const INDEX: Outputs = 0x400;

pub(crate) const AT: Outputs = 0x800;

pub(crate) const CHECK: Outputs = 0x1000;

pub(crate) const CDDL: Outputs = 0x2000;

pub(crate) const DIFF: Outputs = 0x4000;
/// Names, which are shown or stand in place of keys.
pub(crate) const NAMES: Outputs = 0x8000;
/// What a path leads to.
pub(crate) const FOLLOWED: Outputs = 0x1_0000;

/// The forms of `--to`.
pub(crate) const FORMS: Outputs = 0x7ff;
/// Where notation is written on lines of text.
pub(crate) const NOTATION: Outputs = PRETTY | DIAG | PATHS | DIFF;
/// Where names are shown, or say which byte strings are entered.
pub(crate) const NAMED: Outputs = PRETTY | HEX | HTML | PATHS | STATS | AT | DIFF;
/// Where byte strings are entered or shown as items; a path goes where notation does.
pub(crate) const ENTERED: Outputs = NAMED | DIAG | JSON | FOLLOWED;
/// Where items are shown that are encoded anew.
pub(crate) const ENCODED: Outputs = PRETTY | DIAG | HEX | DIGITS | BYTES;
/// Where parts of items are looked at.
pub(crate) const PARTS: Outputs = FORMS - PATHS - STATS - INDEX | CHECKS | DIFF;
/// Where nothing is written.
pub(crate) const CHECKS: Outputs = CHECK | CDDL;
/// All outputs.
pub(crate) const ALL: Outputs = 0x7fff;

/// The outputs and the words of messages for them.
pub(crate) static WORDS: [(Outputs, &str); 17] = [
    (PRETTY, "-t pretty"),
    (DIAG, "-t diag"),
    (HEX, "-t hex"),
    (HTML, "-t html"),
    (DIGITS, "-t digits"),
    (BYTES, "-t bytes"),
    (JSON, "-t json"),
    (RAW, "-t raw"),
    (PATHS, "-t paths"),
    (STATS, "-t stats"),
    (INDEX, "-t index"),
    (AT, "--at"),
    (CHECK, "--check"),
    (CDDL, "--cddl"),
    (DIFF, "--diff"),
    (
        NAMES,
        "output with names (pretty, hex, html or paths without --no-notes)",
    ),
    (FOLLOWED, "a path (-p, --set or --delete)"),
];

/// The words of `--to`, each with its output; `index=SIZE` is another.
pub(crate) static TO: [(&str, Outputs); 12] = [
    ("pretty", PRETTY),
    ("diag", DIAG),
    ("edn", DIAG),
    ("hex", HEX),
    ("html", HTML),
    ("digits", DIGITS),
    ("bytes", BYTES),
    ("cbor", BYTES),
    ("json", JSON),
    ("raw", RAW),
    ("paths", PATHS),
    ("stats", STATS),
];

/// The output that a word of `--to` names, if it names one.
pub(crate) fn output_named(word: &str) -> Option<Outputs> {
    for (name, output) in &TO {
        if *name == word {
            return Some(*output);
        }
    }
    match index_size(word) {
        Some(size) if size > 0 => Some(INDEX),
        _ => None,
    }
}

/// What the arguments ask to write.
pub(crate) fn output_of(matches: &ArgMatches) -> Outputs {
    if matches.get_flag("diff") {
        DIFF
    } else if matches.get_str("at").is_some() {
        AT
    } else if matches.get_strs("cddl").is_some() {
        CDDL
    } else if matches.get_str("check").is_some() {
        CHECK
    } else {
        let unnamed = if matches.get_flag("in-place") {
            BYTES
        } else {
            PRETTY
        };
        matches
            .get_str("to")
            .and_then(output_named)
            .unwrap_or(unnamed)
    }
}

/// The same, with names and with what a path leads to, if they are asked for.
pub(crate) fn outputs_of(matches: &ArgMatches) -> Outputs {
    let mut outputs = output_of(matches);
    let is_named = outputs & NAMED != 0 && !matches.get_flag("no-notes");
    if is_named || matches.get_flag("names-as-keys") {
        outputs |= NAMES;
    }
    for option in ["path", "set", "delete"] {
        if matches.get_strs(option).is_some() {
            outputs |= FOLLOWED;
        }
    }
    outputs
}
