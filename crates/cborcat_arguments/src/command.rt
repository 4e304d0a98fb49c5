//! Builds the `clap` command of `cborcat` from a table of the options, which says with which outputs
//! each goes. A second table has the other arguments that cannot stand together. `values.rt` says
//! which values each option takes, and `help.rt` what it does.

use crate::help::HELP;
use crate::outputs::{
    ALL, AT, CDDL, CHECKS, DIAG, DIFF, ENCODED, ENTERED, FOLLOWED, FORMS, HEX, HTML, JSON, NAMED,
    NAMES, NOTATION, Outputs, PARTS, PATHS, PRETTY,
};
use clap::{Arg, ArgAction, Command};
use std::alloc::{AllocError, Global};

/// What an option takes.
#[derive(Clone, Copy, PartialEq, Eq)]
pub(crate) enum Takes {
    /// Nothing.
    Nothing,
    /// Any text that begins with no hyphen.
    Name,
    /// Any text.
    Text,
    /// Any text, and again.
    Texts,
    /// A number of bytes, which is also read in base 16.
    Bytes,
    /// A number of bytes; 32 if it is left out.
    Length,
    /// A number of columns.
    Columns,
    /// A form of an input.
    From,
    /// A form of the output.
    To,
    /// When the output has colours.
    When,
    /// A set of rules; `rfc8949` if it is left out.
    Rules,
    /// A set of rules that items can be encoded by.
    Encoding,
}

/// An option: its name, which `--` precedes, its letter, which `-` precedes, what it takes, and the
/// outputs that it has an effect on.
pub(crate) type Row<'a> = (&'a str, Option<char>, Takes, Outputs);

/// The options.
pub(crate) const OPTIONS: [Row<'static>; 32] = [
    ("from", Some('f'), Takes::From, ALL),
    ("text", Some('x'), Takes::Text, ALL - DIFF),
    ("one", Some('1'), Takes::Nothing, ALL - DIFF),
    ("offset", None, Takes::Bytes, ALL - DIFF),
    ("limit", None, Takes::Bytes, ALL - DIFF),
    ("to", Some('t'), Takes::To, FORMS),
    ("path", Some('p'), Takes::Text, PARTS),
    ("set", None, Takes::Texts, ALL - DIFF),
    ("delete", None, Takes::Texts, ALL - DIFF),
    ("embedded", Some('e'), Takes::Nothing, ENTERED),
    ("no-notes", None, Takes::Nothing, NAMED),
    ("widths", None, Takes::Nothing, NOTATION | HTML),
    ("no-widths", None, Takes::Nothing, NOTATION),
    ("width", None, Takes::Columns, PRETTY | HTML),
    ("strict", None, Takes::Nothing, JSON),
    ("output", Some('o'), Takes::Name, ALL - CHECKS),
    ("in-place", Some('i'), Takes::Nothing, ENCODED),
    ("check", Some('c'), Takes::Rules, ALL - DIFF - AT),
    ("cddl", None, Takes::Texts, ALL - DIFF - AT),
    ("rule", None, Takes::Name, CDDL),
    ("encode", None, Takes::Encoding, ENCODED),
    ("at", None, Takes::Bytes, ALL - DIFF),
    ("places", None, Takes::Nothing, PATHS),
    ("partial", None, Takes::Nothing, PRETTY | DIAG | HEX | HTML),
    ("color", None, Takes::When, ALL),
    ("elide", None, Takes::Length, NOTATION | HEX),
    ("as", None, Takes::Name, NAMES | FOLLOWED),
    ("names", None, Takes::Name, NAMES | FOLLOWED),
    ("no-names", None, Takes::Nothing, NAMES | FOLLOWED),
    ("names-as-keys", None, Takes::Nothing, JSON),
    ("diff", None, Takes::Nothing, ALL),
    ("exact", None, Takes::Nothing, DIFF),
];

/// Other arguments that cannot stand together; `file` is a file that is read.
pub(crate) const CONFLICTS: [(&str, &str); 15] = [
    ("text", "file"),
    ("partial", "path"),
    ("partial", "encode"),
    ("in-place", "text"),
    ("in-place", "offset"),
    ("in-place", "path"),
    ("in-place", "output"),
    ("in-place", "partial"),
    ("in-place", "elide"),
    ("in-place", "no-widths"),
    ("no-widths", "widths"),
    ("no-names", "as"),
    ("no-names", "names"),
    ("no-names", "names-as-keys"),
    ("no-notes", "names-as-keys"),
];

/// The command, whose help is the text as written.
pub(crate) fn command<'a>(alloc: Global) -> Result<Command<'a>, AllocError> {
    let mut command = Command::new(alloc, "cborcat")
        .version("0.2.0")
        .override_help(HELP)
        .override_usage("cborcat [OPTION]... [FILE]...");
    for option in &OPTIONS {
        command = command.arg(argument(alloc, *option))?;
    }
    let files = Arg::new(alloc, "file")
        .action(ArgAction::Append)
        .num_args(0..);
    command.arg(files)
}

/// The argument of an option.
fn argument<'a>(alloc: Global, option: Row<'a>) -> Arg<'a> {
    let (name, letter, takes, _) = option;
    let argument = taking(Arg::new(alloc, name).long(name), takes);
    match letter {
        Some(letter) => argument.short(letter),
        None => argument,
    }
}

/// The same argument, which takes this. Its values are checked once all arguments are known.
fn taking(argument: Arg<'_>, takes: Takes) -> Arg<'_> {
    match takes {
        Takes::Nothing => argument.action(ArgAction::SetTrue),
        Takes::Texts => argument.action(ArgAction::Append).allow_hyphen_values(true),
        Takes::Text => argument.action(ArgAction::Set).allow_hyphen_values(true),
        Takes::Length => or(argument, "32"),
        Takes::Rules => or(argument, "rfc8949"),
        _ => argument.action(ArgAction::Set),
    }
}

/// The same argument, whose value may be left out; it is this one then.
fn or<'a>(argument: Arg<'a>, value: &'a str) -> Arg<'a> {
    argument
        .action(ArgAction::Set)
        .num_args(0..=1)
        .require_equals(true)
        .default_missing_value(value)
}
