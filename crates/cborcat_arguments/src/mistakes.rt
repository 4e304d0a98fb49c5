//! Says what is wrong with arguments, in one line: `refusal_of` what `clap` refused, and
//! `mistake_in` what is wrong with arguments that it took.

use crate::command::{CONFLICTS, OPTIONS, Takes};
use crate::outputs::{Outputs, WORDS, output_of, outputs_of};
use crate::values::push_choices;
use cbor_cddl::likeness;
use clap::error::ErrorKind;
use clap::{ArgMatches, Error};
use std::alloc::{AllocError, Global};

/// Why `clap` refused the arguments, and what to do.
pub(crate) fn refusal_of(alloc: Global, error: &Error) -> Result<String, AllocError> {
    let kind = error.kind();
    let message = format!(in alloc; "{error}")?;
    let word = match kind {
        ErrorKind::OutOfMemory => return Err(AllocError),
        ErrorKind::UnknownArgument => return unknown(alloc, word_in(&message).unwrap_or("")),
        _ => option_in(&message).unwrap_or("an option"),
    };
    match kind {
        ErrorKind::InvalidValue => {
            format!(in alloc; "{word} needs a value: cborcat --help says which")
        }
        ErrorKind::TooManyValues => format!(in alloc; "{word} takes no value: leave it out"),
        ErrorKind::ArgumentConflict => format!(in alloc; "{word} is given twice: give it once"),
        _ => String::from_str(alloc, "wrong arguments: cborcat --help lists all options"),
    }
}

/// The word that a message of `clap` is about: what its first line has between apostrophes.
fn word_in(message: &str) -> Option<&str> {
    let (line, _) = message.split_once("\n").unwrap_or((message, ""));
    let (before, _) = line.rsplit_once("'")?;
    let (_, word) = before.split_once("'")?;
    Some(word)
}

/// The option that a message of `clap` is about: what its first line has between the last two
/// apostrophes, without what stands for a value, as in `'--from <from>'` and `'--check[=<check>]'`.
fn option_in(message: &str) -> Option<&str> {
    let (line, _) = message.split_once("\n").unwrap_or((message, ""));
    let (before, _) = line.rsplit_once("'")?;
    let (_, shown) = before.rsplit_once("'")?;
    let (shown, _) = shown.split_once(" ").unwrap_or((shown, ""));
    let (option, _) = shown.split_once("[").unwrap_or((shown, ""));
    Some(option)
}

/// Says that there is no such option, and names one that looks like it.
fn unknown(alloc: Global, word: &str) -> Result<String, AllocError> {
    match similar(word) {
        Some(option) => format!(in alloc; "there is no option {word:?}: did you mean --{option}?"),
        None => format!(in alloc; "there is no option {word:?}: cborcat --help lists all options"),
    }
}

/// The option that looks most like a word.
fn similar(word: &str) -> Option<&'static str> {
    let name = word.strip_prefix("--")?;
    let mut least = usize::MAX;
    let mut best = None;
    for (option, _, _, _) in &OPTIONS {
        if let Some(changed) = likeness(option.as_bytes(), name.as_bytes())
            && changed < least
        {
            least = changed;
            best = Some(*option);
        }
    }
    best
}

/// What is wrong with arguments that `clap` took, if anything is: a value, an option that has
/// no effect on the output, or two arguments that cannot be used together.
pub(crate) fn mistake_in(
    alloc: Global,
    matches: &ArgMatches,
) -> Result<Option<String>, AllocError> {
    for (option, _, takes, _) in &OPTIONS {
        if *takes != Takes::Nothing
            && let Some(value) = matches.get_str(*option)
            && !takes.accepts(value)
        {
            return Ok(Some(wrong_value(alloc, *option, *takes, value)?));
        }
    }
    let outputs = outputs_of(matches);
    for (option, _, _, good) in &OPTIONS {
        if *good & outputs == 0 && is_given(matches, *option) {
            return Ok(Some(misused(alloc, *option, *good, output_of(matches))?));
        }
    }
    for (one, other) in &CONFLICTS {
        if is_given(matches, *one) && is_given(matches, *other) {
            return Ok(Some(conflict(alloc, *one, *other)?));
        }
    }
    Ok(None)
}

/// The most outputs that a message lists.
const MOST: usize = 6;

/// Says which outputs an option is for, or that it is not for this one.
fn misused(
    alloc: Global,
    option: &str,
    good: Outputs,
    output: Outputs,
) -> Result<String, AllocError> {
    let mut words = Vec::new(alloc);
    let mut asked = None;
    for (bit, word) in &WORDS {
        if *bit & good != 0 {
            words.push(*word)?;
        }
        if *bit == output {
            asked = Some(*word);
        }
    }
    if words.len() > MOST {
        return cannot_meet(alloc, option, asked.unwrap_or("this output"));
    }
    let mut said = format!(in alloc; "--{option} is for ")?;
    push_choices(&mut said, &words)?;
    Ok(said)
}

/// Says which values an option takes.
fn wrong_value(
    alloc: Global,
    option: &str,
    takes: Takes,
    value: &str,
) -> Result<String, AllocError> {
    let mut said = format!(in alloc; "--{option} takes ")?;
    takes.push_words(&mut said)?;
    write!(said, ", and not {value:?}")?;
    Ok(said)
}

/// Whether an option, or a file, is among the arguments.
fn is_given(matches: &ArgMatches, name: &str) -> bool {
    for (option, _, takes, _) in &OPTIONS {
        if *option == name && *takes == Takes::Nothing {
            return matches.get_flag(name);
        }
    }
    matches.get_strs(name).is_some()
}

/// Says that two arguments cannot be used together.
fn conflict(alloc: Global, one: &str, other: &str) -> Result<String, AllocError> {
    if other == "file" {
        return cannot_meet(alloc, one, "a FILE");
    }
    let other = format!(in alloc; "--{other}")?;
    cannot_meet(alloc, one, &other)
}

/// Says that an option and another argument, in the words of messages, cannot be used together.
fn cannot_meet(alloc: Global, option: &str, other: &str) -> Result<String, AllocError> {
    format!(in alloc; "--{option} and {other} cannot be used together: leave one of them out")
}
