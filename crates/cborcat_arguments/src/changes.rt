//! Reads the values of `--set` and `--delete` as changes of items (`Change`), or says what is wrong
//! with a value.

use crate::words::item_of;
use cbor_inputs::{Input, Refusal};
use cbor_inspect::{End, Step, skip_items, steps_of};
use clap::ArgMatches;
use std::alloc::{AllocError, Global};

/// A change of each item, or of one.
#[derive(Drop)]
pub struct Change<'a> {
    /// The number of the item that is changed alone, counted from 0.
    pub item: Option<usize>,
    /// The path as it was given, without the number of an item before it.
    pub path: &'a str,
    /// Its steps; none for the whole item.
    pub steps: Vec<Step>,
    /// The last of them if it is a plain word, which may be a name.
    pub word: Option<&'a str>,
    /// The bytes of what it is set to; `None` if it is deleted.
    pub part: Option<Vec<u8>>,
}

/// Why an argument asks for no change.
pub(crate) enum Wrong {
    /// Memory ran out.
    Memory,
    /// A message says why.
    Said,
}

impl From<AllocError> for Wrong {
    fn from(_: AllocError) -> Wrong {
        Wrong::Memory
    }
}

/// The changes that the arguments ask for, in their order. Says what is wrong with one.
pub(crate) fn changes_of<'a>(
    rt: &HostRuntime,
    matches: &ArgMatches<'a>,
) -> Result<Vec<Change<'a>>, Wrong> {
    let mut changes = Vec::new(rt.alloc());
    let (mut set, mut delete) = (0usize, 0usize);
    for _ in 0..u64::MAX {
        let is_set = match (
            place_at(matches, "set", set),
            place_at(matches, "delete", delete),
        ) {
            (Some(at), Some(other)) => at < other,
            (Some(_), None) => true,
            (None, Some(_)) => false,
            (None, None) => break,
        };
        let change = if is_set {
            set_of(rt, text_at(matches, "set", set))?
        } else {
            delete_of(rt, text_at(matches, "delete", delete))?
        };
        push_change(&mut changes, change)?;
        if is_set {
            set = set.saturating_add(1);
        } else {
            delete = delete.saturating_add(1);
        }
    }
    Ok(changes)
}

/// The place among the arguments of a value of an option.
fn place_at(matches: &ArgMatches, option: &str, index: usize) -> Option<usize> {
    matches.indices_of(option)?.get(index).copied()
}

/// A value of an option.
fn text_at<'a>(matches: &ArgMatches<'a>, option: &str, index: usize) -> &'a str {
    match matches.get_strs(option) {
        Some(texts) => texts.get(index).copied().unwrap_or(""),
        None => "",
    }
}

/// Appends a change.
fn push_change<'a>(changes: &mut Vec<Change<'a>>, change: Change<'a>) -> Result<(), AllocError> {
    changes.push(change)?;
    Ok(())
}

/// What `--set` asks for.
fn set_of<'a>(rt: &HostRuntime, text: &'a str) -> Result<Change<'a>, Wrong> {
    let alloc = rt.alloc();
    if let Some((path, edn)) = split(text)
        && let Some(change) = change_at(alloc, path)?
    {
        let part = Some(item_in(rt, path, edn)?);
        return Ok(Change { part, ..change });
    }
    let _ = eprintln!(rt; "cborcat: --set: expected a path, = and EDN, as in 1/exp=1700000000");
    Err(Wrong::Said)
}

/// What `--delete` asks for.
fn delete_of<'a>(rt: &HostRuntime, path: &'a str) -> Result<Change<'a>, Wrong> {
    if let Some(change) = change_at(rt.alloc(), path)? {
        return Ok(change);
    }
    let _ = eprintln!(rt; "cborcat: --delete: expected a path, as in 1/exp");
    Err(Wrong::Said)
}

/// The deletion of what a path leads to, unless that is every item.
fn change_at(alloc: Global, path: &str) -> Result<Option<Change<'_>>, AllocError> {
    let (item, path) = item_of(path);
    let Ok(steps) = steps_of(alloc, path) else {
        return Err(AllocError);
    };
    if item.is_none() && steps.is_empty() {
        return Ok(None);
    }
    let word = word_of(alloc, path, &steps)?;
    Ok(Some(Change {
        item,
        path,
        steps,
        word,
        part: None,
    }))
}

/// The word that a path ends with, if it is a plain one: in quotes it would be the same step.
fn word_of<'a>(
    alloc: Global,
    path: &'a str,
    steps: &[Step],
) -> Result<Option<&'a str>, AllocError> {
    let path = path.strip_suffix("/").unwrap_or(path);
    let (_, word) = path.rsplit_once("/").unwrap_or(("", path));
    let quoted = format!(in alloc; "\"{word}\"")?;
    let Ok(same) = steps_of(alloc, &quoted) else {
        return Err(AllocError);
    };
    match (steps.last(), same.last()) {
        (Some(Step::Key(key)), Some(Step::Key(text))) if key.as_slice() == text.as_slice() => {
            Ok(Some(word))
        }
        _ => Ok(None),
    }
}

/// The path and the EDN of a text: before and after the first `=` that is not between quotes.
fn split(text: &str) -> Option<(&str, &str)> {
    let mut quoted = false;
    for (index, byte) in text.as_bytes().iter().enumerate() {
        if *byte == b'"' {
            quoted = !quoted;
        }
        if *byte == b'=' && !quoted {
            return Some((text.get(..index)?, text.get(index.checked_add(1)?..)?));
        }
    }
    None
}

/// The bytes of the one item that EDN is.
fn item_in(rt: &HostRuntime, path: &str, edn: &str) -> Result<Vec<u8>, Wrong> {
    let bytes = match Input::Diag.decode(rt.alloc(), edn.as_bytes()) {
        Ok(bytes) => bytes,
        Err(Refusal::Memory) => return Err(Wrong::Memory),
        Err(refusal) => {
            say_refused(rt, path, edn, refusal);
            return Err(Wrong::Said);
        }
    };
    let shown = skip_items(&bytes, true);
    if shown.end == End::Full && shown.used == bytes.len() {
        return Ok(bytes);
    }
    let _ = eprintln!(rt; "cborcat: --set {path}: expected exactly one item after the =");
    Err(Wrong::Said)
}

/// Says why a text is no EDN.
fn say_refused(rt: &HostRuntime, path: &str, edn: &str, refusal: Refusal) {
    let (expected, at) = match refusal {
        Refusal::Diag { expected, at } => (expected, at),
        _ => return,
    };
    let rest = edn.as_bytes().get(at..).unwrap_or(b"");
    let words = expected.in_text(rest);
    let column = at.saturating_add(1);
    let _ = eprintln!(rt; "cborcat: --set {path}: at byte {column} of the EDN: {words}");
}
