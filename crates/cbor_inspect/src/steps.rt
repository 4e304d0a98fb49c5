//! `steps_of` reads the text of a path as its steps: indices, keys, `@` and `*`.
ghost use Rattle.std.specs.Prelude.{◌≡◌, IfErr};

use cbor_bytes::write::push_head;
use cbor_edn_grammar::error::EdnError;
use cbor_edn_reader::edn_item_to_bytes;
use cbor_grammar::major::Major;
use cbor_grammar::{Error, IntegerWidth};
use cbor_paths::Step;
use std::alloc::{AllocError, Global};

/// A path as far as it was read.
#[derive(Drop)]
struct PathReader {
    /// The steps of the words that are whole.
    steps: Vec<Step>,
    /// What was read of the next word.
    word: String,
    /// Whether that is between quotes.
    quoted: bool,
}

impl PathReader {
    /// Reads the next character.
    fn read(&mut self, alloc: Global, c: char) -> Result<(), Error>
        ensures refused { IfErr result (λ e. e ≡ Error.Memory) }
    {
        if c == '/' && !self.quoted {
            return self.end_word(alloc);
        }
        if c == '"' {
            self.quoted = !self.quoted;
        }
        self.word.push(c)?;
        Ok(())
    }

    /// Ends a word; the empty one is no step.
    fn end_word(&mut self, alloc: Global) -> Result<(), Error>
        ensures refused { IfErr result (λ e. e ≡ Error.Memory) }
    {
        if !self.word.is_empty() {
            let step = step_of(alloc, &self.word)?;
            self.steps.push(step)?;
            self.word.clear();
        }
        Ok(())
    }
}

/// Reads a path: steps joined by `/`. A step is `@`, `@` and a decimal number, `*`, EDN, or a plain
/// word, which is a text. A `/` between quotes joins nothing. An empty step is none, so the empty
/// path has no steps. The only error is `Memory`.
///
/// ```rust
/// use cbor_inspect::steps_of;
///
/// assert_eq!(rt; steps_of(alloc, "2/@/1")?.len(), 3);
/// assert_eq!(rt; steps_of(alloc, "authData/@71")?.len(), 2);
/// ```
pub fn steps_of(alloc: Global, path: &str) -> Result<Vec<Step>, Error>
    ensures refused { IfErr result (λ e. e ≡ Error.Memory) }
{
    let mut reader = PathReader {
        steps: Vec::new(alloc),
        word: String::new(alloc),
        quoted: false,
    };
    for c in path.chars() {
        reader.read(alloc, c)?;
    }
    reader.end_word(alloc)?;
    Ok(reader.steps)
}

/// The step that a word is, which is not empty.
fn step_of(alloc: Global, word: &str) -> Result<Step, Error>
    ensures refused { IfErr result (λ e. e ≡ Error.Memory) }
{
    match mark_of(word) {
        Some(mark) => Ok(mark),
        None => Ok(Step::Key(key_of(alloc, word)?)),
    }
}

/// The step that a word is if it is no key: `@`, `@` and a decimal number, or `*`.
fn mark_of(word: &str) -> Option<Step> {
    if word == "*" {
        return Some(Step::Each);
    }
    let digits = word.strip_prefix('@')?;
    if digits.is_empty() {
        return Some(Step::Inside);
    }
    if !is_number(digits) {
        return None;
    }
    // No byte string has as many bytes as a number that is out of range.
    match digits.parse::<usize>() {
        Ok(byte) => Some(Step::InsideAt(byte)),
        Err(_) => Some(Step::InsideAt(usize::MAX)),
    }
}

/// Whether a text is decimal digits.
fn is_number(text: &str) -> bool {
    for digit in text.as_bytes() {
        if !digit.is_ascii_digit() {
            return false;
        }
    }
    !text.is_empty()
}

/// The bytes of the key that a word is: EDN, or else a text.
fn key_of(alloc: Global, word: &str) -> Result<Vec<u8>, Error>
    ensures refused { IfErr result (λ e. e ≡ Error.Memory) }
{
    match edn_item_to_bytes(alloc, word) {
        Ok(key) => Ok(key),
        Err(EdnError::Memory) => Err(Error::Memory),
        Err(_) => Ok(text_key(alloc, word)?),
    }
}

/// The bytes of a text.
fn text_key(alloc: Global, text: &str) -> Result<Vec<u8>, AllocError> {
    let mut key = Vec::new(alloc);
    push_head(
        &mut key,
        Major::Text,
        text.len() as u64,
        IntegerWidth::Unknown,
    )?;
    key.extend_from_slice(text.as_bytes())?;
    Ok(key)
}
