//! `Path`: a path to an item, built step by step as a text that `cborcat -p` reads: indices, keys,
//! `@` and `*`.

use cbor_edn_grammar::error::EdnError;
use cbor_edn_reader::edn_item_to_bytes;
use cbor_edn_writer::bytes_to_edn;
use cbor_grammar::Error;
use cbor_grammar::argument::Argument;
use cbor_grammar::head::ItemHead;
use cbor_grammar::strings::StringKind;
use cbor_tokens::is_shown;
use cbor_trace::head_at;
use std::alloc::{AllocError, Global};
use std::fmt::Write;

/// A path to an item. Tags take no step.
#[derive(Drop)]
pub struct Path {
    text: String,
    /// A key of more bytes of notation than this is named by its place.
    longest: usize,
}

impl Path {
    /// The path to the outermost item.
    pub fn new(alloc: Global, longest: usize) -> Path {
        Path {
            text: String::new(alloc),
            longest,
        }
    }

    /// The path, or `/` for the outermost item, which `-p` reads so.
    pub fn as_str(&self) -> &str {
        if self.text.is_empty() {
            "/"
        } else {
            &self.text
        }
    }

    /// Whether it leads to the outermost item.
    pub fn is_empty(&self) -> bool {
        self.text.is_empty()
    }

    /// What its memory is taken from.
    pub fn allocator(&self) -> Global {
        *self.text.allocator()
    }

    /// How many bytes it has.
    pub fn len(&self) -> usize {
        self.text.len()
    }

    /// The path as it was when it had this many bytes.
    pub fn first(&self, len: usize) -> &str {
        self.text.get(..len).unwrap_or("")
    }

    /// Makes it the path that it was when it had this many bytes.
    pub fn cut(&mut self, len: usize) {
        if self.text.is_char_boundary(len) {
            self.text.truncate(len);
        }
    }

    /// Appends a `/` if a step is there.
    fn push_slash(&mut self) -> Result<(), AllocError> {
        if self.text.is_empty() {
            return Ok(());
        }
        self.text.push('/')
    }

    /// Appends the step to the member of an array at this index.
    pub fn push_index(&mut self, index: usize) -> Result<(), AllocError> {
        self.push_slash()?;
        write!(self.text, "{index}")
    }

    /// Appends the step to each member.
    pub fn push_each(&mut self) -> Result<(), AllocError> {
        self.push_slash()?;
        self.text.push('*')
    }

    /// Appends the step to the item that a byte string encodes, or to the one of several at that
    /// byte of the string.
    pub fn push_inside(&mut self, byte: Option<usize>) -> Result<(), AllocError> {
        self.push_slash()?;
        match byte {
            Some(byte) => write!(self.text, "@{byte}"),
            None => self.text.push('@'),
        }
    }

    /// Appends the step to the value of a key, which begins at that byte of the data.
    /// A key that is no item is named by its place, as a long one is.
    pub fn push_key(&mut self, key: &[u8], byte: usize) -> Result<(), AllocError> {
        self.push_slash()?;
        let alloc = self.allocator();
        if let Some(word) = plain_word(alloc, key)?
            && word.len() <= self.longest
        {
            return self.text.push_str(word);
        }
        match bytes_to_edn(alloc, key) {
            Ok(edn) if edn.len() <= self.longest => push_step(&mut self.text, &edn),
            Err(Error::Memory) => Err(AllocError),
            _ => write!(self.text, "(key at byte {byte})"),
        }
    }
}

/// Appends the beginning of a path in an item that this many items of the data come before: nothing
/// for the first.
pub(crate) fn push_number(out: &mut String, number: usize) -> Result<(), AllocError> {
    match number {
        0 => Ok(()),
        _ => write!(out, "{number}:"),
    }
}

/// The content of a text of definite length.
fn text_of(key: &[u8]) -> Option<&str> {
    let (head, place) = head_at(key, 0)?;
    match head {
        ItemHead::String(StringKind::Text, Argument::Number(..)) => {
            str::from_utf8(key.get(place..)?).ok()
        }
        _ => None,
    }
}

/// Whether a character stands for itself in a step.
fn is_plain(c: char) -> bool {
    !(c.is_whitespace() || c == '"' || c == '/' || c == '\'')
}

/// Whether a text begins as a path in an item does that is not the first: with digits and a colon.
fn begins_with_number(text: &str) -> bool {
    let digits = text.bytes().take_while(|byte| byte.is_ascii_digit());
    let count = digits.count();
    count > 0 && text.as_bytes().get(count) == Some(&b':')
}

/// The text that a key is, if it is a step as it is: no notation, and without blanks.
fn plain_word(alloc: Global, key: &[u8]) -> Result<Option<&str>, AllocError> {
    let Some(text) = text_of(key) else {
        return Ok(None);
    };
    let is_mark = text == "*" || text.starts_with('@') || text.starts_with('(');
    if text.is_empty() || is_mark || begins_with_number(text) || !is_shown(false, text.as_bytes()) {
        return Ok(None);
    }
    for c in text.chars() {
        if !is_plain(c) {
            return Ok(None);
        }
    }
    match edn_item_to_bytes(alloc, text) {
        Ok(_) => Ok(None),
        Err(EdnError::Memory) => Err(AllocError),
        Err(_) => Ok(Some(text)),
    }
}

/// Appends notation as a step, in which each quote begins or ends a text.
fn push_step(out: &mut String, edn: &str) -> Result<(), AllocError> {
    let mut escaped = false;
    for c in edn.chars() {
        if escaped && c == '"' {
            out.push_str("\\u0022")?;
        } else if escaped {
            out.push('\\')?;
            out.push(c)?;
        } else if c != '\\' {
            out.push(c)?;
        }
        escaped = c == '\\' && !escaped;
    }
    Ok(())
}
