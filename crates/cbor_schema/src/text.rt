//! `Text`: a text that is put together of parts, numbers and cut texts.

use std::alloc::{AllocError, Global};
use std::fmt::Write;

/// A text of more characters than this is cut.
const LONGEST: usize = 60;

/// A text that notes whether memory ran out, for one look at the end.
#[derive(Drop)]
pub(crate) struct Text {
    text: String,
    failed: bool,
}

impl Text {
    /// Nothing is written yet.
    pub(crate) fn new(alloc: Global) -> Text {
        Text {
            text: String::new(alloc),
            failed: false,
        }
    }

    /// Whether nothing is written yet.
    pub(crate) fn is_empty(&self) -> bool {
        self.text.is_empty()
    }

    /// Notes that memory ran out.
    pub(crate) fn fail(&mut self) {
        self.failed = true;
    }

    /// The text, if all of it is there.
    pub(crate) fn done(self) -> Result<String, AllocError> {
        if self.failed {
            Err(AllocError)
        } else {
            Ok(self.text)
        }
    }

    /// Appends a text.
    pub(crate) fn push(&mut self, text: &str) {
        self.failed |= self.text.push_str(text).is_err();
    }

    /// Appends a word and a number.
    pub(crate) fn push_numbered(&mut self, word: &str, number: u64) {
        self.push(word);
        self.failed |= write!(self.text, "{number}").is_err();
    }

    /// Appends a number and what it counts: a word for one, which gets an s otherwise.
    pub(crate) fn push_count(&mut self, count: usize, word: &str) {
        self.push_numbered("", count as u64);
        self.push(word);
        if count != 1 {
            self.push("s");
        }
    }

    /// Appends a text, cut if it is long, without line ends.
    pub(crate) fn push_cut(&mut self, text: &str) {
        let mut len = 0usize;
        for c in text.chars() {
            if len >= LONGEST {
                self.push("..");
                return;
            }
            len = len.saturating_add(1);
            let c = if c == '\n' || c == '\r' { ' ' } else { c };
            self.failed |= self.text.push(c).is_err();
        }
    }
}
