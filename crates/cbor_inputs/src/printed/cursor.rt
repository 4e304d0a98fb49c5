//! `Code`: a program from a place on, from which words and signs are taken.

use crate::text::byte_at;

/// A program from a place on.
#[derive(Clone, Copy)]
pub(super) struct Code<'a> {
    text: &'a [u8],
    /// How many bytes of the text are before it.
    pub at: usize,
}

impl<'a> Code<'a> {
    /// The beginning of a text.
    pub fn new(text: &'a [u8]) -> Code<'a> {
        Code { text, at: 0 }
    }

    /// What follows.
    pub fn rest(&self) -> &'a [u8] {
        self.text.get(self.at..).unwrap_or(b"")
    }

    /// The next byte, or 0 at the end.
    pub fn peek(&self) -> u8 {
        byte_at(self.text, self.at)
    }

    /// Passes this many bytes.
    pub fn pass(&mut self, count: usize) {
        self.at = self.at.saturating_add(count);
    }

    /// Passes a sign, if it follows, and returns whether it did.
    pub fn take(&mut self, sign: &[u8]) -> bool {
        let follows = self.rest().starts_with(sign);
        if follows {
            self.pass(sign.len());
        }
        follows
    }

    /// Passes letters, digits, `_` and `$`, and returns them.
    pub fn word(&mut self) -> &'a [u8] {
        let rest = self.rest();
        let count = rest.iter().take_while(|byte| is_word(**byte)).count();
        self.pass(count);
        rest.get(..count).unwrap_or(b"")
    }

    /// Passes blanks, line ends, also those behind `\`, and comments: `// ..`, `/* .. */`, `# ..`.
    pub fn skip_space(&mut self) {
        for _ in 0..u64::MAX {
            let rest = self.rest();
            let blanks = rest
                .iter()
                .take_while(|byte| byte.is_ascii_whitespace())
                .count();
            match blanks.max(comment_len(rest)) {
                0 => break,
                count => self.pass(count),
            }
        }
    }
}

/// Whether a byte is part of a word.
fn is_word(byte: u8) -> bool {
    byte.is_ascii_alphanumeric() || byte == b'_' || byte == b'$'
}

/// How many bytes the comment takes that begins a text, or the `\` before a line's end; else 0.
fn comment_len(text: &[u8]) -> usize {
    match (byte_at(text, 0), byte_at(text, 1)) {
        (b'#', _) | (b'/', b'/') => text.iter().take_while(|byte| **byte != b'\n').count(),
        (b'/', b'*') => block_len(text),
        (b'\\', 0 | b'\n' | b'\r') => 1,
        _ => 0,
    }
}

/// How many bytes a comment takes that ends with `*/`; else 0.
fn block_len(text: &[u8]) -> usize {
    for at in 2..text.len() {
        if byte_at(text, at) == b'*' && byte_at(text, at.saturating_add(1)) == b'/' {
            return at.saturating_add(2);
        }
    }
    0
}
