//! `Marked`: a text with its marks. Its call `next_piece` hands out the text piece by piece: the
//! tokens, and what is between them. `MarkedText` is a text that is written, with its marks.
ghost use Rattle.std.specs.Prelude.{◌≡◌, ◌⊎◌, ◌<◌, ◌≤◌, ◌++◌, [], length, codes};
ghost use Rattle.std.specs.Prelude.{OnOk, IfSome, IfNone, IsTrue};
ghost use Rattle.cbor_marks.specs.Lines.{Lacks};
ghost use Rattle.cbor_marks.specs.Remaining.{rest_of};

use crate::kind::Kind;
use crate::marks::Token;
use memchr::memchr;
use std::alloc::{AllocError, Global};

/// What remains of a text, with its marks.
#[derive(Clone, Copy)]
pub struct Marked<'a> {
    /// What remains.
    text: &'a [u8],
    /// Where that begins in all of the text.
    begins: usize,
    /// The marks of what remains, and maybe others before them.
    marks: &'a [Token],
}

/// Whether a text has no line feed.
fn is_in_line(text: &[u8]) -> bool
    ensures { IsTrue result → Lacks 10 text.now }
{
    memchr(b'\n', text).is_none()
}

/// Where the first line ends that has this many bytes or more, with those before it: after its line
/// feed, or at the text's end.
fn lines_end(text: &[u8], least: usize) -> usize
    ensures within { result ≤ length text.now }
    ensures some { 0 < length text.now → 0 < result }
{
    let from = least.saturating_sub(1).min(text.len());
    match memchr(b'\n', &text[from..]) {
        Some(at) => from.saturating_add(at).saturating_add(1).min(text.len()),
        None => text.len(),
    }
}

impl<'a> Marked<'a> {
    /// Returns a text with its marks, whose places count from its begin. They may be wrong.
    pub fn new(text: &'a [u8], marks: &'a [Token]) -> Marked<'a>
        ensures { rest_of result ≡ text.now }
    {
        Marked {
            text,
            begins: 0,
            marks,
        }
    }

    /// Returns what remains of the text.
    pub fn rest(&self) -> &'a [u8]
        ensures { result.now ≡ rest_of self.now }
    {
        self.text
    }

    /// Takes the next piece off the front of the text: a token, with its kind, or what is before
    /// the next token. It is never empty. None if nothing remains.
    ///
    /// ```rust
    /// use cbor_marks::{Kind, Marked, Token};
    ///
    /// let token = Token {
    ///     kind: Kind::Number,
    ///     start: 1,
    ///     end: 3,
    /// };
    /// let marks = [token];
    /// let mut text = Marked::new(b"[12]", &marks);
    /// let kind = Some(Kind::Number);
    /// assert_eq!(rt; text.next_piece(), Some((None, b"[".as_slice())));
    /// assert_eq!(rt; text.next_piece(), Some((kind, b"12".as_slice())));
    /// assert_eq!(rt; text.rest(), b"]".as_slice());
    /// ```
    pub fn next_piece(&mut self) -> Option<(Option<Kind>, &'a [u8])>
        // Nothing is lost: the pieces are the text.
        ensures piece { IfSome result (λ next.
            rest_of self.old ≡ next.1.now ++ rest_of self.new) }
        ensures some { IfSome result (λ next. 0 < length next.1.now) }
        ensures none { IfNone result (rest_of self.old ≡ []) }

        // No token has a line feed, whatever the marks say.
        ensures line { IfSome result (λ next. IfSome next.0 (λ _. Lacks 10 next.1.now)) }
    {
        if self.text.is_empty() {
            return None;
        }
        self.pass_marks();
        let (kind, len) = self.next_len();
        let piece = self.take(len);
        let kind = kind_within(kind, piece);
        Some((kind, piece))
    }

    /// Goes past the marks of tokens that do not begin in what remains, or have no bytes.
    fn pass_marks(&mut self)
        ensures { rest_of self.new ≡ rest_of self.old }
    {
        'marks: while let Some(mark) = self.marks.first() {
            if mark.start >= self.begins && mark.end > mark.start {
                return;
            }
            self.marks = &self.marks[1..];
        }
    }

    /// How long the next piece is, and what it is by its mark.
    fn next_len(&self) -> (Option<Kind>, usize)
        requires { 0 < length (rest_of self.now) }
        ensures some { 0 < result.1 }
        ensures within { result.1 ≤ length (rest_of self.now) }
    {
        let rest = self.text.len();
        match self.marks.first() {
            None => (None, rest),
            Some(mark) if mark.start > self.begins => (None, (mark.start - self.begins).min(rest)),
            Some(mark) => {
                let len = mark.end.saturating_sub(self.begins);
                (Some(mark.kind), len.clamp(1, rest))
            }
        }
    }

    /// Takes bytes off the front.
    fn take(&mut self, len: usize) -> &'a [u8]
        requires { len ≤ length (rest_of self.old) }
        ensures taken { rest_of self.old ≡ result.now ++ rest_of self.new }
        ensures len { length result.now ≡ len }
    {
        let (piece, rest) = self.text.split_at(len);
        self.text = rest;
        self.begins = self.begins.saturating_add(len);
        piece
    }

    /// Goes past the blank that the text begins with, if it does.
    pub fn skip_blank(&mut self)
        ensures { (rest_of self.new ≡ rest_of self.old)
            ⊎ (rest_of self.old ≡ codes " " ++ rest_of self.new) }
    {
        if !self.text.is_empty() && self.text[0] == b' ' {
            self.take(1);
        }
    }

    /// Takes whole lines off the front, with at least this many bytes or all that remain, so that
    /// a long text can be shown block by block.
    pub fn take_lines(&mut self, least: usize) -> Marked<'a>
        // Nothing is lost: the blocks are the text.
        ensures lines { rest_of self.old ≡ rest_of result ++ rest_of self.new }
        ensures some { 0 < length (rest_of self.old) → 0 < length (rest_of result) }
    {
        let end = lines_end(self.text, least);
        let begins = self.begins;
        let marks = self.marks;
        let text = self.take(end);
        self.pass_marks();
        Marked {
            text,
            begins,
            marks,
        }
    }
}

/// The kind of a piece, unless it has a line feed.
fn kind_within(kind: Option<Kind>, piece: &[u8]) -> Option<Kind>
    ensures { IfSome result (λ _. Lacks 10 piece.now) }
{
    match kind {
        Some(kind) if is_in_line(piece) => Some(kind),
        _ => None,
    }
}

/// A text that is written, with its marks.
#[derive(Drop)]
pub struct MarkedText {
    pub text: Vec<u8>,
    /// The marks of its tokens, in order.
    pub marks: Vec<Token>,
}

impl MarkedText {
    /// Returns a text without bytes.
    pub fn new(alloc: Global) -> MarkedText
        ensures { result.text.items ≡ [] }
    {
        MarkedText {
            text: Vec::new(alloc),
            marks: Vec::new(alloc),
        }
    }

    /// Appends a piece, and marks it if it has a kind.
    pub fn push(&mut self, kind: Option<Kind>, piece: &[u8]) -> Result<(), AllocError>
        ensures { OnOk result (self.new.text.items ≡ self.old.text.items ++ piece.now) }
    {
        let start = self.text.len();
        self.text.extend_from_slice(piece)?;
        match kind {
            Some(kind) => self.mark_from(kind, start),
            None => Ok(()),
        }
    }

    /// Marks what was appended since the text had this many bytes as one token.
    pub fn mark_from(&mut self, kind: Kind, start: usize) -> Result<(), AllocError>
        ensures { self.new.text.items ≡ self.old.text.items }
    {
        let end = self.text.len();
        self.marks.push(Token { kind, start, end })?;
        Ok(())
    }

    /// Returns the text with its marks, as `next_piece` reads them.
    pub fn marked(&self) -> Marked<'_>
        ensures { rest_of result ≡ self.now.text.items }
    {
        Marked::new(&self.text, &self.marks)
    }
}
