//! `Marks`: the list that the writer of a text adds its tokens to. It is shared while the text is
//! written, so it changes behind a `&`, and no clause says what it has.

use crate::kind::Kind;
use std::alloc::{AllocError, Global};
use std::cell::{Cell, RefCell};

/// A token of a text: what it is, and where it begins and ends.
#[derive(Clone, Copy, PartialEq, Eq, Debug)]
pub struct Token {
    pub kind: Kind,
    pub start: usize,
    pub end: usize,
}

/// The tokens of a text, in order. Adding one never fails: if memory runs out, [`Marks::take`] says
/// so.
#[derive(Drop)]
pub struct Marks {
    list: RefCell<Vec<Token>>,
    /// Where the text that is written next begins in all of the text.
    begins: Cell<usize>,
    /// Whether a mark is missing, because memory ran out.
    is_short: Cell<bool>,
}

impl Marks {
    /// Returns the marks of a text without tokens.
    pub fn new(alloc: Global) -> Marks {
        Marks {
            list: RefCell::new(Vec::new(alloc)),
            begins: Cell::new(0),
            is_short: Cell::new(false),
        }
    }

    /// Says where the text begins, in all of the text, that is written next.
    pub fn begin(&self, begins: usize) {
        self.begins.set(begins);
    }

    /// Returns where the text begins, in all of the text, that is written next.
    pub fn begins(&self) -> usize {
        self.begins.get()
    }

    /// Marks a token of the text that is written. What was marked from its start on is forgotten:
    /// that text was removed again.
    pub fn mark(&self, kind: Kind, start: usize, end: usize) {
        let begins = self.begins.get();
        let token = Token {
            kind,
            start: begins.saturating_add(start),
            end: begins.saturating_add(end),
        };
        match self.list.try_borrow_mut() {
            Ok(mut list) => {
                let list = &mut *list;
                forget_from(list, token.start);
                if list.push(token).is_err() {
                    self.is_short.set(true);
                }
            }
            Err(_) => self.is_short.set(true),
        }
    }

    /// Marks what was written from this place of a text on. The blanks and line ends around it are
    /// no part of it, and if there is nothing else, nothing is marked.
    pub fn mark_from(&self, kind: Kind, text: &str, start: usize) {
        let written = text.as_bytes().get(start..).unwrap_or(b"");
        let before = written.iter().take_while(|byte| is_gap(**byte)).count();
        let after = written.iter().rev().take_while(|byte| is_gap(**byte));
        let end = text.len().saturating_sub(after.count());
        let start = start.saturating_add(before);
        if start < end {
            self.mark(kind, start, end);
        }
    }

    /// Says that the token that was marked last goes on to this end.
    pub fn extend(&self, end: usize) {
        let end = self.begins.get().saturating_add(end);
        if let Ok(mut list) = self.list.try_borrow_mut()
            && let Some(last) = list.last_mut()
        {
            last.end = end;
        }
    }

    /// Says that the item that was written last is a key. It is one token, and comments, or it has
    /// members.
    pub fn mark_key(&self) {
        if let Ok(mut list) = self.list.try_borrow_mut() {
            for mark in list.iter_mut().rev() {
                if mark.kind.may_be_key() {
                    mark.kind = Kind::Key;
                }
                if mark.kind != Kind::Note {
                    return;
                }
            }
        }
    }

    /// Moves the marks to the end of a list. Fails if memory runs out, or if a mark is missing
    /// because it did before.
    pub fn take(&self, into: &mut Vec<Token>) -> Result<(), AllocError> {
        let was_short = self.is_short.replace(false);
        let Ok(mut list) = self.list.try_borrow_mut() else {
            return Err(AllocError);
        };
        into.extend_from_slice(&list)?;
        list.clear();
        if was_short { Err(AllocError) } else { Ok(()) }
    }
}

/// Whether a byte is a blank or a line feed.
fn is_gap(byte: u8) -> bool {
    byte == b' ' || byte == b'\n'
}

/// Forgets the marks of what is not before this place.
fn forget_from(list: &mut Vec<Token>, start: usize) {
    for _ in 0..list.len() {
        match list.last() {
            Some(last) if last.end > start => {}
            _ => return,
        }
        list.pop();
    }
}
