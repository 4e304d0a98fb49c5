//! `--diff`: compares the items of two inputs, and writes a line for each difference.

use crate::compared::{Compared, Noted};
use crate::output::{Output, Written};
use crate::views::Views;
use crate::window::windows_of;
use cbor_diff::{Change, Comparison, Difference, Match, differences, pairs};
use cbor_edn_writer::{EdnStyle, NotedStyle, push_bytes_to_edn_noted};
use cbor_grammar::Error;
use cbor_notes::Note;
use cbor_trace::Span;
use std::alloc::AllocError;

impl Views<'_> {
    /// Compares items, and writes what differs. Returns how that was written, and whether something
    /// differs.
    pub fn write_differences<O: Output>(
        self,
        target: &mut O,
        old: &Compared<'_>,
        new: &Compared<'_>,
    ) -> Result<(Written, bool), Error> {
        let found = pairs(self.rt.alloc(), &old.bytes, &new.bytes, self.job.exact)?;
        for pair in &found {
            match self.write_pair(target, (old, new), *pair)? {
                Written::Whole => {}
                end => return Ok((end, true)),
            }
        }
        Ok((Written::Whole, !found.is_empty()))
    }

    /// Writes what differs between two items, or an item that one input alone has.
    fn write_pair<O: Output>(
        self,
        target: &mut O,
        inputs: (&Compared<'_>, &Compared<'_>),
        pair: Match,
    ) -> Result<Written, Error> {
        let alloc = self.rt.alloc();
        let (first, second) = match pair {
            Match::Both(old, new) => (Some(old), Some(new)),
            Match::Old(old) => (Some(old), None),
            Match::New(new) => (None, Some(new)),
        };
        let notes = inputs.0.notes_of(alloc, first)?;
        let old = inputs.0.noted(first, &notes)?;
        let others = inputs.1.notes_of(alloc, second)?;
        let new = inputs.1.noted(second, &others)?;
        let mut lines = Vec::new(alloc);
        for difference in &self.found(&old, &new)? {
            self.push_line(&mut lines, difference, (&old, &new))?;
        }
        Ok(target.write(self.rt, &lines))
    }

    /// What differs between two items. One of them may be missing.
    fn found(self, old: &Noted<'_>, new: &Noted<'_>) -> Result<Vec<Difference>, AllocError> {
        let alloc = self.rt.alloc();
        let change = match (old.bytes.is_empty(), new.bytes.is_empty()) {
            (false, false) => {
                let how = Comparison {
                    exact: self.job.exact,
                    old: old.side(self.job),
                    new: new.side(self.job),
                };
                return differences(alloc, old.bytes, new.bytes, how);
            }
            (true, _) => Change::Added,
            (false, true) => Change::Removed,
        };
        let mut found = Vec::new(alloc);
        found.push(Difference {
            change,
            path: String::from_str(alloc, "/")?,
            is_named: false,
            old: all_of(old.bytes),
            new: all_of(new.bytes),
        })?;
        Ok(found)
    }

    /// Appends the line of a difference.
    fn push_line(
        self,
        line: &mut Vec<u8>,
        difference: &Difference,
        sides: (&Noted<'_>, &Noted<'_>),
    ) -> Result<(), Error> {
        let (old, new) = sides;
        let path = match difference.change {
            Change::Added => self.path_of(difference, new)?,
            _ => self.path_of(difference, old)?,
        };
        line.extend_from_slice(mark_of(difference.change).as_bytes())?;
        self.screen.push_path(line, &path)?;
        let (first, second) = (
            difference.old.bytes(old.bytes),
            difference.new.bytes(new.bytes),
        );
        if let Some((window, other)) = windows_of(first, second) {
            window.push(line, self.screen)?;
            line.extend_from_slice(b" -> ")?;
            other.push(line, self.screen)?;
        } else {
            self.push_item(line, old, (difference.old, difference.is_named))?;
            if !first.is_empty() && !second.is_empty() {
                line.extend_from_slice(b" -> ")?;
            }
            self.push_item(line, new, (difference.new, difference.is_named))?;
        }
        line.push(b'\n')?;
        Ok(())
    }

    /// The path of a difference in the input of one side, and two blanks.
    fn path_of(self, difference: &Difference, side: &Noted<'_>) -> Result<String, AllocError> {
        let (mut path, steps) = (String::new(self.rt.alloc()), difference.path.as_str());
        if side.number > 0 {
            write!(path, "{}:", side.number)?;
        }
        path.push_str(side.path)?;
        if !side.path.is_empty() && steps != "/" {
            path.push('/')?;
        }
        if side.path.is_empty() || steps != "/" {
            path.push_str(steps)?;
        }
        path.push_str("  ")?;
        Ok(path)
    }

    /// Appends a part of an item in EDN on one line, if it is there, with its notes. The name before
    /// it is left out if the path ends with it.
    fn push_item(
        self,
        line: &mut Vec<u8>,
        item: &Noted<'_>,
        part: (Span, bool),
    ) -> Result<(), Error> {
        let (span, is_named) = part;
        if span.len() == 0 {
            return Ok(());
        }
        let alloc = self.rt.alloc();
        let mut notes = Vec::new(alloc);
        let (Ok(first) | Err(first)) = item
            .notes
            .binary_search_by(|note| note.start.cmp(&span.start));
        for note in item.notes.iter().skip(first) {
            if note.start >= span.end {
                break;
            }
            let is_step = is_named && note.start == span.start;
            notes.push(Note {
                start: note.start.saturating_sub(span.start),
                before: if is_step { "" } else { note.before },
                ..*note
            })?;
        }
        let marks = self.screen.edn_marks();
        if let Some(marks) = marks {
            marks.begin(0);
        }
        let noted = NotedStyle {
            style: self.line_style(),
            notes: &notes,
            marks,
        };
        let mut text = String::new(alloc);
        push_bytes_to_edn_noted(alloc, span.bytes(item.bytes), noted, &mut text)?;
        self.screen.push_edn(line, text.as_bytes())?;
        Ok(())
    }

    /// On one line, with notes if there are to be any.
    fn line_style(self) -> EdnStyle {
        let style = self.job.show.style;
        EdnStyle {
            notes: style.notes,
            lines: false,
            ..style.edn()
        }
    }
}

/// All of these bytes.
fn all_of(bytes: &[u8]) -> Span {
    Span {
        start: 0,
        end: bytes.len(),
    }
}

/// What the line of a change begins with.
fn mark_of(change: Change) -> &'static str {
    match change {
        Change::Changed => "~ ",
        Change::Added => "+ ",
        Change::Removed => "- ",
        Change::Encoding => "= but for its encoding: ",
    }
}
