//! `Misfit`: where and why an item does not fit a schema, with its message. `Others`: how many
//! alternatives of a choice came less far than the one that is reported, with the words for that.

use cbor_cddl::Span;
use std::alloc::AllocError;
use std::fmt::Write;

/// Why an item does not fit.
#[derive(Drop)]
pub struct Misfit {
    /// The byte of the item where it does not fit.
    pub place: usize,
    /// The path to that, as `-p` takes it; empty for the outermost item.
    pub path: String,
    /// Whether that is an item in a byte string.
    pub is_inside: bool,
    /// What the schema wants there.
    pub expected: String,
    /// The innermost rule or entry that wants it.
    pub name: String,
    /// Where that is in the source of the schema.
    pub name_place: usize,
    /// What is there.
    pub found: String,
    /// The alternatives that came less far.
    pub others: Option<Others>,
}

/// Alternatives that came less far than the one that is reported.
#[derive(Drop)]
pub struct Others {
    /// How many there are.
    pub count: usize,
    /// The innermost rule or entry that has them.
    pub name: String,
    /// Where that is in the source of the schema.
    pub name_place: usize,
}

/// Where the parts of a message are in it.
#[derive(Clone, Copy)]
pub struct MessageParts {
    /// What the schema wants.
    pub expected: Span,
    /// The rule or entry that wants it; empty for none.
    pub name: Span,
    /// What is there.
    pub found: Span,
}

/// Appends a part of a message, and returns where it is.
fn push_part(out: &mut String, part: &str) -> Result<Span, AllocError> {
    let start = out.len();
    out.push_str(part)?;
    Ok(Span {
        start,
        end: out.len(),
    })
}

impl Misfit {
    /// Appends the message: `expected int for a (x.cddl:1), found "x"`. The line is that of the
    /// name.
    pub fn push_message(&self, out: &mut String, line: &str) -> Result<MessageParts, AllocError> {
        out.push_str("expected ")?;
        let expected = push_part(out, &self.expected)?;
        let mut name = Span { start: 0, end: 0 };
        if !self.name.is_empty() {
            out.push_str(" for ")?;
            name = push_part(out, &self.name)?;
            write!(out, " ({line})")?;
        }
        out.push_str(", found ")?;
        let found = push_part(out, &self.found)?;
        Ok(MessageParts {
            expected,
            name,
            found,
        })
    }
}

impl Others {
    /// Appends the message: `2 other alternatives of a (x.cddl:1) came less far`. The line is that
    /// of the name.
    pub fn push_message(&self, out: &mut String, line: &str) -> Result<(), AllocError> {
        let ending = if self.count == 1 { "" } else { "s" };
        let (count, name) = (self.count, &self.name);
        write!(
            out,
            "{count} other alternative{ending} of {name} ({line}) came less far"
        )
    }
}
