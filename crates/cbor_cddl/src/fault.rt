//! `Fault`: what is wrong with a CDDL text, and where. `SaidFault` writes it in words, and
//! `position_of` finds the line and the column of a byte.

use crate::schema::Span;
use std::alloc::{AllocError, AllocFailed};
use std::fmt;

/// What is wrong.
#[derive(Clone, Copy, PartialEq, Eq, Debug)]
pub enum FaultKind {
    /// Out of memory.
    Memory,
    /// A character that begins nothing in CDDL.
    Character,
    /// A text or a byte string has no closing quote.
    OpenString,
    /// An escape that strings do not have.
    Escape,
    /// The content of `h'..'` is not pairs of hex digits.
    Hex,
    /// The content of `b64'..'` is not base 64.
    Base64,
    /// A number that is too large or too small.
    Number,
    /// Something else is wanted here.
    Expected(&'static str),
    /// Brackets are nested too deeply.
    Deep,
    /// A name that no rule has, and a rule with a name that is like it.
    NoRule(Option<Span>),
    /// A name has two rules with `=`; the first is at this place.
    Twice(Span),
    /// A rule is defined by itself: the next one on the way back to it, and how many these are.
    Cycle { next: Span, count: usize },
    /// A generic rule takes another number of arguments.
    Arguments { wanted: usize, given: usize },
    /// More than 10,000 instances of generic rules.
    Instances,
    /// A value is defined by itself.
    Endless,
    /// A group where a type is wanted.
    Group,
    /// The root is a group.
    GroupRoot,
    /// `~` before what is no map, array or tag.
    Unwrap,
    /// `&` before what is no group.
    Enumerate,
    /// A range between what are not two integers or two floats.
    Range,
    /// A control that is known, and not supported.
    Control,
    /// A control that is not known, and one with a name that is like it, without its point.
    NoControl(Option<&'static str>),
    /// What is behind a control has to be this.
    Operand(&'static str),
    /// A head that no item has, as `#8`.
    Head,
    /// A pattern that is no regular expression.
    Pattern,
    /// A part of a pattern that XSD has, and that is not supported.
    XsdPattern(&'static str),
    /// There is no rule, or none with the name of the root.
    Root,
}

/// What is wrong with a CDDL text, and where.
#[derive(Clone, Copy, PartialEq, Eq, Debug)]
pub struct Fault {
    /// The part of the source that is wrong.
    pub span: Span,
    /// What is wrong with it.
    pub kind: FaultKind,
}

impl Fault {
    /// A fault of this kind.
    pub fn new(span: Span, kind: FaultKind) -> Fault {
        Fault { span, kind }
    }

    /// The fault in words, for the source that it is in.
    pub fn said(self, source: &str) -> SaidFault<'_> {
        SaidFault {
            fault: self,
            source,
        }
    }
}

impl From<AllocError> for Fault {
    fn from(_refused: AllocError) -> Fault {
        Fault {
            span: Span { start: 0, end: 0 },
            kind: FaultKind::Memory,
        }
    }
}

impl<T: Drop> From<AllocFailed<T>> for Fault {
    fn from(_refused: AllocFailed<T>) -> Fault {
        Fault {
            span: Span { start: 0, end: 0 },
            kind: FaultKind::Memory,
        }
    }
}

/// A line and a column, both counted from 1.
#[derive(Clone, Copy, PartialEq, Eq)]
pub struct Position {
    pub line: usize,
    /// In characters.
    pub column: usize,
}

/// The line and the column of a byte of a text.
pub fn position_of(text: &str, place: usize) -> Position {
    let mut position = Position { line: 1, column: 1 };
    for byte in text.as_bytes().iter().take(place) {
        if *byte == b'\n' {
            position.line = position.line.saturating_add(1);
            position.column = 1;
        } else if *byte & 0xc0 != 0x80 {
            position.column = position.column.saturating_add(1);
        }
    }
    position
}

/// A fault in words, without its place.
#[derive(Clone, Copy)]
pub struct SaidFault<'a> {
    fault: Fault,
    source: &'a str,
}

impl SaidFault<'_> {
    /// The part of the source.
    fn text(&self, span: Span) -> &str {
        match self.source.get(span.start..span.end) {
            Some(text) => text,
            None => "",
        }
    }

    /// What is there, in words.
    fn found(&self) -> &str {
        let text = self.text(self.fault.span);
        if text.is_empty() { "the end" } else { text }
    }

    /// The message of a kind that says nothing else.
    fn plain(&self) -> &'static str {
        match self.fault.kind {
            FaultKind::Memory => "out of memory",
            FaultKind::OpenString => "the string has no closing quote",
            FaultKind::Escape => "no such escape is in CDDL",
            FaultKind::Hex => "h'..' needs pairs of hex digits",
            FaultKind::Base64 => "b64'..' needs base 64",
            FaultKind::Number => "the number is too large",
            FaultKind::Deep => "the brackets are nested too deeply",
            FaultKind::Instances => "more than 10000 instances of generic rules",
            FaultKind::Endless => "the value is defined by itself",
            FaultKind::Unwrap => "~ needs the name of a map, an array or a tag",
            FaultKind::Enumerate => "& needs a group",
            FaultKind::Range => "a range needs two integers or two floats",
            FaultKind::Head => "no item has such a head",
            FaultKind::Pattern => "the pattern is no regular expression",
            FaultKind::Root => "no rule is there",
            _ => "",
        }
    }

    /// The message on a name that has no rule, or more than one, or leads to itself.
    fn fmt_name<W: fmt::Write>(&self, f: &mut fmt::Formatter<W>) -> fmt::Result {
        let found = self.found();
        match self.fault.kind {
            FaultKind::NoRule(Some(near)) => {
                let near = self.text(near);
                write!(f, "no rule {found} is there; {near} is one")
            }
            FaultKind::Twice(first) => {
                let line = position_of(self.source, first.start).line;
                write!(f, "the rule {found} is in line {line} already")
            }
            FaultKind::Cycle { next, count } => {
                let next = self.text(next);
                write!(f, "the rule {found} is defined by itself: {found}")?;
                match count {
                    0 | 1 => write!(f, " -> {found}"),
                    2 => write!(f, " -> {next} -> {found}"),
                    _ => write!(f, " -> {next} -> .. -> {found}"),
                }
            }
            _ => write!(f, "no rule {found} is there"),
        }
    }

    /// The message on a rule that stands where another one has to.
    fn fmt_rule<W: fmt::Write>(&self, f: &mut fmt::Formatter<W>) -> fmt::Result {
        let found = self.found();
        match self.fault.kind {
            FaultKind::Arguments { wanted, given } => {
                let ending = if wanted == 1 { "" } else { "s" };
                write!(f, "{found} takes {wanted} argument{ending}, not {given}")
            }
            FaultKind::GroupRoot => {
                write!(f, "the rule {found} is a group, and cannot be the root")
            }
            _ => write!(f, "{found} is a group, and a type is wanted"),
        }
    }
}

impl fmt::Display for SaidFault<'_> {
    fn fmt<W: fmt::Write>(&self, f: &mut fmt::Formatter<W>) -> fmt::Result {
        let found = self.found();
        match self.fault.kind {
            FaultKind::Character => write!(f, "{found} begins nothing in CDDL"),
            FaultKind::Expected(wanted) | FaultKind::Operand(wanted) => {
                write!(f, "expected {wanted}, found {found}")
            }
            FaultKind::NoRule(_) | FaultKind::Twice(_) | FaultKind::Cycle { .. } => {
                self.fmt_name(f)
            }
            FaultKind::Arguments { .. } | FaultKind::Group | FaultKind::GroupRoot => {
                self.fmt_rule(f)
            }
            FaultKind::Control => write!(f, "the control {found} is not supported"),
            FaultKind::NoControl(None) => write!(f, "no control {found} is there"),
            FaultKind::NoControl(Some(near)) => {
                write!(f, "no control {found} is there; .{near} is one")
            }
            FaultKind::XsdPattern(part) => write!(f, ".regexp does not support {part}"),
            _ => f.write_str(self.plain()),
        }
    }
}
