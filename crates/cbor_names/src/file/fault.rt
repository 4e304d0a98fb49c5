//! `FileError`: what is wrong with a file of names (`Fault`), and in which line, with the message
//! in words.

use std::alloc::AllocError;
use std::fmt;

/// An error, and the line that has it, counted from 1; 0 if memory ran out.
#[derive(Clone, Copy, Debug)]
pub struct FileError {
    pub line: usize,
    pub fault: Fault,
}

/// What is wrong.
#[derive(Clone, Copy, Debug)]
pub enum Fault {
    /// The text has more than 65,536 bytes.
    Long,
    /// The text is no TOML.
    Toml(toml::de::Error),
    /// A type is no table.
    NoTable,
    /// A table has a word that says nothing here.
    Word,
    /// A name is empty, begins with `*`, or has a `/` or a character that is not printable ASCII.
    Name,
    /// A tag is no integer from 0 on.
    Tag,
    /// Two types of the file have this tag.
    SameTag,
    /// A type has two of `array`, `map`, `each` and `values`.
    TwoShapes,
    /// A member or a key has two of `is`, `each`, `holds` and `may_hold`.
    TwoTypes,
    /// `array` is no array, or `map`, `when` or `values` no table.
    Shape,
    /// A member or a key is neither a name nor a table.
    Member,
    /// A name of a type, or a meaning, is no text.
    Text,
    /// No type has that name.
    NoType,
    /// `sign` is none of `number`, `text` and `bytes`.
    Sign,
    /// `optional` is neither `true` nor `false`.
    Flag,
    /// `by` is neither an integer nor a text.
    By,
    OutOfMemory,
}

impl From<AllocError> for Fault {
    fn from(_refused: AllocError) -> Fault {
        Fault::OutOfMemory
    }
}

impl From<AllocError> for FileError {
    fn from(_refused: AllocError) -> FileError {
        FileError {
            line: 0,
            fault: Fault::OutOfMemory,
        }
    }
}

impl Fault {
    /// What is wrong, in words.
    pub fn text(&self) -> &str {
        match self {
            Fault::Toml(error) => error.message(),
            Fault::Long => "a file of names has at most 65,536 bytes",
            Fault::NoTable => "a type is a table",
            Fault::Word => "no such word here",
            Fault::Name => "a name is printable ASCII without `/` that does not begin with `*`",
            Fault::Tag => "a tag is an integer from 0 on",
            Fault::SameTag => "another type of the file has this tag",
            Fault::TwoShapes => "a type has one of `array`, `map`, `each` and `values`",
            Fault::TwoTypes => "one of `is`, `each`, `holds` and `may_hold`",
            Fault::Shape => "`array` is an array; `map`, `when` and `values` are tables",
            Fault::Member => "a member or a key is a name or a table",
            Fault::Text => "this has to be a text",
            Fault::NoType => "no type has this name",
            Fault::Sign => "a sign is `number`, `text` or `bytes`",
            Fault::Flag => "`optional` is `true` or `false`",
            Fault::By => "`by` is a key: an integer or a text",
            Fault::OutOfMemory => "out of memory",
        }
    }
}

impl fmt::Display for Fault {
    fn fmt<W: fmt::Write>(&self, f: &mut fmt::Formatter<W>) -> Result<(), fmt::Error> {
        f.write_str(self.text())
    }
}

impl fmt::Display for FileError {
    fn fmt<W: fmt::Write>(&self, f: &mut fmt::Formatter<W>) -> Result<(), fmt::Error> {
        if self.line > 0 {
            let line = self.line;
            write!(f, "line {line}: ")?;
        }
        self.fault.fmt(f)
    }
}

impl std::error::Error for FileError {}
