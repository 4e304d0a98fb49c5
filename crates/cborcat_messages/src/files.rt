//! `Files`: the files of CDDL that are read as one text. Says what is wrong with the text, by the
//! file and the line.

use crate::lines::{label, say_no_memory};
use crate::status::Status;
use cbor_cddl::{Fault, FaultKind, Position, position_of, source_of};
use std::alloc::{AllocError, Global};

/// A file of CDDL: its name, and its part of the text.
#[derive(Clone, Copy)]
struct File<'a> {
    name: &'a str,
    begins: usize,
    end: usize,
}

/// The files of CDDL, which are read as one text.
#[derive(Drop)]
pub struct Files<'a> {
    list: Vec<File<'a>>,
    text: String,
}

impl<'a> Files<'a> {
    /// No files.
    pub fn new(alloc: Global) -> Files<'a> {
        Files {
            list: Vec::new(alloc),
            text: String::new(alloc),
        }
    }

    /// Adds a file, and a line feed behind it.
    pub fn add(&mut self, name: &'a str, text: &str) -> Result<(), AllocError> {
        let begins = self.text.len();
        self.text.push_str(text)?;
        self.list.push(File {
            name,
            begins,
            end: self.text.len(),
        })?;
        self.text.push('\n')
    }

    /// The text of all files.
    pub fn text(&self) -> &str {
        &self.text
    }

    /// The file that has a byte of the text.
    fn with(&self, place: usize) -> File<'a> {
        let mut found = File {
            name: "",
            begins: 0,
            end: self.text.len(),
        };
        for file in &self.list {
            if file.begins <= place {
                found = *file;
            }
        }
        found
    }

    /// Where a byte of the text is in its file, whose end is the last place.
    fn position(&self, place: usize) -> (&'a str, Position) {
        let File { name, begins, end } = self.with(place);
        let text = self.text.as_str().get(begins..end).unwrap_or("");
        (name, position_of(text, place.saturating_sub(begins)))
    }

    /// The name of the file that has a byte of the text, and the line.
    pub fn line(&self, alloc: Global, place: usize) -> Result<String, AllocError> {
        let (name, position) = self.position(place);
        format!(in alloc; "{}:{}", label(name), position.line)
    }

    /// Says what is wrong with the text.
    pub fn say_fault(&self, rt: &HostRuntime, fault: Fault, rule: Option<&str>) -> Status {
        let Ok(source) = source_of(rt.alloc(), &self.text) else {
            return say_no_memory(rt);
        };
        let (name, position) = self.position(fault.span.start);
        let name = label(name);
        if fault.kind == FaultKind::Memory {
            return say_no_memory(rt);
        }
        if fault.kind == FaultKind::Root {
            let (blank, rule) = match rule {
                Some(rule) => (" ", rule),
                None => ("", ""),
            };
            let _ = eprintln!(rt; "cborcat: {name}: no rule{blank}{rule} is there");
            return Status::Trouble;
        }
        let (line, column) = (position.line, position.column);
        let said = fault.said(&source);
        let _ = eprintln!(rt; "cborcat: {name}:{line}:{column}: {said}");
        Status::Trouble
    }
}
