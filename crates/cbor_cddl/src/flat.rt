//! Writes a [`Schema`] as bytes, without its labels (`to_flat`), and reads it back (`from_flat`).
//! The bytes hold no pointers, so they can be kept and copied. Bytes that are no schema are an
//! error.

mod reader;
mod writer;

use crate::schema::{Rule, Schema, Span};
use reader::Reader;
use std::alloc::{AllocError, AllocFailed, Global};
use writer::Writer;

/// The first bytes of each schema. The last one is the number of this form.
const MARK: [u8; 8] = *b"cddl\0\0\0\x01";

/// The byte before the fields of a node: which node it is.
mod kind {
    pub(super) const ANY: u8 = 0;

    pub(super) const MAJOR: u8 = 1;

    pub(super) const ARGUMENT: u8 = 2;

    pub(super) const INTEGERS: u8 = 3;

    pub(super) const FLOATS: u8 = 4;

    pub(super) const FLOATS_OF: u8 = 5;

    pub(super) const SIMPLE: u8 = 6;

    pub(super) const SIMPLES: u8 = 7;

    pub(super) const TEXT: u8 = 8;

    pub(super) const BYTES: u8 = 9;

    pub(super) const ARRAY: u8 = 10;

    pub(super) const MAP: u8 = 11;

    pub(super) const TAG: u8 = 12;

    pub(super) const ANY_TAG: u8 = 13;

    pub(super) const NUMBERED_TAG: u8 = 14;

    pub(super) const CHOICE: u8 = 15;

    pub(super) const RULE: u8 = 16;

    pub(super) const SIZE: u8 = 17;

    pub(super) const BITS: u8 = 18;

    pub(super) const ENCODED: u8 = 19;

    pub(super) const ENCODED_SEQUENCE: u8 = 20;

    pub(super) const PATTERN: u8 = 21;

    pub(super) const COMPARED: u8 = 22;

    pub(super) const BOTH: u8 = 23;

    pub(super) const UNEQUAL: u8 = 24;

    pub(super) const SEQUENCE: u8 = 25;

    pub(super) const GROUP_CHOICE: u8 = 26;

    pub(super) const ENTRY: u8 = 27;

    pub(super) const REPEATED: u8 = 28;
}

/// The numbers at the front, each in four bytes.
#[derive(Clone, Copy)]
struct Sizes {
    text_len: usize,
    /// How many bytes of the source are there: those up to the last name or node.
    source: usize,
    rules: usize,
    lists: usize,
    nodes: usize,
    pool: usize,
    root: usize,
}

impl Sizes {
    /// Before anything is read.
    const NONE: Sizes = Sizes {
        text_len: 0,
        source: 0,
        rules: 0,
        lists: 0,
        nodes: 0,
        pool: 0,
        root: 0,
    };
}

/// Why bytes give no schema.
#[derive(Clone, Copy, PartialEq, Eq)]
pub enum Unread {
    /// Out of memory.
    Memory,
    /// The bytes are no schema.
    Wrong,
}

impl From<AllocError> for Unread {
    fn from(_refused: AllocError) -> Unread {
        Unread::Memory
    }
}

impl<T: Drop> From<AllocFailed<T>> for Unread {
    fn from(_refused: AllocFailed<T>) -> Unread {
        Unread::Memory
    }
}

/// The end of the last of some spans.
fn last_end(spans: &[Span], rules: &[Rule]) -> usize {
    let mut end = 0;
    for span in spans {
        end = span.end.max(end);
    }
    for rule in rules {
        end = rule.name.end.max(end);
    }
    end
}

impl Schema {
    /// The sizes of its parts.
    fn sizes(&self) -> Sizes {
        Sizes {
            text_len: self.text_len,
            source: last_end(&self.spans, &self.rules).min(self.source.len()),
            rules: self.rules.len(),
            lists: self.lists.len(),
            nodes: self.nodes.len(),
            pool: self.pool.len(),
            root: self.root,
        }
    }

    /// The schema as bytes: what its root leads to, and no labels, since matching needs no more. A
    /// schema with 2^32 parts or bytes of text counts as out of memory.
    pub fn to_flat(&self, alloc: Global) -> Result<Vec<u8>, AllocError> {
        self.pruned(alloc)?.all_to_flat(alloc)
    }

    /// All of the schema as bytes, but its labels.
    fn all_to_flat(&self, alloc: Global) -> Result<Vec<u8>, AllocError> {
        let sizes = self.sizes();
        let mut writer = Writer::new(alloc);
        writer.bytes(&MARK);
        writer.sizes(sizes);
        for rule in &self.rules {
            writer.rule(*rule);
        }
        for index in &self.lists {
            writer.size(*index);
        }
        for (node, span) in self.nodes.iter().zip(&self.spans) {
            writer.span(*span);
            writer.node(*node);
        }
        writer.bytes(&self.pool);
        writer.bytes(self.source.as_bytes().get(..sizes.source).unwrap_or(b""));
        writer.done()
    }

    /// The schema that the bytes encode; it has no labels. The bytes are checked: each index is
    /// that of a part that is there.
    pub fn from_flat(alloc: Global, bytes: &[u8]) -> Result<Schema, Unread> {
        let mut reader = Reader::new(bytes)?;
        let sizes = reader.sizes;
        let mut schema = Schema {
            source: String::new(alloc),
            text_len: sizes.text_len,
            nodes: Vec::new(alloc),
            spans: Vec::new(alloc),
            lists: Vec::new(alloc),
            rules: Vec::new(alloc),
            labels: Vec::new(alloc),
            pool: Vec::new(alloc),
            root: sizes.root,
        };
        for _ in 0..sizes.rules {
            schema.rules.push(reader.rule()?)?;
        }
        for _ in 0..sizes.lists {
            schema.lists.push(reader.listed()?)?;
        }
        for _ in 0..sizes.nodes {
            let (span, node) = reader.node()?;
            schema.spans.push(span)?;
            schema.nodes.push(node)?;
        }
        schema.pool.extend_from_slice(reader.bytes(sizes.pool)?)?;
        schema.source.push_str(reader.text(sizes.source)?)?;
        reader.end()?;
        Ok(schema)
    }
}
