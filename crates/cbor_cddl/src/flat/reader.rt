//! `Reader`: reads the parts of a schema from bytes. It refuses an index that no part has, and a
//! range that is not within its text or list.

use super::{MARK, Sizes, Unread, kind};
use crate::schema::{Comparison, Floats, List, Node, Occurrence, Rule, Span, Value};
use cbor_floats::Width;
use std::num::f64_from_bits_with_nan;

/// Bytes that are read from the front. What is wrong is noted, and a number past the end is 0. So
/// the fields of a part are read one after the other, and [`Reader::checked`] looks once.
#[derive(Clone, Copy)]
pub(super) struct Reader<'a> {
    rest: &'a [u8],
    pub(super) sizes: Sizes,
    /// Whether something that was read is wrong.
    wrong: bool,
}

/// The first bytes of all, and those after them.
fn split(bytes: &[u8], len: usize) -> Result<(&[u8], &[u8]), Unread> {
    if bytes.len() < len {
        return Err(Unread::Wrong);
    }
    Ok(bytes.split_at(len))
}

impl<'a> Reader<'a> {
    /// Reads the sizes at the front.
    pub(super) fn new(bytes: &'a [u8]) -> Result<Reader<'a>, Unread> {
        let mut reader = Reader {
            rest: bytes,
            sizes: Sizes::NONE,
            wrong: false,
        };
        if reader.bytes(MARK.len())? != MARK.as_slice() {
            return Err(Unread::Wrong);
        }
        reader.sizes = Sizes {
            text_len: reader.size(),
            source: reader.size(),
            rules: reader.size(),
            lists: reader.size(),
            nodes: reader.size(),
            pool: reader.size(),
            root: reader.size(),
        };
        reader.wrong |= reader.sizes.root >= reader.sizes.nodes;
        reader.checked(reader)
    }

    /// A part, if nothing that was read is wrong.
    fn checked<T: Copy>(&self, part: T) -> Result<T, Unread> {
        if self.wrong {
            Err(Unread::Wrong)
        } else {
            Ok(part)
        }
    }

    /// Nothing is left.
    pub(super) fn end(self) -> Result<(), Unread> {
        if self.rest.is_empty() {
            Ok(())
        } else {
            Err(Unread::Wrong)
        }
    }

    /// The next bytes.
    pub(super) fn bytes(&mut self, len: usize) -> Result<&'a [u8], Unread> {
        let (bytes, rest) = split(self.rest, len)?;
        self.rest = rest;
        Ok(bytes)
    }

    /// The next bytes as text.
    pub(super) fn text(&mut self, len: usize) -> Result<&'a str, Unread> {
        match str::from_utf8(self.bytes(len)?) {
            Ok(text) => Ok(text),
            Err(_) => Err(Unread::Wrong),
        }
    }

    /// The next bytes, as many as an array has.
    fn array<const N: usize>(&mut self) -> [u8; N] {
        match self.rest.split_first_chunk::<N>() {
            Some((front, rest)) => {
                self.rest = rest;
                *front
            }
            None => {
                self.wrong = true;
                [0; N]
            }
        }
    }

    /// One byte.
    fn byte(&mut self) -> u8 {
        let [byte] = self.array::<1>();
        byte
    }

    /// A byte that is 0 or 1.
    fn flag(&mut self) -> bool {
        let byte = self.byte();
        self.wrong |= byte > 1;
        byte == 1
    }

    /// An index or a length.
    fn size(&mut self) -> usize {
        u32::from_le_bytes(self.array()) as usize
    }

    /// A number.
    fn number(&mut self) -> u64 {
        u64::from_le_bytes(self.array())
    }

    /// An integer.
    fn integer(&mut self) -> i128 {
        i128::from_le_bytes(self.array())
    }

    /// A float.
    fn float(&mut self) -> f64 {
        f64_from_bits_with_nan(self.number())
    }

    /// An index below `len`.
    fn index(&mut self, len: usize) -> usize {
        let index = self.size();
        self.wrong |= index >= len;
        index
    }

    /// The index of a node.
    fn node_index(&mut self) -> usize {
        self.index(self.sizes.nodes)
    }

    /// A range within `len` bytes or indices.
    fn range(&mut self, len: usize) -> Span {
        let (start, end) = (self.size(), self.size());
        self.wrong |= start > end || end > len;
        Span { start, end }
    }

    /// A span of the source.
    fn span(&mut self) -> Span {
        self.range(self.sizes.source)
    }

    /// A span of the literals.
    fn literal(&mut self) -> Span {
        self.range(self.sizes.pool)
    }

    /// A list.
    fn list(&mut self) -> List {
        let Span { start, end } = self.range(self.sizes.lists);
        List { start, end }
    }

    /// An occurrence.
    fn occurrence(&mut self) -> Occurrence {
        Occurrence {
            least: self.number(),
            most: self.number(),
        }
    }

    /// A rule.
    pub(super) fn rule(&mut self) -> Result<Rule, Unread> {
        let rule = Rule {
            name: self.span(),
            node: self.node_index(),
            rank: self.size(),
        };
        self.checked(rule)
    }

    /// A member of a list: the index of a node.
    pub(super) fn listed(&mut self) -> Result<usize, Unread> {
        let index = self.node_index();
        self.checked(index)
    }

    /// The bounds of floats.
    fn floats(&mut self) -> Floats {
        Floats {
            least: self.float(),
            most: self.float(),
            below: self.flag(),
        }
    }

    /// A width.
    fn width(&mut self) -> Width {
        match self.byte() {
            0 => Width::Sixteen,
            1 => Width::ThirtyTwo,
            byte => {
                self.wrong |= byte > 2;
                Width::SixtyFour
            }
        }
    }

    /// A comparison.
    fn comparison(&mut self) -> Comparison {
        match self.byte() {
            0 => Comparison::Less,
            1 => Comparison::LessOrEqual,
            2 => Comparison::Greater,
            byte => {
                self.wrong |= byte > 3;
                Comparison::GreaterOrEqual
            }
        }
    }

    /// A value.
    fn value(&mut self) -> Value {
        match self.byte() {
            0 => Value::Integer(self.integer()),
            1 => Value::Float(self.float()),
            2 => Value::Text(self.literal()),
            byte => {
                self.wrong |= byte > 3;
                Value::Bytes(self.literal())
            }
        }
    }

    /// A node, and where it is in the source.
    pub(super) fn node(&mut self) -> Result<(Span, Node), Unread> {
        let span = self.span();
        let kind = self.byte();
        let node = match kind {
            kind::ANY => Node::Any,
            kind::MAJOR => Node::Major(self.byte()),
            kind::SIMPLE => Node::Simple(self.byte()),
            kind::FLOATS_OF => Node::FloatsOf(self.width()),
            kind::SIMPLES => Node::Simples(self.node_index()),
            kind::ARRAY => Node::Array(self.node_index()),
            kind::MAP => Node::Map(self.node_index()),
            kind::RULE => Node::Rule(self.index(self.sizes.rules)),
            kind::TEXT => Node::Text(self.literal()),
            kind::BYTES => Node::Bytes(self.literal()),
            kind::CHOICE => Node::Choice(self.list()),
            kind::SEQUENCE => Node::Sequence(self.list()),
            kind::GROUP_CHOICE => Node::GroupChoice(self.list()),
            kind::FLOATS => Node::Floats(self.floats()),
            kind::SIZE..=kind::UNEQUAL => self.control(kind),
            _ => self.numbered(kind),
        };
        self.checked((span, node))
    }

    /// A control.
    fn control(&mut self, kind: u8) -> Node {
        let target = self.node_index();
        match kind {
            kind::SIZE => Node::Size {
                target,
                sizes: self.node_index(),
            },
            kind::BITS => Node::Bits {
                target,
                bits: self.node_index(),
            },
            kind::ENCODED => Node::Encoded {
                target,
                item: self.node_index(),
            },
            kind::ENCODED_SEQUENCE => Node::EncodedSequence {
                target,
                array: self.node_index(),
            },
            kind::PATTERN => Node::Pattern {
                target,
                pattern: self.literal(),
                anchored: self.flag(),
                operand: self.node_index(),
            },
            kind::COMPARED => Node::Compared {
                target,
                comparison: self.comparison(),
                limit: self.value(),
            },
            kind::BOTH => Node::Both {
                target,
                other: self.node_index(),
            },
            _ => Node::Unequal {
                target,
                other: self.node_index(),
            },
        }
    }

    /// A node with numbers of its own.
    fn numbered(&mut self, kind: u8) -> Node {
        match kind {
            kind::ARGUMENT => Node::Argument {
                major: self.byte(),
                argument: self.number(),
            },
            kind::INTEGERS => Node::Integers {
                least: self.integer(),
                most: self.integer(),
            },
            kind::TAG => Node::Tag {
                item: self.node_index(),
                number: self.number(),
            },
            kind::ANY_TAG => Node::AnyTag {
                numbers: None,
                item: self.node_index(),
            },
            kind::NUMBERED_TAG => Node::AnyTag {
                numbers: Some(self.node_index()),
                item: self.node_index(),
            },
            kind::ENTRY => Node::Entry {
                key: self.node_index(),
                value: self.node_index(),
                cut: self.flag(),
                occurrence: self.occurrence(),
            },
            kind::REPEATED => Node::Repeated {
                item: self.node_index(),
                occurrence: self.occurrence(),
            },
            _ => {
                self.wrong = true;
                Node::Any
            }
        }
    }
}
