//! `Writer`: writes the parts of a schema as bytes. Numbers are little endian.

use super::{Sizes, kind};
use crate::schema::{Comparison, Floats, Node, Occurrence, Rule, Span, Value};
use cbor_floats::Width;
use std::alloc::{AllocError, Global};
use std::num::f64_to_bits_with_nan;

/// The bytes that are written. A failure is noted, and [`Writer::done`] looks once.
#[derive(Drop)]
pub(super) struct Writer {
    out: Vec<u8>,
    /// Whether memory ran out, or a number does not fit in four bytes.
    failed: bool,
}

/// The number of a width.
fn width_number(width: Width) -> u8 {
    match width {
        Width::Sixteen => 0,
        Width::ThirtyTwo => 1,
        Width::SixtyFour => 2,
    }
}

/// The number of a comparison.
fn comparison_number(comparison: Comparison) -> u8 {
    match comparison {
        Comparison::Less => 0,
        Comparison::LessOrEqual => 1,
        Comparison::Greater => 2,
        Comparison::GreaterOrEqual => 3,
    }
}

impl Writer {
    /// Nothing is written yet.
    pub(super) fn new(alloc: Global) -> Writer {
        Writer {
            out: Vec::new(alloc),
            failed: false,
        }
    }

    /// The bytes, if all of them are there.
    pub(super) fn done(self) -> Result<Vec<u8>, AllocError> {
        if self.failed {
            Err(AllocError)
        } else {
            Ok(self.out)
        }
    }

    /// Appends bytes.
    pub(super) fn bytes(&mut self, bytes: &[u8]) {
        self.failed |= self.out.extend_from_slice(bytes).is_err();
    }

    /// Appends one byte.
    fn byte(&mut self, byte: u8) {
        self.bytes(&[byte])
    }

    /// Appends an index or a length, in four bytes.
    pub(super) fn size(&mut self, size: usize) {
        match u32::try_from(size) {
            Ok(size) => self.bytes(&size.to_le_bytes()),
            Err(_) => self.failed = true,
        }
    }

    /// Appends a number in eight bytes.
    fn number(&mut self, number: u64) {
        self.bytes(&number.to_le_bytes())
    }

    /// Appends an integer in 16 bytes.
    fn integer(&mut self, integer: i128) {
        self.bytes(&integer.to_le_bytes())
    }

    /// Appends the bits of a float.
    fn float(&mut self, float: f64) {
        self.number(f64_to_bits_with_nan(float))
    }

    /// Appends the sizes at the front.
    pub(super) fn sizes(&mut self, sizes: Sizes) {
        self.size(sizes.text_len);
        self.size(sizes.source);
        self.size(sizes.rules);
        self.size(sizes.lists);
        self.size(sizes.nodes);
        self.size(sizes.pool);
        self.size(sizes.root)
    }

    /// Appends a span.
    pub(super) fn span(&mut self, span: Span) {
        self.size(span.start);
        self.size(span.end)
    }

    /// Appends an occurrence.
    fn occurrence(&mut self, occurrence: Occurrence) {
        self.number(occurrence.least);
        self.number(occurrence.most)
    }

    /// Appends a rule.
    pub(super) fn rule(&mut self, rule: Rule) {
        self.span(rule.name);
        self.size(rule.node);
        self.size(rule.rank)
    }

    /// Appends a value.
    fn value(&mut self, value: Value) {
        match value {
            Value::Integer(integer) => {
                self.byte(0);
                self.integer(integer)
            }
            Value::Float(float) => {
                self.byte(1);
                self.float(float)
            }
            Value::Text(span) => {
                self.byte(2);
                self.span(span)
            }
            Value::Bytes(span) => {
                self.byte(3);
                self.span(span)
            }
        }
    }

    /// Appends the kind of a node and its only index.
    fn one(&mut self, kind: u8, index: usize) {
        self.byte(kind);
        self.size(index)
    }

    /// Appends the kind of a node and its two indices.
    fn two(&mut self, kind: u8, first: usize, second: usize) {
        self.one(kind, first);
        self.size(second)
    }

    /// Appends a node: its kind, and then its fields.
    pub(super) fn node(&mut self, node: Node) {
        match node {
            Node::Any => self.byte(kind::ANY),
            Node::Major(major) => self.bytes(&[kind::MAJOR, major]),
            Node::Simple(simple) => self.bytes(&[kind::SIMPLE, simple]),
            Node::FloatsOf(width) => self.bytes(&[kind::FLOATS_OF, width_number(width)]),
            Node::Simples(number) => self.one(kind::SIMPLES, number),
            Node::Array(group) => self.one(kind::ARRAY, group),
            Node::Map(group) => self.one(kind::MAP, group),
            Node::Rule(rule) => self.one(kind::RULE, rule),
            Node::Text(span) => self.two(kind::TEXT, span.start, span.end),
            Node::Bytes(span) => self.two(kind::BYTES, span.start, span.end),
            Node::Choice(list) => self.two(kind::CHOICE, list.start, list.end),
            Node::Sequence(list) => self.two(kind::SEQUENCE, list.start, list.end),
            Node::GroupChoice(list) => self.two(kind::GROUP_CHOICE, list.start, list.end),
            Node::Size { .. }
            | Node::Bits { .. }
            | Node::Encoded { .. }
            | Node::EncodedSequence { .. }
            | Node::Pattern { .. }
            | Node::Compared { .. }
            | Node::Both { .. }
            | Node::Unequal { .. } => self.control(node),
            _ => self.numbered(node),
        }
    }

    /// Appends a control.
    fn control(&mut self, node: Node) {
        match node {
            Node::Size { target, sizes } => self.two(kind::SIZE, target, sizes),
            Node::Bits { target, bits } => self.two(kind::BITS, target, bits),
            Node::Encoded { target, item } => self.two(kind::ENCODED, target, item),
            Node::EncodedSequence { target, array } => {
                self.two(kind::ENCODED_SEQUENCE, target, array)
            }
            Node::Pattern {
                target,
                pattern,
                anchored,
                operand,
            } => {
                self.one(kind::PATTERN, target);
                self.span(pattern);
                self.byte(u8::from(anchored));
                self.size(operand)
            }
            Node::Compared {
                target,
                comparison,
                limit,
            } => {
                self.one(kind::COMPARED, target);
                self.byte(comparison_number(comparison));
                self.value(limit)
            }
            Node::Both { target, other } => self.two(kind::BOTH, target, other),
            Node::Unequal { target, other } => self.two(kind::UNEQUAL, target, other),
            _ => {}
        }
    }

    /// Appends a node with numbers of its own.
    fn numbered(&mut self, node: Node) {
        match node {
            Node::Argument { major, argument } => {
                self.bytes(&[kind::ARGUMENT, major]);
                self.number(argument)
            }
            Node::Integers { least, most } => {
                self.byte(kind::INTEGERS);
                self.integer(least);
                self.integer(most)
            }
            Node::Floats(floats) => self.floats(floats),
            Node::Tag { number, item } => {
                self.one(kind::TAG, item);
                self.number(number)
            }
            Node::AnyTag { numbers, item } => match numbers {
                Some(numbers) => self.two(kind::NUMBERED_TAG, numbers, item),
                None => self.one(kind::ANY_TAG, item),
            },
            Node::Entry {
                key,
                cut,
                value,
                occurrence,
            } => {
                self.two(kind::ENTRY, key, value);
                self.byte(u8::from(cut));
                self.occurrence(occurrence)
            }
            Node::Repeated { item, occurrence } => {
                self.one(kind::REPEATED, item);
                self.occurrence(occurrence)
            }
            // No loaded schema has another node.
            _ => self.byte(kind::ANY),
        }
    }

    /// Appends the bounds of floats.
    fn floats(&mut self, floats: Floats) {
        self.byte(kind::FLOATS);
        self.float(floats.least);
        self.float(floats.most);
        self.byte(u8::from(floats.below))
    }
}
