//! `Alternative`: a node of a schema that an item of a type may be, with its name from a rule or an
//! enumeration. `alternatives` lists those of a type, and `kind_of` says whether the items of the
//! type are maps, arrays or named values.

use crate::source::{MOST, Source};
use cbor_cddl::Node;
use cbor_names::Key;
use std::alloc::AllocError;

/// The tag of a byte string that holds an item.
const ENCODED: u64 = 24;

/// What an item of a type may be.
#[derive(Clone, Copy)]
pub(crate) struct Alternative<'a> {
    pub(crate) node: usize,
    /// What a value is called; empty for nothing.
    pub(crate) name: &'a str,
    /// Whether an enumeration gives this name.
    is_label: bool,
}

/// How far alternatives are searched for.
#[derive(Clone, Copy, PartialEq, Eq)]
pub(crate) enum Depth {
    /// Up to names of rules with these types, and to tags.
    Types,
    /// Through all rules and tags.
    Whole,
}

/// What the items of a type are, by the first of its alternatives that says it.
#[derive(Clone, Copy, PartialEq, Eq)]
pub(crate) enum Kind {
    Map,
    /// An array with this group.
    Array(usize),
    /// Values that have names.
    Values,
}

impl<'a> Alternative<'a> {
    /// A node that has no name so far.
    fn new(node: usize) -> Alternative<'a> {
        Alternative {
            node,
            name: "",
            is_label: false,
        }
    }

    /// What is at another node, for a rule of this name.
    fn of_rule(self, node: usize, name: Option<&'a str>) -> Alternative<'a> {
        Alternative {
            node,
            name: if self.is_label {
                self.name
            } else {
                name.unwrap_or("")
            },
            is_label: self.is_label,
        }
    }

    /// The value that it is, if it has a name. The name of a rule counts for integers alone.
    pub(crate) fn value(self, source: &Source<'a>) -> Option<Key<'a>> {
        if self.name.is_empty() {
            return None;
        }
        match source.key_of(self.node)? {
            Key::Text(_) if !self.is_label => None,
            key => Some(key),
        }
    }

    /// The name that it gives to a key.
    pub(crate) fn key_name(self, key: Key<'a>) -> &'a str {
        match key {
            Key::Text(_) if !self.is_label => "",
            _ => self.name,
        }
    }
}

impl<'a> Source<'a> {
    /// The alternatives of a type, in their order. `types` says which rules have a type.
    pub(crate) fn alternatives(
        &self,
        node: usize,
        depth: Depth,
        types: &[Option<usize>],
    ) -> Result<Vec<Alternative<'a>>, AllocError> {
        let mut found = Vec::new(self.alloc);
        let mut left = Vec::new(self.alloc);
        left.push(Alternative::new(node))?;
        for _ in 0..MOST {
            let Some(next) = left.pop() else {
                break;
            };
            let next = self.labelled(next);
            let is_end = depth == Depth::Types && self.has_type(next.node, types);
            if is_end || !self.push_inner(&mut left, next)? {
                found.push(next)?;
            }
        }
        Ok(found)
    }

    /// The same, with the name that an enumeration gives it.
    fn labelled(&self, next: Alternative<'a>) -> Alternative<'a> {
        match self.label(next.node) {
            Some(name) if !next.is_label => Alternative {
                name,
                is_label: true,
                ..next
            },
            _ => next,
        }
    }

    /// The node of what a tag is around. For tag 24 that is the item in the byte string.
    fn below_tag(&self, number: u64, item: usize) -> usize {
        match self.schema.node(item) {
            Node::Encoded { item: held, .. } if number == ENCODED => held,
            _ => item,
        }
    }

    /// Whether a node is a tag, or the name of a rule that has a type.
    fn has_type(&self, node: usize, types: &[Option<usize>]) -> bool {
        match self.schema.node(node) {
            Node::Rule(rule) => matches!(types.get(rule), Some(Some(_))),
            Node::Tag { number, item } => self.below_tag(number, item) == item,
            _ => false,
        }
    }

    /// Appends the alternatives of one, the last first; returns whether it has some.
    fn push_inner(
        &self,
        left: &mut Vec<Alternative<'a>>,
        next: Alternative<'a>,
    ) -> Result<bool, AllocError> {
        match self.schema.node(next.node) {
            Node::Rule(rule) if !self.is_time(rule) => {
                left.push(next.of_rule(self.rule_node(rule), self.rule_name(rule)))?;
            }
            Node::Choice(list) => {
                for index in self.schema.list(list).iter().rev() {
                    left.push(next.of_rule(*index, None))?;
                }
            }
            Node::Tag { number, item } => {
                left.push(Alternative::new(self.below_tag(number, item)))?;
            }
            Node::AnyTag { item, .. } => left.push(Alternative::new(item))?,
            Node::Both { target, .. }
            | Node::Unequal { target, .. }
            | Node::Size { target, .. }
            | Node::Compared { target, .. } => left.push(Alternative {
                node: target,
                ..next
            })?,
            _ => return Ok(false),
        }
        Ok(true)
    }

    /// What the items of a type are, by the first of its alternatives that says it.
    pub(crate) fn kind_of(&self, alternatives: &[Alternative<'a>]) -> Option<Kind> {
        for one in alternatives {
            match self.schema.node(one.node) {
                Node::Map(_) => return Some(Kind::Map),
                Node::Array(group) => return Some(Kind::Array(group)),
                _ if one.value(self).is_some() => return Some(Kind::Values),
                _ => {}
            }
        }
        None
    }
}
