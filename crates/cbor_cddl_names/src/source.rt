//! `Source`: a loaded schema, and look-ups in it: the name of a rule, the label of a node, whether
//! a node is a group, and the key that a node is.

use cbor_cddl::{Node, Schema};
use cbor_names::Key;
use std::alloc::{AllocError, Global};
use std::collections::BTreeMap;

/// The most nodes that are looked at for one type: a group may lead to itself.
pub(crate) const MOST: usize = 10_000;

/// A loaded schema.
#[derive(Drop)]
pub(crate) struct Source<'a> {
    pub(crate) alloc: Global,
    pub(crate) schema: &'a Schema,
    /// The names of values in enumerations, by their nodes.
    labels: BTreeMap<usize, &'a str>,
}

/// The text, if notes can have it as a name.
pub(crate) fn name_of(text: &str) -> Option<&str> {
    let is_printable = |byte: &u8| (0x20..0x7f).contains(byte) && *byte != b'/';
    if text.is_empty() || text.starts_with("*") || !text.as_bytes().iter().all(is_printable) {
        return None;
    }
    Some(text)
}

impl<'a> Source<'a> {
    /// Looks up the labels of a schema.
    pub(crate) fn new(alloc: Global, schema: &'a Schema) -> Result<Source<'a>, AllocError> {
        let mut labels = BTreeMap::new(alloc);
        for label in &schema.labels {
            let text = str::from_utf8(schema.literal(label.name)).unwrap_or("");
            if let Some(name) = name_of(text) {
                labels.insert(label.node, name)?;
            }
        }
        Ok(Source {
            alloc,
            schema,
            labels,
        })
    }

    /// The name of a node that is a value of an enumeration.
    pub(crate) fn label(&self, node: usize) -> Option<&'a str> {
        self.labels.get(&node).copied()
    }

    /// The node of a rule.
    pub(crate) fn rule_node(&self, rule: usize) -> usize {
        match self.schema.rules.get(rule) {
            Some(rule) => rule.node,
            None => self.schema.root,
        }
    }

    /// The name of a rule; none if it is one of the prelude.
    pub(crate) fn rule_name(&self, rule: usize) -> Option<&'a str> {
        let schema = self.schema;
        let span = schema.rules.get(rule)?.name;
        if schema.is_prelude(span) {
            return None;
        }
        name_of(schema.text(span))
    }

    /// Whether a rule is `~time`: seconds from 1970 without their tag.
    pub(crate) fn is_time(&self, rule: usize) -> bool {
        let Some(found) = self.schema.rules.get(rule) else {
            return false;
        };
        let is_tag = matches!(self.schema.node(found.node), Node::Tag { .. });
        let is_prelude = self.schema.is_prelude(found.name);
        is_prelude && !is_tag && self.schema.text(found.name) == "time"
    }

    /// Whether a node is a group.
    pub(crate) fn is_group(&self, node: usize) -> bool {
        let mut node = node;
        for _ in 0..=self.schema.rules.len() {
            match self.schema.node(node) {
                Node::Rule(rule) => node = self.rule_node(rule),
                Node::Sequence(_)
                | Node::GroupChoice(_)
                | Node::Entry { .. }
                | Node::Repeated { .. } => return true,
                _ => return false,
            }
        }
        false
    }

    /// The integer or the text that a node is.
    pub(crate) fn key_of(&self, node: usize) -> Option<Key<'a>> {
        let schema = self.schema;
        match schema.node(node) {
            Node::Integers { least, most } if least == most => {
                Some(Key::Integer(i64::try_from(least).ok()?))
            }
            Node::Text(span) => Some(Key::Text(str::from_utf8(schema.literal(span)).ok()?)),
            _ => None,
        }
    }
}
