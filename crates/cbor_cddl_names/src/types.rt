//! `Types`: the types of a schema, each with its name and its node, before `builder.rt` adds them
//! to tables of names. Its call `known` says what is known of the items at a node, such as their
//! type. A type without a rule gets a name of its own.

use crate::alternatives::{Depth, Kind};
use crate::source::Source;
use cbor_cddl::Node;
use std::alloc::{AllocError, Global};
use std::collections::BTreeMap;

/// A type.
#[derive(Drop)]
pub(crate) struct Type {
    pub(crate) name: String,
    /// Its node in the schema.
    pub(crate) node: usize,
}

/// What is known of a member, or of the value of a key. A type is its place among the types.
#[derive(Clone, Copy)]
pub(crate) enum Known {
    Nothing,
    Of(usize),
    /// An item of the type, or an array of such items.
    OneOrMore(usize),
    /// A byte string that holds an item of the type.
    Encoded(usize),
    /// An item of the type, or a byte string that holds one.
    Nested(usize),
    /// Seconds from 1970.
    Date,
}

/// Where a type without a rule of its own is: in which type, and in what part of it.
#[derive(Clone, Copy)]
pub(crate) struct Spot<'b> {
    pub(crate) parent: usize,
    pub(crate) part: &'b str,
}

/// The types of a schema.
#[derive(Drop)]
pub(crate) struct Types<'a> {
    pub(crate) source: Source<'a>,
    pub(crate) list: Vec<Type>,
    /// For each rule the type that it is.
    of_rules: Vec<Option<usize>>,
    by_node: BTreeMap<usize, usize>,
    by_name: BTreeMap<String, usize>,
}

/// The tag of a type at a node. A tag of the prelude is no sign of a type.
pub(crate) fn tag_of(node: Node) -> Option<u64> {
    match node {
        Node::Tag { number, .. } => match number {
            0..=5 | 21..=24 | 32..=36 | 55_799 => None,
            _ => Some(number),
        },
        _ => None,
    }
}

impl<'a> Types<'a> {
    /// The types of all rules of a schema, but for those of the prelude.
    pub(crate) fn new(source: Source<'a>) -> Result<Types<'a>, AllocError> {
        let alloc = source.alloc;
        let mut types = Types {
            source,
            list: Vec::new(alloc),
            of_rules: Vec::new(alloc),
            by_node: BTreeMap::new(alloc),
            by_name: BTreeMap::new(alloc),
        };
        for rule in 0..types.source.schema.rules.len() {
            let found = types.of_rule(rule)?;
            types.of_rules.push(found)?;
        }
        Ok(types)
    }

    /// Adds the type of a rule, if it is one.
    fn of_rule(&mut self, rule: usize) -> Result<Option<usize>, AllocError> {
        let Some(name) = self.source.rule_name(rule) else {
            return Ok(None);
        };
        let node = self.source.rule_node(rule);
        if !self.is_type(node)? {
            return Ok(None);
        }
        let name = String::from_str(self.source.alloc, name)?;
        Ok(Some(self.add(name, node)?))
    }

    /// Adds a type. A name that is taken gets a number.
    fn add(&mut self, name: String, node: usize) -> Result<usize, AllocError> {
        let index = self.list.len();
        let alloc = self.source.alloc;
        let name = if self.by_name.contains_key(&name) {
            format!(in alloc; "{name}:{index}")?
        } else {
            name
        };
        self.by_name.insert(name.clone()?, index)?;
        self.list.push(Type { name, node })?;
        Ok(index)
    }

    /// What the items at a node are.
    pub(crate) fn kind_at(&self, node: usize) -> Result<Option<Kind>, AllocError> {
        let alternatives = self.source.alternatives(node, Depth::Whole, &[])?;
        Ok(self.source.kind_of(&alternatives))
    }

    /// Whether a node is a type that says something.
    fn is_type(&self, node: usize) -> Result<bool, AllocError> {
        let has_tag = tag_of(self.source.schema.node(node)).is_some();
        Ok(has_tag || self.kind_at(node)?.is_some())
    }

    /// The type at a node: that of a rule, or one of its own.
    pub(crate) fn at(&mut self, node: usize, spot: Spot) -> Result<Option<usize>, AllocError> {
        let found = self.named(node)?;
        if found.is_some() {
            return Ok(found);
        }
        if !self.is_type(node)? {
            return Ok(None);
        }
        Ok(Some(self.unnamed(node, spot)?))
    }

    /// The type of a rule at a node.
    fn named(&self, node: usize) -> Result<Option<usize>, AllocError> {
        let alternatives = self
            .source
            .alternatives(node, Depth::Types, &self.of_rules)?;
        for one in &alternatives {
            if let Node::Rule(rule) = self.source.schema.node(one.node)
                && let Some(Some(found)) = self.of_rules.get(rule)
            {
                return Ok(Some(*found));
            }
            if one.value(&self.source).is_some() {
                break;
            }
        }
        Ok(None)
    }

    /// The type at a node that no rule names.
    fn unnamed(&mut self, node: usize, spot: Spot) -> Result<usize, AllocError> {
        if let Some(found) = self.by_node.get(&node) {
            return Ok(*found);
        }
        let parent = match self.list.get(spot.parent) {
            Some(parent) => parent.name.as_str(),
            None => "",
        };
        let alloc = self.source.alloc;
        let name = format!(in alloc; "{parent}:{}", spot.part)?;
        let index = self.add(name, node)?;
        self.by_node.insert(node, index)?;
        Ok(index)
    }

    /// What is known of the items at a node.
    pub(crate) fn known(&mut self, node: usize, spot: Spot) -> Result<Known, AllocError> {
        let plain = self.at(node, spot)?;
        let held = self.held(node, spot)?;
        match (plain, held) {
            (Some(found), Some(inner)) if found == inner => return Ok(Known::Nested(found)),
            (Some(found), _) if self.has_arrays_of(node, found)? => {
                return Ok(Known::OneOrMore(found));
            }
            (Some(found), _) => return Ok(Known::Of(found)),
            (None, Some(inner)) => return Ok(Known::Encoded(inner)),
            (None, None) => {}
        }
        let alternatives = self.source.alternatives(node, Depth::Whole, &[])?;
        for one in &alternatives {
            if let Node::Rule(rule) = self.source.schema.node(one.node)
                && self.source.is_time(rule)
            {
                return Ok(Known::Date);
            }
        }
        Ok(Known::Nothing)
    }

    /// Whether the items at a node, which are of this type, may also be arrays of items of it.
    fn has_arrays_of(&self, node: usize, found: usize) -> Result<bool, AllocError> {
        let alternatives = self
            .source
            .alternatives(node, Depth::Types, &self.of_rules)?;
        for one in &alternatives {
            let Node::Array(group) = self.source.schema.node(one.node) else {
                continue;
            };
            let members = self.source.members(group)?;
            if let [only] = members.as_slice()
                && only.occurrence.most > 1
                && self.named(only.value)? == Some(found)
            {
                return Ok(true);
            }
        }
        Ok(false)
    }

    /// The type of the item that a byte string at a node holds.
    pub(crate) fn held(&mut self, node: usize, spot: Spot) -> Result<Option<usize>, AllocError> {
        let alternatives = self
            .source
            .alternatives(node, Depth::Types, &self.of_rules)?;
        for one in &alternatives {
            if let Node::Encoded { item, .. } = self.source.schema.node(one.node) {
                return self.at(item, spot);
            }
        }
        Ok(None)
    }
}
