//! `Schema::pruned` copies a schema: only the parts that its root leads to, and no labels.
//! `to_flat` writes this copy, so the bytes are short and quick to read.

use crate::schema::{List, Node, Rule, Schema, Span};
use std::alloc::{AllocError, Global};

/// A schema, and the parts of it that are copied so far.
#[derive(Drop)]
struct Pruning<'a> {
    from: &'a Schema,
    /// For each node, its index in the copy.
    nodes: Vec<Option<usize>>,
    /// For each rule, its index in the copy.
    rules: Vec<Option<usize>>,
    /// The nodes of the copy by their index in the schema, in the order of the copy.
    found: Vec<usize>,
    copy: Schema,
    /// Whether memory ran out for a part of the copy.
    failed: bool,
}

/// As many indices that are not known yet.
fn unknown(alloc: Global, count: usize) -> Result<Vec<Option<usize>>, AllocError> {
    let mut indices = Vec::with_capacity(alloc, count)?;
    for _ in 0..count {
        indices.push(None)?;
    }
    Ok(indices)
}

impl<'a> Pruning<'a> {
    /// Nothing is copied yet.
    fn new(alloc: Global, from: &'a Schema) -> Result<Pruning<'a>, AllocError> {
        Ok(Pruning {
            from,
            nodes: unknown(alloc, from.nodes.len())?,
            rules: unknown(alloc, from.rules.len())?,
            found: Vec::new(alloc),
            copy: Schema {
                source: String::from_str(alloc, from.source.as_str())?,
                text_len: from.text_len,
                nodes: Vec::new(alloc),
                spans: Vec::new(alloc),
                lists: Vec::new(alloc),
                rules: Vec::new(alloc),
                labels: Vec::new(alloc),
                pool: Vec::from_slice(alloc, &from.pool)?,
                root: 0,
            },
            failed: false,
        })
    }

    /// The index of a node in the copy. It is copied later.
    fn node(&mut self, index: usize) -> usize {
        if let Some(Some(known)) = self.nodes.get(index) {
            return *known;
        }
        let new = self.found.len();
        self.failed |= self.found.push(index).is_err();
        if let Some(place) = self.nodes.get_mut(index) {
            *place = Some(new);
        }
        new
    }

    /// The index of a rule in the copy, which has it.
    fn rule(&mut self, index: usize) -> usize {
        if let Some(Some(known)) = self.rules.get(index) {
            return *known;
        }
        let new = self.copy.rules.len();
        if let Some(place) = self.rules.get_mut(index) {
            *place = Some(new);
        }
        let nowhere = Span { start: 0, end: 0 };
        let (name, node, rank) = match self.from.rules.get(index) {
            Some(rule) => (rule.name, rule.node, rule.rank),
            None => (nowhere, 0, 0),
        };
        let node = self.node(node);
        self.failed |= self.copy.rules.push(Rule { name, node, rank }).is_err();
        new
    }

    /// A list in the copy, which has it.
    fn list(&mut self, list: List) -> List {
        let start = self.copy.lists.len();
        for index in self.from.lists.get(list.start..list.end).unwrap_or(&[]) {
            let index = self.node(*index);
            self.failed |= self.copy.lists.push(index).is_err();
        }
        List {
            start,
            end: self.copy.lists.len(),
        }
    }

    /// A node as it is in the copy.
    fn renumbered(&mut self, node: Node) -> Node {
        match node {
            Node::Simples(numbers) => Node::Simples(self.node(numbers)),
            Node::Array(group) => Node::Array(self.node(group)),
            Node::Map(group) => Node::Map(self.node(group)),
            Node::Rule(rule) => Node::Rule(self.rule(rule)),
            Node::Choice(list) => Node::Choice(self.list(list)),
            Node::Sequence(list) => Node::Sequence(self.list(list)),
            Node::GroupChoice(list) => Node::GroupChoice(self.list(list)),
            Node::Tag { number, item } => Node::Tag {
                number,
                item: self.node(item),
            },
            Node::AnyTag { numbers, item } => Node::AnyTag {
                numbers: match numbers {
                    Some(numbers) => Some(self.node(numbers)),
                    None => None,
                },
                item: self.node(item),
            },
            Node::Repeated { item, occurrence } => Node::Repeated {
                item: self.node(item),
                occurrence,
            },
            Node::Entry {
                key,
                cut,
                value,
                occurrence,
            } => Node::Entry {
                key: self.node(key),
                cut,
                value: self.node(value),
                occurrence,
            },
            control => self.control(control),
        }
    }

    /// A control as it is in the copy. Other nodes lead to none.
    fn control(&mut self, node: Node) -> Node {
        match node {
            Node::Size { target, sizes } => Node::Size {
                target: self.node(target),
                sizes: self.node(sizes),
            },
            Node::Bits { target, bits } => Node::Bits {
                target: self.node(target),
                bits: self.node(bits),
            },
            Node::Encoded { target, item } => Node::Encoded {
                target: self.node(target),
                item: self.node(item),
            },
            Node::EncodedSequence { target, array } => Node::EncodedSequence {
                target: self.node(target),
                array: self.node(array),
            },
            Node::Pattern {
                target,
                pattern,
                anchored,
                operand,
            } => Node::Pattern {
                target: self.node(target),
                pattern,
                anchored,
                operand: self.node(operand),
            },
            Node::Compared {
                target,
                comparison,
                limit,
            } => Node::Compared {
                target: self.node(target),
                comparison,
                limit,
            },
            Node::Both { target, other } => Node::Both {
                target: self.node(target),
                other: self.node(other),
            },
            Node::Unequal { target, other } => Node::Unequal {
                target: self.node(target),
                other: self.node(other),
            },
            other => other,
        }
    }

    /// Copies each node that is found, until no more are.
    fn copy_found(&mut self) -> Result<(), AllocError> {
        for _ in 0..self.from.nodes.len() {
            let Some(index) = self.found.get(self.copy.nodes.len()).copied() else {
                break;
            };
            let node = self.renumbered(self.from.node(index));
            self.copy.nodes.push(node)?;
            self.copy.spans.push(self.from.span(index))?;
        }
        Ok(())
    }
}

impl Schema {
    /// The same schema with only what its root leads to, and without its labels, which matching
    /// does not need.
    pub(crate) fn pruned(&self, alloc: Global) -> Result<Schema, AllocError> {
        let mut pruning = Pruning::new(alloc, self)?;
        pruning.copy.root = pruning.node(self.root);
        pruning.copy_found()?;
        if pruning.failed {
            return Err(AllocError);
        }
        Ok(pruning.copy)
    }
}
