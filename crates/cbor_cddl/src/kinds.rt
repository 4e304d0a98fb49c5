//! Checks that a CDDL text has no group in a place that needs a type. The root has to be a type,
//! too.

use crate::fault::{Fault, FaultKind};
use crate::load::Loader;
use crate::schema::{List, Node};

impl Loader<'_> {
    /// Whether a node is a group.
    fn is_group(&self, index: usize) -> bool {
        let mut index = index;
        for _ in 0..self.rules.len().saturating_add(1) {
            match self.node(index) {
                Node::Rule(rule) => match self.rules.get(rule) {
                    Some(rule) => index = rule.node,
                    None => return false,
                },
                Node::Sequence(_)
                | Node::GroupChoice(_)
                | Node::Entry { .. }
                | Node::Repeated { .. } => return true,
                _ => return false,
            }
        }
        false
    }

    /// Refuses a group.
    fn need_type(&self, index: usize) -> Result<(), Fault> {
        if self.is_group(index) {
            return Err(Fault::new(self.span(index), FaultKind::Group));
        }
        Ok(())
    }

    /// Refuses a group as the root.
    pub(crate) fn need_root(&self, index: usize) -> Result<(), Fault> {
        if self.is_group(index) {
            return Err(Fault::new(self.span(index), FaultKind::GroupRoot));
        }
        Ok(())
    }

    /// Refuses two groups.
    fn need_types(&self, first: usize, second: usize) -> Result<(), Fault> {
        self.need_type(first)?;
        self.need_type(second)
    }

    /// Refuses groups in a list.
    fn need_listed(&self, list: List) -> Result<(), Fault> {
        for index in self.lists.get(list.start..list.end).unwrap_or(&[]) {
            self.need_type(*index)?;
        }
        Ok(())
    }

    /// Refuses groups where the parts of a node have to be types.
    fn check_node(&self, node: Node) -> Result<(), Fault> {
        match node {
            Node::Choice(list) => self.need_listed(list),
            Node::Tag { item, .. } | Node::AnyTag { item, .. } => self.need_type(item),
            Node::Simples(numbers) => self.need_type(numbers),
            Node::Entry { key, value, .. } => self.need_types(key, value),
            Node::Size { target, sizes } => self.need_types(target, sizes),
            Node::Bits { target, bits } => self.need_types(target, bits),
            Node::Encoded { target, item } => self.need_types(target, item),
            Node::EncodedSequence { target, array } => self.need_types(target, array),
            Node::Both { target, other } | Node::Unequal { target, other } => {
                self.need_types(target, other)
            }
            Node::Pattern { target, .. } | Node::Compared { target, .. } => {
                self.need_type(target)
            }
            _ => Ok(()),
        }
    }

    /// Refuses groups where types have to stand.
    pub(crate) fn check_kinds(&self) -> Result<(), Fault> {
        for node in &self.nodes {
            self.check_node(*node)?;
        }
        Ok(())
    }
}
