//! `groups_of` says which rules of a schema are groups.

use cbor_cddl::{Node, Schema};
use std::alloc::{AllocError, Global};

/// Whether a rule is a group.
fn is_group(schema: &Schema, rule: usize) -> bool {
    let mut rule = rule;
    for _ in 0..schema.rules.len() {
        let node = match schema.rules.get(rule) {
            Some(rule) => schema.node(rule.node),
            None => return false,
        };
        match node {
            Node::Rule(next) => rule = next,
            Node::Sequence(_) | Node::GroupChoice(_) | Node::Entry { .. } | Node::Repeated { .. } =>
                return true,
            _ => return false,
        }
    }
    false
}

/// Returns which rules of a schema are groups, in the order of the rules.
pub fn groups_of(alloc: Global, schema: &Schema) -> Result<Vec<bool>, AllocError> {
    let mut groups = Vec::with_capacity(alloc, schema.rules.len())?;
    for rule in 0..schema.rules.len() {
        groups.push(is_group(schema, rule))?;
    }
    Ok(groups)
}
