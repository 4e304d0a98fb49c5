//! `Tables`: a loaded schema with its patterns, and look-ups in it: the node at an index, the
//! indices of a list, the body of a rule, a literal string, whether a node is a group, and whether
//! a text matches the pattern of a node.
ghost use Rattle.std.specs.Prelude.{◌≡◌, ◌+◌, length, IfOk, get_or};
ghost use Rattle.cbor_fits.specs.Tables.{rules_of, part, node_at, body_of, is_group_within};
ghost use Rattle.cbor_fits.specs.Tables.{is_match_of};

use cbor_cddl::{List, Node, Pattern, Schema, Span};
use std::alloc::{AllocError, Global};

/// A loaded schema with its patterns.
#[derive(Drop)]
pub struct Tables<'a> {
    pub(crate) alloc: Global,
    pub(crate) schema: &'a Schema,
    pub(crate) patterns: &'a [Pattern],
}

/// A part of a slice; none of it, if not all of the part is there.
fn part_of<T>(all: &[T], start: usize, end: usize) -> &[T]
    ensures { result.now ≡ part all.now start end }
{
    if start <= end && end <= all.len() {
        &all[start..end]
    } else {
        &[]
    }
}

/// Whether a node of a schema is a group.
fn is_group_within(schema: &Schema, node: Node, most: usize) -> bool
    ensures { result ≡ is_group_within most schema.now node }
{
    if most == 0 {
        return false;
    }
    match node {
        Node::Rule(rule) => {
            let body = node_of(schema, body_of(schema, rule));
            is_group_within(schema, body, most - 1)
        }
        Node::Sequence(_) | Node::GroupChoice(_) | Node::Entry { .. } | Node::Repeated { .. } =>
            true,
        _ => false,
    }
}

/// The node at an index.
fn node_of(schema: &Schema, index: usize) -> Node
    ensures { result ≡ node_at schema.now index }
{
    if index < schema.nodes.len() {
        schema.nodes[index]
    } else {
        Node::Any
    }
}

/// The index of the type or the group of a rule.
fn body_of(schema: &Schema, rule: usize) -> usize
    ensures { result ≡ body_of schema.now.rules.items rule }
{
    if rule < schema.rules.len() {
        schema.rules[rule].node
    } else {
        0
    }
}

impl<'a> Tables<'a> {
    /// The tables of a schema, with the patterns of its nodes.
    pub fn new(alloc: Global, schema: &'a Schema, patterns: &'a [Pattern]) -> Tables<'a>
        ensures schema { result.schema.now ≡ schema.now }
        ensures patterns { result.patterns.now ≡ patterns.now }
    {
        Tables {
            alloc,
            schema,
            patterns,
        }
    }

    /// The node at an index.
    pub(crate) fn node(&self, index: usize) -> Node
        ensures { result ≡ (rules_of self.now).node index }
    {
        node_of(self.schema, index)
    }

    /// The indices of a list.
    pub(crate) fn list(&self, list: List) -> &[usize]
        ensures { result.now ≡ (rules_of self.now).list list }
    {
        part_of(&self.schema.lists, list.start, list.end)
    }

    /// The index of the type or the group of a rule.
    pub(crate) fn body(&self, rule: usize) -> usize
        ensures { result ≡ (rules_of self.now).body rule }
    {
        body_of(self.schema, rule)
    }

    /// Whether a node is a group.
    pub(crate) fn is_group(&self, node: Node) -> bool
        ensures { result ≡ (rules_of self.now).is_group node }
    {
        is_group_within(self.schema, node, self.schema.rules.len() + 1)
    }

    /// The content of a literal string.
    pub(crate) fn literal(&self, span: Span) -> &[u8]
        ensures { result.now ≡ (rules_of self.now).literal span }
    {
        part_of(&self.schema.pool, span.start, span.end)
    }

    /// Whether a text matches the pattern of a node.
    pub(crate) fn is_match(&self, node: usize, text: &str) -> Result<bool, AllocError>
        ensures { IfOk result (λ b. b ≡ (rules_of self.now).is_match node text.now) }
    {
        'patterns: for pattern in self.patterns {
            if pattern.node == node {
                let mut matcher = pattern.regex.matcher(self.alloc)?;
                return Ok(matcher.is_match(text));
            }
        }
        Ok(false)
    }
}
