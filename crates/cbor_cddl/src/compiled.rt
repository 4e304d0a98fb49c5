//! `Schema::patterns` compiles the patterns of a schema. A `.regexp` pattern (XSD syntax) has to
//! match a whole text, and a `.pcre` pattern may match any part.

use crate::fault::{Fault, FaultKind};
use crate::schema::{Node, Schema, Span};
use regex::{Error, Regex};
use std::alloc::Global;

/// The pattern of a node.
#[derive(Drop)]
pub struct Pattern {
    /// The node.
    pub node: usize,
    /// Its pattern.
    pub regex: Regex,
}

/// The regular expression of a pattern.
fn compiled(alloc: Global, pattern: &str, anchored: bool, span: Span) -> Result<Regex, Fault> {
    let made = if anchored {
        let text = format!(in alloc; "^(?:{pattern})$")?;
        Regex::new(alloc, &text)
    } else {
        Regex::new(alloc, pattern)
    };
    match made {
        Ok(regex) => Ok(regex),
        Err(Error::OutOfMemory) => Err(Fault::new(span, FaultKind::Memory)),
        Err(_) => Err(Fault::new(span, FaultKind::Pattern)),
    }
}

/// The pattern of a node, if it has one.
fn pattern_of(alloc: Global, schema: &Schema, node: usize) -> Result<Option<Regex>, Fault> {
    let Node::Pattern {
        pattern,
        anchored,
        operand,
        ..
    } = schema.node(node)
    else {
        return Ok(None);
    };
    let span = schema.span(operand);
    match str::from_utf8(schema.literal(pattern)) {
        Ok(text) => Ok(Some(compiled(alloc, text, anchored, span)?)),
        Err(_) => Err(Fault::new(span, FaultKind::Pattern)),
    }
}

impl Schema {
    /// The patterns, in the order of their nodes. The only fault, but for memory, is that of a
    /// pattern.
    pub fn patterns(&self, alloc: Global) -> Result<Vec<Pattern>, Fault> {
        let mut patterns = Vec::new(alloc);
        for node in 0..self.nodes.len() {
            if let Some(regex) = pattern_of(alloc, self, node)? {
                patterns.push(Pattern { node, regex })?;
            }
        }
        Ok(patterns)
    }
}
