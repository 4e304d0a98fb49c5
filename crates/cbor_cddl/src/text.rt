//! `Schema::load` parses a CDDL text, resolves its names and checks it. `source_of` returns the
//! source: the text with the prelude after it. The places in a `Fault` are places in the source.

use crate::fault::Fault;
use crate::grammar::parse;
use crate::load::Loader;
use crate::prelude::PRELUDE;
use crate::schema::{Label, Node, Rule, Schema, Span};
use std::alloc::{AllocError, Global};

/// A text with the prelude behind it. The spans of a [`Fault`] are in this source.
pub fn source_of(alloc: Global, text: &str) -> Result<String, AllocError> {
    let mut source = String::from_str(alloc, text)?;
    source.push_str(PRELUDE)?;
    Ok(source)
}

/// What is made of a text.
#[derive(Drop)]
struct Parts {
    nodes: Vec<Node>,
    spans: Vec<Span>,
    lists: Vec<usize>,
    rules: Vec<Rule>,
    labels: Vec<Label>,
    pool: Vec<u8>,
    root: usize,
}

/// Loads a source. The prelude begins at the byte `text_len`.
fn parts_of(
    alloc: Global,
    source: &[u8],
    text_len: usize,
    root: Option<&str>,
) -> Result<Parts, Fault> {
    let ast = parse(alloc, source, text_len)?;
    let mut loader = Loader::new(alloc, source, text_len, ast)?;
    let root = loader.load(text_len, root)?;
    Ok(Parts {
        nodes: loader.nodes,
        spans: loader.spans,
        lists: loader.lists,
        rules: loader.rules,
        labels: loader.labels,
        pool: loader.ast.pool,
        root,
    })
}

impl Schema {
    /// Loads a text. An item has to fit the rule `root`, or the first rule.
    pub fn load(alloc: Global, text: &str, root: Option<&str>) -> Result<Schema, Fault> {
        let source = source_of(alloc, text)?;
        let text_len = text.len();
        let parts = parts_of(alloc, source.as_bytes(), text_len, root)?;
        Ok(Schema {
            source,
            text_len,
            nodes: parts.nodes,
            spans: parts.spans,
            lists: parts.lists,
            rules: parts.rules,
            labels: parts.labels,
            pool: parts.pool,
            root: parts.root,
        })
    }
}

impl Loader<'_> {
    /// Loads all that a text needs, and returns the node of the root.
    fn load(&mut self, text_len: usize, root: Option<&str>) -> Result<usize, Fault> {
        self.load_all(text_len)?;
        let root = match root {
            Some(name) => self.root(Some(name.as_bytes()), text_len)?,
            None => self.root(None, text_len)?,
        };
        self.compute_all()?;
        self.need_root(root)?;
        self.check_kinds()?;
        self.rank_all()?;
        Ok(root)
    }
}
