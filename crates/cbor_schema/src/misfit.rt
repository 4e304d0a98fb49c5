//! Makes the [`Misfit`] of an item: writes in words what the schema wants and what is there. For a
//! misspelled key it also names the key that was probably meant.

use crate::message::{Misfit, Others};
use crate::text::Text;
use cbor_cddl::{Node, Schema, Span, Stop, likeness};
use cbor_edn_writer::bytes_to_edn;
use cbor_misses::{Found, Kind, Miss, Missed, Want};
use std::alloc::{AllocError, Global};

/// The most nodes of a group that are looked at for a key that is like another.
const MOST_NODES: usize = 1000;

/// What an item misses, to be said in words.
#[derive(Clone, Copy)]
pub(crate) struct Words<'w, 'a> {
    pub(crate) alloc: Global,
    pub(crate) schema: &'w Schema,
    pub(crate) missed: &'w Missed<'a>,
}

impl Words<'_, '_> {
    /// The misfit of an item that begins at this byte of the data.
    pub(crate) fn misfit(&self, begins: usize) -> Result<Misfit, Stop> {
        let best = self.missed.best;
        let miss = best.miss;
        Ok(Misfit {
            place: miss.place,
            path: self.path(miss.index, begins)?,
            is_inside: self.missed.items.item(miss.index).holder.is_some(),
            expected: self.expected()?,
            name: self.name_text(miss.name)?,
            name_place: miss.name.start,
            found: self.found(miss)?,
            others: match best.less_far {
                Some(others) => Some(Others {
                    count: others.count,
                    name: self.name_text(others.name)?,
                    name_place: others.name.start,
                }),
                None => None,
            },
        })
    }

    /// A name in the source of the schema, without the quotes of a text.
    fn name_text(&self, name: Span) -> Result<String, AllocError> {
        let name = self.schema.text(name);
        let name = name.strip_prefix('"').unwrap_or(name);
        let name = name.strip_suffix('"').unwrap_or(name);
        String::from_str(self.alloc, name)
    }

    /// What was wanted, each once.
    fn expected(&self) -> Result<String, AllocError> {
        let mut said: Vec<String> = Vec::new(self.alloc);
        let mut out = Text::new(self.alloc);
        for want in self.missed.wants() {
            let mut one = Text::new(self.alloc);
            self.push_want(&mut one, *want);
            let one = one.done()?;
            if said.iter().any(|other| other.as_str() == one.as_str()) {
                continue;
            }
            if !out.is_empty() {
                out.push(" / ");
            }
            out.push(&one);
            said.push(one)?;
        }
        out.done()
    }

    /// Appends what was wanted.
    fn push_want(&self, out: &mut Text, want: Want) {
        match want {
            Want::Type(node) => self.push_type(out, node),
            Want::Key(node) => {
                out.push("the key ");
                self.push_key(out, node);
            }
            Want::AtMost(node, 0) => {
                out.push("no key ");
                self.push_key(out, node);
            }
            Want::AtMost(node, most) => {
                out.push("at most ");
                out.push_count(most as usize, " key");
                out.push(" ");
                self.push_key(out, node);
            }
            Want::ArrayEnd(count) => {
                out.push("the end of the array after ");
                out.push_count(count, " item");
            }
            Want::MapEnd => out.push("the end of the map"),
            Want::OtherKey => out.push("each key once"),
        }
    }

    /// Appends a key that is wanted.
    fn push_key(&self, out: &mut Text, node: usize) {
        match self.schema.node(node) {
            Node::Text(span) => {
                out.push("\"");
                out.push(self.literal(span));
                out.push("\"");
            }
            _ => self.push_type(out, node),
        }
    }

    /// A literal text.
    fn literal(&self, span: Span) -> &str {
        let bytes = self.schema.literal(span);
        match str::from_utf8(bytes) {
            Ok(text) => text,
            Err(_) => "",
        }
    }

    /// Appends a type as it is written.
    fn push_type(&self, out: &mut Text, node: usize) {
        match self.schema.node(node) {
            Node::Array(_) => out.push("an array"),
            Node::Map(_) => out.push("a map"),
            Node::Tag { number, .. } => out.push_numbered("tag ", number),
            Node::AnyTag { .. } => out.push("a tag"),
            Node::Choice(list) if list.start == list.end => {
                out.push("nothing, since the socket is empty");
            }
            _ => out.push_cut(self.schema.text(self.schema.span(node))),
        }
    }

    /// What was there.
    fn found(&self, miss: Miss) -> Result<String, AllocError> {
        let mut text = Text::new(self.alloc);
        let out = &mut text;
        match miss.found {
            Found::Item => self.push_item(out, miss.index),
            Found::Sized => self.push_sized(out, miss.index),
            Found::Bit(bit) => {
                out.push_numbered("bit ", bit);
                out.push(" of ");
                self.push_item(out, miss.index);
            }
            Found::NoCbor => out.push("bytes that are no CBOR"),
            Found::ArrayEnd(count) => {
                out.push_numbered("the end of the array of ", count as u64);
            }
            Found::Without(count) => {
                out.push_numbered("a map of ", count as u64);
                out.push(" without it");
            }
            Found::Key | Found::SecondKey | Found::OtherKey(_) => {
                self.push_found_key(out, miss);
            }
        }
        text.done()
    }

    /// Appends the key that was there.
    fn push_found_key(&self, out: &mut Text, miss: Miss) {
        out.push("the key ");
        self.push_item(out, miss.index);
        match miss.found {
            Found::SecondKey => out.push(" for the second time"),
            Found::OtherKey(group) => {
                out.push(", which is in no entry");
                self.push_like(out, miss.index, group);
            }
            _ => {}
        }
    }

    /// Appends an item: a container by its size, and another one as notation.
    fn push_item(&self, out: &mut Text, index: usize) {
        let item = self.missed.items.item(index);
        match item.kind {
            Kind::Array => out.push_numbered("an array of ", item.count as u64),
            Kind::Map => out.push_numbered("a map of ", (item.count / 2) as u64),
            Kind::Tag(number) => out.push_numbered("tag ", number),
            _ => match bytes_to_edn(self.alloc, self.missed.items.bytes(item.span)) {
                Ok(text) => out.push_cut(&text),
                Err(cbor_grammar::Error::Memory) => out.fail(),
                Err(_) => out.push("an item"),
            },
        }
    }

    /// Appends the key of an entry of a group that is like a key.
    fn push_like(&self, out: &mut Text, key: usize, group: usize) {
        let Kind::Text(content) = self.missed.items.item(key).kind else {
            return;
        };
        match self.like_entry(group, content) {
            Ok(Some(like)) => {
                out.push("; \"");
                out.push(self.literal(like));
                out.push("\" is one");
            }
            Ok(None) => {}
            Err(_) => out.fail(),
        }
    }

    /// The literal key of an entry of a group that is like the content of a text.
    fn like_entry(&self, group: usize, content: Span) -> Result<Option<Span>, AllocError> {
        let mut found = None;
        let mut least = usize::MAX;
        let mut nodes = Vec::new(self.alloc);
        nodes.push(group)?;
        for _ in 0..MOST_NODES {
            let Some(node) = nodes.pop() else {
                break;
            };
            if let Node::Entry { key, .. } = self.schema.node(node)
                && let Node::Text(literal) = self.schema.node(key)
                && let Some(changed) = self.distance(literal, content)
                && changed < least
            {
                least = changed;
                found = Some(literal);
            }
            self.push_parts(&mut nodes, node)?;
        }
        Ok(found)
    }

    /// How far a literal is from the content of a text, if they are alike.
    fn distance(&self, literal: Span, content: Span) -> Option<usize> {
        let literal = self.schema.literal(literal);
        let content = self.missed.items.bytes(content);
        likeness(literal, content)
    }

    /// Appends the parts of a group.
    fn push_parts(&self, nodes: &mut Vec<usize>, node: usize) -> Result<(), AllocError> {
        match self.schema.node(node) {
            Node::Rule(rule) => {
                if let Some(rule) = self.schema.rules.get(rule) {
                    nodes.push(rule.node)?;
                }
            }
            Node::Repeated { item, .. } => nodes.push(item)?,
            Node::Sequence(list) | Node::GroupChoice(list) => {
                for part in self.schema.list(list) {
                    nodes.push(*part)?;
                }
            }
            _ => {}
        }
        Ok(())
    }

    /// Appends a string with its length.
    fn push_sized(&self, out: &mut Text, index: usize) {
        self.push_item(out, index);
        if let Kind::Text(span) | Kind::Bytes(span) = self.missed.items.item(index).kind {
            out.push(" of ");
            out.push_count(span.end.saturating_sub(span.start), " byte");
        }
    }
}
