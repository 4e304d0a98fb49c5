//! `Run`: the state while one item is matched: the number of steps, the results kept, the pairs of
//! maps taken, and the misfit to report. `types.rt`, `controls.rt`, `arrays.rt` and `maps.rt` match
//! with it.

use crate::blame::{Blame, Found, Miss, Want};
use crate::items::{Item, Items};
use crate::missed::Prepared;
use cbor_cddl::{Node, Pattern, Schema, Span, Stop};
use regex::Matcher;
use std::alloc::{AllocError, Global};
use std::collections::BTreeMap;

/// The most steps that are made.
const MOST_STEPS: u64 = 10_000_000;

/// After this many steps, what fits is kept.
const KEPT_FROM: u64 = 10_000;

/// What the content of a byte string holds.
#[derive(Clone, Copy)]
pub(crate) enum Inner {
    /// The item, or the array of the items.
    Item(usize),
    /// No items.
    Nothing,
    /// Items with a map that has this key twice.
    KeyTwice(usize),
}

/// One item that is matched.
#[derive(Drop)]
pub(crate) struct Run<'a> {
    pub(crate) alloc: Global,
    pub(crate) schema: &'a Schema,
    /// Which rules are groups.
    pub(crate) groups: &'a [bool],
    /// The patterns, in the order of their nodes.
    pub(crate) patterns: &'a [Pattern],
    pub(crate) matchers: Vec<Matcher<'a>>,
    pub(crate) items: Items<'a>,
    pub(crate) blame: Blame,
    /// How many bytes fit before what is matched now.
    pub(crate) gained: usize,
    /// The name of the innermost rule or entry.
    pub(crate) name: Span,
    steps: u64,
    /// Where rules took part: 0 where they do not fit, and otherwise one more than the place after.
    kept: BTreeMap<(usize, usize), usize>,
    /// The items in byte strings.
    pub(crate) inner: BTreeMap<(usize, bool), Inner>,
    /// Which parts of maps are taken, and in which order.
    pub(crate) taken: Vec<bool>,
    pub(crate) trail: Vec<usize>,
    /// How many bytes are taken of the map that is matched now.
    pub(crate) taken_bytes: usize,
}

impl<'a> Run<'a> {
    /// Nothing is matched yet.
    pub(crate) fn new(
        alloc: Global,
        prepared: Prepared<'a>,
        data: &'a [u8],
    ) -> Result<Run<'a>, AllocError> {
        let Prepared {
            schema,
            groups,
            patterns,
        } = prepared;
        let mut matchers = Vec::with_capacity(alloc, patterns.len())?;
        for pattern in patterns {
            matchers.push(pattern.regex.matcher(alloc)?)?;
        }
        let nowhere = Span { start: 0, end: 0 };
        Ok(Run {
            alloc,
            schema,
            groups,
            patterns,
            matchers,
            items: Items::new(alloc, data),
            blame: Blame::new(alloc),
            gained: 0,
            name: nowhere,
            steps: 0,
            kept: BTreeMap::new(alloc),
            inner: BTreeMap::new(alloc),
            taken: Vec::new(alloc),
            trail: Vec::new(alloc),
            taken_bytes: 0,
        })
    }

    /// Counts a step.
    pub(crate) fn step(&mut self) -> Result<(), Stop> {
        self.steps = self.steps.saturating_add(1);
        if self.steps > MOST_STEPS {
            return Err(Stop::Work);
        }
        Ok(())
    }

    /// What is kept of a rule at a place.
    pub(crate) fn known(&self, rule: usize, place: usize) -> Option<usize> {
        if self.steps < KEPT_FROM {
            return None;
        }
        self.kept.get(&(rule, place)).copied()
    }

    /// Keeps how a rule matched at a place.
    pub(crate) fn keep(
        &mut self,
        rule: usize,
        place: usize,
        outcome: usize,
    ) -> Result<(), AllocError> {
        if self.steps >= KEPT_FROM && self.blame.muted == 0 {
            self.kept.insert((rule, place), outcome)?;
        }
        Ok(())
    }

    /// Takes note that something else was wanted at an item.
    pub(crate) fn miss(
        &mut self,
        want: Want,
        index: usize,
        found: Found,
    ) -> Result<(), AllocError> {
        let item = self.items.item(index);
        let miss = Miss {
            gained: self.gained,
            index,
            place: item.place,
            start: item.span.start,
            found,
            name: self.name,
        };
        self.blame.add(want, miss)
    }

    /// Takes note that an item does not fit a node, and returns `false`.
    pub(crate) fn miss_item(&mut self, node: usize, index: usize) -> Result<bool, Stop> {
        self.miss(Want::Type(node), index, Found::Item)?;
        Ok(false)
    }

    /// Takes note of a key that its map has had before, and returns `false`.
    pub(crate) fn miss_second_key(&mut self, key: usize) -> Result<bool, Stop> {
        self.miss(Want::OtherKey, key, Found::SecondKey)?;
        Ok(false)
    }

    /// Whether the reported misfit is inside an item.
    pub(crate) fn is_blamed(&self, index: usize) -> bool {
        let span = self.items.item(index).span;
        match self.blame.best {
            Some(best) => span.start <= best.miss.start && best.miss.start < span.end,
            None => false,
        }
    }

    /// The name that a message has for an entry: its key, if that is a name or a text, and
    /// otherwise the name of what the entry is in.
    pub(crate) fn entry_name(&self, key: usize) -> Span {
        let span = self.schema.span(key);
        if self.schema.is_prelude(span) {
            return self.name;
        }
        match self.schema.node(key) {
            Node::Text(_) => span,
            Node::Rule(_) => {
                let text = self.schema.text(span);
                let len = text.find('<').unwrap_or(text.len());
                let start = span.start;
                Span {
                    start,
                    end: start.saturating_add(len),
                }
            }
            _ => self.name,
        }
    }

    /// Whether a node is a group.
    pub(crate) fn is_group(&self, node: usize) -> bool {
        match self.schema.node(node) {
            Node::Rule(rule) => self.groups.get(rule).copied().unwrap_or(false),
            Node::Sequence(_) | Node::GroupChoice(_) | Node::Entry { .. } | Node::Repeated { .. } =>
                true,
            _ => false,
        }
    }

    /// The node of a rule.
    pub(crate) fn rule_node(&self, rule: usize) -> usize {
        match self.schema.rules.get(rule) {
            Some(rule) => rule.node,
            None => 0,
        }
    }

    /// The name of a rule, unless it is one of the prelude.
    pub(crate) fn rule_name(&self, rule: usize) -> Option<Span> {
        let name = self.schema.rules.get(rule)?.name;
        if self.schema.is_prelude(name) {
            None
        } else {
            Some(name)
        }
    }

    /// Where the part of an item at a place is, as the place of what is kept.
    pub(crate) fn kept_place(&self, item: Item, place: usize) -> usize {
        item.first.saturating_add(place)
    }
}
