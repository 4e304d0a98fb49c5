//! Finds where an item does not fit a type: a literal, a range, a choice, a rule, a tag, an array.
//! `controls.rt`, `arrays.rt` and `maps.rt` do so for controls, for members of arrays and for pairs
//! of maps.

use crate::blame::{Found, LessFar, Tried, Want};
use crate::items::{Item, Kind};
use crate::run::Run;
use cbor_cddl::{Floats, List, Node, Span, Stop};
use cbor_floats::{EncodedFloat, Width};
use std::alloc::AllocError;

/// The number of the major type of an item.
fn major_of(kind: Kind) -> u8 {
    match kind {
        Kind::Integer(number) if number < 0 => 1,
        Kind::Integer(_) => 0,
        Kind::Bytes(_) => 2,
        Kind::Text(_) => 3,
        Kind::Array => 4,
        Kind::Map => 5,
        Kind::Tag(_) => 6,
        Kind::Float(_) | Kind::Simple(_) => 7,
    }
}

/// The argument of the head of an item, of definite length.
fn argument_of(item: Item) -> u64 {
    match item.kind {
        Kind::Integer(number) if number < 0 => u64::try_from(-1 - number).unwrap_or(0),
        Kind::Integer(number) => u64::try_from(number).unwrap_or(0),
        Kind::Bytes(span) | Kind::Text(span) => span.end.saturating_sub(span.start) as u64,
        Kind::Map => (item.count / 2) as u64,
        _ => item.count as u64,
    }
}

/// Whether a float is within bounds.
fn is_within(number: f64, floats: Floats) -> bool {
    let upper = if floats.below {
        number < floats.most
    } else {
        number <= floats.most
    };
    floats.least <= number && upper
}

/// Whether this width can hold a float.
fn holds(width: Width, number: f64) -> bool {
    number.is_nan() || EncodedFloat::in_width(number, width).is_some()
}

impl<'a> Run<'a> {
    /// Whether an item fits a node that has no parts.
    fn fits_leaf(&self, node: Node, item: Item) -> bool {
        match (node, item.kind) {
            (Node::Any, _) => true,
            (Node::Major(major), kind) => major_of(kind) == major,
            (Node::Argument { major, argument }, kind) => {
                major_of(kind) == major && argument_of(item) == argument
            }
            (Node::Integers { least, most }, Kind::Integer(number)) => {
                least <= number && number <= most
            }
            (Node::Floats(floats), Kind::Float(number)) => is_within(number, floats),
            (Node::FloatsOf(width), Kind::Float(number)) => holds(width, number),
            (Node::Simple(wanted), Kind::Simple(number)) => wanted == number,
            (Node::Text(wanted), Kind::Text(span)) => self.is_literal(wanted, span),
            (Node::Bytes(wanted), Kind::Bytes(span)) => self.is_literal(wanted, span),
            _ => false,
        }
    }

    /// Whether a literal string has this content.
    fn is_literal(&self, wanted: Span, content: Span) -> bool {
        let wanted = self.schema.literal(wanted);
        let content = self.items.bytes(content);
        wanted == content
    }

    /// Whether a number fits a type, as that of a tag, a length or a bit.
    pub(crate) fn fits_number(
        &mut self,
        node: usize,
        number: i128,
        depth: u32,
    ) -> Result<bool, Stop> {
        self.has_number(node, number, number, depth)
    }

    /// Whether a number within bounds fits a type, as a size that is enough.
    pub(crate) fn has_number(
        &mut self,
        node: usize,
        from: i128,
        to: i128,
        depth: u32,
    ) -> Result<bool, Stop> {
        if depth == 0 {
            return Err(Stop::Deep);
        }
        let inner = depth - 1;
        self.step()?;
        match self.schema.node(node) {
            Node::Any => Ok(true),
            Node::Major(major) => Ok(major == 0 && to >= 0),
            Node::Integers { least, most } => Ok(least.max(from) <= most.min(to)),
            Node::Rule(rule) => {
                let node = self.rule_node(rule);
                self.has_number(node, from, to, inner)
            }
            Node::Choice(list) => {
                for place in list.start..list.end {
                    let alternative = self.listed(place);
                    if self.has_number(alternative, from, to, inner)? {
                        return Ok(true);
                    }
                }
                Ok(false)
            }
            Node::Both { target, other } => {
                let first = self.has_number(target, from, to, inner)?;
                Ok(first && self.has_number(other, from, to, inner)?)
            }
            Node::Unequal { target, other } => {
                let first = self.has_number(target, from, to, inner)?;
                Ok(first && (from < to || !self.has_number(other, from, to, inner)?))
            }
            _ => Ok(false),
        }
    }

    /// The node at a place of the lists.
    pub(crate) fn listed(&self, place: usize) -> usize {
        match self.schema.lists.get(place) {
            Some(node) => *node,
            None => 0,
        }
    }

    /// Whether an item fits a node. If it does, no misfit in it is blamed.
    #[cycle(fits)]
    pub(crate) fn fits(&mut self, node: usize, index: usize, depth: u32) -> Result<bool, Stop> {
        if depth == 0 {
            return Err(Stop::Deep);
        }
        self.step()?;
        let mark = self.blame.mark();
        let fits = self.fits_node(node, index, depth - 1)?;
        if fits {
            self.blame.restore(mark);
        }
        Ok(fits)
    }

    /// Whether an item fits a node; what was noted in it stays.
    #[cycle(fits)]
    fn fits_node(&mut self, node: usize, index: usize, inner: u32) -> Result<bool, Stop> {
        let item = self.items.item(index);
        match (self.schema.node(node), item.kind) {
            (Node::Rule(rule), _) => self.fits_rule(rule, node, index, inner),
            (Node::Choice(list), _) => self.fits_choice(list, node, index, inner),
            (Node::Array(group), Kind::Array) => self.fits_array(group, index, inner),
            (Node::Map(group), Kind::Map) => self.fits_map(group, index, inner),
            (Node::Tag { .. } | Node::AnyTag { .. }, Kind::Tag(number)) => {
                self.fits_tag(node, index, number, inner)
            }
            (Node::Simples(numbers), Kind::Simple(number)) => {
                if self.fits_number(numbers, i128::from(number), inner)? {
                    return Ok(true);
                }
                self.miss_item(node, index)
            }
            (Node::Both { target, other }, _) => {
                let first = self.fits(target, index, inner)?;
                Ok(first && self.fits(other, index, inner)?)
            }
            (
                Node::Size { target, .. }
                | Node::Bits { target, .. }
                | Node::Encoded { target, .. }
                | Node::EncodedSequence { target, .. }
                | Node::Pattern { target, .. }
                | Node::Compared { target, .. }
                | Node::Unequal { target, .. },
                _,
            ) => self.fits_control(target, node, index, inner),
            (other, _) => {
                if self.fits_leaf(other, item) {
                    return Ok(true);
                }
                self.miss_item(node, index)
            }
        }
    }

    /// Whether an item fits, with no note of what does not.
    #[cycle(fits)]
    pub(crate) fn fits_muted(
        &mut self,
        node: usize,
        index: usize,
        depth: u32,
    ) -> Result<bool, Stop> {
        self.blame.muted = self.blame.muted.saturating_add(1);
        let fits = self.fits(node, index, depth);
        self.blame.muted = self.blame.muted.saturating_sub(1);
        fits
    }

    /// Whether an item fits a rule, which the node names.
    #[cycle(fits)]
    fn fits_rule(
        &mut self,
        rule: usize,
        node: usize,
        index: usize,
        depth: u32,
    ) -> Result<bool, Stop> {
        let body = self.rule_node(rule);
        let Some(name) = self.rule_name(rule) else {
            return self.fits_prelude(body, node, index, depth);
        };
        if let Some(known) = self.known(rule, index) {
            return Ok(known > 0);
        }
        let outer = self.name;
        self.name = name;
        let fits = self.fits(body, index, depth)?;
        self.name = outer;
        self.keep(rule, index, usize::from(fits))?;
        Ok(fits)
    }

    /// Whether an item fits a rule of the prelude, which the node names. The name is what is
    /// wanted, but for the content of its tag.
    #[cycle(fits)]
    fn fits_prelude(
        &mut self,
        body: usize,
        node: usize,
        index: usize,
        depth: u32,
    ) -> Result<bool, Stop> {
        if let Node::Tag { number, .. } = self.schema.node(body)
            && let Kind::Tag(found) = self.items.item(index).kind
            && number == found
        {
            return self.fits(body, index, depth);
        }
        if self.fits_muted(body, index, depth)? {
            return Ok(true);
        }
        self.miss_item(node, index)
    }

    /// Whether an item fits one of several types.
    #[cycle(fits)]
    fn fits_choice(
        &mut self,
        list: List,
        node: usize,
        index: usize,
        depth: u32,
    ) -> Result<bool, Stop> {
        if list.start == list.end {
            return self.miss_item(node, index);
        }
        let mark = self.blame.mark();
        let mut tried = Tried::NONE;
        for place in list.start..list.end {
            self.blame.best = None;
            let alternative = self.listed(place);
            if self.fits(alternative, index, depth)? {
                return Ok(true);
            }
            self.add_tried(&mut tried)?;
        }
        self.blame.best = mark.best;
        if let Some(mut best) = tried.best {
            if tried.names_differ {
                best.miss.name = self.name;
            }
            if tried.less_far() > 0 {
                best.less_far = Some(LessFar {
                    count: tried.less_far(),
                    name: self.name,
                });
            }
            self.blame.merge(best)?;
            self.blame.compact(mark);
        }
        Ok(false)
    }

    /// Adds the alternative that was tried last to those before it.
    fn add_tried(&mut self, tried: &mut Tried) -> Result<(), AllocError> {
        let Some(one) = self.blame.best else {
            return Ok(());
        };
        let has_same_name = match tried.best {
            Some(best) => self.is_same_name(best.miss.name, one.miss.name),
            None => true,
        };
        tried.count(one, has_same_name);
        self.blame.best = tried.best;
        self.blame.merge(one)?;
        tried.best = self.blame.best;
        Ok(())
    }

    /// Whether two names are alike, in one line.
    fn is_same_name(&self, first: Span, other: Span) -> bool {
        if self.schema.text(first) != self.schema.text(other) {
            return false;
        }
        let start = first.start.min(other.start);
        let end = first.start.max(other.start);
        !self.schema.text(Span { start, end }).contains('\n')
    }

    /// Whether an item with a tag fits a tag.
    #[cycle(fits)]
    fn fits_tag(
        &mut self,
        node: usize,
        index: usize,
        number: u64,
        depth: u32,
    ) -> Result<bool, Stop> {
        let (fits, content) = match self.schema.node(node) {
            Node::Tag {
                number: wanted,
                item,
            } => (wanted == number, item),
            Node::AnyTag {
                numbers: Some(numbers),
                item,
            } => (self.fits_number(numbers, i128::from(number), depth)?, item),
            Node::AnyTag { item, .. } => (true, item),
            _ => (false, node),
        };
        let item = self.items.item(index);
        let Some(part) = self.items.part(item, 0) else {
            return self.miss_item(node, index);
        };
        if !fits {
            return self.miss_item(node, index);
        }
        let gained = self.gained;
        self.gained = gained.saturating_add(item.head);
        let fits = self.fits(content, part, depth)?;
        self.gained = gained;
        Ok(fits)
    }

    /// Whether an array fits a group.
    #[cycle(fits)]
    pub(crate) fn fits_array(
        &mut self,
        group: usize,
        index: usize,
        depth: u32,
    ) -> Result<bool, Stop> {
        let item = self.items.item(index);
        let Some(after) = self.array_takes(group, index, 0, depth)? else {
            return Ok(false);
        };
        let Some(part) = self.items.part(item, after) else {
            return Ok(true);
        };
        if self.is_blamed(part) {
            return Ok(false);
        }
        let gained = self.gained;
        self.gained = gained.saturating_add(self.items.len_before(item, after));
        self.miss(Want::ArrayEnd(after), part, Found::Item)?;
        self.gained = gained;
        Ok(false)
    }
}
