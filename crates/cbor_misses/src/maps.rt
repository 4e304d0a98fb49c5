//! Matches the pairs of a map against a group of CDDL: ordered choices, greedy occurrences and
//! cuts. If a key is missing, it also finds a key of the map that is spelled almost like it.

use crate::blame::{Found, Want};
use crate::items::{Item, Kind};
use crate::run::Run;
use cbor_cddl::{List, Node, Occurrence, Span, Stop, likeness};
use std::alloc::AllocError;

/// What a group does with the pairs that are left.
#[derive(Clone, Copy, PartialEq, Eq)]
pub(crate) enum Outcome {
    /// It takes some, or none, and fits.
    Takes,
    /// It does not fit.
    Refuses,
    /// It does not fit, and no occurrence around it may go on without it.
    Cuts,
}

/// An entry of a map.
#[derive(Clone, Copy)]
struct Entry {
    key: usize,
    cut: bool,
    value: usize,
    occurrence: Occurrence,
}

/// A map that is matched.
#[derive(Clone, Copy)]
pub(crate) struct Frame {
    /// The item, and its index.
    item: Item,
    index: usize,
    /// How many bytes fit before it.
    base: usize,
}

/// A pair of a map.
#[derive(Clone, Copy)]
struct Pair {
    key: usize,
    value: usize,
    /// The place of the key in the parts.
    place: usize,
}

impl<'a> Run<'a> {
    /// Whether a map fits a group: the group takes all pairs.
    #[cycle(fits)]
    pub(crate) fn fits_map(
        &mut self,
        group: usize,
        index: usize,
        depth: u32,
    ) -> Result<bool, Stop> {
        let frame = Frame {
            item: self.items.item(index),
            index,
            base: self.gained,
        };
        let mark = self.trail.len();
        let outer_bytes = self.taken_bytes;
        self.taken_bytes = 0;
        let outcome = self.map_takes(group, frame, depth)?;
        let fits = outcome == Outcome::Takes && self.all_taken(group, frame, mark)?;
        self.undo(mark);
        self.taken_bytes = outer_bytes;
        self.gained = frame.base;
        Ok(fits)
    }

    /// Whether all pairs are taken; takes note of the first one that is not.
    fn all_taken(&mut self, group: usize, frame: Frame, mark: usize) -> Result<bool, Stop> {
        let pairs = frame.item.count / 2;
        if self.trail.len().saturating_sub(mark) == pairs {
            return Ok(true);
        }
        self.gained = self.gained_in(frame);
        if let Some(key) = self.first_left(frame) {
            self.miss(Want::MapEnd, key, Found::OtherKey(group))?;
        }
        Ok(false)
    }

    /// The first key in the bytes that is not taken; none if the value of such a key is blamed.
    fn first_left(&self, frame: Frame) -> Option<usize> {
        let mut found = None;
        let mut first = usize::MAX;
        for place in 0..frame.item.count / 2 {
            let pair = self.pair(frame, place)?;
            let start = self.items.item(pair.key).span.start;
            if self.is_taken(pair) {
                continue;
            }
            if self.is_blamed(pair.value) {
                return None;
            }
            if start < first {
                first = start;
                found = Some(pair.key);
            }
        }
        found
    }

    /// How many bytes fit before a pair that is looked at, with those before the map.
    fn gained_in(&self, frame: Frame) -> usize {
        frame
            .base
            .saturating_add(frame.item.head)
            .saturating_add(self.taken_bytes)
    }

    /// The pair of a map at a place.
    fn pair(&self, frame: Frame, place: usize) -> Option<Pair> {
        let first = place.saturating_mul(2);
        Some(Pair {
            key: self.items.part(frame.item, first)?,
            value: self.items.part(frame.item, first.saturating_add(1))?,
            place: frame.item.first.saturating_add(first),
        })
    }

    /// How many bytes a pair has.
    fn pair_len(&self, pair: Pair) -> usize {
        let start = self.items.item(pair.key).span.start;
        self.items.item(pair.value).span.end.saturating_sub(start)
    }

    /// Whether a pair is taken.
    fn is_taken(&self, pair: Pair) -> bool {
        self.taken.get(pair.place).copied().unwrap_or(false)
    }

    /// Takes a pair.
    fn take(&mut self, pair: Pair) -> Result<(), AllocError> {
        let missing = self.items.len().saturating_sub(self.taken.len());
        for _ in 0..missing {
            self.taken.push(false)?;
        }
        self.trail.push(pair.place)?;
        if let Some(taken) = self.taken.get_mut(pair.place) {
            *taken = true;
        }
        let len = self.pair_len(pair);
        self.taken_bytes = self.taken_bytes.saturating_add(len);
        Ok(())
    }

    /// Gives the pairs back that were taken since the trail had this length.
    fn undo(&mut self, mark: usize) {
        for _ in mark..self.trail.len() {
            let Some(place) = self.trail.pop() else {
                break;
            };
            if let Some(taken) = self.taken.get_mut(place) {
                *taken = false;
            }
            let key = self.items.parts.get(place).copied().unwrap_or(0);
            let value = self.items.parts.get(place.saturating_add(1));
            let value = value.copied().unwrap_or(key);
            let len = self.pair_len(Pair { key, value, place });
            self.taken_bytes = self.taken_bytes.saturating_sub(len);
        }
    }

    /// What a node does with the pairs that are left.
    #[cycle(fits)]
    fn map_takes(&mut self, node: usize, frame: Frame, depth: u32) -> Result<Outcome, Stop> {
        if depth == 0 {
            return Err(Stop::Deep);
        }
        let inner = depth - 1;
        self.step()?;
        match self.schema.node(node) {
            Node::Rule(rule) if self.is_group(node) => self.map_rule(rule, frame, inner),
            Node::Sequence(list) => self.map_sequence(list, frame, inner),
            Node::GroupChoice(list) => self.map_choice(list, frame, inner),
            Node::Repeated { item, occurrence } => {
                self.map_repeated(item, occurrence, frame, inner)
            }
            Node::Entry {
                key,
                cut,
                value,
                occurrence,
            } => {
                let entry = Entry {
                    key,
                    cut,
                    value,
                    occurrence,
                };
                self.map_entry(entry, frame, inner)
            }
            // A map takes nothing without a key.
            _ => Ok(Outcome::Refuses),
        }
    }

    /// What the group of a rule does.
    #[cycle(fits)]
    fn map_rule(&mut self, rule: usize, frame: Frame, depth: u32) -> Result<Outcome, Stop> {
        let name = self.name;
        if let Some(own) = self.rule_name(rule) {
            self.name = own;
        }
        let body = self.rule_node(rule);
        let outcome = self.map_takes(body, frame, depth)?;
        self.name = name;
        Ok(outcome)
    }

    /// What the parts of a sequence do, one after the other.
    #[cycle(fits)]
    fn map_sequence(&mut self, list: List, frame: Frame, depth: u32) -> Result<Outcome, Stop> {
        for place in list.start..list.end {
            let part = self.listed(place);
            let outcome = self.map_takes(part, frame, depth)?;
            if outcome != Outcome::Takes {
                return Ok(outcome);
            }
        }
        Ok(Outcome::Takes)
    }

    /// What the first alternative does that takes something. A cut ends its alternative.
    #[cycle(fits)]
    fn map_choice(&mut self, list: List, frame: Frame, depth: u32) -> Result<Outcome, Stop> {
        let mark = self.trail.len();
        let mut outcome = Outcome::Refuses;
        for place in list.start..list.end {
            let part = self.listed(place);
            match self.map_takes(part, frame, depth)? {
                Outcome::Takes => return Ok(Outcome::Takes),
                Outcome::Cuts => outcome = Outcome::Cuts,
                Outcome::Refuses => {}
            }
            self.undo(mark);
        }
        Ok(outcome)
    }

    /// What a group does, as often as it does, within an occurrence.
    #[cycle(fits)]
    fn map_repeated(
        &mut self,
        node: usize,
        occurrence: Occurrence,
        frame: Frame,
        depth: u32,
    ) -> Result<Outcome, Stop> {
        for count in 0..u64::MAX {
            if count >= occurrence.most {
                break;
            }
            let mark = self.trail.len();
            match self.map_takes(node, frame, depth)? {
                Outcome::Takes if self.trail.len() == mark => break,
                Outcome::Takes => {}
                Outcome::Cuts => return Ok(Outcome::Cuts),
                Outcome::Refuses => {
                    self.undo(mark);
                    if count < occurrence.least {
                        return Ok(Outcome::Refuses);
                    }
                    break;
                }
            }
        }
        Ok(Outcome::Takes)
    }

    /// Whether the value of a pair fits that of an entry. Bytes before its key do not count.
    #[cycle(fits)]
    fn fits_value(
        &mut self,
        entry: Entry,
        pair: Pair,
        frame: Frame,
        depth: u32,
    ) -> Result<bool, Stop> {
        let name = self.name;
        self.name = self.entry_name(entry.key);
        let key = self.items.item(pair.key).span;
        self.gained = key.end.saturating_sub(key.start);
        let fits = self.fits(entry.value, pair.value, depth)?;
        self.name = name;
        self.gained = frame.base;
        Ok(fits)
    }

    /// Takes the pairs of an entry. Values that do not fit, and a key too many of an entry with a
    /// cut, are blamed as if they came after the pairs that fit.
    #[cycle(fits)]
    fn map_entry(&mut self, entry: Entry, frame: Frame, depth: u32) -> Result<Outcome, Stop> {
        let most = entry.occurrence.most;
        let mark = self.blame.mark();
        self.blame.best = None;
        let mut count = 0u64;
        let mut all_fit = true;
        let mut one_more = None;
        for place in 0..frame.item.count / 2 {
            let Some(pair) = self.pair(frame, place) else {
                break;
            };
            if self.is_taken(pair) || !self.fits_muted(entry.key, pair.key, depth)? {
                continue;
            }
            if entry.cut && count >= most {
                one_more = one_more.or(Some(pair.key));
            } else if !self.fits_value(entry, pair, frame, depth)? {
                all_fit = false;
            } else if count < most {
                self.take(pair)?;
                count = count.saturating_add(1);
            }
        }
        let gained = self.gained_in(frame);
        self.blame.resume(mark, gained)?;
        if let Some(key) = one_more {
            self.gained = gained;
            self.miss(Want::AtMost(entry.key, most), key, Found::Key)?;
            self.gained = frame.base;
            return Ok(Outcome::Cuts);
        }
        if entry.cut && !all_fit {
            return Ok(Outcome::Cuts);
        }
        if count >= entry.occurrence.least {
            return Ok(Outcome::Takes);
        }
        self.miss_key(entry.key, frame)?;
        Ok(Outcome::Refuses)
    }

    /// Takes note of a key that is missing: at a key that is like it, or at the map.
    fn miss_key(&mut self, node: usize, frame: Frame) -> Result<(), Stop> {
        self.gained = self.gained_in(frame);
        let want = Want::Key(node);
        match self.like_key(node, frame) {
            Some(key) => {
                self.miss(want, key, Found::Key)?;
            }
            None => {
                let found = Found::Without(frame.item.count / 2);
                self.miss(want, frame.index, found)?;
            }
        }
        self.gained = frame.base;
        Ok(())
    }

    /// A key that is not taken and is like the one of a node.
    fn like_key(&self, node: usize, frame: Frame) -> Option<usize> {
        let Node::Text(wanted) = self.schema.node(node) else {
            return None;
        };
        for place in 0..frame.item.count / 2 {
            let pair = self.pair(frame, place)?;
            if self.is_taken(pair) {
                continue;
            }
            if let Kind::Text(content) = self.items.item(pair.key).kind
                && self.is_like(wanted, content)
            {
                return Some(pair.key);
            }
        }
        None
    }

    /// Whether a literal is like the content of a string.
    fn is_like(&self, wanted: Span, content: Span) -> bool {
        let wanted = self.schema.literal(wanted);
        let content = self.items.bytes(content);
        likeness(wanted, content).is_some()
    }
}
