//! Ranks the rules: a rule ranks higher than each rule that it leads to at the same item or at the
//! same place of a group. A rule that leads back to itself in this way is a fault.

use crate::fault::{Fault, FaultKind};
use crate::load::Loader;
use crate::schema::{List, Node, Occurrence, Span};

/// How far the walk is at a node.
#[derive(Clone, Copy, PartialEq, Eq)]
enum State {
    New,
    /// Its parts are being walked.
    Open,
    Done,
}

/// A node that is open, and which of its parts is next.
#[derive(Clone, Copy)]
struct Step {
    node: usize,
    next: usize,
}

/// The ranks of nodes, as far as they are known.
#[derive(Drop)]
pub(crate) struct Ranks {
    states: Vec<State>,
    ranks: Vec<usize>,
    /// Whether a node may take nothing of a group.
    empty: Vec<bool>,
    steps: Vec<Step>,
}

/// The member at a place of a list.
fn member(lists: &[usize], list: List, place: usize) -> Option<usize> {
    let at = list.start.saturating_add(place);
    if at < list.end {
        lists.get(at).copied()
    } else {
        None
    }
}

/// The only part, at place 0.
fn first_of(place: usize, part: usize) -> Option<usize> {
    if place == 0 { Some(part) } else { None }
}

/// The parts at the places 0 and 1.
fn one_of(place: usize, first: usize, second: usize) -> Option<usize> {
    match place {
        0 => Some(first),
        1 => Some(second),
        _ => None,
    }
}

impl Loader<'_> {
    /// Whether a node may take nothing, by what is known of its parts.
    fn may_be_empty(&self, node: Node, empty: &[bool]) -> bool {
        let known = |index: usize| empty.get(index).copied().unwrap_or(false);
        match node {
            Node::Entry {
                occurrence: Occurrence { least, .. },
                ..
            } => least == 0,
            Node::Repeated { item, occurrence } => occurrence.least == 0 || known(item),
            Node::Rule(rule) => match self.rules.get(rule) {
                Some(rule) => known(rule.node),
                None => false,
            },
            Node::Sequence(list) => self
                .lists
                .get(list.start..list.end)
                .unwrap_or(&[])
                .iter()
                .all(|part| known(*part)),
            Node::GroupChoice(list) => self
                .lists
                .get(list.start..list.end)
                .unwrap_or(&[])
                .iter()
                .any(|part| known(*part)),
            _ => false,
        }
    }

    /// Which nodes may take nothing.
    fn empty_nodes(&self) -> Result<Vec<bool>, Fault> {
        let mut empty = Vec::with_capacity(self.alloc, self.nodes.len())?;
        for _ in 0..self.nodes.len() {
            empty.push(false)?;
        }
        for _ in 0..self.nodes.len() {
            let mut changed = false;
            for index in 0..self.nodes.len() {
                let known = empty.get(index).copied().unwrap_or(true);
                if !known && self.may_be_empty(self.node(index), &empty) {
                    changed = true;
                    if let Some(place) = empty.get_mut(index) {
                        *place = true;
                    }
                }
            }
            if !changed {
                break;
            }
        }
        Ok(empty)
    }

    /// The part at a place of a sequence, if all before it may take nothing.
    fn sequence_part(&self, list: List, place: usize, empty: &[bool]) -> Option<usize> {
        if place > 0 {
            let before = member(&self.lists, list, place.saturating_sub(1))?;
            if !empty.get(before).copied().unwrap_or(false) {
                return None;
            }
        }
        member(&self.lists, list, place)
    }

    /// The part at a place of a node that is matched at the same item or at the same place.
    fn part(&self, node: usize, place: usize, empty: &[bool]) -> Option<usize> {
        match self.node(node) {
            Node::Choice(list) | Node::GroupChoice(list) => member(&self.lists, list, place),
            Node::Sequence(list) => self.sequence_part(list, place, empty),
            Node::Rule(rule) => first_of(place, self.rules.get(rule)?.node),
            Node::Repeated { item, .. } => first_of(place, item),
            Node::Size { target, sizes } => one_of(place, target, sizes),
            Node::Bits { target, bits } => one_of(place, target, bits),
            Node::Both { target, other } | Node::Unequal { target, other } => {
                one_of(place, target, other)
            }
            Node::Encoded { target, .. }
            | Node::EncodedSequence { target, .. }
            | Node::Pattern { target, .. }
            | Node::Compared { target, .. } => first_of(place, target),
            Node::Simples(numbers) => first_of(place, numbers),
            Node::AnyTag {
                numbers: Some(numbers),
                ..
            } => first_of(place, numbers),
            _ => None,
        }
    }

    /// The name of the rule that a node refers to.
    fn rule_name(&self, node: usize) -> Option<Span> {
        match self.node(node) {
            Node::Rule(rule) => Some(self.rules.get(rule)?.name),
            _ => None,
        }
    }

    /// Finds the rank of each rule, or a rule that leads back to itself.
    pub(crate) fn rank_all(&mut self) -> Result<(), Fault> {
        let mut ranks = Ranks {
            states: Vec::new(self.alloc),
            ranks: Vec::new(self.alloc),
            empty: self.empty_nodes()?,
            steps: Vec::new(self.alloc),
        };
        for _ in 0..self.nodes.len() {
            ranks.states.push(State::New)?;
            ranks.ranks.push(0)?;
        }
        for node in 0..self.nodes.len() {
            ranks.walk(self, node)?;
        }
        for rule in self.rules.iter_mut() {
            rule.rank = ranks.rank(rule.node);
        }
        Ok(())
    }
}

impl Ranks {
    /// The rank of a node.
    fn rank(&self, node: usize) -> usize {
        self.ranks.get(node).copied().unwrap_or(0)
    }

    /// The state of a node.
    fn state(&self, node: usize) -> State {
        self.states.get(node).copied().unwrap_or(State::Done)
    }

    /// Sets the state of a node.
    fn set(&mut self, node: usize, state: State) {
        if let Some(place) = self.states.get_mut(node) {
            *place = state;
        }
    }

    /// Makes the rank of a node higher than that of a part.
    fn raise(&mut self, node: usize, part: usize) {
        let least = self.rank(part).saturating_add(1);
        if let Some(rank) = self.ranks.get_mut(node) {
            *rank = least.max(*rank);
        }
    }

    /// Opens a node, unless it was walked.
    fn open(&mut self, node: usize) -> Result<(), Fault> {
        if self.state(node) == State::New {
            self.set(node, State::Open);
            self.steps.push(Step { node, next: 0 })?;
        }
        Ok(())
    }

    /// Walks a node and its parts.
    fn walk(&mut self, loader: &Loader, node: usize) -> Result<(), Fault> {
        self.open(node)?;
        for _ in 0..u64::MAX {
            let Some(step) = self.steps.pop() else {
                break;
            };
            match loader.part(step.node, step.next, &self.empty) {
                None => {
                    self.set(step.node, State::Done);
                    if let Some(above) = self.steps.last().copied() {
                        self.raise(above.node, step.node);
                    }
                }
                Some(part) => {
                    let next = step.next.saturating_add(1);
                    self.steps.push(Step { next, ..step })?;
                    if self.state(part) == State::Open {
                        return Err(self.cycle(loader, part));
                    }
                    self.raise(step.node, part);
                    self.open(part)?;
                }
            }
        }
        Ok(())
    }

    /// The fault that a node, which is open, leads back to itself. It names the first of the rules
    /// in the text, and the next one on the way.
    fn cycle(&self, loader: &Loader, node: usize) -> Fault {
        let mut inside = false;
        let mut way = Way::new(loader.span(node));
        for step in &self.steps {
            inside = inside || step.node == node;
            if inside && let Some(name) = loader.rule_name(step.node) {
                way.add(name);
            }
        }
        let (next, count) = (way.after.unwrap_or(way.first), way.count);
        Fault::new(way.least, FaultKind::Cycle { next, count })
    }
}

/// The rules on a way from a rule back to itself.
#[derive(Clone, Copy)]
struct Way {
    count: usize,
    first: Span,
    /// The one that stands first in the text.
    least: Span,
    /// The one after that.
    after: Option<Span>,
}

impl Way {
    /// Without rules, from a place.
    fn new(place: Span) -> Way {
        Way {
            count: 0,
            first: place,
            least: place,
            after: None,
        }
    }

    /// Goes on to a rule.
    fn add(&mut self, name: Span) {
        if self.count == 0 {
            self.first = name;
        }
        if self.count == 0 || name.start < self.least.start {
            self.least = name;
            self.after = None;
        } else if self.after.is_none() {
            self.after = Some(name);
        }
        self.count = self.count.saturating_add(1);
    }
}
