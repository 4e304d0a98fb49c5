//! Matches the members of an array against a group of CDDL. A choice takes the first alternative
//! that fits, and an occurrence takes as many members as it can.

use crate::blame::{Found, Want};
use crate::run::Run;
use cbor_cddl::{List, Node, Occurrence, Stop};

impl<'a> Run<'a> {
    /// The place behind the members that a node takes from a place on; `None` if it refuses them.
    #[cycle(fits)]
    pub(crate) fn array_takes(
        &mut self,
        node: usize,
        index: usize,
        at: usize,
        depth: u32,
    ) -> Result<Option<usize>, Stop> {
        if depth == 0 {
            return Err(Stop::Deep);
        }
        let inner = depth - 1;
        match self.schema.node(node) {
            Node::Rule(rule) if self.is_group(node) => self.array_rule(rule, index, at, inner),
            Node::Sequence(list) => self.array_sequence(list, index, at, inner),
            Node::GroupChoice(list) => self.array_choice(list, index, at, inner),
            Node::Entry {
                key,
                value,
                occurrence,
                ..
            } => self.array_entry(key, value, occurrence, index, at, inner),
            Node::Repeated { item, occurrence } => {
                self.array_repeated(item, occurrence, index, at, inner)
            }
            _ => self.array_member(node, index, at, inner),
        }
    }

    /// Takes the member at a place if it fits a type.
    #[cycle(fits)]
    fn array_member(
        &mut self,
        node: usize,
        index: usize,
        at: usize,
        depth: u32,
    ) -> Result<Option<usize>, Stop> {
        self.step()?;
        let item = self.items.item(index);
        let Some(part) = self.items.part(item, at) else {
            let gained = self.gained;
            self.gained = gained.saturating_add(self.items.len_before(item, at));
            self.miss(Want::Type(node), index, Found::ArrayEnd(item.count))?;
            self.gained = gained;
            return Ok(None);
        };
        let gained = self.gained;
        self.gained = gained.saturating_add(self.items.len_before(item, at));
        let fits = self.fits(node, part, depth)?;
        self.gained = gained;
        Ok(if fits {
            Some(at.saturating_add(1))
        } else {
            None
        })
    }

    /// Takes what the group of a rule does.
    #[cycle(fits)]
    fn array_rule(
        &mut self,
        rule: usize,
        index: usize,
        at: usize,
        depth: u32,
    ) -> Result<Option<usize>, Stop> {
        self.step()?;
        let item = self.items.item(index);
        let keeps = at < item.count;
        let place = self.kept_place(item, at);
        if keeps && let Some(known) = self.known(rule, place) {
            return Ok(known.checked_sub(1));
        }
        let name = self.name;
        if let Some(own) = self.rule_name(rule) {
            self.name = own;
        }
        let body = self.rule_node(rule);
        let outcome = self.array_takes(body, index, at, depth)?;
        self.name = name;
        if keeps {
            let kept = match outcome {
                Some(after) => after.saturating_add(1),
                None => 0,
            };
            self.keep(rule, place, kept)?;
        }
        Ok(outcome)
    }

    /// Takes what the parts of a sequence do, one after the other.
    #[cycle(fits)]
    fn array_sequence(
        &mut self,
        list: List,
        index: usize,
        at: usize,
        depth: u32,
    ) -> Result<Option<usize>, Stop> {
        let mut at = at;
        for place in list.start..list.end {
            let part = self.listed(place);
            match self.array_takes(part, index, at, depth)? {
                Some(after) => at = after,
                None => return Ok(None),
            }
        }
        Ok(Some(at))
    }

    /// Takes what the first alternative does that takes something.
    #[cycle(fits)]
    fn array_choice(
        &mut self,
        list: List,
        index: usize,
        at: usize,
        depth: u32,
    ) -> Result<Option<usize>, Stop> {
        for place in list.start..list.end {
            let part = self.listed(place);
            let taken = self.array_takes(part, index, at, depth)?;
            if taken.is_some() {
                return Ok(taken);
            }
        }
        Ok(None)
    }

    /// Takes the members of an entry, whose key is its name in messages.
    #[cycle(fits)]
    fn array_entry(
        &mut self,
        key: usize,
        value: usize,
        occurrence: Occurrence,
        index: usize,
        at: usize,
        depth: u32,
    ) -> Result<Option<usize>, Stop> {
        let name = self.name;
        self.name = self.entry_name(key);
        let outcome = self.array_repeated(value, occurrence, index, at, depth)?;
        self.name = name;
        Ok(outcome)
    }

    /// Takes what a node does, as often as it does, within an occurrence.
    #[cycle(fits)]
    fn array_repeated(
        &mut self,
        node: usize,
        occurrence: Occurrence,
        index: usize,
        at: usize,
        depth: u32,
    ) -> Result<Option<usize>, Stop> {
        let mut at = at;
        for count in 0..u64::MAX {
            if count >= occurrence.most {
                break;
            }
            let after = if self.is_group(node) {
                self.array_takes(node, index, at, depth)?
            } else {
                self.array_member(node, index, at, depth)?
            };
            match after {
                Some(after) if after == at => break,
                Some(after) => at = after,
                None if count < occurrence.least => return Ok(None),
                None => break,
            }
        }
        Ok(Some(at))
    }
}
