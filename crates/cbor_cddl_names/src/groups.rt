//! Lists the parts of a group of CDDL, also those of the groups inside it: `members` lists the
//! members of an array (`Member`), and `entries` the entries of a map (`Entry`). `placed_len`
//! counts the members that have known places.

use crate::source::{MOST, Source, name_of};
use cbor_cddl::{Node, Occurrence};
use cbor_names::Key;
use std::alloc::AllocError;
use std::collections::BTreeSet;

/// A member of an array.
#[derive(Clone, Copy)]
pub(crate) struct Member<'a> {
    /// What it is called; empty for nothing.
    pub(crate) name: &'a str,
    /// Its type.
    pub(crate) value: usize,
    pub(crate) occurrence: Occurrence,
}

/// An entry of a map: the types of a key and of its value.
#[derive(Clone, Copy)]
pub(crate) struct Entry {
    pub(crate) key: usize,
    pub(crate) value: usize,
}

/// At most once.
const OPTIONAL: Occurrence = Occurrence { least: 0, most: 1 };

impl Member<'_> {
    /// Whether it stands at its place in each array.
    fn is_required(&self) -> bool {
        self.occurrence == Occurrence::ONCE
    }

    /// Whether it may be left out, and stands at most once.
    pub(crate) fn is_optional(&self) -> bool {
        self.occurrence == OPTIONAL
    }
}

/// How many of the members have known places: those up to the first that does not stand exactly
/// once; all of them if those from there on may be left out, and stand at most once.
pub(crate) fn placed_len(members: &[Member<'_>]) -> usize {
    let len = members.len();
    let first = members
        .iter()
        .position(|member| !member.is_required())
        .unwrap_or(len);
    let rest = members.get(first..).unwrap_or(&[]);
    if rest.iter().all(|member| member.is_optional()) {
        len
    } else {
        first
    }
}

/// A part of a group that is still to be looked at.
#[derive(Clone, Copy)]
struct Left {
    node: usize,
    /// Whether it may be left out.
    is_optional: bool,
}

impl Left {
    /// How often an entry of it occurs.
    fn times(self, occurrence: Occurrence) -> Occurrence {
        if self.is_optional && occurrence == Occurrence::ONCE {
            OPTIONAL
        } else {
            occurrence
        }
    }
}

impl<'a> Source<'a> {
    /// The name that the key of an entry gives to a member of an array.
    fn member_name(&self, key: usize) -> &'a str {
        let name = match self.schema.node(key) {
            Node::Rule(rule) => self.rule_name(rule),
            _ => match self.key_of(key) {
                Some(Key::Text(text)) => name_of(text),
                _ => None,
            },
        };
        name.unwrap_or("")
    }

    /// The members of an array with this group, in their order. Of groups between `//` these are
    /// those of the first.
    pub(crate) fn members(&self, group: usize) -> Result<Vec<Member<'a>>, AllocError> {
        let mut members = Vec::new(self.alloc);
        let mut left = Vec::new(self.alloc);
        left.push(Left {
            node: group,
            is_optional: false,
        })?;
        for _ in 0..MOST {
            let Some(next) = left.pop() else {
                break;
            };
            if !self.push_parts(&mut left, next)? {
                members.push(self.member(next))?;
            }
        }
        Ok(members)
    }

    /// Appends the parts of a group, the last first; returns whether it is one.
    fn push_parts(&self, left: &mut Vec<Left>, next: Left) -> Result<bool, AllocError> {
        match self.schema.node(next.node) {
            Node::Rule(rule) if self.is_group(next.node) => left.push(Left {
                node: self.rule_node(rule),
                ..next
            })?,
            Node::Sequence(list) => {
                for index in self.schema.list(list).iter().rev() {
                    left.push(Left {
                        node: *index,
                        ..next
                    })?;
                }
            }
            Node::GroupChoice(list) => {
                if let [first, ..] = self.schema.list(list) {
                    left.push(Left {
                        node: *first,
                        ..next
                    })?;
                }
            }
            Node::Repeated { item, occurrence } if occurrence == OPTIONAL => left.push(Left {
                node: item,
                is_optional: true,
            })?,
            _ => return Ok(false),
        }
        Ok(true)
    }

    /// The member that a part of a group is.
    fn member(&self, part: Left) -> Member<'a> {
        match self.schema.node(part.node) {
            Node::Entry {
                key,
                value,
                occurrence,
                ..
            } => Member {
                name: self.member_name(key),
                value,
                occurrence: part.times(occurrence),
            },
            Node::Repeated { item, occurrence } => Member {
                name: "",
                value: item,
                occurrence,
            },
            _ => Member {
                name: "",
                value: part.node,
                occurrence: part.times(Occurrence::ONCE),
            },
        }
    }

    /// The entries of a map with this group, in their order, with those of all groups between `//`.
    pub(crate) fn entries(&self, group: usize) -> Result<Vec<Entry>, AllocError> {
        let mut entries = Vec::new(self.alloc);
        let mut seen = BTreeSet::new(self.alloc);
        let mut left = Vec::new(self.alloc);
        left.push(group)?;
        for _ in 0..MOST {
            let Some(node) = left.pop() else {
                break;
            };
            if !seen.insert(node)? {
                continue;
            }
            match self.schema.node(node) {
                Node::Rule(rule) => left.push(self.rule_node(rule))?,
                Node::Sequence(list) | Node::GroupChoice(list) => {
                    for index in self.schema.list(list).iter().rev() {
                        left.push(*index)?;
                    }
                }
                Node::Repeated { item, .. } => left.push(item)?,
                Node::Entry { key, value, .. } => entries.push(Entry { key, value })?,
                _ => {}
            }
        }
        Ok(entries)
    }
}
