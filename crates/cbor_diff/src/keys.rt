//! Matches the pairs of two maps by their keys, in whatever order the keys are. Of a key that
//! stands twice the first is matched with the first.

use crate::align::Row;
use crate::member::{Match, Member};
use cbor_bytes::head::read_head;
use cbor_grammar::argument::Argument;
use cbor_grammar::head::ItemHead;
use cbor_grammar::strings::StringKind;
use std::alloc::{AllocError, Global};
use std::collections::BTreeMap;

/// What keys are compared by. Two keys with the same one are the same key of a path.
#[derive(Clone, Copy, PartialEq, Eq, PartialOrd, Ord)]
enum Key<'a> {
    Integer(u64),
    Negative(u64),
    Simple(u8),
    /// The content of a byte string of definite length.
    Bytes(&'a [u8]),
    /// The content of a text of definite length.
    Text(&'a [u8]),
    /// All bytes of another key.
    Other(&'a [u8]),
}

impl<'a> Key<'a> {
    /// That of a member of a map.
    fn of(bytes: &'a [u8], member: Member) -> Key<'a> {
        let key = member.key(bytes);
        let Ok((head, content)) = read_head(key) else {
            return Key::Other(key);
        };
        match head {
            ItemHead::Integer(value, _) => Key::Integer(value),
            ItemHead::Negative(value, _) => Key::Negative(value),
            ItemHead::Simple(value) => Key::Simple(value),
            ItemHead::String(StringKind::Bytes, Argument::Number(..)) => Key::Bytes(content),
            ItemHead::String(StringKind::Text, Argument::Number(..)) => Key::Text(content),
            _ => Key::Other(key),
        }
    }
}

/// The members of the new one of two maps.
#[derive(Drop)]
struct NewMap<'a> {
    /// Of each key the first member with it that is not matched.
    first: BTreeMap<Key<'a>, usize>,
    /// Of each member the next one with the same key.
    following: Vec<Option<usize>>,
    /// Which of the members were matched.
    matched: Vec<bool>,
}

impl<'a> NewMap<'a> {
    fn new(alloc: Global, row: Row<'a>) -> Result<NewMap<'a>, AllocError> {
        let mut map = NewMap {
            first: BTreeMap::new(alloc),
            following: Vec::new(alloc),
            matched: Vec::new(alloc),
        };
        map.following.resize(row.members.len(), None)?;
        map.matched.resize(row.members.len(), false)?;
        for member in row.members.iter().rev() {
            let next = map.first.insert(Key::of(row.bytes, *member), member.index)?;
            if let Some(following) = map.following.get_mut(member.index) {
                *following = next;
            }
        }
        Ok(map)
    }

    /// Matches the next member with this key.
    fn take(&mut self, key: Key<'a>) -> Option<usize> {
        let index = self.first.get(&key).copied()?;
        if let Some(matched) = self.matched.get_mut(index) {
            *matched = true;
        }
        let following = self.following.get(index).copied().flatten();
        match (self.first.get_mut(&key), following) {
            (Some(first), Some(next)) => *first = next,
            _ => {
                let _ = self.first.remove(&key);
            }
        }
        Some(index)
    }
}

/// What comes of two maps: the members of the old one in their order, each with the member of the
/// new one that has its key, and then those whose keys the new one alone has. Values that are the
/// same byte for byte are left out.
pub(crate) fn matched(alloc: Global, old: Row, new: Row) -> Result<Vec<Match>, AllocError> {
    let mut map = NewMap::new(alloc, new)?;
    let mut all = Vec::new(alloc);
    for member in old.members {
        let index = map.take(Key::of(old.bytes, *member));
        match index.and_then(|index| new.members.get(index)) {
            Some(other) => {
                if member.span.bytes(old.bytes) != other.span.bytes(new.bytes) {
                    all.push(Match::Both(*member, *other))?;
                }
            }
            None => all.push(Match::Old(*member))?,
        }
    }
    for (member, matched) in new.members.iter().zip(map.matched.iter()) {
        if !*matched {
            all.push(Match::New(*member))?;
        }
    }
    Ok(all)
}
