//! `Keys`: the keys of a map that `check.rt` has read, each with its place. Finds a key that was
//! read before.
ghost use Rattle.std.specs.Prelude.{◌≡◌, true, is_some, if◌then◌else◌, IfOk, IsErr, OnOk};
ghost use Rattle.cbor_rules.specs.FirstViolation.{no_places, placed};
ghost use Rattle.cbor_rules.specs.mirror.Opened.{key_of, places_of, is_on};

use std::alloc::{AllocError, Global};
use std::collections::BTreeMap;

/// An encoded key, and how many bytes come before it.
#[derive(Clone, Copy)]
pub struct Key<'a> {
    pub place: usize,
    pub bytes: &'a [u8],
}

/// The places of keys, if it matters where they are.
#[derive(Drop)]
pub struct Keys<'a> {
    places: Option<BTreeMap<&'a [u8], usize, Global>>,
}

impl<'a> Keys<'a> {
    /// No keys yet, which are seen if there is an allocator.
    pub fn new(alloc: Option<Global>) -> Keys<'a>
        ensures none { places_of result ≡ no_places }
        ensures on { is_on result ≡ is_some alloc }
    {
        match alloc {
            Some(alloc) => Keys {
                places: Some(BTreeMap::new(alloc)),
            },
            None => Keys { places: None },
        }
    }

    /// The place of the key, if it was seen before. If keys are seen, it has the new place then.
    pub fn see(&mut self, key: Key<'a>) -> Result<Option<usize>, AllocError>
        ensures first { IfOk result (λ first. first ≡ places_of self.old key.entry.bytes.now) }
        ensures placed { OnOk result (places_of self.new ≡ (if is_on self.old
            then placed (key_of key.entry) (places_of self.old) else places_of self.old)) }
        ensures on { is_on self.new ≡ is_on self.old }
        ensures memory { IsErr result → is_on self.old ≡ true }
    {
        let Some(places) = &mut self.places else {
            return Ok(None);
        };
        match places.insert(key.bytes, key.place) {
            Ok(first) => Ok(first),
            Err(_) => Err(AllocError),
        }
    }
}
