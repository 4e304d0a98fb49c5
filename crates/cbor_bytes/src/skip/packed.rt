//! `Packed`, for `Scanner`: the stack of the open containers around the innermost one. Its size is
//! fixed. Two arrays take a third of the memory of one array of [`ToCome`].
//!
//! [`ToCome`]: super::to_come::ToCome
ghost use Rattle.std.specs.Prelude.{◌≡◌, ◌<◌, ◌≤◌, [], ◌∷◌, ◌++◌, length, IfSome, Some, None};
ghost use Rattle.cbor_grammar.specs.WellFormed.{deepest};

use super::to_come::{Kind, ToCome};
use cbor_grammar::level::DEEPEST;
use std::marker::Model;

/// How many containers may be open around the innermost one.
const CAPACITY: usize = DEEPEST as usize;

/// The open containers around the innermost one, the outermost first: their kinds and numbers.
#[derive(Drop)]
pub(super) struct Packed {
    kinds: [Kind; CAPACITY],
    counts: [u64; CAPACITY],
    len: usize,
}

impl Model for Packed {
    ghost use Rattle.std.specs.Prelude.{◌≡◌, ◌≤◌, List, length, take};
    ghost use Rattle.cbor_bytes.specs.declared.skip.to_come.ToCome.{ToCome};
    ghost use Rattle.cbor_bytes.specs.mirror.OpenStack.{with_counts};

    ghost Value = { List ToCome };

    ghost view = { λ s. with_counts (take s.len s.kinds) (take s.len s.counts) };

    ghost invariant = { λ s. (s.len ≤ 128) × (length s.kinds ≡ 128) × (length s.counts ≡ 128) };
}

impl Packed {
    /// No container is open.
    pub(super) fn new() -> Packed
        ensures { result ≡ [] }
    {
        Packed {
            kinds: [Kind::Items; CAPACITY],
            counts: [0; CAPACITY],
            len: 0,
        }
    }

    /// How many containers are open.
    pub(super) fn len(&self) -> usize
        ensures count { result ≡ length self.now }
        ensures most { result ≤ deepest }
    {
        self.len
    }

    /// Opens one more container, which is then the innermost of them.
    pub(super) fn push(&mut self, open: ToCome)
        requires { length self.old < deepest }
        ensures { self.new ≡ self.old ++ «open» ∷ [] }
    {
        let (kind, count) = open.split();
        self.kinds[self.len] = kind;
        self.counts[self.len] = count;
        self.len += 1;
    }

    /// Removes the innermost of them and returns it, or returns `None` if none is open.
    pub(super) fn pop(&mut self) -> Option<ToCome>
        ensures some { IfSome result (λ parts. self.old ≡ self.new ++ parts ∷ []) }
        ensures none { result ≡ None → self.old ≡ [] }
    {
        if self.len == 0 {
            return None;
        }
        self.len -= 1;
        let kind = self.kinds[self.len];
        Some(ToCome::of(kind, self.counts[self.len]))
    }
}
