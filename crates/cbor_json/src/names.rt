//! `Name`: where the name of a member is in the text of an open JSON object. Finds two equal names
//! of an object (`SameNames`), and where their keys are in the input.
#![tactic(auto)]

ghost use Rattle.std.specs.Prelude.{◌≡◌, ◌≢◌, ℕ, ◌<◌, List, length, map, IsTrue, IsSorted};
ghost use Rattle.std.specs.List.{All, between};
ghost use Rattle.std.specs.Cmp.Lexicographic.{slice_cmp};
ghost use Rattle.std.specs.Ordering.{is_lt, nat_cmp};
ghost use Rattle.json.specs.Strict.{AreDistinct};
ghost use Rattle.cbor_json.specs.mirror.Walking.{AreAt, name_order};

use std::alloc::{AllocError, Global};
use std::collections::BTreeMap;

/// A name with its quotes: the bytes of the text from `start` to `end`.
#[derive(Clone, Copy)]
pub(crate) struct Name {
    pub(crate) start: usize,
    pub(crate) end: usize,
    /// The number of bytes from its key to the end.
    pub(crate) left: usize,
}

/// Two equal names of an object: the number of bytes from the key of each to the end.
#[derive(Clone, Copy)]
pub(crate) struct SameNames {
    pub(crate) first: usize,
    pub(crate) second: usize,
}

impl SameNames {
    /// The same two, if the bytes go on for that many more.
    pub(crate) fn before(self, more: usize) -> SameNames {
        SameNames {
            first: self.first.saturating_add(more),
            second: self.second.saturating_add(more),
        }
    }
}

/// How many names of an object are compared with all names before them, at most.
const FEW: usize = 32;

/// Whether the first name comes before the second, the shorter ones first.
fn is_before(first: &[u8], second: &[u8]) -> bool
    ensures { result ≡ is_lt (name_order first.now second.now) }
{
    if first.len() == second.len() {
        first < second
    } else {
        first.len() < second.len()
    }
}

/// Whether none of these names is this one.
fn is_new(text: &[u8], names: &[Name], this: &[u8]) -> bool
    ensures { IsTrue result → (ns : List (List ℕ)) → AreAt text.now names.now ns
        → All (λ n. n ≢ this.now) ns }
{
    'names: for index in 0..names.len() {
        let name = names[index];
        match text.get(name.start..name.end) {
            Some(other) if other != this => {}
            _ => return false,
        }
    }
    true
}

/// Whether no two neighbours are equal.
fn neighbours_differ(texts: &[&[u8]]) -> bool
    requires { IsSorted (λ a b. slice_cmp nat_cmp a.now b.now) texts.now }
    ensures { IsTrue result → AreDistinct (map (λ t. t.now) texts.now) }
{
    'later: for later in 1..texts.len() {
        if texts[later - 1] == texts[later] {
            return false;
        }
    }
    true
}

/// Whether no two of the names, which are many, are equal. It is also false if memory runs out.
fn are_distinct_sorted(text: &[u8], names: &[Name], alloc: Global) -> bool
    ensures { IsTrue result → (ns : List (List ℕ)) → AreAt text.now names.now ns
        → AreDistinct ns }
{
    let mut texts: Vec<&[u8]> = Vec::new(alloc);
    'names: for index in 0..names.len() {
        let name = names[index];
        let Some(this) = text.get(name.start..name.end) else {
            return false;
        };
        if texts.push(this).is_err() {
            return false;
        }
    }
    texts.sort_unstable();
    neighbours_differ(&texts)
}

/// Whether no two of the names are equal. It is also false if memory runs out.
///
/// Names that come one after the other by their length and their bytes are compared with the one
/// before. A few others are compared with all before them, and many are sorted.
pub(crate) fn are_distinct(text: &[u8], names: &[Name], alloc: Global) -> bool
    ensures { IsTrue result → (ns : List (List ℕ)) → AreAt text.now names.now ns
        → AreDistinct ns }
{
    let mut greatest: &[u8] = b"";
    'names: for index in 0..names.len() {
        let name = names[index];
        let Some(this) = text.get(name.start..name.end) else {
            return false;
        };
        if is_before(greatest, this) {
            greatest = this;
        } else if index >= FEW {
            return are_distinct_sorted(text, names, alloc);
        } else if !is_new(text, &names[..index], this) {
            return false;
        }
    }
    true
}

/// The first name that is equal to one before it, and that one; none if no two are equal.
pub(crate) fn same_names(
    text: &[u8],
    names: &[Name],
    alloc: Global,
) -> Result<Option<SameNames>, AllocError> {
    let mut lefts = BTreeMap::new(alloc);
    for name in names {
        let Some(this) = text.get(name.start..name.end) else {
            return Ok(None);
        };
        let second = name.left;
        if let Some(first) = lefts.insert(this, second)? {
            return Ok(Some(SameNames { first, second }));
        }
    }
    Ok(None)
}
