//! Finds which child of a container a given byte is in (`part_at`). `Spot`: where an item begins,
//! and its level. `Part`: the open container and where the child begins.
ghost use Rattle.std.specs.Prelude.{◌≡◌, ℕ, ◌+◌, ◌<◌, ◌≤◌, List, length, IfSome, IfNone, Ok, Some};
ghost use Rattle.cbor_grammar.specs.Item.{Item};
ghost use Rattle.cbor_grammar.specs.Reading.{read_head, read_item};
ghost use Rattle.cbor_grammar.specs.WellFormed.{deepest, levels_left};
ghost use Rattle.cbor_trace.specs.Around.{head_of, parts_before, IsPartOf, IsPartAt, outermost};
ghost use Rattle.cbor_trace.specs.Around.{spot_of};

use crate::open::Open;
use cbor_bytes::head::read_head;
use cbor_bytes::skip::after_front;
use cbor_grammar::level::DEEPEST;

/// Where an item begins, and its level; the outermost is at level 1.
#[derive(Clone, Copy, PartialEq, Eq, Debug)]
pub struct Spot {
    pub start: usize,
    pub level: u8,
}

/// A container that is open at a byte, and where its child begins that contains the byte.
#[derive(Clone, Copy)]
pub struct Part {
    pub open: Open,
    pub start: usize,
}

impl Spot {
    /// The spot of the item at the front.
    pub fn outermost() -> Spot
        ensures { result ≡ outermost }
    {
        Spot { start: 0, level: 1 }
    }

    /// The spot of a part of the item here.
    pub fn of_part(self, part: Part) -> Spot
        requires { self.level ≤ deepest }
        ensures { result ≡ spot_of self part }
    {
        Spot {
            start: part.start,
            level: self.level + 1,
        }
    }
}

/// The bytes after the item at the front, read from `level`, or `None` if it does not end within
/// the first `most` bytes. Later bytes are not read.
fn after_within(bytes: &[u8], level: u8, most: usize) -> Option<&[u8]>
    requires from { 1 ≤ level }
    requires to { level ≤ deepest + 1 }
    ensures some { IfSome result (λ rest. (i : Item)
        × (read_item (levels_left level) bytes.now ≡ Ok (i, rest.now))
        × (length bytes.now ≤ most + length rest.now)) }
    ensures none { IfNone result ((i : Item) (rest : List ℕ)
        → read_item (levels_left level) bytes.now ≡ Ok (i, rest)
        → most + length rest < length bytes.now) }
{
    let (front, _) = bytes.split_at(most.min(bytes.len()));
    let Some(unread) = after_front(front, level) else {
        return None;
    };
    let (_, rest) = bytes.split_at(front.len() - unread.len());
    Some(rest)
}

/// The first part from `bytes` on that does not end at or before the byte `at`. `bytes` are the
/// last of `total` bytes, and `first` is what the head before them opens.
fn part_from(total: usize, level: u8, first: Open, bytes: &[u8], at: usize) -> Option<Part>
    requires level { level ≤ deepest }
    requires first { parts_before first ≡ 0 }
    requires total { length bytes.now ≤ total }
    requires passed { total ≤ at + length bytes.now }
    ensures some { (b : List ℕ) → read_head b ≡ Ok (head_of first, bytes.now)
        → IfSome result (λ p. IsPartOf total level b at p) }
    ensures every { (b : List ℕ) → read_head b ≡ Ok (head_of first, bytes.now)
        → (p : Part) → IsPartOf total level b at p → result ≡ Some p }
{
    let mut open = first;
    let mut rest = bytes;
    'parts: loop {
        if !open.goes_on(rest) {
            return None;
        }
        let start = total - rest.len();
        let Some(after) = after_within(rest, level + 1, at - start) else {
            return Some(Part { open, start });
        };
        let Some(next) = open.after_part(start) else {
            return None;
        };
        open = next;
        rest = after;
    }
}

/// The child of the container at this spot that contains the byte `at`: the first part that does
/// not end before the byte. A truncated or malformed part has no end. So a byte after an error
/// leads to the error, and the length of truncated bytes leads to where they end.
///
/// Returns `None` if no part contains the byte: if the item is not a container, if the byte is in
/// its head, or if the parts end before the byte.
///
/// It reads the container up to the byte, once.
pub fn part_at(bytes: &[u8], spot: Spot, at: usize) -> Option<Part>
    // The result is a part if and only if it is the one at the byte.
    ensures part { IfSome result (λ p. IsPartAt bytes.now spot at p) }
    ensures every_part { (p : Part) → IsPartAt bytes.now spot at p → result ≡ Some p }
{
    if spot.level > DEEPEST || spot.start > bytes.len() {
        return None;
    }
    let (_, item) = bytes.split_at(spot.start);
    let Ok((head, rest)) = read_head(item) else {
        return None;
    };
    let first = Open::new(head)?;
    if at < bytes.len() - rest.len() {
        return None;
    }
    part_from(bytes.len(), spot.level, first, rest, at)
}
