//! Finds the first violation of `Rules`. Each array, map and tag is read by a recursive call, at
//! most 128 deep; other items are read in the loop of their container. The call for a map keeps the
//! place of its last key and, if no key may stand twice, of each key.
//!
//! A function that reads past an item or a part of one takes the remaining bytes and returns those
//! after it. To stop, it returns `None` and writes why into `stop`, so that a violation, which is
//! large, is not copied through each call.
mod strings;

ghost use Rattle.std.specs.Prelude.{◌≡◌, ◌≢◌, ℕ, suc, ◌<◌, ◌≤◌, length, Some, None, Ok, Err};
ghost use Rattle.std.specs.Prelude.{IfOk, IfErr, IsErr, IfSome, IfNone, option_map, true, false};
ghost use Rattle.std.specs.Prelude.{List, ◌↔◌};
ghost use Rattle.cbor_grammar.specs.declared.head.ItemHead.{ItemHead};
ghost use Rattle.cbor_grammar.specs.WellFormed.{deepest};
ghost use Rattle.cbor_grammar.specs.Reading.{read_head};
ghost use Rattle.cbor_rules.specs.declared.kind.Violation.{Violation};
ghost use Rattle.cbor_rules.specs.declared.kind.ViolationKind.{ViolationKind};
ghost use Rattle.cbor_rules.specs.FirstViolation.{compared, order_violation, key_violation};
ghost use Rattle.cbor_rules.specs.FirstViolation.{no_places, place_of, violation_at, members};
ghost use Rattle.cbor_rules.specs.FirstViolation.{front, kept_head, kept_parts, kept_item};
ghost use Rattle.cbor_rules.specs.FirstViolation.{first_violation, with_key, pairs};
ghost use Rattle.cbor_rules.specs.Keeps.{KeepsRules, without_memory};
ghost use Rattle.cbor_rules.specs.mirror.Opened.{key_of, places_of, is_on, Gives, Reads};
ghost use Rattle.cbor_rules.specs.mirror.Opened.{StopFits, HasMemory, parts_of, kept_key};
ghost use Rattle.cbor_rules.specs.mirror.Opened.{then_some};

use crate::container::{Parts, after_members, one_less};
use crate::keys::{Key, Keys};
use crate::kind::{Violation, ViolationKind};
use crate::rules::Rules;
use cbor_bytes::head::{no_level_left, read_head};
use cbor_grammar::Error;
use cbor_grammar::argument::Argument;
use cbor_grammar::head::ItemHead;
use cbor_grammar::level::DEEPEST;
use std::alloc::{AllocError, Global};
use std::cmp::Ordering;

/// What the next chunk of an indefinite string is.
#[derive(Clone, Copy)]
enum Chunk {
    /// A string of definite length.
    Content,
    /// The break.
    Break,
}

/// Why reading ends before the bytes do.
#[derive(Clone, Copy)]
enum Stop {
    /// A rule is broken.
    Violation(Violation),
    /// There is no memory to find out whether one is.
    OutOfMemory,
}

impl Stop {
    /// The violation, if memory did not run out.
    fn found(self) -> Result<Option<Violation>, AllocError>
        ensures violation { IfOk result
            (λ found. (b : Violation) × (found ≡ Some b) × (self ≡ Stop.Violation b)) }
        ensures memory { IsErr result → self ≡ Stop.OutOfMemory }
    {
        match self {
            Stop::Violation(violation) => Ok(Some(violation)),
            Stop::OutOfMemory => Err(AllocError),
        }
    }
}

/// The bytes before these last ones.
fn front<'a>(bytes: &'a [u8], rest: &[u8]) -> &'a [u8]
    ensures { result.now ≡ front bytes.now rest.now }
{
    &bytes[..bytes.len().saturating_sub(rest.len())]
}

/// What is wrong with a key that compares so with the one before it, which is at this place.
fn compared(order: Ordering, place: usize) -> Option<ViolationKind>
    ensures { result ≡ compared order place }
{
    match order {
        Ordering::Less => None,
        Ordering::Equal => Some(ViolationKind::KeyTwice { first: place }),
        Ordering::Greater => Some(ViolationKind::KeyOrder { previous: place }),
    }
}

/// Bytes that are checked: the rules, how many bytes there are, and an allocator for the rules
/// whose check takes memory.
#[derive(Clone, Copy)]
struct Check {
    rules: Rules,
    len: usize,
    alloc: Option<Global>,
}

impl Check {
    /// How many bytes come before these last ones.
    fn place(&self, bytes: &[u8]) -> usize
        ensures { result ≡ place_of self.now.len bytes.now }
    {
        self.len.saturating_sub(bytes.len())
    }

    /// Stops with a violation of that kind at these bytes.
    #[inline(never)]
    fn stop_at(&self, bytes: &[u8], kind: ViolationKind, stop: &mut Stop)
        ensures is { stop.new ≡ Stop.Violation (violation_at self.now.len bytes.now kind) }
        ensures within { StopFits self.now.alloc self.now.len stop.new }
    {
        let place = self.place(bytes);
        *stop = Stop::Violation(Violation { place, kind });
    }

    /// Stops because no item begins at these bytes.
    #[inline(never)]
    fn stop_at_error(&self, bytes: &[u8], error: Error, stop: &mut Stop)
        ensures is { stop.new
            ≡ Stop.Violation (violation_at self.now.len bytes.now (ViolationKind.NoItem error)) }
        ensures within { StopFits self.now.alloc self.now.len stop.new }
    {
        self.stop_at(bytes, ViolationKind::NoItem(error), stop);
    }

    /// Whether a head is at these bytes that keeps the rules at this level; and if not, why.
    #[inline(never)]
    fn keeps_head(&self, level: u8, bytes: &[u8], stop: &mut Stop) -> bool
        ensures kept { result ≡ true → (h : ItemHead × List ℕ) → read_head bytes.now ≡ Ok h
            → kept_head self.now.rules self.now.len level bytes.now ≡ Ok h }
        ensures stops { result ≡ false
            → Gives (kept_head self.now.rules self.now.len level bytes.now) (Err stop.new) }
        ensures within { result ≡ false → StopFits self.now.alloc self.now.len stop.new }
    {
        match read_head(bytes) {
            Err(error) => {
                self.stop_at_error(bytes, error, stop);
                false
            }
            Ok((head, rest)) => match self.rules.head_violation(level, bytes, head, rest) {
                None => true,
                Some(kind) => {
                    self.stop_at(bytes, kind, stop);
                    false
                }
            },
        }
    }

    /// The head of an item at this level, and the bytes after it. Most heads show in few steps that
    /// they keep the rules.
    #[inline(always)]
    fn read_head<'a>(
        &self,
        level: u8,
        bytes: &'a [u8],
        stop: &mut Stop,
    ) -> Option<(ItemHead, &'a [u8])>
        ensures gives { Reads (kept_head self.now.rules self.now.len level bytes.now)
            (option_map (λ x. (x.0, x.1.now)) result) stop.new }
        ensures shorter { IfSome result (λ x. length x.1.now < length bytes.now) }
        ensures within { IfNone result (StopFits self.now.alloc self.now.len stop.new) }
    {
        let (head, rest) = match read_head(bytes) {
            Ok(read) => read,
            Err(error) => {
                self.stop_at_error(bytes, error, stop);
                return None;
            }
        };
        if self.rules.are_clearly_kept(level, bytes, head) {
            return Some((head, rest));
        }
        if self.keeps_head(level, bytes, stop) {
            Some((head, rest))
        } else {
            None
        }
    }

    /// No keys yet, which are seen if none may stand twice.
    fn no_keys<'a>(&self) -> Keys<'a>
        requires memory { HasMemory self.now.alloc self.now.rules }
        ensures none { places_of result ≡ no_places }
        ensures on { is_on result ≡ self.now.rules.distinct_keys }
    {
        if self.rules.distinct_keys {
            Keys::new(self.alloc)
        } else {
            Keys::new(None)
        }
    }

    /// What is wrong with a key after the one before it.
    #[inline(always)]
    fn order_violation(&self, last: Option<Key>, key: &[u8]) -> Option<ViolationKind>
        ensures { result ≡ order_violation self.now.rules (option_map key_of last.entry) key.now }
    {
        let last = last?;
        let order = self.rules.key_order.compare(last.bytes, key);
        compared(order, last.place)
    }

    /// What is wrong with a key after the one before it and those that were seen, among which it is
    /// then.
    fn key_violation<'a>(
        &self,
        last: Option<Key<'a>>,
        keys: &mut Keys<'a>,
        key: Key<'a>,
    ) -> Result<Option<ViolationKind>, AllocError>
        requires on { is_on keys.old ≡ self.now.rules.distinct_keys }
        ensures is { IfOk result (λ found. found ≡ key_violation self.now.rules
            (option_map key_of last.entry) (places_of keys.old) key.entry.bytes.now) }
        ensures seen { IfOk result (λ found. found ≡ None → places_of keys.new
            ≡ with_key self.now.rules (key_of key.entry) (places_of keys.old)) }
        ensures on { is_on keys.new ≡ self.now.rules.distinct_keys }
        ensures memory { IsErr result → self.now.rules.distinct_keys ≡ true }
    {
        if let Some(kind) = self.order_violation(last, key.bytes) {
            return Ok(Some(kind));
        }
        match keys.see(key)? {
            None => Ok(None),
            Some(first) => Ok(Some(ViolationKind::KeyTwice { first })),
        }
    }

    /// Whether a key keeps the rules after the one before it and those that were seen, among which
    /// it is then; and if not, what is wrong with it.
    #[inline(never)]
    fn see_key<'a>(
        &self,
        last: Option<Key<'a>>,
        keys: &mut Keys<'a>,
        key: Key<'a>,
        stop: &mut Stop,
    ) -> bool
        requires memory { HasMemory self.now.alloc self.now.rules }
        requires on { is_on keys.old ≡ self.now.rules.distinct_keys }
        requires place { key.place ≤ self.now.len }
        ensures gives { Reads (kept_key self.now.rules (option_map key_of last.entry)
            (places_of keys.old) (key_of key.entry)) (then_some result (places_of keys.new))
            stop.new }
        ensures on { is_on keys.new ≡ self.now.rules.distinct_keys }
        ensures within { result ≡ false → StopFits self.now.alloc self.now.len stop.new }
    {
        match self.key_violation(last, keys, key) {
            Ok(None) => return true,
            Ok(Some(kind)) => {
                let place = key.place;
                *stop = Stop::Violation(Violation { place, kind });
            }
            Err(_) => *stop = Stop::OutOfMemory,
        }
        false
    }

    /// The same, in few steps where no key has to be seen.
    #[inline(always)]
    fn keeps_key<'a>(
        &self,
        last: Option<Key<'a>>,
        keys: &mut Keys<'a>,
        key: Key<'a>,
        stop: &mut Stop,
    ) -> bool
        requires memory { HasMemory self.now.alloc self.now.rules }
        requires on { is_on keys.old ≡ self.now.rules.distinct_keys }
        requires place { key.place ≤ self.now.len }
        ensures gives { Reads (kept_key self.now.rules (option_map key_of last.entry)
            (places_of keys.old) (key_of key.entry)) (then_some result (places_of keys.new))
            stop.new }
        ensures on { is_on keys.new ≡ self.now.rules.distinct_keys }
        ensures within { result ≡ false → StopFits self.now.alloc self.now.len stop.new }
    {
        if self.rules.distinct_keys || self.order_violation(last, key.bytes).is_some() {
            self.see_key(last, keys, key, stop)
        } else {
            true
        }
    }

    /// The bytes after an item that keeps the rules, with `left` levels left for it and the items
    /// in it. Inlined into the loops over items, members and pairs.
    #[cycle(item)]
    #[inline(always)]
    fn after_item<'a>(&self, left: u8, bytes: &'a [u8], stop: &mut Stop) -> Option<&'a [u8]>
        requires level { left ≤ deepest }
        requires memory { HasMemory self.now.alloc self.now.rules }
        ensures gives { Reads (kept_item left self.now.rules self.now.len bytes.now)
            (option_map (λ x. x.now) result) stop.new }
        ensures shorter { IfSome result (λ rest. length rest.now < length bytes.now) }
        ensures within { IfNone result (StopFits self.now.alloc self.now.len stop.new) }
    {
        if left == 0 {
            let error = no_level_left(bytes);
            self.stop_at_error(bytes, error, stop);
            return None;
        }
        let left = left - 1;
        let (head, rest) = self.read_head(DEEPEST - left, bytes, stop)?;
        let after = match Parts::new(head) {
            Some(parts) => self.after_parts(left, parts, rest, stop)?,
            None => self.after_atom(bytes, head, rest, stop)?,
        };
        Some(after)
    }

    /// The bytes after the parts of an open container, with `left` levels left for each.
    #[cycle(item)]
    #[inline(always)]
    fn after_parts<'a>(
        &self,
        left: u8,
        parts: Parts,
        bytes: &'a [u8],
        stop: &mut Stop,
    ) -> Option<&'a [u8]>
        requires level { left < deepest }
        requires memory { HasMemory self.now.alloc self.now.rules }
        ensures gives { Reads (kept_parts (suc (length bytes.now)) self.now.rules self.now.len
            (kept_item left self.now.rules self.now.len) (parts_of parts) bytes.now)
            (option_map (λ x. x.now) result) stop.new }
        ensures shorter { IfSome result (λ rest. length rest.now ≤ length bytes.now) }
        ensures within { IfNone result (StopFits self.now.alloc self.now.len stop.new) }
    {
        match parts {
            Parts::Members(count) => self.after_members(left, count, bytes, stop),
            Parts::Pairs(count) => self.after_pairs(left, count, bytes, stop),
        }
    }

    /// The bytes after the members of an open array, or after the item of a tag, with `left` levels
    /// left for each.
    #[cycle(item)]
    #[inline(never)]
    fn after_members<'a>(
        &self,
        left: u8,
        count: Argument,
        bytes: &'a [u8],
        stop: &mut Stop,
    ) -> Option<&'a [u8]>
        requires level { left < deepest }
        requires memory { HasMemory self.now.alloc self.now.rules }
        ensures gives { Reads (kept_parts (suc (length bytes.now)) self.now.rules self.now.len
            (kept_item left self.now.rules self.now.len) (members count) bytes.now)
            (option_map (λ x. x.now) result) stop.new }
        ensures shorter { IfSome result (λ rest. length rest.now ≤ length bytes.now) }
        ensures within { IfNone result (StopFits self.now.alloc self.now.len stop.new) }
    {
        let mut count = count;
        let mut rest = bytes;
        'members: loop {
            if let Some(after) = after_members(count, rest) {
                return Some(after);
            }
            rest = self.after_item(left, rest, stop)?;
            count = one_less(count);
        }
    }

    /// The bytes after the pairs of an open map, with `left` levels left for each key and value.
    #[cycle(item)]
    #[inline(never)]
    fn after_pairs<'a>(
        &self,
        left: u8,
        count: Argument,
        bytes: &'a [u8],
        stop: &mut Stop,
    ) -> Option<&'a [u8]>
        requires level { left < deepest }
        requires memory { HasMemory self.now.alloc self.now.rules }
        ensures gives { Reads (kept_parts (suc (length bytes.now)) self.now.rules self.now.len
            (kept_item left self.now.rules self.now.len) (pairs None no_places count) bytes.now)
            (option_map (λ x. x.now) result) stop.new }
        ensures shorter { IfSome result (λ rest. length rest.now ≤ length bytes.now) }
        ensures within { IfNone result (StopFits self.now.alloc self.now.len stop.new) }
    {
        let mut keys = self.no_keys();
        let mut last = None;
        let mut count = count;
        let mut rest = bytes;
        'pairs: loop {
            if let Some(after) = after_members(count, rest) {
                return Some(after);
            }
            let value = self.after_item(left, rest, stop)?;
            let key = Key {
                place: self.place(rest),
                bytes: front(rest, value),
            };
            if !self.keeps_key(last, &mut keys, key, stop) {
                return None;
            }
            rest = self.after_item(left, value, stop)?;
            last = Some(key);
            count = one_less(count);
        }
    }

    /// The first violation in these bytes.
    fn first(&self, bytes: &[u8]) -> Result<Option<Violation>, AllocError>
        requires memory { HasMemory self.now.alloc self.now.rules }
        requires len { self.now.len ≡ length bytes.now }
        ensures first { IfOk result (λ found. found ≡ first_violation self.now.rules bytes.now) }
        ensures within { IfOk result (λ found. IfSome found (λ b. b.place ≤ length bytes.now)) }
        ensures memory { IsErr result → self.now.alloc ≢ None }
    {
        let mut stop = Stop::OutOfMemory;
        let mut rest = bytes;
        'items: while !rest.is_empty() {
            let Some(after) = self.after_item(DEEPEST, rest, &mut stop) else {
                return stop.found();
            };
            rest = after;
        }
        Ok(None)
    }
}

/// The first violation of the rules, with its place; `None` if and only if the bytes are a sequence
/// of items that keep them. No bytes are a sequence of no items, which keeps all
/// rules.
///
/// The bytes are read once, from left to right. A head is looked at before what it opens, and a key
/// is compared with the one before it where it ends.
///
/// It takes no memory. So it does not look at the two rules whose check takes some, `nfc` and
/// `distinct_keys`, at which [`violation_in`] looks, too.
pub fn violation(bytes: &[u8], rules: Rules) -> Option<Violation>
    ensures none { (result ≡ None) ↔ KeepsRules (without_memory rules) bytes.now }
    ensures first { result ≡ first_violation (without_memory rules) bytes.now }
    ensures within { IfSome result (λ b. b.place ≤ length bytes.now) }
{
    let check = Check {
        rules: rules.without_memory(),
        len: bytes.len(),
        alloc: None,
    };
    match check.first(bytes) {
        Ok(found) => found,
        // No memory is taken.
        Err(_) => None,
    }
}

/// As [`violation`], with all the rules.
///
/// A map that may have no key twice takes memory for the places of its keys, and a text that has to
/// be in NFC takes some if its characters do not decide that one by one.
pub fn violation_in(
    alloc: Global,
    bytes: &[u8],
    rules: Rules,
) -> Result<Option<Violation>, AllocError>
    ensures none { IfOk result (λ found. (found ≡ None) ↔ KeepsRules rules bytes.now) }
    ensures first { IfOk result (λ found. found ≡ first_violation rules bytes.now) }
    ensures within { IfOk result (λ found. IfSome found (λ b. b.place ≤ length bytes.now)) }
{
    let check = Check {
        rules,
        len: bytes.len(),
        alloc: Some(alloc),
    };
    check.first(bytes)
}
