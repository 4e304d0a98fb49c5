//! Re-encodes items from left to right, and checks the result. [`Encoder::push_item`] writes
//! containers by recursion, at most 128 levels deep. `lasting`: the rules that re-encoding cannot
//! repair, which are checked first.
ghost use Rattle.std.specs.Prelude.{◌≡◌, ◌++◌, ◌+◌, ◌<◌, ◌≤◌, length, [], Ok, IfOk};
ghost use Rattle.std.specs.Prelude.{MatchResult, Some, ◌⊎◌};
ghost use Rattle.std.specs.List.Sorted.{IsPermutation};
ghost use Rattle.cbor_grammar.specs.WellFormed.{deepest};
ghost use Rattle.cbor_grammar.specs.Reading.{read_head};
ghost use Rattle.cbor_grammar.specs.declared.head.ItemHead.TheVariants as item_head;
ghost use Rattle.cbor_grammar.specs.Written.{encoded_open, encoded_close};
ghost use Rattle.cbor_rules.specs.declared.kind.Violation.{Violation};
ghost use Rattle.cbor_rules.specs.FirstViolation.{first_violation};
ghost use Rattle.cbor_rules.specs.Keeps.{KeepsRules};
ghost use Rattle.cbor_reencode.specs.Reencoded.{IsReencoded, lasting};
ghost use Rattle.cbor_reencode.specs.mirror.Chosen.{chosen_count, FitsHeld};
ghost use Rattle.cbor_reencode.specs.mirror.Rewritten.{Rewritten, pair_bytes, Sequence};

use crate::encoder::Encoder;
use crate::error::ReencodeError;
use crate::pairs::{Pair, check_rising, push_pairs, sort_pairs};
use cbor_bytes::head::{no_level_left, read_head};
use cbor_bytes::write::{push_close, push_open};
use cbor_grammar::IntegerWidth;
use cbor_grammar::argument::Argument;
use cbor_grammar::head::ItemHead;
use cbor_grammar::level::DEEPEST;
use cbor_grammar::major::Major;
use cbor_rules::{KeyOrder, Rules, violation_in};
use std::alloc::{AllocError, Global};

impl Encoder {
    /// Writes an array of these `number` members. Its count in the input was `count`.
    fn push_members(
        self,
        out: &mut Vec<u8>,
        count: Argument,
        number: usize,
        members: &[u8],
    ) -> Result<(), AllocError>
        requires { FitsHeld count number }
        ensures { IfOk result (λ x. let width = chosen_count self.rules count number in
            out.new.items ≡ out.old.items
            ++ (encoded_open 4 number width ++ (members.now ++ encoded_close width))) }
    {
        let width = self.count_width(count, number);
        push_open(out, Major::Array, number, width)?;
        out.extend_from_slice(members)?;
        push_close(out, width)
    }

    /// Writes a map of these pairs, in the order of the rules. Its count in the input was `count`.
    fn push_sorted(
        self,
        out: &mut Vec<u8>,
        count: Argument,
        pairs: &mut Vec<Pair>,
    ) -> Result<(), ReencodeError>
        requires { FitsHeld count (length pairs.old.items) }
        ensures sorts { IsPermutation pairs.old.items pairs.new.items }
        ensures writes { IfOk result (λ x. let number = length pairs.new.items in
            let width = chosen_count self.rules count number in out.new.items ≡ out.old.items
            ++ (encoded_open 5 number width
            ++ (pair_bytes pairs.new.items ++ encoded_close width))) }
    {
        sort_pairs(self.rules.key_order, pairs)?;
        if self.keys_differ {
            check_rising(self.rules.key_order, pairs)?;
        }
        let width = self.count_width(count, pairs.len());
        push_open(out, Major::Map, pairs.len(), width)?;
        push_pairs(out, pairs)?;
        push_close(out, width)?;
        Ok(())
    }

    /// Writes the item at the front of the bytes, which is at this level, and returns the bytes
    /// after it.
    #[cycle(item)]
    fn push_item<'a>(
        self,
        alloc: Global,
        level: u8,
        bytes: &'a [u8],
        out: &mut Vec<u8>,
    ) -> Result<&'a [u8], ReencodeError>
        requires { level ≤ deepest + 1 }
        ensures writes { IfOk result (λ rest.
            Rewritten self.rules level bytes.now rest.now out.old.items out.new.items) }
        ensures shorter { IfOk result (λ rest. length rest.now < length bytes.now) }
    {
        if level > DEEPEST {
            return Err(self.no_item(bytes, no_level_left(bytes)));
        }
        let (head, rest) = match read_head(bytes) {
            Ok(read) => read,
            Err(error) => return Err(self.no_item(bytes, error)),
        };
        match head {
            ItemHead::Array(count) => self.push_array(alloc, level, bytes, count, rest, out),
            ItemHead::Map(count) => self.push_map(alloc, level, bytes, count, rest, out),
            ItemHead::Tag(tag, width) => {
                self.push_tagged(alloc, level, bytes, tag, width, rest, out)
            }
            _ => match self.push_atom(alloc, bytes, head, rest, out) {
                Ok(after) => Ok(after),
                Err(error) => Err(self.no_item(bytes, error)),
            },
        }
    }

    /// Writes an array, whose head is at `bytes`, and returns the bytes after it.
    #[cycle(item)]
    fn push_array<'a>(
        self,
        alloc: Global,
        level: u8,
        bytes: &[u8],
        count: Argument,
        members: &'a [u8],
        out: &mut Vec<u8>,
    ) -> Result<&'a [u8], ReencodeError>
        requires level { level ≤ deepest }
        requires read { read_head bytes.now ≡ Ok (item_head.Array count, members.now) }
        ensures writes { IfOk result (λ rest.
            Rewritten self.rules level bytes.now rest.now out.old.items out.new.items) }
        ensures shorter { IfOk result (λ rest. length rest.now ≤ length members.now) }
    {
        let mut written = Vec::new(alloc);
        let mut number = 0;
        let mut rest = members;
        'members: loop {
            if let Some(after) = count.after_end(number, rest) {
                self.push_members(out, count, number, &written)?;
                return Ok(after);
            }
            rest = self.push_item(alloc, level + 1, rest, &mut written)?;
            number += 1;
        }
    }

    /// Writes a map, whose head is at `bytes`, and returns the bytes after it.
    #[cycle(item)]
    fn push_map<'a>(
        self,
        alloc: Global,
        level: u8,
        bytes: &[u8],
        count: Argument,
        members: &'a [u8],
        out: &mut Vec<u8>,
    ) -> Result<&'a [u8], ReencodeError>
        requires level { level ≤ deepest }
        requires read { read_head bytes.now ≡ Ok (item_head.Map count, members.now) }
        ensures writes { IfOk result (λ rest.
            Rewritten self.rules level bytes.now rest.now out.old.items out.new.items) }
        ensures shorter { IfOk result (λ rest. length rest.now ≤ length members.now) }
    {
        let mut pairs = Vec::new(alloc);
        let mut rest = members;
        'pairs: loop {
            if let Some(after) = count.after_end(pairs.len(), rest) {
                self.push_sorted(out, count, &mut pairs)?;
                return Ok(after);
            }
            let place = self.place(rest);
            let mut key = Vec::new(alloc);
            let value_bytes = self.push_item(alloc, level + 1, rest, &mut key)?;
            let mut value = Vec::new(alloc);
            rest = self.push_item(alloc, level + 1, value_bytes, &mut value)?;
            pairs.push(Pair { place, key, value })?;
        }
    }

    /// Writes a tag, whose head is at `bytes`, and its item, and returns the bytes after it.
    #[cycle(item)]
    fn push_tagged<'a>(
        self,
        alloc: Global,
        level: u8,
        bytes: &[u8],
        tag: u64,
        width: IntegerWidth,
        content: &'a [u8],
        out: &mut Vec<u8>,
    ) -> Result<&'a [u8], ReencodeError>
        requires level { level ≤ deepest }
        requires read { read_head bytes.now ≡ Ok (item_head.Tag tag width, content.now) }
        ensures writes { IfOk result (λ rest.
            Rewritten self.rules level bytes.now rest.now out.old.items out.new.items) }
        ensures shorter { IfOk result (λ rest. length rest.now ≤ length content.now) }
    {
        let mut item = Vec::new(alloc);
        let rest = self.push_item(alloc, level + 1, content, &mut item)?;
        self.push_tagged_item(out, tag, width, &item)?;
        Ok(rest)
    }

    /// Re-encodes a sequence of items. The result is not checked.
    pub fn items(self, alloc: Global, bytes: &[u8]) -> Result<Vec<u8>, ReencodeError>
        ensures { IfOk result (λ out. Sequence self.rules bytes.now [] out.items) }
    {
        let mut out = Vec::new(alloc);
        let mut rest = bytes;
        'items: while !rest.is_empty() {
            rest = self.push_item(alloc, 1, rest, &mut out)?;
        }
        Ok(out)
    }
}

/// Those of the rules that re-encoding cannot repair: no choice of widths, lengths, order and forms
/// of numbers keeps them.
pub fn lasting(rules: Rules) -> Rules
    ensures { result ≡ lasting rules }
{
    Rules {
        shortest_heads: false,
        shortest_floats: false,
        reduced_floats: false,
        definite_lengths: false,
        big_numbers: false,
        key_order: KeyOrder::Any,
        ..rules
    }
}

/// Checks that what was written keeps the rules.
fn check_written(alloc: Global, written: &[u8], rules: Rules) -> Result<(), ReencodeError>
    ensures { IfOk result (λ x. KeepsRules rules written.now) }
{
    match violation_in(alloc, written, rules)? {
        None => Ok(()),
        Some(violation) => Err(ReencodeError::Written(violation)),
    }
}

/// Re-encodes items. Keys are compared only as far as the rules ask for it.
pub fn encoded(alloc: Global, bytes: &[u8], rules: Rules) -> Result<Vec<u8>, ReencodeError>
    ensures is { IfOk result (λ out. IsReencoded rules bytes.now out.items) }
    ensures keeps { IfOk result (λ out. KeepsRules rules out.items) }
    ensures kept { KeepsRules rules bytes.now → MatchResult result
        (λ out. out.items ≡ bytes.now) (λ e. e ≡ ReencodeError.Memory) }
    ensures lasts { (b : Violation) → first_violation (lasting rules) bytes.now ≡ Some b
        → MatchResult result (λ out. ⊥)
        (λ e. (e ≡ ReencodeError.Violation b) ⊎ (e ≡ ReencodeError.Memory)) }
{
    let Some(_) = violation_in(alloc, bytes, rules)? else {
        return Ok(Vec::from_slice(alloc, bytes)?);
    };
    if let Some(found) = violation_in(alloc, bytes, lasting(rules))? {
        return Err(ReencodeError::Violation(found));
    }
    let encoder = Encoder {
        rules,
        len: bytes.len(),
        keys_differ: true,
    };
    let out = encoder.items(alloc, bytes)?;
    check_written(alloc, &out, rules)?;
    Ok(out)
}
