//! Checks whether an item fits a type (RFC 8610, sections 2.2 and 3): a choice, an array, a map, a
//! tag or any other type. It calls `leaf.rt` for types without parts, and `controls.rt` for most
//! controls.

ghost use Rattle.std.specs.Prelude.{◌≡◌, ◌==◌, ℕ, Option, Some, IfOk, OnOk, pos};
ghost use Rattle.cbor_fits.specs.Value.{integer};
ghost use Rattle.cbor_fits.specs.View.{view};
ghost use Rattle.cbor_fits.specs.Tables.{rules_of};
ghost use Rattle.cbor_fits.specs.Kept.{Holds};
ghost use Rattle.cbor_fits.specs.Fits.{matcher, fits_node, fits_itself, any_of, in_array, in_map};
ghost use Rattle.cbor_fits.specs.Fits.{in_tag, number_fits, in_simple, fails, target};

use crate::leaf::compares_with;
use crate::rest::{Rest, all_pairs};
use crate::slot::slot_of;
use crate::tables::Tables;
use crate::value::Datum;
use crate::work::{Known, Question, Work};
use cbor_cddl::{List, Node, Stop};

/// The type that a control is about.
fn target_of(node: Node) -> Option<usize>
    ensures { result ≡ target node }
{
    match node {
        Node::Size { target, .. }
        | Node::Bits { target, .. }
        | Node::Encoded { target, .. }
        | Node::EncodedSequence { target, .. }
        | Node::Pattern { target, .. }
        | Node::Compared { target, .. }
        | Node::Both { target, .. }
        | Node::Unequal { target, .. } => Some(target),
        _ => None,
    }
}

impl Tables<'_> {
    /// Whether an item fits the type at an index.
    #[inline(never)]
    #[cycle(fits)]
    pub(crate) fn fits<'a>(
        &self,
        work: &mut Work<'a>,
        index: usize,
        datum: &'a Datum,
        depth: u32,
    ) -> Result<bool, Stop>
        requires { Holds (rules_of self.now) work.old }
        ensures right { IfOk result (λ b. (matcher (rules_of self.now) depth).fits index
            (view datum.now) ≡ Some b) }
        ensures kept { OnOk result (Holds (rules_of self.now) work.new) }
    {
        if depth == 0 {
            return Err(Stop::Deep);
        }
        work.step()?;
        if !work.keeps(datum) {
            return self.fits_anew(work, index, datum, depth - 1);
        }
        let question = Question {
            index,
            depth,
            datum,
        };
        let slot = slot_of(question);
        if let Some(fits) = work.answer(slot, question) {
            return Ok(fits);
        }
        let before = work.left();
        let fits = self.fits_anew(work, index, datum, depth - 1)?;
        let steps = before.saturating_sub(work.left());
        work.keep(
            slot,
            Known {
                question,
                fits,
                steps,
            },
        )?;
        Ok(fits)
    }

    /// Whether an item fits the type at an index, by what is inside.
    #[cycle(fits)]
    fn fits_anew<'a>(
        &self,
        work: &mut Work<'a>,
        index: usize,
        datum: &'a Datum,
        inner: u32,
    ) -> Result<bool, Stop>
        requires { Holds (rules_of self.now) work.old }
        ensures right { IfOk result (λ b.
            fits_node (rules_of self.now) (matcher (rules_of self.now) inner) index
            ((rules_of self.now).node index) (view datum.now) ≡ Some b) }
        ensures kept { OnOk result (Holds (rules_of self.now) work.new) }
    {
        match target_of(self.node(index)) {
            None => self.fits_itself(work, index, datum, inner),
            Some(target) => {
                if self.fits(work, target, datum, inner)? {
                    self.fits_itself(work, index, datum, inner)
                } else {
                    Ok(false)
                }
            }
        }
    }

    /// Whether an item fits the type at an index. If that is a control, the item fits its target.
    #[cycle(fits)]
    fn fits_itself<'a>(
        &self,
        work: &mut Work<'a>,
        index: usize,
        datum: &'a Datum,
        inner: u32,
    ) -> Result<bool, Stop>
        requires { Holds (rules_of self.now) work.old }
        ensures right { IfOk result (λ b.
            fits_itself (rules_of self.now) (matcher (rules_of self.now) inner) index
            ((rules_of self.now).node index) (view datum.now) ≡ Some b) }
        ensures kept { OnOk result (Holds (rules_of self.now) work.new) }
    {
        match self.node(index) {
            Node::Rule(rule) => self.fits(work, self.body(rule), datum, inner),
            Node::Choice(list) => self.fits_one_of(work, list, datum, inner),
            Node::Array(group) => self.fits_array(work, group, datum, inner),
            Node::Map(group) => self.fits_map(work, group, datum, inner),
            Node::Tag { number, item } => self.fits_tag(work, number, item, datum, inner),
            Node::AnyTag { numbers, item } => {
                self.fits_any_tag(work, numbers, item, datum, inner)
            }
            Node::Simples(numbers) => self.fits_simple(work, numbers, datum, inner),
            Node::Both { other, .. } => self.fits(work, other, datum, inner),
            Node::Unequal { other, .. } => self.fits_not(work, other, datum, inner),
            Node::Size { sizes, .. } => self.fits_size(work, sizes, datum, inner),
            Node::Bits { bits, .. } => self.fits_bits(work, bits, datum, inner),
            Node::Encoded { item, .. } => self.fits_inside(work, item, datum, inner),
            Node::EncodedSequence { array, .. } => { self.fits_sequence(work, array, datum, inner) }
            Node::Pattern { .. } => self.fits_pattern(index, datum),
            Node::Compared {
                comparison,
                limit,
                ..
            } => Ok(compares_with(comparison, limit, datum)),
            leaf => Ok(self.fits_leaf(leaf, datum)),
        }
    }

    /// Whether an item fits one of several types.
    #[inline(never)]
    #[cycle(fits)]
    fn fits_one_of<'a>(
        &self,
        work: &mut Work<'a>,
        list: List,
        datum: &'a Datum,
        inner: u32,
    ) -> Result<bool, Stop>
        requires { Holds (rules_of self.now) work.old }
        ensures right { IfOk result (λ b.
            any_of (λ t. (matcher (rules_of self.now) inner).fits t (view datum.now))
            ((rules_of self.now).list list) ≡ Some b) }
        ensures kept { OnOk result (Holds (rules_of self.now) work.new) }
    {
        'types: for index in self.list(list) {
            if self.fits(work, *index, datum, inner)? {
                return Ok(true);
            }
        }
        Ok(false)
    }

    /// Whether an item is an array, and a group takes all of its members.
    #[inline(never)]
    #[cycle(fits)]
    fn fits_array<'a>(
        &self,
        work: &mut Work<'a>,
        group: usize,
        datum: &'a Datum,
        inner: u32,
    ) -> Result<bool, Stop>
        requires { Holds (rules_of self.now) work.old }
        ensures right { IfOk result (λ b.
            in_array ((matcher (rules_of self.now) inner).takes group) (view datum.now) ≡ Some b) }
        ensures kept { OnOk result (Holds (rules_of self.now) work.new) }
    {
        let Datum::Array(members) = datum else {
            return Ok(false);
        };
        let rest = Rest::Members(members);
        let outcome = self.takes(work, group, &rest, inner)?;
        Ok(outcome.is_whole())
    }

    /// Whether an item is a map, and a group takes all of its pairs.
    #[inline(never)]
    #[cycle(fits)]
    fn fits_map<'a>(
        &self,
        work: &mut Work<'a>,
        group: usize,
        datum: &'a Datum,
        inner: u32,
    ) -> Result<bool, Stop>
        requires { Holds (rules_of self.now) work.old }
        ensures right { IfOk result (λ b.
            in_map ((matcher (rules_of self.now) inner).takes group) (view datum.now) ≡ Some b) }
        ensures kept { OnOk result (Holds (rules_of self.now) work.new) }
    {
        let Datum::Map(pairs) = datum else {
            return Ok(false);
        };
        let rest = Rest::Pairs(all_pairs(self.alloc, pairs)?);
        let outcome = self.takes(work, group, &rest, inner)?;
        Ok(outcome.is_whole())
    }

    /// Whether an item has this tag, and what is below it fits.
    #[inline(never)]
    #[cycle(fits)]
    fn fits_tag<'a>(
        &self,
        work: &mut Work<'a>,
        number: u64,
        index: usize,
        datum: &'a Datum,
        inner: u32,
    ) -> Result<bool, Stop>
        requires { Holds (rules_of self.now) work.old }
        ensures right { IfOk result (λ b.
            in_tag (λ k. Some (number == k)) ((matcher (rules_of self.now) inner).fits index)
            (view datum.now) ≡ Some b) }
        ensures kept { OnOk result (Holds (rules_of self.now) work.new) }
    {
        match datum {
            Datum::Tag(found, content) => {
                if number == *found {
                    self.fits(work, index, content, inner)
                } else {
                    Ok(false)
                }
            }
            _ => Ok(false),
        }
    }

    /// Whether an item has a tag whose number fits, and what is below it fits.
    #[inline(never)]
    #[cycle(fits)]
    fn fits_any_tag<'a>(
        &self,
        work: &mut Work<'a>,
        numbers: Option<usize>,
        index: usize,
        datum: &'a Datum,
        inner: u32,
    ) -> Result<bool, Stop>
        requires { Holds (rules_of self.now) work.old }
        ensures right { IfOk result (λ b.
            in_tag (number_fits (matcher (rules_of self.now) inner).fits numbers)
            ((matcher (rules_of self.now) inner).fits index) (view datum.now) ≡ Some b) }
        ensures kept { OnOk result (Holds (rules_of self.now) work.new) }
    {
        let Datum::Tag(found, content) = datum else {
            return Ok(false);
        };
        match numbers {
            None => self.fits(work, index, content, inner),
            Some(numbers) => {
                if self.fits_number(work, numbers, *found, inner)? {
                    self.fits(work, index, content, inner)
                } else {
                    Ok(false)
                }
            }
        }
    }

    /// Whether an item is a simple value whose number fits.
    #[inline(never)]
    #[cycle(fits)]
    fn fits_simple(
        &self,
        work: &mut Work,
        index: usize,
        datum: &Datum,
        inner: u32,
    ) -> Result<bool, Stop>
        requires { Holds (rules_of self.now) work.old }
        ensures right { IfOk result (λ b.
            in_simple (λ k. (matcher (rules_of self.now) inner).fits index (integer (pos k)))
            (view datum.now) ≡ Some b) }
        ensures kept { OnOk result (Holds (rules_of self.now) work.new) }
    {
        match datum {
            Datum::Simple(number) => { self.fits_number(work, index, u64::from(*number), inner) }
            _ => Ok(false),
        }
    }

    /// Whether an integer fits.
    #[inline(never)]
    #[cycle(fits)]
    pub(crate) fn fits_number(
        &self,
        work: &mut Work,
        index: usize,
        number: u64,
        inner: u32,
    ) -> Result<bool, Stop>
        requires { Holds (rules_of self.now) work.old }
        ensures right { IfOk result (λ b.
            (matcher (rules_of self.now) inner).fits index (integer (pos number)) ≡ Some b) }
        ensures kept { OnOk result (Holds (rules_of self.now) work.new) }
    {
        let number = Datum::Unsigned(number);
        let mut inside = work.inside(self.alloc);
        let fits = self.fits(&mut inside, index, &number, inner)?;
        work.go_on_after(&inside);
        Ok(fits)
    }

    /// Whether an item does not fit.
    #[inline(never)]
    #[cycle(fits)]
    fn fits_not<'a>(
        &self,
        work: &mut Work<'a>,
        index: usize,
        datum: &'a Datum,
        inner: u32,
    ) -> Result<bool, Stop>
        requires { Holds (rules_of self.now) work.old }
        ensures right { IfOk result (λ b.
            fails ((matcher (rules_of self.now) inner).fits index (view datum.now)) ≡ Some b) }
        ensures kept { OnOk result (Holds (rules_of self.now) work.new) }
    {
        let fits = self.fits(work, index, datum, inner)?;
        Ok(!fits)
    }
}
