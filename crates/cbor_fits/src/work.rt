//! `Work`: how many steps a match has left, and the answers that it has found. Rules such as
//! `a = [a] / [a, a] / int` ask the same of one item again and again. So a match that takes long
//! keeps its answers in a table, where a new answer takes the place of an older one.

ghost use Rattle.std.specs.Prelude.{◌≡◌, IfSome, OnOk};
ghost use Rattle.cbor_fits.specs.Rules.{Rules};
ghost use Rattle.cbor_fits.specs.Kept.{Holds, IsRight};

use crate::same::same;
use crate::value::Datum;
use cbor_cddl::Stop;
use std::alloc::Global;

/// The most steps of a match.
const MOST_STEPS: u32 = 10_000_000;

/// How many steps a match makes before it keeps answers.
const STEPS_BEFORE_ANSWERS: u32 = 10_000;

/// An answer that took fewer steps is not kept.
const LEAST_STEPS: u32 = 8;

/// How many parts of items are compared for a step.
const PARTS_IN_STEP: u32 = 16;

/// How many answers the table has room for.
const SLOTS: usize = 4096;

/// Whether an item fits a type, within a number of levels.
#[derive(Clone, Copy)]
pub(crate) struct Question<'a> {
    /// The index of the type.
    pub(crate) index: usize,
    /// How many levels there are.
    pub(crate) depth: u32,
    /// The item.
    pub(crate) datum: &'a Datum,
}

/// A question with its answer.
#[derive(Clone, Copy)]
pub(crate) struct Known<'a> {
    /// The question.
    pub(crate) question: Question<'a>,
    /// Whether the item fits.
    pub(crate) fits: bool,
    /// How many steps the answer took.
    pub(crate) steps: u32,
}

/// How many steps a match has left, and the answers that it has found.
#[derive(Drop)]
pub(crate) struct Work<'a> {
    /// How many steps are left.
    left: u32,
    /// Answers are kept once fewer steps are left.
    keeps_below: u32,
    /// The answers, each in the slot of its question. No slot is there before the first answer.
    known: Vec<Option<Known<'a>>>,
}

impl<'a> Work<'a> {
    /// All steps are left, and nothing is known.
    pub(crate) fn new(alloc: Global) -> Work<'a>
        ensures { (r : Rules) → Holds r result }
    {
        Work::with_steps(alloc, MOST_STEPS)
    }

    /// This many steps are left, and nothing is known.
    fn with_steps(alloc: Global, left: u32) -> Work<'a>
        ensures { (r : Rules) → Holds r result }
    {
        Work {
            left,
            keeps_below: left.saturating_sub(STEPS_BEFORE_ANSWERS),
            known: Vec::new(alloc),
        }
    }

    /// The work on an item that is made on the spot, with the steps that are left.
    pub(crate) fn inside<'b>(&self, alloc: Global) -> Work<'b>
        ensures { (r : Rules) → Holds r result }
    {
        Work::with_steps(alloc, self.left)
    }

    /// Goes on with the steps that such work has left.
    pub(crate) fn go_on_after(&mut self, inside: &Work)
        ensures { (r : Rules) → Holds r self.old → Holds r self.new }
    {
        self.left = inside.left;
    }

    /// Takes a step.
    pub(crate) fn step(&mut self) -> Result<(), Stop>
        ensures { (r : Rules) → Holds r self.old → Holds r self.new }
    {
        if self.left == 0 {
            return Err(Stop::Work);
        }
        self.left -= 1;
        Ok(())
    }

    /// Whether answers on this item are kept by now. They are cheap if it holds no item.
    pub(crate) fn keeps(&self, datum: &Datum) -> bool {
        match datum {
            Datum::Array(_) | Datum::Map(_) | Datum::Tag(..) => self.left < self.keeps_below,
            _ => false,
        }
    }

    /// How many steps are left.
    pub(crate) fn left(&self) -> u32 {
        self.left
    }

    /// The answer to a question, if the slot has it. An answer stays the same with more levels. To
    /// compare two items takes steps, but no more than the answer took.
    #[inline(never)]
    pub(crate) fn answer(&mut self, slot: usize, question: Question) -> Option<bool>
        ensures right { IfSome result (λ b. (r : Rules) → Holds r self.old
            → IsRight r question.entry b) }
        ensures kept { (r : Rules) → Holds r self.old → Holds r self.new }
    {
        if slot >= self.known.len() {
            return None;
        }
        let Some(known) = self.known[slot] else {
            return None;
        };
        let other = known.question;
        let most = known.steps.min(self.left).saturating_mul(PARTS_IN_STEP);
        let mut parts = most;
        if other.index == question.index
            && other.depth <= question.depth
            && same(other.datum, question.datum, &mut parts)
        {
            let steps = most.saturating_sub(parts) / PARTS_IN_STEP;
            self.left = self.left.saturating_sub(steps);
            Some(known.fits)
        } else {
            None
        }
    }

    /// Makes the slots, unless they are there.
    fn make_slots(&mut self) -> Result<(), Stop>
        ensures { (r : Rules) → Holds r self.old → Holds r self.new }
    {
        if self.known.is_empty() {
            self.known.resize(SLOTS, None)?;
        }
        Ok(())
    }

    /// Keeps an answer in a slot, if it took enough steps.
    #[inline(never)]
    pub(crate) fn keep(&mut self, slot: usize, known: Known<'a>) -> Result<(), Stop>
        ensures { OnOk result ((r : Rules) → Holds r self.old
            → IsRight r known.entry.question known.entry.fits → Holds r self.new) }
    {
        if known.steps < LEAST_STEPS {
            return Ok(());
        }
        self.make_slots()?;
        if slot < self.known.len() {
            self.known[slot] = Some(known);
        }
        Ok(())
    }
}
