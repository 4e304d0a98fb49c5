//! `Blame`: collects the places where an item does not fit, and keeps the one to report: the place
//! before which the most bytes fit, or, of several such places, the last in the data. `Tried`:
//! counts the alternatives of a choice that came less far.

use cbor_cddl::Span;
use std::alloc::{AllocError, Global};

/// What was wanted.
#[derive(Clone, Copy, PartialEq, Eq)]
pub enum Want {
    /// A type, by its node.
    Type(usize),
    /// A key of a map, by its node.
    Key(usize),
    /// No more keys of a node than this many.
    AtMost(usize, u64),
    /// The end of an array, after this many items.
    ArrayEnd(usize),
    /// The end of a map.
    MapEnd,
    /// A key that the map does not have yet.
    OtherKey,
}

/// What was there in its place.
#[derive(Clone, Copy)]
pub enum Found {
    /// The item.
    Item,
    /// The string, with its length.
    Sized,
    /// A bit that is set, of the item.
    Bit(u64),
    /// A byte string that is no CBOR.
    NoCbor,
    /// The end of an array of this many items.
    ArrayEnd(usize),
    /// A map of this many pairs, without the key.
    Without(usize),
    /// A key that is like the one that is wanted, or one too many.
    Key,
    /// A key that no entry has, of a map that has to fit this group.
    OtherKey(usize),
    /// A key that the map has had before.
    SecondKey,
}

/// How many alternatives came less far.
#[derive(Clone, Copy)]
pub struct LessFar {
    pub count: usize,
    /// The name of what they are alternatives of, in the source of the schema.
    pub name: Span,
}

/// A place where an item did not fit.
#[derive(Clone, Copy)]
pub struct Miss {
    /// How many bytes fit before.
    pub gained: usize,
    /// The item there.
    pub index: usize,
    /// Where that is in the data, and where it begins itself.
    pub place: usize,
    pub start: usize,
    pub found: Found,
    /// The name of the rule or of the entry that is innermost there.
    pub name: Span,
}

/// A miss, and all that was wanted there.
#[derive(Clone, Copy)]
pub struct Best {
    pub miss: Miss,
    /// What was wanted, in [`Blame::wants`].
    wants: Span,
    pub less_far: Option<LessFar>,
}

/// What did not fit.
#[derive(Drop)]
pub(crate) struct Blame {
    /// The miss that came furthest.
    pub(crate) best: Option<Best>,
    /// What was wanted at misses that may be reported.
    wants: Vec<Want>,
    /// How many parts are being tried whose misses do not count.
    pub(crate) muted: usize,
}

/// What was to be reported before a part was tried.
#[derive(Clone, Copy)]
pub(crate) struct Mark {
    pub(crate) best: Option<Best>,
    wants: usize,
}

impl Best {
    /// Whether another one is at the same place, after as many bytes.
    pub(crate) fn ties(self, other: Best) -> bool {
        self.miss.gained == other.miss.gained && self.miss.place == other.miss.place
    }

    /// Whether this one is reported, and not the other one, which does not tie.
    pub(crate) fn beats(self, other: Best) -> bool {
        let (own, others) = (self.miss.gained, other.miss.gained);
        own > others || own == others && self.miss.place > other.miss.place
    }
}

impl Blame {
    /// All fits so far.
    pub(crate) fn new(alloc: Global) -> Blame {
        Blame {
            best: None,
            wants: Vec::new(alloc),
            muted: 0,
        }
    }

    /// What is to be reported now.
    pub(crate) fn mark(&self) -> Mark {
        Mark {
            best: self.best,
            wants: self.wants.len(),
        }
    }

    /// Forgets what was noted since the mark.
    pub(crate) fn restore(&mut self, mark: Mark) {
        self.best = mark.best;
        self.wants.truncate(mark.wants);
    }

    /// Goes on from a mark with what was noted since, which came further by these bytes.
    pub(crate) fn resume(&mut self, mark: Mark, gained: usize) -> Result<(), AllocError> {
        let since = self.best;
        self.best = mark.best;
        if let Some(mut best) = since {
            best.miss.gained = best.miss.gained.saturating_add(gained);
            self.merge(best)?;
        }
        Ok(())
    }

    /// Takes note of a miss.
    pub(crate) fn add(&mut self, want: Want, miss: Miss) -> Result<(), AllocError> {
        if self.muted > 0 {
            return Ok(());
        }
        let start = self.wants.len();
        let end = start.saturating_add(1);
        let one = Best {
            miss,
            wants: Span { start, end },
            less_far: None,
        };
        if let Some(best) = self.best
            && best.beats(one)
        {
            return Ok(());
        }
        self.wants.push(want)?;
        self.merge(one)
    }

    /// Tells another miss if it beats the best one, or both if they tie.
    pub(crate) fn merge(&mut self, other: Best) -> Result<(), AllocError> {
        let Some(best) = self.best else {
            self.best = Some(other);
            return Ok(());
        };
        if best.ties(other) {
            let wants = self.joined(best.wants, other.wants)?;
            self.best = Some(Best {
                miss: best.miss,
                wants,
                less_far: best.less_far,
            });
        } else if other.beats(best) {
            self.best = Some(other);
        }
        Ok(())
    }

    /// What is wanted at a miss.
    pub(crate) fn wants(&self, best: Best) -> &[Want] {
        self.wants
            .get(best.wants.start..best.wants.end)
            .unwrap_or(&[])
    }

    /// The want at a place.
    fn want(&self, place: usize) -> Want {
        self.wants.get(place).copied().unwrap_or(Want::MapEnd)
    }

    /// Whether a want is among some.
    fn has(&self, wants: Span, want: Want) -> bool {
        let wants = self.wants.get(wants.start..wants.end).unwrap_or(&[]);
        wants.contains(&want)
    }

    /// The wants of two misses, each once: the first ones alone if they have the others.
    fn joined(&mut self, first: Span, other: Span) -> Result<Span, AllocError> {
        let mut joined = first;
        for place in other.start..other.end {
            let want = self.want(place);
            if self.has(joined, want) {
                continue;
            }
            if joined.end != self.wants.len() {
                joined = self.copied(joined)?;
            }
            self.wants.push(want)?;
            joined.end = self.wants.len();
        }
        Ok(joined)
    }

    /// A copy of some wants, behind all others.
    fn copied(&mut self, wants: Span) -> Result<Span, AllocError> {
        let start = self.wants.len();
        for place in wants.start..wants.end {
            let want = self.want(place);
            self.wants.push(want)?;
        }
        let end = self.wants.len();
        Ok(Span { start, end })
    }

    /// Keeps only the wants of the best miss, of those since the mark.
    pub(crate) fn compact(&mut self, mark: Mark) {
        let Some(best) = self.best else {
            self.wants.truncate(mark.wants);
            return;
        };
        let Span { start, end } = best.wants;
        if start < mark.wants {
            self.wants.truncate(end.max(mark.wants));
            return;
        }
        let mut next = mark.wants;
        for place in start..end {
            let want = self.want(place);
            if let Some(slot) = self.wants.get_mut(next) {
                *slot = want;
            }
            next = next.saturating_add(1);
        }
        self.wants.truncate(next);
        self.best = Some(Best {
            miss: best.miss,
            wants: Span {
                start: mark.wants,
                end: next,
            },
            less_far: best.less_far,
        });
    }
}

/// The alternatives of a choice that were tried, if none fits.
#[derive(Clone, Copy)]
pub(crate) struct Tried {
    /// The miss of the one that came furthest.
    pub(crate) best: Option<Best>,
    count: usize,
    /// How many came as far.
    furthest: usize,
    /// Whether those that are reported together have several names.
    pub(crate) names_differ: bool,
}

impl Tried {
    /// None was tried.
    pub(crate) const NONE: Tried = Tried {
        best: None,
        count: 0,
        furthest: 0,
        names_differ: false,
    };

    /// Counts the miss of an alternative. If it ties, its name is the same or not.
    pub(crate) fn count(&mut self, one: Best, has_same_name: bool) {
        self.count = self.count.saturating_add(1);
        let Some(best) = self.best else {
            self.furthest = 1;
            return;
        };
        if one.miss.gained > best.miss.gained {
            self.furthest = 0;
        }
        if one.miss.gained >= best.miss.gained {
            self.furthest = self.furthest.saturating_add(1);
        }
        if best.ties(one) {
            self.names_differ |= !has_same_name;
        } else if one.beats(best) {
            self.names_differ = false;
        }
    }

    /// How many came less far.
    pub(crate) fn less_far(self) -> usize {
        self.count.saturating_sub(self.furthest)
    }
}
