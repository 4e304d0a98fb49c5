//! `Entry`: an entry of a group of CDDL. `Split`: divides the pairs of a map into those that an
//! entry takes and those that it leaves (RFC 8610, sections 3.5.1 to 3.5.4).

ghost use Rattle.std.specs.Prelude.{◌≡◌, OnOk, true, [], map};
ghost use Rattle.cbor_fits.specs.Rests.{pair_view, outcome_view};
ghost use Rattle.cbor_fits.specs.Splits.{split_view};
ghost use Rattle.cbor_fits.specs.Fits.{with_pair, entry_outcome, no_split};

use crate::rest::{Outcome, Rest};
use crate::value::Datum;
use cbor_cddl::Occurrence;
use std::alloc::{AllocError, Global};

/// An entry of a group.
#[derive(Clone, Copy)]
pub(crate) struct Entry {
    /// The type of the key.
    pub(crate) key: usize,
    /// Whether no later entry takes a pair whose key fits.
    pub(crate) cut: bool,
    /// The type of the value.
    pub(crate) value: usize,
    /// How often it occurs.
    pub(crate) occurrence: Occurrence,
}

/// What an entry leaves of the pairs that it has gone over.
#[derive(Drop)]
pub(crate) struct Split<'a> {
    /// The pairs that it leaves.
    left: Vec<&'a (Datum, Datum)>,
    /// How many more it has to take.
    least: u64,
    /// How many more it may take.
    most: u64,
    /// Whether it takes each pair whose key fits.
    all_taken: bool,
}

impl<'a> Split<'a> {
    /// Nothing is gone over yet.
    pub(crate) fn new(alloc: Global, occurrence: Occurrence) -> Split<'a>
        ensures { split_view result ≡ no_split occurrence }
    {
        Split {
            left: Vec::new(alloc),
            least: occurrence.least,
            most: occurrence.most,
            all_taken: true,
        }
    }

    /// Takes or leaves a pair, whose key and value fit or not.
    pub(crate) fn add(
        &mut self,
        pair: &'a (Datum, Datum),
        fits_key: bool,
        fits_value: bool,
    ) -> Result<(), AllocError>
        ensures { OnOk result (split_view self.new
            ≡ with_pair (pair_view pair.now) fits_key fits_value (split_view self.old)) }
    {
        if !fits_key {
            self.left.push(pair)?;
        } else if !fits_value || self.most == 0 {
            self.left.push(pair)?;
            self.all_taken = false;
        } else {
            self.least = self.least.saturating_sub(1);
            self.most -= 1;
        }
        Ok(())
    }

    /// What the entry does once all pairs are gone over.
    pub(crate) fn outcome(self, cut: bool) -> Outcome<'a>
        ensures { outcome_view result ≡ entry_outcome cut (split_view self.entry) }
    {
        if cut && !self.all_taken {
            return Outcome::Cuts;
        }
        if self.least != 0 {
            return Outcome::Refuses;
        }
        Outcome::Takes(Rest::Pairs(self.left))
    }
}
