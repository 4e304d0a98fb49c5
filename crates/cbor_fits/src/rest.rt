//! `Rest`: the members of an array, or the pairs of a map, that are left for a group to take.
//! `Outcome`: what is left after a group that fits, or how a group fails: with or without a cut.
ghost use Rattle.std.specs.Prelude.{◌≡◌, length, IfOk, map};
ghost use Rattle.cbor_fits.specs.View.{view};
ghost use Rattle.cbor_fits.specs.Rests.{rest_view, outcome_view, pair_view, pair_view_of};
ghost use Rattle.cbor_fits.specs.Fits.{size, is_whole};

use crate::value::Datum;
use std::alloc::{AllocError, Global};

/// What is left for a group to take.
#[derive(Drop)]
pub(crate) enum Rest<'a> {
    /// The members of an array from one on.
    Members(&'a [Datum]),
    /// Pairs of a map, in their order.
    Pairs(Vec<&'a (Datum, Datum)>),
}

/// What a group does with what is left.
#[derive(Drop)]
pub(crate) enum Outcome<'a> {
    /// It takes some, or none, and fits. This is left.
    Takes(Rest<'a>),
    /// It does not fit.
    Refuses,
    /// It does not fit, and no occurrence around it goes on without it.
    Cuts,
}

/// The pairs of a map, or those that are left, in their order.
pub(crate) fn all_pairs<'a>(
    alloc: Global,
    pairs: &'a [(Datum, Datum)],
) -> Result<Vec<&'a (Datum, Datum)>, AllocError>
    ensures { IfOk result (λ v. map pair_view_of v.items ≡ map pair_view pairs.now) }
{
    let mut all = Vec::with_capacity(alloc, pairs.len())?;
    'pairs: for pair in pairs {
        all.push(pair)?;
    }
    Ok(all)
}

/// The same pairs.
fn same_pairs<'a>(
    alloc: Global,
    pairs: &[&'a (Datum, Datum)],
) -> Result<Vec<&'a (Datum, Datum)>, AllocError>
    ensures { IfOk result (λ v. map pair_view_of v.items ≡ map pair_view_of pairs.now) }
{
    let mut all = Vec::with_capacity(alloc, pairs.len())?;
    'pairs: for pair in pairs {
        all.push(*pair)?;
    }
    Ok(all)
}

impl<'a> Rest<'a> {
    /// How much is left.
    pub(crate) fn len(&self) -> usize
        ensures { result ≡ size (rest_view self.now) }
    {
        match self {
            Rest::Members(members) => members.len(),
            Rest::Pairs(pairs) => pairs.len(),
        }
    }

    /// The same once more.
    pub(crate) fn copy(&self, alloc: Global) -> Result<Rest<'a>, AllocError>
        ensures { IfOk result (λ rest. rest_view rest ≡ rest_view self.now) }
    {
        match self {
            Rest::Members(members) => Ok(Rest::Members(members)),
            Rest::Pairs(pairs) => Ok(Rest::Pairs(same_pairs(alloc, pairs)?)),
        }
    }
}

impl Outcome<'_> {
    /// Whether nothing is left.
    pub(crate) fn is_whole(&self) -> bool
        ensures { result ≡ is_whole (outcome_view self.now) }
    {
        match self {
            Outcome::Takes(rest) => rest.len() == 0,
            _ => false,
        }
    }
}
