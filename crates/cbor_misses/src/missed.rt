//! `best_miss` matches an item against a schema and returns what the item misses: where it stops
//! fitting, and what the schema wants there. It says nothing of an item that fits.

use crate::blame::{Best, Blame, Want};
use crate::items::Items;
use crate::run::Run;
use cbor_cddl::{Pattern, Schema, Span, Stop};
use std::alloc::Global;

/// A schema with what is made of it once.
#[derive(Clone, Copy)]
pub struct Prepared<'a> {
    /// The schema.
    pub schema: &'a Schema,
    /// Which of its rules are groups, as [`groups_of`](crate::groups_of) returns it.
    pub groups: &'a [bool],
    /// Its patterns, as [`Schema::patterns`] returns them.
    pub patterns: &'a [Pattern],
}

/// What an item misses.
#[derive(Drop)]
pub struct Missed<'a> {
    /// The item with all parts of it.
    pub items: Items<'a>,
    /// The miss that is reported.
    pub best: Best,
    blame: Blame,
}

impl Missed<'_> {
    /// What the schema wants there.
    pub fn wants(&self) -> &[Want] {
        self.blame.wants(self.best)
    }
}

/// Returns what an item misses. If no miss is found, or not all are looked for because there are
/// too many, it is the best one so far, or the type of the root. Rules and items are followed
/// `deepest` deep.
///
/// The errors are [`Stop::Memory`], and [`Stop::NoItem`] if the bytes are no item.
pub fn best_miss<'a>(
    alloc: Global,
    prepared: Prepared<'a>,
    item: &'a [u8],
    deepest: u32,
) -> Result<Missed<'a>, Stop> {
    let mut run = Run::new(alloc, prepared, item)?;
    let whole = Span {
        start: 0,
        end: item.len(),
    };
    let Some(index) = run.items.read(whole, None)? else {
        return Err(Stop::NoItem);
    };
    let root = prepared.schema.root;
    let looked_for = match run.items.second_key {
        Some(key) => run.miss_second_key(key),
        None => run.fits(root, index, deepest),
    };
    match looked_for {
        Ok(_) | Err(Stop::Work) | Err(Stop::Deep) => {}
        Err(stop) => return Err(stop),
    }
    if run.blame.best.is_none() {
        run.miss_item(root, index)?;
    }
    match run.blame.best {
        Some(best) => Ok(Missed {
            items: run.items,
            best,
            blame: run.blame,
        }),
        None => Err(Stop::NoItem),
    }
}
