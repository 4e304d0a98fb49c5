//! `Checker`: a schema with its patterns compiled. Its call `misfit` matches an item against the
//! schema and returns why it does not fit. `cbor_fits` decides whether it fits; `cbor_misses` finds
//! what it misses.
ghost use Rattle.std.specs.Prelude.{◌≡◌, ◌<◌, Some, IfOk, IfSome, is_none, length};
ghost use Rattle.cbor_schema.specs.Verdict.{fits};

use crate::message::Misfit;
use crate::misfit::Words;
use cbor_cddl::{Fault, Pattern, Schema, Stop};
use cbor_fits::{DEEPEST, Tables};
use cbor_misses::{Prepared, best_miss, groups_of};
use cbor_places::Piece;
use std::alloc::Global;

/// A schema that is ready to be matched.
#[derive(Drop)]
pub struct Checker {
    schema: Schema,
    /// Which rules are groups.
    groups: Vec<bool>,
    /// The patterns, in the order of their nodes.
    patterns: Vec<Pattern>,
}

impl Checker {
    /// Prepares a schema. The only fault is that of a pattern.
    pub fn new(alloc: Global, schema: Schema) -> Result<Checker, Fault>
        ensures { IfOk result (λ checker. checker.schema ≡ schema) }
    {
        let groups = groups_of(alloc, &schema)?;
        let patterns = schema.patterns(alloc)?;
        Ok(Checker {
            schema,
            groups,
            patterns,
        })
    }

    /// The schema.
    pub fn schema(&self) -> &Schema
        ensures { result.now ≡ self.now.schema }
    {
        &self.schema
    }

    /// Why an item does not fit the schema; `None` if it does. An item in which a map has a key
    /// twice fits nothing. Long keys of a path are named by their places in the data.
    ///
    /// The errors are [`Stop::Memory`], [`Stop::NoItem`] if the bytes are no item, [`Stop::Work`]
    /// after 10 million steps, and [`Stop::Deep`] if rules and items are nested more than 700 deep.
    pub fn misfit(&self, alloc: Global, item: Piece) -> Result<Option<Misfit>, Stop>
        ensures verdict { IfOk result (λ m. fits self.now item.entry.bytes.now ≡ Some (is_none m)) }
        ensures place { IfOk result
            (λ found. IfSome found (λ m. m.place < length item.entry.bytes.now)) }
    {
        if Tables::new(alloc, &self.schema, &self.patterns).accepts(item.bytes)? {
            return Ok(None);
        }
        if item.bytes.is_empty() {
            return Err(Stop::NoItem);
        }
        let mut misfit = self.explained(alloc, item)?;
        misfit.place = misfit.place.min(item.bytes.len() - 1);
        Ok(Some(misfit))
    }

    /// Why an item does not fit.
    fn explained(&self, alloc: Global, item: Piece) -> Result<Misfit, Stop> {
        let prepared = Prepared {
            schema: &self.schema,
            groups: &self.groups,
            patterns: &self.patterns,
        };
        let missed = best_miss(alloc, prepared, item.bytes, DEEPEST)?;
        let words = Words {
            alloc,
            schema: &self.schema,
            missed: &missed,
        };
        words.misfit(item.begins)
    }
}
