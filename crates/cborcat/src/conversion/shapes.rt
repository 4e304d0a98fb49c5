//! `Shapes`: whether what was shown has the shape of the type of `--as`.

use cbor_bytes::skip::after_front;
use cbor_inspect::{Naming, parts_of};
use cborcat_arguments::{Job, show_of};
use std::alloc::{AllocError, Global};

/// What the items that were shown are, or the parts of them.
#[derive(Clone, Copy)]
pub struct Shapes {
    /// Whether one has the shape.
    fits: bool,
    /// Whether one does not.
    misses: bool,
}

impl Shapes {
    /// Nothing was shown yet.
    pub fn none() -> Shapes {
        Shapes {
            fits: false,
            misses: false,
        }
    }

    /// Whether something was shown, and nothing has the shape.
    pub fn all_miss(self) -> bool {
        self.misses && !self.fits
    }

    /// These with items that were shown, as long as none has the shape.
    pub fn with(
        self,
        alloc: Global,
        job: &Job,
        tables: Option<Naming<'_>>,
        items: &[u8],
    ) -> Result<Shapes, AllocError> {
        let mut shapes = self;
        let mut rest = items;
        for _ in 0..items.len() {
            let Some(after) = after_front(rest, 1) else {
                break;
            };
            if shapes.fits {
                break;
            }
            let len = rest.len().saturating_sub(after.len());
            shapes.add(alloc, job, tables, rest.get(..len).unwrap_or(b""))?;
            rest = after;
        }
        Ok(shapes)
    }

    /// Adds an item, or the parts of it that the path leads to.
    fn add(
        &mut self,
        alloc: Global,
        job: &Job,
        tables: Option<Naming<'_>>,
        item: &[u8],
    ) -> Result<(), AllocError> {
        self.add_part(tables, item);
        // A path may begin with names that the type gives the whole item.
        if self.fits || job.show.steps.is_empty() {
            return Ok(());
        }
        for part in &parts_of(alloc, &show_of(job, tables), item)? {
            self.add_part(tables, part.span.bytes(item));
        }
        Ok(())
    }

    /// Adds what was shown.
    fn add_part(&mut self, tables: Option<Naming<'_>>, part: &[u8]) {
        if let Some(
            Naming {
                names,
                known: Some(known),
                ..
            },
        ) = tables
        {
            let fits = names.has_shape(known, part);
            self.fits |= fits;
            self.misses |= !fits;
        }
    }
}
