//! `show_of` turns the arguments into a `Show`, which tells `cbor_inspect` what to write: the
//! style, the names, the path, and whether only one item.

use crate::job::Job;
use cbor_inspect::{Naming, Show};

/// What is written of items, by the arguments, with these names.
pub fn show_of<'a>(job: &'a Job, names: Option<Naming<'a>>) -> Show<'a> {
    Show {
        style: job.show.style,
        names,
        steps: &job.show.steps,
        one: job.show.one || job.item.is_some(),
        marks: None,
    }
}
