//! Adds the names of the fields of SenML records (RFC 8428 section 6) to the tables.

use crate::known::rows::entry;
use crate::{Definition, Key, Names, Part, Shape, What};
use std::alloc::AllocError;

const RECORD: &[Part<'static>] = &[
    entry!(-1, "bver"),
    entry!(-2, "bn"),
    entry!(-3, "bt"),
    entry!(-4, "bu"),
    entry!(-5, "bv"),
    entry!(-6, "bs"),
    entry!(0, "n"),
    entry!(1, "u"),
    entry!(2, "v"),
    entry!(3, "vs"),
    entry!(4, "vb"),
    entry!(5, "s"),
    entry!(6, "t"),
    entry!(7, "ut"),
    entry!(8, "vd"),
];

/// Adds these types.
pub(crate) fn add(names: &mut Names) -> Result<(), AllocError> {
    names.add(Definition::new("SenML", Shape::Each("SenML_Record")), &[])?;
    names.add(Definition::new("SenML_Record", Shape::Map), RECORD)?;
    Ok(())
}
