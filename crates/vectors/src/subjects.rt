//! Makes the call of a row, whatever its subject. The gate runs the subjects of [`forms`] alone.
//!
//! [`forms`]: crate::forms

pub use crate::forms::answer;
