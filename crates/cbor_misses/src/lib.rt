//! Finds where a CBOR item stops fitting a schema, and what the schema wants there: [`best_miss`]
//! returns both as a [`Missed`]. It does not decide whether the item fits.
#![tactic(auto)]

mod arrays;
mod blame;
mod controls;
mod groups;
mod items;
mod maps;
mod missed;
mod order;
mod run;
mod types;

pub use blame::{Best, Found, LessFar, Miss, Want};
pub use groups::groups_of;
pub use items::{Item, Items, Kind};
pub use missed::{Missed, Prepared, best_miss};
